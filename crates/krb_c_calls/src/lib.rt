//! The calls of the library for C: of the cryptography; of messages and their parts, items of octets, per-message tokens and proxies;
//! and `frames`, of PACs, GSS tokens, SPNEGO and kpasswd messages.
#![tactic(auto)]

mod call_error;
mod checksums;
mod errors;
pub mod frames;
pub mod handing;
pub mod items;
mod kept;
mod kept_checksums;
mod keys;
pub mod laws;
mod messages;
pub mod parts;
pub mod proxies;
mod sizes;
pub mod suites;
pub mod tokens;

pub use call_error::{CallError, DONE, ROOM};
pub use checksums::{checksum, summed, verify_checksum};
pub use kept::{KeptKey, decrypt_kept, decrypted_kept, encrypt_kept, encrypted_kept, keep_key};
pub use kept_checksums::{KeptChecksumKey, checksum_kept, keep_checksum_key, verify_checksum_kept};
pub use keys::{n_fold, random_to_key, string_to_key};
pub use messages::{decrypt, decrypted, encrypt, encrypted};
pub use sizes::{
    checksum_key_size, checksum_size, confounder_size, encrypted_size, key_size, seed_size,
};

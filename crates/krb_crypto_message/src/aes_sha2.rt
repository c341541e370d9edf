//! AES with SHA-2 for Kerberos (RFC 8009): keys, messages and checksums. A size of the key names the suite: 16 octets go with
//! SHA-256, and 32 with SHA-384.

mod integrity;
mod key_derivation;
mod keyed_hash;
mod mac;
mod message;
mod message_keys;
mod prepared;

pub use crate::aes::random_to_key;
pub use integrity::{integrity_checksum, keyed_checksum};
pub use key_derivation::derive_key_from_password;
pub use mac::checksum_size;
pub use message::{
    decrypt_message, decrypt_message_no_checksum, encrypt_message, encrypt_message_no_checksum,
};
pub use message_keys::derive_message_keys;
pub use prepared::{Sha2ChecksumKey, Sha2OpeningKey, Sha2SealingKey};

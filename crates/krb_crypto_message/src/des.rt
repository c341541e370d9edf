//! Triple DES for Kerberos (RFC 3961, 6.3): keys, messages and checksums.

mod integrity;
mod key_derivation;
mod key_of_seed;
mod message;
mod message_keys;
mod parts;
mod prepared;

pub use integrity::{integrity_checksum, keyed_checksum};
pub use key_derivation::{derive_key, derive_key_from_password, random_to_key};
pub use message::{
    decrypt_message, decrypt_message_no_checksum, encrypt_message, encrypt_message_no_checksum,
};
pub use message_keys::derive_message_keys;
pub use prepared::{Des3ChecksumKey, Des3MessageKey};

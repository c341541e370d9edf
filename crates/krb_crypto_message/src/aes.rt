//! AES for Kerberos (RFC 3962): keys, messages and checksums.

mod integrity;
mod key_derivation;
mod message;
mod message_keys;
mod prepared;

pub use integrity::{checksum_sha_aes, integrity_checksum};
pub use key_derivation::{derive_key, derive_key_from_password, random_to_key};
pub use message::{
    decrypt_message, decrypt_message_no_checksum, encrypt_message, encrypt_message_no_checksum,
};
pub use message_keys::derive_message_keys;
pub use prepared::{AesChecksumKey, AesOpeningKey, AesSealingKey};

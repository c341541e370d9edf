//! AES with SHA-2 for Kerberos (RFC 8009). In the calls the size of the key names the suite.

mod checksums;
mod suites;

pub use checksums::{HmacSha256128Aes128, HmacSha384192Aes256};
pub use krb_crypto_message::aes_sha2::{
    checksum_size, decrypt_message, decrypt_message_no_checksum, derive_key_from_password,
    encrypt_message, encrypt_message_no_checksum, integrity_checksum, keyed_checksum,
    random_to_key,
};
pub use suites::{Aes128CtsHmacSha256128, Aes256CtsHmacSha384192};

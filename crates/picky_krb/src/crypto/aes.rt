//! AES for Kerberos: with SHA-1 (RFC 3962), and with SHA-2 (RFC 8009). The free calls are those of RFC 3962.
//!
//! `AesKey` and what the suites use are by vector permutes; `AesTableKey` is the same cipher by word tables, for machines whose vectors
//! have no byte permute, and reads memory at addresses that depend on the key and on the block.

pub use krb_crypto_aes_tables::AesTableKey;
pub use krb_crypto_block::{AesDecryptionKey, AesEncryptionKey};
pub use krb_crypto_suite_types::aes::{
    AES_BLOCK_SIZE, AES_MAC_SIZE, AES128_KEY_SIZE, AES256_KEY_SIZE, Aes128CtsHmacSha196,
    Aes256CtsHmacSha196, AesKey, AesSize, HmacSha196Aes128, HmacSha196Aes256, checksum_sha_aes,
    decrypt_aes_cbc, decrypt_aes_cts, decrypt_message, decrypt_message_no_checksum, derive_key,
    derive_key_from_password, encrypt_aes_cbc, encrypt_aes_cts, encrypt_message,
    encrypt_message_no_checksum, random_to_key, swap_two_last_blocks,
};
pub use krb_crypto_suite_types::aes_sha2::{
    Aes128CtsHmacSha256128, Aes256CtsHmacSha384192, HmacSha256128Aes128, HmacSha384192Aes256,
};

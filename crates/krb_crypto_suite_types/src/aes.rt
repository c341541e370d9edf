//! AES for Kerberos (RFC 3962).

mod checksums;
mod suites;

pub use checksums::{HmacSha196Aes128, HmacSha196Aes256};
pub use krb_crypto_block::{
    AES_BLOCK_SIZE, AES_MAC_SIZE, AES128_KEY_SIZE, AES256_KEY_SIZE, AesKey, AesSize,
    decrypt_aes_cbc, decrypt_aes_cts, encrypt_aes_cbc, encrypt_aes_cts, swap_two_last_blocks,
};
pub use krb_crypto_message::aes::{
    checksum_sha_aes, decrypt_message, decrypt_message_no_checksum, derive_key,
    derive_key_from_password, encrypt_message, encrypt_message_no_checksum, random_to_key,
};
pub use suites::{Aes128CtsHmacSha196, Aes256CtsHmacSha196};

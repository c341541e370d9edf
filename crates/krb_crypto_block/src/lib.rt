//! The primitives of Kerberos cryptography: block ciphers and their modes, and n-fold. Re-exports HMAC, PBKDF2, the key
//! derivation function of RFC 8009 and the errors of the cryptography.
#![tactic(auto)]

mod aes;
pub mod aes_key_expansion;
mod aes_modes;
mod block_cipher;
mod cbc;
mod des;
mod des_modes;
pub mod in_place;
pub mod laws;
mod nfold;
pub mod octets;
mod stealing;
pub mod word_tables;

pub use aes::{
    AES_BLOCK_SIZE, AES_MAC_SIZE, AES128_KEY_SIZE, AES256_KEY_SIZE, AesDecryptionKey,
    AesEncryptionKey, AesKey, AesSize,
};
pub use aes_modes::{
    decrypt_aes_cbc, decrypt_aes_cts, encrypt_aes_cbc, encrypt_aes_cts, swap_two_last_blocks,
};
pub use des::{DES3_BLOCK_SIZE, DES3_KEY_SIZE, DES3_MAC_SIZE, DES3_SEED_LEN, DesKey};
pub use des_modes::{decrypt_des, encrypt_des, pad_blocks};
pub use krb_crypto_hash::{
    KerberosCryptoError, KerberosCryptoResult, hmac_sha1, hmac_sha256, hmac_sha384,
    kdf_hmac_sha256, kdf_hmac_sha384, pbkdf2_hmac_sha1, pbkdf2_hmac_sha256, pbkdf2_hmac_sha384,
};
pub use nfold::n_fold;

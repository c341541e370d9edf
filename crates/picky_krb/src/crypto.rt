//! Cryptography of Kerberos (RFC 3961, RFC 3962, RFC 8009).

pub mod aes;
pub mod prepared;

pub use krb_crypto::{
    Checksum, ChecksumSuite, Cipher, CipherSuite, DecryptWithoutChecksum, EncryptWithoutChecksum,
    KERBEROS, KerberosCryptoError, KerberosCryptoResult, diffie_hellman, encrypt_with_rng,
    usage_kc, usage_ke, usage_ki,
};
pub use krb_crypto_block::n_fold;
pub use krb_crypto_hash::{
    hmac_sha1, hmac_sha256, hmac_sha384, kdf_hmac_sha256, kdf_hmac_sha384, pbkdf2_hmac_sha1,
    pbkdf2_hmac_sha256, pbkdf2_hmac_sha384,
};
pub use krb_crypto_suite_types::des;

//! Triple DES for Kerberos (RFC 3961, 6.3).

mod checksum;
mod suite;

pub use checksum::HmacSha1Des3Kd;
pub use krb_crypto_block::{
    DES3_BLOCK_SIZE, DES3_KEY_SIZE, DES3_MAC_SIZE, DES3_SEED_LEN, DesKey, decrypt_des, encrypt_des,
};
pub use krb_crypto_message::des::{
    decrypt_message, decrypt_message_no_checksum, derive_key, derive_key_from_password,
    encrypt_message, encrypt_message_no_checksum, random_to_key,
};
pub use suite::Des3CbcSha1Kd;

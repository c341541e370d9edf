//! The suites of Kerberos by number (RFC 3961, RFC 3962, RFC 8009), shared secrets (RFC 4556), and encrypted parts of messages.
#![tactic(auto)]

mod checksum;
mod checksum_suite;
mod cipher;
mod cipher_suite;
pub mod confounder;
pub mod diffie_hellman;
mod generator;
pub mod laws;
pub mod message_keys;
pub mod prepared;
pub mod seal;
mod suite_checksums;
mod suite_ciphers;

pub use checksum::Checksum;
pub use checksum_suite::ChecksumSuite;
pub use cipher::Cipher;
pub use cipher_suite::CipherSuite;
pub use generator::encrypt_with_rng;
pub use krb_crypto_block::{KerberosCryptoError, KerberosCryptoResult};
pub use krb_crypto_message::{
    DecryptWithoutChecksum, EncryptWithoutChecksum, KERBEROS, usage_kc, usage_ke, usage_ki,
};

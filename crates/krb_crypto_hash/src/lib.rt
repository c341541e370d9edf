//! Message authentication codes and what is derived by them: HMAC (RFC 2104) over hash functions, PBKDF2 (RFC 8018), the key
//! derivation function of RFC 8009, and the errors of the cryptography.
#![tactic(auto)]

pub mod comparison;
mod error;
pub mod hash;
mod hmac;
mod kdf;
pub mod keyed;
mod pbkdf2;
pub mod xor;

pub use error::{KerberosCryptoError, KerberosCryptoResult};
pub use hmac::{hmac_sha1, hmac_sha256, hmac_sha384};
pub use kdf::{kdf_hmac_sha256, kdf_hmac_sha384};
pub use pbkdf2::{pbkdf2_hmac_sha1, pbkdf2_hmac_sha256, pbkdf2_hmac_sha384};

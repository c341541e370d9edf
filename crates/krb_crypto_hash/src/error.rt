//! The errors of the cryptography.

ghost use Rattle.std.specs.Prelude.{◌≡◌, MatchBool};
ghost use Rattle.krb_crypto_hash.specs.declared.error.KerberosCryptoError.TheVariants.{OutOfMemory};

use std::alloc::{AllocError, AllocFailed};
use thiserror::Error;

/// An error of the cryptography. Lengths are in octets.
#[derive(Debug, Drop, Error)]
pub enum KerberosCryptoError {
    /// The key's length, and the length of the suite's keys; a caller's own cipher returns the same. Also 0 and 1, which are no
    /// key's lengths, for an empty password with an empty salt under triple DES, where there is no octet to fold.
    #[error("Invalid key length: {0}. Expected: {1}")]
    KeyLength(usize, usize),
    /// The length of the octets, and the least that they may have. Each suite's decryption, with and without the checksum, returns
    /// it where the confounder and the checksum do not fit: 28, in the suites of RFC 8009 32 or 40. Under AES ciphertext stealing
    /// returns it in both directions, 16, and `swap_two_last_blocks`, 32.
    #[error("Invalid cipher length: {0}. Expected at least: {1}")]
    CipherLength(usize, usize),
    /// A number that names no suite.
    #[error("Invalid algorithm identifier: {0}")]
    AlgorithmIdentifier(usize),
    /// Octets that name no suite.
    #[error("Invalid algorithm identifier: {0:?}")]
    AlgorithmIdentifierData(Vec<u8>),
    /// The integrity checksum is not that of the decrypted octets.
    #[error("Bad integrity: calculated hmac is different than provided")]
    IntegrityCheck,
    /// No call returns it.
    #[error("Cipher error: {0}")]
    CipherError(String),
    /// The octets to be decrypted by cipher block chaining are not whole blocks.
    #[error("Padding error")]
    CipherUnpad,
    /// The octets to be encrypted by cipher block chaining are not whole blocks.
    #[error("Padding error")]
    CipherPad,
    /// No call returns it.
    #[error("Invalid seed bit len: {0}")]
    SeedBitLen(String),
    /// An allocation failed.
    #[error("out of memory")]
    OutOfMemory,
}

/// The result of a call of the cryptography.
pub type KerberosCryptoResult<T> = Result<T, KerberosCryptoError>;

impl KerberosCryptoError {
    /// Whether an allocation failed.
    pub fn is_out_of_memory(&self) -> bool
        ensures { MatchBool result (self.now ≡ OutOfMemory) (self.now ≡ OutOfMemory → ⊥) }
    {
        match self {
            KerberosCryptoError::OutOfMemory => true,
            _ => false,
        }
    }
}

impl From<AllocError> for KerberosCryptoError {
    ghost from_gives = { λ _ e. e ≡ OutOfMemory };

    fn from(_error: AllocError) -> KerberosCryptoError {
        KerberosCryptoError::OutOfMemory
    }
}

impl<T: Drop> From<AllocFailed<T>> for KerberosCryptoError {
    ghost from_gives = { λ _ e. e ≡ OutOfMemory };

    fn from(_error: AllocFailed<T>) -> KerberosCryptoError {
        KerberosCryptoError::OutOfMemory
    }
}

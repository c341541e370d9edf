//! Why a part was not sealed or not opened.

ghost use Rattle.std.specs.Prelude.{◌≡◌, MatchBool};
ghost use Rattle.krb_crypto.specs.PartError.{IsMemory};
ghost use Rattle.krb_crypto.specs.declared.seal.error.PartError.TheVariants.{Crypto, Der};

use crate::KerberosCryptoError;
use krb_der::Asn1DerError;
use thiserror::Error;

/// Why a part was not sealed or not opened. An allocation failure is `OutOfMemory` of the half that met it.
#[derive(Debug, Drop, Error)]
pub enum PartError {
    /// The cipher rejected the key or the octets.
    #[error("{0}")]
    Crypto(KerberosCryptoError),
    /// The opened octets are not one encoding with the cipher's padding after it.
    #[error("{0}")]
    Der(Asn1DerError),
}

impl PartError {
    /// Whether an allocation failed.
    pub fn is_out_of_memory(&self) -> bool
        ensures { MatchBool result (IsMemory self.now) (IsMemory self.now → ⊥) }
    {
        match self {
            PartError::Crypto(error) => error.is_out_of_memory(),
            PartError::Der(error) => error.is_out_of_memory(),
        }
    }
}

impl From<KerberosCryptoError> for PartError {
    ghost from_gives = { λ e p. p ≡ Crypto e };

    fn from(error: KerberosCryptoError) -> PartError {
        PartError::Crypto(error)
    }
}

impl From<Asn1DerError> for PartError {
    ghost from_gives = { λ e p. p ≡ Der e };

    fn from(error: Asn1DerError) -> PartError {
        PartError::Der(error)
    }
}

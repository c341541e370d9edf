//! Why the checksums of a PAC were not found.

ghost use Rattle.std.specs.Prelude.{◌≡◌};
ghost use Rattle.krb_pac_signatures.specs.declared.error.PacSignatureError.TheVariants as errors;

use krb_pac::PacError;
use thiserror::Error;

/// Why octets hold no checksums of a PAC.
#[derive(Debug, Drop, Error)]
pub enum PacSignatureError {
    /// The octets are no PAC.
    #[error("{0}")]
    Pac(PacError),
    /// A PAC_SIGNATURE_DATA ends before its type, or before the signature that its type has.
    #[error("a signature of a PAC ends too early")]
    Truncated,
}

impl From<PacError> for PacSignatureError {
    ghost from_gives = { λ x e. e ≡ errors.Pac x };

    fn from(error: PacError) -> PacSignatureError {
        PacSignatureError::Pac(error)
    }
}

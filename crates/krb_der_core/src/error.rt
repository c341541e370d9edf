//! Errors of reading and writing DER.

ghost use Rattle.std.specs.Prelude.{◌≡◌, MatchBool};
ghost use Rattle.krb_der_core.specs.declared.error.Asn1DerError.TheVariants as errors;

use std::alloc::{AllocError, AllocFailed};
use std::io;
use thiserror::Error;

/// An error of reading octets, or of making or writing a value.
///
/// Octets are read from the left, and the first error is returned: an element's tag, then its length, then its content.
/// Missing octets are reported before the content is read.
#[derive(Debug, Drop, Error)]
pub enum Asn1DerError {
    /// A wrong tag, a length or an integer that is not in its shortest form, an invalid content, or trailing octets.
    #[error("the octets are no encoding of the value's type")]
    InvalidData,
    /// Octets of a tag, a length or a content are missing, or a sequence ends before a mandatory field.
    #[error("the octets end too early")]
    TruncatedData,
    /// An indefinite length, or one of more than eight octets.
    #[error("the encoding is of a form that is not supported")]
    UnsupportedValue,
    /// A reader or a writer failed.
    #[error("reading or writing failed: {0}")]
    Io(io::Error),
    /// An allocation failed.
    #[error("out of memory")]
    OutOfMemory,
}

impl Asn1DerError {
    /// Whether an allocation failed.
    pub fn is_out_of_memory(&self) -> bool
        ensures { MatchBool result (self.now ≡ errors.OutOfMemory) (self.now ≡ errors.OutOfMemory → ⊥) }
    {
        match self {
            Asn1DerError::OutOfMemory => true,
            _ => false,
        }
    }
}

impl From<AllocError> for Asn1DerError {
    ghost from_gives = { λ _ e. e ≡ errors.OutOfMemory };

    fn from(_error: AllocError) -> Asn1DerError {
        Asn1DerError::OutOfMemory
    }
}

impl<T: Drop> From<AllocFailed<T>> for Asn1DerError {
    ghost from_gives = { λ _ e. e ≡ errors.OutOfMemory };

    fn from(_error: AllocFailed<T>) -> Asn1DerError {
        Asn1DerError::OutOfMemory
    }
}

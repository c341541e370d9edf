//! Why octets are no message of the GSS-API.

ghost use Rattle.std.specs.Prelude.{◌≡◌};
ghost use Rattle.krb_gss_tokens.specs.Errors.{of_der};
ghost use Rattle.krb_gss_tokens.specs.declared.error.GssApiMessageError.TheVariants as errors;

use krb_der_core::Asn1DerError;
use std::alloc::{AllocError, AllocFailed};
use std::io;
use thiserror::Error;

/// Why a token or a message of the GSS-API was not read or written.
///
/// Of two values the expected one comes first.
#[derive(Debug, Drop, Error)]
pub enum GssApiMessageError {
    /// The token id is another (RFC 4121, 4.1 and 4.2.6).
    #[error("the token id is {1:?} in place of {0:?}")]
    InvalidId([u8; 2], [u8; 2]),
    /// The object identifier of the mechanism is another (RFC 2743, 3.1); both are dotted.
    #[error("the mechanism is {1} in place of {0}")]
    InvalidMechanismOid(String, String),
    /// A reader or a writer failed, or the octets end inside a field: then the kind is `UnexpectedEof`.
    #[error("reading or writing failed: {0}")]
    IoError(io::Error),
    /// Octets 3 to 7 of a MIC token are not all `ff` (RFC 4121, 4.2.6.1).
    #[error("the filler of the MIC token is {0:?}")]
    InvalidMicFiller([u8; 5]),
    /// Octet 3 of a Wrap token is not `ff` (RFC 4121, 4.2.6.2).
    #[error("the filler of the Wrap token is {0}")]
    InvalidWrapFiller(u8),
    /// Octets are no encoding of a value (X.690). It is never `Asn1DerError::OutOfMemory`.
    #[error("the message is no encoding: {0}")]
    Asn1Error(Asn1DerError),
    /// An allocation failed.
    #[error("out of memory")]
    OutOfMemory,
}

impl From<io::Error> for GssApiMessageError {
    ghost from_gives = { λ error e. e ≡ errors.IoError error };

    fn from(error: io::Error) -> GssApiMessageError {
        GssApiMessageError::IoError(error)
    }
}

/// An error of DER octets is kept as it is, but an allocation failure is `OutOfMemory` of this type.
impl From<Asn1DerError> for GssApiMessageError {
    ghost from_gives = { λ rejection e. e ≡ of_der rejection };

    fn from(rejection: Asn1DerError) -> GssApiMessageError {
        match rejection {
            Asn1DerError::OutOfMemory => GssApiMessageError::OutOfMemory,
            other => GssApiMessageError::Asn1Error(other),
        }
    }
}

impl From<AllocError> for GssApiMessageError {
    ghost from_gives = { λ _ e. e ≡ errors.OutOfMemory };

    fn from(_error: AllocError) -> GssApiMessageError {
        GssApiMessageError::OutOfMemory
    }
}

impl<T: Drop> From<AllocFailed<T>> for GssApiMessageError {
    ghost from_gives = { λ _ e. e ≡ errors.OutOfMemory };

    fn from(_error: AllocFailed<T>) -> GssApiMessageError {
        GssApiMessageError::OutOfMemory
    }
}

//! Why octets are no message, and why a negotiation does not begin.

ghost use Rattle.std.specs.Prelude.{◌≡◌};
ghost use Rattle.krb_spnego.specs.declared.error.BeginError.TheVariants as beginnings;
ghost use Rattle.krb_spnego.specs.declared.error.ReadError.TheVariants as errors;

use krb_der::Asn1DerError;
use std::alloc::{AllocError, AllocFailed};

/// Why octets are no message of a negotiation.
#[derive(Drop)]
pub enum ReadError {
    /// An allocation failed.
    OutOfMemory,
    /// The octets are no encoding of the message that has to come, with this first error (X.690).
    Malformed(Asn1DerError),
    /// The token is of another mechanism than SPNEGO (RFC 4178, 3.1).
    NotSpnego,
    /// negState is none of the four (RFC 4178, 4.2.2).
    UnknownState,
}

impl From<AllocError> for ReadError {
    ghost from_gives = { λ _ e. e ≡ errors.OutOfMemory };

    fn from(_error: AllocError) -> ReadError {
        ReadError::OutOfMemory
    }
}

impl<T: Drop> From<AllocFailed<T>> for ReadError {
    ghost from_gives = { λ _ e. e ≡ errors.OutOfMemory };

    fn from(_error: AllocFailed<T>) -> ReadError {
        ReadError::OutOfMemory
    }
}

/// Why an initiator does not begin.
#[derive(Clone, Copy)]
pub enum BeginError {
    /// An allocation failed.
    OutOfMemory,
    /// The arcs of a mechanism are no object identifier (X.660).
    NoIdentifier,
    /// The preferred mechanism does not begin.
    MechanismFailed,
}

impl From<AllocError> for BeginError {
    ghost from_gives = { λ _ e. e ≡ beginnings.OutOfMemory };

    fn from(_error: AllocError) -> BeginError {
        BeginError::OutOfMemory
    }
}

impl<T: Drop> From<AllocFailed<T>> for BeginError {
    ghost from_gives = { λ _ e. e ≡ beginnings.OutOfMemory };

    fn from(_error: AllocFailed<T>) -> BeginError {
        BeginError::OutOfMemory
    }
}

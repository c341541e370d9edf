//! Why no request is made.

ghost use Rattle.std.specs.Prelude.{◌≡◌};
ghost use Rattle.krb_client.specs.declared.requests.error.RequestError.TheVariants.{OutOfMemory};

use std::alloc::{AllocError, AllocFailed};
use thiserror::Error;

/// Why no request is made.
#[derive(Debug, Clone, Copy, PartialEq, Eq, Error)]
pub enum RequestError {
    /// The nonce is 2^31 or more: KDCs read it as a signed number of 32 bits (RFC 4120, 5.4.1).
    #[error("the nonce is past 2^31 - 1")]
    Nonce,
    /// The number of an option is past 31 (RFC 4120, 5.4.1).
    #[error("options are numbered 0 to 31")]
    OptionNumber,
    /// There are more microseconds than 999999 (RFC 4120, 5.2.4).
    #[error("microseconds are 0 to 999999")]
    Microseconds,
    /// The year of a time is not of 0 to 9999, so no GeneralizedTime has it (X.690, 11.7).
    #[error("the year is not of 0 to 9999")]
    Time,
    /// The flag of delegation is set, for which the checksum has no credentials (RFC 4121, 4.1.1).
    #[error("there are no credentials to delegate")]
    Delegation,
    /// The subkey has not as many octets as its suite's keys.
    #[error("the subkey is not of its suite's length")]
    Subkey,
    /// The confounder has not as many octets as the suite's.
    #[error("the confounder is not of the suite's length")]
    Confounder,
    /// The key has not as many octets as its suite's keys.
    #[error("the key is not of its suite's length")]
    Key,
    /// An allocation failed.
    #[error("memory")]
    OutOfMemory,
}

impl From<AllocError> for RequestError {
    ghost from_gives = { λ _ e. e ≡ OutOfMemory };

    fn from(_error: AllocError) -> RequestError {
        RequestError::OutOfMemory
    }
}

impl<T: Drop> From<AllocFailed<T>> for RequestError {
    ghost from_gives = { λ _ e. e ≡ OutOfMemory };

    fn from(_error: AllocFailed<T>) -> RequestError {
        RequestError::OutOfMemory
    }
}

//! Why no value is made.

ghost use Rattle.std.specs.Prelude.{◌≡◌};
ghost use Rattle.krb_build.specs.declared.error.BuildError.TheVariants.{OutOfMemory};

use std::alloc::{AllocError, AllocFailed};
use thiserror::Error;

/// Why no value is made of its parts.
#[derive(Debug, Clone, Copy, PartialEq, Eq, Error)]
pub enum BuildError {
    /// The number of a flag is past 31.
    #[error("flags are numbered 0 to 31")]
    FlagNumber,
    /// The microseconds of a time are not of 0 to 999999 (RFC 4120, 5.2.4).
    #[error("microseconds are 0 to 999999")]
    Microseconds,
    /// The year of a time is not of 0 to 9999, so no GeneralizedTime has it (X.690, 11.7).
    #[error("the year is not of 0 to 9999")]
    Time,
    /// An allocation failed.
    #[error("memory")]
    OutOfMemory,
}

impl From<AllocError> for BuildError {
    ghost from_gives = { λ x e. e ≡ OutOfMemory };

    fn from(_error: AllocError) -> Self {
        BuildError::OutOfMemory
    }
}

impl<T: Drop> From<AllocFailed<T>> for BuildError {
    ghost from_gives = { λ x e. e ≡ OutOfMemory };

    fn from(_error: AllocFailed<T>) -> Self {
        BuildError::OutOfMemory
    }
}

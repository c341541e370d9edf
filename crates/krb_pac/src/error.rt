//! Why a PAC was not read or written.

ghost use Rattle.std.specs.Prelude.{◌≡◌};
ghost use Rattle.krb_pac.specs.Devices.{IsReadError};
ghost use Rattle.krb_pac.specs.declared.error.PacError.TheVariants as errors;

use krb_io::ReadError;
use std::alloc::{AllocError, AllocFailed};
use std::io;
use thiserror::Error;

/// Why octets were not read as a PAC, or a PAC was not made or written.
#[derive(Debug, Drop, Error)]
pub enum PacError {
    /// Another version than 0. No call returns it: they return `InvalidVersion`.
    #[error("the version must be 0, and is {0}")]
    Version(u32),
    /// The number of no type of a buffer.
    #[error("{0} is the number of no type of a buffer")]
    PacBufferType(u32),
    /// A reader or a writer failed, or the octets end too early (`UnexpectedEof`).
    #[error("reading or writing failed: {0}")]
    IoError(io::Error),
    /// A PAC has another version than 0.
    #[error("the version of a PAC must be 0, and is {0}")]
    InvalidVersion(u32),
    /// A buffer names octets that are not there, or, on writing, octets that have another place already.
    #[error("a buffer has no place where its entry says")]
    InvalidRange,
    /// An allocation failed.
    #[error("out of memory")]
    OutOfMemory,
}

impl From<io::Error> for PacError {
    ghost from_gives = { λ x e. e ≡ errors.IoError x };

    fn from(error: io::Error) -> PacError {
        PacError::IoError(error)
    }
}

impl From<ReadError> for PacError {
    ghost from_gives = { IsReadError };

    fn from(error: ReadError) -> PacError {
        match error {
            ReadError::Io(error) => PacError::IoError(error),
            ReadError::OutOfMemory => PacError::OutOfMemory,
        }
    }
}

impl From<AllocError> for PacError {
    ghost from_gives = { λ _ e. e ≡ errors.OutOfMemory };

    fn from(_error: AllocError) -> PacError {
        PacError::OutOfMemory
    }
}

impl<T: Drop> From<AllocFailed<T>> for PacError {
    ghost from_gives = { λ _ e. e ≡ errors.OutOfMemory };

    fn from(_error: AllocFailed<T>) -> PacError {
        PacError::OutOfMemory
    }
}

//! Why octets were not read into a vector.

ghost use Rattle.std.specs.Prelude.{◌≡◌};
ghost use Rattle.krb_io.specs.Transfer.{IsSameError};
ghost use Rattle.krb_io.specs.declared.error.ReadError.TheVariants as errors;

use std::alloc::AllocError;
use std::io;
use std::io::ErrorKind;

/// Why octets were not read into a vector.
#[derive(Drop)]
pub enum ReadError {
    /// The reader failed.
    Io(io::Error),
    /// The vector could not grow.
    OutOfMemory,
}

impl From<io::Error> for ReadError {
    ghost from_gives = { λ x e. e ≡ errors.Io x };

    fn from(error: io::Error) -> ReadError {
        ReadError::Io(error)
    }
}

impl From<AllocError> for ReadError {
    ghost from_gives = { λ _ e. e ≡ errors.OutOfMemory };

    fn from(_error: AllocError) -> ReadError {
        ReadError::OutOfMemory
    }
}

impl From<ReadError> for io::Error {
    ghost from_gives = { λ e x. IsSameError e x };

    /// The reader's own error, or one of the kind `OutOfMemory`.
    fn from(error: ReadError) -> io::Error {
        match error {
            ReadError::Io(error) => error,
            ReadError::OutOfMemory => io::Error::from(ErrorKind::OutOfMemory),
        }
    }
}

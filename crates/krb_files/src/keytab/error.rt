//! Why octets are no keytab, and why entries were not written as one.

ghost use Rattle.std.specs.Prelude.{◌≡◌};
ghost use Rattle.krb_files.specs.declared.keytab.error.KeytabWriteError.TheVariants as errors;

use crate::fields::FieldError;
use std::alloc::AllocError;
use thiserror::Error;

/// Why octets were not read as a keytab.
#[derive(Clone, Copy, Debug, PartialEq, Eq, Error)]
pub enum KeytabError {
    /// The first two octets are not those of version 2, 05 02, but this number.
    #[error("the keytab's version is {0}, and version 2 is 1282")]
    InvalidVersion(u16),
    /// The octets end inside the version, the length of a record, or a record.
    #[error("the keytab is cut short")]
    Truncated,
    /// A record holds no entry: a field of the entry runs past the record's end.
    #[error("a record holds no entry: {0}")]
    InvalidRecord(FieldError),
}

/// Why entries were not written as a keytab.
#[derive(Clone, Copy, Debug, PartialEq, Eq, Error)]
pub enum KeytabWriteError {
    /// A length does not fit its field.
    #[error("a length of an entry does not fit its field")]
    TooLong,
    /// An allocation failed.
    #[error("out of memory")]
    OutOfMemory,
}

impl From<AllocError> for KeytabWriteError {
    ghost from_gives = { λ _ e. e ≡ errors.OutOfMemory };

    fn from(_error: AllocError) -> KeytabWriteError {
        KeytabWriteError::OutOfMemory
    }
}

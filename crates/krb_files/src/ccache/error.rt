//! Why octets are no credential cache, and why a cache was not written.

ghost use Rattle.std.specs.Prelude.{◌≡◌};
ghost use Rattle.krb_files.specs.declared.ccache.error.CcacheError.TheVariants as errors;
ghost use Rattle.krb_files.specs.declared.ccache.error.CcacheWriteError.TheVariants as write_errors;

use crate::fields::FieldError;
use std::alloc::AllocError;
use thiserror::Error;

/// Why octets were not read as a credential cache.
#[derive(Clone, Copy, Debug, PartialEq, Eq, Error)]
pub enum CcacheError {
    /// The first two octets are not those of version 3 or 4, 05 03 or 05 04, but this number.
    #[error("the cache's version is {0}, and versions 3 and 4 are 1283 and 1284")]
    InvalidVersion(u16),
    /// A field is not whole, or what it says is not there.
    #[error("a field is not whole: {0}")]
    InvalidField(FieldError),
}

impl From<FieldError> for CcacheError {
    ghost from_gives = { λ x e. e ≡ errors.InvalidField x };

    fn from(error: FieldError) -> CcacheError {
        CcacheError::InvalidField(error)
    }
}

/// Why a credential cache or a credential was not written.
#[derive(Clone, Copy, Debug, PartialEq, Eq, Error)]
pub enum CcacheWriteError {
    /// A header's field was given for a cache of version 3, which has no header.
    #[error("a cache of version 3 has no header")]
    HeaderInVersion3,
    /// A length or a count does not fit its field.
    #[error("a length or a count does not fit its field")]
    TooLong,
    /// An allocation failed.
    #[error("out of memory")]
    OutOfMemory,
}

impl From<AllocError> for CcacheWriteError {
    ghost from_gives = { λ _ e. e ≡ write_errors.OutOfMemory };

    fn from(_error: AllocError) -> CcacheWriteError {
        CcacheWriteError::OutOfMemory
    }
}

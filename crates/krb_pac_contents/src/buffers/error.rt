//! Why octets are none of the small buffers.

ghost use Rattle.std.specs.Prelude.{◌≡◌};
ghost use Rattle.krb_pac_contents.specs.declared.buffers.error.BufferError.TheVariants as errors;

use crate::LogonError;
use thiserror::Error;

/// The first error of octets that are none of the small buffers of a PAC.
#[derive(Debug, Clone, Copy, PartialEq, Eq, Error)]
pub enum BufferError {
    /// The octets end before the fixed part, or what it says, does.
    #[error("the octets end too early")]
    Truncated,
    /// The length of a name is odd.
    #[error("the length of a name is odd")]
    NameLength,
    /// A name or an identifier is not within the octets.
    #[error("a name or an identifier is not within the octets")]
    Range,
    /// Octets are left over.
    #[error("octets are left over")]
    TrailingOctets,
    /// An identifier is none.
    #[error("{0}")]
    Sid(LogonError),
}

impl From<LogonError> for BufferError {
    ghost from_gives = { λ x e. e ≡ errors.Sid x };

    fn from(error: LogonError) -> BufferError {
        BufferError::Sid(error)
    }
}

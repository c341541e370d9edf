//! Why a field was not read.

use thiserror::Error;

/// Why a field was not read from the front of octets.
#[derive(Clone, Copy, Debug, PartialEq, Eq, Error)]
pub enum FieldError {
    /// The octets end inside a number.
    #[error("the octets end inside a number")]
    Truncated,
    /// A length says more octets than there are after it.
    #[error("a length says more octets than there are")]
    LengthPastEnd,
    /// A count says more elements than there are octets for them.
    #[error("a count says more elements than there are octets")]
    CountPastEnd,
    /// A number that stands twice is not the same twice.
    #[error("a number that stands twice is not the same twice")]
    RepetitionDiffers,
}

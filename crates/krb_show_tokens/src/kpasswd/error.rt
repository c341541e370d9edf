//! Why octets are no frame.

use krb_messages::kpasswd::ReadFrameError;
use thiserror::Error;

/// Why octets are no frame of the protocol that changes passwords (RFC 3244, 2).
#[derive(Debug, Clone, Copy, PartialEq, Eq, Error)]
pub enum PasswordFrameError {
    /// They begin with no frame, or an allocation failed.
    #[error("{0}")]
    Frame(ReadFrameError),
    /// Octets follow the frame.
    #[error("octets follow the frame")]
    TrailingOctets,
}

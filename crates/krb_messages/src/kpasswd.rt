//! The frames of the protocol that changes passwords (RFC 3244).

mod error;
mod frame;
pub mod laws;
mod prefix;
mod reading;
mod rejection;
mod writing;

pub use error::{MessageError, ReadFrameError, WriteFrameError};
pub use frame::{KrbPrivMessage, read_frame, write_frame};

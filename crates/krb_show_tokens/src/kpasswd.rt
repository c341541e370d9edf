//! The frames of the protocol that changes passwords (RFC 3244) as tokens.

mod error;
mod frame;
mod places;

pub use error::PasswordFrameError;
pub use frame::page_of_password_frame;
pub use places::places_of_password_frame;

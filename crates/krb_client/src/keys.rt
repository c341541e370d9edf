//! The key of a client: what a KDC tells of it, and how a password becomes it (RFC 4120, 5.2.7.5;
//! RFC 3962, 4; RFC 8009, 4), within limits on the work that a message with no proof can ask for.

mod hint;
mod limits;
mod password;
mod secret;
mod seeds;

pub use hint::{HintError, key_by_elements, told_key};
pub use limits::Limits;
pub use password::{PasswordError, key_of_password};
pub use secret::{Client, Secret, client_key};

//! Messages of Kerberos and their sealed parts as C asks for them: numbers and octets in; a status out, and octets in the caller's room.

mod by_number;
mod kind;
mod messages;
mod parts;

pub use by_number::check;
pub use messages::checked;
pub use parts::{open, seal};

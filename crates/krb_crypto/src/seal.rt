//! A value's encoding, sealed and opened under the caller's cipher.

mod error;
mod part;
pub mod prepared;

pub use error::PartError;
pub use part::{open_part, seal_part};

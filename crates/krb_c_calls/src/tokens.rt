//! The library's calls for MIC and Wrap tokens of the GSS-API (RFC 4121, 4.2), as C makes them: numbers and octets in; a status out, and octets in
//! the caller's memory.

mod keys;
mod mics;
mod wraps;

pub use mics::{make_mic, verify_mic};
pub use wraps::{unwrap, wrap, wrap_in_clear};

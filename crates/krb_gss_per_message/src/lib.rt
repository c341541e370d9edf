//! MIC and Wrap tokens of Kerberos under the GSS-API, whole (RFC 4121, 4.2): checksums and encryption of the message and the header, by
//! the key usages and the flags of the sender; and in which order they come.
#![tactic(auto)]

mod error;
mod flags;
mod key;
pub mod laws;
mod mic;
mod octets;
mod rotation;
mod sequence;
mod sums;
mod unwrapping;
mod wrapping;

pub use error::ProtectionError;
pub use key::{Sender, TokenKey};
pub use mic::{make_mic, verify_mic};
pub use sequence::{Order, SequenceWindow};
pub use unwrapping::{Unwrapped, unwrap};
pub use wrapping::{wrap, wrap_in_clear};

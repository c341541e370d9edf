//! MS-NEGOEX: messages by which two parties agree on a security mechanism.
//!
//! All numbers are little-endian, and GUIDs are in their little-endian form. A value has a fixed part and a payload; a vector's
//! fixed part says by an offset from the message's first octet, and a count, where its elements are.

pub mod data_types;
pub mod messages;
pub mod views;

pub use crate::checksum::CHECKSUM_SCHEME_RFC3961;
pub use crate::header::NEGOEXTS_MESSAGE_SIGNATURE;
pub use crate::message::NegoexMessage;
pub use crate::nego::{PROTOCOL_VERSION, RANDOM_ARRAY_SIZE};
pub use crate::traits::NegoexDataType;

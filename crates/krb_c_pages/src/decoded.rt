//! Octets of a type as items, with what the keys of a keytab open in them.

mod call;
mod decoding;
mod found;
mod outcome;
mod record;

pub use call::decode;
pub use decoding::Decoding;
pub use record::{DecodedCounts, PartRecord};

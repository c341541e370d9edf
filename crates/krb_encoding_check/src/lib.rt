//! Whether octets are the one encoding of an element, by a row of a schema, with nothing allocated.
//!
//! `krb_schema` walks octets and answers items, in a vector; here nothing is answered but whether octets are an
//! element of the row, or their first fault. So both halves of what is proved of it hold without a word about memory.
#![tactic(auto)]

mod check;
mod leaf;
mod numbers;
mod times;

pub use check::{check_encoding, is_encoding};

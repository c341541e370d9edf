//! What the text of a page tells of the octets that the page is of, by rows of a table of types: laws of the definitions of `krb_show`.
//!
//! It holds no code that runs.
#![tactic(auto)]

pub mod laws;

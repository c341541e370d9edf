//! The parts of tickets and messages that are encrypted (RFC 4120, 5.3 and 5.5 to 5.8), each with one DER
//! encoding a value.
#![tactic(auto)]

pub mod data_types;
pub mod laws;

//! The tables of DES, for tests that compare them with their standard. Nothing else uses them.

pub use crate::des::COMBINED;

//! The word tables, for tests that compare them with their standard. Nothing else uses them.

pub use crate::encrypting_tables::{T0, T1, T2, T3};
pub use crate::opening_tables::{D0, D1, D2, D3};

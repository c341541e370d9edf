//! Reading and writing whole buffers, over readers and writers whose calls a signal may interrupt.
//!
//! std says nothing of what `read_exact` and `write_all` leave where they fail. These calls do: an error states what the
//! reader has given, or what the writer has taken, before it. No call returns an error of the kind `Interrupted`: the read
//! or write is tried again.
#![tactic(auto)]

mod error;
mod reading;
mod writing;

pub use error::ReadError;
pub use reading::{read_exact, read_once, read_to_end, read_up_to};
pub use writing::write_all;

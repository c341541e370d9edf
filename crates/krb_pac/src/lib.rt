//! The privilege attribute certificate of a ticket (MS-PAC).
//!
//! A PAC is a count, a version and entries, each of which names a slice of the PAC by its offset and its size. The contracts
//! say where slices lie: `PacIs b pac` that the octets `b` are the PAC, `PacPut pac b` that they are also what it is written
//! as. What the buffers hold is the caller's to read.
#![tactic(auto)]

mod buffer;
mod devices;
mod error;
mod info;
mod kind;
pub mod laws;
mod numbered;
mod pac;
mod ranges;
mod reading;
mod view;
mod writing;

pub use buffer::PacBuffer;
pub use error::PacError;
pub use info::PacInfoBuffer;
pub use kind::PacBufferType;
pub use numbered::{NumberedBufferView, NumberedBuffers, NumberedInfoBuffer, NumberedPacView};
pub use pac::Pac;
pub use view::{PacBufferView, PacBuffers, PacView};

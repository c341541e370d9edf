//! What the buffers of a PAC hold (MS-PAC, 2.5 to 2.15), looked at over octets that the caller holds, and as text.
#![tactic(auto)]

pub mod buffers;
mod elements;
mod error;
mod fields;
mod fixed;
mod logon;
mod numbers;
mod referents;
mod sid;
pub mod text;

pub use elements::{ExtraSids, Membership, Memberships, SidAndAttributes};
pub use error::LogonError;
pub use logon::LogonView;
pub use sid::{SidView, SubAuthorities};

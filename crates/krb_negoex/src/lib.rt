//! The extended negotiation mechanism of MS-NEGOEX: its data types and messages, read and written.
//!
//! `negoex` is what a user names. `parts` holds the traits below it, for types of data of one's own, and `laws` what holds of
//! every message.
#![tactic(auto)]

mod checksum;
mod devices;
mod exchange;
mod extension;
mod fixed;
mod guid;
mod header;
pub mod laws;
mod message;
mod nego;
pub mod negoex;
mod numbers;
mod octet;
pub mod parts;
mod traits;
mod vector;
mod verify;
mod view;

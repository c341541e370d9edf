//! Types that Kerberos messages share (RFC 4120, 5.2 to 5.8), values of their fields for programs, and the record of a caller's
//! integrity (MS-KILE).
#![tactic(auto)]

pub mod data_types;
pub mod laws;
pub mod lsap;
pub mod view;

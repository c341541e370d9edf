//! Credentials that are delegated to a server (MS-CSSP, 2.2.1.2), each with one DER encoding a
//! value.
#![tactic(auto)]

pub mod credssp;
pub mod laws;

//! Pre-authentication with certificates (PKINIT, RFC 4556), Diffie-Hellman keys and their groups (RFC 3279, 2.3.3), and
//! PKU2U, each type with one DER encoding a value.
#![tactic(auto)]

pub mod laws;
pub mod pkinit;

//! The numbers and octets that the standards name (RFC 3961, RFC 4120, RFC 4121, MS-KILE and others), and the names of the numbers.
#![tactic(auto)]

pub mod cksum_types;
pub mod cred_ssp;
pub mod error_codes;
pub mod etypes;
pub mod gss_api;
pub mod key_usages;
mod kind;
pub mod krb_priv;
pub mod laws;
pub mod name_laws;
mod names;
mod tables;
pub mod types;

pub use kind::Kind;
pub use names::{mechanism_identifier, mechanism_name, name, number};

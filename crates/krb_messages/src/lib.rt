//! Kerberos messages and their data types (RFC 4120), each of which is read from its one DER encoding and written so; messages that
//! change passwords (RFC 3244).
#![tactic(auto)]

pub mod application_laws;
pub mod data_types;
pub mod kdc_laws;
pub mod kpasswd;
pub mod laws;
pub mod messages;

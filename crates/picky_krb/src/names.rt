//! Names of the numbers that the standards of Kerberos give, both ways. The original has no such module.

pub use krb_registry::{Kind, mechanism_identifier, mechanism_name, name, number};

//! The files of MIT Kerberos: keytabs and credential caches, and the fields that both are made of.
#![tactic(auto)]

pub mod ccache;
pub mod fields;
pub mod keytab;

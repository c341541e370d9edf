//! Files of MIT Kerberos for people: lists of the entries of keytabs and credential caches; credential caches and KRB-CREDs in
//! the clear, each as the other.
#![tactic(auto)]

mod components;
pub mod convert;
pub mod list;
mod tickets;

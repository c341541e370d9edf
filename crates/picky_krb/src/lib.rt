//! Kerberos messages (RFC 4120), each read from its one DER encoding and written so, and proved to be.
//!
//! The modules have the names and the items of the Rust crate `picky-krb`; `der` stands in place of the crates that the
//! original takes its ASN.1 types from.
#![tactic(auto)]

pub mod accept;
pub mod build;
pub mod ccache;
pub mod client;
pub mod constants;
pub mod convert;
pub mod crypto;
pub mod data_types;
pub mod der;
pub mod fields;
pub mod gss_api;
pub mod kdc_proxy;
pub mod keytab;
pub mod list;
pub mod messages;
pub mod names;
pub mod negotiation;
pub mod pac;
pub mod pac_contents;
pub mod per_message;
pub mod schema;
pub mod seal;
pub mod show;
pub mod view;

pub use krb_credssp::credssp;
pub use krb_negoex::negoex;
pub use krb_pkinit::pkinit;

//! Pages of whole octets: by the row of their type messages of Kerberos and their decrypted parts, by their first octet (RFC 4120), and types that no first
//! octet tells, those of PKINIT and of CredSSP among them, by name; keytabs and credential caches (MIT Kerberos).
#![tactic(auto)]

mod files;
mod pages;
mod replies;
mod types;

pub use files::{
    FilePageError, page_of_ccache, page_of_keytab, places_of_ccache, places_of_keytab,
};
pub use pages::{
    is_message, is_part, is_reply, page_of_application, page_of_message, page_of_part, page_of_type,
};
pub use replies::page_of_reply;
pub use types::{applications, is_same_name, name_of_tag, named_types, tag_of_name, type_of_name};

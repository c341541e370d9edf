//! What both keytabs and credential caches hold: principals, octets with a number, and why a field is not whole. The original has no such module.

pub use krb_files::fields::{
    ComponentsView, FieldError, LengthSize, PrincipalParts, PrincipalView, TypedListView,
    TypedOctets,
};

//! Values as a program wants them: what a field holds, flags by their numbers, times as seconds, principals as text. The original has no
//! such module.

pub use krb_types::view::{
    Present, PrincipalError, Tagged, TextPrincipal, is_set, items, principal_of_text,
    text_of_components, text_of_principal, time_of_unix_seconds, unix_seconds,
};

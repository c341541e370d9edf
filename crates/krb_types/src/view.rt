//! Values of Kerberos as a program wants them: what a field holds, flags by number, times as seconds, principals as text.

mod fields;
mod flags;
pub mod laws;
mod principals;
mod times;

pub use fields::{Present, Tagged, items};
pub use flags::is_set;
pub use principals::{
    PrincipalError, TextPrincipal, principal_of_text, text_of_components, text_of_principal,
};
pub use times::{time_of_unix_seconds, unix_seconds};

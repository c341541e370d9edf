//! Pages as text and as JSON.
//!
//! `text_of_page` writes the tokens of a page as indented lines and `json_of_page` as JSON, in printable ASCII alone, whatever the
//! tokens hold.
#![tactic(auto)]

mod characters;
mod escape;
mod json;
mod json_with_places;
mod text;
mod text_with_places;

pub use escape::{Style, push_escaped};
pub use json::json_of_page;
pub use json_with_places::json_of_page_with_places;
pub use text::text_of_page;
pub use text_with_places::text_of_page_with_places;

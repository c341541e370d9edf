//! Values as tokens of a page.
//!
//! A type that is `Show` says by the ghost member `shows` which tokens its values have, and appends them to a page. `krb_show_text`
//! writes pages.
#![tactic(auto)]

mod digits;
mod fields;
mod insert;
mod inserted;
mod leaves;
mod names;
mod notes;
mod numbers;
mod opened;
mod page;
mod places;
mod rows;
mod show;
mod spots;
mod token;
mod tree;
mod wrappers;

pub use digits::{are_octets, push_hex, push_hex_octet};
pub use fields::{Field, ShowFields, show_struct};
pub use insert::Insert;
pub use inserted::page_with;
pub use krb_message_fields::places::Place;
pub use krb_schema::Role;
pub use leaves::{
    show_cipher, show_identifier, show_number, show_octets, show_secret, show_text, show_word,
};
pub use names::tag_name;
pub use numbers::{OpensValues, TypedValue};
pub use opened::{open, show_opened};
pub use page::page_of_octets;
pub use rows::{
    NoFormats, Row, Secrets, ShowsFormats, Stand, Walk, place_at, places_by_row, places_of_items,
    push_item, push_items, push_items_with_places, show_by_row, walk_named,
};
pub use show::Show;
pub use spots::{Plain, Tells, is_plain, place_tokens};
pub use token::{Form, Label, Page, Token, push_token};
pub use tree::{LEVELS, page_of_tree};
pub use wrappers::show_list;

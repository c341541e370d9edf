//! Octets by the rows of `krb_schema`'s table as tokens: of each type of DER that the table has, one way to show it.
mod formats;
mod inner;
mod items;
mod leaves;
mod names;
mod placed;
mod stand;
mod walk;

pub use formats::{NoFormats, ShowsFormats};
pub use inner::{place_at, places_by_row, places_of_items};
pub use items::{push_item, push_items};
pub use placed::push_items_with_places;
pub use stand::{Secrets, Stand};
pub use walk::{Walk, show_by_row, walk_named};

/// The way in which rows show.
#[derive(Drop)]
pub struct Row;

//! Places in octets: where the content at the end of a path of tags and of items stands among elements (X.690, 8.1.1).

mod path;
mod place;
mod rows;

pub use path::place_of;
pub use place::{Place, Step};

//! The page of octets of any kind as records: what `show_page` writes, with places, one record for each value and each begin and end.

mod call;
mod listing;
mod record;

pub use call::list_page;
pub use record::{ListedCounts, PageItemRecord};

//! What octets are, by the types of the standards (`krb_schema`): all items of them, the item that a path leads to, its number, and their text.

mod calls;
mod names;
mod numbers;
mod record;
mod shown;
mod walks;

pub use calls::{find, find_number, item_name, items};
pub use names::number_name;
pub use record::{ItemRecord, record_of, registry_number, role_number};
pub use shown::show;
pub use walks::{WalkRefusal, walked};

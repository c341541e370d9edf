//! The page that `jolmurig show` writes, as C asks for it: octets of any kind and a keytab in; a status and text, JSON or records out. Octets of a type as items, with
//! what the keys of a keytab open in them.
#![tactic(auto)]

mod decoded;
mod keys;
mod listed;
mod opened;
mod page;
mod put;
mod refusal;
mod shown;

pub use decoded::{DecodedCounts, Decoding, PartRecord, decode};
pub use listed::{ListedCounts, PageItemRecord, list_page};
pub use opened::{Opened, Opens};
pub use page::{Style, show_page};

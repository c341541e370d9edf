//! Keytabs of version 2 (MIT Kerberos, "Keytab file format"): read over the octets that the caller holds, and written.
//!
//! A contract sees a keytab as the list of its entries: `KeytabIs b entries` says that the octets `b` are the keytab of these
//! entries (`specs/Keytab.antt`). No file is opened here.

mod entry;
mod error;
mod find;
pub mod laws;
mod record;
mod view;
mod writing;

pub use entry::EntryView;
pub use error::{KeytabError, KeytabWriteError};
pub use view::{EntriesView, KeytabView};
pub use writing::{NewEntry, push_entry, write};

//! Keytabs of version 2 (MIT Kerberos, "Keytab file format"): read over the octets that the caller holds, searched and written. The original has
//! no such module.

pub use krb_files::keytab::{
    EntriesView, EntryView, KeytabError, KeytabView, KeytabWriteError, NewEntry, push_entry, write,
};

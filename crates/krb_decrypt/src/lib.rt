//! The encrypted parts of messages of Kerberos, decrypted by keys; where keys come from (texts, keytabs, passwords), and pages without them.
//!
//! `page_with_decrypted` says behind each ciphertext of a page what keys make of it: which key decrypts it, for which usage, and
//! what it holds, shown by the row of its own type (`krb_schema`); or why none does. What to decrypt, and as what, is decided by the
//! roles and the numbers of tokens, and not by what they are called or how they are printed. A ciphertext is decrypted once.
#![tactic(auto)]

mod behind;
mod hidden;
mod key;
mod keys;
mod keytab;
mod outcome;
mod page;
mod parts;
mod payload;
mod preceding;
mod salts;
mod search;
mod suites;
mod text;
mod told;
mod usage;
mod walked;

pub use behind::{Nothing, TellsBehind};
pub use hidden::without_keys;
pub use key::{Key, suite_of};
pub use keys::keys_of_passwords;
pub use keytab::{KeytabKeysError, keys_of_keytab};
pub use outcome::{Outcome, Part, Reason};
pub use page::{Decrypting, page_with_decrypted};
pub use parts::{MOST_FOUND, outcome_of};
pub use preceding::Preceding;
pub use salts::{MOST_SALTS, salts_of};
pub use text::key_of_text;
pub use usage::Usage;

//! What the buffers of a PAC (MS-PAC) hold, in words, as tokens; and whether the checksums of the PAC of a ticket hold (MS-PAC, 2.8), on a page
//! of tokens whose encrypted parts keys decrypt.
//!
//! `page_with_checked` decrypts the parts as `krb_decrypt` does, and tells behind each ticket that a key decrypts which of the checksums of its
//! first PAC hold, and under which of the caller's keys. `page_with_contents` inserts what the buffers hold.
#![tactic(auto)]

mod checksum;
mod contents;
mod flags;
mod holders;
mod inserted;
mod logon;
mod message;
mod pac_checksums;
mod page;
mod parts;
mod placed;
mod places;
mod signature;
mod small;
mod texts;
mod ticket;
mod times;
mod told;
mod unread;

pub use contents::show_contents;
pub use inserted::page_with_contents;
pub use page::page_with_checked;
pub use parts::Checksums;

/// The way in which the buffers of a PAC are shown.
#[derive(Drop)]
pub struct Pac;

//! What a reply has to say to a client that asked (RFC 4120, 3.1.5, 3.2.5 and 3.3.4): rules over
//! the fields of messages and their order, without cryptography.
#![tactic(auto)]

mod asked;
mod confirmed;
mod etypes;
mod key;
pub mod laws;
mod mismatch;
mod names;
mod part;
mod part_times;
mod reply;
mod sizes;
mod times;

pub use asked::{Asked, Clock};
pub use confirmed::{Sent, has_time};
pub use etypes::is_asked_for;
pub use key::Key;
pub use mismatch::Mismatch;
pub use names::{is_same_name, is_same_realm};
pub use part::{ReplyPart, answers};
pub use reply::{KdcReply, is_expected};

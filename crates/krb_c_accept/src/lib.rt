//! The calls of the acceptor for C: whether a service lets in the client that sent a token, and what it answers.
#![tactic(auto)]

mod answer;
mod bindings;
mod call;
mod confirming;
mod decision;
mod error_message;
mod names;
mod options;
mod own_subkey;
mod parts;
mod prepared;
mod records;
mod reply;
mod rules;
mod told;

pub use bindings::channel_bindings;
pub use call::{UNLESS_REPEATED, accept};
pub use confirming::{ConfirmAsked, confirm};
pub use error_message::{ErrorAsked, make_error};
pub use prepared::Asked;
pub use records::{AcceptedRecord, AcceptorRecord, OutPlace};
pub use rules::rule_number;

//! Whether a service lets in a client that sent an AP-REQ (RFC 4120, 3.2.3), alone or in an initial context token of the GSS-API (RFC 4121,
//! 4.1), under the suites of Kerberos; and what it answers.
#![tactic(auto)]

mod ap_rep;
mod bindings;
mod checksum;
mod context_key;
mod decision;
mod delegation;
mod entries;
mod error_message;
mod fields;
mod frame;
mod handed_out;
mod kerberos;
mod keytab;
pub mod laws;
mod opening;
mod pac;
mod pac_places;
mod said;
mod settings;
mod third_leg;
mod token;
mod token_refusal;
mod wanted;
mod with_key;

pub use ap_rep::{ReplyError, reply, reply_token};
pub use bindings::{ChannelBindings, channel_bindings};
pub use checksum::{ContextChecksum, checksum_of};
pub use context_key::token_key;
pub use decision::{accept, present};
pub use delegation::Delegated;
pub use entries::entry_octets;
pub use error_message::{error_reply, error_reply_token};
pub use frame::{InnerToken, message_in, token_of};
pub use kerberos::Kerberos;
pub use keytab::keys_of_keytab;
pub use krb_accept_rules::{
    Accepted, Arrival, Entry, Presented, Refusal, ReplayCache, Rule, ServerName, ServiceKey, Terms,
    TicketFields, admit,
};
pub use opening::{suite_of, value_of};
pub use settings::{PacCheck, Settings};
pub use third_leg::{ThirdLegError, check_third_leg, confirm_by_key, confirm_third_leg};
pub use token::{Context, PresentedToken, accept_token, admit_token, present_token};
pub use token_refusal::TokenRefusal;
pub use wanted::wants_reply;

//! The rules by which a service lets a client in (RFC 4120, 3.2.3), the cache of what it accepted,
//! and the decision over any way in which requests are read and opened.
#![tactic(auto)]

mod accepted;
mod authenticator;
mod bindings;
mod cache;
mod decision;
mod elements;
mod fields;
mod flags;
mod key;
pub mod laws;
mod names;
mod numbers;
mod opening;
mod presentation;
mod refusal;
mod request;
mod seconds;
mod servers;
mod session;
mod terms;
mod texts;
mod ticket;

pub use accepted::{Accepted, Presented};
pub use authenticator::judge;
pub use bindings::fits_bindings;
pub use cache::{Entry, ReplayCache};
pub use decision::{accept, admit};
pub use fields::{AuthenticatorFields, RequestFields, TicketFields};
pub use key::ServiceKey;
pub use opening::Opening;
pub use presentation::present;
pub use refusal::{Refusal, Rule};
pub use request::check_request;
pub use servers::ServerName;
pub use session::check_session;
pub use terms::{Arrival, Terms};
pub use texts::{realm_of_text, server_of_text};

//! Whether a service with a keytab lets the client of a token in, in a line of text (RFC 4120, 3.2.3; RFC 4121, 4.1).
#![tactic(auto)]

mod at_hand;
mod key_reason;
mod moment;
mod negotiation;
mod printed;
mod reason;
mod report;
mod request;
mod terms;
mod written;

pub use krb_accept_rules::{realm_of_text, server_of_text};
pub use moment::seconds_of_text;
pub use report::{Question, Report, ReportError, report_of};
pub use terms::terms_for;

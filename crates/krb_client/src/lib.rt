//! A client of Kerberos as an engine (RFC 4120, 3.1 to 3.3): octets of a KDC come in, and the
//! octets of the next request, or a ticket with its session key, or the first reason why not, go
//! out.
//!
//! Nothing here opens a socket, reads a clock or draws random numbers: what they give is passed in.
#![tactic(auto)]

mod error;
mod hint;
mod initial;
mod initial_reply;
mod initial_request;
pub mod keys;
mod kind;
pub mod laws;
mod messages;
mod moment;
mod renamed;
pub mod replies;
mod reported;
pub mod requests;
mod service;
mod service_request;
mod terms;
mod time;

pub use error::ClientError;
pub use initial::{InitialExchange, InitialStep};
pub use keys::{Client, HintError, Limits, PasswordError, Secret};
pub use messages::{Encodings, Rfc4120};
pub use moment::Moment;
pub use renamed::RenameError;
pub use replies::{Asked, Clock, Granted, Key, Mismatch, ReplyError, Reported, Sent, check_ap_rep};
pub use requests::{ApRequest, GssChecksum, LentKey, RequestError, Sender, ap_request};
pub use service::{ServiceExchange, ServiceStep};
pub use terms::{ByTicket, Terms};

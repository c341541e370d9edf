//! What a proxy in front of a KDC passes on, and what it does not (MS-KKDCP): requests to a KDC and its replies, out of the messages of the proxy and back
//! into them; and the client's half.
//!
//! Nothing here opens a socket: octets come in, and octets or the places of octets go out.
#![tactic(auto)]

mod asked;
mod change;
mod checked;
mod client;
mod error;
mod frame;
mod kdc;
mod kind;
pub mod laws;
mod lenient;
mod numbered;
mod prefixed;
mod replies;
mod reply;
mod request;
mod stream;

pub use asked::Service;
pub use client::{ProxyReply, read_reply, write_request};
pub use error::ProxyError;
pub use kind::MessageKind;
pub use krb_messages::kpasswd::MessageError;
pub use lenient::{LenientRequest, read_request_lenient};
pub use replies::Reply;
pub use reply::{write_reply, write_reply_datagram};
pub use request::{MAXIMUM_REQUEST, ProxyRequest, read_request};
pub use stream::{Whole, is_whole};

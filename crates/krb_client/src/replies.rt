//! Replies of a KDC and of a server, read, opened and checked by a client against what it asked
//! (RFC 4120, 3.1.5, 3.2.5 and 3.3.4).
//!
//! Nothing here opens a socket or reads a clock: octets and a time come in, and a ticket with its
//! session key, or the first rule that the reply breaks, goes out.

mod confirmed;
mod error;
mod granted;
mod message;
mod numbered;
mod opened;
mod reported;

pub use confirmed::check_ap_rep;
pub use error::ReplyError;
pub use granted::{Granted, check_as_rep, check_tgs_rep};
pub use krb_client_rules::{Asked, Clock, Key, Mismatch, Sent};
pub use reported::{Reported, read_error};

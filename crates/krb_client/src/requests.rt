//! The requests of a client of Kerberos (RFC 4120, 3.1.1, 3.2.2 and 3.3.1) as octets: AS-REQ, with
//! PA-ENC-TIMESTAMP and without, TGS-REQ and AP-REQ, each of what the caller gives. The time, the
//! nonce and the confounders are passed in.

mod answered;
mod application;
mod authenticator;
mod body;
mod checksum;
mod error;
mod fields;
mod initial;
mod key;
mod sealing;
mod ticket;
mod timestamp;

pub use answered::{marked, request_checksum};
pub use application::{ApRequest, GssChecksum, ap_request};
pub use authenticator::Sender;
pub use body::Want;
pub use error::RequestError;
pub use initial::as_request;
pub use key::LentKey;
pub use ticket::tgs_request;
pub use timestamp::pa_enc_timestamp;

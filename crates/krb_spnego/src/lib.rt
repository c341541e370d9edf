//! A negotiation of a mechanism (SPNEGO, RFC 4178) over octets: the messages by strict DER, and both
//! sides by the rules of `krb_spnego_rules`.
#![tactic(auto)]

mod answering;
mod asking;
mod error;
mod kerberos;
pub mod laws;
mod machine;
mod reading;
mod refusal;
mod told;
mod writing;

pub use answering::{Answered, accept_told, initiate_told};
pub use asking::{Question, acceptor_asks, initiator_asks};
pub use error::{BeginError, ReadError};
pub use kerberos::{Client, KerberosAcceptor, Service};
pub use krb_spnego_rules as rules;
pub use machine::{accept_step, begin, initiate_step};
pub use reading::{read_offer, read_reply};
pub use refusal::KerberosRefusal;
pub use told::{Told, Verified};
pub use writing::REJECT;

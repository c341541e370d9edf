//! A negotiation of a mechanism (SPNEGO, RFC 4178): both sides over octets, and the mechanisms that they are lent.

pub use krb_spnego::{
    BeginError, REJECT, ReadError, accept_step, begin, initiate_step, read_offer, read_reply,
};
pub use krb_spnego_rules::{
    Acceptor, Bare, Complete, Fresh, Initiator, Mechanism, MechanismError, Message, NegState,
    Offered, Progress, Proposal, Refusal, Rule, Running, Terms, Turn, accept,
};

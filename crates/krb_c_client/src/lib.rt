//! The calls of the client for C: a first ticket and further ones, step by step; the request for a
//! service, and whether it answers.
#![tactic(auto)]

mod application;
mod application_reply;
mod asked;
mod exchange;
mod first;
mod further;
mod granted;
mod keys;
pub mod laws;
mod names;
mod records;
mod refusal;
mod rename;
mod rules;
mod settings;
mod suites;
mod tell;
mod turn;

pub use application::{ApAsked, ap_request};
pub use application_reply::{ReplyAsked, ap_reply};
pub use asked::Question;
pub use first::{Proof, initial};
pub use further::{ByRecord, ticket};
pub use records::{ApTermsRecord, ExchangeRecord, FollowedRecord, TermsRecord};
pub use rename::renamed;

//! The calls of a negotiation (SPNEGO, RFC 4178) for C: a side as numbers that the caller keeps,
//! and mechanisms that the caller runs.
#![tactic(auto)]

mod beginning;
mod mechanisms;
mod numbers;
mod records;
mod sides;
mod step;
mod taking;

pub use beginning::begin;
pub use mechanisms::Tale;
pub use numbers::rule_number;
pub use records::{AnswerRecord, MechanismRecord, NegotiationRecord, QuestionRecord};
pub use step::answer;
pub use taking::take;

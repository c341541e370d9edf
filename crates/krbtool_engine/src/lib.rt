//! One run of the program `krbtool` over any reader and any writers: it reads, seals and opens the encrypted part of a ticket.
#![tactic(auto)]

mod answer;
mod command;
mod engine;
mod failure;
mod parse;

pub use command::{Command, SealingKey};
pub use engine::{reject, run};
pub use failure::{Failure, arguments_failure};

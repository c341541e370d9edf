//! A test vector, and its findings.

use crate::messages::refusal::Refusal;
use std::alloc::{AllocError, Global};

/// How much a run tries of a test vector's octets.
#[derive(Clone, Copy, PartialEq, Eq)]
pub enum Trial {
    /// Everything.
    Whole,
    /// One reading; the program prints the value.
    Shown,
    /// A reading, a copy and writings alone: there are many octets.
    Large,
    /// One reading, one copy, and one writing: the run makes allocations fail.
    Once,
}

/// Octets, their type or format, and what a run tries of them.
#[derive(Drop)]
pub struct Row<'a> {
    pub alloc: Global,
    pub trial: Trial,
    /// A type, a format, or a call.
    pub name: &'a str,
    pub octets: &'a [u8],
    /// The octets that writing the value should give.
    pub written: &'a [u8],
    /// The name of the error of writing the value, or nothing.
    pub unwritten: &'a str,
    /// What `{:?}` writes of the value, or nothing where the run does not try that.
    pub text: &'a str,
}

/// What the program reports of octets that it read, and whether all that it tried held.
#[derive(Drop)]
pub struct Findings {
    pub text: String,
    pub held: bool,
}

impl Findings {
    /// The run tried nothing.
    pub fn new(alloc: Global) -> Findings {
        Findings {
            text: String::new(alloc),
            held: true,
        }
    }

    /// Appends the word of what the run tried, with `not` before it where it did not hold.
    pub fn decide(&mut self, word: &str, held: bool) -> Result<(), AllocError> {
        self.text.push_str(if held { ", " } else { ", not " })?;
        self.text.push_str(word)?;
        self.held = self.held && held;
        Ok(())
    }
}

/// The findings of a test vector, or why its octets are not read. `None` where nothing has the test vector's name.
pub type Attempt = Option<Result<Findings, Refusal>>;

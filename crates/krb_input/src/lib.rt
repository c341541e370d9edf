//! The forms in which people have Kerberos octets: as they are, in hexadecimal, in base64, between the lines of PEM, and behind a scheme of
//! HTTP.
//!
//! `octets_of_input` is one rule for all; its doc comment states it, and `specs/Forms.antt` is its definition.
#![tactic(auto)]

mod blanks;
mod dump;
mod forms;
mod headers;
mod marks;
mod pem;
mod words;

pub use blanks::without_blanks;
pub use forms::{InputError, hexadecimal_of, octets_of_input};
pub use words::after_text;

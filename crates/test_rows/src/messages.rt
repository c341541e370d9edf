//! Octets that come from outside this library, read, copied and written.
//!
//! The tables are `types` of types of DER, and of formats that have calls of their own `messages` (replies to a client, messages for
//! proxies, encodings in a stream), `frames` (that change passwords, and records of a caller's integrity), `tokens` (of the GSS-API),
//! `negoex` and `pacs`. A test vector is an origin, a type, a format or a call, and octets. After `=` come the octets that writing the
//! value gives, where they are others, or the name of the error of writing it. A fourth column is the text that `{:?}` writes of the
//! value. Where the name of an error is in the origin's place, reading the octets returns this error; of a test vector of the origin
//! `shown` the program prints the value.
//!
//! Servers and clients (MIT Kerberos, Heimdal, Samba) sent the test vectors that name them, alone or as a part of a message. An
//! encoder that shares no code with this library, or a person, made those of no options, of all options and of distinct fields.
//! Worked test vectors are single examples of an encoding or a layout. For each test vector the program prints a line that says what
//! holds of its octets: how it reads, copies and writes the value, and how it reads each prefix of the octets (`types`, `trials`).
//! The status is 0 where every test vector has what it should.

mod devices;
mod formats;
mod refusal;
mod row;
mod trials;
mod types;

use crate::messages::formats::{frames, messages, negoex, pacs, tokens};
use crate::messages::refusal::Refusal;
use crate::messages::row::{Attempt, Row, Trial};
use crate::messages::types::try_type;
use crate::rows::{Columns, Report, RowError, octets_of};
use std::alloc::Global;

/// Appends the findings of a test vector of this origin. Returns whether they are as they should be: of a rejection, whether its name
/// is in the origin's place, alone or as the name of the error that it passes on.
fn push_findings(text: &mut String, origin: &str, attempt: Attempt) -> Result<bool, RowError> {
    match attempt {
        Some(Ok(found)) => {
            text.push_str(" read")?;
            text.push_str(found.text.as_str())?;
            Ok(found.held)
        }
        Some(Err(Refusal::Named(name))) => {
            text.push_str(" refused, ")?;
            text.push_str(name.as_str())?;
            Ok(name.contains(origin))
        }
        Some(Err(Refusal::OutOfMemory)) => Err(RowError::OutOfMemory),
        None => {
            text.push_str(" no such type")?;
            Ok(false)
        }
    }
}

/// What the program reports of the test vector in a line. An allocation failure in any of its calls is returned as such.
pub fn report_of(alloc: Global, table: &str, mut columns: Columns<'_>) -> Result<Report, RowError> {
    let (origin, name) = (columns.text()?, columns.text()?);
    let digits = columns.text()?;
    let (digits, trailing) = digits.split_once('=').unwrap_or((digits, digits));
    let octets = octets_of(alloc, digits)?;
    let (written, unwritten) = match octets_of(alloc, trailing) {
        Ok(octets) => (octets, ""),
        Err(RowError::NoDigits) => (Vec::new(alloc), trailing),
        Err(error) => return Err(error),
    };
    let mut text = format!(in alloc; "{origin} {name} {} octets:", octets.len())?;
    let trial = match origin {
        "shown" | "large, shown" => Trial::Shown,
        "large" => Trial::Large,
        "once" => Trial::Once,
        _ => Trial::Whole,
    };
    let row = Row {
        alloc,
        trial,
        name,
        octets: &octets,
        written: &written,
        unwritten,
        text: columns.text().unwrap_or(""),
    };
    let attempt = match table {
        "types" => try_type(&row),
        "messages" => messages::try_message(&row),
        "frames" => frames::try_frame(&row),
        "tokens" => tokens::try_token(&row),
        "negoex" => negoex::try_negoex(&row),
        _ => pacs::try_pac(&row),
    };
    let held = push_findings(&mut text, origin, attempt)?;
    text.push_str("\n")?;
    Ok(Report { text, held })
}

//! Prints what Windows writes in a PAC as text.
//!
//! A row is a kind and a value: octets, of the kind `name`, or a number in decimal, of the kind `time`. For each row the program
//! prints a line: the text of a name in hexadecimal digits, or the parts of a time.

use crate::rows::{Columns, RowError};
use krb_pac_contents::text::{FileTime, name_text, time_of_filetime};
use std::alloc::{AllocError, Global};

/// The parts of a time.
fn time(alloc: Global, filetime: u64) -> Result<String, AllocError> {
    match time_of_filetime(filetime) {
        FileTime::Never => String::from_str(alloc, "never"),
        FileTime::Unrepresentable => String::from_str(alloc, "unrepresentable"),
        FileTime::Time {
            time,
            hundred_nanoseconds,
        } => {
            let date = format!(in alloc; "{} {} {}", time.year(), time.month(), time.day())?;
            let clock = format!(in alloc; "{} {} {}", time.hour(), time.minute(), time.second())?;
            format!(in alloc; "{date} {clock} {hundred_nanoseconds}")
        }
    }
}

/// What is printed of a row.
pub(crate) fn answer(alloc: Global, mut columns: Columns<'_>) -> Result<String, RowError> {
    let text = match columns.text()? {
        "time" => time(alloc, columns.number::<u64>()?)?,
        "name" => match name_text(alloc, &columns.octets(alloc)?)? {
            Some(text) => format!(in alloc; "text {}", hex::encode(alloc, text.as_bytes())?)?,
            None => String::from_str(alloc, "none")?,
        },
        _ => return Err(RowError::NoColumn),
    };
    Ok(format!(in alloc; "{text}\n")?)
}

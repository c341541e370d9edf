//! Cryptography of Kerberos (RFC 3961, RFC 3962, RFC 8009), call by call.
//!
//! A row is six columns: a call, a suite or a size, a number in decimal digits (mostly a key usage), and three octet strings: a key
//! or a password, what stands beside the input (a confounder, a salt or a constant), and the input. For each row the program prints
//! the call, the suite and what is returned: octets in hexadecimal digits, or the error. What the calls of the library for C answer in full is asked in
//! tests/calls.rows.

mod blocks;
mod hashes;
mod listed_words;
mod parts;
mod row;
mod suites;
mod texts;
mod toy;

use crate::crypto::blocks::try_block;
use crate::crypto::hashes::try_hash;
use crate::crypto::row::{Answer, Row, text_of};
use crate::crypto::suites::{try_checksum, try_suite};
use crate::crypto::texts::texts_of;
use crate::rows::{Columns, RowError};
use std::alloc::Global;

/// What the call of a row returns: each of these has a name in one of them alone.
fn try_row(alloc: Global, row: &Row) -> Answer {
    if row.call == "text" {
        return text_of(texts_of(alloc, row.suite));
    }
    let found = try_block(alloc, row);
    if found.is_some() {
        return found;
    }
    let found = try_hash(alloc, row);
    if found.is_some() {
        return found;
    }
    let found = try_checksum(alloc, row);
    if found.is_some() {
        return found;
    }
    try_suite(alloc, row)
}

/// What is printed of a row.
pub(crate) fn answer(alloc: Global, columns: Columns<'_>) -> Result<String, RowError> {
    let row = Row::of(alloc, columns)?;
    let (call, suite) = (row.call, row.suite);
    let answer = try_row(alloc, &row);
    drop(row);
    Ok(match answer {
        Some(Ok(text)) => format!(in alloc; "{call} {suite}: {text}\n")?,
        // (a row that expects the error of memory has its text alone, and makes no call)
        Some(Err(rejection)) if rejection.is_out_of_memory() => return Err(RowError::OutOfMemory),
        Some(Err(rejection)) => format!(in alloc; "{call} {suite}: refused, {rejection:?}\n")?,
        None => format!(in alloc; "{call} {suite}: no such call\n")?,
    })
}

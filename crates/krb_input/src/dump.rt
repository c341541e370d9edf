//! Dumps of octets.

ghost use Rattle.std.specs.Prelude.{◌≡◌, ◌++◌, IfOk, OnOk};
ghost use Rattle.krb_input.specs.Dump.{behind, behind_blank, behind_offset, digits_in, dump_digits, ends_offset, is_between, is_digit, is_dump, next_column, skip_zeros, unless};
ghost use Rattle.krb_input.specs.declared.dump.Column.TheVariants as column;

use crate::blanks::is_blank;
use crate::words::after_text;
use std::alloc::{AllocError, Global};

/// Where one is on a line of a dump.
#[derive(Clone, Copy, PartialEq, Eq)]
pub enum Column {
    /// In the offset at its start.
    Offset,
    /// Behind the offset, which a colon ended or a blank.
    BeforePair(bool),
    /// Behind the first digit of a pair.
    WithinPair(bool),
    /// Behind a pair.
    BehindPair(bool),
    /// Behind a pair and a blank.
    BehindBlank(bool),
    /// Behind a pair and two blanks.
    BehindTwoBlanks,
    /// In the text at its end.
    Text,
}

/// Whether an octet is a hexadecimal digit.
fn is_digit(octet: u8) -> bool
    ensures { result ≡ is_digit octet }
{
    (48 <= octet && octet <= 57) || (65 <= octet && octet <= 70) || (97 <= octet && octet <= 102)
}

/// Whether an octet stands between the columns.
fn is_between(octet: u8) -> bool
    ensures { result ≡ is_between octet }
{
    is_blank(octet) || octet == b'|'
}

/// What follows an octet behind a pair, where a blank leads to this column.
fn behind(colon: bool, at_blank: Column, octet: u8) -> Column
    ensures { result ≡ behind colon at_blank octet }
{
    if octet == b'\n' {
        Column::Offset
    } else if octet == b'|' {
        Column::Text
    } else if is_blank(octet) {
        at_blank
    } else {
        Column::WithinPair(colon)
    }
}

/// What follows two blanks behind a pair.
fn behind_blank(colon: bool) -> Column
    ensures { result ≡ behind_blank colon }
{
    if colon {
        Column::Text
    } else {
        Column::BehindTwoBlanks
    }
}

/// What follows an offset's octet.
fn behind_offset(octet: u8) -> Column
    ensures { result ≡ behind_offset octet }
{
    if octet == b':' {
        Column::BeforePair(true)
    } else if is_blank(octet) && !(octet == b'\n') {
        Column::BeforePair(false)
    } else {
        Column::Offset
    }
}

/// What follows an octet in text.
fn behind_text(octet: u8) -> Column
    ensures { result ≡ next_column column.Text octet }
{
    if octet == b'\n' {
        Column::Offset
    } else {
        Column::Text
    }
}

/// What follows an octet.
fn next_column(at: Column, octet: u8) -> Column
    ensures { result ≡ next_column at octet }
{
    match at {
        Column::Offset => behind_offset(octet),
        Column::BeforePair(colon) => behind(colon, Column::BeforePair(colon), octet),
        Column::WithinPair(colon) => Column::BehindPair(colon),
        Column::BehindPair(colon) => behind(colon, Column::BehindBlank(colon), octet),
        Column::BehindBlank(colon) => behind(colon, behind_blank(colon), octet),
        Column::BehindTwoBlanks => behind(false, Column::Text, octet),
        Column::Text => behind_text(octet),
    }
}

/// Whether an octet is no digit of a pair, nor one that is out of place.
fn is_skipped(at: Column, octet: u8) -> bool
    ensures { digits_in at octet ≡ unless result octet }
{
    match at {
        Column::Offset => is_digit(octet) || octet == b':' || is_blank(octet),
        Column::BeforePair(_) => is_between(octet),
        Column::WithinPair(_) => false,
        Column::BehindPair(_) => is_between(octet),
        Column::BehindBlank(_) => is_between(octet),
        Column::BehindTwoBlanks => is_between(octet),
        Column::Text => true,
    }
}

/// Appends an octet, unless it is skipped.
fn push_unless(out: &mut Vec<u8>, skipped: bool, octet: u8) -> Result<(), AllocError>
    ensures { OnOk result (out.new.items ≡ out.old.items ++ unless skipped octet) }
{
    if skipped {
        return Ok(());
    }
    out.extend_from_slice(&[octet])
}

/// The digits of a dump: on each line those of the pairs behind the offset, up to the text at its end, which begins with `|`, or behind three
/// blanks, or two where a colon ends the offset. Octets that are out of place stay.
#[tactic(auto, using(crate::proofs::Machines::written_more, crate::proofs::Machines::written_all))]
pub fn dump_digits(alloc: Global, text: &[u8]) -> Result<Vec<u8>, AllocError>
    ensures { IfOk result (λ digits. digits.items ≡ dump_digits text.now) }
{
    let mut digits = Vec::with_capacity(alloc, text.len())?;
    let mut at = Column::Offset;
    for octet in text {
        push_unless(&mut digits, is_skipped(at, *octet), *octet)?;
        at = next_column(at, *octet);
    }
    Ok(digits)
}

/// The octets from the first on that is no `0`.
fn skip_zeros(octets: &[u8]) -> &[u8]
    ensures { result.now ≡ skip_zeros octets.now }
{
    let mut rest = octets;
    while let Some((first, behind)) = rest.split_first() {
        if *first != b'0' {
            return rest;
        }
        rest = behind;
    }
    rest
}

/// Whether a colon, a space or a tabulator is at the start.
fn ends_offset(octets: &[u8]) -> bool
    ensures { result ≡ ends_offset octets.now }
{
    match octets.split_first() {
        None => false,
        Some((first, _)) => *first == b':' || *first == b' ' || *first == b'\t',
    }
}

/// Whether a text begins as a dump: with an offset of four zeros or more, and a colon or a blank.
pub fn is_dump(text: &[u8]) -> bool
    ensures { result ≡ is_dump text.now }
{
    match after_text(b"0000", text) {
        None => false,
        Some(rest) => ends_offset(skip_zeros(rest)),
    }
}

//! The trials of a format, by its calls.

use crate::messages::devices::{Sink, Source};
use crate::messages::refusal::{Refusal, Rejection, name_of};
use crate::messages::row::{Findings, Row, Trial};
use std::alloc::{AllocError, Global};
use std::fmt::Debug;
use std::io::{ErrorKind, Read, Write};

/// How many octets slow readers give at a time.
const PACES: [usize; 3] = [1, 7, usize::MAX];

/// A format: how its values are read and written.
pub trait Format {
    type Value: Debug + PartialEq + Drop;

    type Error: Rejection;

    /// The value at the start of the octets, as a clone where a call clones it. A call that reads from a reader is given one of these
    /// octets.
    fn read_from<R: Read>(
        alloc: Global,
        octets: &[u8],
        reader: &mut R,
    ) -> Result<Self::Value, Self::Error>;

    /// Writes the value.
    fn write_to<W: Write>(
        alloc: Global,
        value: &Self::Value,
        writer: &mut W,
    ) -> Result<(), Self::Error>;
}

/// The value of the octets, which are read from a slice.
fn read_slice<F: Format>(alloc: Global, octets: &[u8]) -> Result<F::Value, F::Error> {
    let mut reader = octets;
    F::read_from(alloc, octets, &mut reader)
}

/// Reads a test vector's octets as a value, writes it, and returns the findings:
///
/// - `copied`: a vector gets the octets that the test vector names;
/// - `sent`: so does a slow writer, also where it has no room for all of them (`is_sent`);
/// - `fronts`: how each prefix of the octets is read, at each length where that changes;
/// - `longer`: how the octets are read with one more behind them.
pub fn tried<F: Format>(row: &Row<'_>) -> Result<Findings, Refusal> {
    let value = match read_slice::<F>(row.alloc, row.octets) {
        Ok(value) => value,
        Err(error) => return Err(Refusal::Named(name_of(row.alloc, &error)?)),
    };
    let mut found = Findings::new(row.alloc);
    if row.trial == Trial::Shown {
        let text = format!(in row.alloc; " {value:?}")?;
        found.text.push_str(text.as_str())?;
        return Ok(found);
    }
    try_writing::<F>(row, &value, &mut found)?;
    if row.trial == Trial::Whole {
        push_prefixes::<F>(row, &mut found)?;
    }
    Ok(found)
}

/// Adds the findings of what the value is written as.
fn try_writing<F: Format>(
    row: &Row<'_>,
    value: &F::Value,
    found: &mut Findings,
) -> Result<(), AllocError> {
    let mut octets = Vec::new(row.alloc);
    if let Err(error) = F::write_to(row.alloc, value, &mut octets) {
        let name = name_of(row.alloc, &error)?;
        found.text.push_str(", not written, ")?;
        found.text.push_str(name.as_str())?;
        found.held = name.as_str() == row.unwritten;
        return Ok(());
    }
    let copied = octets.as_slice() == row.written && row.unwritten.is_empty();
    found.decide("copied", copied)?;
    if row.trial == Trial::Whole {
        found.decide("sent", is_sent::<F>(row.alloc, value, &octets))?;
    }
    Ok(())
}

/// Whether a slow writer with room for fewer octets than these gets a prefix of them and its error is returned, and one with room for
/// all gets them.
fn is_sent<F: Format>(alloc: Global, value: &F::Value, octets: &[u8]) -> bool {
    for room in 0..=octets.len() {
        let mut sink = Sink {
            taken: Vec::new(alloc),
            room,
            writes: 0,
        };
        let is_as_told = match F::write_to(alloc, value, &mut sink) {
            Ok(()) => room == octets.len(),
            Err(error) => room < octets.len() && error.io_kind() == Some(ErrorKind::BrokenPipe),
        };
        if !is_as_told || sink.taken.as_slice() != &octets[..room] {
            return false;
        }
    }
    true
}

/// `read`, or the name of the error of reading the octets.
fn outcome_of<F: Format>(alloc: Global, octets: &[u8]) -> Result<String, AllocError> {
    match read_slice::<F>(alloc, octets) {
        Ok(_) => String::from_str(alloc, "read"),
        Err(error) => name_of(alloc, &error),
    }
}

/// Adds how each prefix of the octets is read, at each length where that changes, and how the octets with one behind them are.
fn push_prefixes<F: Format>(row: &Row<'_>, found: &mut Findings) -> Result<(), Refusal> {
    found.text.push_str("; fronts")?;
    let mut last = String::new(row.alloc);
    for n in 0..row.octets.len() {
        let outcome = outcome_of::<F>(row.alloc, &row.octets[..n])?;
        if outcome != last {
            let text = format!(in row.alloc; " {n} {outcome}")?;
            found.text.push_str(text.as_str())?;
            last = outcome;
        }
    }
    let mut longer = Vec::from_slice(row.alloc, row.octets)?;
    longer.push(0x5a)?;
    found.text.push_str("; longer ")?;
    found
        .text
        .push_str(outcome_of::<F>(row.alloc, &longer)?.as_str())?;
    Ok(())
}

/// The findings of a test vector whose octets come from slow readers too:
///
/// - `left`: how many octets stay unread;
/// - `streamed`: readers of each pace give an equal value, and as many octets stay unread;
/// - `faulted`: where a read fails, each in turn, its error is returned.
pub fn tried_slowly<F: Format>(row: &Row<'_>) -> Result<Findings, Refusal> {
    let mut found = tried::<F>(row)?;
    if row.trial != Trial::Whole {
        return Ok(found);
    }
    let mut reader = row.octets;
    if let Ok(value) = F::read_from(row.alloc, row.octets, &mut reader) {
        let text = format!(in row.alloc; "; left {}", reader.len())?;
        found.text.push_str(text.as_str())?;
        let is_streamed = is_streamed::<F>(row, &value, reader.len());
        found.decide("streamed", is_streamed)?;
        found.decide("faulted", is_faulted::<F>(row))?;
    }
    Ok(found)
}

/// Whether readers of each pace give an equal value, and leave so many octets.
fn is_streamed<F: Format>(row: &Row<'_>, value: &F::Value, left: usize) -> bool {
    for at_once in PACES {
        let mut source = Source {
            left: row.octets,
            at_once,
            failing: None,
            reads: 0,
        };
        let Ok(read) = F::read_from(row.alloc, row.octets, &mut source) else {
            return false;
        };
        if source.left.len() != left || read != *value {
            return false;
        }
    }
    true
}

/// Whether the error of a reader of one octet at a time is returned, at each read in turn.
fn is_faulted<F: Format>(row: &Row<'_>) -> bool {
    let mut all = Source {
        left: row.octets,
        at_once: 1,
        failing: None,
        reads: 0,
    };
    if F::read_from(row.alloc, row.octets, &mut all).is_err() {
        return false;
    }
    for turn in 0..all.reads {
        let mut source = Source {
            left: row.octets,
            at_once: 1,
            failing: Some(turn),
            reads: 0,
        };
        let is_told = match F::read_from(row.alloc, row.octets, &mut source) {
            Ok(_) => false,
            Err(error) => error.io_kind() == Some(ErrorKind::BrokenPipe),
        };
        if !is_told {
            return false;
        }
    }
    true
}

/// The findings of the octets that a call makes of a test vector's, and that it should make.
pub fn made<E: Rejection>(
    row: &Row<'_>,
    octets: Result<Vec<u8>, E>,
    wanted: &[u8],
) -> Result<Findings, Refusal> {
    match octets {
        Ok(octets) => {
            let mut found = Findings::new(row.alloc);
            found.decide("made", octets.as_slice() == wanted)?;
            Ok(found)
        }
        Err(error) => Err(Refusal::Named(name_of(row.alloc, &error)?)),
    }
}

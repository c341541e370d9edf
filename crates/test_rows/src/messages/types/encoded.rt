//! The trials of octets that should be the encoding of a value of a type.

use crate::messages::refusal::{Refusal, name_of};
use crate::messages::row::{Findings, Row, Trial};
use crate::messages::trials::Format;
use krb_der::{Asn1DerError, Der, copy, from_bytes, from_reader, to_vec, to_writer};
use std::alloc::Global;
use std::fmt::Debug;
use std::io::{Read, Write};
use std::marker::PhantomData;

/// The octets that a vector holds before a call appends to it.
const OTHERS: [u8; 2] = [0x30, 0x00];

/// Encodings of values of a type, one after the other: what is read is at the start of what a reader has left.
pub struct Encodings<T>(PhantomData<T>);

impl<T: Der + Debug + PartialEq + Drop> Format for Encodings<T> {
    type Value = T;

    type Error = Asn1DerError;

    fn read_from<R: Read>(
        alloc: Global,
        _octets: &[u8],
        reader: &mut R,
    ) -> Result<T, Asn1DerError> {
        from_reader(alloc, reader)
    }

    fn write_to<W: Write>(alloc: Global, value: &T, writer: &mut W) -> Result<(), Asn1DerError> {
        let _count = to_writer(alloc, value, writer)?;
        Ok(())
    }
}

/// Reads the octets as a `T`, and returns what holds of them:
///
/// - `written`: writing the value gives these octets;
/// - `cut`: each proper prefix of them is `TruncatedData`;
/// - `longer`: with one trailing octet they are `InvalidData`;
/// - `copied`: a copy of the value is equal, and writing it gives these octets;
/// - `kept`: a vector keeps the octets before those that a call appends;
/// - `shown`: what `{:?}` writes of the value is the test vector's text.
///
/// That readers and writers come to the same is proved of any type; `Encodings` of a few are read and written so (`from_reader`).
pub fn findings_of<T: Der + Debug + PartialEq + Drop>(row: &Row<'_>) -> Result<Findings, Refusal> {
    match try_encoding::<T>(row) {
        Ok(found) => Ok(found),
        Err(error) => Err(Refusal::Named(name_of(row.alloc, &error)?)),
    }
}

/// The findings of the octets, or the error of reading them.
fn try_encoding<T: Der + Debug + PartialEq + Drop>(
    row: &Row<'_>,
) -> Result<Findings, Asn1DerError> {
    let value: T = from_bytes(row.alloc, row.octets)?;
    let mut found = Findings::new(row.alloc);
    let outcome = push_found(row, &value, &mut found);
    drop(value);
    match outcome {
        Ok(()) => Ok(found),
        Err(error) => {
            drop(found);
            Err(error)
        }
    }
}

/// Adds what holds of the octets and of their value.
fn push_found<T: Der + Debug + PartialEq + Drop>(
    row: &Row<'_>,
    value: &T,
    found: &mut Findings,
) -> Result<(), Asn1DerError> {
    found.decide("written", is_written(row, value)?)?;
    if row.trial == Trial::Whole {
        found.decide("cut", is_cut::<T>(row.alloc, row.octets))?;
    }
    if row.trial != Trial::Once {
        let mut longer = Vec::from_slice(row.alloc, row.octets)?;
        longer.push(0)?;
        let is_refused = matches!(
            from_bytes::<T>(row.alloc, &longer),
            Err(Asn1DerError::InvalidData)
        );
        drop(longer);
        found.decide("longer", is_refused)?;
    }
    push_copied(row, value, found)?;
    if !row.text.is_empty() {
        let is_shown = format!(in row.alloc; "{value:?}")?.as_str() == row.text;
        found.decide("shown", is_shown)?;
    }
    Ok(())
}

/// Whether writing a value gives the octets.
fn is_written<T: Der>(row: &Row<'_>, value: &T) -> Result<bool, Asn1DerError> {
    Ok(to_vec(row.alloc, value)?.as_slice() == row.octets)
}

/// Whether a vector keeps the octets before those that a call appends.
fn is_kept<T: Der>(row: &Row<'_>, value: &T) -> Result<bool, Asn1DerError> {
    let mut appended = Vec::from_slice(row.alloc, &OTHERS)?;
    value.write(row.alloc, &mut appended)?;
    Ok(appended.strip_prefix(OTHERS.as_slice()) == Some(row.octets))
}

/// Adds what holds of a copy of the value.
fn push_copied<T: Der + PartialEq + Drop>(
    row: &Row<'_>,
    value: &T,
    found: &mut Findings,
) -> Result<(), Asn1DerError> {
    let again = copy(row.alloc, value)?;
    let (is_equal, written) = (again == *value, is_written(row, &again));
    let kept = is_kept(row, &again);
    drop(again);
    found.decide("copied", is_equal && written?)?;
    found.decide("kept", kept?)?;
    Ok(())
}

/// Whether each proper prefix is `TruncatedData`.
fn is_cut<T: Der + Drop>(alloc: Global, octets: &[u8]) -> bool {
    for count in 0..octets.len() {
        if !matches!(
            from_bytes::<T>(alloc, &octets[..count]),
            Err(Asn1DerError::TruncatedData)
        ) {
            return false;
        }
    }
    true
}

//! Types of data of NEGOEX (MS-NEGOEX, 2.2.5).

use crate::messages::refusal::Refusal;
use crate::messages::row::{Attempt, Findings, Row, Trial};
use crate::messages::trials::{Format, made, tried_slowly};
use krb_negoex::negoex::NegoexDataType;
use krb_negoex::negoex::data_types::{
    AuthSchemeVector, ByteVector, Checksum, Extension, ExtensionVector, Guid, MessageHeader,
    MessageType,
};
use std::alloc::Global;
use std::fmt::Debug;
use std::io;
use std::io::{Read, Write};
use std::marker::PhantomData;

/// A type of data: the reader gives the fixed part, and what that points to is in the octets.
struct Data<T>(PhantomData<T>);

impl<T: NegoexDataType<Error = io::Error> + Debug + PartialEq + Drop> Format for Data<T> {
    type Value = T;

    type Error = io::Error;

    fn read_from<R: Read>(alloc: Global, octets: &[u8], reader: &mut R) -> io::Result<T> {
        T::decode(alloc, reader, octets)
    }

    fn write_to<W: Write>(alloc: Global, value: &T, writer: &mut W) -> io::Result<()> {
        value.encode(alloc, writer)
    }
}

/// Whether the fixed part of a test vector's value and its payload go to two vectors, and have the lengths that the calls tell.
fn is_apart<T: NegoexDataType<Error = io::Error> + Drop>(row: &Row<'_>) -> io::Result<bool> {
    let mut reader = row.octets;
    let value = T::decode(row.alloc, &mut reader, row.octets)?;
    let (mut fixed, mut payload) = (Vec::new(row.alloc), Vec::new(row.alloc));
    let size = value.encode_with_payload(row.alloc, T::fixed_len(), &mut fixed, &mut payload)?;
    let are_told = fixed.len() == T::fixed_len()
        && payload.len() == size
        && value.size() == row.octets.len();
    fixed.extend_from_slice(&payload)?;
    Ok(are_told && fixed.as_slice() == row.octets)
}

/// The findings of a test vector whose octets are a value of a type of data.
fn tried_apart<T: NegoexDataType<Error = io::Error> + Debug + PartialEq + Drop>(
    row: &Row<'_>,
) -> Result<Findings, Refusal> {
    let mut found = tried_slowly::<Data<T>>(row)?;
    if row.trial == Trial::Whole {
        found.decide("apart", matches!(is_apart::<T>(row), Ok(true)))?;
    }
    Ok(found)
}

/// What two vectors get of a vector of a test vector's octets whose payload is at the offset 2^32: the fixed part, and then the
/// payload.
fn far(row: &Row<'_>) -> io::Result<Vec<u8>> {
    let octets: ByteVector = Vec::from_slice(row.alloc, row.octets)?;
    let mut fixed = Vec::from_slice(row.alloc, &[1])?;
    let mut payload = Vec::from_slice(row.alloc, &[2])?;
    let _size = octets.encode_with_payload(row.alloc, 0x1_0000_0000, &mut fixed, &mut payload)?;
    fixed.extend_from_slice(&payload)?;
    Ok(fixed)
}

/// The findings of a type of data of NEGOEX, by its name.
pub fn try_data(row: &Row<'_>) -> Attempt {
    Some(match row.name {
        "data_types::AuthSchemeVector" => tried_apart::<AuthSchemeVector>(row),
        "data_types::ByteVector" => tried_apart::<ByteVector>(row),
        "data_types::Checksum" => tried_apart::<Checksum>(row),
        "data_types::Extension" => tried_apart::<Extension>(row),
        "data_types::ExtensionVector" => tried_apart::<ExtensionVector>(row),
        "data_types::Guid" => tried_apart::<Guid>(row),
        "data_types::MessageHeader" => tried_apart::<MessageHeader>(row),
        "data_types::MessageType" => tried_apart::<MessageType>(row),
        "data_types::u8" => tried_apart::<u8>(row),
        "ByteVector at 4294967296" => made(row, far(row), row.written),
        _ => return None,
    })
}

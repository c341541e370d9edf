//! The frames that change passwords (RFC 3244, 2), and records of a caller's integrity level and machine (MS-KILE, 2.2.5).

use crate::messages::refusal::Refusal;
use crate::messages::row::{Attempt, Findings, Row};
use crate::messages::trials::{Format, made, tried_slowly};
use krb_messages::kpasswd::{
    KrbPrivMessage, ReadFrameError, WriteFrameError, read_frame, write_frame,
};
use krb_types::lsap::{LsapTokenInfoIntegrity, octets_of, record_of};
use std::alloc::{AllocError, Global};
use std::io;
use std::io::{ErrorKind, Read, Write};

impl Format for KrbPrivMessage {
    type Value = KrbPrivMessage;

    type Error = io::Error;

    fn read_from<R: Read>(
        alloc: Global,
        _octets: &[u8],
        reader: &mut R,
    ) -> io::Result<KrbPrivMessage> {
        let message = KrbPrivMessage::deserialize(alloc, reader)?;
        let again = message.clone(alloc);
        drop(message);
        match again {
            Ok(again) => Ok(again),
            Err(_) => Err(io::Error::from(ErrorKind::OutOfMemory)),
        }
    }

    fn write_to<W: Write>(alloc: Global, value: &KrbPrivMessage, writer: &mut W) -> io::Result<()> {
        value.serialize(alloc, writer)
    }
}

/// A record, which goes through the calls on arrays once it is read.
impl Format for LsapTokenInfoIntegrity {
    type Value = LsapTokenInfoIntegrity;

    type Error = io::Error;

    fn read_from<R: Read>(
        _alloc: Global,
        _octets: &[u8],
        reader: &mut R,
    ) -> io::Result<LsapTokenInfoIntegrity> {
        let record = LsapTokenInfoIntegrity::decode(reader)?;
        Ok(record_of(&octets_of(&record.clone()?)))
    }

    fn write_to<W: Write>(
        _alloc: Global,
        value: &LsapTokenInfoIntegrity,
        writer: &mut W,
    ) -> io::Result<()> {
        value.encode(writer)
    }
}

/// The findings of a frame that was written, with the text of an error.
fn rewritten(
    row: &Row<'_>,
    outcome: Result<(), WriteFrameError>,
    frame: &[u8],
) -> Result<Findings, AllocError> {
    let mut found = Findings::new(row.alloc);
    match outcome {
        Ok(()) => found.decide("copied", frame == row.written)?,
        Err(WriteFrameError::OutOfMemory) => return Err(AllocError),
        Err(error) => {
            let text = format!(in row.alloc; ", not written, {error:?}: {error}")?;
            found.text.push_str(text.as_str())?;
            found.held = row.unwritten == "TooLong";
        }
    }
    Ok(found)
}

/// The findings of a frame that is read from a slice and appended to a vector, with the texts of errors.
fn reframed(row: &Row<'_>) -> Result<Findings, Refusal> {
    match read_frame(row.alloc, row.octets) {
        Ok((message, _taken)) => {
            let mut frame = Vec::new(row.alloc);
            let outcome = write_frame(row.alloc, &message, &mut frame);
            drop(message);
            Ok(rewritten(row, outcome, &frame)?)
        }
        Err(ReadFrameError::OutOfMemory) => Err(Refusal::OutOfMemory),
        Err(error) => {
            let text = format!(in row.alloc; "{error:?}: {error}")?;
            Err(Refusal::Named(text))
        }
    }
}

/// The texts of the errors for allocation failures.
fn texts(row: &Row<'_>) -> io::Result<Vec<u8>> {
    let read = ReadFrameError::OutOfMemory;
    let written = WriteFrameError::OutOfMemory;
    let text = format!(in row.alloc; "{read}, {written}")?;
    Ok(Vec::from_slice(row.alloc, text.as_bytes())?)
}

/// The findings of a frame or a record, by its name.
pub fn try_frame(row: &Row<'_>) -> Attempt {
    Some(match row.name {
        "KrbPrivMessage" => tried_slowly::<KrbPrivMessage>(row),
        "LsapTokenInfoIntegrity" => tried_slowly::<LsapTokenInfoIntegrity>(row),
        "read_frame" => reframed(row),
        "frames, texts" => made(row, texts(row), row.written),
        _ => return None,
    })
}

//! PACs, their entries and their buffers (MS-PAC, 2.3 to 2.4).

use crate::messages::refusal::{Refusal, name_of};
use crate::messages::row::{Attempt, Findings, Row, Trial};
use crate::messages::trials::{Format, made, tried_slowly};
use krb_pac::{Pac, PacBuffer, PacError, PacInfoBuffer, PacView};
use std::alloc::Global;
use std::io::{Read, Write};

/// How many octets come before a PAC's entries: a count, and the version.
const HEADER_LENGTH: usize = 8;

/// How many octets an entry has: a type, a size and an offset.
const ENTRY_LENGTH: usize = 16;

impl Format for Pac {
    type Value = Pac;

    type Error = PacError;

    fn read_from<R: Read>(alloc: Global, _octets: &[u8], reader: &mut R) -> Result<Pac, PacError> {
        let read = Pac::deserialize(alloc, reader)?;
        let again = read.clone(alloc);
        drop(read);
        again
    }

    fn write_to<W: Write>(alloc: Global, value: &Pac, writer: &mut W) -> Result<(), PacError> {
        value.serialize(alloc, writer)
    }
}

impl Format for PacInfoBuffer {
    type Value = PacInfoBuffer;

    type Error = PacError;

    fn read_from<R: Read>(
        _alloc: Global,
        _octets: &[u8],
        reader: &mut R,
    ) -> Result<PacInfoBuffer, PacError> {
        let read = PacInfoBuffer::deserialize(reader)?;
        Ok(PacInfoBuffer::new(read.ul_type(), read.cb_buffer_size(), read.offset()))
    }

    fn write_to<W: Write>(
        _alloc: Global,
        value: &PacInfoBuffer,
        writer: &mut W,
    ) -> Result<(), PacError> {
        value.serialize(writer)
    }
}

/// The buffers of a view of a PAC, which finds each at its place, and the first one of its type.
fn viewed(row: &Row<'_>) -> Result<Findings, Refusal> {
    let view = match PacView::new(row.octets) {
        Ok(view) => view,
        Err(error) => return Err(Refusal::Named(name_of(row.alloc, &error)?)),
    };
    let mut found = Findings::new(row.alloc);
    let mut count = 0usize;
    for buffer in view.buffers() {
        let info = buffer.info_buffer();
        let kind = info.ul_type();
        let (size, offset, octets) = (info.cb_buffer_size(), info.offset(), buffer.octets());
        let text = format!(in row.alloc; " {kind:?} {size} at {offset}: {octets:?}")?;
        found.text.push_str(text.as_str())?;
        let is_there = matches!(view.get(count), Some(again) if again.octets() == octets);
        let is_first =
            matches!(view.find(kind), Some(first) if first.info_buffer().ul_type() == kind);
        found.held = found.held && is_there && is_first;
        count = count.saturating_add(1);
    }
    found.held = found.held && count == view.len() && view.is_empty() == (count == 0);
    Ok(found)
}

/// Overwrites `count` octets, from the offset `from` on.
fn blank(octets: &mut [u8], from: usize, count: usize) {
    for octet in octets.iter_mut().skip(from).take(count) {
        *octet = b'z';
    }
}

/// The PAC's octets after a clone of the entry and the buffer at one position is written at another, where other octets stood in
/// place of both.
fn moved(row: &Row<'_>, from: usize, to: usize) -> Result<Vec<u8>, PacError> {
    let mut position = from;
    let read = PacBuffer::deserialize(row.alloc, row.octets, &mut position)?;
    let buffer = read.clone(row.alloc)?;
    let info = buffer.info_buffer();
    let mut octets = Vec::from_slice(row.alloc, row.octets)?;
    blank(&mut octets, from, ENTRY_LENGTH);
    blank(
        &mut octets,
        info.offset() as usize,
        info.cb_buffer_size() as usize,
    );
    let mut position = to;
    buffer.serialize(&mut octets, &mut position)?;
    Ok(octets)
}

/// The octets of the buffer that is made of an entry at the start of a test vector's octets and of those after it.
fn buffer_again(row: &Row<'_>) -> Result<Vec<u8>, PacError> {
    let mut reader = row.octets;
    let info = PacInfoBuffer::deserialize(&mut reader)?;
    let buffer = PacBuffer::new(info, Vec::from_slice(row.alloc, reader)?)?;
    Ok(Vec::from_slice(row.alloc, buffer.octets())?)
}

/// The octets of the PAC that is made of clones of the buffers of the test vector's.
fn pac_again(row: &Row<'_>) -> Result<Vec<u8>, PacError> {
    let read = Pac::deserialize(row.alloc, row.octets)?;
    let mut buffers = Vec::new(row.alloc);
    for buffer in read.buffers() {
        buffers.push(buffer.clone(row.alloc)?)?;
    }
    let mut octets = Vec::new(row.alloc);
    Pac::new(buffers)?.serialize(row.alloc, &mut octets)?;
    Ok(octets)
}

/// The findings of a buffer that is read at a position, or written at one.
fn try_buffer(row: &Row<'_>) -> Attempt {
    if let Some(position) = row.name.strip_prefix("PacBuffer at ") {
        let from = position.parse::<usize>().ok()?;
        return Some(made(row, moved(row, from, from), row.written));
    }
    let position = row.name.strip_prefix("PacBuffer into ")?;
    let to = position.parse::<usize>().ok()?;
    Some(made(row, moved(row, HEADER_LENGTH, to), row.written))
}

/// The findings of a PAC, an entry or a buffer, by its name.
pub fn try_pac(row: &Row<'_>) -> Attempt {
    Some(match row.name {
        "Pac" if row.trial == Trial::Shown => viewed(row),
        "Pac" => tried_slowly::<Pac>(row),
        "Pac::new" => made(row, pac_again(row), row.written),
        "PacInfoBuffer" => tried_slowly::<PacInfoBuffer>(row),
        "PacBuffer" => made(row, moved(row, HEADER_LENGTH, HEADER_LENGTH), row.octets),
        "PacBuffer::new" => made(row, buffer_again(row), row.written),
        _ => return try_buffer(row),
    })
}

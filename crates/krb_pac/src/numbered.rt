//! A PAC over the octets that the caller holds, with buffers of all types.

ghost use Rattle.std.specs.Prelude.{◌≡◌, ◌==◌, ℕ, ◌+◌, ◌*◌, ◌<◌, ◌≤◌, ◌^◌, List, length, drop, slice_get, IfOk, IfErr, MatchResult};
ghost use Rattle.std.specs.Iterator.{YieldsFirst, item_count};
ghost use Rattle.krb_pac.specs.Numbered.{NumberedAt, NumberedBuffer, NumberedBufferAt, NumberedBufferRejected, NumberedPacIs, NumberedPacRejected, all_numbered, first_numbered, numbered};
ghost use Rattle.krb_pac.specs.Rejected.{IsEof, IsNotMemory};

use crate::error::PacError;
use crate::ranges::lies_within;
use crate::reading::{cut_short, u32_at};
use byteorder::{ByteOrder, LittleEndian};
use std::marker::Model;

/// The entry of a buffer (MS-PAC 2.4, PAC_INFO_BUFFER), its type as the number that stands there.
#[derive(Clone, Copy, PartialEq, Eq)]
pub struct NumberedInfoBuffer {
    /// ulType: what the buffer holds. The standard lists some numbers (`PacBufferType`), and readers ignore buffers of others.
    pub ul_type: u32,
    /// How many octets the buffer has.
    pub cb_buffer_size: u32,
    /// How many octets of the PAC are before the buffer.
    pub offset: u64,
}

/// A buffer of a PAC that the caller holds, of whatever type: its entry and the octets that the entry names, a slice of the PAC's.
#[derive(Drop)]
pub struct NumberedBufferView<'a> {
    info: NumberedInfoBuffer,
    octets: &'a [u8],
}

impl<'a> Model for NumberedBufferView<'a> {
    ghost Value = { NumberedBuffer };

    ghost view = { λ b. record { info = b.info; octets = b.octets.now } };

    ghost invariant = { λ b. length b.octets.now ≡ b.info.cb_buffer_size };
}

impl<'a> NumberedBufferView<'a> {
    /// The entry.
    pub fn info_buffer(&self) -> &NumberedInfoBuffer
        ensures { result.now ≡ self.now.info }
    {
        &self.info
    }

    /// The octets that the entry names, without the zeros after them. They live as long as the PAC's octets.
    pub fn octets(&self) -> &'a [u8]
        ensures octets { result.now ≡ self.now.octets }
        ensures size { length result.now ≡ self.now.info.cb_buffer_size }
    {
        self.octets
    }
}

/// A PAC (MS-PAC 2.3, PACTYPE) over the octets that the caller holds, with buffers of all types, those that the standard does not list
/// too: as `PacView`, but a type is the number that stands there, and no number is refused. It takes no memory.
///
/// A contract sees the list of its buffers, in the order of their entries.
#[derive(Drop)]
pub struct NumberedPacView<'a> {
    octets: &'a [u8],
    count: usize,
}

impl<'a> Model for NumberedPacView<'a> {
    ghost Value = { List NumberedBuffer };

    ghost view = { λ v. all_numbered v.octets.now v.count };

    ghost invariant = { λ v. (v.count < 2 ^ 32) × ((k : ℕ) → k < v.count → NumberedBufferAt v.octets.now (8 + 16 * k) (numbered v.octets.now k)) };
}

impl<'a> NumberedPacView<'a> {
    /// The PAC that the octets are, whatever the types of its buffers.
    ///
    /// The whole directory is looked at, in order, and each buffer's range right after its entry: the first error is returned. Another
    /// version than 0 is `InvalidVersion`, a buffer whose octets are not all there `InvalidRange`, and a count, a version or an entry
    /// that is cut short `IoError` of `UnexpectedEof`. A buffer may end where the octets end; buffers may share octets, and octets that
    /// no buffer names are not looked at. There is no other error. The steps grow with the entries that are there alone.
    pub fn new(octets: &'a [u8]) -> Result<Self, PacError>
        ensures found { IfOk result (NumberedPacIs octets.now) }
        ensures rejected { IfErr result (NumberedPacRejected octets.now) }
        ensures memory { IfErr result IsNotMemory }
        ensures only { (pac : List NumberedBuffer) → NumberedPacIs octets.now pac → MatchResult result (λ v. v ≡ pac) (λ _. ⊥) }
    {
        let count = u32_at(octets, 0)?;
        let version = u32_at(octets, 4)?;
        if version != 0 {
            return Err(PacError::InvalidVersion(version));
        }
        let count = count as usize;
        'entries: for n in 0..count {
            buffer_at(octets, 8 + 16 * n)?;
        }
        Ok(NumberedPacView { octets, count })
    }

    /// How many buffers there are.
    pub fn len(&self) -> usize
        ensures { result ≡ length self.now }
    {
        self.count
    }

    /// Whether there are no buffers.
    pub fn is_empty(&self) -> bool
        ensures { result ≡ (length self.now == 0) }
    {
        self.count == 0
    }

    /// Buffer n, counted from 0 in the order of the entries. `None` where there are not so many.
    pub fn get(&self, n: usize) -> Option<NumberedBufferView<'a>>
        ensures { result ≡ slice_get self.now n }
    {
        if n >= self.count {
            return None;
        }
        buffer_at(self.octets, 8 + 16 * n).ok()
    }

    /// The first buffer whose type has this number. `None` where no buffer's type has it.
    pub fn find(&self, ul_type: u32) -> Option<NumberedBufferView<'a>>
        ensures { result ≡ first_numbered ul_type self.now }
    {
        for buffer in self.buffers() {
            if buffer.info_buffer().ul_type == ul_type {
                return Some(buffer);
            }
        }
        None
    }

    /// The buffers, in the order of their entries.
    pub fn buffers(&self) -> NumberedBuffers<'a>
        ensures { result ≡ self.now }
    {
        NumberedBuffers {
            pac: NumberedPacView {
                octets: self.octets,
                count: self.count,
            },
            place: 0,
        }
    }
}

/// An iterator over the buffers of a PAC. A contract sees the list of those that are left.
#[derive(Drop)]
pub struct NumberedBuffers<'a> {
    pac: NumberedPacView<'a>,
    place: usize,
}

impl<'a> Model for NumberedBuffers<'a> {
    ghost Value = { List NumberedBuffer };

    ghost view = { λ it. drop it.place it.pac };

    ghost invariant = { λ it. length it.pac < 2 ^ 32 };
}

impl<'a> Iterator for NumberedBuffers<'a> {
    type Item = NumberedBufferView<'a>;

    ghost next_gives = { YieldsFirst (λ left. left) };

    ghost remaining = { item_count (λ left. left) };

    /// The next buffer.
    fn next(&mut self) -> Option<NumberedBufferView<'a>> {
        let buffer = self.pac.get(self.place)?;
        self.place += 1;
        Some(buffer)
    }
}

/// The entry in the sixteen octets from `at` on.
fn entry_at(octets: &[u8], at: usize) -> Result<NumberedInfoBuffer, PacError>
    ensures ok { IfOk result (NumberedAt octets.now at) }
    ensures err { IfErr result (λ e. IsEof e × (length octets.now < at + 16)) }
    ensures memory { IfErr result IsNotMemory }
{
    if at > octets.len() || octets.len() - at < 16 {
        return Err(cut_short());
    }
    let (_, entry) = octets.split_at(at);
    let (_, size) = octets.split_at(at + 4);
    let (_, offset) = octets.split_at(at + 8);
    Ok(NumberedInfoBuffer {
        ul_type: LittleEndian::read_u32(entry),
        cb_buffer_size: LittleEndian::read_u32(size),
        offset: LittleEndian::read_u64(offset),
    })
}

/// The buffer whose entry is at a position.
fn buffer_at(octets: &[u8], at: usize) -> Result<NumberedBufferView<'_>, PacError>
    ensures found { IfOk result (NumberedBufferAt octets.now at) }
    ensures rejected { IfErr result (NumberedBufferRejected octets.now at) }
    ensures memory { IfErr result IsNotMemory }
{
    let info = entry_at(octets, at)?;
    if !lies_within(info.offset, info.cb_buffer_size, octets.len()) {
        return Err(PacError::InvalidRange);
    }
    let offset = info.offset as usize;
    let size = info.cb_buffer_size as usize;
    Ok(NumberedBufferView {
        info,
        octets: &octets[offset..offset + size],
    })
}

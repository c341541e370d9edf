//! A PAC over the octets that the caller holds.

ghost use Rattle.std.specs.Prelude.{◌≡◌, ◌==◌, ℕ, ◌+◌, ◌*◌, ◌<◌, ◌^◌, List, length, drop, slice_get, IfOk, IfErr, MatchResult};
ghost use Rattle.std.specs.Iterator.{YieldsFirst, item_count};
ghost use Rattle.krb_pac.specs.Layout.{Buffer, BufferAt, PacIs};
ghost use Rattle.krb_pac.specs.Rejected.{BufferRejected, IsNotMemory, PacRejected};
ghost use Rattle.krb_pac.specs.View.{buffer_of, buffers_of, first_of};

use crate::error::PacError;
use crate::info::PacInfoBuffer;
use crate::kind::PacBufferType;
use crate::ranges::is_within;
use crate::reading::{entry_at, u32_at};
use std::marker::Model;

/// A buffer of a PAC that the caller holds: its entry (MS-PAC 2.4, PAC_INFO_BUFFER) and the octets that the entry names, a slice
/// of the PAC's.
#[derive(Drop)]
pub struct PacBufferView<'a> {
    info: PacInfoBuffer,
    octets: &'a [u8],
}

impl<'a> Model for PacBufferView<'a> {
    ghost Value = { Buffer };

    ghost view = { λ b. record { info = b.info; octets = b.octets.now } };

    ghost invariant = { λ b. length b.octets.now ≡ b.info.cb_buffer_size };
}

impl<'a> PacBufferView<'a> {
    /// The entry.
    pub fn info_buffer(&self) -> &PacInfoBuffer
        ensures { result.now ≡ self.now.info }
    {
        &self.info
    }

    /// The octets that the entry names, without the zeros after them. They live as long as the PAC's octets.
    pub fn octets(&self) -> &'a [u8]
        ensures octets { result.now ≡ self.now.octets }
        ensures size { length result.now ≡ self.now.info.cb_buffer_size }
    {
        self.octets
    }
}

/// A PAC (MS-PAC 2.3, PACTYPE) over the octets that the caller holds: its buffers are slices of these. It takes no memory.
///
/// A contract sees the list of its buffers, in the order of their entries.
#[derive(Drop)]
pub struct PacView<'a> {
    octets: &'a [u8],
    count: usize,
}

impl<'a> Model for PacView<'a> {
    ghost Value = { List Buffer };

    ghost view = { λ v. buffers_of v.octets.now 0 v.count };

    ghost invariant = { λ v. (v.count < 2 ^ 32) × ((k : ℕ) → k < v.count → BufferAt v.octets.now (8 + 16 * k) (buffer_of v.octets.now (8 + 16 * k))) };
}

impl<'a> PacView<'a> {
    /// The PAC that the octets are: that which `Pac::deserialize` reads from them.
    ///
    /// The whole directory is looked at, in order, and each buffer's range right after its entry: the first error is returned, and it
    /// is that of `Pac::deserialize`. Another version than 0 is `InvalidVersion`, the number of no type `PacBufferType`, a buffer
    /// whose octets are not all there `InvalidRange`, and a count, a version or an entry that is cut short `IoError` of
    /// `UnexpectedEof`. A buffer may end where the octets end; buffers may share octets, and octets that no buffer names are not
    /// looked at. There is no other error, since no memory is taken. The steps grow with the entries that are there alone.
    pub fn new(octets: &'a [u8]) -> Result<Self, PacError>
        ensures found { IfOk result (PacIs octets.now) }
        ensures rejected { IfErr result (PacRejected octets.now) }
        ensures memory { IfErr result IsNotMemory }
        ensures only { (pac : List Buffer) → PacIs octets.now pac → MatchResult result (λ v. v ≡ pac) (λ _. ⊥) }
    {
        let count = u32_at(octets, 0)?;
        let version = u32_at(octets, 4)?;
        if version != 0 {
            return Err(PacError::InvalidVersion(version));
        }
        let count = count as usize;
        'entries: for n in 0..count {
            view_at(octets, 8 + 16 * n)?;
        }
        Ok(PacView { octets, count })
    }

    /// How many buffers there are.
    pub fn len(&self) -> usize
        ensures { result ≡ length self.now }
    {
        self.count
    }

    /// Whether there are no buffers.
    pub fn is_empty(&self) -> bool
        ensures { result ≡ (length self.now == 0) }
    {
        self.count == 0
    }

    /// Buffer n, counted from 0 in the order of the entries. `None` where there are not so many.
    pub fn get(&self, n: usize) -> Option<PacBufferView<'a>>
        ensures { result ≡ slice_get self.now n }
    {
        if n >= self.count {
            return None;
        }
        view_at(self.octets, 8 + 16 * n).ok()
    }

    /// The first buffer of a type. `None` where no buffer is of it.
    pub fn find(&self, ul_type: PacBufferType) -> Option<PacBufferView<'a>>
        ensures { result ≡ first_of ul_type self.now }
    {
        for buffer in self.buffers() {
            if u32::from(buffer.info_buffer().ul_type()) == u32::from(ul_type) {
                return Some(buffer);
            }
        }
        None
    }

    /// The buffers, in the order of their entries.
    pub fn buffers(&self) -> PacBuffers<'a>
        ensures { result ≡ self.now }
    {
        PacBuffers {
            pac: PacView {
                octets: self.octets,
                count: self.count,
            },
            place: 0,
        }
    }
}

/// An iterator over the buffers of a PAC. A contract sees the list of those that are left.
#[derive(Drop)]
pub struct PacBuffers<'a> {
    pac: PacView<'a>,
    place: usize,
}

impl<'a> Model for PacBuffers<'a> {
    ghost Value = { List Buffer };

    ghost view = { λ it. drop it.place it.pac };

    ghost invariant = { λ it. length it.pac < 2 ^ 32 };
}

impl<'a> Iterator for PacBuffers<'a> {
    type Item = PacBufferView<'a>;

    ghost next_gives = { YieldsFirst (λ left. left) };

    ghost remaining = { item_count (λ left. left) };

    /// The next buffer.
    fn next(&mut self) -> Option<PacBufferView<'a>> {
        let buffer = self.pac.get(self.place)?;
        self.place += 1;
        Some(buffer)
    }
}

/// The buffer whose entry is at a position.
fn view_at(octets: &[u8], at: usize) -> Result<PacBufferView<'_>, PacError>
    ensures found { IfOk result (BufferAt octets.now at) }
    ensures rejected { IfErr result (BufferRejected octets.now at) }
    ensures memory { IfErr result IsNotMemory }
{
    let info = entry_at(octets, at)?;
    if !is_within(&info, octets.len()) {
        return Err(PacError::InvalidRange);
    }
    let offset = info.offset() as usize;
    let size = info.cb_buffer_size() as usize;
    Ok(PacBufferView {
        info,
        octets: &octets[offset..offset + size],
    })
}

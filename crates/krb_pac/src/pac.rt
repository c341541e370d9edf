//! A whole PAC.

ghost use Rattle.std.specs.Prelude.{◌≡◌, ℕ, ◌≤◌, ◌<◌, ◌^◌, List, length, IfOk, IfErr, IfSome, OnOk, MatchResult, ◌⊎◌};
ghost use Rattle.std.specs.Io.KnownBytes.{Appends};
ghost use Rattle.krb_pac.specs.Written.{PacPut};
ghost use Rattle.std.specs.Cmp.Lexicographic.{pointwise};
ghost use Rattle.krb_pac.specs.Devices.{IfIo, StopsInside};
ghost use Rattle.krb_io.specs.Transfer.{IsNotInterrupted};
ghost use Rattle.krb_pac.specs.Comparing.{same_pac_per, same_pac_equiv};
ghost use Rattle.krb_pac.specs.Layout.{Buffer, PacIs, same_buffer};
ghost use Rattle.krb_pac.specs.Rejected.{Answers, AnswersUnlessError, RejectsUnlessError, NamesOutside, PacRejected, IsError};

use crate::buffer::PacBuffer;
use crate::error::PacError;
use crate::reading::u32_at;
use crate::writing::to_octets;
use krb_io::{read_to_end, write_all};
use std::alloc::Global;
use std::io::{Read, Write};
use std::marker::Model;

/// A PAC (MS-PAC 2.3, PACTYPE): its buffers, fewer than 2^32 of them.
///
/// ```text
/// cBuffers 4 octets, how many buffers there are
/// Version  4 octets, which is 0
/// Buffers  16 octets for each buffer, its entry
/// ```
///
/// The buffers' octets are where the entries say. The numbers are in little-endian order.
#[derive(Debug, Drop)]
pub struct Pac {
    buffers: Vec<PacBuffer>,
}

impl Model for Pac {
    ghost Value = { List Buffer };

    ghost view = { λ p. p.buffers.items };

    ghost invariant = { λ p. length p.buffers.items < 2 ^ 32 };
}

impl Pac {
    /// The PAC of these buffers. 2^32 buffers and more are `InvalidRange`. Whether they have places of their own is looked at
    /// on writing.
    pub fn new(buffers: Vec<PacBuffer>) -> Result<Self, PacError>
        ensures ok { IfOk result (λ p. (p ≡ buffers.items) × (length buffers.items < 2 ^ 32)) }
        ensures err { IfErr result (λ e. (e ≡ PacError.InvalidRange) × (2 ^ 32 ≤ length buffers.items)) }
    {
        if buffers.len() >= 0x1_0000_0000 {
            return Err(PacError::InvalidRange);
        }
        Ok(Pac { buffers })
    }

    /// The buffers, in the order of their entries.
    pub fn buffers(&self) -> &[PacBuffer]
        ensures buffers { result.now ≡ self.now }
        ensures few { length result.now < 2 ^ 32 }
    {
        &self.buffers
    }

    /// The PAC that the octets are.
    fn from_octets(alloc: Global, bytes: &[u8]) -> Result<Self, PacError>
        ensures found { IfOk result (PacIs bytes.now) }
        ensures rejected { IfErr result (PacRejected bytes.now) }
        ensures only { (pac : List Buffer) → PacIs bytes.now pac → Answers result pac }
    {
        let count = u32_at(bytes, 0)?;
        let version = u32_at(bytes, 4)?;
        if version != 0 {
            return Err(PacError::InvalidVersion(version));
        }
        let mut buffers = Vec::new(alloc);
        let mut position = 8;
        'entries: for _ in 0..count {
            buffers.push(PacBuffer::deserialize(alloc, bytes, &mut position)?)?;
        }
        Ok(Pac { buffers })
    }

    /// Writes the PAC: count, version 0, the entries, and each buffer's octets where
    /// its entry says, in 8 + 16 * count octets and the buffers' sizes, each rounded up to 8. All other octets are zeros.
    ///
    /// `InvalidRange` where a buffer's octets are not all within this length, or share an octet with the entries and what is
    /// before them, or with another buffer's. All growths of memory come before the first write: after `OutOfMemory` and
    /// `InvalidRange` nothing was written. An error of the writer is `IoError`; it has then taken a prefix of the PAC's octets, and not
    /// all of them. A write that a signal interrupts is made again. The steps that it takes grow with the octets that it writes
    /// alone, whatever the number of buffers.
    pub fn serialize<W: Write>(&self, alloc: Global, out: &mut W) -> Result<(), PacError>
        ensures ok { OnOk result ((b : List ℕ) × PacPut self.now b × Appends (W.contents out.old) (W.contents out.new) b) }
        ensures no_place { ((b : List ℕ) → PacPut self.now b → ⊥)
            → MatchResult result (λ _. ⊥) (λ e. (e ≡ PacError.InvalidRange) ⊎ (e ≡ PacError.OutOfMemory)) }
        ensures rejected { IfErr result (λ e. IsError e ⊎ ((e ≡ PacError.InvalidRange) × ((b : List ℕ) → PacPut self.now b → ⊥))) }
        ensures kept { IfErr result (λ e. (e ≡ PacError.InvalidRange) ⊎ (e ≡ PacError.OutOfMemory) → out.new ≡ out.old) }
        ensures error { IfErr result (StopsInside (PacPut self.now) (W.contents out.old) (W.contents out.new)) }
    {
        let octets = to_octets(alloc, self.buffers())?;
        write_all(out, &octets)?;
        Ok(())
    }

    /// An equal PAC, or `OutOfMemory`.
    pub fn clone(&self, alloc: Global) -> Result<Pac, PacError>
        ensures ok { IfOk result (λ p. p ≡ self.now) }
        ensures err { IfErr result (λ e. e ≡ PacError.OutOfMemory) }
    {
        let mut buffers = Vec::new(alloc);
        'buffers: for buffer in &self.buffers {
            buffers.push(buffer.clone(alloc)?)?;
        }
        Ok(Pac { buffers })
    }

    /// The PAC that all octets up to the reader's end are.
    ///
    /// They are read in order, and each buffer's octets right after its entry: the first error is returned. Another
    /// version than 0 is `InvalidVersion`, the number of no type `PacBufferType`, a buffer whose octets are not all there
    /// `InvalidRange`, and a count, a version or an entry that is cut short `IoError` of `UnexpectedEof`. A buffer may end where
    /// the octets end; buffers may share octets, and octets that no buffer names are not looked at. An error of the reader is
    /// `IoError` too; a read that a signal interrupts is tried again.
    ///
    /// No memory is taken for buffers that are claimed and not there. Each buffer holds a copy of its octets, also where
    /// buffers share them: bound the octets that you pass in.
    pub fn deserialize<R: Read + Drop>(alloc: Global, reader: R) -> Result<Self, PacError>
        ensures found { IfOk result (λ pac. IfSome (R.remaining reader) (λ b. PacIs b pac)) }
        ensures rejected { IfErr result (λ e. IsError e ⊎ IfSome (R.remaining reader) (λ b. PacRejected b e)) }
        ensures range { IfSome (R.remaining reader) (λ b. NamesOutside b → RejectsUnlessError result PacError.InvalidRange) }
        ensures lasting { IfErr result (IfIo IsNotInterrupted) }
        ensures only { IfSome (R.remaining reader) (λ b. (pac : List Buffer) → PacIs b pac → AnswersUnlessError result pac) }
    {
        let mut reader = reader;
        let octets = read_to_end(alloc, &mut reader)?;
        Pac::from_octets(alloc, &octets)
    }
}

impl PartialEq for Pac {
    ghost eq = { pointwise same_buffer };

    ghost laws = { same_pac_per };

    fn eq(&self, other: &Self) -> bool {
        self.buffers.as_slice() == other.buffers.as_slice()
    }
}

impl Eq for Pac {
    ghost laws = { same_pac_equiv };
}

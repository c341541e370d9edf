//! One buffer of a PAC.

ghost use Rattle.std.specs.Prelude.{◌≡◌, ◌+◌, length, IfOk, IfErr, OnOk, OnErr};
ghost use Rattle.krb_pac.specs.Comparing.{same_buffer_per, same_buffer_equiv};
ghost use Rattle.krb_pac.specs.Written.{HasRoom, BufferPut};
ghost use Rattle.krb_pac.specs.Layout.{Buffer, BufferAt, same_buffer};
ghost use Rattle.krb_pac.specs.Rejected.{Answers, BufferRejected};
ghost use Rattle.krb_pac.specs.declared.error.PacError.TheVariants as errors;

use crate::error::PacError;
use crate::info::PacInfoBuffer;
use crate::ranges::{has_room, is_within};
use crate::reading::entry_at;
use crate::writing::put_buffer;
use std::alloc::Global;
use std::marker::Model;

/// A buffer of a PAC: its entry (MS-PAC 2.4, PAC_INFO_BUFFER) and the octets that the entry names, which are as many as it
/// says.
#[derive(Debug, Drop)]
pub struct PacBuffer {
    info: PacInfoBuffer,
    octets: Vec<u8>,
}

impl Model for PacBuffer {
    ghost Value = { Buffer };

    ghost view = { λ b. record { info = b.info; octets = b.octets.items } };

    ghost invariant = { λ b. length b.octets.items ≡ b.info.cb_buffer_size };
}

impl PacBuffer {
    /// The buffer of this entry and these octets. Octets that are not as many as the entry says are `InvalidRange`.
    pub fn new(info: PacInfoBuffer, octets: Vec<u8>) -> Result<Self, PacError>
        ensures ok { IfOk result (λ p. (p ≡ record { info = info; octets = octets.items }) × (length octets.items ≡ info.cb_buffer_size)) }
        ensures err { IfErr result (λ e. (e ≡ errors.InvalidRange) × (length octets.items ≡ info.cb_buffer_size → ⊥)) }
    {
        if octets.len() != info.cb_buffer_size() as usize {
            return Err(PacError::InvalidRange);
        }
        Ok(PacBuffer { info, octets })
    }

    /// The entry.
    pub fn info_buffer(&self) -> &PacInfoBuffer
        ensures { result.now ≡ self.now.info }
    {
        &self.info
    }

    /// The octets that the entry names, without the zeros after them.
    pub fn octets(&self) -> &[u8]
        ensures octets { result.now ≡ self.now.octets }
        ensures size { length result.now ≡ self.now.info.cb_buffer_size }
    {
        &self.octets
    }

    /// The buffer whose entry is at the position, which is then 16 octets further.
    ///
    /// `bytes` is the whole PAC, since the entry names its octets from the PAC's first octet on. The entry's fields are looked
    /// at in their order: an entry that is cut short is `IoError` of `UnexpectedEof`, the number of no type `PacBufferType`,
    /// octets that are not all within `bytes` `InvalidRange`. They may end where `bytes` ends. An error leaves the position
    /// where it was.
    pub fn deserialize(alloc: Global, bytes: &[u8], position: &mut usize) -> Result<Self, PacError>
        ensures found { IfOk result (BufferAt bytes.now position.old) }
        ensures moved { OnOk result (position.new ≡ position.old + 16) }
        ensures rejected { IfErr result (BufferRejected bytes.now position.old) }
        ensures only { (p : Buffer) → BufferAt bytes.now position.old p → Answers result p }
        ensures kept { OnErr result (position.new ≡ position.old) }
    {
        let info = entry_at(bytes, *position)?;
        if !is_within(&info, bytes.len()) {
            return Err(PacError::InvalidRange);
        }
        let offset = info.offset() as usize;
        let size = info.cb_buffer_size() as usize;
        let octets = Vec::from_slice(alloc, &bytes[offset..offset + size])?;
        *position += 16;
        Ok(PacBuffer { info, octets })
    }

    /// Puts the buffer into the octets of a PAC, its entry at the position, which is then 16 octets further, and its octets
    /// where the entry says. No other octet changes.
    ///
    /// `InvalidRange` where the entry or the octets do not fit, or share an octet. An error changes nothing.
    pub fn serialize(&self, out: &mut [u8], position: &mut usize) -> Result<(), PacError>
        ensures put { OnOk result (BufferPut position.old out.old out.new self.now) }
        ensures room { OnOk result (HasRoom position.old (length out.old) self.now) }
        ensures moved { OnOk result (position.new ≡ position.old + 16) }
        ensures rejected { IfErr result (λ e. (e ≡ errors.InvalidRange) × (HasRoom position.old (length out.old) self.now → ⊥)) }
        ensures kept { OnErr result ((out.new ≡ out.old) × (position.new ≡ position.old)) }
    {
        if !has_room(self, *position, out.len()) {
            return Err(PacError::InvalidRange);
        }
        put_buffer(self, out, *position);
        *position += 16;
        Ok(())
    }

    /// An equal buffer, or `OutOfMemory`.
    pub fn clone(&self, alloc: Global) -> Result<PacBuffer, PacError>
        ensures ok { IfOk result (λ p. p ≡ self.now) }
        ensures err { IfErr result (λ e. e ≡ errors.OutOfMemory) }
    {
        let octets = Vec::from_slice(alloc, &self.octets)?;
        Ok(PacBuffer {
            info: self.info,
            octets,
        })
    }
}

impl PartialEq for PacBuffer {
    ghost eq = { same_buffer };

    ghost laws = { same_buffer_per };

    fn eq(&self, other: &Self) -> bool {
        u32::from(self.info.ul_type()) == u32::from(other.info.ul_type())
            && self.info.cb_buffer_size() == other.info.cb_buffer_size()
            && self.info.offset() == other.info.offset()
            && self.octets.as_slice() == other.octets.as_slice()
    }
}

impl Eq for PacBuffer {
    ghost laws = { same_buffer_equiv };
}

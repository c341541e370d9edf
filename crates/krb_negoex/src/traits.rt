//! What every type of data in a message has.

ghost use Rattle.std.specs.Prelude.{◌≡◌, ℕ, ◌+◌, ◌^◌, ◌-◌, ◌⊎◌, min, ◌++◌, drop, Some, IfOk, IfErr, IfSome, OnOk, MatchResult};
ghost use Rattle.std.specs.Io.KnownBytes.{Appends, Keeps};
ghost use Rattle.krb_io.specs.Transfer.{IsNotInterrupted};
ghost use Rattle.krb_negoex.specs.Devices.{EncodeRejected, PrefixRejected, GatherRejected, IsReportedBy, PartsStopped};
ghost use Rattle.krb_negoex.specs.Rejected.{IsUnlaidBy, LayRejected};

use crate::devices::read_prefix;
use crate::message::encode_whole;
use crate::parts::{Lay, Part, Placed};
use krb_io::write_all;
use std::alloc::Global;
use std::io;
use std::io::{Read, Write};

/// A type of data of MS-NEGOEX 2.2: a fixed part, and a payload that is elsewhere in the message. It is an octet, a GUID, a
/// message type, a header, an extension, a checksum, or a vector of a type of data.
pub trait NegoexDataType: Placed {
    /// The errors.
    type Error: From<io::Error>;

    /// What is known of every value: numbers in range.
    ghost known: { Self → Type 0 };

    /// How many octets the fixed part has: 1 for an octet, 16 for a GUID, 4 for a message type, 40 for a header, 12 for an
    /// extension, 20 for a checksum, 8 for a vector.
    fn fixed_len() -> usize
        ensures { result ≡ Self.layout.width };

    /// How many octets the fixed part and all payloads have, or `usize::MAX` where that is less.
    fn size(&self) -> usize
        ensures size { result ≡ min (Self.layout.width + Self.layout.payload_size self.now) (2 ^ 64 - 1) }
        ensures known { known self.now };

    /// Writes the fixed part to one writer, and the payload to the other; returns how many octets the payload has. The payload
    /// is in the message at the offset, which counts octets from the message's first.
    ///
    /// `InvalidInput` where an offset or a count does not fit its 32 bits, and `OutOfMemory` where an allocation failed; both
    /// writers are then as before. An I/O error of the writer is returned; the writers have then taken a prefix of the fixed part
    /// and nothing, or the fixed part and a prefix of the payload. A write that a signal interrupts is tried again.
    final fn encode_with_payload<W: Write, V: Write>(
        &self,
        alloc: Global,
        offset: usize,
        to: &mut W,
        payload_to: &mut V,
    ) -> Result<usize, Self::Error>
    where
        Self: Sized,
        ensures laid { OnOk result (Self.layout.laid offset self.now) }
        ensures size { IfOk result (λ n. n ≡ Self.layout.payload_size self.now) }
        ensures fixed_part { OnOk result (Appends (W.contents to.old) (W.contents to.new) (Self.layout.fixed offset self.now)) }
        ensures payload_part { OnOk result (Appends (V.contents payload_to.old) (V.contents payload_to.new) (Self.layout.payload offset self.now)) }
        ensures unlaid { (Self.layout.laid offset self.now → ⊥) → MatchResult result (λ _. ⊥) (IsUnlaidBy Self.Error.from_gives)
            × Keeps (W.contents to.old) (W.contents to.new) × Keeps (V.contents payload_to.old) (V.contents payload_to.new) }
        ensures rejected { IfErr result (IsReportedBy Self.Error.from_gives (λ x.
            (LayRejected (Self.layout.laid offset self.now) x × Keeps (W.contents to.old) (W.contents to.new)
            × Keeps (V.contents payload_to.old) (V.contents payload_to.new))
            ⊎ (Self.layout.laid offset self.now × IsNotInterrupted x
            × PartsStopped (Self.layout.fixed offset self.now) (Self.layout.payload offset self.now)
            (W.contents to.old) (W.contents to.new) (V.contents payload_to.old) (V.contents payload_to.new)))) }
    {
        let mut fixed_part = Vec::new(alloc);
        let mut payload_part = Vec::new(alloc);
        self.lay(alloc, offset, &mut fixed_part, &mut payload_part)?;
        write_all(to, &fixed_part)?;
        write_all(payload_to, &payload_part)?;
        Ok(payload_part.len())
    }

    /// Writes the fixed part and the payload after it. The fixed part names the payload's place: octet 8 for a vector, 12 for
    /// an extension, its `header_len` for a checksum.
    ///
    /// `InvalidInput` where an offset or a count does not fit its 32 bits, and `OutOfMemory` where an allocation failed; the
    /// writer is then as before. An I/O error of the writer is returned; it has then taken a prefix of these octets, and not all
    /// of them. A write that a signal interrupts is tried again.
    final fn encode<W: Write>(&self, alloc: Global, to: &mut W) -> Result<(), Self::Error>
    where
        Self: Sized,
        ensures laid { OnOk result (Self.layout.laid (Self.start self.now) self.now) }
        ensures ok { OnOk result (Appends (W.contents to.old) (W.contents to.new)
            (Self.layout.fixed (Self.start self.now) self.now ++ Self.layout.payload (Self.start self.now) self.now)) }
        ensures unlaid { (Self.layout.laid (Self.start self.now) self.now → ⊥) → MatchResult result (λ _. ⊥) (IsUnlaidBy Self.Error.from_gives)
            × Keeps (W.contents to.old) (W.contents to.new) }
        ensures rejected { IfErr result (IsReportedBy Self.Error.from_gives (EncodeRejected (Self.layout.laid (Self.start self.now) self.now)
            (Self.layout.fixed (Self.start self.now) self.now ++ Self.layout.payload (Self.start self.now) self.now) (W.contents to.old) (W.contents to.new))) }
    {
        encode_whole(self, alloc, self.payload_start(), &[], to)?;
        Ok(())
    }

    /// The value whose fixed part the reader gives next; the reader is then just after it. What the fixed part points to is
    /// read out of the message.
    ///
    /// `UnexpectedEof` where the reader or the message ends before a fixed part does, `InvalidData` where a vector's offset lies
    /// past the message, at another signature or at a number that is no message type's, `InvalidInput` at another checksum
    /// scheme, and `OutOfMemory` where an allocation failed. An I/O error of the reader before it gave a fixed part is returned;
    /// a read that a signal interrupts is tried again.
    final fn decode<R: Read>(
        alloc: Global,
        from: &mut R,
        message: &[u8],
    ) -> Result<Self, Self::Error>
    where
        Self: Sized,
        ensures found { IfOk result (λ v. IfSome (R.remaining from.old) (λ f. Self.layout.part f message.now v)) }
        ensures rest { OnOk result (IfSome (R.remaining from.old) (λ f. R.remaining from.new ≡ Some (drop Self.layout.width f))) }
        ensures only { IfSome (R.remaining from.old) (λ f. (v : Self) → Self.layout.part f message.now v → IfOk result (λ w. Self.layout.same w v)) }
        ensures rejected { IfErr result (IsReportedBy Self.Error.from_gives
            (λ x. GatherRejected Self.layout.width (R.remaining from.old) (R.remaining from.new) x
            ⊎ PrefixRejected Self.layout.width (λ f. Self.layout.rejects f message.now) (R.remaining from.old) (R.remaining from.new) x)) }
    {
        let octets = read_prefix(alloc, from, Self::fixed_len())?;
        let (value, _) = Self::read_part(alloc, &octets, message)?;
        Ok(value)
    }
}

//! What every whole message has.

ghost use Rattle.std.specs.Prelude.{◌≡◌, ℕ, ◌+◌, ◌≤◌, ◌<◌, ◌^◌, List, ◌++◌, ◌⊎◌, IfOk, IfErr, OnOk, MatchResult};
ghost use Rattle.std.specs.Io.KnownBytes.{Appends, Keeps};
ghost use Rattle.std.specs.IoError.{error_kind};
ghost use Rattle.krb_io.specs.Transfer.{IsPrefixWritten};
ghost use Rattle.krb_negoex.specs.Devices.{EncodeRejected};
ghost use Rattle.krb_negoex.specs.Rejected.{IsMemory, IsUnfit};
ghost use Rattle.krb_negoex.specs.Whole.{written, new_header};
ghost use Rattle.krb_negoex.specs.Wire.{header_layout};

use crate::header::{MessageHeader, MessageType, NEGOEXTS_MESSAGE_SIGNATURE};
use crate::numbers::invalid_input;
use crate::parts::{Lay, Part};
use crate::traits::NegoexDataType;
use krb_io::write_all;
use std::alloc::Global;
use std::io;
use std::io::{ErrorKind, Write};
use uuid::Uuid;

/// A message (MS-NEGOEX 2.2.6): a fixed part, and a payload after it.
pub trait NegoexMessage: Part {
    /// The errors.
    type Error;

    /// The octets between the fixed part and the payload.
    ghost between: { List ℕ };

    /// Where the payload starts.
    ghost start: { Self → ℕ };

    /// The first error of octets that are no such message.
    ghost rejected: { List ℕ → Self.Error → Type 0 };

    /// An allocation failed.
    ghost is_memory: { Self.Error → Type 0 };

    /// A number does not fit its field.
    ghost is_unfit: { Self.Error → Type 0 };

    /// What an I/O error of the writer becomes.
    ghost is_error: { Self.Error → Type 0 };

    /// The message that the octets begin with, what its vectors point to among them. The lengths in the header are not compared
    /// with the octets.
    ///
    /// Fields are read in order, a vector's elements right after its own octets, and the first error decides. For the three
    /// messages here: `InvalidData` at another signature or message type, and where a vector's offset lies past the octets, also
    /// with the count 0; `InvalidInput` at another checksum scheme; `UnexpectedEof` where the octets end before a fixed part or
    /// an element does; `OutOfMemory` where an allocation failed.
    fn decode(alloc: Global, message: &[u8]) -> Result<Self, Self::Error>
        ensures found { IfOk result (Self.layout.part message.now message.now) }
        ensures rejected { IfErr result (rejected message.now) }
        ensures only { (v : Self) → Self.layout.part message.now message.now v → MatchResult result (λ w. Self.layout.same w v) is_memory };

    /// Writes the message. Its vectors say that the payload is at `header_len`, whatever that is, and it is written after
    /// the fixed part.
    ///
    /// `InvalidInput` where an offset or a count does not fit its 32 bits, and `OutOfMemory` where an allocation failed; the
    /// writer is then as before. An I/O error of the writer is returned; it has then taken a prefix of the message's octets, and
    /// not all of them. A write that a signal interrupts is tried again.
    fn encode<W: Write>(&self, alloc: Global, to: &mut W) -> Result<(), Self::Error>
        ensures laid { OnOk result (Self.layout.laid (start self.now) self.now) }
        ensures ok { OnOk result (Appends (W.contents to.old) (W.contents to.new) (written Self.layout (start self.now) between self.now)) }
        ensures unlaid { (Self.layout.laid (start self.now) self.now → ⊥) → MatchResult result (λ _. ⊥) (λ e. is_memory e ⊎ is_unfit e)
            × Keeps (W.contents to.old) (W.contents to.new) }
        ensures rejected { IfErr result (λ e. ((is_memory e ⊎ (is_unfit e × (Self.layout.laid (start self.now) self.now → ⊥)))
            × Keeps (W.contents to.old) (W.contents to.new))
            ⊎ (Self.layout.laid (start self.now) self.now × is_error e
            × IsPrefixWritten (written Self.layout (start self.now) between self.now) (W.contents to.old) (W.contents to.new))) };
}

/// The value that the octets of a message begin with.
pub(crate) fn decode_whole<M: Part>(alloc: Global, message: &[u8]) -> io::Result<M>
    ensures found { IfOk result (M.layout.part message.now message.now) }
    ensures rejected { IfErr result (M.layout.rejects message.now message.now) }
    ensures only { (v : M) → M.layout.part message.now message.now v → MatchResult result (λ w. M.layout.same w v) IsMemory }
{
    let (value, _) = M::read_part(alloc, message, message)?;
    Ok(value)
}

/// Writes a fixed part, octets between, and the payload, which starts at the offset.
pub(crate) fn encode_whole<M: Lay, W: Write>(
    value: &M,
    alloc: Global,
    start: usize,
    between: &[u8],
    to: &mut W,
) -> io::Result<()>
    ensures laid { OnOk result (M.layout.laid start value.now) }
    ensures ok { OnOk result (Appends (W.contents to.old) (W.contents to.new) (written M.layout start between.now value.now)) }
    ensures unlaid { (M.layout.laid start value.now → ⊥) → MatchResult result (λ _. ⊥) (λ e. IsMemory e ⊎ IsUnfit e)
        × Keeps (W.contents to.old) (W.contents to.new) }
    ensures rejected { IfErr result (EncodeRejected (M.layout.laid start value.now) (written M.layout start between.now value.now)
        (W.contents to.old) (W.contents to.new)) }
{
    let mut octets = Vec::new(alloc);
    let mut payload = Vec::new(alloc);
    value.lay(alloc, start, &mut octets, &mut payload)?;
    octets.extend_from_slice(between)?;
    octets.extend_from_slice(&payload)?;
    write_all(to, &octets)
}

/// The header of a message of that length; `InvalidInput` where it does not fit 32 bits.
pub(crate) fn header_of(
    message_type: MessageType,
    conversation_id: Uuid,
    sequence_num: u32,
    header_len: u32,
    message_len: usize,
) -> io::Result<MessageHeader>
    ensures ok { IfOk result (λ h. (h ≡ new_header message_type conversation_id sequence_num header_len message_len) × (message_len < 2 ^ 32)
        × header_layout.readable h) }
    ensures err { IfErr result (λ e. (error_kind e ≡ ErrorKind.InvalidInput) × (2 ^ 32 ≤ message_len)) }
{
    let _known = (message_type.size(), conversation_id.size());
    if message_len > 0xffff_ffff {
        return Err(invalid_input());
    }
    Ok(MessageHeader {
        signature: NEGOEXTS_MESSAGE_SIGNATURE,
        message_type,
        sequence_num,
        header_len,
        message_len: message_len as u32,
        conversation_id,
    })
}

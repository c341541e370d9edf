//! The frame of a request to change a password, and of the reply.

ghost use Rattle.std.specs.Prelude.{◌≡◌, ◌++◌, ◌<◌, ◌≤◌, ◌^◌, ◌⊎◌, List, ℕ, length, Some, Err, IfOk, IfErr, OnOk, OnErr, MatchResult};
ghost use Rattle.std.specs.Io.KnownBytes.{Appends, Consumes};
ghost use Rattle.std.specs.IoError.{error_kind};
ghost use Rattle.krb_der.specs.Whole.{Answers};
ghost use Rattle.krb_der_core.specs.Reading.{TakesPrefix};
ghost use Rattle.krb_messages.specs.Frame.{HoldsValues, IsFrameOf, frame_of};
ghost use Rattle.krb_messages.specs.Rejected.{FrameRejected, IsAnswered, IsUnwritten, ReaderRejected, WriterRejected};
ghost use Rattle.krb_messages.specs.declared.kpasswd.rejection.Rejection.{Rejection};

use crate::kpasswd::error::{ReadFrameError, WriteFrameError};
use crate::kpasswd::prefix::prefix_messages;
use crate::kpasswd::reading::take_messages;
use crate::kpasswd::writing::frame_octets;
use crate::messages::{ApMessage, KrbPriv};
use krb_der::{Asn1DerError, DerEncode, copy};
use krb_io::write_all;
use std::alloc::Global;
use std::io;
use std::io::{ErrorKind, Read, Write};

/// The frame of a request to change a password, and of the reply (RFC 3244, 2).
///
/// ```text
/// message length:    2 octets, of the whole frame
/// version:           2 octets, 1
/// AP message length: 2 octets, of the AP message alone
/// AP message:        a KRB-AP-REQ or a KRB-AP-REP in DER
/// KRB-PRIV:          in DER
/// ```
///
/// The numbers have their highest octet first. A frame has at most 65535 octets.
#[derive(Debug, Drop, PartialEq, Eq)]
pub struct KrbPrivMessage {
    /// In a request, this authenticates the client; in a reply, the server.
    pub ap_message: ApMessage,
    /// The request or the reply: its encrypted part holds a `ChangePasswdData` or a result.
    pub krb_priv: KrbPriv,
}

impl KrbPrivMessage {
    /// The frame that the reader's next octets are. Exactly these are read: octets after the KRB-PRIV stay unread.
    ///
    /// Both lengths are read, and compared with nothing. The fields are read and checked in order. Octets that end in the six
    /// before the messages are `UnexpectedEof`, unless they hold another version. Another version is `InvalidData`, and so are a
    /// message that is no encoding and one that is cut short: the error is the first, from the left, as `read_frame` reports it.
    /// An I/O error of the reader is returned as it is: the reader had then given octets that are cut short in these six, or all
    /// six of them. A read that a signal interrupts is tried again. An allocation failure, which comes only after these six octets,
    /// is `OutOfMemory`. After an error some octets may have been read, and the reader is of no further use. `read_frame` reads a
    /// slice.
    pub fn deserialize<R: Read>(alloc: Global, reader: &mut R) -> io::Result<Self>
        ensures valid { IfOk result (HoldsValues ⟦<ApMessage as DerEncode>⟧ ⟦<KrbPriv as DerEncode>⟧) }
        ensures found { IfOk result (λ m. (octets : List ℕ) × IsFrameOf ⟦<ApMessage as DerEncode>⟧ ⟦<KrbPriv as DerEncode>⟧ m octets
            × Consumes (R.remaining reader.old) (R.remaining reader.new) octets) }
        ensures reads { (m : KrbPrivMessage) (octets rest : List ℕ) → HoldsValues ⟦<ApMessage as DerEncode>⟧ ⟦<KrbPriv as DerEncode>⟧ m
            → length octets < 2 ^ 64 → IsFrameOf ⟦<ApMessage as DerEncode>⟧ ⟦<KrbPriv as DerEncode>⟧ m octets
            → R.remaining reader.old ≡ Some (octets ++ rest) → IfOk result (λ n. (n ≡ m) × (R.remaining reader.new ≡ Some rest)) }
        ensures rejected { IfErr result (λ e. (why : Rejection) × IsAnswered why e
            × ReaderRejected ⟦<ApMessage as DerEncode>⟧ ⟦<KrbPriv as DerEncode>⟧ (R.remaining reader.old) (R.remaining reader.new) why) }
    {
        let (ap_message, krb_priv) = take_messages(alloc, reader)?;
        Ok(KrbPrivMessage {
            ap_message,
            krb_priv,
        })
    }

    /// Writes the frame.
    ///
    /// A frame of more than 65535 octets is `InvalidInput`, and nothing was written. The frame is made first: where that allocation
    /// fails, the error is `OutOfMemory`, and nothing was written. Every other error is an I/O error of the writer, or `WriteZero`
    /// where it takes no octets: it has then taken a prefix of the frame, and not all of it. A write that a signal interrupts is
    /// tried again. `write_frame` appends to a vector.
    pub fn serialize<W: Write>(&self, alloc: Global, writer: &mut W) -> io::Result<()>
        ensures octets { OnOk result
            (Appends (W.contents writer.old) (W.contents writer.new) (frame_of ⟦<ApMessage as DerEncode>⟧ ⟦<KrbPriv as DerEncode>⟧ self.now)) }
        ensures valid { OnOk result (HoldsValues ⟦<ApMessage as DerEncode>⟧ ⟦<KrbPriv as DerEncode>⟧ self.now) }
        ensures too_long { 2 ^ 16 ≤ length (frame_of ⟦<ApMessage as DerEncode>⟧ ⟦<KrbPriv as DerEncode>⟧ self.now) → MatchResult result (λ _. ⊥)
            (λ e. ((error_kind e ≡ ErrorKind.InvalidInput) ⊎ (error_kind e ≡ ErrorKind.OutOfMemory)) × (writer.new ≡ writer.old)) }
        ensures rejected { IfErr result
            (WriterRejected W.contents writer.old writer.new (frame_of ⟦<ApMessage as DerEncode>⟧ ⟦<KrbPriv as DerEncode>⟧ self.now)) }
    {
        let octets = frame_octets(alloc, &self.ap_message, &self.krb_priv)?;
        write_all(writer, &octets)
    }

    /// An equal value. The only error is `OutOfMemory`.
    pub fn clone(&self, alloc: Global) -> Result<Self, Asn1DerError>
        ensures { Answers result self.now }
    {
        Ok(KrbPrivMessage {
            ap_message: copy(alloc, &self.ap_message)?,
            krb_priv: copy(alloc, &self.krb_priv)?,
        })
    }
}

/// The frame at the start of the octets, and how many octets it has. Trailing octets are not looked at.
///
/// Both lengths are read, and compared with nothing. On other octets the error is the first, from the left: `Cut` where the six
/// octets before the messages are cut short, but `Version` where the version is another, even if the second length is missing; then
/// the error of the AP message, then that of the KRB-PRIV. `OutOfMemory` may come in place of any result after these six octets.
pub fn read_frame(alloc: Global, octets: &[u8]) -> Result<(KrbPrivMessage, usize), ReadFrameError>
    ensures valid { IfOk result (λ p. HoldsValues ⟦<ApMessage as DerEncode>⟧ ⟦<KrbPriv as DerEncode>⟧ p.0) }
    ensures found { IfOk result (λ p. (x : List ℕ) × IsFrameOf ⟦<ApMessage as DerEncode>⟧ ⟦<KrbPriv as DerEncode>⟧ p.0 x × TakesPrefix x p.1 octets.now) }
    ensures reads { (m : KrbPrivMessage) (x rest : List ℕ) → HoldsValues ⟦<ApMessage as DerEncode>⟧ ⟦<KrbPriv as DerEncode>⟧ m
        → IsFrameOf ⟦<ApMessage as DerEncode>⟧ ⟦<KrbPriv as DerEncode>⟧ m x → octets.now ≡ x ++ rest
        → MatchResult result (λ p. p ≡ (m, length x)) (λ e. e ≡ ReadFrameError.OutOfMemory) }
    ensures first_error { IfErr result (FrameRejected ⟦<ApMessage as DerEncode>⟧ ⟦<KrbPriv as DerEncode>⟧ octets.now) }
{
    let ((ap_message, krb_priv), taken) = prefix_messages(alloc, octets)?;
    let message = KrbPrivMessage {
        ap_message,
        krb_priv,
    };
    Ok((message, taken))
}

/// Appends the frame to `out`, which is as before after an error.
///
/// A frame of more than 65535 octets is `TooLong`, unless an allocation fails before; every other error is `OutOfMemory`.
pub fn write_frame(
    alloc: Global,
    message: &KrbPrivMessage,
    out: &mut Vec<u8>,
) -> Result<(), WriteFrameError>
    ensures ok { OnOk result (out.new.items ≡ out.old.items ++ frame_of ⟦<ApMessage as DerEncode>⟧ ⟦<KrbPriv as DerEncode>⟧ message.now) }
    ensures fits { OnOk result (length (frame_of ⟦<ApMessage as DerEncode>⟧ ⟦<KrbPriv as DerEncode>⟧ message.now) < 2 ^ 16) }
    ensures valid { OnOk result (HoldsValues ⟦<ApMessage as DerEncode>⟧ ⟦<KrbPriv as DerEncode>⟧ message.now) }
    ensures err { IfErr result (IsUnwritten (frame_of ⟦<ApMessage as DerEncode>⟧ ⟦<KrbPriv as DerEncode>⟧ message.now)) }
    ensures kept { OnErr result (out.new.items ≡ out.old.items) }
{
    let octets = frame_octets(alloc, &message.ap_message, &message.krb_priv)?;
    out.extend_from_slice(&octets)?;
    Ok(())
}

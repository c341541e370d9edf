//! The entry of one buffer.

ghost use Rattle.std.specs.Prelude.{◌≡◌, ℕ, ◌≤◌, length, drop, Some, IfOk, IfErr, IfSome, OnOk};
ghost use Rattle.std.specs.Io.KnownBytes.{Appends};
ghost use Rattle.krb_io.specs.Transfer.{IsNotInterrupted, IsPrefixWritten};
ghost use Rattle.krb_pac.specs.Devices.{EntryRejected, IsIo};
ghost use Rattle.krb_pac.specs.Entry.{Entry};
ghost use Rattle.krb_pac.specs.Layout.{EntryAt, entry_of_type};
ghost use Rattle.krb_pac.specs.Rejected.{AnswersUnlessError};
ghost use Rattle.krb_pac.specs.Written.{entry_octets};

use crate::devices::read_u32;
use crate::error::PacError;
use crate::kind::PacBufferType;
use crate::writing::entry;
use byteorder::{ByteOrder, LittleEndian};
use krb_io::{read_exact, write_all};
use std::io::{Read, Write};
use std::marker::Model;

/// The entry of a buffer (MS-PAC 2.4, PAC_INFO_BUFFER): 16 octets, the numbers in little-endian order.
///
/// ```text
/// ulType       4 octets
/// cbBufferSize 4 octets, how many octets the buffer has
/// Offset       8 octets, how many octets of the PAC are before it
/// ```
#[derive(Debug, Clone, Copy, PartialEq, Eq)]
pub struct PacInfoBuffer {
    ul_type: PacBufferType,
    cb_buffer_size: u32,
    offset: u64,
}

impl Model for PacInfoBuffer {
    ghost use Rattle.krb_pac.specs.Entry.{Entry};

    ghost Value = { Entry };

    ghost view = { λ e. record { ul_type = e.ul_type; cb_buffer_size = e.cb_buffer_size; offset = e.offset } };

    ghost inverse = { λ e. record { ul_type = e.ul_type; cb_buffer_size = e.cb_buffer_size; offset = e.offset } };
}

impl PacInfoBuffer {
    /// The entry of these fields.
    pub fn new(ul_type: PacBufferType, cb_buffer_size: u32, offset: u64) -> Self
        ensures { result ≡ record { ul_type = ul_type; cb_buffer_size = cb_buffer_size; offset = offset } }
    {
        PacInfoBuffer {
            ul_type,
            cb_buffer_size,
            offset,
        }
    }

    /// The entry of this type, whose size and offset the octets after its type begin with.
    pub(crate) fn of_type(ul_type: PacBufferType, rest: &[u8]) -> Self
        requires { 12 ≤ length rest.now }
        ensures { result ≡ entry_of_type ul_type rest.now }
    {
        let (_, offset) = rest.split_at(4);
        PacInfoBuffer {
            ul_type,
            cb_buffer_size: LittleEndian::read_u32(rest),
            offset: LittleEndian::read_u64(offset),
        }
    }

    /// What the buffer holds.
    pub fn ul_type(&self) -> PacBufferType
        ensures { result ≡ self.now.ul_type }
    {
        self.ul_type
    }

    /// How many octets the buffer has.
    pub fn cb_buffer_size(&self) -> u32
        ensures { result ≡ self.now.cb_buffer_size }
    {
        self.cb_buffer_size
    }

    /// How many octets of the PAC are before the buffer.
    pub fn offset(&self) -> u64
        ensures { result ≡ self.now.offset }
    {
        self.offset
    }

    /// The entry that the reader's next 16 octets are, read field by field. What follows them is left unread.
    ///
    /// The number of no type is `PacBufferType`, reported once its four octets are read. A reader that ends or fails before it gave all 16 is
    /// `IoError`, an early end of the kind `UnexpectedEof`; a read that a signal interrupts is made again. After an error some
    /// octets may have been read.
    pub fn deserialize<R: Read>(reader: &mut R) -> Result<Self, PacError>
        ensures found { IfOk result (λ e. IfSome (R.remaining reader.old) (λ f. EntryAt f 0 e)) }
        ensures trailing { OnOk result (IfSome (R.remaining reader.old) (λ f. R.remaining reader.new ≡ Some (drop 16 f))) }
        ensures rejected { IfErr result (EntryRejected (R.remaining reader.old) (R.remaining reader.new)) }
        ensures only { IfSome (R.remaining reader.old) (λ f. (e : Entry) → EntryAt f 0 e → AnswersUnlessError result e) }
    {
        let number = read_u32(reader)?;
        let ul_type = PacBufferType::try_from(number)?;
        let mut rest = [0; 12];
        read_exact(reader, &mut rest)?;
        Ok(PacInfoBuffer::of_type(ul_type, &rest))
    }

    /// Writes the 16 octets of the entry. An error of the writer is `IoError`; it has then taken a prefix of these octets, and not all
    /// of them. A write that a signal interrupts is made again.
    pub fn serialize<W: Write>(&self, to: &mut W) -> Result<(), PacError>
        ensures ok { OnOk result (Appends (W.contents to.old) (W.contents to.new) (entry_octets self.now)) }
        ensures error { IfErr result (IsIo (λ x. IsNotInterrupted x × IsPrefixWritten (entry_octets self.now) (W.contents to.old) (W.contents to.new))) }
    {
        write_all(to, &entry(self))?;
        Ok(())
    }
}

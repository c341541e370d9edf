//! Reading an entry and its buffer out of a slice.

ghost use Rattle.std.specs.Prelude.{◌≡◌, ◌+◌, ◌≤◌, ◌<◌, length, drop, IfOk, IfErr};
ghost use Rattle.byteorder.specs.Endian.{little_number};
ghost use Rattle.krb_pac.specs.Layout.{EntryAt};
ghost use Rattle.krb_pac.specs.Rejected.{IsEof, IsNotMemory, BufferRejected};

use crate::error::PacError;
use crate::info::PacInfoBuffer;
use crate::kind::PacBufferType;
use byteorder::{ByteOrder, LittleEndian};
use std::io;
use std::io::ErrorKind;

/// That octets end too early.
pub(crate) fn cut_short() -> PacError
    ensures { IsEof result }
{
    PacError::IoError(io::Error::new(ErrorKind::UnexpectedEof, "a PAC is cut short"))
}

/// The number in the four octets from `at` on.
pub(crate) fn u32_at(bytes: &[u8], at: usize) -> Result<u32, PacError>
    ensures ok { IfOk result (λ n. (at + 4 ≤ length bytes.now) × (little_number 4 (drop at bytes.now) ≡ n)) }
    ensures err { IfErr result (λ e. IsEof e × (length bytes.now < at + 4)) }
{
    if at > bytes.len() || bytes.len() - at < 4 {
        return Err(cut_short());
    }
    let (_, rest) = bytes.split_at(at);
    Ok(LittleEndian::read_u32(rest))
}

/// The entry in the sixteen octets from `at` on.
pub(crate) fn entry_at(bytes: &[u8], at: usize) -> Result<PacInfoBuffer, PacError>
    ensures ok { IfOk result (EntryAt bytes.now at) }
    ensures err { IfErr result (BufferRejected bytes.now at) }
    ensures memory { IfErr result IsNotMemory }
{
    let ul_type = PacBufferType::try_from(u32_at(bytes, at)?)?;
    if bytes.len() - at < 16 {
        return Err(cut_short());
    }
    let (_, rest) = bytes.split_at(at + 4);
    Ok(PacInfoBuffer::of_type(ul_type, rest))
}

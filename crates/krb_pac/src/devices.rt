//! Numbers from a reader.

ghost use Rattle.std.specs.Prelude.{IfOk, IfErr};
ghost use Rattle.byteorder.specs.Endian.{little_number, ReadsNumber};
ghost use Rattle.krb_io.specs.Transfer.{IsNotInterrupted, IsShortRead};
ghost use Rattle.krb_pac.specs.Devices.{IsIo};

use crate::error::PacError;
use byteorder::{ByteOrder, LittleEndian};
use krb_io::read_exact;
use std::io::Read;

/// The number in the reader's next four octets.
pub(crate) fn read_u32<R: Read>(from: &mut R) -> Result<u32, PacError>
    ensures bytes { IfOk result (λ n. ReadsNumber little_number 4 (R.remaining from.old) (R.remaining from.new) n) }
    ensures error { IfErr result (IsIo (λ x. IsNotInterrupted x × IsShortRead 4 (R.remaining from.old) (R.remaining from.new))) }
{
    let mut octets = [0; 4];
    read_exact(from, &mut octets)?;
    Ok(LittleEndian::read_u32(&octets))
}

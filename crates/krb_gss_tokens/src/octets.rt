//! Numbers and vectors of octets.

ghost use Rattle.std.specs.Prelude.{◌≡◌, ◌++◌, IfErr, IfOk, IfSome, OnOk, nat_eq};
ghost use Rattle.std.specs.Int.{to_be_bytes, w16, w64};
ghost use Rattle.std.specs.Io.KnownBytes.{Appends, Consumes};
ghost use Rattle.std.specs.Cmp.Lexicographic.{pointwise};
ghost use Rattle.std.specs.Option.{option_eq};
ghost use Rattle.krb_gss_tokens.specs.Octets.{octets_of};
ghost use Rattle.krb_gss_tokens.specs.PerMessageRejected.{IsEof, IsError, IsIo, IsUnwritten};

use crate::error::GssApiMessageError;
use krb_io::{ReadError, read_to_end, write_all};
use std::alloc::Global;
use std::io;
use std::io::{ErrorKind, Read, Write};

/// The error of octets that end inside a field.
pub(crate) fn cut_short() -> GssApiMessageError
    ensures { IsEof result }
{
    GssApiMessageError::IoError(io::Error::new(ErrorKind::UnexpectedEof, "a token is cut short"))
}

/// A header and the octets after it, in one vector.
pub(crate) fn joined(
    alloc: Global,
    header: &[u8; 16],
    rest: &[u8],
) -> Result<Vec<u8>, GssApiMessageError>
    ensures ok { IfOk result (λ octets. octets.items ≡ header.now ++ rest.now) }
    ensures err { IfErr result (λ e. e ≡ GssApiMessageError.OutOfMemory) }
{
    let mut octets = Vec::with_capacity(alloc, rest.len().saturating_add(header.len()))?;
    octets.extend_from_slice(header)?;
    octets.extend_from_slice(rest)?;
    Ok(octets)
}

/// Writes a header and the octets after it in one piece, which is made in memory of the vector's allocator.
pub(crate) fn write_joined<W: Write>(
    header: &[u8; 16],
    rest: &Vec<u8>,
    to: &mut W,
) -> Result<(), GssApiMessageError>
    ensures ok { OnOk result (Appends (W.contents to.old) (W.contents to.new) (header.now ++ rest.now.items)) }
    ensures err { IfErr result IsIo }
    ensures unwritten { IfErr result (IsUnwritten W.contents to.old to.new (header.now ++ rest.now.items)) }
{
    let Ok(octets) = joined(*rest.allocator(), header, rest) else {
        return Err(GssApiMessageError::IoError(io::Error::from(ErrorKind::OutOfMemory)));
    };
    write_all(to, &octets)?;
    Ok(())
}

/// The number that two octets are, the greater first.
pub(crate) fn big_u16(octets: [u8; 2]) -> u16
    ensures { to_be_bytes w16 result ≡ octets }
{
    u16::from_be_bytes(octets)
}

/// The number that eight octets are, the greatest first.
pub(crate) fn big_u64(octets: [u8; 8]) -> u64
    ensures { to_be_bytes w64 result ≡ octets }
{
    u64::from_be_bytes(octets)
}

/// The number that the next two octets are, the greater first.
pub(crate) fn read_u16<R: Read>(reader: &mut R) -> Result<u16, GssApiMessageError>
    ensures ok { IfOk result (λ n. Consumes (R.remaining reader.old) (R.remaining reader.new) (to_be_bytes w16 n)) }
    ensures err { IfErr result IsIo }
{
    let mut octets = [0; 2];
    reader.read_exact(&mut octets)?;
    Ok(big_u16(octets))
}

/// The number that the next eight octets are, the greatest first.
pub(crate) fn read_u64<R: Read>(reader: &mut R) -> Result<u64, GssApiMessageError>
    ensures ok { IfOk result (λ n. Consumes (R.remaining reader.old) (R.remaining reader.new) (to_be_bytes w64 n)) }
    ensures err { IfErr result IsIo }
{
    let mut octets = [0; 8];
    reader.read_exact(&mut octets)?;
    Ok(big_u64(octets))
}

/// The octets that are left, up to the reader's end. The vector grows only with what came.
pub(crate) fn read_rest<R: Read>(
    alloc: Global,
    reader: &mut R,
) -> Result<Vec<u8>, GssApiMessageError>
    ensures all { IfOk result (λ rest. IfSome (R.remaining reader.old) (λ left. rest.items ≡ left)) }
    ensures error { IfErr result IsError }
{
    match read_to_end(alloc, reader) {
        Ok(rest) => Ok(rest),
        Err(ReadError::Io(error)) => Err(GssApiMessageError::IoError(error)),
        Err(ReadError::OutOfMemory) => Err(GssApiMessageError::OutOfMemory),
    }
}

/// A copy of a payload, where there is one.
pub(crate) fn copy_payload(
    alloc: Global,
    payload: &Option<Vec<u8>>,
) -> Result<Option<Vec<u8>>, GssApiMessageError>
    ensures ok { IfOk result (λ copy. octets_of copy ≡ octets_of payload.now) }
    ensures err { IfErr result (λ e. e ≡ GssApiMessageError.OutOfMemory) }
{
    match payload {
        Some(octets) => Ok(Some(Vec::from_slice(alloc, octets)?)),
        None => Ok(None),
    }
}

/// Whether two payloads are equal, or both absent.
pub(crate) fn same_payload(one: &Option<Vec<u8>>, other: &Option<Vec<u8>>) -> bool
    ensures { result ≡ option_eq (pointwise nat_eq) (octets_of one.now) (octets_of other.now) }
{
    match (one, other) {
        (Some(one), Some(other)) => one.as_slice() == other.as_slice(),
        (None, None) => true,
        _ => false,
    }
}

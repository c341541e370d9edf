//! Numbers, out of a slice and into a vector, and as parts.

ghost use Rattle.std.specs.Prelude.{◌≡◌, ◌+◌, ◌≤◌, ◌<◌, length, drop, ◌++◌, IfOk, IfErr, OnOk, OnErr};
ghost use Rattle.std.specs.IoError.{error_kind};
ghost use Rattle.krb_negoex.specs.Rejected.{IsCut};
ghost use Rattle.krb_negoex.specs.Wire.{one_octet, four_octets, eight_octets, random_layout};
ghost use Rattle.byteorder.specs.Endian.{little_number, little_bytes};

use crate::fixed::Fixed;
use crate::parts::{Lay, Part};
use byteorder::{ByteOrder, LittleEndian};
use std::alloc::{AllocError, Global};
use std::io;
use std::io::ErrorKind;

/// Octets end before a fixed part does.
pub(crate) fn cut_short() -> io::Error
    ensures { error_kind result ≡ ErrorKind.UnexpectedEof }
{
    io::Error::new(ErrorKind::UnexpectedEof, "a message is cut short")
}

/// Octets that are none of the format's.
pub(crate) fn invalid_data() -> io::Error
    ensures { error_kind result ≡ ErrorKind.InvalidData }
{
    io::Error::new(ErrorKind::InvalidData, "an invalid message")
}

/// A number that does not fit its field, or a checksum's scheme that is not known.
pub(crate) fn invalid_input() -> io::Error
    ensures { error_kind result ≡ ErrorKind.InvalidInput }
{
    io::Error::new(
        ErrorKind::InvalidInput,
        "a number that does not fit its field",
    )
}

/// A length that no vector has.
pub(crate) fn out_of_memory() -> io::Error
    ensures { error_kind result ≡ ErrorKind.OutOfMemory }
{
    io::Error::from(AllocError)
}

/// Appends the four octets of a number.
pub(crate) fn put_u32(out: &mut Vec<u8>, number: u32) -> Result<(), AllocError>
    ensures ok { OnOk result (out.new.items ≡ out.old.items ++ little_bytes 4 number) }
    ensures kept { OnErr result (out.new.items ≡ out.old.items) }
{
    let mut octets = [0; 4];
    LittleEndian::write_u32(&mut octets, number);
    out.extend_from_slice(&octets)?;
    Ok(())
}

/// Appends the four octets of each of two numbers.
pub(crate) fn put_u32_pair(out: &mut Vec<u8>, first: u32, second: u32) -> Result<(), AllocError>
    ensures ok { OnOk result (out.new.items ≡ out.old.items ++ (little_bytes 4 first ++ little_bytes 4 second)) }
    ensures kept { OnErr result (out.new.items ≡ out.old.items) }
{
    let mut octets = [0; 8];
    LittleEndian::write_u32(&mut octets, first);
    LittleEndian::write_u32(&mut octets[4..], second);
    out.extend_from_slice(&octets)
}

/// Appends the eight octets of a number.
pub(crate) fn put_u64(out: &mut Vec<u8>, number: u64) -> Result<(), AllocError>
    ensures ok { OnOk result (out.new.items ≡ out.old.items ++ little_bytes 8 number) }
    ensures kept { OnErr result (out.new.items ≡ out.old.items) }
{
    let mut octets = [0; 8];
    LittleEndian::write_u64(&mut octets, number);
    out.extend_from_slice(&octets)?;
    Ok(())
}

/// The number in the first four octets, and the octets after it.
pub(crate) fn u32_prefix(octets: &[u8]) -> io::Result<(u32, &[u8])>
    ensures number { IfOk result (λ p. (4 ≤ length octets.now) × (little_number 4 octets.now ≡ p.0)) }
    ensures trailing { IfOk result (λ p. p.1.now ≡ drop 4 octets.now) }
    ensures err { IfErr result (λ e. IsCut 4 octets.now e) }
{
    if octets.len() < 4 {
        return Err(cut_short());
    }
    let (_, trailing) = octets.split_at(4);
    Ok((LittleEndian::read_u32(octets), trailing))
}

/// The number in the first eight octets, and the octets after it.
pub(crate) fn u64_prefix(octets: &[u8]) -> io::Result<(u64, &[u8])>
    ensures number { IfOk result (λ p. (8 ≤ length octets.now) × (little_number 8 octets.now ≡ p.0)) }
    ensures trailing { IfOk result (λ p. p.1.now ≡ drop 8 octets.now) }
    ensures err { IfErr result (λ e. IsCut 8 octets.now e) }
{
    if octets.len() < 8 {
        return Err(cut_short());
    }
    let (_, trailing) = octets.split_at(8);
    Ok((LittleEndian::read_u64(octets), trailing))
}

impl Lay for u8 {
    ghost layout = { one_octet };

    fn lay(
        &self,
        _alloc: Global,
        offset: usize,
        fixed_part: &mut Vec<u8>,
        _payload_part: &mut Vec<u8>,
    ) -> io::Result<usize> {
        fixed_part.push(*self)?;
        Ok(offset)
    }
}

impl Part for u8 {
    fn read_part<'a>(
        _alloc: Global,
        octets: &'a [u8],
        _message: &[u8],
    ) -> io::Result<(u8, &'a [u8])> {
        if octets.is_empty() {
            return Err(cut_short());
        }
        let (_, trailing) = octets.split_at(1);
        Ok((octets[0], trailing))
    }
}

impl Lay for u32 {
    ghost layout = { four_octets };

    fn lay(
        &self,
        _alloc: Global,
        offset: usize,
        fixed_part: &mut Vec<u8>,
        _payload_part: &mut Vec<u8>,
    ) -> io::Result<usize> {
        put_u32(fixed_part, *self)?;
        Ok(offset)
    }
}

impl Part for u32 {
    fn read_part<'a>(
        _alloc: Global,
        octets: &'a [u8],
        _message: &[u8],
    ) -> io::Result<(u32, &'a [u8])> {
        u32_prefix(octets)
    }
}

impl Lay for u64 {
    ghost layout = { eight_octets };

    fn lay(
        &self,
        _alloc: Global,
        offset: usize,
        fixed_part: &mut Vec<u8>,
        _payload_part: &mut Vec<u8>,
    ) -> io::Result<usize> {
        put_u64(fixed_part, *self)?;
        Ok(offset)
    }
}

impl Part for u64 {
    fn read_part<'a>(
        _alloc: Global,
        octets: &'a [u8],
        _message: &[u8],
    ) -> io::Result<(u64, &'a [u8])> {
        u64_prefix(octets)
    }
}

impl Lay for [u8; 32] {
    ghost layout = { random_layout };

    fn lay(
        &self,
        _alloc: Global,
        offset: usize,
        fixed_part: &mut Vec<u8>,
        _payload_part: &mut Vec<u8>,
    ) -> io::Result<usize> {
        fixed_part.extend_from_slice(self)?;
        Ok(offset)
    }
}

impl Part for [u8; 32] {
    fn read_part<'a>(
        _alloc: Global,
        octets: &'a [u8],
        message: &[u8],
    ) -> io::Result<([u8; 32], &'a [u8])> {
        <[u8; 32]>::fixed_prefix(octets, message)
    }
}

impl Fixed for [u8; 32] {
    fn fixed_prefix<'a>(octets: &'a [u8], _message: &[u8]) -> io::Result<([u8; 32], &'a [u8])> {
        if octets.len() < 32 {
            return Err(cut_short());
        }
        let mut random = [0u8; 32];
        let (prefix, trailing) = octets.split_at(32);
        random.copy_from_slice(prefix);
        Ok((random, trailing))
    }
}

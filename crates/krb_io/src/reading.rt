//! Reading.

ghost use Rattle.std.specs.Prelude.{◌≡◌, ◌≤◌, ◌<◌, length, take, IfOk, IfErr, IfSome, OnOk, OnErr};
ghost use Rattle.std.specs.Io.KnownBytes.{Consumes, IsAtEnd, Keeps};
ghost use Rattle.krb_io.specs.Transfer.{IsNotInterrupted, IsPrefixRead, IsReadOnto, IsReadRejected, IsShortRead};

use crate::error::ReadError;
use std::alloc::Global;
use std::io;
use std::io::{Error, ErrorKind, Read};

/// The most octets that one read into a vector asks for.
const MOST_AT_ONCE: usize = 512;

/// One read, tried again where a signal interrupts it: how many octets it put at the start of the buffer. That is 0 only at the
/// reader's end, or where the buffer is empty.
///
/// An error is the reader's, which has given nothing.
pub fn read_once<R: Read>(reader: &mut R, buffer: &mut [u8]) -> io::Result<usize>
    ensures within { IfOk result (λ n. n ≤ length buffer.new) }
    ensures octets { IfOk result (λ n. Consumes (R.remaining reader.old) (R.remaining reader.new) (take n buffer.new)) }
    ensures end { IfOk result (λ n. n ≡ 0 → 0 < length buffer.old → IsAtEnd (R.remaining reader.new)) }
    ensures kept { OnErr result (Keeps (R.remaining reader.old) (R.remaining reader.new)) }
    ensures lasting { IfErr result IsNotInterrupted }
{
    for _ in 0..u64::MAX {
        match reader.read(buffer) {
            Ok(n) => return Ok(n),
            Err(error) => {
                if error.kind() != ErrorKind::Interrupted {
                    return Err(error);
                }
            }
        }
    }
    Err(Error::from(ErrorKind::TimedOut))
}

/// Reads the whole buffer from the reader.
///
/// A reader that ends before is an error of the kind `UnexpectedEof`; every other error is the reader's. It has then given fewer
/// octets than the buffer has.
pub fn read_exact<R: Read>(reader: &mut R, buffer: &mut [u8]) -> io::Result<()>
    ensures octets { OnOk result (Consumes (R.remaining reader.old) (R.remaining reader.new) buffer.new) }
    ensures fewer { OnErr result (IsShortRead (length buffer.old) (R.remaining reader.old) (R.remaining reader.new)) }
    ensures lasting { IfErr result IsNotInterrupted }
{
    let mut done = 0;
    while done < buffer.len() {
        let n = read_once(reader, &mut buffer[done..])?;
        if n == 0 {
            return Err(Error::new(ErrorKind::UnexpectedEof, "failed to fill whole buffer"));
        }
        done += n;
    }
    Ok(())
}

/// Appends the octets of one read, at most `wanted` of them, and returns how many these are: 0 only at the reader's end.
fn read_some<R: Read>(reader: &mut R, wanted: usize, out: &mut Vec<u8>) -> Result<usize, ReadError>
    ensures octets { IfOk result (λ n. IsReadOnto n out.old.items out.new.items (R.remaining reader.old) (R.remaining reader.new)) }
    ensures within { IfOk result (λ n. n ≤ wanted) }
    ensures end { IfOk result (λ n. n ≡ 0 → 0 < wanted → IsAtEnd (R.remaining reader.new)) }
    ensures rejected { 0 < wanted → IfErr result (IsReadRejected wanted (R.remaining reader.old) (R.remaining reader.new)) }
{
    let mut octets = [0u8; MOST_AT_ONCE];
    let buffer = &mut octets[..wanted.min(MOST_AT_ONCE)];
    let n = read_once(reader, buffer)?;
    out.extend_from_slice(&buffer[..n])?;
    Ok(n)
}

/// Appends the reader's next octets to a vector, `count` of them or all up to its end, and returns how many these are. The vector
/// grows only with the octets that came.
///
/// `OutOfMemory` where the vector cannot grow; every other error is the reader's, which has then given fewer than `count` octets.
fn read_onto<R: Read>(reader: &mut R, count: usize, out: &mut Vec<u8>) -> Result<usize, ReadError>
    ensures octets { IfOk result (λ n. IsReadOnto n out.old.items out.new.items (R.remaining reader.old) (R.remaining reader.new)) }
    ensures within { IfOk result (λ n. n ≤ count) }
    ensures end { IfOk result (λ n. n < count → IsAtEnd (R.remaining reader.new)) }
    ensures rejected { IfErr result (IsReadRejected count (R.remaining reader.old) (R.remaining reader.new)) }
{
    let mut done = 0;
    while done < count {
        let n = read_some(reader, count - done, out)?;
        if n == 0 {
            return Ok(done);
        }
        done += n;
    }
    Ok(done)
}

/// The reader's next `count` octets, or all up to its end. Memory grows only with the octets that came.
///
/// `OutOfMemory` where it cannot grow; every other error is the reader's, which has then given fewer than `count` octets.
pub fn read_up_to<R: Read>(
    alloc: Global,
    reader: &mut R,
    count: usize,
) -> Result<Vec<u8>, ReadError>
    ensures octets { IfOk result (λ v. IsPrefixRead count v.items (R.remaining reader.old) (R.remaining reader.new)) }
    ensures within { IfOk result (λ v. length v.items ≤ count) }
    ensures rejected { IfErr result (IsReadRejected count (R.remaining reader.old) (R.remaining reader.new)) }
{
    let mut octets = Vec::new(alloc);
    read_onto(reader, count, &mut octets)?;
    Ok(octets)
}

/// The reader's octets up to its end. Memory grows only with the octets that came.
///
/// `OutOfMemory` where it cannot grow; every other error is the reader's.
pub fn read_to_end<R: Read>(alloc: Global, reader: &mut R) -> Result<Vec<u8>, ReadError>
    ensures octets { IfOk result (λ v. IfSome (R.remaining reader.old) (λ all. v.items ≡ all)) }
    ensures rejected { IfErr result (IsReadRejected usize.MAX (R.remaining reader.old) (R.remaining reader.new)) }
{
    read_up_to(alloc, reader, usize::MAX)
}

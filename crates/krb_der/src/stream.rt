//! Readers and writers.

ghost use Rattle.std.specs.Prelude.{◌≡◌, ◌≤◌, ◌<◌, IfOk, IfErr, OnOk, ◌-◌, ◌^◌, length, take};
ghost use Rattle.std.specs.Io.KnownBytes.{Consumes, Appends, IsAtEnd};
ghost use Rattle.krb_der_core.specs.Tlv.{len};
ghost use Rattle.krb_der_core.specs.Reading.{Lengths, Encodings};
ghost use Rattle.krb_der_core.specs.Errors.{PrefixError, LengthError};
ghost use Rattle.krb_der_core.specs.declared.error.Asn1DerError.TheVariants.{OutOfMemory};
ghost use Rattle.krb_der.specs.Streaming.{Gathers, IsError, IsShort, ReaderError, ReadsPrefix, RejectsReader, ReportsEarlyEnd};

use crate::whole::to_vec;
use krb_der_core::{Asn1DerError, Der, DerEncode, read_length};
use krb_io::read_once;
use std::alloc::Global;
use std::io::{Read, Write};

/// The most octets that are asked of a reader at once.
const MOST_AT_ONCE: usize = 512;

/// Appends the octets of one read, at most `wanted`, and returns how many: none only where the reader is at its end.
fn gather_some<R: Read>(
    reader: &mut R,
    wanted: usize,
    out: &mut Vec<u8>,
) -> Result<usize, Asn1DerError>
    ensures ok { IfOk result (λ n. Gathers n out.old.items out.new.items (R.remaining reader.old) (R.remaining reader.new)) }
    ensures within { IfOk result (λ n. n ≤ wanted) }
    ensures end { IfOk result (λ n. n ≡ 0 → 0 < wanted → IsAtEnd (R.remaining reader.new)) }
    ensures err { IfErr result IsError }
{
    let mut octets = [0u8; MOST_AT_ONCE];
    let buffer = &mut octets[..wanted.min(MOST_AT_ONCE)];
    let n = match read_once(reader, buffer) {
        Ok(n) => n,
        Err(error) => return Err(Asn1DerError::Io(error)),
    };
    out.extend_from_slice(&buffer[..n])?;
    Ok(n)
}

/// Takes so many octets from the reader. The vector grows only with what came.
fn gather<R: Read>(reader: &mut R, count: usize, out: &mut Vec<u8>) -> Result<(), Asn1DerError>
    ensures ok { OnOk result (Gathers count out.old.items out.new.items (R.remaining reader.old) (R.remaining reader.new)) }
    ensures err { IfErr result (IsShort count (R.remaining reader.old)) }
{
    let mut done = 0;
    while done < count {
        let n = gather_some(reader, count - done, out)?;
        if n == 0 {
            return Err(Asn1DerError::TruncatedData);
        }
        done += n;
    }
    Ok(())
}

/// How many octets of a length follow its first, where that begins one.
fn count_trailing(first: u8) -> usize
    ensures short { first < 128 → result ≡ 0 }
    ensures long { 128 ≤ first → first ≤ 136 → result ≡ first - 128 }
    ensures other { 136 < first → result ≡ 0 }
{
    if first < 128 || first > 136 {
        return 0;
    }
    (first - 128) as usize
}

/// Takes the octets of a length from the reader.
fn gather_length<R: Read>(alloc: Global, reader: &mut R) -> Result<usize, Asn1DerError>
    ensures ok { IfOk result (λ n. Consumes (R.remaining reader.old) (R.remaining reader.new) (len n)) }
    ensures err { IfErr result (RejectsReader Lengths (R.remaining reader.old)) }
    ensures fits { IfOk result (λ n. n < 2 ^ 64) }
    ensures first_error { IfErr result (ReaderError LengthError (R.remaining reader.old)) }
{
    let mut octets = Vec::new(alloc);
    gather(reader, 1, &mut octets)?;
    let first = octets[0];
    let trailing = count_trailing(first);
    gather(reader, trailing, &mut octets)?;
    let (length, _) = read_length(&octets)?;
    Ok(length)
}

/// The value whose encoding the reader's next octets are. They are read, and no octet after them.
fn read_prefix<T: Der, R: Read>(alloc: Global, reader: &mut R) -> Result<T, Asn1DerError>
    ensures valid { IfOk result T.is_value }
    ensures found { IfOk result (λ v. Consumes (R.remaining reader.old) (R.remaining reader.new) (T.enc v)) }
    ensures rejected { IfErr result (RejectsReader (Encodings T.is_value T.enc) (R.remaining reader.old)) }
    ensures first_error { IfErr result (ReaderError (PrefixError T.first T.error) (R.remaining reader.old)) }
{
    let mut first = Vec::new(alloc);
    gather(reader, 1, &mut first)?;
    let tag = first[0];
    if !T::starts(tag) {
        return Err(Asn1DerError::InvalidData);
    }
    let length = gather_length(alloc, reader)?;
    let mut content = Vec::new(alloc);
    gather(reader, length, &mut content)?;
    T::read_element(alloc, tag, &content)
}

/// The value whose encoding the reader's next octets are. Exactly these are read: what follows them is left
/// unread.
///
/// Where the reader ends inside an encoding, and where it is at its end, the error is `TruncatedData`. On other octets
/// it is the first one, from the left, as in `from_bytes`. An I/O error of the reader is `Io`; a read that a signal
/// interrupts is tried again. Memory grows only with the octets that came, whatever length they claim.
/// After an error some octets may have been read: give up the reader.
pub fn from_reader<T: Der, R: Read>(alloc: Global, reader: &mut R) -> Result<T, Asn1DerError>
    ensures valid { IfOk result T.is_value }
    ensures found { IfOk result (λ v. Consumes (R.remaining reader.old) (R.remaining reader.new) (T.enc v)) }
    ensures rejected { IfErr result (RejectsReader (Encodings T.is_value T.enc) (R.remaining reader.old)) }
    ensures reads { ReadsPrefix T.is_value T.enc (R.remaining reader.old) result }
    ensures cut { ReportsEarlyEnd T.is_value T.enc (R.remaining reader.old) result }
    ensures first_error { IfErr result (ReaderError (PrefixError T.first T.error) (R.remaining reader.old)) }
{
    read_prefix(alloc, reader)
}

/// Writes the encoding of a value, and returns how many octets it has.
///
/// The encoding is made first: on `OutOfMemory` nothing was written. Every I/O error of the writer is `Io`, and some octets may
/// have been written then.
pub fn to_writer<T: DerEncode, W: Write>(
    alloc: Global,
    value: &T,
    writer: &mut W,
) -> Result<usize, Asn1DerError>
    ensures count { IfOk result (λ n. n ≡ length (T.enc value.now)) }
    ensures octets { OnOk result (Appends (W.contents writer.old) (W.contents writer.new) (T.enc value.now)) }
    ensures valid { OnOk result (T.is_value value.now) }
    ensures err { IfErr result IsError }
    ensures kept { IfErr result (λ e. e ≡ OutOfMemory → writer.new ≡ writer.old) }
{
    let octets = to_vec(alloc, value)?;
    if let Err(e) = writer.write_all(&octets) {
        return Err(Asn1DerError::Io(e));
    }
    Ok(octets.len())
}

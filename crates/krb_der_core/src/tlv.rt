//! Tags, lengths and contents.

ghost use Rattle.std.specs.Prelude.{◌≡◌, ◌⊎◌, ℕ, ◌^◌, ◌+◌, ◌-◌, ◌<◌, ◌≤◌, [], ◌∷◌, ◌++◌, length, take, drop, slice_index, IfOk, IfErr, OnOk, OnErr};
ghost use Rattle.std.specs.Int.Digits.{digits_of, number_from_digits};
ghost use Rattle.krb_der_core.specs.Tlv.{len, header, tlv};
ghost use Rattle.krb_der_core.specs.Reading.{TakesPrefix, RejectsPrefix, Lengths, Elements};
ghost use Rattle.krb_der_core.specs.Errors.{LengthError, HeaderError};
ghost use Rattle.krb_der_core.specs.declared.error.Asn1DerError.TheVariants as errors;

use crate::error::Asn1DerError;
use std::alloc::AllocError;

/// The number that the octets represent in base 256, highest octet first; none represent 0.
pub fn number_of(octets: &[u8]) -> usize
    requires { length octets.now ≤ 8 }
    ensures { result ≡ number_from_digits 256 octets.now }
{
    let mut n = 0usize;
    for octet in octets {
        n = n * 256 + *octet as usize;
    }
    n
}

/// The length at the start, and the number of its octets.
pub fn read_length(input: &[u8]) -> Result<(usize, usize), Asn1DerError>
    ensures found { IfOk result (λ p. TakesPrefix (len p.0) p.1 input.now) }
    ensures fits { IfOk result (λ p. p.0 < 2 ^ 64) }
    ensures rejected { IfErr result (RejectsPrefix Lengths input.now) }
    ensures missing { IfErr result (λ e. e ≡ errors.TruncatedData → length input.now ≤ slice_index input.now 0 - 128) }
    ensures unsupported { IfErr result (λ e. e ≡ errors.UnsupportedValue → (slice_index input.now 0 ≡ 128) ⊎ (136 < slice_index input.now 0)) }
    ensures heapless { IfErr result (λ e. e ≡ errors.OutOfMemory → ⊥) }
    ensures first_error { IfErr result (LengthError input.now) }
{
    if input.is_empty() {
        return Err(Asn1DerError::TruncatedData);
    }
    let first = input[0];
    if first < 128 {
        return Ok((first as usize, 1));
    }
    if first == 128 || first > 136 {
        return Err(Asn1DerError::UnsupportedValue);
    }
    let count = (first - 128) as usize;
    if input.len() - 1 < count {
        return Err(Asn1DerError::TruncatedData);
    }
    let octets = &input[1..1 + count];
    if octets[0] == 0 {
        return Err(Asn1DerError::InvalidData);
    }
    let n = number_of(octets);
    if n < 128 {
        return Err(Asn1DerError::InvalidData);
    }
    Ok((n, 1 + count))
}

/// The content of the element with this tag at the start, and the number of the element's octets.
pub fn read_tlv(tag: u8, input: &[u8]) -> Result<(&[u8], usize), Asn1DerError>
    ensures found { IfOk result (λ p. TakesPrefix (tlv tag p.0.now) p.1 input.now) }
    ensures rejected { IfErr result (RejectsPrefix (Elements tag) input.now) }
    ensures heapless { IfErr result (λ e. e ≡ errors.OutOfMemory → ⊥) }
    ensures first_error { IfErr result (HeaderError tag input.now) }
{
    if input.is_empty() {
        return Err(Asn1DerError::TruncatedData);
    }
    if input[0] != tag {
        return Err(Asn1DerError::InvalidData);
    }
    let trailing = &input[1..];
    let (length, taken) = read_length(trailing)?;
    let rest = &trailing[taken..];
    if rest.len() < length {
        return Err(Asn1DerError::TruncatedData);
    }
    Ok((&rest[..length], 1 + taken + length))
}

/// How many octets the number has in base 256.
fn count_digits(n: usize) -> usize
    ensures count { result ≡ length (digits_of 256 n) }
    ensures few { result ≤ 8 }
{
    if n == 0 {
        return 0;
    }
    count_digits(n / 256) + 1
}

/// Appends the number in base 256. Where an allocation fails, some of its octets may have been appended.
pub(crate) fn push_digits(n: usize, out: &mut Vec<u8>) -> Result<(), AllocError>
    ensures ok { OnOk result (out.new.items ≡ out.old.items ++ digits_of 256 n) }
    ensures err { OnErr result (take (length out.old.items) out.new.items ≡ out.old.items) }
{
    if n == 0 {
        return Ok(());
    }
    push_digits(n / 256, out)?;
    out.push((n % 256) as u8)?;
    Ok(())
}

/// The header of an element whose content has n octets, at the start of the array, and the number of its octets.
fn header_octets(tag: u8, n: usize) -> ([u8; 10], usize)
    ensures octets { take result.1 result.0 ≡ header tag n }
    ensures count { result.1 ≤ 10 }
    ensures two { 2 ≤ result.1 }
{
    if n < 128 {
        return ([tag, n as u8, 0, 0, 0, 0, 0, 0, 0, 0], 2);
    }
    let count = count_digits(n);
    let digits = n.to_be_bytes();
    let mut octets = [tag, 128 + count as u8, 0, 0, 0, 0, 0, 0, 0, 0];
    octets[2..2 + count].copy_from_slice(&digits[8 - count..]);
    (octets, 2 + count)
}

/// Appends the header of an element whose content has n octets.
fn append_header(tag: u8, n: usize, out: &mut Vec<u8>) -> Result<(), AllocError>
    ensures ok { OnOk result (out.new.items ≡ out.old.items ++ header tag n) }
    ensures err { OnErr result (out.new.items ≡ out.old.items) }
{
    if n < 128 {
        return out.extend_from_slice(&[tag, n as u8]);
    }
    let (octets, count) = header_octets(tag, n);
    out.extend_from_slice(&octets[..count])
}

/// Appends an element.
pub fn write_tlv(tag: u8, content: &[u8], out: &mut Vec<u8>) -> Result<(), AllocError>
    ensures ok { OnOk result (out.new.items ≡ out.old.items ++ tlv tag content.now) }
    ensures err { OnErr result (out.new.items ≡ out.old.items) }
{
    let start = out.len();
    append_header(tag, content.len(), out)?;
    if let Err(e) = out.extend_from_slice(content) {
        out.truncate(start);
        return Err(e);
    }
    Ok(())
}

/// Appends room for the header of an element whose content is to follow, and returns where it begins. `end_tlv` puts the header
/// there.
pub fn begin_tlv(out: &mut Vec<u8>) -> Result<usize, AllocError>
    ensures start { IfOk result (λ start. start ≡ length out.old.items) }
    ensures ok { OnOk result (out.new.items ≡ out.old.items ++ 0 ∷ 0 ∷ []) }
    ensures err { OnErr result (out.new.items ≡ out.old.items) }
{
    let start = out.len();
    out.extend_from_slice(&[0, 0])?;
    Ok(start)
}

/// Makes the octets after the room for a header, which begins at `start`, the content of an element. Where an allocation fails,
/// the room and they are removed.
pub fn end_tlv(tag: u8, start: usize, out: &mut Vec<u8>) -> Result<(), AllocError>
    requires { start + 2 ≤ length out.old.items }
    ensures ok { OnOk result (out.new.items ≡ take start out.old.items ++ tlv tag (drop (start + 2) out.old.items)) }
    ensures err { OnErr result (out.new.items ≡ take start out.old.items) }
{
    let size = out.len() - start - 2;
    if size < 128 {
        out[start..start + 2].copy_from_slice(&[tag, size as u8]);
        return Ok(());
    }
    put_header(tag, start, start + 2, out)
}

/// Makes the octets from `start` on the content of an element, and inserts its header before them. Where an allocation fails,
/// they are removed.
pub fn close_tlv(tag: u8, start: usize, out: &mut Vec<u8>) -> Result<(), AllocError>
    requires { start ≤ length out.old.items }
    ensures ok { OnOk result (out.new.items ≡ take start out.old.items ++ tlv tag (drop start out.old.items)) }
    ensures err { OnErr result (out.new.items ≡ take start out.old.items) }
{
    put_header(tag, start, start, out)
}

/// Makes the octets from `from` on the content of an element that begins at `start`, over at most two octets between them.
/// Out of line, so that `end_tlv` stays short where the content is.
#[inline(never)]
fn put_header(tag: u8, start: usize, from: usize, out: &mut Vec<u8>) -> Result<(), AllocError>
    requires order { start ≤ from }
    requires room { from ≤ start + 2 }
    requires inside { from ≤ length out.old.items }
    ensures ok { OnOk result (out.new.items ≡ take start out.old.items ++ tlv tag (drop from out.old.items)) }
    ensures err { OnErr result (out.new.items ≡ take start out.old.items) }
{
    let (octets, count) = header_octets(tag, out.len() - from);
    if let Err(e) = make_room(from, start + count - from, out) {
        out.truncate(start);
        return Err(e);
    }
    out[start..start + count].copy_from_slice(&octets[..count]);
    Ok(())
}

/// Moves the octets from a place on up by so many places. Those before it stay, also where an allocation fails.
fn make_room(place: usize, count: usize, out: &mut Vec<u8>) -> Result<(), AllocError>
    requires { place ≤ length out.old.items }
    ensures before { take place out.new.items ≡ take place out.old.items }
    ensures after { OnOk result (drop (place + count) out.new.items ≡ drop place out.old.items) }
    ensures size { OnOk result (length out.new.items ≡ length out.old.items + count) }
{
    for moved in 0..count {
        out.insert(place, 0)?;
    }
    Ok(())
}

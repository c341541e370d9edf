//! Whole inputs and outputs.

ghost use Rattle.std.specs.Prelude.{◌≡◌, ◌++◌, Err, IfOk, IfErr, OnOk, OnErr};
ghost use Rattle.krb_der_core.specs.Tlv.{tlv};
ghost use Rattle.krb_der_core.specs.Reading.{RejectsAll};
ghost use Rattle.krb_der_core.specs.Errors.{OrMemory, TaggedError, ValueError};
ghost use Rattle.krb_der.specs.Whole.{Answers, ReadsValue, ReportsCut, RejectsMore, NoDevice};
ghost use Rattle.krb_der_core.specs.declared.error.Asn1DerError.TheVariants.{InvalidData, OutOfMemory};

use krb_der_core::{Asn1DerError, Der, DerEncode, begin_tlv, end_tlv};
use std::alloc::{AllocError, Global};

/// The value whose encoding is the whole input.
///
/// A proper prefix of an encoding is `TruncatedData`, an encoding with trailing octets `InvalidData`; on other octets
/// the first error decides, from the left. `Io` is never returned.
pub fn from_bytes<T: Der + Drop>(alloc: Global, input: &[u8]) -> Result<T, Asn1DerError>
    ensures valid { IfOk result T.is_value }
    ensures found { IfOk result (λ v. input.now ≡ T.enc v) }
    ensures reads { ReadsValue T.is_value T.enc input.now result }
    ensures cut { ReportsCut T.is_value T.enc input.now result }
    ensures more { RejectsMore T.is_value T.enc input.now result }
    ensures no_device { IfErr result NoDevice }
    ensures first_error { IfErr result (OrMemory (ValueError T.is_value T.enc T.first T.error input.now)) }
{
    let (value, taken) = T::read(alloc, input)?;
    if taken != input.len() {
        return Err(Asn1DerError::InvalidData);
    }
    Ok(value)
}

/// The initial capacity for an encoding, in octets: most messages of an exchange need no more.
const ROOM: usize = 256;

/// The encoding of a value. The only error is `OutOfMemory`.
pub fn to_vec<T: DerEncode>(alloc: Global, value: &T) -> Result<Vec<u8>, Asn1DerError>
    ensures ok { IfOk result (λ v. v.items ≡ T.enc value.now) }
    ensures valid { OnOk result (T.is_value value.now) }
    ensures err { IfErr result (λ e. e ≡ OutOfMemory) }
{
    let mut out = Vec::with_capacity(alloc, ROOM)?;
    value.write(alloc, &mut out)?;
    Ok(out)
}

/// An equal value, read from the encoding of this one. The only error is `OutOfMemory`.
pub fn copy<T: Der + Drop>(alloc: Global, value: &T) -> Result<T, Asn1DerError>
    ensures { Answers result value.now }
{
    let octets = to_vec(alloc, value)?;
    from_bytes(alloc, &octets)
}

/// The encoding of a value, as of `to_vec`, for callers whose only error is that of memory.
pub fn encoding<T: DerEncode>(alloc: Global, value: &T) -> Result<Vec<u8>, AllocError>
    ensures octets { IfOk result (λ v. v.items ≡ T.enc value.now) }
    ensures valid { OnOk result (T.is_value value.now) }
{
    match to_vec(alloc, value) {
        Ok(octets) => Ok(octets),
        Err(_error) => Err(AllocError),
    }
}

/// An equal value, as of `copy`, for callers whose only error is that of memory.
pub fn copied<T: Der + Drop>(alloc: Global, value: &T) -> Result<T, AllocError>
    ensures { IfOk result (λ same. same ≡ value.now) }
{
    match copy(alloc, value) {
        Ok(same) => Ok(same),
        Err(_error) => Err(AllocError),
    }
}

/// Appends the element of this tag around a value's encoding.
pub(crate) fn write_around<T: DerEncode>(
    alloc: Global,
    tag: u8,
    value: &T,
    out: &mut Vec<u8>,
) -> Result<(), AllocError>
    ensures ok { OnOk result (out.new.items ≡ out.old.items ++ tlv tag (T.enc value.now)) }
    ensures valid { OnOk result (T.is_value value.now) }
    ensures err { OnErr result (out.new.items ≡ out.old.items) }
{
    let start = begin_tlv(out)?;
    if let Err(error) = value.write(alloc, out) {
        out.truncate(start);
        return Err(error);
    }
    end_tlv(tag, start, out)
}

/// The value whose encoding is the content of an element with the expected tag.
///
/// `InvalidData` for another tag, else as `from_bytes` on the content.
pub(crate) fn read_around<T: Der + Drop>(
    alloc: Global,
    wanted: u8,
    tag: u8,
    content: &[u8],
) -> Result<T, Asn1DerError>
    ensures valid { IfOk result T.is_value }
    ensures found { IfOk result (λ v. tlv tag content.now ≡ tlv wanted (T.enc v)) }
    ensures rejected { IfErr result (RejectsAll T.is_value (λ v. tlv wanted (T.enc v)) (tlv tag content.now)) }
    ensures other_tag { (tag ≡ wanted → ⊥) → result ≡ Err InvalidData }
    ensures first_error { IfErr result (OrMemory (TaggedError wanted (ValueError T.is_value T.enc T.first T.error) tag content.now)) }
{
    if tag != wanted {
        return Err(Asn1DerError::InvalidData);
    }
    from_bytes(alloc, content)
}

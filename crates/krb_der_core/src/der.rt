//! Types whose values have one encoding each.

ghost use Rattle.std.specs.Prelude.{◌≡◌, ◌<◌, ℕ, Bool, false, List, ◌++◌, length, slice_index, IfOk, IfErr, IsErrAnd, OnOk, OnErr};
ghost use Rattle.krb_der_core.specs.Tlv.{tlv};
ghost use Rattle.krb_der_core.specs.Encoding.{IsElement, IsSequence, OneValue};
ghost use Rattle.krb_der_core.specs.Reading.{TakesPrefix, RejectsPrefix, RejectsAll, Encodings};
ghost use Rattle.krb_der_core.specs.Errors.{ErrorLaws, PrefixError, OrMemory};
ghost use Rattle.krb_der_core.specs.declared.error.Asn1DerError.{Asn1DerError};
ghost use Rattle.krb_der_core.specs.declared.error.Asn1DerError.TheVariants.{InvalidData};

use crate::error::Asn1DerError;
use crate::tlv::read_tlv;
use std::alloc::{AllocError, Global};

/// A type each of whose values has one encoding by the Distinguished Encoding Rules (X.690, 10).
pub trait DerEncode {
    /// The encoding of a value.
    ghost enc: { Self → List ℕ };

    /// Whether this is a value of the type: numbers are in range, and invariants hold.
    ghost is_value: { Self → Type 0 };

    /// Whether an encoding may begin with this octet.
    ghost first: { ℕ → Bool };

    /// Each encoding is one element.
    ghost is_element: { (v : Self) → is_value v → IsElement first (enc v) };

    /// Equal encodings belong to equal values.
    ghost one_value: { OneValue is_value enc };

    /// The first error of an element with this tag and content: that of the tag, then that of the content, from the left.
    ghost error: { ℕ → List ℕ → Asn1DerError → Type 0 };

    /// An element with an error is the encoding of no value, and has no other first error.
    ghost error_laws: { ErrorLaws is_value enc error };

    /// Whether a value's encoding may begin with this octet.
    fn starts(octet: u8) -> bool
        ensures { result ≡ first octet };

    /// Appends the encoding to `out`, which is unchanged where an allocation fails.
    fn write(&self, alloc: Global, out: &mut Vec<u8>) -> Result<(), AllocError>
        ensures ok { OnOk result (out.new.items ≡ out.old.items ++ enc self.now) }
        ensures valid { OnOk result (is_value self.now) }
        ensures err { OnErr result (out.new.items ≡ out.old.items) };
}

/// A type whose values are read from their encodings.
pub trait Der: DerEncode {
    /// The value whose encoding is the element with this tag and content.
    ///
    /// `InvalidData` for another tag, else the first error of the content.
    fn read_element(alloc: Global, tag: u8, content: &[u8]) -> Result<Self, Asn1DerError>
        ensures valid { IfOk result Self.is_value }
        ensures found { IfOk result (λ v. tlv tag content.now ≡ Self.enc v) }
        ensures rejected { IfErr result (RejectsAll Self.is_value Self.enc (tlv tag content.now)) }
        ensures wrong_tag { Self.first tag ≡ false → IsErrAnd result (λ e. e ≡ InvalidData) }
        ensures first_error { IfErr result (OrMemory (Self.error tag content.now)) };

    /// The value whose encoding is at the start of the input, and the number of its octets.
    ///
    /// A proper prefix of an encoding is `TruncatedData`. On other octets the first error is returned: that of the tag
    /// (none is `TruncatedData`, another `InvalidData`), then that of the length, then that of the content.
    final fn read(alloc: Global, input: &[u8]) -> Result<(Self, usize), Asn1DerError>
        ensures valid { IfOk result (λ p. Self.is_value p.0) }
        ensures found { IfOk result (λ p. TakesPrefix (Self.enc p.0) p.1 input.now) }
        ensures rejected { IfErr result (RejectsPrefix (Encodings Self.is_value Self.enc) input.now) }
        ensures wrong_tag { 0 < length input.now → Self.first (slice_index input.now 0) ≡ false → IsErrAnd result (λ e. e ≡ InvalidData) }
        ensures first_error { IfErr result (OrMemory (PrefixError Self.first Self.error input.now)) }
    {
        if input.is_empty() {
            return Err(Asn1DerError::TruncatedData);
        }
        let tag = input[0];
        if !Self::starts(tag) {
            return Err(Asn1DerError::InvalidData);
        }
        let (content, taken) = read_tlv(tag, input)?;
        let value = Self::read_element(alloc, tag, content)?;
        Ok((value, taken))
    }
}

/// A type whose encodings are SEQUENCEs: their first octet is `30` (X.690, 8.9).
///
/// `ApplicationTag` requires it.
pub trait DerSequence: DerEncode {
    /// The encoding of a value is a SEQUENCE of some content.
    ghost is_sequence: { (v : Self) → IsSequence (Self.enc v) };
}

//! The contents of primitive types.

ghost use Rattle.std.specs.Prelude.{◌≡◌, ◌⊎◌, List, ℕ, IfOk, IfErr, IsErrAnd};
ghost use Rattle.krb_der_core.specs.Tlv.{tlv};
ghost use Rattle.krb_der_core.specs.Encoding.{OneValue};
ghost use Rattle.krb_der_core.specs.Reading.{RejectsAll};
ghost use Rattle.krb_der_core.specs.Errors.{PrimitiveError, OrMemory};
ghost use Rattle.krb_der_core.specs.declared.error.Asn1DerError.TheVariants as errors;

use crate::error::Asn1DerError;
use std::alloc::Global;

/// A primitive type, which is read from the content of its element alone.
pub(crate) trait Content {
    /// The content of a value's element (X.690, 8.1.4).
    ghost octets: { Self → List ℕ };

    /// Whether this is a value of the type.
    ghost has_content: { Self → Type 0 };

    /// Equal contents belong to equal values.
    ghost one_content: { OneValue has_content octets };

    /// The value that has this content.
    fn read_content(alloc: Global, content: &[u8]) -> Result<Self, Asn1DerError>
        ensures valid { IfOk result has_content }
        ensures found { IfOk result (λ v. content.now ≡ octets v) }
        ensures rejected { IfErr result (RejectsAll has_content octets content.now) }
        ensures error { IfErr result (λ e. (e ≡ errors.InvalidData) ⊎ (e ≡ errors.OutOfMemory)) };
}

/// The value whose element has this tag and content. Another tag than the expected one is `InvalidData`.
pub(crate) fn read_tagged<C: Content>(
    alloc: Global,
    wanted: u8,
    tag: u8,
    content: &[u8],
) -> Result<C, Asn1DerError>
    ensures valid { IfOk result C.has_content }
    ensures found { IfOk result (λ v. tlv tag content.now ≡ tlv wanted (C.octets v)) }
    ensures rejected { IfErr result (RejectsAll C.has_content (λ v. tlv wanted (C.octets v)) (tlv tag content.now)) }
    ensures error { IfErr result (λ e. (e ≡ errors.InvalidData) ⊎ (e ≡ errors.OutOfMemory)) }
    ensures wrong_tag { (tag ≡ wanted → ⊥) → IsErrAnd result (λ e. e ≡ errors.InvalidData) }
    ensures first_error { IfErr result (OrMemory (PrimitiveError wanted C.has_content C.octets tag content.now)) }
{
    if tag != wanted {
        return Err(Asn1DerError::InvalidData);
    }
    C::read_content(alloc, content)
}

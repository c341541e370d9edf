//! SEQUENCE.

ghost use Rattle.std.specs.Prelude.{◌≡◌, ℕ, Bool, List, ◌++◌, drop, Err, IfOk, IfErr, OnOk, OnErr};
ghost use Rattle.krb_der_core.specs.Tlv.{tlv};
ghost use Rattle.krb_der_core.specs.declared.error.Asn1DerError.{Asn1DerError};
ghost use Rattle.krb_der_core.specs.declared.error.Asn1DerError.TheVariants.{InvalidData};
ghost use Rattle.krb_der_core.specs.Reading.{TakesPrefix, RejectsAll};
ghost use Rattle.krb_der_core.specs.Errors.{PrefixLaws, OrMemory, TaggedError, WholeError};
ghost use Rattle.krb_der.specs.Composite.{nothing};
ghost use Rattle.krb_der.specs.Grouping.{BeginSo, OneReading, ReadsFields, DistinguishedEnds};
ghost use Rattle.krb_der.specs.Whole.{NoDevice};

use krb_der_core::{Asn1DerError, begin_tlv, end_tlv};
use std::alloc::{AllocError, Global};

/// The tag of a SEQUENCE: universal 16, constructed (X.690, 8.9).
pub const SEQUENCE: u8 = 0x30;

/// Fields of a sequence (X.690, 8.9) in order, for reading: an explicit tag, an `Optional`, or a tuple of two to six of
/// these or of such tuples.
pub trait Fields {
    /// The encodings of the fields, concatenated. An absent field adds nothing.
    ghost octets: { Self → List ℕ };

    /// Each field is a value of its type.
    ghost are_values: { Self → Type 0 };

    /// Whether the fields may begin with an octet, or what follows them where they are absent, given the octets it begins with.
    ghost begins: { (ℕ → Bool) → ℕ → Bool };

    /// The first octet of each optional field distinguishes it from what follows, given the octets that what follows begins with.
    ghost distinguished: { (ℕ → Bool) → Type 0 };

    /// Fields with octets after them begin as `begins` says.
    ghost begin_so: { BeginSo are_values octets begins };

    /// Where the fields are distinguished from what follows, the octets determine the fields and what follows.
    ghost one_reading: { OneReading distinguished are_values octets };

    /// The fields end where these octets begin: no absent field at the end begins as they do.
    ghost ends: { Self → List ℕ → Type 0 };

    /// The first error of the fields at the start of these octets, from the left.
    ghost error: { List ℕ → Asn1DerError → Type 0 };

    /// Octets with an error do not begin with fields, and have no other first error.
    ghost error_laws: { PrefixLaws are_values octets ends error };

    /// Fields that are distinguished from what follows end where that begins.
    ghost distinguished_ends: { DistinguishedEnds distinguished are_values ends };

    /// The fields at the start of the input, and the number of their octets. What follows is not read.
    fn read_fields(alloc: Global, input: &[u8]) -> Result<(Self, usize), Asn1DerError>
        ensures valid { IfOk result (λ p. are_values p.0) }
        ensures found { IfOk result (λ p. TakesPrefix (octets p.0) p.1 input.now) }
        ensures reads { ReadsFields distinguished are_values octets input.now result }
        ensures no_device { IfErr result NoDevice }
        ensures ends { IfOk result (λ p. ends p.0 (drop p.1 input.now)) }
        ensures first_error { IfErr result (OrMemory (error input.now)) };
}

/// References to the fields of a sequence (X.690, 8.9) in order, for writing: `field_refs!` makes them.
pub trait FieldRefs {
    /// The encodings of the fields, concatenated. An absent field adds nothing.
    ghost octets: { Self → List ℕ };

    /// Each field is a value of its type.
    ghost are_values: { Self → Type 0 };

    /// Appends the fields to `out`, which is unchanged where an allocation fails.
    fn write_refs(&self, alloc: Global, out: &mut Vec<u8>) -> Result<(), AllocError>
        ensures ok { OnOk result (out.new.items ≡ out.old.items ++ octets self.now) }
        ensures valid { OnOk result (are_values self.now) }
        ensures err { OnErr result (out.new.items ≡ out.old.items) };
}

/// A struct that is a SEQUENCE of its fields (X.690, 8.9).
pub trait Sequence {
    /// The types of the fields, in order: a tuple of up to six, or of groups.
    type Fields: Fields + Drop;

    /// The fields of a struct.
    ghost fields: { Self → Self.Fields };

    /// The struct with these fields.
    ghost with_fields: { Self.Fields → Self };

    /// The struct with these fields.
    fn from_fields(parts: Self::Fields) -> Self
        ensures { fields result ≡ parts };
}

/// The struct of the sequence that has this tag and content.
///
/// `InvalidData` where the tag is not `30`, then the first error of the fields, in order, and `InvalidData` where octets
/// are left over.
pub fn read_sequence<S: Sequence>(alloc: Global, tag: u8, content: &[u8]) -> Result<S, Asn1DerError>
    requires { S.Fields.distinguished nothing }
    ensures valid { IfOk result (λ v. S.Fields.are_values (S.fields v)) }
    ensures found { IfOk result (λ v. tlv tag content.now ≡ tlv 48 (S.Fields.octets (S.fields v))) }
    ensures rejected { IfErr result (RejectsAll (λ v. S.Fields.are_values (S.fields v)) (λ v. tlv 48 (S.Fields.octets (S.fields v))) (tlv tag content.now)) }
    ensures other_tag { (tag ≡ 48 → ⊥) → result ≡ Err InvalidData }
    ensures first_error { IfErr result
        (OrMemory (TaggedError 48 (WholeError S.Fields.are_values S.Fields.octets S.Fields.ends S.Fields.error) tag content.now)) }
{
    if tag != SEQUENCE {
        return Err(Asn1DerError::InvalidData);
    }
    let parts = read_all_fields::<S::Fields>(alloc, content)?;
    Ok(S::from_fields(parts))
}

/// The fields whose encoding is all of these octets.
fn read_all_fields<F: Fields + Drop>(alloc: Global, content: &[u8]) -> Result<F, Asn1DerError>
    requires { F.distinguished nothing }
    ensures valid { IfOk result F.are_values }
    ensures found { IfOk result (λ v. content.now ≡ F.octets v) }
    ensures rejected { IfErr result (RejectsAll F.are_values F.octets content.now) }
    ensures first_error { IfErr result (OrMemory (WholeError F.are_values F.octets F.ends F.error content.now)) }
{
    let (parts, taken) = F::read_fields(alloc, content)?;
    if taken != content.len() {
        return Err(Asn1DerError::InvalidData);
    }
    Ok(parts)
}

/// Appends the sequence of these fields to `out`, which is unchanged where an allocation fails.
pub fn write_sequence<R: FieldRefs>(
    alloc: Global,
    fields: &R,
    out: &mut Vec<u8>,
) -> Result<(), AllocError>
    ensures ok { OnOk result (out.new.items ≡ out.old.items ++ tlv 48 (R.octets fields.now)) }
    ensures valid { OnOk result (R.are_values fields.now) }
    ensures err { OnErr result (out.new.items ≡ out.old.items) }
{
    let start = begin_tlv(out)?;
    if let Err(error) = fields.write_refs(alloc, out) {
        out.truncate(start);
        return Err(error);
    }
    end_tlv(SEQUENCE, start, out)
}

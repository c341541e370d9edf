//! Lemmas about the definitions: functions with no body, each of whose clauses is a fact for proofs above.

ghost use Rattle.std.specs.Prelude.{◌≡◌, ◌↔◌, ◌==◌, ◌+◌, ◌≤◌, ℕ, Bool, List};
ghost use Rattle.krb_der_core.specs.Tlv.{tlv};
ghost use Rattle.krb_der_core.specs.Errors.{PrefixError, TaggedError};
ghost use Rattle.krb_der_core.specs.declared.error.Asn1DerError.{Asn1DerError};
ghost use Rattle.krb_der.specs.FieldErrors.{HasErrorsOf, SameError};
ghost use Rattle.krb_der.specs.Equality.{ClonesValue, DecidesEqual};
ghost use Rattle.krb_der.specs.Tags.{HasTag};

pub mod identifiers;

use crate::implicit::{
    ImplicitContextTag, ImplicitContextTag0, ImplicitContextTag1, ImplicitContextTag2,
};
use crate::object_identifier::ObjectIdentifierAsn1;
use crate::primitive::DerPrimitive;
use crate::raw_value::Asn1RawDer;
use crate::untagged::Field;
use crate::x509::{AlgorithmIdentifier, SubjectPublicKeyInfo};
use krb_der::composite::{Fields, Number, Sequence, TagNumber};
use krb_der::{Der, DerEncode};

/// `ImplicitContextTag0` to `2`: the tags `80` to `82` in place of the primitive type's own (X.690, 8.14).
pub fn implicit_tags<T: DerPrimitive>()
    ensures tag_0 { (v : T) → ⟦<ImplicitContextTag0<T> as DerEncode>⟧.enc v ≡ tlv 128 (T.inner v) }
    ensures tag_1 { (v : T) → ⟦<ImplicitContextTag1<T> as DerEncode>⟧.enc v ≡ tlv 129 (T.inner v) }
    ensures tag_2 { (v : T) → ⟦<ImplicitContextTag2<T> as DerEncode>⟧.enc v ≡ tlv 130 (T.inner v) }
{}

/// `ImplicitContextTag<T, Number<N>>`: the tag `80` + N in place of the primitive type's own, to N = 30 (X.690, 8.1.2.4
/// and 8.14).
pub fn any_implicit_tag<T: DerPrimitive, const N: u8>()
    ensures { N ≤ 30 → (v : T) → ⟦<ImplicitContextTag<T, Number<N>> as DerEncode>⟧.enc v ≡ tlv (128 + N) (T.inner v) }
{}

/// The first error of each struct is that of a SEQUENCE of its fields (X.690, 8.9): its tag, then its fields in order, then
/// trailing octets. Its encodings begin with that tag, and with no other octet (X.690, 8.1.2).
pub fn errors()
    ensures algorithm_identifier { HasErrorsOf ⟦<AlgorithmIdentifier as DerEncode>⟧.error ⟦<<AlgorithmIdentifier as Sequence>::Fields as Fields>⟧ }
    ensures subject_public_key_info { HasErrorsOf ⟦<SubjectPublicKeyInfo as DerEncode>⟧.error ⟦<<SubjectPublicKeyInfo as Sequence>::Fields as Fields>⟧ }
    ensures algorithm_identifier_tag { HasTag 48 ⟦<AlgorithmIdentifier as DerEncode>⟧.first }
    ensures subject_public_key_info_tag { HasTag 48 ⟦<SubjectPublicKeyInfo as DerEncode>⟧.first }
{}

/// The first error of a primitive type under an implicit tag (X.690, 8.14): another tag, or that of the primitive type's
/// content under its own tag. As a field of a sequence it is that of the element at the start of the octets, and the field
/// ends with its octets.
pub fn implicit_errors<T: DerPrimitive + Drop, const N: u8>()
    ensures element { N ≤ 30 → SameError ⟦<ImplicitContextTag<T, Number<N>> as DerEncode>⟧.error (TaggedError (128 + N) (T.error T.tag)) }
    ensures field { N ≤ 30 → (octets : List ℕ) (e : Asn1DerError) → ⟦<ImplicitContextTag<T, Number<N>> as Fields>⟧.error octets e
        ↔ PrefixError (λ t. t == 128 + N) (TaggedError (128 + N) (T.error T.tag)) octets e }
    ensures field_ends { (v : T) (rest : List ℕ) → ⟦<ImplicitContextTag<T, Number<N>> as Fields>⟧.ends v rest }
    ensures tag { N ≤ 30 → HasTag (128 + N) ⟦<ImplicitContextTag<T, Number<N>> as DerEncode>⟧.first }
    ensures field_begins { N ≤ 30 → (follow : ℕ → Bool) → HasTag (128 + N) (⟦<ImplicitContextTag<T, Number<N>> as Fields>⟧.begins follow) }
{}

/// The first error of a field with no tag of its own (X.690, 8.9): that of its element at the start of the octets. It ends with
/// its octets.
pub fn untagged_errors<T: Der + Drop>()
    ensures field { (octets : List ℕ) (e : Asn1DerError) → ⟦<Field<T> as Fields>⟧.error octets e ↔ PrefixError T.first T.error octets e }
    ensures field_ends { (v : T) (rest : List ℕ) → ⟦<Field<T> as Fields>⟧.ends v rest }
    ensures field_begins { (follow : ℕ → Bool) (t : ℕ) → ⟦<Field<T> as Fields>⟧.begins follow t ≡ T.first t }
{}

/// `==` on object identifiers, raw values and the structs that have them: it returns true for equal values and for no others.
pub fn equality()
    ensures object_identifier { DecidesEqual ⟦<ObjectIdentifierAsn1 as PartialEq>⟧.eq }
    ensures raw_value { DecidesEqual ⟦<Asn1RawDer as PartialEq>⟧.eq }
    ensures algorithm_identifier { DecidesEqual ⟦<AlgorithmIdentifier as PartialEq>⟧.eq }
    ensures subject_public_key_info { DecidesEqual ⟦<SubjectPublicKeyInfo as PartialEq>⟧.eq }
{}

/// `==` on primitive types under an implicit tag: it returns true for equal values and for no others, where that of T does.
pub fn implicit_equality<T: PartialEq, N: TagNumber>()
    ensures { DecidesEqual T.eq → DecidesEqual ⟦<ImplicitContextTag<T, N> as PartialEq>⟧.eq }
{}

/// A clone of a primitive type under an implicit tag equals the value, where a clone of a T does.
pub fn implicit_clones<T: Clone, N: TagNumber>()
    ensures { ClonesValue T.is_clone → ClonesValue ⟦<ImplicitContextTag<T, N> as Clone>⟧.is_clone }
{}

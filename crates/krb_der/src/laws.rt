//! Lemmas about the definitions: functions with no body, each of whose clauses is a fact for proofs above.

ghost use Rattle.std.specs.Prelude.{◌≡◌, ◌↔◌, ◌==◌, ◌||◌, ◌+◌, ◌<◌, ◌≤◌, ◌^◌, ◌++◌, ◌∷◌, ℕ, ℤ, pos, Bool, List, Option, None, IfSome, length};
ghost use Rattle.std.specs.Str.{IsAscii, IsUtf8};
ghost use Rattle.std.specs.List.{flat_map};
ghost use Rattle.krb_der_core.specs.Tlv.{tlv};
ghost use Rattle.krb_der_core.specs.declared.error.Asn1DerError.{Asn1DerError};
ghost use Rattle.krb_der_core.specs.Encoding.{Apart, BeginsWith, IsOctets, optional};
ghost use Rattle.krb_der_core.specs.Errors.{PrefixError, PrimitiveError, RowError, TaggedError, ValueError};
ghost use Rattle.krb_der_core.specs.Primitive.{bool_content};
ghost use Rattle.krb_der_core.specs.Integer.{shortest};
ghost use Rattle.krb_der_core.specs.BitString.{Bits, IsBits};
ghost use Rattle.krb_der_core.specs.GeneralizedTime.{IsRealTime, Time, time_content};
ghost use Rattle.krb_der.specs.FieldErrors.{IsAbsent, LastError, OptionalError};
ghost use Rattle.krb_der.specs.declared.optional.Optional.{Optional as OptionalOf};
ghost use Rattle.krb_der.specs.Equality.{ClonesValue, DecidesEqual};
ghost use Rattle.krb_der.specs.Tags.{HasTag};

use crate::application_tag::ApplicationTag;
use crate::context_tag::{
    ExplicitContextTag, ExplicitContextTag0, ExplicitContextTag1, ExplicitContextTag2,
    ExplicitContextTag3, ExplicitContextTag4, ExplicitContextTag5, ExplicitContextTag6,
    ExplicitContextTag7, ExplicitContextTag8, ExplicitContextTag9, ExplicitContextTag10,
    ExplicitContextTag11, ExplicitContextTag12, Number, TagNumber,
};
use crate::optional::Optional;
use crate::sequence::Fields;
use crate::sequence_of::Asn1SequenceOf;
use krb_der_core::{
    BitStringAsn1, Der, DerEncode, DerSequence, GeneralStringAsn1, GeneralizedTimeAsn1,
    IntegerAsn1, OctetStringAsn1, Utf8StringAsn1,
};

/// Concatenated encodings: the octets determine the first value, and what follows it.
///
/// `element` is of one tag, length and content (X.690, 8.1.1) and a rest; `field` of a mandatory field and a rest;
/// `optional` of an optional field and a rest that begins with none of the field's first octets.
pub fn concatenated_encodings<T: DerEncode>()
    ensures element { (t u : ℕ) (c d x y : List ℕ) → tlv t c ++ x ≡ tlv u d ++ y → (t ≡ u) × (c ≡ d) × (x ≡ y) }
    ensures field { (v w : T) (x y : List ℕ) → T.is_value v → T.is_value w → T.enc v ++ x ≡ T.enc w ++ y → (v ≡ w) × (x ≡ y) }
    ensures optional { (begins : ℕ → Bool) → Apart T.first begins
        → (v w : Option T) (x y : List ℕ) → IfSome v T.is_value → IfSome w T.is_value → BeginsWith begins x → BeginsWith begins y
        → optional T.enc v ++ x ≡ optional T.enc w ++ y → (v ≡ w) × (x ≡ y) }
{}

/// The tag and the content of each primitive type (X.690, 8.2, 8.3, 8.6, 8.7, 8.23 and 8.25).
pub fn primitive_encodings()
    ensures boolean { (v : Bool) → ⟦<bool as DerEncode>⟧.enc v ≡ tlv 1 (bool_content v) }
    ensures integer { (v : ℤ) → ⟦<IntegerAsn1 as DerEncode>⟧.enc v ≡ tlv 2 (shortest v) }
    ensures number { (v : ℕ) → ⟦<u32 as DerEncode>⟧.enc v ≡ tlv 2 (shortest (pos v)) }
    ensures bit_string { (v : Bits) → ⟦<BitStringAsn1 as DerEncode>⟧.enc v ≡ tlv 3 (v.spare ∷ v.octets) }
    ensures octet_string { (v : List ℕ) → ⟦<OctetStringAsn1 as DerEncode>⟧.enc v ≡ tlv 4 v }
    ensures utf8_string { (v : List ℕ) → ⟦<Utf8StringAsn1 as DerEncode>⟧.enc v ≡ tlv 12 v }
    ensures generalized_time { (v : Time) → ⟦<GeneralizedTimeAsn1 as DerEncode>⟧.enc v ≡ tlv 24 (time_content v) }
    ensures general_string { (v : List ℕ) → ⟦<GeneralStringAsn1 as DerEncode>⟧.enc v ≡ tlv 27 v }
{}

/// `Asn1SequenceOf`: the tag `30` around the items' encodings, concatenated (X.690, 8.10).
pub fn sequence_of<T: DerEncode>()
    ensures { (v : List T) → ⟦<Asn1SequenceOf<T> as DerEncode>⟧.enc v ≡ tlv 48 (flat_map T.enc v) }
{}

/// `ExplicitContextTag<T, Number<N>>`: the tag `a0` + N around the value, to N = 30 (X.690, 8.1.2.4 and 8.14).
pub fn any_context_tag<T: DerEncode, const N: u8>()
    ensures { N ≤ 30 → (v : T) → ⟦<ExplicitContextTag<T, Number<N>> as DerEncode>⟧.enc v ≡ tlv (160 + N) (T.enc v) }
{}

/// `ApplicationTag<T, N>`: the tag `60` + N around the sequence (X.690, 8.1.2 and 8.14).
pub fn application_tag<T: DerSequence, const N: u8>()
    ensures { (v : T) → ⟦<ApplicationTag<T, N> as DerEncode>⟧.enc v ≡ tlv (96 + N) (T.enc v) }
{}

/// `ExplicitContextTag0` to `12`: the tags `a0` to `ac` around the value (X.690, 8.14).
pub fn context_tags<T: DerEncode>()
    ensures tag_0 { (v : T) → ⟦<ExplicitContextTag0<T> as DerEncode>⟧.enc v ≡ tlv 160 (T.enc v) }
    ensures tag_1 { (v : T) → ⟦<ExplicitContextTag1<T> as DerEncode>⟧.enc v ≡ tlv 161 (T.enc v) }
    ensures tag_2 { (v : T) → ⟦<ExplicitContextTag2<T> as DerEncode>⟧.enc v ≡ tlv 162 (T.enc v) }
    ensures tag_3 { (v : T) → ⟦<ExplicitContextTag3<T> as DerEncode>⟧.enc v ≡ tlv 163 (T.enc v) }
    ensures tag_4 { (v : T) → ⟦<ExplicitContextTag4<T> as DerEncode>⟧.enc v ≡ tlv 164 (T.enc v) }
    ensures tag_5 { (v : T) → ⟦<ExplicitContextTag5<T> as DerEncode>⟧.enc v ≡ tlv 165 (T.enc v) }
    ensures tag_6 { (v : T) → ⟦<ExplicitContextTag6<T> as DerEncode>⟧.enc v ≡ tlv 166 (T.enc v) }
    ensures tag_7 { (v : T) → ⟦<ExplicitContextTag7<T> as DerEncode>⟧.enc v ≡ tlv 167 (T.enc v) }
    ensures tag_8 { (v : T) → ⟦<ExplicitContextTag8<T> as DerEncode>⟧.enc v ≡ tlv 168 (T.enc v) }
    ensures tag_9 { (v : T) → ⟦<ExplicitContextTag9<T> as DerEncode>⟧.enc v ≡ tlv 169 (T.enc v) }
    ensures tag_10 { (v : T) → ⟦<ExplicitContextTag10<T> as DerEncode>⟧.enc v ≡ tlv 170 (T.enc v) }
    ensures tag_11 { (v : T) → ⟦<ExplicitContextTag11<T> as DerEncode>⟧.enc v ≡ tlv 171 (T.enc v) }
    ensures tag_12 { (v : T) → ⟦<ExplicitContextTag12<T> as DerEncode>⟧.enc v ≡ tlv 172 (T.enc v) }
{}

/// The first error of octets: there is at most one, and none where the octets are a value's encoding.
///
/// `prefix` and `read` are about a prefix of the octets, as `Der::read` takes it, `all` and `whole` about all of them, as `from_bytes`
/// does. Octets have fewer than 2^64 octets, as those of any slice.
pub fn first_error<T: DerEncode>()
    ensures prefix { (octets : List ℕ) (e d : Asn1DerError) → length octets < 2 ^ 64 → PrefixError T.first T.error octets e
        → PrefixError T.first T.error octets d → e ≡ d }
    ensures read { (octets : List ℕ) (e : Asn1DerError) (v : T) (rest : List ℕ) → length octets < 2 ^ 64
        → PrefixError T.first T.error octets e → T.is_value v → octets ≡ T.enc v ++ rest → ⊥ }
    ensures all { (octets : List ℕ) (e d : Asn1DerError) → length octets < 2 ^ 64 → ValueError T.is_value T.enc T.first T.error octets e
        → ValueError T.is_value T.enc T.first T.error octets d → e ≡ d }
    ensures whole { (octets : List ℕ) (e : Asn1DerError) (v : T) → length octets < 2 ^ 64
        → ValueError T.is_value T.enc T.first T.error octets e → T.is_value v → octets ≡ T.enc v → ⊥ }
{}

/// The error of a primitive type: an element with another tag, or with a content that no value has, is `InvalidData`. Its
/// encodings begin with the tag, and with no other octet (X.690, 8.1.2).
pub fn primitive_errors()
    ensures boolean { (t : ℕ) (content : List ℕ) (e : Asn1DerError) → ⟦<bool as DerEncode>⟧.error t content e
        ↔ PrimitiveError 1 (λ (v : Bool). Unit {0}) bool_content t content e }
    ensures integer { (t : ℕ) (content : List ℕ) (e : Asn1DerError) → ⟦<IntegerAsn1 as DerEncode>⟧.error t content e
        ↔ PrimitiveError 2 (λ (v : ℤ). Unit {0}) shortest t content e }
    ensures number { (t : ℕ) (content : List ℕ) (e : Asn1DerError) → ⟦<u32 as DerEncode>⟧.error t content e
        ↔ PrimitiveError 2 (λ (v : ℕ). v < 2 ^ 32) (λ v. shortest (pos v)) t content e }
    ensures bit_string { (t : ℕ) (content : List ℕ) (e : Asn1DerError) → ⟦<BitStringAsn1 as DerEncode>⟧.error t content e
        ↔ PrimitiveError 3 IsBits (λ (v : Bits). v.spare ∷ v.octets) t content e }
    ensures octet_string { (t : ℕ) (content : List ℕ) (e : Asn1DerError) → ⟦<OctetStringAsn1 as DerEncode>⟧.error t content e
        ↔ PrimitiveError 4 IsOctets (λ (v : List ℕ). v) t content e }
    ensures utf8_string { (t : ℕ) (content : List ℕ) (e : Asn1DerError) → ⟦<Utf8StringAsn1 as DerEncode>⟧.error t content e
        ↔ PrimitiveError 12 IsUtf8 (λ (v : List ℕ). v) t content e }
    ensures generalized_time { (t : ℕ) (content : List ℕ) (e : Asn1DerError) → ⟦<GeneralizedTimeAsn1 as DerEncode>⟧.error t content e
        ↔ PrimitiveError 24 IsRealTime time_content t content e }
    ensures general_string { (t : ℕ) (content : List ℕ) (e : Asn1DerError) → ⟦<GeneralStringAsn1 as DerEncode>⟧.error t content e
        ↔ PrimitiveError 27 IsAscii (λ (v : List ℕ). v) t content e }
    ensures boolean_tag { HasTag 1 ⟦<bool as DerEncode>⟧.first }
    ensures integer_tag { HasTag 2 ⟦<IntegerAsn1 as DerEncode>⟧.first }
    ensures number_tag { HasTag 2 ⟦<u32 as DerEncode>⟧.first }
    ensures bit_string_tag { HasTag 3 ⟦<BitStringAsn1 as DerEncode>⟧.first }
    ensures octet_string_tag { HasTag 4 ⟦<OctetStringAsn1 as DerEncode>⟧.first }
    ensures utf8_string_tag { HasTag 12 ⟦<Utf8StringAsn1 as DerEncode>⟧.first }
    ensures generalized_time_tag { HasTag 24 ⟦<GeneralizedTimeAsn1 as DerEncode>⟧.first }
    ensures general_string_tag { HasTag 27 ⟦<GeneralStringAsn1 as DerEncode>⟧.first }
{}

/// The error of a wrapper of values of T: first that of the tag, then that of the content, from the left. Its
/// encodings begin with the tag, and with no other octet (X.690, 8.1.2).
pub fn composite_errors<T: DerEncode, const N: u8>()
    ensures sequence_of { (t : ℕ) (content : List ℕ) (e : Asn1DerError) → ⟦<Asn1SequenceOf<T> as DerEncode>⟧.error t content e
        ↔ TaggedError 48 (RowError T.is_value T.enc (PrefixError T.first T.error)) t content e }
    ensures explicit { N ≤ 30 → (t : ℕ) (content : List ℕ) (e : Asn1DerError)
        → ⟦<ExplicitContextTag<T, Number<N>> as DerEncode>⟧.error t content e
        ↔ TaggedError (160 + N) (ValueError T.is_value T.enc T.first T.error) t content e }
    ensures sequence_of_tag { HasTag 48 ⟦<Asn1SequenceOf<T> as DerEncode>⟧.first }
    ensures explicit_tag { N ≤ 30 → HasTag (160 + N) ⟦<ExplicitContextTag<T, Number<N>> as DerEncode>⟧.first }
{}

/// The error of a sequence under an application tag, and the one octet with which its encodings begin.
pub fn application_error<T: DerSequence, const N: u8>()
    ensures tag { N ≤ 30 → HasTag (96 + N) ⟦<ApplicationTag<T, N> as DerEncode>⟧.first }
    ensures error { N ≤ 30 → (t : ℕ) (content : List ℕ) (e : Asn1DerError) → ⟦<ApplicationTag<T, N> as DerEncode>⟧.error t content e
        ↔ TaggedError (96 + N) (ValueError T.is_value T.enc T.first T.error) t content e }
{}

/// The first error of a field of a sequence (X.690, 8.9 and 8.14), and where the field ends.
///
/// A mandatory field is under its tag, and ends with its octets. An optional field is present where the octets begin as its
/// encodings do, and absent elsewhere: with it and what may follow, octets begin as one or the other does.
pub fn field_errors<T: Der + Drop, const N: u8>()
    ensures mandatory { N ≤ 30 → (octets : List ℕ) (e : Asn1DerError) → ⟦<ExplicitContextTag<T, Number<N>> as Fields>⟧.error octets e
        ↔ PrefixError (λ t. t == 160 + N) (TaggedError (160 + N) (ValueError T.is_value T.enc T.first T.error)) octets e }
    ensures mandatory_ends { (v : T) (rest : List ℕ) → ⟦<ExplicitContextTag<T, Number<N>> as Fields>⟧.ends v rest }
    ensures optional { (octets : List ℕ) (e : Asn1DerError) → ⟦<Optional<Option<T>> as Fields>⟧.error octets e ↔ OptionalError T.first T.error octets e }
    ensures optional_ends { (v : OptionalOf (Option T)) (rest : List ℕ) → ⟦<Optional<Option<T>> as Fields>⟧.ends v rest ↔ (v.0 ≡ None → IsAbsent T.first rest) }
    ensures mandatory_begins { N ≤ 30 → (follow : ℕ → Bool) → HasTag (160 + N) (⟦<ExplicitContextTag<T, Number<N>> as Fields>⟧.begins follow) }
    ensures optional_begins { (follow : ℕ → Bool) (t : ℕ) → ⟦<Optional<Option<T>> as Fields>⟧.begins follow t ≡ (T.first t || follow t) }
{}

/// The first error of fields (X.690, 8.9): that of the fields before the last; where these have none, that of the last in the
/// octets after them. Tuples of two to six, of fields or of groups of fields.
pub fn tuple_errors<
    A: Fields + Drop,
    B: Fields + Drop,
    C: Fields + Drop,
    D: Fields + Drop,
    E: Fields + Drop,
    F: Fields + Drop,
>()
    ensures two { (octets : List ℕ) (e : Asn1DerError) → ⟦<(A, B) as Fields>⟧.error octets e ↔ LastError ⟦<A as Fields>⟧ B.error octets e }
    ensures three { (octets : List ℕ) (e : Asn1DerError) → ⟦<(A, B, C) as Fields>⟧.error octets e ↔ LastError ⟦<(A, B) as Fields>⟧ C.error octets e }
    ensures four { (octets : List ℕ) (e : Asn1DerError) → ⟦<(A, B, C, D) as Fields>⟧.error octets e ↔ LastError ⟦<(A, B, C) as Fields>⟧ D.error octets e }
    ensures five { (octets : List ℕ) (e : Asn1DerError) → ⟦<(A, B, C, D, E) as Fields>⟧.error octets e ↔ LastError ⟦<(A, B, C, D) as Fields>⟧ E.error octets e }
    ensures six { (octets : List ℕ) (e : Asn1DerError) → ⟦<(A, B, C, D, E, F) as Fields>⟧.error octets e
        ↔ LastError ⟦<(A, B, C, D, E) as Fields>⟧ F.error octets e }
{}

/// `==` on each primitive type: it returns true for equal values and for no others.
pub fn primitive_equality()
    ensures integer { DecidesEqual ⟦<IntegerAsn1 as PartialEq>⟧.eq }
    ensures number { DecidesEqual ⟦<u32 as PartialEq>⟧.eq }
    ensures bit_string { DecidesEqual ⟦<BitStringAsn1 as PartialEq>⟧.eq }
    ensures octet_string { DecidesEqual ⟦<OctetStringAsn1 as PartialEq>⟧.eq }
    ensures utf8_string { DecidesEqual ⟦<Utf8StringAsn1 as PartialEq>⟧.eq }
    ensures generalized_time { DecidesEqual ⟦<GeneralizedTimeAsn1 as PartialEq>⟧.eq }
    ensures general_string { DecidesEqual ⟦<GeneralStringAsn1 as PartialEq>⟧.eq }
{}

/// `==` on a wrapper of values of T: it returns true for equal values and for no others, where that of T does.
pub fn wrapper_equality<T: PartialEq, N: TagNumber, const M: u8>()
    ensures explicit { DecidesEqual T.eq → DecidesEqual ⟦<ExplicitContextTag<T, N> as PartialEq>⟧.eq }
    ensures application { DecidesEqual T.eq → DecidesEqual ⟦<ApplicationTag<T, M> as PartialEq>⟧.eq }
    ensures optional { DecidesEqual T.eq → DecidesEqual ⟦<Optional<Option<T>> as PartialEq>⟧.eq }
    ensures sequence_of { DecidesEqual T.eq → DecidesEqual ⟦<Asn1SequenceOf<T> as PartialEq>⟧.eq }
{}

/// A clone of a time equals it, and so does a clone of a wrapper of values of T, where a clone of a T does.
pub fn clones<T: Clone, N: TagNumber, const M: u8>()
    ensures generalized_time { ClonesValue ⟦<GeneralizedTimeAsn1 as Clone>⟧.is_clone }
    ensures explicit { ClonesValue T.is_clone → ClonesValue ⟦<ExplicitContextTag<T, N> as Clone>⟧.is_clone }
    ensures application { ClonesValue T.is_clone → ClonesValue ⟦<ApplicationTag<T, M> as Clone>⟧.is_clone }
    ensures optional { ClonesValue T.is_clone → ClonesValue ⟦<Optional<Option<T>> as Clone>⟧.is_clone }
{}

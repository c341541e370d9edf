//! How to define a DER type of your own.
//!
//! `DerEncode` specifies and writes the encoding of a type's values, and `Der` reads them. A struct that is a SEQUENCE
//! implements both through its fields, in five steps that need no proof file. The example:
//!
//! ```text
//! Note ::= SEQUENCE {
//!     number [0] INTEGER,
//!     text   [1] OCTET STRING OPTIONAL,
//!     urgent [13] BOOLEAN
//! }
//! ```
//!
//! 1. Write the struct. Its fields are public and in the order of the ASN.1 text, each under its tag. An OPTIONAL field is
//!    `Optional<Option<..>>`. The tags 0 to 12 are `ExplicitContextTag0` to `ExplicitContextTag12`; the tags 13 to 30 are
//!    `ExplicitContextTag<T, Number<13>>` to `Number<30>`.
//!
//!    ```text
//!    #[derive(Debug, Drop, PartialEq, Eq)]
//!    pub struct Note {
//!        pub number: ExplicitContextTag0<IntegerAsn1>,
//!        pub text: Optional<Option<ExplicitContextTag1<OctetStringAsn1>>>,
//!        pub urgent: ExplicitContextTag<bool, Number<13>>,
//!    }
//!    ```
//!
//! 2. Implement `Sequence`: the tuple of the fields' types, how a contract gets the fields of a struct and the struct of its
//!    fields, and the function that makes the struct.
//!
//!    ```text
//!    impl Sequence for Note {
//!        type Fields = (
//!            ExplicitContextTag0<IntegerAsn1>,
//!            Optional<Option<ExplicitContextTag1<OctetStringAsn1>>>,
//!            ExplicitContextTag<bool, Number<13>>,
//!        );
//!
//!        ghost fields = { λ v. (v.number, v.text, v.urgent) };
//!
//!        ghost with_fields = { λ f. record { number = f.0; text = f.1; urgent = f.2 } };
//!
//!        fn from_fields((number, text, urgent): Self::Fields) -> Self {
//!            Note {
//!                number,
//!                text,
//!                urgent,
//!            }
//!        }
//!    }
//!    ```
//!
//! 3. Implement `DerEncode`. `enc` is the ASN.1 text in the words of the table below, the fields in order, separated by
//!    `++`. `write` names the fields. The last argument of `one_value` and of `error_laws` has the shape of the tuple of
//!    fields: `tt` for a mandatory field, `only_tag TAG _ refl` for an optional one, where TAG is 160 plus the number of its
//!    tag: the tag distinguishes the field from what follows. The other members are the same for every struct.
//!
//!    ```text
//!    impl DerEncode for Note {
//!        ghost enc = { λ v. sequence (explicit 0 (integer v.number) ++ optional (λ x. explicit 1 (octet_string x)) v.text.0 ++ explicit 13 (boolean v.urgent)) };
//!
//!        ghost is_value = { values_of ⟦<Self as Sequence>⟧ ⟦<<Self as Sequence>::Fields as Fields>⟧ };
//!
//!        ghost first = { λ t. t == 48 };
//!
//!        ghost is_element = { λ v h. tagged_element 48 _ };
//!
//!        ghost one_value = { one_value_of ⟦<Self as Sequence>⟧ ⟦<<Self as Sequence>::Fields as Fields>⟧ (λ v. refl) (tt, only_tag 161 _ refl, tt) };
//!
//!        ghost error = { sequence_error ⟦<<Self as Sequence>::Fields as Fields>⟧ };
//!
//!        ghost error_laws = { sequence_error_laws ⟦<Self as Sequence>⟧ ⟦<<Self as Sequence>::Fields as Fields>⟧ (tt, only_tag 161 _ refl, tt) };
//!
//!        fn starts(octet: u8) -> bool {
//!            octet == SEQUENCE
//!        }
//!
//!        fn write(&self, alloc: Global, out: &mut Vec<u8>) -> Result<(), AllocError> {
//!            write_sequence(alloc, &field_refs!(self; number, text, urgent), out)
//!        }
//!    }
//!    ```
//!
//! 4. Implement `Der`, the same for every struct.
//!
//!    ```text
//!    impl Der for Note {
//!        fn read_element(alloc: Global, tag: u8, content: &[u8]) -> Result<Self, Asn1DerError> {
//!            read_sequence(alloc, tag, content)
//!        }
//!    }
//!    ```
//!
//! 5. Only if the struct is under an application tag, as in `pub type Memo = ApplicationTag<Note, 3>;`: implement
//!    `DerSequence`, the same for every struct.
//!
//!    ```text
//!    impl DerSequence for Note {
//!        ghost is_sequence = { λ v. (_, refl) };
//!    }
//!    ```
//!
//! The imports of the code and of its clauses:
//!
//! ```text
//! ghost use Rattle.std.specs.Prelude.{◌==◌, ◌++◌, refl}; // with one field alone no ◌++◌
//! ghost use Rattle.krb_der.specs.Asn1.{boolean, explicit, integer, octet_string, sequence}; // the words of `enc`
//! ghost use Rattle.krb_der.specs.Encoding.{optional}; // only for fields that may be absent
//! ghost use Rattle.krb_der.specs.FieldErrors.{sequence_error};
//! ghost use Rattle.krb_der.specs.FieldErrorLaws.{sequence_error_laws};
//! ghost use Rattle.krb_der.specs.SequenceLaws.{one_value_of, values_of};
//! ghost use Rattle.krb_der.specs.TlvLaws.{only_tag, tagged_element}; // only_tag: only for fields that may be absent
//!
//! use krb_der::composite::{Fields, Number, SEQUENCE, Sequence, read_sequence, write_sequence}; // Number: only for tags past 12
//! use krb_der::{Asn1DerError, Der, DerEncode, field_refs};
//! use krb_der::{ExplicitContextTag0, IntegerAsn1}; // the fields' types, and so on
//! use krb_der::{Optional}; // only for fields that may be absent
//! use krb_der::{DerSequence}; // only under an application tag
//! use std::alloc::{AllocError, Global};
//! ```
//!
//! The crate's line of crates.txt names `krb_der`, for the macro `field_refs!`.
//!
//! # Types of fields
//!
//! | ASN.1 | Type | Word of `enc` |
//! |---|---|---|
//! | BOOLEAN | `bool` | `boolean x` |
//! | INTEGER, Int32, UInt32, Microseconds | `IntegerAsn1` | `integer x` |
//! | INTEGER of 0 to 2^32 - 1, where every other is an error | `u32` | `integer (pos x)`, with `pos` of the Prelude |
//! | BIT STRING, KerberosFlags | `BitStringAsn1` | `bit_string x` |
//! | OCTET STRING | `OctetStringAsn1` | `octet_string x` |
//! | UTF8String | `Utf8StringAsn1` | `utf8_string x` |
//! | GeneralString, KerberosString, Realm | `GeneralStringAsn1` | `general_string x` |
//! | GeneralizedTime, KerberosTime | `GeneralizedTimeAsn1` | `generalized_time x` |
//! | SEQUENCE OF T | `Asn1SequenceOf<T>` | `sequence_of w x`, where `w` is the word of T |
//! | any other type T: a struct, an alias of a list, a type under an application tag | `T` | `⟦<T as DerEncode>⟧.enc x` |
//! | `[N]` T | `ExplicitContextTagN<T>`, `ExplicitContextTag<T, Number<N>>` | `explicit N (w x)` |
//! | `[N]` T OPTIONAL | `Optional<Option<ExplicitContextTagN<T>>>` | `optional (λ x. explicit N (w x)) v.name.0` |
//! | `[APPLICATION N]` S | `ApplicationTag<S, N>` | `application N (w x)` |
//!
//! `krb_types` has aliases for the types of RFC 4120 that are one of these: `KerberosTime` is `GeneralizedTimeAsn1`. The
//! word of an alias is that of its type.
//!
//! # One field; seven fields or more
//!
//! For one field, `Fields` is its type, without parentheses, and so are `fields`, `with_fields`, `from_fields` and the last
//! argument of `one_value` and `error_laws`: `λ v. v.name`, `λ f. record { name = f }`, `name: Self::Fields` and `tt`.
//!
//! A tuple has up to six fields. Seven or more are grouped, as tuples in a tuple; `enc` and `field_refs!` have parentheses
//! around each group. With `a` to `f` mandatory and `g [6]` optional:
//!
//! ```text
//! type Fields = ((A, B, C, D), (E, F, G));
//!
//! ghost fields = { λ v. ((v.a, v.b, v.c, v.d), (v.e, v.f, v.g)) };
//!
//! ghost with_fields = { λ f. record { a = f.0.0; b = f.0.1; c = f.0.2; d = f.0.3; e = f.1.0; f = f.1.1; g = f.1.2 } };
//!
//! fn from_fields(((a, b, c, d), (e, f, g)): Self::Fields) -> Self
//!
//! ghost enc = { λ v. sequence ((explicit 0 (integer v.a) ++ explicit 1 (integer v.b) ++ ..) ++ (.. ++ optional (λ x. explicit 6 (integer x)) v.g.0)) };
//!
//! ghost one_value = { one_value_of .. (λ v. refl) ((tt, tt, tt, tt), (tt, tt, only_tag 166 _ refl)) };
//!
//! ghost error_laws = { sequence_error_laws .. ((tt, tt, tt, tt), (tt, tt, only_tag 166 _ refl)) };
//!
//! write_sequence(alloc, &field_refs!(self; (a, b, c, d), (e, f, g)), out)
//! ```
//!
//! A CHOICE, or any other type with several tags, implements `DerEncode` and `Der` directly.

pub use crate::context_tag::{Number, TagNumber};
pub use crate::sequence::{FieldRefs, Fields, SEQUENCE, Sequence, read_sequence, write_sequence};

/// References to the fields of a struct, for writing: `field_refs!(self; number, text)`. Fields in parentheses are a group.
#[macro_export]
macro_rules! field_refs {
    (@one $value:expr; ($($group:tt)+)) => { $crate::field_refs!($value; $($group)+) };
    (@one $value:expr; $name:ident) => { &$value.$name };
    (@trailing $value:expr; $fields:expr) => { $fields };
    (@trailing $value:expr; $fields:expr, $next:tt $(, $rest:tt)*) => {
        $crate::field_refs!(@trailing $value; ($fields, $crate::field_refs!(@one $value; $next)) $(, $rest)*)
    };
    ($value:expr; $first:tt $(, $rest:tt)*) => {
        $crate::field_refs!(@trailing $value; $crate::field_refs!(@one $value; $first) $(, $rest)*)
    };
}

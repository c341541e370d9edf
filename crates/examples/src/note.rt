//! A type of a caller's own, as the page at the head of `composite.rt` of `krb_der` has it.

ghost use Rattle.std.specs.Prelude.{◌==◌, ◌++◌, refl}; // with one field alone no ◌++◌
ghost use Rattle.krb_der.specs.Asn1.{boolean, explicit, integer, octet_string, sequence}; // the words of `enc`
ghost use Rattle.krb_der.specs.Encoding.{optional}; // only for fields that may be absent
ghost use Rattle.krb_der.specs.FieldErrors.{sequence_error};
ghost use Rattle.krb_der.specs.FieldErrorLaws.{sequence_error_laws};
ghost use Rattle.krb_der.specs.SequenceLaws.{one_value_of, values_of};
ghost use Rattle.krb_der.specs.TlvLaws.{only_tag, tagged_element}; // only_tag: only for fields that may be absent

use krb_der::composite::{Fields, Number, SEQUENCE, Sequence, read_sequence, write_sequence}; // Number: only for tags past 12
use krb_der::{ApplicationTag, DerSequence}; // only under an application tag
use krb_der::{Asn1DerError, Der, DerEncode, field_refs};
use krb_der::{
    ExplicitContextTag, ExplicitContextTag0, ExplicitContextTag1, IntegerAsn1, OctetStringAsn1,
    Optional,
}; // the fields' types
use std::alloc::{AllocError, Global};

/// A note.
#[derive(Debug, Drop, PartialEq, Eq)]
pub struct Note {
    pub number: ExplicitContextTag0<IntegerAsn1>,
    pub text: Optional<Option<ExplicitContextTag1<OctetStringAsn1>>>,
    pub urgent: ExplicitContextTag<bool, Number<13>>,
}

impl Sequence for Note {
    type Fields = (
        ExplicitContextTag0<IntegerAsn1>,
        Optional<Option<ExplicitContextTag1<OctetStringAsn1>>>,
        ExplicitContextTag<bool, Number<13>>,
    );

    ghost fields = { λ v. (v.number, v.text, v.urgent) };

    ghost with_fields = { λ f. record { number = f.0; text = f.1; urgent = f.2 } };

    fn from_fields((number, text, urgent): Self::Fields) -> Self {
        Note {
            number,
            text,
            urgent,
        }
    }
}

impl DerEncode for Note {
    ghost enc = { λ v. sequence (explicit 0 (integer v.number) ++ optional (λ x. explicit 1 (octet_string x)) v.text.0 ++ explicit 13 (boolean v.urgent)) };

    ghost is_value = { values_of ⟦<Self as Sequence>⟧ ⟦<<Self as Sequence>::Fields as Fields>⟧ };

    ghost first = { λ t. t == 48 };

    ghost is_element = { λ v h. tagged_element 48 _ };

    ghost one_value = { one_value_of ⟦<Self as Sequence>⟧ ⟦<<Self as Sequence>::Fields as Fields>⟧ (λ v. refl) (tt, only_tag 161 _ refl, tt) };

    ghost error = { sequence_error ⟦<<Self as Sequence>::Fields as Fields>⟧ };

    ghost error_laws = { sequence_error_laws ⟦<Self as Sequence>⟧ ⟦<<Self as Sequence>::Fields as Fields>⟧ (tt, only_tag 161 _ refl, tt) };

    fn starts(octet: u8) -> bool {
        octet == SEQUENCE
    }

    fn write(&self, alloc: Global, out: &mut Vec<u8>) -> Result<(), AllocError> {
        write_sequence(alloc, &field_refs!(self; number, text, urgent), out)
    }
}

impl Der for Note {
    fn read_element(alloc: Global, tag: u8, content: &[u8]) -> Result<Self, Asn1DerError> {
        read_sequence(alloc, tag, content)
    }
}

impl DerSequence for Note {
    ghost is_sequence = { λ v. (_, refl) };
}

/// A note under the application tag 3.
pub type Memo = ApplicationTag<Note, 3>;

//! The error data of a KDC.

ghost use Rattle.std.specs.Prelude.{◌==◌, ◌++◌, refl};
ghost use Rattle.krb_der.specs.Asn1.{explicit, integer, octet_string, sequence};
ghost use Rattle.krb_der.specs.Encoding.{optional};
ghost use Rattle.krb_der.specs.FieldErrors.{sequence_error};
ghost use Rattle.krb_der.specs.FieldErrorLaws.{sequence_error_laws};
ghost use Rattle.krb_der.specs.SequenceLaws.{one_value_of, values_of};
ghost use Rattle.krb_der.specs.TlvLaws.{only_tag, tagged_element};

use krb_der::composite::{Fields, SEQUENCE, Sequence, read_sequence, write_sequence};
use krb_der::{
    Asn1DerError, Der, DerEncode, DerSequence, ExplicitContextTag1, ExplicitContextTag2,
    IntegerAsn1, OctetStringAsn1, Optional, field_refs,
};
use std::alloc::{AllocError, Global};

/// What a KDC reports of an error beside its code (MS-KILE, 2.2.2).
///
/// ```text
/// KERB-ERROR-DATA ::= SEQUENCE {
///     data-type  [1] INTEGER,
///     data-value [2] OCTET STRING OPTIONAL
/// }
/// ```
#[derive(Debug, Drop, PartialEq, Eq)]
pub struct KerbErrorData {
    /// What kind of data they are.
    pub data_type: ExplicitContextTag1<IntegerAsn1>,
    /// The data.
    pub data_value: Optional<Option<ExplicitContextTag2<OctetStringAsn1>>>,
}

impl Sequence for KerbErrorData {
    type Fields = (
        ExplicitContextTag1<IntegerAsn1>,
        Optional<Option<ExplicitContextTag2<OctetStringAsn1>>>,
    );

    ghost fields = { λ v. (v.data_type, v.data_value) };

    ghost with_fields = { λ f. record { data_type = f.0; data_value = f.1 } };

    fn from_fields((data_type, data_value): Self::Fields) -> Self {
        KerbErrorData {
            data_type,
            data_value,
        }
    }
}

impl DerEncode for KerbErrorData {
    ghost enc = { λ v. sequence (explicit 1 (integer v.data_type) ++ optional (λ x. explicit 2 (octet_string x)) v.data_value.0) };

    ghost is_value = { values_of ⟦<Self as Sequence>⟧ ⟦<<Self as Sequence>::Fields as Fields>⟧ };

    ghost first = { λ t. t == 48 };

    ghost is_element = { λ v h. tagged_element 48 _ };

    ghost one_value = { one_value_of ⟦<Self as Sequence>⟧ ⟦<<Self as Sequence>::Fields as Fields>⟧ (λ v. refl) (tt, only_tag 162 _ refl) };

    ghost error = { sequence_error ⟦<<Self as Sequence>::Fields as Fields>⟧ };

    ghost error_laws = { sequence_error_laws ⟦<Self as Sequence>⟧ ⟦<<Self as Sequence>::Fields as Fields>⟧ (tt, only_tag 162 _ refl) };

    fn starts(octet: u8) -> bool {
        octet == SEQUENCE
    }

    fn write(&self, alloc: Global, out: &mut Vec<u8>) -> Result<(), AllocError> {
        write_sequence(alloc, &field_refs!(self; data_type, data_value), out)
    }
}

impl Der for KerbErrorData {
    fn read_element(alloc: Global, tag: u8, content: &[u8]) -> Result<Self, Asn1DerError> {
        read_sequence(alloc, tag, content)
    }
}

impl DerSequence for KerbErrorData {
    ghost is_sequence = { λ v. (_, refl) };
}

//! Last requests.

ghost use Rattle.std.specs.Prelude.{◌==◌, ◌++◌, refl};
ghost use Rattle.krb_der.specs.Asn1.{explicit, generalized_time, integer, sequence};
ghost use Rattle.krb_der.specs.FieldErrors.{sequence_error};
ghost use Rattle.krb_der.specs.FieldErrorLaws.{sequence_error_laws};
ghost use Rattle.krb_der.specs.SequenceLaws.{one_value_of, values_of};
ghost use Rattle.krb_der.specs.TlvLaws.{tagged_element};

use super::KerberosTime;
use krb_der::composite::{Fields, SEQUENCE, Sequence, read_sequence, write_sequence};
use krb_der::{
    Asn1DerError, Asn1SequenceOf, Der, DerEncode, DerSequence, ExplicitContextTag0,
    ExplicitContextTag1, IntegerAsn1, field_refs,
};
use std::alloc::{AllocError, Global};

/// The time of one kind of last request (RFC 4120, 5.4.2).
///
/// ```text
/// SEQUENCE {
///     lr-type  [0] Int32,
///     lr-value [1] KerberosTime
/// }
/// ```
#[derive(Debug, Drop, PartialEq, Eq)]
pub struct LastReqInner {
    /// Which request it was; below zero, at this server alone.
    pub lr_type: ExplicitContextTag0<IntegerAsn1>,
    /// When it was.
    pub lr_value: ExplicitContextTag1<KerberosTime>,
}

impl Sequence for LastReqInner {
    type Fields = (
        ExplicitContextTag0<IntegerAsn1>,
        ExplicitContextTag1<KerberosTime>,
    );

    ghost fields = { λ v. (v.lr_type, v.lr_value) };

    ghost with_fields = { λ f. record { lr_type = f.0; lr_value = f.1 } };

    fn from_fields((lr_type, lr_value): Self::Fields) -> Self {
        LastReqInner { lr_type, lr_value }
    }
}

impl DerEncode for LastReqInner {
    ghost enc = { λ v. sequence (explicit 0 (integer v.lr_type) ++ explicit 1 (generalized_time v.lr_value)) };

    ghost is_value = { values_of ⟦<Self as Sequence>⟧ ⟦<<Self as Sequence>::Fields as Fields>⟧ };

    ghost first = { λ t. t == 48 };

    ghost is_element = { λ v h. tagged_element 48 _ };

    ghost one_value = { one_value_of ⟦<Self as Sequence>⟧ ⟦<<Self as Sequence>::Fields as Fields>⟧ (λ v. refl) (tt, tt) };

    ghost error = { sequence_error ⟦<<Self as Sequence>::Fields as Fields>⟧ };

    ghost error_laws = { sequence_error_laws ⟦<Self as Sequence>⟧ ⟦<<Self as Sequence>::Fields as Fields>⟧ (tt, tt) };

    fn starts(octet: u8) -> bool {
        octet == SEQUENCE
    }

    fn write(&self, alloc: Global, out: &mut Vec<u8>) -> Result<(), AllocError> {
        write_sequence(alloc, &field_refs!(self; lr_type, lr_value), out)
    }
}

impl Der for LastReqInner {
    fn read_element(alloc: Global, tag: u8, content: &[u8]) -> Result<Self, Asn1DerError> {
        read_sequence(alloc, tag, content)
    }
}

impl DerSequence for LastReqInner {
    ghost is_sequence = { λ v. (_, refl) };
}

/// The times of the last requests of a principal (RFC 4120, 5.4.2).
///
/// ```text
/// LastReq ::= SEQUENCE OF SEQUENCE {
///     lr-type  [0] Int32,
///     lr-value [1] KerberosTime
/// }
/// ```
pub type LastReq = Asn1SequenceOf<LastReqInner>;

//! Authorization data.

ghost use Rattle.std.specs.Prelude.{◌==◌, ◌++◌, refl};
ghost use Rattle.krb_der.specs.Asn1.{explicit, integer, octet_string, sequence};
ghost use Rattle.krb_der.specs.FieldErrors.{sequence_error};
ghost use Rattle.krb_der.specs.FieldErrorLaws.{sequence_error_laws};
ghost use Rattle.krb_der.specs.SequenceLaws.{one_value_of, values_of};
ghost use Rattle.krb_der.specs.TlvLaws.{tagged_element};

use krb_der::composite::{Fields, SEQUENCE, Sequence, read_sequence, write_sequence};
use krb_der::{
    Asn1DerError, Asn1SequenceOf, Der, DerEncode, DerSequence, ExplicitContextTag0,
    ExplicitContextTag1, IntegerAsn1, OctetStringAsn1, field_refs,
};
use std::alloc::{AllocError, Global};

/// One element of authorization data (RFC 4120, 5.2.6).
///
/// ```text
/// SEQUENCE {
///     ad-type [0] Int32,
///     ad-data [1] OCTET STRING
/// }
/// ```
#[derive(Debug, Drop, PartialEq, Eq)]
pub struct AuthorizationDataInner {
    /// What kind of data they are.
    pub ad_type: ExplicitContextTag0<IntegerAsn1>,
    /// The data.
    pub ad_data: ExplicitContextTag1<OctetStringAsn1>,
}

impl Sequence for AuthorizationDataInner {
    type Fields = (
        ExplicitContextTag0<IntegerAsn1>,
        ExplicitContextTag1<OctetStringAsn1>,
    );

    ghost fields = { λ v. (v.ad_type, v.ad_data) };

    ghost with_fields = { λ f. record { ad_type = f.0; ad_data = f.1 } };

    fn from_fields((ad_type, ad_data): Self::Fields) -> Self {
        AuthorizationDataInner { ad_type, ad_data }
    }
}

impl DerEncode for AuthorizationDataInner {
    ghost enc = { λ v. sequence (explicit 0 (integer v.ad_type) ++ explicit 1 (octet_string v.ad_data)) };

    ghost is_value = { values_of ⟦<Self as Sequence>⟧ ⟦<<Self as Sequence>::Fields as Fields>⟧ };

    ghost first = { λ t. t == 48 };

    ghost is_element = { λ v h. tagged_element 48 _ };

    ghost one_value = { one_value_of ⟦<Self as Sequence>⟧ ⟦<<Self as Sequence>::Fields as Fields>⟧ (λ v. refl) (tt, tt) };

    ghost error = { sequence_error ⟦<<Self as Sequence>::Fields as Fields>⟧ };

    ghost error_laws = { sequence_error_laws ⟦<Self as Sequence>⟧ ⟦<<Self as Sequence>::Fields as Fields>⟧ (tt, tt) };

    fn starts(octet: u8) -> bool {
        octet == SEQUENCE
    }

    fn write(&self, alloc: Global, out: &mut Vec<u8>) -> Result<(), AllocError> {
        write_sequence(alloc, &field_refs!(self; ad_type, ad_data), out)
    }
}

impl Der for AuthorizationDataInner {
    fn read_element(alloc: Global, tag: u8, content: &[u8]) -> Result<Self, Asn1DerError> {
        read_sequence(alloc, tag, content)
    }
}

impl DerSequence for AuthorizationDataInner {
    ghost is_sequence = { λ v. (_, refl) };
}

/// Authorization data (RFC 4120, 5.2.6).
///
/// ```text
/// AuthorizationData ::= SEQUENCE OF SEQUENCE {
///     ad-type [0] Int32,
///     ad-data [1] OCTET STRING
/// }
/// ```
pub type AuthorizationData = Asn1SequenceOf<AuthorizationDataInner>;

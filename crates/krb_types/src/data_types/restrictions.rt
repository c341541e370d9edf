//! Restrictions of a ticket.

ghost use Rattle.std.specs.Prelude.{◌==◌, ◌++◌, refl};
ghost use Rattle.krb_der.specs.Asn1.{explicit, integer, octet_string, sequence};
ghost use Rattle.krb_der.specs.FieldErrors.{sequence_error};
ghost use Rattle.krb_der.specs.FieldErrorLaws.{sequence_error_laws};
ghost use Rattle.krb_der.specs.SequenceLaws.{one_value_of, values_of};
ghost use Rattle.krb_der.specs.TlvLaws.{tagged_element};

use krb_der::composite::{Fields, SEQUENCE, Sequence, read_sequence, write_sequence};
use krb_der::{
    Asn1DerError, Der, DerEncode, DerSequence, ExplicitContextTag0, ExplicitContextTag1,
    IntegerAsn1, OctetStringAsn1, field_refs,
};
use std::alloc::{AllocError, Global};

/// A restriction of the client, in authorization data (MS-KILE, 2.2.6).
///
/// ```text
/// KERB-AD-RESTRICTION-ENTRY ::= SEQUENCE {
///     restriction-type [0] Int32,
///     restriction      [1] OCTET STRING
/// }
/// ```
#[derive(Debug, Drop, PartialEq, Eq)]
pub struct KerbAdRestrictionEntry {
    /// What kind of restriction it is; 0 is LSAP_TOKEN_INFO_INTEGRITY.
    pub restriction_type: ExplicitContextTag0<IntegerAsn1>,
    /// The restriction, as its kind lays it out.
    pub restriction: ExplicitContextTag1<OctetStringAsn1>,
}

impl Sequence for KerbAdRestrictionEntry {
    type Fields = (
        ExplicitContextTag0<IntegerAsn1>,
        ExplicitContextTag1<OctetStringAsn1>,
    );

    ghost fields = { λ v. (v.restriction_type, v.restriction) };

    ghost with_fields = { λ f. record { restriction_type = f.0; restriction = f.1 } };

    fn from_fields((restriction_type, restriction): Self::Fields) -> Self {
        KerbAdRestrictionEntry {
            restriction_type,
            restriction,
        }
    }
}

impl DerEncode for KerbAdRestrictionEntry {
    ghost enc = { λ v. sequence (explicit 0 (integer v.restriction_type) ++ explicit 1 (octet_string v.restriction)) };

    ghost is_value = { values_of ⟦<Self as Sequence>⟧ ⟦<<Self as Sequence>::Fields as Fields>⟧ };

    ghost first = { λ t. t == 48 };

    ghost is_element = { λ v h. tagged_element 48 _ };

    ghost one_value = { one_value_of ⟦<Self as Sequence>⟧ ⟦<<Self as Sequence>::Fields as Fields>⟧ (λ v. refl) (tt, tt) };

    ghost error = { sequence_error ⟦<<Self as Sequence>::Fields as Fields>⟧ };

    ghost error_laws = { sequence_error_laws ⟦<Self as Sequence>⟧ ⟦<<Self as Sequence>::Fields as Fields>⟧ (tt, tt) };

    fn starts(octet: u8) -> bool {
        octet == SEQUENCE
    }

    fn write(&self, alloc: Global, out: &mut Vec<u8>) -> Result<(), AllocError> {
        write_sequence(
            alloc,
            &field_refs!(self; restriction_type, restriction),
            out,
        )
    }
}

impl Der for KerbAdRestrictionEntry {
    fn read_element(alloc: Global, tag: u8, content: &[u8]) -> Result<Self, Asn1DerError> {
        read_sequence(alloc, tag, content)
    }
}

impl DerSequence for KerbAdRestrictionEntry {
    ghost is_sequence = { λ v. (_, refl) };
}

//! Encryption types that a KDC offers.

ghost use Rattle.std.specs.Prelude.{◌==◌, ◌++◌, refl};
ghost use Rattle.krb_der.specs.Asn1.{explicit, general_string, integer, octet_string, sequence};
ghost use Rattle.krb_der.specs.Encoding.{optional};
ghost use Rattle.krb_der.specs.FieldErrors.{sequence_error};
ghost use Rattle.krb_der.specs.FieldErrorLaws.{sequence_error_laws};
ghost use Rattle.krb_der.specs.SequenceLaws.{one_value_of, values_of};
ghost use Rattle.krb_der.specs.TlvLaws.{only_tag, tagged_element};

use crate::data_types::KerberosStringAsn1;
use krb_der::composite::{Fields, SEQUENCE, Sequence, read_sequence, write_sequence};
use krb_der::{
    Asn1DerError, Asn1SequenceOf, Der, DerEncode, DerSequence, ExplicitContextTag0,
    ExplicitContextTag1, ExplicitContextTag2, IntegerAsn1, OctetStringAsn1, Optional, field_refs,
};
use std::alloc::{AllocError, Global};

/// An encryption type, and how a password becomes its key (RFC 4120, 5.2.7.5).
///
/// ```text
/// ETYPE-INFO2-ENTRY ::= SEQUENCE {
///     etype     [0] Int32,
///     salt      [1] KerberosString OPTIONAL,
///     s2kparams [2] OCTET STRING OPTIONAL
/// }
/// ```
#[derive(Debug, Drop, PartialEq, Eq)]
pub struct EtypeInfo2Entry {
    /// The encryption type.
    pub etype: ExplicitContextTag0<IntegerAsn1>,
    /// The salt of the password; where absent, the default one.
    pub salt: Optional<Option<ExplicitContextTag1<KerberosStringAsn1>>>,
    /// The parameters that make a key of the password, as the encryption type lays them out.
    pub s2kparams: Optional<Option<ExplicitContextTag2<OctetStringAsn1>>>,
}

impl Sequence for EtypeInfo2Entry {
    type Fields = (
        ExplicitContextTag0<IntegerAsn1>,
        Optional<Option<ExplicitContextTag1<KerberosStringAsn1>>>,
        Optional<Option<ExplicitContextTag2<OctetStringAsn1>>>,
    );

    ghost fields = { λ v. (v.etype, v.salt, v.s2kparams) };

    ghost with_fields = { λ f. record { etype = f.0; salt = f.1; s2kparams = f.2 } };

    fn from_fields((etype, salt, s2kparams): Self::Fields) -> Self {
        EtypeInfo2Entry {
            etype,
            salt,
            s2kparams,
        }
    }
}

impl DerEncode for EtypeInfo2Entry {
    ghost enc = { λ v. sequence (explicit 0 (integer v.etype) ++ optional (λ x. explicit 1 (general_string x)) v.salt.0
        ++ optional (λ x. explicit 2 (octet_string x)) v.s2kparams.0) };

    ghost is_value = { values_of ⟦<Self as Sequence>⟧ ⟦<<Self as Sequence>::Fields as Fields>⟧ };

    ghost first = { λ t. t == 48 };

    ghost is_element = { λ v h. tagged_element 48 _ };

    ghost one_value = { one_value_of ⟦<Self as Sequence>⟧ ⟦<<Self as Sequence>::Fields as Fields>⟧ (λ v. refl) (tt, only_tag 161 _ refl, only_tag 162 _ refl) };

    ghost error = { sequence_error ⟦<<Self as Sequence>::Fields as Fields>⟧ };

    ghost error_laws = { sequence_error_laws ⟦<Self as Sequence>⟧ ⟦<<Self as Sequence>::Fields as Fields>⟧ (tt, only_tag 161 _ refl, only_tag 162 _ refl) };

    fn starts(octet: u8) -> bool {
        octet == SEQUENCE
    }

    fn write(&self, alloc: Global, out: &mut Vec<u8>) -> Result<(), AllocError> {
        write_sequence(alloc, &field_refs!(self; etype, salt, s2kparams), out)
    }
}

impl Der for EtypeInfo2Entry {
    fn read_element(alloc: Global, tag: u8, content: &[u8]) -> Result<Self, Asn1DerError> {
        read_sequence(alloc, tag, content)
    }
}

impl DerSequence for EtypeInfo2Entry {
    ghost is_sequence = { λ v. (_, refl) };
}

/// The encryption types that a KDC offers a client, the preferred one first (RFC 4120, 5.2.7.5).
///
/// ```text
/// ETYPE-INFO2 ::= SEQUENCE SIZE (1..MAX) OF ETYPE-INFO2-ENTRY
/// ```
///
/// An empty list is read too.
pub type EtypeInfo2 = Asn1SequenceOf<EtypeInfo2Entry>;

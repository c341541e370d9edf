//! Names.

ghost use Rattle.std.specs.Prelude.{◌==◌, ◌++◌, refl};
ghost use Rattle.krb_der.specs.Asn1.{explicit, general_string, integer, sequence, sequence_of};
ghost use Rattle.krb_der.specs.FieldErrors.{sequence_error};
ghost use Rattle.krb_der.specs.FieldErrorLaws.{sequence_error_laws};
ghost use Rattle.krb_der.specs.SequenceLaws.{one_value_of, values_of};
ghost use Rattle.krb_der.specs.TlvLaws.{tagged_element};

use krb_der::composite::{Fields, SEQUENCE, Sequence, read_sequence, write_sequence};
use krb_der::{
    Asn1DerError, Asn1SequenceOf, Der, DerEncode, DerSequence, ExplicitContextTag0,
    ExplicitContextTag1, GeneralStringAsn1, IntegerAsn1, field_refs,
};
use std::alloc::{AllocError, Global};

/// A text (RFC 4120, 5.2.1).
///
/// ```text
/// KerberosString ::= GeneralString (IA5String)
/// ```
pub type KerberosStringAsn1 = GeneralStringAsn1;

/// The name of a realm (RFC 4120, 5.2.2).
///
/// ```text
/// Realm ::= KerberosString
/// ```
pub type Realm = KerberosStringAsn1;

/// The name of a principal within its realm (RFC 4120, 5.2.2 and 6.2).
///
/// ```text
/// PrincipalName ::= SEQUENCE {
///     name-type   [0] Int32,
///     name-string [1] SEQUENCE OF KerberosString
/// }
/// ```
#[derive(Debug, Drop, PartialEq, Eq)]
pub struct PrincipalName {
    /// What kind of name it is.
    pub name_type: ExplicitContextTag0<IntegerAsn1>,
    /// The components.
    pub name_string: ExplicitContextTag1<Asn1SequenceOf<KerberosStringAsn1>>,
}

impl Sequence for PrincipalName {
    type Fields = (
        ExplicitContextTag0<IntegerAsn1>,
        ExplicitContextTag1<Asn1SequenceOf<KerberosStringAsn1>>,
    );

    ghost fields = { λ v. (v.name_type, v.name_string) };

    ghost with_fields = { λ f. record { name_type = f.0; name_string = f.1 } };

    fn from_fields((name_type, name_string): Self::Fields) -> Self {
        PrincipalName {
            name_type,
            name_string,
        }
    }
}

impl DerEncode for PrincipalName {
    ghost enc = { λ v. sequence (explicit 0 (integer v.name_type) ++ explicit 1 (sequence_of general_string v.name_string)) };

    ghost is_value = { values_of ⟦<Self as Sequence>⟧ ⟦<<Self as Sequence>::Fields as Fields>⟧ };

    ghost first = { λ t. t == 48 };

    ghost is_element = { λ v h. tagged_element 48 _ };

    ghost one_value = { one_value_of ⟦<Self as Sequence>⟧ ⟦<<Self as Sequence>::Fields as Fields>⟧ (λ v. refl) (tt, tt) };

    ghost error = { sequence_error ⟦<<Self as Sequence>::Fields as Fields>⟧ };

    ghost error_laws = { sequence_error_laws ⟦<Self as Sequence>⟧ ⟦<<Self as Sequence>::Fields as Fields>⟧ (tt, tt) };

    fn starts(octet: u8) -> bool {
        octet == SEQUENCE
    }

    fn write(&self, alloc: Global, out: &mut Vec<u8>) -> Result<(), AllocError> {
        write_sequence(alloc, &field_refs!(self; name_type, name_string), out)
    }
}

impl Der for PrincipalName {
    fn read_element(alloc: Global, tag: u8, content: &[u8]) -> Result<Self, Asn1DerError> {
        read_sequence(alloc, tag, content)
    }
}

impl DerSequence for PrincipalName {
    ghost is_sequence = { λ v. (_, refl) };
}

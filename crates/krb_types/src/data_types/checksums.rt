//! Checksums.

ghost use Rattle.std.specs.Prelude.{◌==◌, ◌++◌, refl};
ghost use Rattle.krb_der.specs.Asn1.{explicit, integer, octet_string, sequence};
ghost use Rattle.krb_der.specs.FieldErrors.{sequence_error};
ghost use Rattle.krb_der.specs.FieldErrorLaws.{sequence_error_laws};
ghost use Rattle.krb_der.specs.SequenceLaws.{one_value_of, values_of};
ghost use Rattle.krb_der.specs.TlvLaws.{tagged_element};

use krb_der::composite::{Fields, SEQUENCE, Sequence, read_sequence, write_sequence};
use krb_der::{
    Asn1DerError, Der, DerEncode, DerSequence, ExplicitContextTag0, ExplicitContextTag1,
    IntegerAsn1, OctetStringAsn1, field_refs,
};
use std::alloc::{AllocError, Global};

/// A checksum, under a key or without one (RFC 4120, 5.2.9).
///
/// ```text
/// Checksum ::= SEQUENCE {
///     cksumtype [0] Int32,
///     checksum  [1] OCTET STRING
/// }
/// ```
#[derive(Debug, Drop, PartialEq, Eq)]
pub struct Checksum {
    /// The checksum type.
    pub cksumtype: ExplicitContextTag0<IntegerAsn1>,
    /// The octets of the checksum.
    pub checksum: ExplicitContextTag1<OctetStringAsn1>,
}

impl Sequence for Checksum {
    type Fields = (
        ExplicitContextTag0<IntegerAsn1>,
        ExplicitContextTag1<OctetStringAsn1>,
    );

    ghost fields = { λ v. (v.cksumtype, v.checksum) };

    ghost with_fields = { λ f. record { cksumtype = f.0; checksum = f.1 } };

    fn from_fields((cksumtype, checksum): Self::Fields) -> Self {
        Checksum {
            cksumtype,
            checksum,
        }
    }
}

impl DerEncode for Checksum {
    ghost enc = { λ v. sequence (explicit 0 (integer v.cksumtype) ++ explicit 1 (octet_string v.checksum)) };

    ghost is_value = { values_of ⟦<Self as Sequence>⟧ ⟦<<Self as Sequence>::Fields as Fields>⟧ };

    ghost first = { λ t. t == 48 };

    ghost is_element = { λ v h. tagged_element 48 _ };

    ghost one_value = { one_value_of ⟦<Self as Sequence>⟧ ⟦<<Self as Sequence>::Fields as Fields>⟧ (λ v. refl) (tt, tt) };

    ghost error = { sequence_error ⟦<<Self as Sequence>::Fields as Fields>⟧ };

    ghost error_laws = { sequence_error_laws ⟦<Self as Sequence>⟧ ⟦<<Self as Sequence>::Fields as Fields>⟧ (tt, tt) };

    fn starts(octet: u8) -> bool {
        octet == SEQUENCE
    }

    fn write(&self, alloc: Global, out: &mut Vec<u8>) -> Result<(), AllocError> {
        write_sequence(alloc, &field_refs!(self; cksumtype, checksum), out)
    }
}

impl Der for Checksum {
    fn read_element(alloc: Global, tag: u8, content: &[u8]) -> Result<Self, Asn1DerError> {
        read_sequence(alloc, tag, content)
    }
}

impl DerSequence for Checksum {
    ghost is_sequence = { λ v. (_, refl) };
}

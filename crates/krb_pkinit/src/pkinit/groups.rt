//! Diffie-Hellman keys and their groups.

ghost use Rattle.std.specs.Prelude.{◌==◌, ◌++◌, refl};
ghost use Rattle.krb_der.specs.Asn1.{bit_string, integer, sequence};
ghost use Rattle.krb_der.specs.Encoding.{optional};
ghost use Rattle.krb_der.specs.FieldErrors.{sequence_error};
ghost use Rattle.krb_der.specs.FieldErrorLaws.{sequence_error_laws};
ghost use Rattle.krb_der.specs.SequenceLaws.{one_value_of, values_of};
ghost use Rattle.krb_der.specs.TlvLaws.{only_tag, tagged_element};
ghost use Rattle.krb_der_x509.specs.ObjectIdentifier.{object_identifier};

use super::validation::ValidationParams;
use krb_der::composite::{Fields, SEQUENCE, Sequence, read_sequence, write_sequence};
use krb_der::{Asn1DerError, BitStringAsn1, Der, DerEncode, DerSequence, IntegerAsn1, Optional};
use krb_der_x509::ObjectIdentifierAsn1;
use krb_der_x509::untagged::{Field, FieldRef};
use std::alloc::{AllocError, Global};

/// The group of a Diffie-Hellman key (RFC 3279, 2.3.3). The first octet of an optional field
/// distinguishes it from what follows.
///
/// ```text
/// DomainParameters ::= SEQUENCE {
///     p               INTEGER,
///     g               INTEGER,
///     q               INTEGER,
///     j               INTEGER OPTIONAL,
///     validationParms ValidationParms OPTIONAL
/// }
/// ```
#[derive(Debug, Drop, PartialEq, Eq)]
pub struct DhDomainParameters {
    /// The odd prime p = jq + 1.
    pub p: IntegerAsn1,
    /// The generator.
    pub g: IntegerAsn1,
    /// The factor of p - 1.
    pub q: IntegerAsn1,
    /// The factor of the subgroup.
    pub j: Optional<Option<IntegerAsn1>>,
    /// How the group was generated.
    pub validation_params: Optional<Option<ValidationParams>>,
}

impl Sequence for DhDomainParameters {
    type Fields = (
        Field<IntegerAsn1>,
        Field<IntegerAsn1>,
        Field<IntegerAsn1>,
        Optional<Option<IntegerAsn1>>,
        Optional<Option<ValidationParams>>,
    );

    ghost fields = { λ v. (v.p, v.g, v.q, v.j, v.validation_params) };

    ghost with_fields = { λ f. record { p = f.0; g = f.1; q = f.2; j = f.3; validation_params = f.4 } };

    fn from_fields((p, g, q, j, validation_params): Self::Fields) -> Self {
        DhDomainParameters {
            p: p.0,
            g: g.0,
            q: q.0,
            j,
            validation_params,
        }
    }
}

impl DerEncode for DhDomainParameters {
    ghost enc = { λ v. sequence (integer v.p ++ integer v.g ++ integer v.q ++ optional (λ x. integer x) v.j.0
        ++ optional (λ x. ⟦<ValidationParams as DerEncode>⟧.enc x) v.validation_params.0) };

    ghost is_value = { values_of ⟦<Self as Sequence>⟧ ⟦<<Self as Sequence>::Fields as Fields>⟧ };

    ghost first = { λ t. t == 48 };

    ghost is_element = { λ v h. tagged_element 48 _ };

    ghost one_value = { one_value_of ⟦<Self as Sequence>⟧ ⟦<<Self as Sequence>::Fields as Fields>⟧ (λ v. refl)
        (tt, tt, tt, only_tag 2 _ refl, only_tag 48 _ refl) };

    ghost error = { sequence_error ⟦<<Self as Sequence>::Fields as Fields>⟧ };

    ghost error_laws = { sequence_error_laws ⟦<Self as Sequence>⟧ ⟦<<Self as Sequence>::Fields as Fields>⟧
        (tt, tt, tt, only_tag 2 _ refl, only_tag 48 _ refl) };

    fn starts(octet: u8) -> bool {
        octet == SEQUENCE
    }

    fn write(&self, alloc: Global, out: &mut Vec<u8>) -> Result<(), AllocError> {
        write_sequence(
            alloc,
            &(
                (
                    ((FieldRef(&self.p), FieldRef(&self.g)), FieldRef(&self.q)),
                    &self.j,
                ),
                &self.validation_params,
            ),
            out,
        )
    }
}

impl Der for DhDomainParameters {
    fn read_element(alloc: Global, tag: u8, content: &[u8]) -> Result<Self, Asn1DerError> {
        read_sequence(alloc, tag, content)
    }
}

impl DerSequence for DhDomainParameters {
    ghost is_sequence = { λ v. (_, refl) };
}

/// The algorithm of a Diffie-Hellman key (RFC 5280, 4.1.1.2), with the parameters of RFC 3279, 2.3.3.
///
/// ```text
/// AlgorithmIdentifier ::= SEQUENCE {
///     algorithm  OBJECT IDENTIFIER,
///     parameters DomainParameters
/// }
/// ```
#[derive(Debug, Drop, PartialEq, Eq)]
pub struct DhReqKeyInfo {
    /// The algorithm, which is 1.2.840.10046.2.1.
    pub identifier: ObjectIdentifierAsn1,
    /// The group.
    pub key_info: DhDomainParameters,
}

impl Sequence for DhReqKeyInfo {
    type Fields = (Field<ObjectIdentifierAsn1>, Field<DhDomainParameters>);

    ghost fields = { λ v. (v.identifier, v.key_info) };

    ghost with_fields = { λ f. record { identifier = f.0; key_info = f.1 } };

    fn from_fields((identifier, key_info): Self::Fields) -> Self {
        DhReqKeyInfo {
            identifier: identifier.0,
            key_info: key_info.0,
        }
    }
}

impl DerEncode for DhReqKeyInfo {
    ghost enc = { λ v. sequence (object_identifier v.identifier ++ ⟦<DhDomainParameters as DerEncode>⟧.enc v.key_info) };

    ghost is_value = { values_of ⟦<Self as Sequence>⟧ ⟦<<Self as Sequence>::Fields as Fields>⟧ };

    ghost first = { λ t. t == 48 };

    ghost is_element = { λ v h. tagged_element 48 _ };

    ghost one_value = { one_value_of ⟦<Self as Sequence>⟧ ⟦<<Self as Sequence>::Fields as Fields>⟧ (λ v. refl) (tt, tt) };

    ghost error = { sequence_error ⟦<<Self as Sequence>::Fields as Fields>⟧ };

    ghost error_laws = { sequence_error_laws ⟦<Self as Sequence>⟧ ⟦<<Self as Sequence>::Fields as Fields>⟧ (tt, tt) };

    fn starts(octet: u8) -> bool {
        octet == SEQUENCE
    }

    fn write(&self, alloc: Global, out: &mut Vec<u8>) -> Result<(), AllocError> {
        write_sequence(
            alloc,
            &(FieldRef(&self.identifier), FieldRef(&self.key_info)),
            out,
        )
    }
}

impl Der for DhReqKeyInfo {
    fn read_element(alloc: Global, tag: u8, content: &[u8]) -> Result<Self, Asn1DerError> {
        read_sequence(alloc, tag, content)
    }
}

impl DerSequence for DhReqKeyInfo {
    ghost is_sequence = { λ v. (_, refl) };
}

/// The Diffie-Hellman key of a client (RFC 4556, 3.2.1; RFC 5280, 4.1.2.7).
///
/// ```text
/// SubjectPublicKeyInfo ::= SEQUENCE {
///     algorithm        AlgorithmIdentifier,
///     subjectPublicKey BIT STRING
/// }
/// ```
#[derive(Debug, Drop, PartialEq, Eq)]
pub struct DhReqInfo {
    /// The algorithm and the group.
    pub key_info: DhReqKeyInfo,
    /// The encoding of the public key, an INTEGER.
    pub key_value: BitStringAsn1,
}

impl Sequence for DhReqInfo {
    type Fields = (Field<DhReqKeyInfo>, Field<BitStringAsn1>);

    ghost fields = { λ v. (v.key_info, v.key_value) };

    ghost with_fields = { λ f. record { key_info = f.0; key_value = f.1 } };

    fn from_fields((key_info, key_value): Self::Fields) -> Self {
        DhReqInfo {
            key_info: key_info.0,
            key_value: key_value.0,
        }
    }
}

impl DerEncode for DhReqInfo {
    ghost enc = { λ v. sequence (⟦<DhReqKeyInfo as DerEncode>⟧.enc v.key_info ++ bit_string v.key_value) };

    ghost is_value = { values_of ⟦<Self as Sequence>⟧ ⟦<<Self as Sequence>::Fields as Fields>⟧ };

    ghost first = { λ t. t == 48 };

    ghost is_element = { λ v h. tagged_element 48 _ };

    ghost one_value = { one_value_of ⟦<Self as Sequence>⟧ ⟦<<Self as Sequence>::Fields as Fields>⟧ (λ v. refl) (tt, tt) };

    ghost error = { sequence_error ⟦<<Self as Sequence>::Fields as Fields>⟧ };

    ghost error_laws = { sequence_error_laws ⟦<Self as Sequence>⟧ ⟦<<Self as Sequence>::Fields as Fields>⟧ (tt, tt) };

    fn starts(octet: u8) -> bool {
        octet == SEQUENCE
    }

    fn write(&self, alloc: Global, out: &mut Vec<u8>) -> Result<(), AllocError> {
        write_sequence(
            alloc,
            &(FieldRef(&self.key_info), FieldRef(&self.key_value)),
            out,
        )
    }
}

impl Der for DhReqInfo {
    fn read_element(alloc: Global, tag: u8, content: &[u8]) -> Result<Self, Asn1DerError> {
        read_sequence(alloc, tag, content)
    }
}

impl DerSequence for DhReqInfo {
    ghost is_sequence = { λ v. (_, refl) };
}

//! Algorithm identifiers and public keys of X.509 (RFC 5280).

ghost use Rattle.std.specs.Prelude.{◌==◌, ◌++◌, refl};
ghost use Rattle.krb_der.specs.Asn1.{bit_string, sequence};
ghost use Rattle.krb_der.specs.Encoding.{optional};
ghost use Rattle.krb_der.specs.FieldErrors.{sequence_error};
ghost use Rattle.krb_der.specs.FieldErrorLaws.{sequence_error_laws};
ghost use Rattle.krb_der.specs.SequenceLaws.{one_value_of, values_of};
ghost use Rattle.krb_der.specs.TlvLaws.{tagged_element};
ghost use Rattle.krb_der_x509.specs.ObjectIdentifier.{object_identifier};

use crate::object_identifier::ObjectIdentifierAsn1;
use crate::raw_value::Asn1RawDer;
use crate::untagged::{Field, FieldRef};
use krb_der::composite::{Fields, SEQUENCE, Sequence, read_sequence, write_sequence};
use krb_der::{Asn1DerError, BitStringAsn1, Der, DerEncode, DerSequence, Optional};
use std::alloc::{AllocError, Global};

/// Which algorithm is meant, and with which parameters (RFC 5280, 4.1.1.2).
///
/// ```text
/// AlgorithmIdentifier ::= SEQUENCE {
///     algorithm  OBJECT IDENTIFIER,
///     parameters ANY DEFINED BY algorithm OPTIONAL
/// }
/// ```
#[derive(Debug, Drop, PartialEq, Eq)]
pub struct AlgorithmIdentifier {
    /// The algorithm.
    pub algorithm: ObjectIdentifierAsn1,
    /// Its parameters, which are not read further.
    pub parameters: Optional<Option<Asn1RawDer>>,
}

impl Sequence for AlgorithmIdentifier {
    type Fields = (Field<ObjectIdentifierAsn1>, Optional<Option<Asn1RawDer>>);

    ghost fields = { λ v. (v.algorithm, v.parameters) };

    ghost with_fields = { λ f. record { algorithm = f.0; parameters = f.1 } };

    fn from_fields((algorithm, parameters): Self::Fields) -> Self {
        AlgorithmIdentifier {
            algorithm: algorithm.0,
            parameters,
        }
    }
}

impl DerEncode for AlgorithmIdentifier {
    ghost enc = { λ v. sequence (object_identifier v.algorithm ++ optional (λ x. x) v.parameters.0) };

    ghost is_value = { values_of ⟦<Self as Sequence>⟧ ⟦<<Self as Sequence>::Fields as Fields>⟧ };

    ghost first = { λ t. t == 48 };

    ghost is_element = { λ v h. tagged_element 48 _ };

    ghost one_value = { one_value_of ⟦<Self as Sequence>⟧ ⟦<<Self as Sequence>::Fields as Fields>⟧ (λ v. refl) (tt, λ t h. refl) };

    ghost error = { sequence_error ⟦<<Self as Sequence>::Fields as Fields>⟧ };

    ghost error_laws = { sequence_error_laws ⟦<Self as Sequence>⟧ ⟦<<Self as Sequence>::Fields as Fields>⟧ (tt, λ t h. refl) };

    fn starts(octet: u8) -> bool {
        octet == SEQUENCE
    }

    fn write(&self, alloc: Global, out: &mut Vec<u8>) -> Result<(), AllocError> {
        write_sequence(alloc, &(FieldRef(&self.algorithm), &self.parameters), out)
    }
}

impl Der for AlgorithmIdentifier {
    fn read_element(alloc: Global, tag: u8, content: &[u8]) -> Result<Self, Asn1DerError> {
        read_sequence(alloc, tag, content)
    }
}

impl DerSequence for AlgorithmIdentifier {
    ghost is_sequence = { λ v. (_, refl) };
}

/// A public key, and the algorithm that it is of (RFC 5280, 4.1.2.7).
///
/// ```text
/// SubjectPublicKeyInfo ::= SEQUENCE {
///     algorithm        AlgorithmIdentifier,
///     subjectPublicKey BIT STRING
/// }
/// ```
#[derive(Debug, Drop, PartialEq, Eq)]
pub struct SubjectPublicKeyInfo {
    /// The algorithm.
    pub algorithm: AlgorithmIdentifier,
    /// The key, encoded as the algorithm says. It is not read further.
    pub subject_public_key: BitStringAsn1,
}

impl Sequence for SubjectPublicKeyInfo {
    type Fields = (Field<AlgorithmIdentifier>, Field<BitStringAsn1>);

    ghost fields = { λ v. (v.algorithm, v.subject_public_key) };

    ghost with_fields = { λ f. record { algorithm = f.0; subject_public_key = f.1 } };

    fn from_fields((algorithm, subject_public_key): Self::Fields) -> Self {
        SubjectPublicKeyInfo {
            algorithm: algorithm.0,
            subject_public_key: subject_public_key.0,
        }
    }
}

impl DerEncode for SubjectPublicKeyInfo {
    ghost enc = { λ v. sequence (⟦<AlgorithmIdentifier as DerEncode>⟧.enc v.algorithm ++ bit_string v.subject_public_key) };

    ghost is_value = { values_of ⟦<Self as Sequence>⟧ ⟦<<Self as Sequence>::Fields as Fields>⟧ };

    ghost first = { λ t. t == 48 };

    ghost is_element = { λ v h. tagged_element 48 _ };

    ghost one_value = { one_value_of ⟦<Self as Sequence>⟧ ⟦<<Self as Sequence>::Fields as Fields>⟧ (λ v. refl) (tt, tt) };

    ghost error = { sequence_error ⟦<<Self as Sequence>::Fields as Fields>⟧ };

    ghost error_laws = { sequence_error_laws ⟦<Self as Sequence>⟧ ⟦<<Self as Sequence>::Fields as Fields>⟧ (tt, tt) };

    fn starts(octet: u8) -> bool {
        octet == SEQUENCE
    }

    fn write(&self, alloc: Global, out: &mut Vec<u8>) -> Result<(), AllocError> {
        write_sequence(
            alloc,
            &(
                FieldRef(&self.algorithm),
                FieldRef(&self.subject_public_key),
            ),
            out,
        )
    }
}

impl Der for SubjectPublicKeyInfo {
    fn read_element(alloc: Global, tag: u8, content: &[u8]) -> Result<Self, Asn1DerError> {
        read_sequence(alloc, tag, content)
    }
}

impl DerSequence for SubjectPublicKeyInfo {
    ghost is_sequence = { λ v. (_, refl) };
}

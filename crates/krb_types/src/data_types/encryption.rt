//! Keys and ciphertexts.

ghost use Rattle.std.specs.Prelude.{◌==◌, ◌++◌, refl};
ghost use Rattle.krb_der.specs.Asn1.{explicit, integer, octet_string, sequence};
ghost use Rattle.krb_der.specs.Encoding.{optional};
ghost use Rattle.krb_der.specs.FieldErrors.{sequence_error};
ghost use Rattle.krb_der.specs.FieldErrorLaws.{sequence_error_laws};
ghost use Rattle.krb_der.specs.SequenceLaws.{one_value_of, values_of};
ghost use Rattle.krb_der.specs.TlvLaws.{only_tag, tagged_element};

use krb_der::composite::{Fields, SEQUENCE, Sequence, read_sequence, write_sequence};
use krb_der::{
    Asn1DerError, Der, DerEncode, DerSequence, ExplicitContextTag0, ExplicitContextTag1,
    ExplicitContextTag2, IntegerAsn1, OctetStringAsn1, Optional, field_refs,
};
use std::alloc::{AllocError, Global};

/// A ciphertext (RFC 4120, 5.2.9).
///
/// ```text
/// EncryptedData ::= SEQUENCE {
///     etype  [0] Int32,
///     kvno   [1] UInt32 OPTIONAL,
///     cipher [2] OCTET STRING
/// }
/// ```
#[derive(Debug, Drop, PartialEq, Eq)]
pub struct EncryptedData {
    /// The encryption type of the key.
    pub etype: ExplicitContextTag0<IntegerAsn1>,
    /// The version number of the key.
    pub kvno: Optional<Option<ExplicitContextTag1<IntegerAsn1>>>,
    /// The ciphertext.
    pub cipher: ExplicitContextTag2<OctetStringAsn1>,
}

impl Sequence for EncryptedData {
    type Fields = (
        ExplicitContextTag0<IntegerAsn1>,
        Optional<Option<ExplicitContextTag1<IntegerAsn1>>>,
        ExplicitContextTag2<OctetStringAsn1>,
    );

    ghost fields = { λ v. (v.etype, v.kvno, v.cipher) };

    ghost with_fields = { λ f. record { etype = f.0; kvno = f.1; cipher = f.2 } };

    fn from_fields((etype, kvno, cipher): Self::Fields) -> Self {
        EncryptedData {
            etype,
            kvno,
            cipher,
        }
    }
}

impl DerEncode for EncryptedData {
    ghost enc = { λ v. sequence (explicit 0 (integer v.etype) ++ optional (λ x. explicit 1 (integer x)) v.kvno.0 ++ explicit 2 (octet_string v.cipher)) };

    ghost is_value = { values_of ⟦<Self as Sequence>⟧ ⟦<<Self as Sequence>::Fields as Fields>⟧ };

    ghost first = { λ t. t == 48 };

    ghost is_element = { λ v h. tagged_element 48 _ };

    ghost one_value = { one_value_of ⟦<Self as Sequence>⟧ ⟦<<Self as Sequence>::Fields as Fields>⟧ (λ v. refl) (tt, only_tag 161 _ refl, tt) };

    ghost error = { sequence_error ⟦<<Self as Sequence>::Fields as Fields>⟧ };

    ghost error_laws = { sequence_error_laws ⟦<Self as Sequence>⟧ ⟦<<Self as Sequence>::Fields as Fields>⟧ (tt, only_tag 161 _ refl, tt) };

    fn starts(octet: u8) -> bool {
        octet == SEQUENCE
    }

    fn write(&self, alloc: Global, out: &mut Vec<u8>) -> Result<(), AllocError> {
        write_sequence(alloc, &field_refs!(self; etype, kvno, cipher), out)
    }
}

impl Der for EncryptedData {
    fn read_element(alloc: Global, tag: u8, content: &[u8]) -> Result<Self, Asn1DerError> {
        read_sequence(alloc, tag, content)
    }
}

impl DerSequence for EncryptedData {
    ghost is_sequence = { λ v. (_, refl) };
}

/// A key (RFC 4120, 5.2.9).
///
/// ```text
/// EncryptionKey ::= SEQUENCE {
///     keytype  [0] Int32,
///     keyvalue [1] OCTET STRING
/// }
/// ```
#[derive(Debug, Drop, PartialEq, Eq)]
pub struct EncryptionKey {
    /// The encryption type that the key is for.
    pub key_type: ExplicitContextTag0<IntegerAsn1>,
    /// The octets of the key.
    pub key_value: ExplicitContextTag1<OctetStringAsn1>,
}

impl Sequence for EncryptionKey {
    type Fields = (
        ExplicitContextTag0<IntegerAsn1>,
        ExplicitContextTag1<OctetStringAsn1>,
    );

    ghost fields = { λ v. (v.key_type, v.key_value) };

    ghost with_fields = { λ f. record { key_type = f.0; key_value = f.1 } };

    fn from_fields((key_type, key_value): Self::Fields) -> Self {
        EncryptionKey {
            key_type,
            key_value,
        }
    }
}

impl DerEncode for EncryptionKey {
    ghost enc = { λ v. sequence (explicit 0 (integer v.key_type) ++ explicit 1 (octet_string v.key_value)) };

    ghost is_value = { values_of ⟦<Self as Sequence>⟧ ⟦<<Self as Sequence>::Fields as Fields>⟧ };

    ghost first = { λ t. t == 48 };

    ghost is_element = { λ v h. tagged_element 48 _ };

    ghost one_value = { one_value_of ⟦<Self as Sequence>⟧ ⟦<<Self as Sequence>::Fields as Fields>⟧ (λ v. refl) (tt, tt) };

    ghost error = { sequence_error ⟦<<Self as Sequence>::Fields as Fields>⟧ };

    ghost error_laws = { sequence_error_laws ⟦<Self as Sequence>⟧ ⟦<<Self as Sequence>::Fields as Fields>⟧ (tt, tt) };

    fn starts(octet: u8) -> bool {
        octet == SEQUENCE
    }

    fn write(&self, alloc: Global, out: &mut Vec<u8>) -> Result<(), AllocError> {
        write_sequence(alloc, &field_refs!(self; key_type, key_value), out)
    }
}

impl Der for EncryptionKey {
    fn read_element(alloc: Global, tag: u8, content: &[u8]) -> Result<Self, Asn1DerError> {
        read_sequence(alloc, tag, content)
    }
}

impl DerSequence for EncryptionKey {
    ghost is_sequence = { λ v. (_, refl) };
}

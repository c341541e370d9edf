//! Parts of the reply of a KDC to a client with a certificate.

ghost use Rattle.std.specs.Prelude.{◌==◌, ◌++◌, refl};
ghost use Rattle.krb_der.specs.Asn1.{bit_string, explicit, generalized_time, integer, octet_string, sequence};
ghost use Rattle.krb_der.specs.Encoding.{optional};
ghost use Rattle.krb_der.specs.FieldErrors.{sequence_error};
ghost use Rattle.krb_der.specs.FieldErrorLaws.{sequence_error_laws};
ghost use Rattle.krb_der.specs.SequenceLaws.{one_value_of, values_of};
ghost use Rattle.krb_der.specs.TlvLaws.{only_tag, tagged_element};
ghost use Rattle.krb_der_x509.specs.Implicit.{implicit};

use super::nonces::DhNonce;
use krb_der::composite::{Fields, SEQUENCE, Sequence, read_sequence, write_sequence};
use krb_der::{
    Asn1DerError, BitStringAsn1, Der, DerEncode, DerSequence, ExplicitContextTag0,
    ExplicitContextTag1, ExplicitContextTag2, IntegerAsn1, OctetStringAsn1, Optional, field_refs,
};
use krb_der_x509::ImplicitContextTag0;
use krb_types::data_types::KerberosTime;
use std::alloc::{AllocError, Global};

/// The public key of a KDC (RFC 4556, 3.2.3).
///
/// ```text
/// DHRepInfo ::= SEQUENCE {
///     dhSignedData  [0] IMPLICIT OCTET STRING,
///     serverDHNonce [1] DHNonce OPTIONAL
/// }
/// ```
#[derive(Debug, Drop, PartialEq, Eq)]
pub struct DhRepInfo {
    /// The signed `KdcDhKeyInfo`, in CMS (RFC 5652), which is not read further.
    pub dh_signed_data: ImplicitContextTag0<OctetStringAsn1>,
    /// A nonce, where the KDC reuses keys.
    pub server_dh_nonce: Optional<Option<ExplicitContextTag1<DhNonce>>>,
}

impl Sequence for DhRepInfo {
    type Fields = (
        ImplicitContextTag0<OctetStringAsn1>,
        Optional<Option<ExplicitContextTag1<DhNonce>>>,
    );

    ghost fields = { λ v. (v.dh_signed_data, v.server_dh_nonce) };

    ghost with_fields = { λ f. record { dh_signed_data = f.0; server_dh_nonce = f.1 } };

    fn from_fields((dh_signed_data, server_dh_nonce): Self::Fields) -> Self {
        DhRepInfo {
            dh_signed_data,
            server_dh_nonce,
        }
    }
}

impl DerEncode for DhRepInfo {
    ghost enc = { λ v. sequence (implicit 0 v.dh_signed_data ++ optional (λ x. explicit 1 (octet_string x)) v.server_dh_nonce.0) };

    ghost is_value = { values_of ⟦<Self as Sequence>⟧ ⟦<<Self as Sequence>::Fields as Fields>⟧ };

    ghost first = { λ t. t == 48 };

    ghost is_element = { λ v h. tagged_element 48 _ };

    ghost one_value = { one_value_of ⟦<Self as Sequence>⟧ ⟦<<Self as Sequence>::Fields as Fields>⟧ (λ v. refl) (tt, only_tag 161 _ refl) };

    ghost error = { sequence_error ⟦<<Self as Sequence>::Fields as Fields>⟧ };

    ghost error_laws = { sequence_error_laws ⟦<Self as Sequence>⟧ ⟦<<Self as Sequence>::Fields as Fields>⟧ (tt, only_tag 161 _ refl) };

    fn starts(octet: u8) -> bool {
        octet == SEQUENCE
    }

    fn write(&self, alloc: Global, out: &mut Vec<u8>) -> Result<(), AllocError> {
        write_sequence(
            alloc,
            &field_refs!(self; dh_signed_data, server_dh_nonce),
            out,
        )
    }
}

impl Der for DhRepInfo {
    fn read_element(alloc: Global, tag: u8, content: &[u8]) -> Result<Self, Asn1DerError> {
        read_sequence(alloc, tag, content)
    }
}

impl DerSequence for DhRepInfo {
    ghost is_sequence = { λ v. (_, refl) };
}

/// What a KDC signs of its public key (RFC 4556, 3.2.3).
///
/// ```text
/// KDCDHKeyInfo ::= SEQUENCE {
///     subjectPublicKey [0] BIT STRING,
///     nonce            [1] INTEGER (0..4294967295),
///     dhKeyExpiration  [2] KerberosTime OPTIONAL
/// }
/// ```
#[derive(Debug, Drop, PartialEq, Eq)]
pub struct KdcDhKeyInfo {
    /// The encoding of the public key.
    pub subject_public_key: ExplicitContextTag0<BitStringAsn1>,
    /// The number of the request.
    pub nonce: ExplicitContextTag1<IntegerAsn1>,
    /// When the key expires, where the KDC reuses it.
    pub dh_key_expiration: Optional<Option<ExplicitContextTag2<KerberosTime>>>,
}

impl Sequence for KdcDhKeyInfo {
    type Fields = (
        ExplicitContextTag0<BitStringAsn1>,
        ExplicitContextTag1<IntegerAsn1>,
        Optional<Option<ExplicitContextTag2<KerberosTime>>>,
    );

    ghost fields = { λ v. (v.subject_public_key, v.nonce, v.dh_key_expiration) };

    ghost with_fields = { λ f. record { subject_public_key = f.0; nonce = f.1; dh_key_expiration = f.2 } };

    fn from_fields((subject_public_key, nonce, dh_key_expiration): Self::Fields) -> Self {
        KdcDhKeyInfo {
            subject_public_key,
            nonce,
            dh_key_expiration,
        }
    }
}

impl DerEncode for KdcDhKeyInfo {
    ghost enc = { λ v. sequence (explicit 0 (bit_string v.subject_public_key) ++ explicit 1 (integer v.nonce)
        ++ optional (λ x. explicit 2 (generalized_time x)) v.dh_key_expiration.0) };

    ghost is_value = { values_of ⟦<Self as Sequence>⟧ ⟦<<Self as Sequence>::Fields as Fields>⟧ };

    ghost first = { λ t. t == 48 };

    ghost is_element = { λ v h. tagged_element 48 _ };

    ghost one_value = { one_value_of ⟦<Self as Sequence>⟧ ⟦<<Self as Sequence>::Fields as Fields>⟧ (λ v. refl) (tt, tt, only_tag 162 _ refl) };

    ghost error = { sequence_error ⟦<<Self as Sequence>::Fields as Fields>⟧ };

    ghost error_laws = { sequence_error_laws ⟦<Self as Sequence>⟧ ⟦<<Self as Sequence>::Fields as Fields>⟧ (tt, tt, only_tag 162 _ refl) };

    fn starts(octet: u8) -> bool {
        octet == SEQUENCE
    }

    fn write(&self, alloc: Global, out: &mut Vec<u8>) -> Result<(), AllocError> {
        write_sequence(
            alloc,
            &field_refs!(self; subject_public_key, nonce, dh_key_expiration),
            out,
        )
    }
}

impl Der for KdcDhKeyInfo {
    fn read_element(alloc: Global, tag: u8, content: &[u8]) -> Result<Self, Asn1DerError> {
        read_sequence(alloc, tag, content)
    }
}

impl DerSequence for KdcDhKeyInfo {
    ghost is_sequence = { λ v. (_, refl) };
}

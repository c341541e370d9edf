//! What a client with a certificate asks a KDC.

ghost use Rattle.std.specs.Prelude.{◌==◌, ◌++◌, refl};
ghost use Rattle.krb_der.specs.Asn1.{explicit, generalized_time, integer, octet_string, sequence, sequence_of};
ghost use Rattle.krb_der.specs.Encoding.{optional};
ghost use Rattle.krb_der.specs.FieldErrors.{sequence_error};
ghost use Rattle.krb_der.specs.FieldErrorLaws.{sequence_error_laws};
ghost use Rattle.krb_der.specs.SequenceLaws.{one_value_of, values_of};
ghost use Rattle.krb_der.specs.TlvLaws.{only_tag, tagged_element};
ghost use Rattle.krb_der_x509.specs.Implicit.{implicit};

use super::nonces::DhNonce;
use crate::pkinit::DhReqInfo;
use krb_der::composite::{Fields, SEQUENCE, Sequence, read_sequence, write_sequence};
use krb_der::{
    Asn1DerError, Asn1SequenceOf, Der, DerEncode, DerSequence, ExplicitContextTag0,
    ExplicitContextTag1, ExplicitContextTag2, ExplicitContextTag3, IntegerAsn1, OctetStringAsn1,
    Optional, field_refs,
};
use krb_der_x509::{
    AlgorithmIdentifier, ImplicitContextTag0, ImplicitContextTag1, ImplicitContextTag2,
    SubjectPublicKeyInfo,
};
use krb_types::data_types::KerberosTime;
use std::alloc::{AllocError, Global};

/// By which a certificate is found (RFC 4556, 3.2.1). The octets are encodings, which are not read further.
///
/// ```text
/// ExternalPrincipalIdentifier ::= SEQUENCE {
///     subjectName           [0] IMPLICIT OCTET STRING OPTIONAL,
///     issuerAndSerialNumber [1] IMPLICIT OCTET STRING OPTIONAL,
///     subjectKeyIdentifier  [2] IMPLICIT OCTET STRING OPTIONAL
/// }
/// ```
#[derive(Debug, Drop, PartialEq, Eq)]
pub struct ExternalPrincipalIdentifier {
    /// The name of its subject.
    pub subject_name: Optional<Option<ImplicitContextTag0<OctetStringAsn1>>>,
    /// Its issuer and its number.
    pub issuer_and_serial_number: Optional<Option<ImplicitContextTag1<OctetStringAsn1>>>,
    /// The identifier of its key.
    pub subject_key_identifier: Optional<Option<ImplicitContextTag2<OctetStringAsn1>>>,
}

impl Sequence for ExternalPrincipalIdentifier {
    type Fields = (
        Optional<Option<ImplicitContextTag0<OctetStringAsn1>>>,
        Optional<Option<ImplicitContextTag1<OctetStringAsn1>>>,
        Optional<Option<ImplicitContextTag2<OctetStringAsn1>>>,
    );

    ghost fields = { λ v. (v.subject_name, v.issuer_and_serial_number, v.subject_key_identifier) };

    ghost with_fields = { λ f. record { subject_name = f.0; issuer_and_serial_number = f.1; subject_key_identifier = f.2 } };

    fn from_fields(
        (subject_name, issuer_and_serial_number, subject_key_identifier): Self::Fields,
    ) -> Self {
        ExternalPrincipalIdentifier {
            subject_name,
            issuer_and_serial_number,
            subject_key_identifier,
        }
    }
}

impl DerEncode for ExternalPrincipalIdentifier {
    ghost enc = { λ v. sequence (optional (λ x. implicit 0 x) v.subject_name.0
        ++ optional (λ x. implicit 1 x) v.issuer_and_serial_number.0 ++ optional (λ x. implicit 2 x) v.subject_key_identifier.0) };

    ghost is_value = { values_of ⟦<Self as Sequence>⟧ ⟦<<Self as Sequence>::Fields as Fields>⟧ };

    ghost first = { λ t. t == 48 };

    ghost is_element = { λ v h. tagged_element 48 _ };

    ghost one_value = { one_value_of ⟦<Self as Sequence>⟧ ⟦<<Self as Sequence>::Fields as Fields>⟧ (λ v. refl)
        (only_tag 128 _ refl, only_tag 129 _ refl, only_tag 130 _ refl) };

    ghost error = { sequence_error ⟦<<Self as Sequence>::Fields as Fields>⟧ };

    ghost error_laws = { sequence_error_laws ⟦<Self as Sequence>⟧ ⟦<<Self as Sequence>::Fields as Fields>⟧
        (only_tag 128 _ refl, only_tag 129 _ refl, only_tag 130 _ refl) };

    fn starts(octet: u8) -> bool {
        octet == SEQUENCE
    }

    fn write(&self, alloc: Global, out: &mut Vec<u8>) -> Result<(), AllocError> {
        write_sequence(
            alloc,
            &field_refs!(self; subject_name, issuer_and_serial_number, subject_key_identifier),
            out,
        )
    }
}

impl Der for ExternalPrincipalIdentifier {
    fn read_element(alloc: Global, tag: u8, content: &[u8]) -> Result<Self, Asn1DerError> {
        read_sequence(alloc, tag, content)
    }
}

impl DerSequence for ExternalPrincipalIdentifier {
    ghost is_sequence = { λ v. (_, refl) };
}

/// What a client with a certificate asks a KDC (RFC 4556, 3.2.1).
///
/// ```text
/// PA-PK-AS-REQ ::= SEQUENCE {
///     signedAuthPack    [0] IMPLICIT OCTET STRING,
///     trustedCertifiers [1] SEQUENCE OF ExternalPrincipalIdentifier OPTIONAL,
///     kdcPkId           [2] IMPLICIT OCTET STRING OPTIONAL
/// }
/// ```
#[derive(Debug, Drop, PartialEq, Eq)]
pub struct PaPkAsReq {
    /// The signed `AuthPack`, in CMS (RFC 5652), which is not read further.
    pub signed_auth_pack: ImplicitContextTag0<OctetStringAsn1>,
    /// The certificate authorities that the client trusts.
    pub trusted_certifiers: Optional<
        Option<ExplicitContextTag1<Asn1SequenceOf<ExternalPrincipalIdentifier>>>,
    >,
    /// The certificate of the KDC that the client has.
    pub kdc_pk_id: Optional<Option<ImplicitContextTag2<OctetStringAsn1>>>,
}

impl Sequence for PaPkAsReq {
    type Fields = (
        ImplicitContextTag0<OctetStringAsn1>,
        Optional<Option<ExplicitContextTag1<Asn1SequenceOf<ExternalPrincipalIdentifier>>>>,
        Optional<Option<ImplicitContextTag2<OctetStringAsn1>>>,
    );

    ghost fields = { λ v. (v.signed_auth_pack, v.trusted_certifiers, v.kdc_pk_id) };

    ghost with_fields = { λ f. record { signed_auth_pack = f.0; trusted_certifiers = f.1; kdc_pk_id = f.2 } };

    fn from_fields((signed_auth_pack, trusted_certifiers, kdc_pk_id): Self::Fields) -> Self {
        PaPkAsReq {
            signed_auth_pack,
            trusted_certifiers,
            kdc_pk_id,
        }
    }
}

impl DerEncode for PaPkAsReq {
    ghost enc = { λ v. sequence (implicit 0 v.signed_auth_pack
        ++ optional (λ x. explicit 1 (sequence_of ⟦<ExternalPrincipalIdentifier as DerEncode>⟧.enc x)) v.trusted_certifiers.0
        ++ optional (λ x. implicit 2 x) v.kdc_pk_id.0) };

    ghost is_value = { values_of ⟦<Self as Sequence>⟧ ⟦<<Self as Sequence>::Fields as Fields>⟧ };

    ghost first = { λ t. t == 48 };

    ghost is_element = { λ v h. tagged_element 48 _ };

    ghost one_value = { one_value_of ⟦<Self as Sequence>⟧ ⟦<<Self as Sequence>::Fields as Fields>⟧ (λ v. refl) (tt, only_tag 161 _ refl, only_tag 130 _ refl) };

    ghost error = { sequence_error ⟦<<Self as Sequence>::Fields as Fields>⟧ };

    ghost error_laws = { sequence_error_laws ⟦<Self as Sequence>⟧ ⟦<<Self as Sequence>::Fields as Fields>⟧ (tt, only_tag 161 _ refl, only_tag 130 _ refl) };

    fn starts(octet: u8) -> bool {
        octet == SEQUENCE
    }

    fn write(&self, alloc: Global, out: &mut Vec<u8>) -> Result<(), AllocError> {
        write_sequence(
            alloc,
            &field_refs!(self; signed_auth_pack, trusted_certifiers, kdc_pk_id),
            out,
        )
    }
}

impl Der for PaPkAsReq {
    fn read_element(alloc: Global, tag: u8, content: &[u8]) -> Result<Self, Asn1DerError> {
        read_sequence(alloc, tag, content)
    }
}

impl DerSequence for PaPkAsReq {
    ghost is_sequence = { λ v. (_, refl) };
}

/// What binds a signed request to its time and to its KDC-REQ-BODY (RFC 4556, 3.2.1).
///
/// ```text
/// PKAuthenticator ::= SEQUENCE {
///     cusec      [0] INTEGER (0..999999),
///     ctime      [1] KerberosTime,
///     nonce      [2] INTEGER (0..4294967295),
///     paChecksum [3] OCTET STRING OPTIONAL
/// }
/// ```
#[derive(Debug, Drop, PartialEq, Eq)]
pub struct PkAuthenticator {
    /// The microseconds of the time.
    pub cusec: ExplicitContextTag0<IntegerAsn1>,
    /// The time of the client.
    pub ctime: ExplicitContextTag1<KerberosTime>,
    /// A number that the reply is to repeat.
    pub nonce: ExplicitContextTag2<IntegerAsn1>,
    /// The SHA-1 digest of the KDC-REQ-BODY.
    pub pa_checksum: Optional<Option<ExplicitContextTag3<OctetStringAsn1>>>,
}

impl Sequence for PkAuthenticator {
    type Fields = (
        ExplicitContextTag0<IntegerAsn1>,
        ExplicitContextTag1<KerberosTime>,
        ExplicitContextTag2<IntegerAsn1>,
        Optional<Option<ExplicitContextTag3<OctetStringAsn1>>>,
    );

    ghost fields = { λ v. (v.cusec, v.ctime, v.nonce, v.pa_checksum) };

    ghost with_fields = { λ f. record { cusec = f.0; ctime = f.1; nonce = f.2; pa_checksum = f.3 } };

    fn from_fields((cusec, ctime, nonce, pa_checksum): Self::Fields) -> Self {
        PkAuthenticator {
            cusec,
            ctime,
            nonce,
            pa_checksum,
        }
    }
}

impl DerEncode for PkAuthenticator {
    ghost enc = { λ v. sequence (explicit 0 (integer v.cusec) ++ explicit 1 (generalized_time v.ctime) ++ explicit 2 (integer v.nonce)
        ++ optional (λ x. explicit 3 (octet_string x)) v.pa_checksum.0) };

    ghost is_value = { values_of ⟦<Self as Sequence>⟧ ⟦<<Self as Sequence>::Fields as Fields>⟧ };

    ghost first = { λ t. t == 48 };

    ghost is_element = { λ v h. tagged_element 48 _ };

    ghost one_value = { one_value_of ⟦<Self as Sequence>⟧ ⟦<<Self as Sequence>::Fields as Fields>⟧ (λ v. refl) (tt, tt, tt, only_tag 163 _ refl) };

    ghost error = { sequence_error ⟦<<Self as Sequence>::Fields as Fields>⟧ };

    ghost error_laws = { sequence_error_laws ⟦<Self as Sequence>⟧ ⟦<<Self as Sequence>::Fields as Fields>⟧ (tt, tt, tt, only_tag 163 _ refl) };

    fn starts(octet: u8) -> bool {
        octet == SEQUENCE
    }

    fn write(&self, alloc: Global, out: &mut Vec<u8>) -> Result<(), AllocError> {
        write_sequence(
            alloc,
            &field_refs!(self; cusec, ctime, nonce, pa_checksum),
            out,
        )
    }
}

impl Der for PkAuthenticator {
    fn read_element(alloc: Global, tag: u8, content: &[u8]) -> Result<Self, Asn1DerError> {
        read_sequence(alloc, tag, content)
    }
}

impl DerSequence for PkAuthenticator {
    ghost is_sequence = { λ v. (_, refl) };
}

/// What a client signs (RFC 4556, 3.2.1). `C` is the type of its public key: `DhReqInfo` or `SubjectPublicKeyInfo`.
///
/// ```text
/// AuthPack ::= SEQUENCE {
///     pkAuthenticator   [0] PKAuthenticator,
///     clientPublicValue [1] SubjectPublicKeyInfo OPTIONAL,
///     supportedCMSTypes [2] SEQUENCE OF AlgorithmIdentifier OPTIONAL,
///     clientDHNonce     [3] DHNonce OPTIONAL
/// }
/// ```
#[derive(Debug, Drop, PartialEq, Eq)]
pub struct AuthPack<C> {
    /// What binds the request.
    pub pk_authenticator: ExplicitContextTag0<PkAuthenticator>,
    /// The public key of the client, where a key is agreed on.
    pub client_public_value: Optional<Option<ExplicitContextTag1<C>>>,
    /// The algorithms that the client takes, the best first.
    pub supported_cms_types: Optional<
        Option<ExplicitContextTag2<Asn1SequenceOf<AlgorithmIdentifier>>>,
    >,
    /// A nonce, where the client reuses keys.
    pub client_dh_nonce: Optional<Option<ExplicitContextTag3<DhNonce>>>,
}

impl<C: Der + Drop> Sequence for AuthPack<C> {
    type Fields = (
        ExplicitContextTag0<PkAuthenticator>,
        Optional<Option<ExplicitContextTag1<C>>>,
        Optional<Option<ExplicitContextTag2<Asn1SequenceOf<AlgorithmIdentifier>>>>,
        Optional<Option<ExplicitContextTag3<DhNonce>>>,
    );

    ghost fields = { λ v. (v.pk_authenticator, v.client_public_value, v.supported_cms_types, v.client_dh_nonce) };

    ghost with_fields = { λ f. record { pk_authenticator = f.0; client_public_value = f.1; supported_cms_types = f.2; client_dh_nonce = f.3 } };

    fn from_fields(
        (pk_authenticator, client_public_value, supported_cms_types, client_dh_nonce): Self::Fields,
    ) -> Self {
        AuthPack {
            pk_authenticator,
            client_public_value,
            supported_cms_types,
            client_dh_nonce,
        }
    }
}

impl<C: Der + Drop> DerEncode for AuthPack<C> {
    ghost enc = { λ v. sequence (explicit 0 (⟦<PkAuthenticator as DerEncode>⟧.enc v.pk_authenticator)
        ++ optional (λ x. explicit 1 (C.enc x)) v.client_public_value.0
        ++ optional (λ x. explicit 2 (sequence_of ⟦<AlgorithmIdentifier as DerEncode>⟧.enc x)) v.supported_cms_types.0
        ++ optional (λ x. explicit 3 (octet_string x)) v.client_dh_nonce.0) };

    ghost is_value = { values_of ⟦<Self as Sequence>⟧ ⟦<<Self as Sequence>::Fields as Fields>⟧ };

    ghost first = { λ t. t == 48 };

    ghost is_element = { λ v h. tagged_element 48 _ };

    ghost one_value = { one_value_of ⟦<Self as Sequence>⟧ ⟦<<Self as Sequence>::Fields as Fields>⟧ (λ v. refl)
        (tt, only_tag 161 _ refl, only_tag 162 _ refl, only_tag 163 _ refl) };

    ghost error = { sequence_error ⟦<<Self as Sequence>::Fields as Fields>⟧ };

    ghost error_laws = { sequence_error_laws ⟦<Self as Sequence>⟧ ⟦<<Self as Sequence>::Fields as Fields>⟧
        (tt, only_tag 161 _ refl, only_tag 162 _ refl, only_tag 163 _ refl) };

    fn starts(octet: u8) -> bool {
        octet == SEQUENCE
    }

    fn write(&self, alloc: Global, out: &mut Vec<u8>) -> Result<(), AllocError> {
        write_sequence(
            alloc,
            &field_refs!(self; pk_authenticator, client_public_value, supported_cms_types, client_dh_nonce),
            out,
        )
    }
}

impl<C: Der + Drop> Der for AuthPack<C> {
    fn read_element(alloc: Global, tag: u8, content: &[u8]) -> Result<Self, Asn1DerError> {
        read_sequence(alloc, tag, content)
    }
}

impl<C: Der + Drop> DerSequence for AuthPack<C> {
    ghost is_sequence = { λ v. (_, refl) };
}

/// What a client signs where it agrees on a key by Diffie-Hellman (RFC 4556, 3.2.1).
pub type DhAuthPack = AuthPack<DhReqInfo>;

/// What a client signs where it agrees on a key over an elliptic curve (RFC 5349, 4).
pub type EcAuthPack = AuthPack<SubjectPublicKeyInfo>;

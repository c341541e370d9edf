//! Messages of PKU2U.

ghost use Rattle.std.specs.Prelude.{◌==◌, ◌++◌, refl};
ghost use Rattle.krb_der.specs.Asn1.{explicit, general_string, sequence, sequence_of};
ghost use Rattle.krb_der.specs.FieldErrors.{sequence_error};
ghost use Rattle.krb_der.specs.FieldErrorLaws.{sequence_error_laws};
ghost use Rattle.krb_der.specs.SequenceLaws.{one_value_of, values_of};
ghost use Rattle.krb_der.specs.TlvLaws.{tagged_element};
ghost use Rattle.krb_der_x509.specs.Implicit.{implicit};

use krb_der::composite::{Fields, SEQUENCE, Sequence, read_sequence, write_sequence};
use krb_der::{
    Asn1DerError, Asn1SequenceOf, Der, DerEncode, DerSequence, ExplicitContextTag0,
    ExplicitContextTag1, OctetStringAsn1, field_refs,
};
use krb_der_x509::ImplicitContextTag0;
use krb_types::data_types::{Checksum, PrincipalName, Realm};
use std::alloc::{AllocError, Global};

/// One certificate authority that a side of PKU2U trusts.
///
/// Windows sends it. No published standard has its text; the fields are those of the original.
///
/// ```text
/// PKU2U-NEGO-REQ-METADATA ::= SEQUENCE {
///     inner [0] IMPLICIT OCTET STRING
/// }
/// ```
#[derive(Debug, Drop, PartialEq, Eq)]
pub struct Pku2uNegoReqMetadata {
    /// The name of the authority.
    pub inner: ImplicitContextTag0<OctetStringAsn1>,
}

impl Sequence for Pku2uNegoReqMetadata {
    type Fields = ImplicitContextTag0<OctetStringAsn1>;

    ghost fields = { λ v. v.inner };

    ghost with_fields = { λ f. record { inner = f } };

    fn from_fields(inner: Self::Fields) -> Self {
        Pku2uNegoReqMetadata { inner }
    }
}

impl DerEncode for Pku2uNegoReqMetadata {
    ghost enc = { λ v. sequence (implicit 0 v.inner) };

    ghost is_value = { values_of ⟦<Self as Sequence>⟧ ⟦<<Self as Sequence>::Fields as Fields>⟧ };

    ghost first = { λ t. t == 48 };

    ghost is_element = { λ v h. tagged_element 48 _ };

    ghost one_value = { one_value_of ⟦<Self as Sequence>⟧ ⟦<<Self as Sequence>::Fields as Fields>⟧ (λ v. refl) tt };

    ghost error = { sequence_error ⟦<<Self as Sequence>::Fields as Fields>⟧ };

    ghost error_laws = { sequence_error_laws ⟦<Self as Sequence>⟧ ⟦<<Self as Sequence>::Fields as Fields>⟧ tt };

    fn starts(octet: u8) -> bool {
        octet == SEQUENCE
    }

    fn write(&self, alloc: Global, out: &mut Vec<u8>) -> Result<(), AllocError> {
        write_sequence(alloc, &field_refs!(self; inner), out)
    }
}

impl Der for Pku2uNegoReqMetadata {
    fn read_element(alloc: Global, tag: u8, content: &[u8]) -> Result<Self, Asn1DerError> {
        read_sequence(alloc, tag, content)
    }
}

impl DerSequence for Pku2uNegoReqMetadata {
    ghost is_sequence = { λ v. (_, refl) };
}

/// The target of a client of PKU2U.
///
/// Windows sends it. No published standard has its text; the fields are those of the original.
///
/// ```text
/// PKU2U-NEGO-BODY ::= SEQUENCE {
///     realm [0] Realm,
///     sname [1] PrincipalName
/// }
/// ```
#[derive(Debug, Drop, PartialEq, Eq)]
pub struct Pku2uNegoBody {
    /// The realm of the server.
    pub realm: ExplicitContextTag0<Realm>,
    /// The name of the server.
    pub sname: ExplicitContextTag1<PrincipalName>,
}

impl Sequence for Pku2uNegoBody {
    type Fields = (
        ExplicitContextTag0<Realm>,
        ExplicitContextTag1<PrincipalName>,
    );

    ghost fields = { λ v. (v.realm, v.sname) };

    ghost with_fields = { λ f. record { realm = f.0; sname = f.1 } };

    fn from_fields((realm, sname): Self::Fields) -> Self {
        Pku2uNegoBody { realm, sname }
    }
}

impl DerEncode for Pku2uNegoBody {
    ghost enc = { λ v. sequence (explicit 0 (general_string v.realm) ++ explicit 1 (⟦<PrincipalName as DerEncode>⟧.enc v.sname)) };

    ghost is_value = { values_of ⟦<Self as Sequence>⟧ ⟦<<Self as Sequence>::Fields as Fields>⟧ };

    ghost first = { λ t. t == 48 };

    ghost is_element = { λ v h. tagged_element 48 _ };

    ghost one_value = { one_value_of ⟦<Self as Sequence>⟧ ⟦<<Self as Sequence>::Fields as Fields>⟧ (λ v. refl) (tt, tt) };

    ghost error = { sequence_error ⟦<<Self as Sequence>::Fields as Fields>⟧ };

    ghost error_laws = { sequence_error_laws ⟦<Self as Sequence>⟧ ⟦<<Self as Sequence>::Fields as Fields>⟧ (tt, tt) };

    fn starts(octet: u8) -> bool {
        octet == SEQUENCE
    }

    fn write(&self, alloc: Global, out: &mut Vec<u8>) -> Result<(), AllocError> {
        write_sequence(alloc, &field_refs!(self; realm, sname), out)
    }
}

impl Der for Pku2uNegoBody {
    fn read_element(alloc: Global, tag: u8, content: &[u8]) -> Result<Self, Asn1DerError> {
        read_sequence(alloc, tag, content)
    }
}

impl DerSequence for Pku2uNegoBody {
    ghost is_sequence = { λ v. (_, refl) };
}

/// The metadata that a client of PKU2U sends in NEGOEX.
///
/// Windows sends it. No published standard has its text; the fields are those of the original.
///
/// ```text
/// PKU2U-NEGO-REQ ::= SEQUENCE {
///     metadata [0] SEQUENCE OF PKU2U-NEGO-REQ-METADATA,
///     body     [1] PKU2U-NEGO-BODY
/// }
/// ```
#[derive(Debug, Drop, PartialEq, Eq)]
pub struct Pku2uNegoReq {
    /// The authorities that the client trusts.
    pub metadata: ExplicitContextTag0<Asn1SequenceOf<Pku2uNegoReqMetadata>>,
    /// The server.
    pub body: ExplicitContextTag1<Pku2uNegoBody>,
}

impl Sequence for Pku2uNegoReq {
    type Fields = (
        ExplicitContextTag0<Asn1SequenceOf<Pku2uNegoReqMetadata>>,
        ExplicitContextTag1<Pku2uNegoBody>,
    );

    ghost fields = { λ v. (v.metadata, v.body) };

    ghost with_fields = { λ f. record { metadata = f.0; body = f.1 } };

    fn from_fields((metadata, body): Self::Fields) -> Self {
        Pku2uNegoReq { metadata, body }
    }
}

impl DerEncode for Pku2uNegoReq {
    ghost enc = { λ v. sequence (explicit 0 (sequence_of ⟦<Pku2uNegoReqMetadata as DerEncode>⟧.enc v.metadata)
        ++ explicit 1 (⟦<Pku2uNegoBody as DerEncode>⟧.enc v.body)) };

    ghost is_value = { values_of ⟦<Self as Sequence>⟧ ⟦<<Self as Sequence>::Fields as Fields>⟧ };

    ghost first = { λ t. t == 48 };

    ghost is_element = { λ v h. tagged_element 48 _ };

    ghost one_value = { one_value_of ⟦<Self as Sequence>⟧ ⟦<<Self as Sequence>::Fields as Fields>⟧ (λ v. refl) (tt, tt) };

    ghost error = { sequence_error ⟦<<Self as Sequence>::Fields as Fields>⟧ };

    ghost error_laws = { sequence_error_laws ⟦<Self as Sequence>⟧ ⟦<<Self as Sequence>::Fields as Fields>⟧ (tt, tt) };

    fn starts(octet: u8) -> bool {
        octet == SEQUENCE
    }

    fn write(&self, alloc: Global, out: &mut Vec<u8>) -> Result<(), AllocError> {
        write_sequence(alloc, &field_refs!(self; metadata, body), out)
    }
}

impl Der for Pku2uNegoReq {
    fn read_element(alloc: Global, tag: u8, content: &[u8]) -> Result<Self, Asn1DerError> {
        read_sequence(alloc, tag, content)
    }
}

impl DerSequence for Pku2uNegoReq {
    ghost is_sequence = { λ v. (_, refl) };
}

/// The metadata that a server of PKU2U returns in NEGOEX.
///
/// Windows sends it. No published standard has its text; the fields are those of the original.
///
/// ```text
/// PKU2U-NEGO-REP ::= SEQUENCE {
///     metadata [0] SEQUENCE OF PKU2U-NEGO-REQ-METADATA
/// }
/// ```
#[derive(Debug, Drop, PartialEq, Eq)]
pub struct Pku2uNegoRep {
    /// The authorities that the server trusts.
    pub metadata: ExplicitContextTag0<Asn1SequenceOf<Pku2uNegoReqMetadata>>,
}

impl Sequence for Pku2uNegoRep {
    type Fields = ExplicitContextTag0<Asn1SequenceOf<Pku2uNegoReqMetadata>>;

    ghost fields = { λ v. v.metadata };

    ghost with_fields = { λ f. record { metadata = f } };

    fn from_fields(metadata: Self::Fields) -> Self {
        Pku2uNegoRep { metadata }
    }
}

impl DerEncode for Pku2uNegoRep {
    ghost enc = { λ v. sequence (explicit 0 (sequence_of ⟦<Pku2uNegoReqMetadata as DerEncode>⟧.enc v.metadata)) };

    ghost is_value = { values_of ⟦<Self as Sequence>⟧ ⟦<<Self as Sequence>::Fields as Fields>⟧ };

    ghost first = { λ t. t == 48 };

    ghost is_element = { λ v h. tagged_element 48 _ };

    ghost one_value = { one_value_of ⟦<Self as Sequence>⟧ ⟦<<Self as Sequence>::Fields as Fields>⟧ (λ v. refl) tt };

    ghost error = { sequence_error ⟦<<Self as Sequence>::Fields as Fields>⟧ };

    ghost error_laws = { sequence_error_laws ⟦<Self as Sequence>⟧ ⟦<<Self as Sequence>::Fields as Fields>⟧ tt };

    fn starts(octet: u8) -> bool {
        octet == SEQUENCE
    }

    fn write(&self, alloc: Global, out: &mut Vec<u8>) -> Result<(), AllocError> {
        write_sequence(alloc, &field_refs!(self; metadata), out)
    }
}

impl Der for Pku2uNegoRep {
    fn read_element(alloc: Global, tag: u8, content: &[u8]) -> Result<Self, Asn1DerError> {
        read_sequence(alloc, tag, content)
    }
}

impl DerSequence for Pku2uNegoRep {
    ghost is_sequence = { λ v. (_, refl) };
}

/// The checksum of what was said before, which ends an exchange of PKU2U (draft-zhu-pku2u-04, 6).
///
/// ```text
/// KRB-FINISHED ::= SEQUENCE {
///     gss-mic [1] Checksum
/// }
/// ```
#[derive(Debug, Drop, PartialEq, Eq)]
pub struct KrbFinished {
    /// The checksum.
    pub gss_mic: ExplicitContextTag1<Checksum>,
}

impl Sequence for KrbFinished {
    type Fields = ExplicitContextTag1<Checksum>;

    ghost fields = { λ v. v.gss_mic };

    ghost with_fields = { λ f. record { gss_mic = f } };

    fn from_fields(gss_mic: Self::Fields) -> Self {
        KrbFinished { gss_mic }
    }
}

impl DerEncode for KrbFinished {
    ghost enc = { λ v. sequence (explicit 1 (⟦<Checksum as DerEncode>⟧.enc v.gss_mic)) };

    ghost is_value = { values_of ⟦<Self as Sequence>⟧ ⟦<<Self as Sequence>::Fields as Fields>⟧ };

    ghost first = { λ t. t == 48 };

    ghost is_element = { λ v h. tagged_element 48 _ };

    ghost one_value = { one_value_of ⟦<Self as Sequence>⟧ ⟦<<Self as Sequence>::Fields as Fields>⟧ (λ v. refl) tt };

    ghost error = { sequence_error ⟦<<Self as Sequence>::Fields as Fields>⟧ };

    ghost error_laws = { sequence_error_laws ⟦<Self as Sequence>⟧ ⟦<<Self as Sequence>::Fields as Fields>⟧ tt };

    fn starts(octet: u8) -> bool {
        octet == SEQUENCE
    }

    fn write(&self, alloc: Global, out: &mut Vec<u8>) -> Result<(), AllocError> {
        write_sequence(alloc, &field_refs!(self; gss_mic), out)
    }
}

impl Der for KrbFinished {
    fn read_element(alloc: Global, tag: u8, content: &[u8]) -> Result<Self, Asn1DerError> {
        read_sequence(alloc, tag, content)
    }
}

impl DerSequence for KrbFinished {
    ghost is_sequence = { λ v. (_, refl) };
}

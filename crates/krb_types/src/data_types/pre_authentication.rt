//! Parts of pre-authentication.

ghost use Rattle.std.specs.Prelude.{◌==◌, ◌++◌, refl};
ghost use Rattle.krb_der.specs.Asn1.{bit_string, boolean, explicit, generalized_time, integer, octet_string, sequence};
ghost use Rattle.krb_der.specs.Encoding.{optional};
ghost use Rattle.krb_der.specs.FieldErrors.{sequence_error};
ghost use Rattle.krb_der.specs.FieldErrorLaws.{sequence_error_laws};
ghost use Rattle.krb_der.specs.SequenceLaws.{one_value_of, values_of};
ghost use Rattle.krb_der.specs.TlvLaws.{only_tag, tagged_element};

use crate::data_types::{EncryptedData, KerberosFlags, KerberosTime, Microseconds};
use krb_der::composite::{Fields, SEQUENCE, Sequence, read_sequence, write_sequence};
use krb_der::{
    Asn1DerError, Der, DerEncode, DerSequence, ExplicitContextTag0, ExplicitContextTag1,
    ExplicitContextTag2, IntegerAsn1, OctetStringAsn1, Optional, field_refs,
};
use std::alloc::{AllocError, Global};

/// One element of pre-authentication data (RFC 4120, 5.2.7).
///
/// ```text
/// PA-DATA ::= SEQUENCE {
///     padata-type  [1] Int32,
///     padata-value [2] OCTET STRING
/// }
/// ```
#[derive(Debug, Drop, PartialEq, Eq)]
pub struct PaData {
    /// What kind of data they are.
    pub padata_type: ExplicitContextTag1<IntegerAsn1>,
    /// The data, in most cases an encoding by themselves.
    pub padata_data: ExplicitContextTag2<OctetStringAsn1>,
}

impl Sequence for PaData {
    type Fields = (
        ExplicitContextTag1<IntegerAsn1>,
        ExplicitContextTag2<OctetStringAsn1>,
    );

    ghost fields = { λ v. (v.padata_type, v.padata_data) };

    ghost with_fields = { λ f. record { padata_type = f.0; padata_data = f.1 } };

    fn from_fields((padata_type, padata_data): Self::Fields) -> Self {
        PaData {
            padata_type,
            padata_data,
        }
    }
}

impl DerEncode for PaData {
    ghost enc = { λ v. sequence (explicit 1 (integer v.padata_type) ++ explicit 2 (octet_string v.padata_data)) };

    ghost is_value = { values_of ⟦<Self as Sequence>⟧ ⟦<<Self as Sequence>::Fields as Fields>⟧ };

    ghost first = { λ t. t == 48 };

    ghost is_element = { λ v h. tagged_element 48 _ };

    ghost one_value = { one_value_of ⟦<Self as Sequence>⟧ ⟦<<Self as Sequence>::Fields as Fields>⟧ (λ v. refl) (tt, tt) };

    ghost error = { sequence_error ⟦<<Self as Sequence>::Fields as Fields>⟧ };

    ghost error_laws = { sequence_error_laws ⟦<Self as Sequence>⟧ ⟦<<Self as Sequence>::Fields as Fields>⟧ (tt, tt) };

    fn starts(octet: u8) -> bool {
        octet == SEQUENCE
    }

    fn write(&self, alloc: Global, out: &mut Vec<u8>) -> Result<(), AllocError> {
        write_sequence(alloc, &field_refs!(self; padata_type, padata_data), out)
    }
}

impl Der for PaData {
    fn read_element(alloc: Global, tag: u8, content: &[u8]) -> Result<Self, Asn1DerError> {
        read_sequence(alloc, tag, content)
    }
}

impl DerSequence for PaData {
    ghost is_sequence = { λ v. (_, refl) };
}

/// An encrypted time stamp, whose plaintext is a `PaEncTsEnc` (RFC 4120, 5.2.7.2).
///
/// ```text
/// PA-ENC-TIMESTAMP ::= EncryptedData
/// ```
pub type PaEncTimestamp = EncryptedData;

/// The time stamp that a client encrypts to show that it has the key (RFC 4120, 5.2.7.2).
///
/// ```text
/// PA-ENC-TS-ENC ::= SEQUENCE {
///     patimestamp [0] KerberosTime,
///     pausec      [1] Microseconds OPTIONAL
/// }
/// ```
#[derive(Debug, Drop, PartialEq, Eq)]
pub struct PaEncTsEnc {
    /// The time of the client.
    pub patimestamp: ExplicitContextTag0<KerberosTime>,
    /// Its microseconds.
    pub pausec: Optional<Option<ExplicitContextTag1<Microseconds>>>,
}

impl Sequence for PaEncTsEnc {
    type Fields = (
        ExplicitContextTag0<KerberosTime>,
        Optional<Option<ExplicitContextTag1<Microseconds>>>,
    );

    ghost fields = { λ v. (v.patimestamp, v.pausec) };

    ghost with_fields = { λ f. record { patimestamp = f.0; pausec = f.1 } };

    fn from_fields((patimestamp, pausec): Self::Fields) -> Self {
        PaEncTsEnc {
            patimestamp,
            pausec,
        }
    }
}

impl DerEncode for PaEncTsEnc {
    ghost enc = { λ v. sequence (explicit 0 (generalized_time v.patimestamp) ++ optional (λ x. explicit 1 (integer x)) v.pausec.0) };

    ghost is_value = { values_of ⟦<Self as Sequence>⟧ ⟦<<Self as Sequence>::Fields as Fields>⟧ };

    ghost first = { λ t. t == 48 };

    ghost is_element = { λ v h. tagged_element 48 _ };

    ghost one_value = { one_value_of ⟦<Self as Sequence>⟧ ⟦<<Self as Sequence>::Fields as Fields>⟧ (λ v. refl) (tt, only_tag 161 _ refl) };

    ghost error = { sequence_error ⟦<<Self as Sequence>::Fields as Fields>⟧ };

    ghost error_laws = { sequence_error_laws ⟦<Self as Sequence>⟧ ⟦<<Self as Sequence>::Fields as Fields>⟧ (tt, only_tag 161 _ refl) };

    fn starts(octet: u8) -> bool {
        octet == SEQUENCE
    }

    fn write(&self, alloc: Global, out: &mut Vec<u8>) -> Result<(), AllocError> {
        write_sequence(alloc, &field_refs!(self; patimestamp, pausec), out)
    }
}

impl Der for PaEncTsEnc {
    fn read_element(alloc: Global, tag: u8, content: &[u8]) -> Result<Self, Asn1DerError> {
        read_sequence(alloc, tag, content)
    }
}

impl DerSequence for PaEncTsEnc {
    ghost is_sequence = { λ v. (_, refl) };
}

/// Whether a PAC is asked for (MS-KILE, 2.2.3).
///
/// ```text
/// KERB-PA-PAC-REQUEST ::= SEQUENCE {
///     include-pac [0] BOOLEAN
/// }
/// ```
#[derive(Debug, Clone, Drop, PartialEq, Eq)]
pub struct KerbPaPacRequest {
    /// Whether a PAC is to be in the ticket.
    pub include_pac: ExplicitContextTag0<bool>,
}

impl Sequence for KerbPaPacRequest {
    type Fields = ExplicitContextTag0<bool>;

    ghost fields = { λ v. v.include_pac };

    ghost with_fields = { λ f. record { include_pac = f } };

    fn from_fields(include_pac: Self::Fields) -> Self {
        KerbPaPacRequest { include_pac }
    }
}

impl DerEncode for KerbPaPacRequest {
    ghost enc = { λ v. sequence (explicit 0 (boolean v.include_pac)) };

    ghost is_value = { values_of ⟦<Self as Sequence>⟧ ⟦<<Self as Sequence>::Fields as Fields>⟧ };

    ghost first = { λ t. t == 48 };

    ghost is_element = { λ v h. tagged_element 48 _ };

    ghost one_value = { one_value_of ⟦<Self as Sequence>⟧ ⟦<<Self as Sequence>::Fields as Fields>⟧ (λ v. refl) tt };

    ghost error = { sequence_error ⟦<<Self as Sequence>::Fields as Fields>⟧ };

    ghost error_laws = { sequence_error_laws ⟦<Self as Sequence>⟧ ⟦<<Self as Sequence>::Fields as Fields>⟧ tt };

    fn starts(octet: u8) -> bool {
        octet == SEQUENCE
    }

    fn write(&self, alloc: Global, out: &mut Vec<u8>) -> Result<(), AllocError> {
        write_sequence(alloc, &field_refs!(self; include_pac), out)
    }
}

impl Der for KerbPaPacRequest {
    fn read_element(alloc: Global, tag: u8, content: &[u8]) -> Result<Self, Asn1DerError> {
        read_sequence(alloc, tag, content)
    }
}

impl DerSequence for KerbPaPacRequest {
    ghost is_sequence = { λ v. (_, refl) };
}

/// The options that a client asks for with a PAC (MS-KILE, 2.2.10).
///
/// ```text
/// PA-PAC-OPTIONS ::= SEQUENCE {
///     flags [0] KerberosFlags
/// }
/// ```
#[derive(Debug, Drop, PartialEq, Eq)]
pub struct PaPacOptions {
    /// Claims, branch aware, forward to full DC, resource based constrained delegation, from the first bit on.
    pub flags: ExplicitContextTag0<KerberosFlags>,
}

impl Sequence for PaPacOptions {
    type Fields = ExplicitContextTag0<KerberosFlags>;

    ghost fields = { λ v. v.flags };

    ghost with_fields = { λ f. record { flags = f } };

    fn from_fields(flags: Self::Fields) -> Self {
        PaPacOptions { flags }
    }
}

impl DerEncode for PaPacOptions {
    ghost enc = { λ v. sequence (explicit 0 (bit_string v.flags)) };

    ghost is_value = { values_of ⟦<Self as Sequence>⟧ ⟦<<Self as Sequence>::Fields as Fields>⟧ };

    ghost first = { λ t. t == 48 };

    ghost is_element = { λ v h. tagged_element 48 _ };

    ghost one_value = { one_value_of ⟦<Self as Sequence>⟧ ⟦<<Self as Sequence>::Fields as Fields>⟧ (λ v. refl) tt };

    ghost error = { sequence_error ⟦<<Self as Sequence>::Fields as Fields>⟧ };

    ghost error_laws = { sequence_error_laws ⟦<Self as Sequence>⟧ ⟦<<Self as Sequence>::Fields as Fields>⟧ tt };

    fn starts(octet: u8) -> bool {
        octet == SEQUENCE
    }

    fn write(&self, alloc: Global, out: &mut Vec<u8>) -> Result<(), AllocError> {
        write_sequence(alloc, &field_refs!(self; flags), out)
    }
}

impl Der for PaPacOptions {
    fn read_element(alloc: Global, tag: u8, content: &[u8]) -> Result<Self, Asn1DerError> {
        read_sequence(alloc, tag, content)
    }
}

impl DerSequence for PaPacOptions {
    ghost is_sequence = { λ v. (_, refl) };
}

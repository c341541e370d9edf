//! Authenticators, and the replies to them.

ghost use Rattle.std.specs.Prelude.{◌==◌, ◌++◌, refl};
ghost use Rattle.krb_der.specs.Asn1.{explicit, general_string, generalized_time, integer, sequence};
ghost use Rattle.krb_der.specs.Encoding.{optional};
ghost use Rattle.krb_der.specs.FieldErrors.{sequence_error};
ghost use Rattle.krb_der.specs.FieldErrorLaws.{sequence_error_laws};
ghost use Rattle.krb_der.specs.SequenceLaws.{one_value_of, values_of};
ghost use Rattle.krb_der.specs.TlvLaws.{only_tag, tagged_element};

use krb_der::composite::{Fields, SEQUENCE, Sequence, read_sequence, write_sequence};
use krb_der::{
    ApplicationTag, Asn1DerError, Der, DerEncode, DerSequence, ExplicitContextTag0,
    ExplicitContextTag1, ExplicitContextTag2, ExplicitContextTag3, ExplicitContextTag4,
    ExplicitContextTag5, ExplicitContextTag6, ExplicitContextTag7, ExplicitContextTag8,
    IntegerAsn1, Optional, field_refs,
};
use krb_registry::types::{AUTHENTICATOR_TYPE, ENC_AP_REP_PART_TYPE};
use krb_types::data_types::{
    AuthorizationData, Checksum, EncryptionKey, KerberosTime, Microseconds, PrincipalName, Realm,
};
use std::alloc::{AllocError, Global};

/// What an authenticator holds (RFC 4120, 5.5.1).
///
/// ```text
/// SEQUENCE {
///     authenticator-vno  [0] INTEGER (5),
///     crealm             [1] Realm,
///     cname              [2] PrincipalName,
///     cksum              [3] Checksum OPTIONAL,
///     cusec              [4] Microseconds,
///     ctime              [5] KerberosTime,
///     subkey             [6] EncryptionKey OPTIONAL,
///     seq-number         [7] UInt32 OPTIONAL,
///     authorization-data [8] AuthorizationData OPTIONAL
/// }
/// ```
#[derive(Debug, Drop, PartialEq, Eq)]
pub struct AuthenticatorInner {
    /// The version of the form of the authenticator.
    pub authenticator_vno: ExplicitContextTag0<IntegerAsn1>,
    /// The client's realm.
    pub crealm: ExplicitContextTag1<Realm>,
    /// The client's name.
    pub cname: ExplicitContextTag2<PrincipalName>,
    /// A checksum of what goes along with the request.
    pub cksum: Optional<Option<ExplicitContextTag3<Checksum>>>,
    /// The microseconds of `ctime`.
    pub cusec: ExplicitContextTag4<Microseconds>,
    /// The time of the client.
    pub ctime: ExplicitContextTag5<KerberosTime>,
    /// The key that the client chose for this session.
    pub subkey: Optional<Option<ExplicitContextTag6<EncryptionKey>>>,
    /// The number of the client's first message.
    pub seq_number: Optional<Option<ExplicitContextTag7<IntegerAsn1>>>,
    /// What restricts or describes the client further.
    pub authorization_data: Optional<Option<ExplicitContextTag8<AuthorizationData>>>,
}

impl Sequence for AuthenticatorInner {
    type Fields = (
        (
            ExplicitContextTag0<IntegerAsn1>,
            ExplicitContextTag1<Realm>,
            ExplicitContextTag2<PrincipalName>,
            Optional<Option<ExplicitContextTag3<Checksum>>>,
            ExplicitContextTag4<Microseconds>,
            ExplicitContextTag5<KerberosTime>,
        ),
        (
            Optional<Option<ExplicitContextTag6<EncryptionKey>>>,
            Optional<Option<ExplicitContextTag7<IntegerAsn1>>>,
            Optional<Option<ExplicitContextTag8<AuthorizationData>>>,
        ),
    );

    ghost fields = { λ v. ((v.authenticator_vno, v.crealm, v.cname, v.cksum, v.cusec, v.ctime), (v.subkey, v.seq_number, v.authorization_data)) };

    ghost with_fields = { λ f. record {
      authenticator_vno = f.0.0;
      crealm = f.0.1;
      cname = f.0.2;
      cksum = f.0.3;
      cusec = f.0.4;
      ctime = f.0.5;
      subkey = f.1.0;
      seq_number = f.1.1;
      authorization_data = f.1.2;
    } };

    fn from_fields(
        (
            (authenticator_vno, crealm, cname, cksum, cusec, ctime),
            (subkey, seq_number, authorization_data),
        ): Self::Fields,
    ) -> Self {
        AuthenticatorInner {
            authenticator_vno,
            crealm,
            cname,
            cksum,
            cusec,
            ctime,
            subkey,
            seq_number,
            authorization_data,
        }
    }
}

impl DerEncode for AuthenticatorInner {
    ghost enc = { λ v. sequence ((explicit 0 (integer v.authenticator_vno) ++ explicit 1 (general_string v.crealm)
        ++ explicit 2 (⟦<PrincipalName as DerEncode>⟧.enc v.cname)
        ++ optional (λ x. explicit 3 (⟦<Checksum as DerEncode>⟧.enc x)) v.cksum.0 ++ explicit 4 (integer v.cusec)
        ++ explicit 5 (generalized_time v.ctime))
        ++ (optional (λ x. explicit 6 (⟦<EncryptionKey as DerEncode>⟧.enc x)) v.subkey.0
        ++ optional (λ x. explicit 7 (integer x)) v.seq_number.0
        ++ optional (λ x. explicit 8 (⟦<AuthorizationData as DerEncode>⟧.enc x)) v.authorization_data.0)) };

    ghost is_value = { values_of ⟦<Self as Sequence>⟧ ⟦<<Self as Sequence>::Fields as Fields>⟧ };

    ghost first = { λ t. t == 48 };

    ghost is_element = { λ v h. tagged_element 48 _ };

    ghost one_value = { one_value_of ⟦<Self as Sequence>⟧ ⟦<<Self as Sequence>::Fields as Fields>⟧ (λ v. refl)
        ((tt, tt, tt, only_tag 163 _ refl, tt, tt), (only_tag 166 _ refl, only_tag 167 _ refl, only_tag 168 _ refl)) };

    ghost error = { sequence_error ⟦<<Self as Sequence>::Fields as Fields>⟧ };

    ghost error_laws = { sequence_error_laws ⟦<Self as Sequence>⟧ ⟦<<Self as Sequence>::Fields as Fields>⟧
        ((tt, tt, tt, only_tag 163 _ refl, tt, tt), (only_tag 166 _ refl, only_tag 167 _ refl, only_tag 168 _ refl)) };

    fn starts(octet: u8) -> bool {
        octet == SEQUENCE
    }

    fn write(&self, alloc: Global, out: &mut Vec<u8>) -> Result<(), AllocError> {
        write_sequence(
            alloc,
            &field_refs!(self; (authenticator_vno, crealm, cname, cksum, cusec, ctime), (subkey, seq_number, authorization_data)),
            out,
        )
    }
}

impl Der for AuthenticatorInner {
    fn read_element(alloc: Global, tag: u8, content: &[u8]) -> Result<Self, Asn1DerError> {
        read_sequence(alloc, tag, content)
    }
}

impl DerSequence for AuthenticatorInner {
    ghost is_sequence = { λ v. (_, refl) };
}

/// What a client encrypts for a server to show that it has the key of the ticket (RFC 4120, 5.5.1).
///
/// ```text
/// Authenticator ::= [APPLICATION 2] SEQUENCE {
///     -- the fields of AuthenticatorInner
/// }
/// ```
pub type Authenticator = ApplicationTag<AuthenticatorInner, AUTHENTICATOR_TYPE>;

/// What the encrypted part of an AP-REP holds (RFC 4120, 5.5.2).
///
/// ```text
/// SEQUENCE {
///     ctime      [0] KerberosTime,
///     cusec      [1] Microseconds,
///     subkey     [2] EncryptionKey OPTIONAL,
///     seq-number [3] UInt32 OPTIONAL
/// }
/// ```
#[derive(Debug, Drop, PartialEq, Eq)]
pub struct EncApRepPartInner {
    /// The time in the authenticator.
    pub ctime: ExplicitContextTag0<KerberosTime>,
    /// Its microseconds.
    pub cusec: ExplicitContextTag1<Microseconds>,
    /// The key that the server chose for this session.
    pub subkey: Optional<Option<ExplicitContextTag2<EncryptionKey>>>,
    /// The number of the server's first message.
    pub seq_number: Optional<Option<ExplicitContextTag3<IntegerAsn1>>>,
}

impl Sequence for EncApRepPartInner {
    type Fields = (
        ExplicitContextTag0<KerberosTime>,
        ExplicitContextTag1<Microseconds>,
        Optional<Option<ExplicitContextTag2<EncryptionKey>>>,
        Optional<Option<ExplicitContextTag3<IntegerAsn1>>>,
    );

    ghost fields = { λ v. (v.ctime, v.cusec, v.subkey, v.seq_number) };

    ghost with_fields = { λ f. record { ctime = f.0; cusec = f.1; subkey = f.2; seq_number = f.3 } };

    fn from_fields((ctime, cusec, subkey, seq_number): Self::Fields) -> Self {
        EncApRepPartInner {
            ctime,
            cusec,
            subkey,
            seq_number,
        }
    }
}

impl DerEncode for EncApRepPartInner {
    ghost enc = { λ v. sequence (explicit 0 (generalized_time v.ctime) ++ explicit 1 (integer v.cusec)
        ++ optional (λ x. explicit 2 (⟦<EncryptionKey as DerEncode>⟧.enc x)) v.subkey.0
        ++ optional (λ x. explicit 3 (integer x)) v.seq_number.0) };

    ghost is_value = { values_of ⟦<Self as Sequence>⟧ ⟦<<Self as Sequence>::Fields as Fields>⟧ };

    ghost first = { λ t. t == 48 };

    ghost is_element = { λ v h. tagged_element 48 _ };

    ghost one_value = { one_value_of ⟦<Self as Sequence>⟧ ⟦<<Self as Sequence>::Fields as Fields>⟧ (λ v. refl)
        (tt, tt, only_tag 162 _ refl, only_tag 163 _ refl) };

    ghost error = { sequence_error ⟦<<Self as Sequence>::Fields as Fields>⟧ };

    ghost error_laws = { sequence_error_laws ⟦<Self as Sequence>⟧ ⟦<<Self as Sequence>::Fields as Fields>⟧ (tt, tt, only_tag 162 _ refl, only_tag 163 _ refl) };

    fn starts(octet: u8) -> bool {
        octet == SEQUENCE
    }

    fn write(&self, alloc: Global, out: &mut Vec<u8>) -> Result<(), AllocError> {
        write_sequence(
            alloc,
            &field_refs!(self; ctime, cusec, subkey, seq_number),
            out,
        )
    }
}

impl Der for EncApRepPartInner {
    fn read_element(alloc: Global, tag: u8, content: &[u8]) -> Result<Self, Asn1DerError> {
        read_sequence(alloc, tag, content)
    }
}

impl DerSequence for EncApRepPartInner {
    ghost is_sequence = { λ v. (_, refl) };
}

/// What a server encrypts to show its client that it has the key too (RFC 4120, 5.5.2).
///
/// ```text
/// EncAPRepPart ::= [APPLICATION 27] SEQUENCE {
///     -- the fields of EncApRepPartInner
/// }
/// ```
pub type EncApRepPart = ApplicationTag<EncApRepPartInner, ENC_AP_REP_PART_TYPE>;

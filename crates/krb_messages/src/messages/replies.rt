//! Replies of a KDC.

ghost use Rattle.std.specs.Prelude.{◌==◌, ◌++◌, refl};
ghost use Rattle.krb_der.specs.Asn1.{bit_string, explicit, general_string, generalized_time, integer, sequence, sequence_of};
ghost use Rattle.krb_der.specs.Encoding.{optional};
ghost use Rattle.krb_der.specs.FieldErrors.{sequence_error};
ghost use Rattle.krb_der.specs.FieldErrorLaws.{sequence_error_laws};
ghost use Rattle.krb_der.specs.SequenceLaws.{one_value_of, values_of};
ghost use Rattle.krb_der.specs.TlvLaws.{only_tag, tagged_element};

use krb_der::composite::{Fields, SEQUENCE, Sequence, read_sequence, write_sequence};
use krb_der::{
    ApplicationTag, Asn1DerError, Asn1SequenceOf, Der, DerEncode, DerSequence, ExplicitContextTag0,
    ExplicitContextTag1, ExplicitContextTag2, ExplicitContextTag3, ExplicitContextTag4,
    ExplicitContextTag5, ExplicitContextTag6, ExplicitContextTag7, ExplicitContextTag8,
    ExplicitContextTag9, ExplicitContextTag10, ExplicitContextTag11, ExplicitContextTag12,
    IntegerAsn1, Optional, field_refs,
};
use krb_registry::types::{
    AS_REP_MSG_TYPE, ENC_AS_REP_PART_TYPE, ENC_TGS_REP_PART_TYPE, TGS_REP_MSG_TYPE,
};
use krb_types::data_types::{
    EncryptedData, EncryptionKey, HostAddresses, KerberosFlags, KerberosTime, LastReq, PaData,
    PrincipalName, Realm, Ticket,
};
use std::alloc::{AllocError, Global};

/// The reply of a KDC that grants a ticket (RFC 4120, 5.4.2).
///
/// ```text
/// KDC-REP ::= SEQUENCE {
///     pvno     [0] INTEGER (5),
///     msg-type [1] INTEGER (11 | 13),
///     padata   [2] SEQUENCE OF PA-DATA OPTIONAL,
///     crealm   [3] Realm,
///     cname    [4] PrincipalName,
///     ticket   [5] Ticket,
///     enc-part [6] EncryptedData
/// }
/// ```
#[derive(Debug, Drop, PartialEq, Eq)]
pub struct KdcRep {
    /// The version of the protocol.
    pub pvno: ExplicitContextTag0<IntegerAsn1>,
    /// The type of the message.
    pub msg_type: ExplicitContextTag1<IntegerAsn1>,
    /// The data of pre-authentication.
    pub padata: Optional<Option<ExplicitContextTag2<Asn1SequenceOf<PaData>>>>,
    /// The realm of the client.
    pub crealm: ExplicitContextTag3<Realm>,
    /// The name of the client.
    pub cname: ExplicitContextTag4<PrincipalName>,
    /// The ticket.
    pub ticket: ExplicitContextTag5<Ticket>,
    /// The encrypted `EncAsRepPart` or `EncTgsRepPart`.
    pub enc_part: ExplicitContextTag6<EncryptedData>,
}

impl Sequence for KdcRep {
    type Fields = (
        (
            ExplicitContextTag0<IntegerAsn1>,
            ExplicitContextTag1<IntegerAsn1>,
            Optional<Option<ExplicitContextTag2<Asn1SequenceOf<PaData>>>>,
        ),
        (
            ExplicitContextTag3<Realm>,
            ExplicitContextTag4<PrincipalName>,
            ExplicitContextTag5<Ticket>,
            ExplicitContextTag6<EncryptedData>,
        ),
    );

    ghost fields = { λ v. ((v.pvno, v.msg_type, v.padata), (v.crealm, v.cname, v.ticket, v.enc_part)) };

    ghost with_fields = { λ f. record { pvno = f.0.0; msg_type = f.0.1; padata = f.0.2; crealm = f.1.0; cname = f.1.1; ticket = f.1.2; enc_part = f.1.3 } };

    fn from_fields(
        ((pvno, msg_type, padata), (crealm, cname, ticket, enc_part)): Self::Fields,
    ) -> Self {
        KdcRep {
            pvno,
            msg_type,
            padata,
            crealm,
            cname,
            ticket,
            enc_part,
        }
    }
}

impl DerEncode for KdcRep {
    ghost enc = { λ v. sequence ((explicit 0 (integer v.pvno) ++ explicit 1 (integer v.msg_type)
        ++ optional (λ x. explicit 2 (sequence_of ⟦<PaData as DerEncode>⟧.enc x)) v.padata.0)
        ++ (explicit 3 (general_string v.crealm) ++ explicit 4 (⟦<PrincipalName as DerEncode>⟧.enc v.cname)
        ++ explicit 5 (⟦<Ticket as DerEncode>⟧.enc v.ticket) ++ explicit 6 (⟦<EncryptedData as DerEncode>⟧.enc v.enc_part))) };

    ghost is_value = { values_of ⟦<Self as Sequence>⟧ ⟦<<Self as Sequence>::Fields as Fields>⟧ };

    ghost first = { λ t. t == 48 };

    ghost is_element = { λ v h. tagged_element 48 _ };

    ghost one_value = { one_value_of ⟦<Self as Sequence>⟧ ⟦<<Self as Sequence>::Fields as Fields>⟧ (λ v. refl)
        ((tt, tt, only_tag 162 _ refl), (tt, tt, tt, tt)) };

    ghost error = { sequence_error ⟦<<Self as Sequence>::Fields as Fields>⟧ };

    ghost error_laws = { sequence_error_laws ⟦<Self as Sequence>⟧ ⟦<<Self as Sequence>::Fields as Fields>⟧ ((tt, tt, only_tag 162 _ refl), (tt, tt, tt, tt)) };

    fn starts(octet: u8) -> bool {
        octet == SEQUENCE
    }

    fn write(&self, alloc: Global, out: &mut Vec<u8>) -> Result<(), AllocError> {
        write_sequence(
            alloc,
            &field_refs!(self; (pvno, msg_type, padata), (crealm, cname, ticket, enc_part)),
            out,
        )
    }
}

impl Der for KdcRep {
    fn read_element(alloc: Global, tag: u8, content: &[u8]) -> Result<Self, Asn1DerError> {
        read_sequence(alloc, tag, content)
    }
}

impl DerSequence for KdcRep {
    ghost is_sequence = { λ v. (_, refl) };
}

/// The reply to a KRB-AS-REQ (RFC 4120, 5.4.2).
///
/// ```text
/// AS-REP ::= [APPLICATION 11] KDC-REP
/// ```
pub type AsRep = ApplicationTag<KdcRep, AS_REP_MSG_TYPE>;

/// The reply to a KRB-TGS-REQ (RFC 4120, 5.4.2).
///
/// ```text
/// TGS-REP ::= [APPLICATION 13] KDC-REP
/// ```
pub type TgsRep = ApplicationTag<KdcRep, TGS_REP_MSG_TYPE>;

/// The content of the encrypted part of a reply of a KDC (RFC 4120, 5.4.2; RFC 6806, 11).
///
/// ```text
/// EncKDCRepPart ::= SEQUENCE {
///     key               [0] EncryptionKey,
///     last-req          [1] LastReq,
///     nonce             [2] UInt32,
///     key-expiration    [3] KerberosTime OPTIONAL,
///     flags             [4] TicketFlags,
///     authtime          [5] KerberosTime,
///     starttime         [6] KerberosTime OPTIONAL,
///     endtime           [7] KerberosTime,
///     renew-till        [8] KerberosTime OPTIONAL,
///     srealm            [9] Realm,
///     sname             [10] PrincipalName,
///     caddr             [11] HostAddresses OPTIONAL,
///     encrypted-pa-data [12] SEQUENCE OF PA-DATA OPTIONAL
/// }
/// ```
#[derive(Debug, Drop, PartialEq, Eq)]
pub struct EncKdcRepPart {
    /// The session key of the ticket.
    pub key: ExplicitContextTag0<EncryptionKey>,
    /// When the client made which requests.
    pub last_req: ExplicitContextTag1<LastReq>,
    /// The number of the request.
    pub nonce: ExplicitContextTag2<IntegerAsn1>,
    /// Until when the long-term key of the client is valid.
    pub key_expiration: Optional<Option<ExplicitContextTag3<KerberosTime>>>,
    /// The flags of the ticket.
    pub flags: ExplicitContextTag4<KerberosFlags>,
    /// When the client was authenticated.
    pub auth_time: ExplicitContextTag5<KerberosTime>,
    /// From when on the ticket is valid.
    pub start_time: Optional<Option<ExplicitContextTag6<KerberosTime>>>,
    /// Until when the ticket is valid.
    pub end_time: ExplicitContextTag7<KerberosTime>,
    /// Until when the ticket may be renewed.
    pub renew_till: Optional<Option<ExplicitContextTag8<KerberosTime>>>,
    /// The realm of the server.
    pub srealm: ExplicitContextTag9<Realm>,
    /// The name of the server.
    pub sname: ExplicitContextTag10<PrincipalName>,
    /// From which addresses the ticket may be used.
    pub caddr: Optional<Option<ExplicitContextTag11<HostAddresses>>>,
    /// Data of pre-authentication that is encrypted (RFC 6806, 11).
    pub encrypted_pa_data: Optional<Option<ExplicitContextTag12<Asn1SequenceOf<PaData>>>>,
}

impl Sequence for EncKdcRepPart {
    type Fields = (
        (
            ExplicitContextTag0<EncryptionKey>,
            ExplicitContextTag1<LastReq>,
            ExplicitContextTag2<IntegerAsn1>,
            Optional<Option<ExplicitContextTag3<KerberosTime>>>,
        ),
        (
            ExplicitContextTag4<KerberosFlags>,
            ExplicitContextTag5<KerberosTime>,
            Optional<Option<ExplicitContextTag6<KerberosTime>>>,
            ExplicitContextTag7<KerberosTime>,
            Optional<Option<ExplicitContextTag8<KerberosTime>>>,
        ),
        (
            ExplicitContextTag9<Realm>,
            ExplicitContextTag10<PrincipalName>,
            Optional<Option<ExplicitContextTag11<HostAddresses>>>,
            Optional<Option<ExplicitContextTag12<Asn1SequenceOf<PaData>>>>,
        ),
    );

    ghost fields = { λ v. (
      (v.key, v.last_req, v.nonce, v.key_expiration),
      (v.flags, v.auth_time, v.start_time, v.end_time, v.renew_till),
      (v.srealm, v.sname, v.caddr, v.encrypted_pa_data),
    ) };

    ghost with_fields = { λ f. record {
      key = f.0.0;
      last_req = f.0.1;
      nonce = f.0.2;
      key_expiration = f.0.3;
      flags = f.1.0;
      auth_time = f.1.1;
      start_time = f.1.2;
      end_time = f.1.3;
      renew_till = f.1.4;
      srealm = f.2.0;
      sname = f.2.1;
      caddr = f.2.2;
      encrypted_pa_data = f.2.3;
    } };

    fn from_fields(
        (
            (key, last_req, nonce, key_expiration),
            (flags, auth_time, start_time, end_time, renew_till),
            (srealm, sname, caddr, encrypted_pa_data),
        ): Self::Fields,
    ) -> Self {
        EncKdcRepPart {
            key,
            last_req,
            nonce,
            key_expiration,
            flags,
            auth_time,
            start_time,
            end_time,
            renew_till,
            srealm,
            sname,
            caddr,
            encrypted_pa_data,
        }
    }
}

impl DerEncode for EncKdcRepPart {
    ghost enc = { λ v. sequence ((explicit 0 (⟦<EncryptionKey as DerEncode>⟧.enc v.key)
        ++ explicit 1 (⟦<LastReq as DerEncode>⟧.enc v.last_req) ++ explicit 2 (integer v.nonce)
        ++ optional (λ x. explicit 3 (generalized_time x)) v.key_expiration.0)
        ++ (explicit 4 (bit_string v.flags) ++ explicit 5 (generalized_time v.auth_time)
        ++ optional (λ x. explicit 6 (generalized_time x)) v.start_time.0 ++ explicit 7 (generalized_time v.end_time)
        ++ optional (λ x. explicit 8 (generalized_time x)) v.renew_till.0)
        ++ (explicit 9 (general_string v.srealm) ++ explicit 10 (⟦<PrincipalName as DerEncode>⟧.enc v.sname)
        ++ optional (λ x. explicit 11 (⟦<HostAddresses as DerEncode>⟧.enc x)) v.caddr.0
        ++ optional (λ x. explicit 12 (sequence_of ⟦<PaData as DerEncode>⟧.enc x)) v.encrypted_pa_data.0)) };

    ghost is_value = { values_of ⟦<Self as Sequence>⟧ ⟦<<Self as Sequence>::Fields as Fields>⟧ };

    ghost first = { λ t. t == 48 };

    ghost is_element = { λ v h. tagged_element 48 _ };

    ghost one_value = { one_value_of ⟦<Self as Sequence>⟧ ⟦<<Self as Sequence>::Fields as Fields>⟧ (λ v. refl) (
      (tt, tt, tt, only_tag 163 _ refl),
      (tt, tt, only_tag 166 _ refl, tt, only_tag 168 _ refl),
      (tt, tt, only_tag 171 _ refl, only_tag 172 _ refl),
    ) };

    ghost error = { sequence_error ⟦<<Self as Sequence>::Fields as Fields>⟧ };

    ghost error_laws = { sequence_error_laws ⟦<Self as Sequence>⟧ ⟦<<Self as Sequence>::Fields as Fields>⟧ (
      (tt, tt, tt, only_tag 163 _ refl),
      (tt, tt, only_tag 166 _ refl, tt, only_tag 168 _ refl),
      (tt, tt, only_tag 171 _ refl, only_tag 172 _ refl),
    ) };

    fn starts(octet: u8) -> bool {
        octet == SEQUENCE
    }

    fn write(&self, alloc: Global, out: &mut Vec<u8>) -> Result<(), AllocError> {
        write_sequence(
            alloc,
            &field_refs!(self; (key, last_req, nonce, key_expiration), (flags, auth_time, start_time, end_time, renew_till), (srealm, sname, caddr, encrypted_pa_data)),
            out,
        )
    }
}

impl Der for EncKdcRepPart {
    fn read_element(alloc: Global, tag: u8, content: &[u8]) -> Result<Self, Asn1DerError> {
        read_sequence(alloc, tag, content)
    }
}

impl DerSequence for EncKdcRepPart {
    ghost is_sequence = { λ v. (_, refl) };
}

/// The encrypted part of a KRB-AS-REP (RFC 4120, 5.4.2).
///
/// ```text
/// EncASRepPart ::= [APPLICATION 25] EncKDCRepPart
/// ```
pub type EncAsRepPart = ApplicationTag<EncKdcRepPart, ENC_AS_REP_PART_TYPE>;

/// The encrypted part of a KRB-TGS-REP (RFC 4120, 5.4.2).
///
/// ```text
/// EncTGSRepPart ::= [APPLICATION 26] EncKDCRepPart
/// ```
pub type EncTgsRepPart = ApplicationTag<EncKdcRepPart, ENC_TGS_REP_PART_TYPE>;

//! Requests to a KDC.

ghost use Rattle.std.specs.Prelude.{◌==◌, ◌++◌, refl};
ghost use Rattle.krb_der.specs.Asn1.{bit_string, explicit, general_string, generalized_time, integer, sequence, sequence_of};
ghost use Rattle.krb_der.specs.Encoding.{optional};
ghost use Rattle.krb_der.specs.FieldErrors.{sequence_error};
ghost use Rattle.krb_der.specs.FieldErrorLaws.{sequence_error_laws};
ghost use Rattle.krb_der.specs.SequenceLaws.{one_value_of, values_of};
ghost use Rattle.krb_der.specs.TlvLaws.{only_tag, tagged_element};

use krb_der::composite::{Fields, SEQUENCE, Sequence, read_sequence, write_sequence};
use krb_der::{
    ApplicationTag, Asn1DerError, Asn1SequenceOf, Der, DerEncode, DerSequence, ExplicitContextTag0,
    ExplicitContextTag1, ExplicitContextTag2, ExplicitContextTag3, ExplicitContextTag4,
    ExplicitContextTag5, ExplicitContextTag6, ExplicitContextTag7, ExplicitContextTag8,
    ExplicitContextTag9, ExplicitContextTag10, ExplicitContextTag11, IntegerAsn1, Optional,
    field_refs,
};
use krb_registry::types::{AS_REQ_MSG_TYPE, TGS_REQ_MSG_TYPE};
use krb_types::data_types::{
    EncryptedData, HostAddresses, KerberosFlags, KerberosTime, PaData, PrincipalName, Realm, Ticket,
};
use std::alloc::{AllocError, Global};

/// What a client asks a KDC for (RFC 4120, 5.4.1).
///
/// ```text
/// KDC-REQ-BODY ::= SEQUENCE {
///     kdc-options            [0] KDCOptions,
///     cname                  [1] PrincipalName OPTIONAL,
///     realm                  [2] Realm,
///     sname                  [3] PrincipalName OPTIONAL,
///     from                   [4] KerberosTime OPTIONAL,
///     till                   [5] KerberosTime,
///     rtime                  [6] KerberosTime OPTIONAL,
///     nonce                  [7] UInt32,
///     etype                  [8] SEQUENCE OF Int32,
///     addresses              [9] HostAddresses OPTIONAL,
///     enc-authorization-data [10] EncryptedData OPTIONAL,
///     additional-tickets     [11] SEQUENCE OF Ticket OPTIONAL
/// }
/// ```
#[derive(Debug, Drop, PartialEq, Eq)]
pub struct KdcReqBody {
    /// What the ticket is to allow.
    pub kdc_options: ExplicitContextTag0<KerberosFlags>,
    /// The name of the client, in a KRB-AS-REQ alone.
    pub cname: Optional<Option<ExplicitContextTag1<PrincipalName>>>,
    /// The realm of the server, and in a KRB-AS-REQ of the client too.
    pub realm: ExplicitContextTag2<Realm>,
    /// The name of the server.
    pub sname: Optional<Option<ExplicitContextTag3<PrincipalName>>>,
    /// From when on the ticket is to be valid.
    pub from: Optional<Option<ExplicitContextTag4<KerberosTime>>>,
    /// Until when the ticket is to be valid.
    pub till: ExplicitContextTag5<KerberosTime>,
    /// Until when the ticket is to be renewable.
    pub rtime: Optional<Option<ExplicitContextTag6<KerberosTime>>>,
    /// A number that the reply is to repeat.
    pub nonce: ExplicitContextTag7<IntegerAsn1>,
    /// The encryption types that the client accepts, the preferred first.
    pub etype: ExplicitContextTag8<Asn1SequenceOf<IntegerAsn1>>,
    /// From which addresses the ticket is to be used.
    pub addresses: Optional<Option<ExplicitContextTag9<HostAddresses>>>,
    /// The encrypted `AuthorizationData` for the ticket, in a KRB-TGS-REQ alone.
    pub enc_authorization_data: Optional<Option<ExplicitContextTag10<EncryptedData>>>,
    /// Further tickets that the options need.
    pub additional_tickets: Optional<Option<ExplicitContextTag11<Asn1SequenceOf<Ticket>>>>,
}

impl Sequence for KdcReqBody {
    type Fields = (
        (
            ExplicitContextTag0<KerberosFlags>,
            Optional<Option<ExplicitContextTag1<PrincipalName>>>,
            ExplicitContextTag2<Realm>,
            Optional<Option<ExplicitContextTag3<PrincipalName>>>,
        ),
        (
            Optional<Option<ExplicitContextTag4<KerberosTime>>>,
            ExplicitContextTag5<KerberosTime>,
            Optional<Option<ExplicitContextTag6<KerberosTime>>>,
            ExplicitContextTag7<IntegerAsn1>,
        ),
        (
            ExplicitContextTag8<Asn1SequenceOf<IntegerAsn1>>,
            Optional<Option<ExplicitContextTag9<HostAddresses>>>,
            Optional<Option<ExplicitContextTag10<EncryptedData>>>,
            Optional<Option<ExplicitContextTag11<Asn1SequenceOf<Ticket>>>>,
        ),
    );

    ghost fields = { λ v. (
      (v.kdc_options, v.cname, v.realm, v.sname),
      (v.from, v.till, v.rtime, v.nonce),
      (v.etype, v.addresses, v.enc_authorization_data, v.additional_tickets),
    ) };

    ghost with_fields = { λ f. record {
      kdc_options = f.0.0;
      cname = f.0.1;
      realm = f.0.2;
      sname = f.0.3;
      from = f.1.0;
      till = f.1.1;
      rtime = f.1.2;
      nonce = f.1.3;
      etype = f.2.0;
      addresses = f.2.1;
      enc_authorization_data = f.2.2;
      additional_tickets = f.2.3;
    } };

    fn from_fields(
        (
            (kdc_options, cname, realm, sname),
            (from, till, rtime, nonce),
            (etype, addresses, enc_authorization_data, additional_tickets),
        ): Self::Fields,
    ) -> Self {
        KdcReqBody {
            kdc_options,
            cname,
            realm,
            sname,
            from,
            till,
            rtime,
            nonce,
            etype,
            addresses,
            enc_authorization_data,
            additional_tickets,
        }
    }
}

impl DerEncode for KdcReqBody {
    ghost enc = { λ v. sequence ((explicit 0 (bit_string v.kdc_options)
        ++ optional (λ x. explicit 1 (⟦<PrincipalName as DerEncode>⟧.enc x)) v.cname.0 ++ explicit 2 (general_string v.realm)
        ++ optional (λ x. explicit 3 (⟦<PrincipalName as DerEncode>⟧.enc x)) v.sname.0)
        ++ (optional (λ x. explicit 4 (generalized_time x)) v.from.0 ++ explicit 5 (generalized_time v.till)
        ++ optional (λ x. explicit 6 (generalized_time x)) v.rtime.0 ++ explicit 7 (integer v.nonce))
        ++ (explicit 8 (sequence_of integer v.etype) ++ optional (λ x. explicit 9 (⟦<HostAddresses as DerEncode>⟧.enc x)) v.addresses.0
        ++ optional (λ x. explicit 10 (⟦<EncryptedData as DerEncode>⟧.enc x)) v.enc_authorization_data.0
        ++ optional (λ x. explicit 11 (sequence_of ⟦<Ticket as DerEncode>⟧.enc x)) v.additional_tickets.0)) };

    ghost is_value = { values_of ⟦<Self as Sequence>⟧ ⟦<<Self as Sequence>::Fields as Fields>⟧ };

    ghost first = { λ t. t == 48 };

    ghost is_element = { λ v h. tagged_element 48 _ };

    ghost one_value = { one_value_of ⟦<Self as Sequence>⟧ ⟦<<Self as Sequence>::Fields as Fields>⟧ (λ v. refl) (
      (tt, only_tag 161 _ refl, tt, only_tag 163 _ refl),
      (only_tag 164 _ refl, tt, only_tag 166 _ refl, tt),
      (tt, only_tag 169 _ refl, only_tag 170 _ refl, only_tag 171 _ refl),
    ) };

    ghost error = { sequence_error ⟦<<Self as Sequence>::Fields as Fields>⟧ };

    ghost error_laws = { sequence_error_laws ⟦<Self as Sequence>⟧ ⟦<<Self as Sequence>::Fields as Fields>⟧ (
      (tt, only_tag 161 _ refl, tt, only_tag 163 _ refl),
      (only_tag 164 _ refl, tt, only_tag 166 _ refl, tt),
      (tt, only_tag 169 _ refl, only_tag 170 _ refl, only_tag 171 _ refl),
    ) };

    fn starts(octet: u8) -> bool {
        octet == SEQUENCE
    }

    fn write(&self, alloc: Global, out: &mut Vec<u8>) -> Result<(), AllocError> {
        write_sequence(
            alloc,
            &field_refs!(self; (kdc_options, cname, realm, sname), (from, till, rtime, nonce), (etype, addresses, enc_authorization_data, additional_tickets)),
            out,
        )
    }
}

impl Der for KdcReqBody {
    fn read_element(alloc: Global, tag: u8, content: &[u8]) -> Result<Self, Asn1DerError> {
        read_sequence(alloc, tag, content)
    }
}

impl DerSequence for KdcReqBody {
    ghost is_sequence = { λ v. (_, refl) };
}

/// A request to a KDC (RFC 4120, 5.4.1). Its first tag is 1.
///
/// ```text
/// KDC-REQ ::= SEQUENCE {
///     pvno     [1] INTEGER (5),
///     msg-type [2] INTEGER (10 | 12),
///     padata   [3] SEQUENCE OF PA-DATA OPTIONAL,
///     req-body [4] KDC-REQ-BODY
/// }
/// ```
#[derive(Debug, Drop, PartialEq, Eq)]
pub struct KdcReq {
    /// The version of the protocol.
    pub pvno: ExplicitContextTag1<IntegerAsn1>,
    /// The type of the message.
    pub msg_type: ExplicitContextTag2<IntegerAsn1>,
    /// The data of pre-authentication.
    pub padata: Optional<Option<ExplicitContextTag3<Asn1SequenceOf<PaData>>>>,
    /// What is asked for.
    pub req_body: ExplicitContextTag4<KdcReqBody>,
}

impl Sequence for KdcReq {
    type Fields = (
        ExplicitContextTag1<IntegerAsn1>,
        ExplicitContextTag2<IntegerAsn1>,
        Optional<Option<ExplicitContextTag3<Asn1SequenceOf<PaData>>>>,
        ExplicitContextTag4<KdcReqBody>,
    );

    ghost fields = { λ v. (v.pvno, v.msg_type, v.padata, v.req_body) };

    ghost with_fields = { λ f. record { pvno = f.0; msg_type = f.1; padata = f.2; req_body = f.3 } };

    fn from_fields((pvno, msg_type, padata, req_body): Self::Fields) -> Self {
        KdcReq {
            pvno,
            msg_type,
            padata,
            req_body,
        }
    }
}

impl DerEncode for KdcReq {
    ghost enc = { λ v. sequence (explicit 1 (integer v.pvno) ++ explicit 2 (integer v.msg_type)
        ++ optional (λ x. explicit 3 (sequence_of ⟦<PaData as DerEncode>⟧.enc x)) v.padata.0
        ++ explicit 4 (⟦<KdcReqBody as DerEncode>⟧.enc v.req_body)) };

    ghost is_value = { values_of ⟦<Self as Sequence>⟧ ⟦<<Self as Sequence>::Fields as Fields>⟧ };

    ghost first = { λ t. t == 48 };

    ghost is_element = { λ v h. tagged_element 48 _ };

    ghost one_value = { one_value_of ⟦<Self as Sequence>⟧ ⟦<<Self as Sequence>::Fields as Fields>⟧ (λ v. refl) (tt, tt, only_tag 163 _ refl, tt) };

    ghost error = { sequence_error ⟦<<Self as Sequence>::Fields as Fields>⟧ };

    ghost error_laws = { sequence_error_laws ⟦<Self as Sequence>⟧ ⟦<<Self as Sequence>::Fields as Fields>⟧ (tt, tt, only_tag 163 _ refl, tt) };

    fn starts(octet: u8) -> bool {
        octet == SEQUENCE
    }

    fn write(&self, alloc: Global, out: &mut Vec<u8>) -> Result<(), AllocError> {
        write_sequence(
            alloc,
            &field_refs!(self; pvno, msg_type, padata, req_body),
            out,
        )
    }
}

impl Der for KdcReq {
    fn read_element(alloc: Global, tag: u8, content: &[u8]) -> Result<Self, Asn1DerError> {
        read_sequence(alloc, tag, content)
    }
}

impl DerSequence for KdcReq {
    ghost is_sequence = { λ v. (_, refl) };
}

/// A client asks for its first ticket (RFC 4120, 5.4.1).
///
/// ```text
/// AS-REQ ::= [APPLICATION 10] KDC-REQ
/// ```
pub type AsReq = ApplicationTag<KdcReq, AS_REQ_MSG_TYPE>;

/// A client asks for a further ticket, by one that it has (RFC 4120, 5.4.1).
///
/// ```text
/// TGS-REQ ::= [APPLICATION 12] KDC-REQ
/// ```
pub type TgsReq = ApplicationTag<KdcReq, TGS_REQ_MSG_TYPE>;

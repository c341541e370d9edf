//! The encrypted part of a ticket.

ghost use Rattle.std.specs.Prelude.{◌==◌, ◌++◌, refl};
ghost use Rattle.krb_der.specs.Asn1.{bit_string, explicit, general_string, generalized_time, sequence};
ghost use Rattle.krb_der.specs.Encoding.{optional};
ghost use Rattle.krb_der.specs.FieldErrors.{sequence_error};
ghost use Rattle.krb_der.specs.FieldErrorLaws.{sequence_error_laws};
ghost use Rattle.krb_der.specs.SequenceLaws.{one_value_of, values_of};
ghost use Rattle.krb_der.specs.TlvLaws.{only_tag, tagged_element};

use krb_der::composite::{Fields, SEQUENCE, Sequence, read_sequence, write_sequence};
use krb_der::{
    ApplicationTag, Asn1DerError, Der, DerEncode, DerSequence, ExplicitContextTag0,
    ExplicitContextTag1, ExplicitContextTag2, ExplicitContextTag3, ExplicitContextTag4,
    ExplicitContextTag5, ExplicitContextTag6, ExplicitContextTag7, ExplicitContextTag8,
    ExplicitContextTag9, ExplicitContextTag10, Optional, field_refs,
};
use krb_registry::types::ENC_TICKET_PART_TYPE;
use krb_types::data_types::{
    AuthorizationData, EncryptionKey, HostAddresses, KerberosFlags, KerberosTime, PrincipalName,
    Realm, TransitedEncoding,
};
use std::alloc::{AllocError, Global};

/// What the encrypted part of a ticket holds (RFC 4120, 5.3).
///
/// ```text
/// SEQUENCE {
///     flags              [0] TicketFlags,
///     key                [1] EncryptionKey,
///     crealm             [2] Realm,
///     cname              [3] PrincipalName,
///     transited          [4] TransitedEncoding,
///     authtime           [5] KerberosTime,
///     starttime          [6] KerberosTime OPTIONAL,
///     endtime            [7] KerberosTime,
///     renew-till         [8] KerberosTime OPTIONAL,
///     caddr              [9] HostAddresses OPTIONAL,
///     authorization-data [10] AuthorizationData OPTIONAL
/// }
/// ```
#[derive(Debug, Drop, PartialEq, Eq)]
pub struct EncTicketPartInner {
    /// The flags of the ticket.
    pub flags: ExplicitContextTag0<KerberosFlags>,
    /// The session key.
    pub key: ExplicitContextTag1<EncryptionKey>,
    /// The client's realm.
    pub crealm: ExplicitContextTag2<Realm>,
    /// The client's name.
    pub cname: ExplicitContextTag3<PrincipalName>,
    /// The realms that took part in authenticating the client.
    pub transited: ExplicitContextTag4<TransitedEncoding>,
    /// When the client was authenticated.
    pub auth_time: ExplicitContextTag5<KerberosTime>,
    /// From when on the ticket is valid; where absent, from `auth_time` on.
    pub starttime: Optional<Option<ExplicitContextTag6<KerberosTime>>>,
    /// Until when the ticket is valid.
    pub endtime: ExplicitContextTag7<KerberosTime>,
    /// Until when the ticket may be renewed.
    pub renew_till: Optional<Option<ExplicitContextTag8<KerberosTime>>>,
    /// From which addresses the ticket may be used.
    pub caddr: Optional<Option<ExplicitContextTag9<HostAddresses>>>,
    /// What restricts or describes the client.
    pub authorization_data: Optional<Option<ExplicitContextTag10<AuthorizationData>>>,
}

impl Sequence for EncTicketPartInner {
    type Fields = (
        (
            ExplicitContextTag0<KerberosFlags>,
            ExplicitContextTag1<EncryptionKey>,
            ExplicitContextTag2<Realm>,
            ExplicitContextTag3<PrincipalName>,
            ExplicitContextTag4<TransitedEncoding>,
        ),
        (
            ExplicitContextTag5<KerberosTime>,
            Optional<Option<ExplicitContextTag6<KerberosTime>>>,
            ExplicitContextTag7<KerberosTime>,
            Optional<Option<ExplicitContextTag8<KerberosTime>>>,
            Optional<Option<ExplicitContextTag9<HostAddresses>>>,
            Optional<Option<ExplicitContextTag10<AuthorizationData>>>,
        ),
    );

    ghost fields = { λ v. (
      (v.flags, v.key, v.crealm, v.cname, v.transited),
      (v.auth_time, v.starttime, v.endtime, v.renew_till, v.caddr, v.authorization_data),
    ) };

    ghost with_fields = { λ f. record {
      flags = f.0.0;
      key = f.0.1;
      crealm = f.0.2;
      cname = f.0.3;
      transited = f.0.4;
      auth_time = f.1.0;
      starttime = f.1.1;
      endtime = f.1.2;
      renew_till = f.1.3;
      caddr = f.1.4;
      authorization_data = f.1.5;
    } };

    fn from_fields(
        (
            (flags, key, crealm, cname, transited),
            (auth_time, starttime, endtime, renew_till, caddr, authorization_data),
        ): Self::Fields,
    ) -> Self {
        EncTicketPartInner {
            flags,
            key,
            crealm,
            cname,
            transited,
            auth_time,
            starttime,
            endtime,
            renew_till,
            caddr,
            authorization_data,
        }
    }
}

impl DerEncode for EncTicketPartInner {
    ghost enc = { λ v. sequence ((explicit 0 (bit_string v.flags) ++ explicit 1 (⟦<EncryptionKey as DerEncode>⟧.enc v.key)
        ++ explicit 2 (general_string v.crealm) ++ explicit 3 (⟦<PrincipalName as DerEncode>⟧.enc v.cname)
        ++ explicit 4 (⟦<TransitedEncoding as DerEncode>⟧.enc v.transited))
        ++ (explicit 5 (generalized_time v.auth_time) ++ optional (λ x. explicit 6 (generalized_time x)) v.starttime.0
        ++ explicit 7 (generalized_time v.endtime) ++ optional (λ x. explicit 8 (generalized_time x)) v.renew_till.0
        ++ optional (λ x. explicit 9 (⟦<HostAddresses as DerEncode>⟧.enc x)) v.caddr.0
        ++ optional (λ x. explicit 10 (⟦<AuthorizationData as DerEncode>⟧.enc x)) v.authorization_data.0)) };

    ghost is_value = { values_of ⟦<Self as Sequence>⟧ ⟦<<Self as Sequence>::Fields as Fields>⟧ };

    ghost first = { λ t. t == 48 };

    ghost is_element = { λ v h. tagged_element 48 _ };

    ghost one_value = { one_value_of ⟦<Self as Sequence>⟧ ⟦<<Self as Sequence>::Fields as Fields>⟧ (λ v. refl)
        ((tt, tt, tt, tt, tt), (tt, only_tag 166 _ refl, tt, only_tag 168 _ refl, only_tag 169 _ refl, only_tag 170 _ refl)) };

    ghost error = { sequence_error ⟦<<Self as Sequence>::Fields as Fields>⟧ };

    ghost error_laws = { sequence_error_laws ⟦<Self as Sequence>⟧ ⟦<<Self as Sequence>::Fields as Fields>⟧
        ((tt, tt, tt, tt, tt), (tt, only_tag 166 _ refl, tt, only_tag 168 _ refl, only_tag 169 _ refl, only_tag 170 _ refl)) };

    fn starts(octet: u8) -> bool {
        octet == SEQUENCE
    }

    fn write(&self, alloc: Global, out: &mut Vec<u8>) -> Result<(), AllocError> {
        write_sequence(
            alloc,
            &field_refs!(self; (flags, key, crealm, cname, transited), (auth_time, starttime, endtime, renew_till, caddr, authorization_data)),
            out,
        )
    }
}

impl Der for EncTicketPartInner {
    fn read_element(alloc: Global, tag: u8, content: &[u8]) -> Result<Self, Asn1DerError> {
        read_sequence(alloc, tag, content)
    }
}

impl DerSequence for EncTicketPartInner {
    ghost is_sequence = { λ v. (_, refl) };
}

/// The encrypted part of a ticket (RFC 4120, 5.3).
///
/// ```text
/// EncTicketPart ::= [APPLICATION 3] SEQUENCE {
///     -- the fields of EncTicketPartInner
/// }
/// ```
pub type EncTicketPart = ApplicationTag<EncTicketPartInner, ENC_TICKET_PART_TYPE>;

//! The encrypted part of a KRB-CRED.

ghost use Rattle.std.specs.Prelude.{◌==◌, ◌++◌, refl};
ghost use Rattle.krb_der.specs.Asn1.{bit_string, explicit, general_string, generalized_time, integer, sequence, sequence_of};
ghost use Rattle.krb_der.specs.Encoding.{optional};
ghost use Rattle.krb_der.specs.FieldErrors.{sequence_error};
ghost use Rattle.krb_der.specs.FieldErrorLaws.{sequence_error_laws};
ghost use Rattle.krb_der.specs.SequenceLaws.{one_value_of, values_of};
ghost use Rattle.krb_der.specs.TlvLaws.{only_tag, tagged_element};

use krb_der::composite::{Fields, SEQUENCE, Sequence, read_sequence, write_sequence};
use krb_der::{
    ApplicationTag, Asn1DerError, Asn1SequenceOf, Der, DerEncode, DerSequence, ExplicitContextTag0,
    ExplicitContextTag1, ExplicitContextTag2, ExplicitContextTag3, ExplicitContextTag4,
    ExplicitContextTag5, ExplicitContextTag6, ExplicitContextTag7, ExplicitContextTag8,
    ExplicitContextTag9, ExplicitContextTag10, IntegerAsn1, Optional, field_refs,
};
use krb_registry::types::ENC_KRB_CRED_PART_TYPE;
use krb_types::data_types::{
    EncryptionKey, HostAddress, HostAddresses, KerberosFlags, KerberosTime, Microseconds,
    PrincipalName, Realm,
};
use std::alloc::{AllocError, Global};

/// What goes along with one forwarded ticket (RFC 4120, 5.8.1).
///
/// ```text
/// KrbCredInfo ::= SEQUENCE {
///     key        [0] EncryptionKey,
///     prealm     [1] Realm OPTIONAL,
///     pname      [2] PrincipalName OPTIONAL,
///     flags      [3] TicketFlags OPTIONAL,
///     authtime   [4] KerberosTime OPTIONAL,
///     starttime  [5] KerberosTime OPTIONAL,
///     endtime    [6] KerberosTime OPTIONAL,
///     renew-till [7] KerberosTime OPTIONAL,
///     srealm     [8] Realm OPTIONAL,
///     sname      [9] PrincipalName OPTIONAL,
///     caddr      [10] HostAddresses OPTIONAL
/// }
/// ```
#[derive(Debug, Drop, PartialEq, Eq)]
pub struct KrbCredInfo {
    /// The session key of the ticket.
    pub key: ExplicitContextTag0<EncryptionKey>,
    /// The realm of the delegated principal.
    pub prealm: Optional<Option<ExplicitContextTag1<Realm>>>,
    /// The name of the delegated principal.
    pub pname: Optional<Option<ExplicitContextTag2<PrincipalName>>>,
    /// The flags of the ticket.
    pub flags: Optional<Option<ExplicitContextTag3<KerberosFlags>>>,
    /// When the principal was authenticated.
    pub auth_time: Optional<Option<ExplicitContextTag4<KerberosTime>>>,
    /// From when on the ticket is valid.
    pub start_time: Optional<Option<ExplicitContextTag5<KerberosTime>>>,
    /// Until when the ticket is valid.
    pub end_time: Optional<Option<ExplicitContextTag6<KerberosTime>>>,
    /// Until when the ticket may be renewed.
    pub renew_till: Optional<Option<ExplicitContextTag7<KerberosTime>>>,
    /// The realm of the server.
    pub srealm: Optional<Option<ExplicitContextTag8<Realm>>>,
    /// The name of the server.
    pub sname: Optional<Option<ExplicitContextTag9<PrincipalName>>>,
    /// From which addresses the ticket may be used.
    pub caddr: Optional<Option<ExplicitContextTag10<HostAddresses>>>,
}

impl Sequence for KrbCredInfo {
    type Fields = (
        (
            ExplicitContextTag0<EncryptionKey>,
            Optional<Option<ExplicitContextTag1<Realm>>>,
            Optional<Option<ExplicitContextTag2<PrincipalName>>>,
            Optional<Option<ExplicitContextTag3<KerberosFlags>>>,
            Optional<Option<ExplicitContextTag4<KerberosTime>>>,
        ),
        (
            Optional<Option<ExplicitContextTag5<KerberosTime>>>,
            Optional<Option<ExplicitContextTag6<KerberosTime>>>,
            Optional<Option<ExplicitContextTag7<KerberosTime>>>,
            Optional<Option<ExplicitContextTag8<Realm>>>,
            Optional<Option<ExplicitContextTag9<PrincipalName>>>,
            Optional<Option<ExplicitContextTag10<HostAddresses>>>,
        ),
    );

    ghost fields = { λ v. ((v.key, v.prealm, v.pname, v.flags, v.auth_time), (v.start_time, v.end_time, v.renew_till, v.srealm, v.sname, v.caddr)) };

    ghost with_fields = { λ f. record {
      key = f.0.0;
      prealm = f.0.1;
      pname = f.0.2;
      flags = f.0.3;
      auth_time = f.0.4;
      start_time = f.1.0;
      end_time = f.1.1;
      renew_till = f.1.2;
      srealm = f.1.3;
      sname = f.1.4;
      caddr = f.1.5;
    } };

    fn from_fields(
        (
            (key, prealm, pname, flags, auth_time),
            (start_time, end_time, renew_till, srealm, sname, caddr),
        ): Self::Fields,
    ) -> Self {
        KrbCredInfo {
            key,
            prealm,
            pname,
            flags,
            auth_time,
            start_time,
            end_time,
            renew_till,
            srealm,
            sname,
            caddr,
        }
    }
}

impl DerEncode for KrbCredInfo {
    ghost enc = { λ v. sequence ((explicit 0 (⟦<EncryptionKey as DerEncode>⟧.enc v.key)
        ++ optional (λ x. explicit 1 (general_string x)) v.prealm.0
        ++ optional (λ x. explicit 2 (⟦<PrincipalName as DerEncode>⟧.enc x)) v.pname.0
        ++ optional (λ x. explicit 3 (bit_string x)) v.flags.0 ++ optional (λ x. explicit 4 (generalized_time x)) v.auth_time.0)
        ++ (optional (λ x. explicit 5 (generalized_time x)) v.start_time.0
        ++ optional (λ x. explicit 6 (generalized_time x)) v.end_time.0 ++ optional (λ x. explicit 7 (generalized_time x)) v.renew_till.0
        ++ optional (λ x. explicit 8 (general_string x)) v.srealm.0
        ++ optional (λ x. explicit 9 (⟦<PrincipalName as DerEncode>⟧.enc x)) v.sname.0
        ++ optional (λ x. explicit 10 (⟦<HostAddresses as DerEncode>⟧.enc x)) v.caddr.0)) };

    ghost is_value = { values_of ⟦<Self as Sequence>⟧ ⟦<<Self as Sequence>::Fields as Fields>⟧ };

    ghost first = { λ t. t == 48 };

    ghost is_element = { λ v h. tagged_element 48 _ };

    ghost one_value = { one_value_of ⟦<Self as Sequence>⟧ ⟦<<Self as Sequence>::Fields as Fields>⟧ (λ v. refl) (
      (tt, only_tag 161 _ refl, only_tag 162 _ refl, only_tag 163 _ refl, only_tag 164 _ refl),
      (only_tag 165 _ refl, only_tag 166 _ refl, only_tag 167 _ refl, only_tag 168 _ refl, only_tag 169 _ refl, only_tag 170 _ refl),
    ) };

    ghost error = { sequence_error ⟦<<Self as Sequence>::Fields as Fields>⟧ };

    ghost error_laws = { sequence_error_laws ⟦<Self as Sequence>⟧ ⟦<<Self as Sequence>::Fields as Fields>⟧ (
      (tt, only_tag 161 _ refl, only_tag 162 _ refl, only_tag 163 _ refl, only_tag 164 _ refl),
      (only_tag 165 _ refl, only_tag 166 _ refl, only_tag 167 _ refl, only_tag 168 _ refl, only_tag 169 _ refl, only_tag 170 _ refl),
    ) };

    fn starts(octet: u8) -> bool {
        octet == SEQUENCE
    }

    fn write(&self, alloc: Global, out: &mut Vec<u8>) -> Result<(), AllocError> {
        write_sequence(
            alloc,
            &field_refs!(self; (key, prealm, pname, flags, auth_time), (start_time, end_time, renew_till, srealm, sname, caddr)),
            out,
        )
    }
}

impl Der for KrbCredInfo {
    fn read_element(alloc: Global, tag: u8, content: &[u8]) -> Result<Self, Asn1DerError> {
        read_sequence(alloc, tag, content)
    }
}

impl DerSequence for KrbCredInfo {
    ghost is_sequence = { λ v. (_, refl) };
}

/// What the encrypted part of a KRB-CRED holds (RFC 4120, 5.8.1).
///
/// ```text
/// SEQUENCE {
///     ticket-info [0] SEQUENCE OF KrbCredInfo,
///     nonce       [1] UInt32 OPTIONAL,
///     timestamp   [2] KerberosTime OPTIONAL,
///     usec        [3] Microseconds OPTIONAL,
///     s-address   [4] HostAddress OPTIONAL,
///     r-address   [5] HostAddress OPTIONAL
/// }
/// ```
#[derive(Debug, Drop, PartialEq, Eq)]
pub struct EncKrbCredPartInner {
    /// What is known of each ticket, in the order of the tickets.
    pub ticket_info: ExplicitContextTag0<Asn1SequenceOf<KrbCredInfo>>,
    /// A number that the recipient asked for.
    pub nonce: Optional<Option<ExplicitContextTag1<IntegerAsn1>>>,
    /// The time of the sender.
    pub timestamp: Optional<Option<ExplicitContextTag2<KerberosTime>>>,
    /// Its microseconds.
    pub usec: Optional<Option<ExplicitContextTag3<Microseconds>>>,
    /// The address of the sender.
    pub s_address: Optional<Option<ExplicitContextTag4<HostAddress>>>,
    /// The address of the recipient.
    pub r_address: Optional<Option<ExplicitContextTag5<HostAddress>>>,
}

impl Sequence for EncKrbCredPartInner {
    type Fields = (
        ExplicitContextTag0<Asn1SequenceOf<KrbCredInfo>>,
        Optional<Option<ExplicitContextTag1<IntegerAsn1>>>,
        Optional<Option<ExplicitContextTag2<KerberosTime>>>,
        Optional<Option<ExplicitContextTag3<Microseconds>>>,
        Optional<Option<ExplicitContextTag4<HostAddress>>>,
        Optional<Option<ExplicitContextTag5<HostAddress>>>,
    );

    ghost fields = { λ v. (v.ticket_info, v.nonce, v.timestamp, v.usec, v.s_address, v.r_address) };

    ghost with_fields = { λ f. record { ticket_info = f.0; nonce = f.1; timestamp = f.2; usec = f.3; s_address = f.4; r_address = f.5 } };

    fn from_fields(
        (ticket_info, nonce, timestamp, usec, s_address, r_address): Self::Fields,
    ) -> Self {
        EncKrbCredPartInner {
            ticket_info,
            nonce,
            timestamp,
            usec,
            s_address,
            r_address,
        }
    }
}

impl DerEncode for EncKrbCredPartInner {
    ghost enc = { λ v. sequence (explicit 0 (sequence_of ⟦<KrbCredInfo as DerEncode>⟧.enc v.ticket_info)
        ++ optional (λ x. explicit 1 (integer x)) v.nonce.0 ++ optional (λ x. explicit 2 (generalized_time x)) v.timestamp.0
        ++ optional (λ x. explicit 3 (integer x)) v.usec.0
        ++ optional (λ x. explicit 4 (⟦<HostAddress as DerEncode>⟧.enc x)) v.s_address.0
        ++ optional (λ x. explicit 5 (⟦<HostAddress as DerEncode>⟧.enc x)) v.r_address.0) };

    ghost is_value = { values_of ⟦<Self as Sequence>⟧ ⟦<<Self as Sequence>::Fields as Fields>⟧ };

    ghost first = { λ t. t == 48 };

    ghost is_element = { λ v h. tagged_element 48 _ };

    ghost one_value = { one_value_of ⟦<Self as Sequence>⟧ ⟦<<Self as Sequence>::Fields as Fields>⟧ (λ v. refl)
        (tt, only_tag 161 _ refl, only_tag 162 _ refl, only_tag 163 _ refl, only_tag 164 _ refl, only_tag 165 _ refl) };

    ghost error = { sequence_error ⟦<<Self as Sequence>::Fields as Fields>⟧ };

    ghost error_laws = { sequence_error_laws ⟦<Self as Sequence>⟧ ⟦<<Self as Sequence>::Fields as Fields>⟧
        (tt, only_tag 161 _ refl, only_tag 162 _ refl, only_tag 163 _ refl, only_tag 164 _ refl, only_tag 165 _ refl) };

    fn starts(octet: u8) -> bool {
        octet == SEQUENCE
    }

    fn write(&self, alloc: Global, out: &mut Vec<u8>) -> Result<(), AllocError> {
        write_sequence(
            alloc,
            &field_refs!(self; ticket_info, nonce, timestamp, usec, s_address, r_address),
            out,
        )
    }
}

impl Der for EncKrbCredPartInner {
    fn read_element(alloc: Global, tag: u8, content: &[u8]) -> Result<Self, Asn1DerError> {
        read_sequence(alloc, tag, content)
    }
}

impl DerSequence for EncKrbCredPartInner {
    ghost is_sequence = { λ v. (_, refl) };
}

/// The encrypted part of a KRB-CRED (RFC 4120, 5.8.1).
///
/// ```text
/// EncKrbCredPart ::= [APPLICATION 29] SEQUENCE {
///     -- the fields of EncKrbCredPartInner
/// }
/// ```
pub type EncKrbCredPart = ApplicationTag<EncKrbCredPartInner, ENC_KRB_CRED_PART_TYPE>;

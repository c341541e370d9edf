//! The messages of an exchange with a server.

ghost use Rattle.std.specs.Prelude.{◌==◌, ◌++◌, refl};
ghost use Rattle.krb_der.specs.Asn1.{bit_string, explicit, integer, sequence};
ghost use Rattle.krb_der.specs.FieldErrors.{sequence_error};
ghost use Rattle.krb_der.specs.FieldErrorLaws.{sequence_error_laws};
ghost use Rattle.krb_der.specs.SequenceLaws.{one_value_of, values_of};
ghost use Rattle.krb_der.specs.TlvLaws.{tagged_element};

use krb_der::composite::{Fields, SEQUENCE, Sequence, read_sequence, write_sequence};
use krb_der::{
    ApplicationTag, Asn1DerError, Der, DerEncode, DerSequence, ExplicitContextTag0,
    ExplicitContextTag1, ExplicitContextTag2, ExplicitContextTag3, ExplicitContextTag4,
    IntegerAsn1, field_refs,
};
use krb_registry::types::{AP_REP_MSG_TYPE, AP_REQ_MSG_TYPE};
use krb_types::data_types::{ApOptions, EncryptedData, Ticket};
use std::alloc::{AllocError, Global};

/// What a KRB-AP-REQ holds (RFC 4120, 5.5.1).
///
/// ```text
/// SEQUENCE {
///     pvno          [0] INTEGER (5),
///     msg-type      [1] INTEGER (14),
///     ap-options    [2] APOptions,
///     ticket        [3] Ticket,
///     authenticator [4] EncryptedData
/// }
/// ```
#[derive(Debug, Drop, PartialEq, Eq)]
pub struct ApReqInner {
    /// The version of the protocol.
    pub pvno: ExplicitContextTag0<IntegerAsn1>,
    /// The type of the message.
    pub msg_type: ExplicitContextTag1<IntegerAsn1>,
    /// What the client asks for.
    pub ap_options: ExplicitContextTag2<ApOptions>,
    /// The ticket for the server.
    pub ticket: ExplicitContextTag3<Ticket>,
    /// The encrypted `Authenticator`.
    pub authenticator: ExplicitContextTag4<EncryptedData>,
}

impl Sequence for ApReqInner {
    type Fields = (
        ExplicitContextTag0<IntegerAsn1>,
        ExplicitContextTag1<IntegerAsn1>,
        ExplicitContextTag2<ApOptions>,
        ExplicitContextTag3<Ticket>,
        ExplicitContextTag4<EncryptedData>,
    );

    ghost fields = { λ v. (v.pvno, v.msg_type, v.ap_options, v.ticket, v.authenticator) };

    ghost with_fields = { λ f. record { pvno = f.0; msg_type = f.1; ap_options = f.2; ticket = f.3; authenticator = f.4 } };

    fn from_fields((pvno, msg_type, ap_options, ticket, authenticator): Self::Fields) -> Self {
        ApReqInner {
            pvno,
            msg_type,
            ap_options,
            ticket,
            authenticator,
        }
    }
}

impl DerEncode for ApReqInner {
    ghost enc = { λ v. sequence (explicit 0 (integer v.pvno) ++ explicit 1 (integer v.msg_type) ++ explicit 2 (bit_string v.ap_options)
        ++ explicit 3 (⟦<Ticket as DerEncode>⟧.enc v.ticket) ++ explicit 4 (⟦<EncryptedData as DerEncode>⟧.enc v.authenticator)) };

    ghost is_value = { values_of ⟦<Self as Sequence>⟧ ⟦<<Self as Sequence>::Fields as Fields>⟧ };

    ghost first = { λ t. t == 48 };

    ghost is_element = { λ v h. tagged_element 48 _ };

    ghost one_value = { one_value_of ⟦<Self as Sequence>⟧ ⟦<<Self as Sequence>::Fields as Fields>⟧ (λ v. refl) (tt, tt, tt, tt, tt) };

    ghost error = { sequence_error ⟦<<Self as Sequence>::Fields as Fields>⟧ };

    ghost error_laws = { sequence_error_laws ⟦<Self as Sequence>⟧ ⟦<<Self as Sequence>::Fields as Fields>⟧ (tt, tt, tt, tt, tt) };

    fn starts(octet: u8) -> bool {
        octet == SEQUENCE
    }

    fn write(&self, alloc: Global, out: &mut Vec<u8>) -> Result<(), AllocError> {
        write_sequence(
            alloc,
            &field_refs!(self; pvno, msg_type, ap_options, ticket, authenticator),
            out,
        )
    }
}

impl Der for ApReqInner {
    fn read_element(alloc: Global, tag: u8, content: &[u8]) -> Result<Self, Asn1DerError> {
        read_sequence(alloc, tag, content)
    }
}

impl DerSequence for ApReqInner {
    ghost is_sequence = { λ v. (_, refl) };
}

/// The message by which a client authenticates to a server (RFC 4120, 5.5.1).
///
/// ```text
/// AP-REQ ::= [APPLICATION 14] SEQUENCE {
///     -- the fields of ApReqInner
/// }
/// ```
pub type ApReq = ApplicationTag<ApReqInner, AP_REQ_MSG_TYPE>;

/// What a KRB-AP-REP holds (RFC 4120, 5.5.2).
///
/// ```text
/// SEQUENCE {
///     pvno     [0] INTEGER (5),
///     msg-type [1] INTEGER (15),
///     enc-part [2] EncryptedData
/// }
/// ```
#[derive(Debug, Drop, PartialEq, Eq)]
pub struct ApRepInner {
    /// The version of the protocol.
    pub pvno: ExplicitContextTag0<IntegerAsn1>,
    /// The type of the message.
    pub msg_type: ExplicitContextTag1<IntegerAsn1>,
    /// The encrypted `EncApRepPart`.
    pub enc_part: ExplicitContextTag2<EncryptedData>,
}

impl Sequence for ApRepInner {
    type Fields = (
        ExplicitContextTag0<IntegerAsn1>,
        ExplicitContextTag1<IntegerAsn1>,
        ExplicitContextTag2<EncryptedData>,
    );

    ghost fields = { λ v. (v.pvno, v.msg_type, v.enc_part) };

    ghost with_fields = { λ f. record { pvno = f.0; msg_type = f.1; enc_part = f.2 } };

    fn from_fields((pvno, msg_type, enc_part): Self::Fields) -> Self {
        ApRepInner {
            pvno,
            msg_type,
            enc_part,
        }
    }
}

impl DerEncode for ApRepInner {
    ghost enc = { λ v. sequence (explicit 0 (integer v.pvno) ++ explicit 1 (integer v.msg_type)
        ++ explicit 2 (⟦<EncryptedData as DerEncode>⟧.enc v.enc_part)) };

    ghost is_value = { values_of ⟦<Self as Sequence>⟧ ⟦<<Self as Sequence>::Fields as Fields>⟧ };

    ghost first = { λ t. t == 48 };

    ghost is_element = { λ v h. tagged_element 48 _ };

    ghost one_value = { one_value_of ⟦<Self as Sequence>⟧ ⟦<<Self as Sequence>::Fields as Fields>⟧ (λ v. refl) (tt, tt, tt) };

    ghost error = { sequence_error ⟦<<Self as Sequence>::Fields as Fields>⟧ };

    ghost error_laws = { sequence_error_laws ⟦<Self as Sequence>⟧ ⟦<<Self as Sequence>::Fields as Fields>⟧ (tt, tt, tt) };

    fn starts(octet: u8) -> bool {
        octet == SEQUENCE
    }

    fn write(&self, alloc: Global, out: &mut Vec<u8>) -> Result<(), AllocError> {
        write_sequence(alloc, &field_refs!(self; pvno, msg_type, enc_part), out)
    }
}

impl Der for ApRepInner {
    fn read_element(alloc: Global, tag: u8, content: &[u8]) -> Result<Self, Asn1DerError> {
        read_sequence(alloc, tag, content)
    }
}

impl DerSequence for ApRepInner {
    ghost is_sequence = { λ v. (_, refl) };
}

/// The reply of a server to a client that asked for mutual authentication (RFC 4120, 5.5.2).
///
/// ```text
/// AP-REP ::= [APPLICATION 15] SEQUENCE {
///     -- the fields of ApRepInner
/// }
/// ```
pub type ApRep = ApplicationTag<ApRepInner, AP_REP_MSG_TYPE>;

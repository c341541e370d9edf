//! User-to-user authentication: how a client gets the ticket-granting ticket of a server that is a user.

ghost use Rattle.std.specs.Prelude.{◌==◌, ◌++◌, refl};
ghost use Rattle.krb_der.specs.Asn1.{explicit, integer, sequence};
ghost use Rattle.krb_der.specs.FieldErrors.{sequence_error};
ghost use Rattle.krb_der.specs.FieldErrorLaws.{sequence_error_laws};
ghost use Rattle.krb_der.specs.SequenceLaws.{one_value_of, values_of};
ghost use Rattle.krb_der.specs.TlvLaws.{tagged_element};

use krb_der::composite::{Fields, SEQUENCE, Sequence, read_sequence, write_sequence};
use krb_der::{
    Asn1DerError, Der, DerEncode, DerSequence, ExplicitContextTag0, ExplicitContextTag1,
    ExplicitContextTag2, IntegerAsn1, field_refs,
};
use krb_types::data_types::{PrincipalName, Ticket};
use std::alloc::{AllocError, Global};

/// A client asks a server for its ticket-granting ticket (draft-swift-win2k-krb-user2user-03, 6).
///
/// In the draft the name is optional, and an optional realm follows it. Here the name is mandatory, and nothing follows it.
///
/// ```text
/// KERB-TGT-REQUEST ::= SEQUENCE {
///     pvno        [0] INTEGER (5),
///     msg-type    [1] INTEGER (16),
///     server-name [2] PrincipalName
/// }
/// ```
#[derive(Debug, Drop, PartialEq, Eq)]
pub struct TgtReq {
    /// The version of the protocol.
    pub pvno: ExplicitContextTag0<IntegerAsn1>,
    /// The type of the message.
    pub msg_type: ExplicitContextTag1<IntegerAsn1>,
    /// The name of the server.
    pub server_name: ExplicitContextTag2<PrincipalName>,
}

impl Sequence for TgtReq {
    type Fields = (
        ExplicitContextTag0<IntegerAsn1>,
        ExplicitContextTag1<IntegerAsn1>,
        ExplicitContextTag2<PrincipalName>,
    );

    ghost fields = { λ v. (v.pvno, v.msg_type, v.server_name) };

    ghost with_fields = { λ f. record { pvno = f.0; msg_type = f.1; server_name = f.2 } };

    fn from_fields((pvno, msg_type, server_name): Self::Fields) -> Self {
        TgtReq {
            pvno,
            msg_type,
            server_name,
        }
    }
}

impl DerEncode for TgtReq {
    ghost enc = { λ v. sequence (explicit 0 (integer v.pvno) ++ explicit 1 (integer v.msg_type)
        ++ explicit 2 (⟦<PrincipalName as DerEncode>⟧.enc v.server_name)) };

    ghost is_value = { values_of ⟦<Self as Sequence>⟧ ⟦<<Self as Sequence>::Fields as Fields>⟧ };

    ghost first = { λ t. t == 48 };

    ghost is_element = { λ v h. tagged_element 48 _ };

    ghost one_value = { one_value_of ⟦<Self as Sequence>⟧ ⟦<<Self as Sequence>::Fields as Fields>⟧ (λ v. refl) (tt, tt, tt) };

    ghost error = { sequence_error ⟦<<Self as Sequence>::Fields as Fields>⟧ };

    ghost error_laws = { sequence_error_laws ⟦<Self as Sequence>⟧ ⟦<<Self as Sequence>::Fields as Fields>⟧ (tt, tt, tt) };

    fn starts(octet: u8) -> bool {
        octet == SEQUENCE
    }

    fn write(&self, alloc: Global, out: &mut Vec<u8>) -> Result<(), AllocError> {
        write_sequence(alloc, &field_refs!(self; pvno, msg_type, server_name), out)
    }
}

impl Der for TgtReq {
    fn read_element(alloc: Global, tag: u8, content: &[u8]) -> Result<Self, Asn1DerError> {
        read_sequence(alloc, tag, content)
    }
}

impl DerSequence for TgtReq {
    ghost is_sequence = { λ v. (_, refl) };
}

/// A server replies with its ticket-granting ticket (draft-swift-win2k-krb-user2user-03, 6).
///
/// ```text
/// KERB-TGT-REPLY ::= SEQUENCE {
///     pvno     [0] INTEGER (5),
///     msg-type [1] INTEGER (17),
///     ticket   [2] Ticket
/// }
/// ```
#[derive(Debug, Drop, PartialEq, Eq)]
pub struct TgtRep {
    /// The version of the protocol.
    pub pvno: ExplicitContextTag0<IntegerAsn1>,
    /// The type of the message.
    pub msg_type: ExplicitContextTag1<IntegerAsn1>,
    /// The ticket-granting ticket of the server.
    pub ticket: ExplicitContextTag2<Ticket>,
}

impl Sequence for TgtRep {
    type Fields = (
        ExplicitContextTag0<IntegerAsn1>,
        ExplicitContextTag1<IntegerAsn1>,
        ExplicitContextTag2<Ticket>,
    );

    ghost fields = { λ v. (v.pvno, v.msg_type, v.ticket) };

    ghost with_fields = { λ f. record { pvno = f.0; msg_type = f.1; ticket = f.2 } };

    fn from_fields((pvno, msg_type, ticket): Self::Fields) -> Self {
        TgtRep {
            pvno,
            msg_type,
            ticket,
        }
    }
}

impl DerEncode for TgtRep {
    ghost enc = { λ v. sequence (explicit 0 (integer v.pvno) ++ explicit 1 (integer v.msg_type) ++ explicit 2 (⟦<Ticket as DerEncode>⟧.enc v.ticket)) };

    ghost is_value = { values_of ⟦<Self as Sequence>⟧ ⟦<<Self as Sequence>::Fields as Fields>⟧ };

    ghost first = { λ t. t == 48 };

    ghost is_element = { λ v h. tagged_element 48 _ };

    ghost one_value = { one_value_of ⟦<Self as Sequence>⟧ ⟦<<Self as Sequence>::Fields as Fields>⟧ (λ v. refl) (tt, tt, tt) };

    ghost error = { sequence_error ⟦<<Self as Sequence>::Fields as Fields>⟧ };

    ghost error_laws = { sequence_error_laws ⟦<Self as Sequence>⟧ ⟦<<Self as Sequence>::Fields as Fields>⟧ (tt, tt, tt) };

    fn starts(octet: u8) -> bool {
        octet == SEQUENCE
    }

    fn write(&self, alloc: Global, out: &mut Vec<u8>) -> Result<(), AllocError> {
        write_sequence(alloc, &field_refs!(self; pvno, msg_type, ticket), out)
    }
}

impl Der for TgtRep {
    fn read_element(alloc: Global, tag: u8, content: &[u8]) -> Result<Self, Asn1DerError> {
        read_sequence(alloc, tag, content)
    }
}

impl DerSequence for TgtRep {
    ghost is_sequence = { λ v. (_, refl) };
}

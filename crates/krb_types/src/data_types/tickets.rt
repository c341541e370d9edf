//! Tickets.

ghost use Rattle.std.specs.Prelude.{◌==◌, ◌++◌, refl};
ghost use Rattle.krb_der.specs.Asn1.{explicit, general_string, integer, octet_string, sequence};
ghost use Rattle.krb_der.specs.FieldErrors.{sequence_error};
ghost use Rattle.krb_der.specs.FieldErrorLaws.{sequence_error_laws};
ghost use Rattle.krb_der.specs.SequenceLaws.{one_value_of, values_of};
ghost use Rattle.krb_der.specs.TlvLaws.{tagged_element};

use super::{EncryptedData, PrincipalName, Realm};
use krb_der::composite::{Fields, SEQUENCE, Sequence, read_sequence, write_sequence};
use krb_der::{
    ApplicationTag, Asn1DerError, Der, DerEncode, DerSequence, ExplicitContextTag0,
    ExplicitContextTag1, ExplicitContextTag2, ExplicitContextTag3, IntegerAsn1, OctetStringAsn1,
    field_refs,
};
use krb_registry::types::TICKET_TYPE;
use std::alloc::{AllocError, Global};

/// The realms that took part in authenticating the client (RFC 4120, 5.3).
///
/// ```text
/// TransitedEncoding ::= SEQUENCE {
///     tr-type  [0] Int32,
///     contents [1] OCTET STRING
/// }
/// ```
#[derive(Debug, Drop, PartialEq, Eq)]
pub struct TransitedEncoding {
    /// How the names are encoded.
    pub tr_type: ExplicitContextTag0<IntegerAsn1>,
    /// The encoded names of the realms.
    pub contents: ExplicitContextTag1<OctetStringAsn1>,
}

impl Sequence for TransitedEncoding {
    type Fields = (
        ExplicitContextTag0<IntegerAsn1>,
        ExplicitContextTag1<OctetStringAsn1>,
    );

    ghost fields = { λ v. (v.tr_type, v.contents) };

    ghost with_fields = { λ f. record { tr_type = f.0; contents = f.1 } };

    fn from_fields((tr_type, contents): Self::Fields) -> Self {
        TransitedEncoding { tr_type, contents }
    }
}

impl DerEncode for TransitedEncoding {
    ghost enc = { λ v. sequence (explicit 0 (integer v.tr_type) ++ explicit 1 (octet_string v.contents)) };

    ghost is_value = { values_of ⟦<Self as Sequence>⟧ ⟦<<Self as Sequence>::Fields as Fields>⟧ };

    ghost first = { λ t. t == 48 };

    ghost is_element = { λ v h. tagged_element 48 _ };

    ghost one_value = { one_value_of ⟦<Self as Sequence>⟧ ⟦<<Self as Sequence>::Fields as Fields>⟧ (λ v. refl) (tt, tt) };

    ghost error = { sequence_error ⟦<<Self as Sequence>::Fields as Fields>⟧ };

    ghost error_laws = { sequence_error_laws ⟦<Self as Sequence>⟧ ⟦<<Self as Sequence>::Fields as Fields>⟧ (tt, tt) };

    fn starts(octet: u8) -> bool {
        octet == SEQUENCE
    }

    fn write(&self, alloc: Global, out: &mut Vec<u8>) -> Result<(), AllocError> {
        write_sequence(alloc, &field_refs!(self; tr_type, contents), out)
    }
}

impl Der for TransitedEncoding {
    fn read_element(alloc: Global, tag: u8, content: &[u8]) -> Result<Self, Asn1DerError> {
        read_sequence(alloc, tag, content)
    }
}

impl DerSequence for TransitedEncoding {
    ghost is_sequence = { λ v. (_, refl) };
}

/// What a ticket holds (RFC 4120, 5.3).
///
/// ```text
/// SEQUENCE {
///     tkt-vno  [0] INTEGER (5),
///     realm    [1] Realm,
///     sname    [2] PrincipalName,
///     enc-part [3] EncryptedData
/// }
/// ```
#[derive(Debug, Drop, PartialEq, Eq)]
pub struct TicketInner {
    /// The version of the form of the ticket.
    pub tkt_vno: ExplicitContextTag0<IntegerAsn1>,
    /// The realm that issued the ticket, which is the server's too.
    pub realm: ExplicitContextTag1<Realm>,
    /// The name of the server.
    pub sname: ExplicitContextTag2<PrincipalName>,
    /// The encrypted `EncTicketPart`.
    pub enc_part: ExplicitContextTag3<EncryptedData>,
}

impl Sequence for TicketInner {
    type Fields = (
        ExplicitContextTag0<IntegerAsn1>,
        ExplicitContextTag1<Realm>,
        ExplicitContextTag2<PrincipalName>,
        ExplicitContextTag3<EncryptedData>,
    );

    ghost fields = { λ v. (v.tkt_vno, v.realm, v.sname, v.enc_part) };

    ghost with_fields = { λ f. record { tkt_vno = f.0; realm = f.1; sname = f.2; enc_part = f.3 } };

    fn from_fields((tkt_vno, realm, sname, enc_part): Self::Fields) -> Self {
        TicketInner {
            tkt_vno,
            realm,
            sname,
            enc_part,
        }
    }
}

impl DerEncode for TicketInner {
    ghost enc = { λ v. sequence (explicit 0 (integer v.tkt_vno) ++ explicit 1 (general_string v.realm)
        ++ explicit 2 (⟦<PrincipalName as DerEncode>⟧.enc v.sname) ++ explicit 3 (⟦<EncryptedData as DerEncode>⟧.enc v.enc_part)) };

    ghost is_value = { values_of ⟦<Self as Sequence>⟧ ⟦<<Self as Sequence>::Fields as Fields>⟧ };

    ghost first = { λ t. t == 48 };

    ghost is_element = { λ v h. tagged_element 48 _ };

    ghost one_value = { one_value_of ⟦<Self as Sequence>⟧ ⟦<<Self as Sequence>::Fields as Fields>⟧ (λ v. refl) (tt, tt, tt, tt) };

    ghost error = { sequence_error ⟦<<Self as Sequence>::Fields as Fields>⟧ };

    ghost error_laws = { sequence_error_laws ⟦<Self as Sequence>⟧ ⟦<<Self as Sequence>::Fields as Fields>⟧ (tt, tt, tt, tt) };

    fn starts(octet: u8) -> bool {
        octet == SEQUENCE
    }

    fn write(&self, alloc: Global, out: &mut Vec<u8>) -> Result<(), AllocError> {
        write_sequence(
            alloc,
            &field_refs!(self; tkt_vno, realm, sname, enc_part),
            out,
        )
    }
}

impl Der for TicketInner {
    fn read_element(alloc: Global, tag: u8, content: &[u8]) -> Result<Self, Asn1DerError> {
        read_sequence(alloc, tag, content)
    }
}

impl DerSequence for TicketInner {
    ghost is_sequence = { λ v. (_, refl) };
}

/// A ticket, which shows a server who its client is (RFC 4120, 5.3).
///
/// ```text
/// Ticket ::= [APPLICATION 1] SEQUENCE {
///     -- the fields of TicketInner
/// }
/// ```
pub type Ticket = ApplicationTag<TicketInner, TICKET_TYPE>;

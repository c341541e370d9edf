//! Forwarded tickets.

ghost use Rattle.std.specs.Prelude.{◌==◌, ◌++◌, refl};
ghost use Rattle.krb_der.specs.Asn1.{explicit, integer, sequence, sequence_of};
ghost use Rattle.krb_der.specs.FieldErrors.{sequence_error};
ghost use Rattle.krb_der.specs.FieldErrorLaws.{sequence_error_laws};
ghost use Rattle.krb_der.specs.SequenceLaws.{one_value_of, values_of};
ghost use Rattle.krb_der.specs.TlvLaws.{tagged_element};

use krb_der::composite::{Fields, SEQUENCE, Sequence, read_sequence, write_sequence};
use krb_der::{
    ApplicationTag, Asn1DerError, Asn1SequenceOf, Der, DerEncode, DerSequence, ExplicitContextTag0,
    ExplicitContextTag1, ExplicitContextTag2, ExplicitContextTag3, IntegerAsn1, field_refs,
};
use krb_registry::types::KRB_CRED_MSG_TYPE;
use krb_types::data_types::{EncryptedData, Ticket};
use std::alloc::{AllocError, Global};

/// What a KRB-CRED holds (RFC 4120, 5.8.1).
///
/// ```text
/// SEQUENCE {
///     pvno     [0] INTEGER (5),
///     msg-type [1] INTEGER (22),
///     tickets  [2] SEQUENCE OF Ticket,
///     enc-part [3] EncryptedData
/// }
/// ```
#[derive(Debug, Drop, PartialEq, Eq)]
pub struct KrbCredInner {
    /// The version of the protocol.
    pub pvno: ExplicitContextTag0<IntegerAsn1>,
    /// The type of the message.
    pub msg_type: ExplicitContextTag1<IntegerAsn1>,
    /// The forwarded tickets.
    pub tickets: ExplicitContextTag2<Asn1SequenceOf<Ticket>>,
    /// The encrypted `EncKrbCredPart`.
    pub enc_part: ExplicitContextTag3<EncryptedData>,
}

impl Sequence for KrbCredInner {
    type Fields = (
        ExplicitContextTag0<IntegerAsn1>,
        ExplicitContextTag1<IntegerAsn1>,
        ExplicitContextTag2<Asn1SequenceOf<Ticket>>,
        ExplicitContextTag3<EncryptedData>,
    );

    ghost fields = { λ v. (v.pvno, v.msg_type, v.tickets, v.enc_part) };

    ghost with_fields = { λ f. record { pvno = f.0; msg_type = f.1; tickets = f.2; enc_part = f.3 } };

    fn from_fields((pvno, msg_type, tickets, enc_part): Self::Fields) -> Self {
        KrbCredInner {
            pvno,
            msg_type,
            tickets,
            enc_part,
        }
    }
}

impl DerEncode for KrbCredInner {
    ghost enc = { λ v. sequence (explicit 0 (integer v.pvno) ++ explicit 1 (integer v.msg_type)
        ++ explicit 2 (sequence_of ⟦<Ticket as DerEncode>⟧.enc v.tickets) ++ explicit 3 (⟦<EncryptedData as DerEncode>⟧.enc v.enc_part)) };

    ghost is_value = { values_of ⟦<Self as Sequence>⟧ ⟦<<Self as Sequence>::Fields as Fields>⟧ };

    ghost first = { λ t. t == 48 };

    ghost is_element = { λ v h. tagged_element 48 _ };

    ghost one_value = { one_value_of ⟦<Self as Sequence>⟧ ⟦<<Self as Sequence>::Fields as Fields>⟧ (λ v. refl) (tt, tt, tt, tt) };

    ghost error = { sequence_error ⟦<<Self as Sequence>::Fields as Fields>⟧ };

    ghost error_laws = { sequence_error_laws ⟦<Self as Sequence>⟧ ⟦<<Self as Sequence>::Fields as Fields>⟧ (tt, tt, tt, tt) };

    fn starts(octet: u8) -> bool {
        octet == SEQUENCE
    }

    fn write(&self, alloc: Global, out: &mut Vec<u8>) -> Result<(), AllocError> {
        write_sequence(
            alloc,
            &field_refs!(self; pvno, msg_type, tickets, enc_part),
            out,
        )
    }
}

impl Der for KrbCredInner {
    fn read_element(alloc: Global, tag: u8, content: &[u8]) -> Result<Self, Asn1DerError> {
        read_sequence(alloc, tag, content)
    }
}

impl DerSequence for KrbCredInner {
    ghost is_sequence = { λ v. (_, refl) };
}

/// Forwarded tickets, with the data that their use needs (RFC 4120, 5.8.1).
///
/// ```text
/// KRB-CRED ::= [APPLICATION 22] SEQUENCE {
///     -- the fields of KrbCredInner
/// }
/// ```
pub type KrbCred = ApplicationTag<KrbCredInner, KRB_CRED_MSG_TYPE>;

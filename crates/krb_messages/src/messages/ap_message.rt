//! Either message of an exchange with a server.

ghost use Rattle.std.specs.Prelude.{◌==◌, ◌||◌};
ghost use Rattle.krb_der.specs.Choice.{ChoiceError, IsChoice, choice};
ghost use Rattle.krb_der.specs.ChoiceLaws.{choice_element, choice_error_laws, choice_one_value};
ghost use Rattle.krb_messages.specs.ApMessage.{held, held_decides, tags_apart};

use crate::messages::{ApRep, ApReq};
use krb_der::{Asn1DerError, Der, DerEncode};
use std::alloc::{AllocError, Global};

/// The first octet of a KRB-AP-REQ: application 14 (RFC 4120, 5.5.1).
const AP_REQ: u8 = 0x6e;

/// The first octet of a KRB-AP-REP: application 15 (RFC 4120, 5.5.2).
const AP_REP: u8 = 0x6f;

/// A KRB-AP-REQ or a KRB-AP-REP, as a KRB-PRIV follows either (RFC 3244, 2).
///
/// ```text
/// CHOICE {
///     ap-req AP-REQ,
///     ap-rep AP-REP
/// }
/// ```
///
/// The first octet, `6e` or `6f`, distinguishes them: any other is `InvalidData`.
#[derive(Debug, Drop, PartialEq, Eq)]
pub enum ApMessage {
    /// The client's message.
    ApReq(ApReq),
    /// The server's reply.
    ApRep(ApRep),
}

impl DerEncode for ApMessage {
    ghost enc = { λ m. choice ⟦<ApReq as DerEncode>⟧.enc ⟦<ApRep as DerEncode>⟧.enc (held m) };

    ghost is_value = { λ m. IsChoice ⟦<ApReq as DerEncode>⟧.is_value ⟦<ApRep as DerEncode>⟧.is_value (held m) };

    ghost first = { λ t. t == 110 || t == 111 };

    ghost is_element = { λ v h. choice_element 110 111 _ _ (held v) };

    ghost one_value = { choice_one_value 110 111 _ _ tags_apart _ _ ⟦<ApReq as DerEncode>⟧.one_value ⟦<ApRep as DerEncode>⟧.one_value held held_decides };

    ghost error = { ChoiceError 110 111 ⟦<ApReq as DerEncode>⟧.error ⟦<ApRep as DerEncode>⟧.error };

    ghost error_laws = { choice_error_laws 110 111 _ _ tags_apart _ _ _ _ ⟦<ApReq as DerEncode>⟧.error_laws ⟦<ApRep as DerEncode>⟧.error_laws held };

    fn starts(octet: u8) -> bool {
        octet == AP_REQ || octet == AP_REP
    }

    fn write(&self, alloc: Global, out: &mut Vec<u8>) -> Result<(), AllocError> {
        match self {
            ApMessage::ApReq(request) => request.write(alloc, out),
            ApMessage::ApRep(reply) => reply.write(alloc, out),
        }
    }
}

impl Der for ApMessage {
    fn read_element(alloc: Global, tag: u8, content: &[u8]) -> Result<Self, Asn1DerError> {
        match tag {
            AP_REQ => Ok(ApMessage::ApReq(ApReq::read_element(alloc, tag, content)?)),
            AP_REP => Ok(ApMessage::ApRep(ApRep::read_element(alloc, tag, content)?)),
            _ => Err(Asn1DerError::InvalidData),
        }
    }
}

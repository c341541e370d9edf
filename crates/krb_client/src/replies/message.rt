//! Messages, checked by their numbers.

ghost use Rattle.std.specs.Prelude.{◌≡◌, ◌≢◌, ◌⊎◌, pos, IfOk, IfErr};
ghost use Rattle.krb_client.specs.Messages.{IsMessage, IsNoMessage};
ghost use Rattle.krb_client.specs.declared.replies.error.ReplyError.TheVariants as errors;
ghost use Rattle.krb_der.specs.Whole.{Encodes, IsNotRead};
ghost use Rattle.krb_der_core.specs.declared.error.Asn1DerError.{Asn1DerError};
ghost use Rattle.krb_der_core.specs.declared.error.Asn1DerError.TheVariants as der;

use crate::replies::error::ReplyError;
use crate::replies::numbered::Numbered;
use krb_der::{Der, DerEncode, IntegerAsn1, from_bytes};
use std::alloc::Global;

/// pvno (RFC 4120, 5.4.2, 5.5.2 and 5.9.1).
const VERSION: u32 = 5;

/// The value whose one encoding the octets are.
fn decoded<T: Der + Drop>(alloc: Global, octets: &[u8]) -> Result<T, ReplyError>
    ensures found { IfOk result (Encodes ⟦<T as DerEncode>⟧ octets.now) }
    ensures rejected { IfErr result (λ e. (why : Asn1DerError) × (e ≡ errors.Message why)
        × ((why ≡ der.OutOfMemory) ⊎ IsNotRead ⟦<T as DerEncode>⟧ octets.now why)) }
{
    match from_bytes(alloc, octets) {
        Ok(value) => Ok(value),
        Err(error) => Err(ReplyError::Message(error)),
    }
}

/// Whether pvno is 5, and msg-type this number.
fn has_numbers(pvno: &IntegerAsn1, msg_type: &IntegerAsn1, number: u8) -> Result<(), ReplyError>
    ensures found { IfOk result (λ _. (pvno.now ≡ pos 5) × (msg_type.now ≡ pos number)) }
    ensures rejected { IfErr result (λ e. ((e ≡ errors.Pvno) × (pvno.now ≢ pos 5))
        ⊎ ((e ≡ errors.MsgType) × (pvno.now ≡ pos 5) × (msg_type.now ≢ pos number))) }
{
    if !pvno.is_number(VERSION) {
        return Err(ReplyError::Pvno);
    }
    if !msg_type.is_number(u32::from(number)) {
        return Err(ReplyError::MsgType);
    }
    Ok(())
}

/// The message of this type whose one encoding the octets are.
pub(crate) fn message_of<T: Der + Numbered + Drop>(
    alloc: Global,
    number: u8,
    octets: &[u8],
) -> Result<T, ReplyError>
    ensures found { IfOk result (IsMessage ⟦<T as DerEncode>⟧ T.numbers number octets.now) }
    ensures rejected { IfErr result (IsNoMessage ⟦<T as DerEncode>⟧ T.numbers number octets.now) }
{
    let message: T = decoded(alloc, octets)?;
    has_numbers(message.pvno(), message.msg_type(), number)?;
    Ok(message)
}

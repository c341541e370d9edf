//! Messages, checked by their kind.

ghost use Rattle.std.specs.Prelude.{◌≡◌, ◌≢◌, ◌⊎◌, pos, IfOk, IfErr};
ghost use Rattle.krb_der.specs.Whole.{Encodes};
ghost use Rattle.krb_kdc_proxy.specs.Messages.{IsMessage, IsNoEncoding, IsNoMessage, OrMemory, number_of};
ghost use Rattle.krb_kdc_proxy.specs.declared.error.ProxyError.TheVariants as errors;
ghost use Rattle.krb_messages.specs.declared.kpasswd.error.MessageError.{MessageError};

use crate::error::{ProxyError, message_error};
use crate::kind::MessageKind;
use crate::numbered::Numbered;
use krb_der::{Der, DerEncode, IntegerAsn1, from_bytes};
use std::alloc::Global;

/// The value whose one encoding the octets are.
fn decoded<T: Der + Drop>(alloc: Global, kind: MessageKind, octets: &[u8]) -> Result<T, ProxyError>
    ensures found { IfOk result (Encodes ⟦<T as DerEncode>⟧ octets.now) }
    ensures rejected { IfErr result
        (OrMemory (λ e. (error : MessageError) × (e ≡ errors.Message kind error) × IsNoEncoding ⟦<T as DerEncode>⟧ octets.now error)) }
{
    match from_bytes(alloc, octets) {
        Ok(value) => Ok(value),
        Err(error) => Err(message_error(kind, error)),
    }
}

/// Whether pvno is 5, and msg-type that of the kind.
fn has_numbers(
    pvno: &IntegerAsn1,
    msg_type: &IntegerAsn1,
    kind: MessageKind,
) -> Result<(), ProxyError>
    ensures found { IfOk result (λ _. (pvno.now ≡ pos 5) × (msg_type.now ≡ pos (number_of kind))) }
    ensures rejected { IfErr result (λ e. ((e ≡ errors.Pvno kind) × (pvno.now ≢ pos 5))
        ⊎ ((e ≡ errors.MsgType kind) × (pvno.now ≡ pos 5) × (msg_type.now ≢ pos (number_of kind)))) }
{
    if pvno.to_i64() != Some(5) {
        return Err(ProxyError::Pvno(kind));
    }
    if msg_type.to_i64() != Some(kind.number()) {
        return Err(ProxyError::MsgType(kind));
    }
    Ok(())
}

/// The message of this kind whose one encoding the octets are.
pub(crate) fn message_of<T: Der + Numbered + Drop>(
    alloc: Global,
    kind: MessageKind,
    octets: &[u8],
) -> Result<T, ProxyError>
    ensures found { IfOk result (IsMessage ⟦<T as DerEncode>⟧ T.numbers kind octets.now) }
    ensures rejected { IfErr result (OrMemory (IsNoMessage ⟦<T as DerEncode>⟧ T.numbers kind octets.now)) }
{
    let message: T = decoded(alloc, kind, octets)?;
    has_numbers(message.pvno(), message.msg_type(), kind)?;
    Ok(message)
}

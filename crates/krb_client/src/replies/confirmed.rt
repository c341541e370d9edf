//! A server's reply that shows that it has the key (RFC 4120, 3.2.4 and 3.2.5).

ghost use Rattle.std.specs.Prelude.{◌≡◌, MatchBool, IfErr, IfOk};
ghost use Rattle.krb_client_rules.specs.Times.{HasTime};
ghost use Rattle.krb_client.specs.Confirmed.{IsConfirmed, IsNotConfirmed, ap_form, ap_rep_form};
ghost use Rattle.krb_messages.specs.declared.messages.application.ApRepInner.{ApRepInner};
ghost use Rattle.krb_enc_parts.specs.declared.data_types.authenticators.EncApRepPartInner.{EncApRepPartInner};

use crate::replies::error::ReplyError;
use crate::replies::message::message_of;
use crate::replies::numbered::Numbered;
use crate::replies::opened::part_under;
use krb_client_rules::{Key, Mismatch, Sent, has_time};
use krb_der::{ApplicationTag, Der, DerEncode, IntegerAsn1};
use krb_enc_parts::data_types::{EncApRepPart, EncApRepPartInner};
use krb_messages::messages::{ApRep, ApRepInner};
use krb_registry::key_usages::AP_REP_ENC;
use krb_registry::types::AP_REP_MSG_TYPE;
use std::alloc::Global;

/// An AP-REP, under its tag.
trait ApReply {
    /// Its fields.
    ghost content: { Self → ApRepInner };

    /// The encryption type of the part.
    fn etype(&self) -> &IntegerAsn1
        ensures { result.now ≡ (content self.now).enc_part.etype };

    /// The encrypted octets of the part.
    fn cipher(&self) -> &[u8]
        ensures { result.now ≡ (content self.now).enc_part.cipher };
}

impl<const N: u8> ApReply for ApplicationTag<ApRepInner, N> {
    ghost content = { λ v. v };

    fn etype(&self) -> &IntegerAsn1 {
        &self.0.enc_part.0.etype.0
    }

    fn cipher(&self) -> &[u8] {
        self.0.enc_part.0.cipher.0.0.as_slice()
    }
}

/// The part of an AP-REP, under its tag.
trait ApPart {
    /// Its fields.
    ghost content: { Self → EncApRepPartInner };

    /// Whether it has the time that was sent.
    fn is_at(&self, sent: &Sent) -> bool
        ensures { MatchBool result (HasTime sent.now (content self.now)) (HasTime sent.now (content self.now) → ⊥) };

    /// Its fields.
    fn into_content(self) -> EncApRepPartInner
        ensures { result ≡ content self };
}

impl<const N: u8> ApPart for ApplicationTag<EncApRepPartInner, N> {
    ghost content = { λ v. v };

    fn is_at(&self, sent: &Sent) -> bool {
        has_time(&self.0, sent)
    }

    fn into_content(self) -> EncApRepPartInner {
        self.0
    }
}

/// The part of a reply that opens under the key to the time that was sent.
fn confirmed<M: Der + Numbered + ApReply + Drop, P: Der + ApPart + Drop>(
    alloc: Global,
    sent: &Sent,
    key: &Key,
    octets: &[u8],
) -> Result<EncApRepPartInner, ReplyError>
    ensures found { IfOk result
        (IsConfirmed (ap_form ⟦<M as DerEncode>⟧ M.numbers M.content ⟦<P as DerEncode>⟧ P.content)
        sent.now key.now octets.now) }
    ensures rejected { IfErr result
        (IsNotConfirmed (ap_form ⟦<M as DerEncode>⟧ M.numbers M.content ⟦<P as DerEncode>⟧ P.content)
        sent.now key.now octets.now) }
{
    let message: M = message_of(alloc, AP_REP_MSG_TYPE, octets)?;
    if !message.etype().is_number(u32::from(&key.suite)) {
        return Err(ReplyError::Mismatch(Mismatch::EncryptionType));
    }
    let part: P = part_under(alloc, key, AP_REP_ENC, message.cipher())?;
    if !part.is_at(sent) {
        return Err(ReplyError::Mismatch(Mismatch::Time));
    }
    Ok(part.into_content())
}

/// The part of an AP-REP, which is under the session key of the ticket, key usage 12, and has the
/// time of the authenticator that was sent (RFC 4120, 3.2.5).
///
/// Else the error is that of the first rule that the octets break, in the order of `ReplyError`; of
/// `Mismatch`, it is `EncryptionType` or `Time`.
pub fn check_ap_rep(
    alloc: Global,
    sent: &Sent,
    key: &Key,
    octets: &[u8],
) -> Result<EncApRepPartInner, ReplyError>
    ensures found { IfOk result
        (IsConfirmed (ap_rep_form ⟦<ApRep as DerEncode>⟧ ⟦<EncApRepPart as DerEncode>⟧) sent.now key.now octets.now) }
    ensures rejected { IfErr result
        (IsNotConfirmed (ap_rep_form ⟦<ApRep as DerEncode>⟧ ⟦<EncApRepPart as DerEncode>⟧) sent.now key.now octets.now) }
{
    confirmed::<ApRep, EncApRepPart>(alloc, sent, key, octets)
}

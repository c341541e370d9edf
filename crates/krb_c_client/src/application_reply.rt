//! Whether a service answers the request.

ghost use Rattle.std.specs.Prelude.{◌≡◌, IfErr, IfOk};
ghost use Rattle.krb_c_client.specs.Confirmed.{IsConfirmedPart, IsNotConfirmedPart, IsReplyCall, IsSessionKey, reply_inputs_of, sent_of};
ghost use Rattle.krb_c_client.specs.Suites.{IsNoSuite};

use crate::refusal::Refusal;
use crate::rules::reply_refusal;
use crate::tell::tell_octets;
use krb_c_calls::CallError;
use krb_c_calls::suites::cipher_suite_of;
use krb_client::{Key, Sent, check_ap_rep};
use krb_der::{ApplicationTag, DerEncode, encoding};
use krb_enc_parts::data_types::{EncApRepPart, EncApRepPartInner};
use krb_messages::messages::ApRep;
use std::alloc::{AllocError, Global};

/// What a service sent, and to what it has to be the answer.
#[derive(Clone, Copy)]
pub struct ReplyAsked<'a> {
    /// The encryption type of the session key.
    pub session_etype: i32,
    /// The octets of the session key.
    pub session_key: &'a [u8],
    /// The time that was sent, in seconds since 1 January 1970, 00:00:00 UTC.
    pub seconds: i64,
    /// The microseconds after it.
    pub microseconds: u32,
    /// What the service sent.
    pub reply: &'a [u8],
}

/// The session key. `Number` where its encryption type has no suite.
fn session_key(alloc: Global, asked: &ReplyAsked) -> Result<Key, CallError>
    ensures found { IfOk result (IsSessionKey (reply_inputs_of asked.now)) }
    ensures refused { IfErr result (IsNoSuite asked.now.session_etype) }
{
    let suite = cipher_suite_of(asked.session_etype)?;
    let octets = Vec::from_slice(alloc, asked.session_key)?;
    Ok(Key { suite, octets })
}

/// The time that was sent.
fn sent_of(asked: &ReplyAsked) -> Sent
    ensures { result ≡ sent_of (reply_inputs_of asked.now) }
{
    Sent {
        seconds: asked.seconds,
        microseconds: asked.microseconds,
    }
}

/// The encoding of the part.
fn part_octets(alloc: Global, part: EncApRepPartInner) -> Result<Vec<u8>, AllocError>
    ensures { IfOk result (λ octets. octets.items ≡ ⟦<EncApRepPart as DerEncode>⟧.enc part) }
{
    let part: EncApRepPart = ApplicationTag(part);
    encoding(alloc, &part)
}

/// What becomes of a call.
fn decided(alloc: Global, asked: &ReplyAsked) -> Result<Vec<u8>, Refusal>
    ensures confirmed { IfOk result (λ octets. IsConfirmedPart ⟦<ApRep as DerEncode>⟧ ⟦<EncApRepPart as DerEncode>⟧ (reply_inputs_of asked.now) octets.items) }
    ensures refused { IfErr result (IsNotConfirmedPart ⟦<ApRep as DerEncode>⟧ ⟦<EncApRepPart as DerEncode>⟧ (reply_inputs_of asked.now)) }
{
    let key = session_key(alloc, asked)?;
    let sent = sent_of(asked);
    match check_ap_rep(alloc, &sent, &key, asked.reply) {
        Ok(part) => Ok(part_octets(alloc, part)?),
        Err(error) => Err(reply_refusal(&error)),
    }
}

/// Whether an AP-REP confirms the service (RFC 4120, 3.2.5): it opens under the session key to the
/// very time that was sent. Its part's encoding is handed out.
///
/// 0 where it does; 1 where the part has more octets than `out` has. 42 where it does not: `rule`
/// tells why. 3 where the encryption type has no suite; 2 where an allocation failed. But for 42
/// `rule` is 0.
pub fn ap_reply(
    alloc: Global,
    asked: &ReplyAsked,
    rule: &mut u32,
    out: &mut [u8],
    size: &mut usize,
) -> u32
    ensures { IsReplyCall ⟦<ApRep as DerEncode>⟧ ⟦<EncApRepPart as DerEncode>⟧ (reply_inputs_of asked.now) rule.new out.old out.new size.new result }
{
    let outcome = decided(alloc, asked);
    tell_octets(&outcome, rule, out, size)
}

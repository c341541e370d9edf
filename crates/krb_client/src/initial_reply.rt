//! Replies of an exchange for a first ticket (RFC 4120, 3.1.5).

ghost use Rattle.std.specs.Prelude.{◌≡◌, None, MatchBool, MatchOption, IfErr, IfOk};
ghost use Rattle.krb_client.specs.Initial.{IsChecked, IsNotChecked, IsReplyTaken, RefusesReply};
ghost use Rattle.krb_client.specs.Passing.{HasNotOtherNonce, IsNotPassedOver, IsPassedOver};
ghost use Rattle.krb_client.specs.declared.replies.error.ReplyError.TheVariants as replies;
ghost use Rattle.krb_client_rules.specs.declared.mismatch.Mismatch.TheVariants as rule;

use crate::error::ClientError;
use crate::hint::key_of_reply;
use crate::initial::InitialExchange;
use crate::keys::Secret;
use crate::messages::{Encodings, Rfc4120};
use crate::moment::Moment;
use crate::replies::{Granted, ReplyError, check_as_rep};
use crate::terms::Terms;
use crate::time::clock_of;
use krb_client_rules::{Key, Mismatch};
use std::alloc::Global;

/// Whether the reply opens and is of another request: its nonce is the first rule that it breaks.
fn has_other_nonce(error: &ReplyError) -> bool
    ensures { MatchBool result (error.now ≡ replies.Mismatch rule.Nonce) (HasNotOtherNonce error.now) }
{
    match error {
        ReplyError::Mismatch(Mismatch::Nonce) => true,
        _ => false,
    }
}

/// Whether a reply is passed over: it opens and is of another request, and the transport may
/// deliver such replies.
pub(crate) fn is_passed_over(terms: &Terms, error: &ReplyError) -> bool
    ensures { MatchBool result (IsPassedOver terms.now error.now) (IsNotPassedOver terms.now error.now) }
{
    terms.datagrams && has_other_nonce(error)
}

/// What an AS-REP grants under this key; `None` where it is passed over.
fn checked(
    alloc: Global,
    terms: &Terms,
    exchange: &InitialExchange,
    key: &Key,
    moment: &Moment,
    octets: &[u8],
) -> Result<Option<Granted>, ClientError>
    ensures checked { IfOk result
        (IsChecked ⟦<Rfc4120 as Encodings>⟧.initial terms.now exchange.now moment.now octets.now key.now) }
    ensures rejected { IfErr result
        (IsNotChecked ⟦<Rfc4120 as Encodings>⟧.initial terms.now exchange.now moment.now octets.now key.now) }
{
    let clock = clock_of(terms, &exchange.offset, moment);
    match check_as_rep(alloc, &exchange.asked, &clock, key, octets) {
        Ok(granted) => Ok(Some(granted)),
        Err(error) => {
            if is_passed_over(terms, &error) {
                Ok(None)
            } else {
                Err(ClientError::Reply(error))
            }
        }
    }
}

/// What an AS-REP grants: under the key under which the time was sent, and where none was, under
/// the client's key for the reply. `None` where it is passed over.
pub(crate) fn granted(
    alloc: Global,
    terms: &Terms,
    exchange: &InitialExchange,
    secret: &Secret,
    moment: &Moment,
    octets: &[u8],
) -> Result<Option<Granted>, ClientError>
    ensures granted { IfOk result
        (IsReplyTaken ⟦<Rfc4120 as Encodings>⟧.initial terms.now exchange.now secret.now moment.now octets.now) }
    ensures rejected { IfErr result
        (RefusesReply ⟦<Rfc4120 as Encodings>⟧.initial terms.now exchange.now secret.now moment.now octets.now) }
{
    match &exchange.key {
        Some(key) => checked(alloc, terms, exchange, key, moment, octets),
        None => {
            let key = key_of_reply(alloc, &exchange.asked, secret, &terms.limits, octets)?;
            checked(alloc, terms, exchange, &key, moment, octets)
        }
    }
}

//! The rules that an AP-REQ keeps before anything is opened (RFC 4120, 3.2.3).

ghost use Rattle.std.specs.Prelude.{◌≡◌, IfErr, OnOk, MatchBool};
ghost use Rattle.krb_accept_rules.specs.FirstFault.{Keeps, RefusesFirst};
ghost use Rattle.krb_accept_rules.specs.Firsts.{OneIs};
ghost use Rattle.krb_accept_rules.specs.Keys.{Fits, ShowsVersion};
ghost use Rattle.krb_accept_rules.specs.declared.refusal.Rule.TheVariants as Rules;
ghost use Rattle.krb_accept_rules.specs.RequestRules.{HasItsSessionKey, RequestRule, ShowsOfRequest, form_order, key_order, request_order, suite_order};

use crate::authenticator::is_permitted;
use crate::fields::RequestFields;
use crate::flags::has_flags;
use crate::key::{ServiceKey, Sought, first_key, keys_for, uses_session_key, version_seen};
use crate::opening::Opening;
use crate::refusal::{Refusal, Rule};
use crate::servers::is_served;
use crate::terms::Terms;

/// pvno and tkt-vno (RFC 4120, 5.3 and 5.5.1).
const VERSION: u32 = 5;

/// msg-type of an AP-REQ (RFC 4120, 5.5.1).
const AP_REQ: u32 = 14;

/// Whether the caller has a session key where the ticket is sealed under one.
fn has_its_session_key(request: &RequestFields, session_keys: &[ServiceKey]) -> bool
    ensures { MatchBool result (HasItsSessionKey request.now session_keys.now)
        (HasItsSessionKey request.now session_keys.now → ⊥) }
{
    match session_keys {
        [] => !uses_session_key(request),
        [_first, ..] => true,
    }
}

/// Whether the rules are kept that need no key; else the first that is broken.
fn check_form<O: Opening>(
    terms: &Terms,
    keys: &[ServiceKey],
    session_keys: &[ServiceKey],
    request: &RequestFields,
) -> Result<(), Refusal>
    ensures kept { OnOk result (Keeps (RequestRule ⟦<O as Opening>⟧ terms.now keys.now session_keys.now request.now) form_order) }
    ensures broken { IfErr result (RefusesFirst (RequestRule ⟦<O as Opening>⟧ terms.now keys.now session_keys.now request.now)
        (ShowsOfRequest request.now) form_order) }
{
    if !request.version.is_number(VERSION) {
        return Err(Refusal::plain(Rule::Version));
    }
    if !request.message_type.is_number(AP_REQ) {
        return Err(Refusal::plain(Rule::MessageType));
    }
    if !request.ticket_version.is_number(VERSION) {
        return Err(Refusal::plain(Rule::TicketVersion));
    }
    if !has_flags(&request.options) {
        return Err(Refusal::plain(Rule::Options));
    }
    if !has_its_session_key(request, session_keys) {
        return Err(Refusal::plain(Rule::UserToUser));
    }
    Ok(())
}

/// Whether one of the keys is sought; else this is the refusal.
fn require(
    keys: &[ServiceKey],
    request: &RequestFields,
    sought: Sought,
    answer: Refusal,
) -> Result<(), Refusal>
    ensures kept { OnOk result (OneIs (Fits request.now sought) keys.now) }
    ensures broken { IfErr result (λ e. (e ≡ answer) × (OneIs (Fits request.now sought) keys.now → ⊥)) }
{
    match first_key(keys, request, sought) {
        Some(_key) => Ok(()),
        None => Err(answer),
    }
}

/// The refusal where no key is of the version that the ticket names.
fn other_version(request: &RequestFields) -> Refusal
    ensures rule { result.rule ≡ Rules.KeyVersion }
    ensures seen { ShowsVersion request.now.ticket.kvno.0 result.seen }
{
    Refusal {
        rule: Rule::KeyVersion,
        seen: version_seen(request),
    }
}

/// Whether clients are let in for the ticket's server, and one of the keys is of it, of its encryption
/// type and its version; else the first of these that none is of.
fn check_keys<O: Opening>(
    terms: &Terms,
    keys: &[ServiceKey],
    session_keys: &[ServiceKey],
    request: &RequestFields,
) -> Result<(), Refusal>
    ensures kept { OnOk result (Keeps (RequestRule ⟦<O as Opening>⟧ terms.now keys.now session_keys.now request.now) key_order) }
    ensures broken { IfErr result (RefusesFirst (RequestRule ⟦<O as Opening>⟧ terms.now keys.now session_keys.now request.now)
        (ShowsOfRequest request.now) key_order) }
{
    if !is_served(terms, request) {
        return Err(Refusal::plain(Rule::NotUs));
    }
    let candidates = keys_for(keys, session_keys, request);
    let _of_server = require(
        candidates,
        request,
        Sought::Server,
        Refusal::plain(Rule::NotUs),
    )?;
    let _of_type = require(
        candidates,
        request,
        Sought::Etype,
        Refusal::plain(Rule::NoKey),
    )?;
    let _of_version = require(candidates, request, Sought::Kvno, other_version(request))?;
    Ok(())
}

/// Whether the ticket's encryption type is supported and permitted.
fn check_suite<O: Opening>(
    terms: &Terms,
    keys: &[ServiceKey],
    session_keys: &[ServiceKey],
    request: &RequestFields,
) -> Result<(), Refusal>
    ensures kept { OnOk result (Keeps (RequestRule ⟦<O as Opening>⟧ terms.now keys.now session_keys.now request.now) suite_order) }
    ensures broken { IfErr result (RefusesFirst (RequestRule ⟦<O as Opening>⟧ terms.now keys.now session_keys.now request.now)
        (ShowsOfRequest request.now) suite_order) }
{
    if is_permitted::<O>(terms, &request.ticket.etype.0) {
        Ok(())
    } else {
        Err(Refusal::plain(Rule::TicketSuite))
    }
}

/// Whether a request keeps the rules that come before its ticket is opened, `Version` to
/// `TicketSuite`; else the refusal by the first of these that is broken.
///
/// Nothing is allocated, so this is the answer always: there is no `OutOfMemory`.
pub fn check_request<O: Opening>(
    terms: &Terms,
    keys: &[ServiceKey],
    session_keys: &[ServiceKey],
    request: &RequestFields,
) -> Result<(), Refusal>
    ensures kept { OnOk result (Keeps (RequestRule ⟦<O as Opening>⟧ terms.now keys.now session_keys.now request.now) request_order) }
    ensures broken { IfErr result (RefusesFirst (RequestRule ⟦<O as Opening>⟧ terms.now keys.now session_keys.now request.now)
        (ShowsOfRequest request.now) request_order) }
{
    let _form = check_form::<O>(terms, keys, session_keys, request)?;
    let _keys = check_keys::<O>(terms, keys, session_keys, request)?;
    let _suite = check_suite::<O>(terms, keys, session_keys, request)?;
    Ok(())
}

//! What a client presents: a request with a ticket and an authenticator that belong together.

ghost use Rattle.std.specs.Prelude.{◌≡◌, ◌⊎◌, IfErr, IfOk, OnOk, MatchOption, pos};
ghost use Rattle.krb_accept_rules.specs.Accepted.{accepted_of, entry_of};
ghost use Rattle.krb_accept_rules.specs.AuthenticatorRules.{AuthenticatorRule, ShowsTime, authenticator_order};
ghost use Rattle.krb_accept_rules.specs.FirstFault.{Keeps, OrMemory, RefusesFirst};
ghost use Rattle.krb_accept_rules.specs.Firsts.{IsFirst, NoneIs};
ghost use Rattle.krb_accept_rules.specs.Keys.{IsForTicket};
ghost use Rattle.krb_accept_rules.specs.Presenting.{HasNoTicket, HasTicket, IsJudged, IsNotJudged, IsNotPresented, IsPresented, OpensTicket};
ghost use Rattle.krb_accept_rules.specs.Refusals.{plain};
ghost use Rattle.krb_accept_rules.specs.RequestRules.{RequestRule, request_order};
ghost use Rattle.krb_accept_rules.specs.Values.{HasNone, IsTheValue};
ghost use Rattle.krb_accept_rules.specs.declared.refusal.Rule.TheVariants as Rules;

use crate::accepted::{Presented, Remembered, presented_of, remembered_of};
use crate::authenticator::check_authenticator;
use crate::fields::{AuthenticatorFields, RequestFields, TicketFields};
use crate::key::{ServiceKey, Sought, fits, keys_for};
use crate::opening::Opening;
use crate::refusal::{Refusal, Rule};
use crate::request::check_request;
use crate::session::check_session;
use crate::terms::{Arrival, Terms};
use krb_types::data_types::EncryptionKey;
use std::alloc::{AllocError, Global};

/// A request, its ticket, and the key that opened it.
#[derive(Drop)]
struct Opened<'k> {
    request: RequestFields,
    key: &'k ServiceKey,
    ticket: TicketFields,
}

/// The fields of the request that the octets are.
fn request_in<O: Opening>(alloc: Global, octets: &[u8]) -> Result<RequestFields, Refusal>
    ensures found { IfOk result (IsTheValue (O.reads octets.now)) }
    ensures rejected { IfErr result (OrMemory (λ e. (e ≡ plain Rules.NotRequest) × HasNone (O.reads octets.now))) }
{
    match O::read_request(alloc, octets)? {
        Some(request) => Ok(request),
        None => Err(Refusal::plain(Rule::NotRequest)),
    }
}

/// What the ticket holds, if it is for this key and sealed under it.
fn ticket_under<O: Opening>(
    alloc: Global,
    key: &ServiceKey,
    request: &RequestFields,
) -> Result<Option<TicketFields>, AllocError>
    ensures { IfOk result (λ found. MatchOption found (OpensTicket ⟦<O as Opening>⟧ request.now key.now → ⊥)
        (λ ticket. IsForTicket request.now key.now × IsTheValue (O.opens_ticket key.now request.now) ticket)) }
{
    if !fits(request, Sought::Kvno, key) {
        return Ok(None);
    }
    O::open_ticket(alloc, key, request)
}

/// The first key that opens the ticket, and what the ticket holds.
fn first_opening<'k, O: Opening>(
    alloc: Global,
    keys: &'k [ServiceKey],
    request: &RequestFields,
) -> Result<(&'k ServiceKey, TicketFields), Refusal>
    ensures first { IfOk result (λ p. IsFirst (OpensTicket ⟦<O as Opening>⟧ request.now) keys.now p.0.now) }
    ensures holds { IfOk result (λ p. IsTheValue (O.opens_ticket p.0.now request.now) p.1) }
    ensures none { IfErr result (OrMemory (λ e. (e ≡ plain Rules.Ticket) × NoneIs
        (OpensTicket ⟦<O as Opening>⟧ request.now) keys.now)) }
{
    for key in keys {
        if let Some(ticket) = ticket_under::<O>(alloc, key, request)? {
            return Ok((key, ticket));
        }
    }
    Err(Refusal::plain(Rule::Ticket))
}

/// The request, where it keeps the rules that come before the ticket is opened.
fn sound_request<O: Opening>(
    alloc: Global,
    keys: &[ServiceKey],
    session_keys: &[ServiceKey],
    terms: &Terms,
    octets: &[u8],
) -> Result<RequestFields, Refusal>
    ensures found { IfOk result (IsTheValue (O.reads octets.now)) }
    ensures kept { IfOk result (λ r. Keeps (RequestRule ⟦<O as Opening>⟧ terms.now keys.now session_keys.now r) request_order) }
    ensures rejected { IfErr result (OrMemory (HasNoTicket ⟦<O as Opening>⟧ keys.now session_keys.now terms.now octets.now)) }
{
    let request = request_in::<O>(alloc, octets)?;
    match check_request::<O>(terms, keys, session_keys, &request) {
        Ok(()) => Ok(request),
        Err(refusal) => {
            drop(request);
            Err(refusal)
        }
    }
}

/// The request with its ticket, opened by the first key that opens it.
fn ticket_in<'k, O: Opening>(
    alloc: Global,
    keys: &'k [ServiceKey],
    session_keys: &'k [ServiceKey],
    terms: &Terms,
    octets: &[u8],
) -> Result<Opened<'k>, Refusal>
    ensures found { IfOk result (λ p. HasTicket ⟦<O as Opening>⟧ keys.now session_keys.now terms.now octets.now p.request p.key.now p.ticket) }
    ensures rejected { IfErr result (OrMemory (HasNoTicket ⟦<O as Opening>⟧ keys.now session_keys.now terms.now octets.now)) }
{
    let request = sound_request::<O>(alloc, keys, session_keys, terms, octets)?;
    let candidates = keys_for(keys, session_keys, &request);
    match first_opening::<O>(alloc, candidates, &request) {
        Ok((key, ticket)) => Ok(Opened {
            request,
            key,
            ticket,
        }),
        Err(refusal) => {
            drop(request);
            Err(refusal)
        }
    }
}

/// The authenticator.
fn authenticator_in<O: Opening>(
    alloc: Global,
    key: &EncryptionKey,
    request: &RequestFields,
) -> Result<AuthenticatorFields, Refusal>
    ensures found { IfOk result (IsTheValue (O.opens_authenticator key.now request.now)) }
    ensures rejected { IfErr result (OrMemory (λ e. (e ≡ plain Rules.Authenticator) × HasNone
        (O.opens_authenticator key.now request.now))) }
{
    match O::open_authenticator(alloc, key, request)? {
        Some(authenticator) => Ok(authenticator),
        None => Err(Refusal::plain(Rule::Authenticator)),
    }
}

/// What is remembered where the authenticator and the ticket keep the rules; else the first rule
/// that is broken.
fn check_opened<O: Opening>(
    alloc: Global,
    terms: &Terms,
    arrival: &Arrival,
    opened: &Opened,
    authenticator: &AuthenticatorFields,
) -> Result<Remembered, Refusal>
    ensures realm { IfOk result (λ r. r.server_realm ≡ opened.now.request.realm) }
    ensures server { IfOk result (λ r. r.server ≡ opened.now.request.server.name_string) }
    ensures microseconds { IfOk result (λ r. authenticator.now.cusec ≡ pos r.microseconds) }
    ensures kept { OnOk result (Keeps (AuthenticatorRule ⟦<O as Opening>⟧ terms.now arrival.now opened.now.ticket authenticator.now) authenticator_order) }
    ensures broken { IfErr result (OrMemory (RefusesFirst (AuthenticatorRule ⟦<O as Opening>⟧ terms.now arrival.now opened.now.ticket authenticator.now)
        (ShowsTime opened.now.ticket authenticator.now) authenticator_order)) }
{
    let microseconds = check_authenticator::<O>(
        alloc,
        terms,
        arrival,
        &opened.ticket,
        authenticator,
    )?;
    let remembered = remembered_of(alloc, &opened.request, microseconds)?;
    Ok(remembered)
}

/// An authenticator that keeps the rules, and what is remembered of it.
#[derive(Drop)]
struct Judged {
    authenticator: AuthenticatorFields,
    remembered: Remembered,
}

/// The authenticator, where the session key keeps the rules, the authenticator is sealed under it, and it and the ticket keep the
/// rules; else the first of these that does not hold.
fn judge_opened<O: Opening>(
    alloc: Global,
    terms: &Terms,
    arrival: &Arrival,
    opened: &Opened,
) -> Result<Judged, Refusal>
    ensures found { IfOk result (λ p. IsJudged ⟦<O as Opening>⟧ terms.now arrival.now opened.now.request opened.now.ticket p.authenticator p.remembered.microseconds) }
    ensures realm { IfOk result (λ p. p.remembered.server_realm ≡ opened.now.request.realm) }
    ensures server { IfOk result (λ p. p.remembered.server ≡ opened.now.request.server.name_string) }
    ensures rejected { IfErr result (OrMemory (IsNotJudged ⟦<O as Opening>⟧ terms.now arrival.now opened.now.request opened.now.ticket)) }
{
    let _session = check_session::<O>(terms, &opened.request, &opened.ticket)?;
    let authenticator = authenticator_in::<O>(alloc, &opened.ticket.key, &opened.request)?;
    match check_opened::<O>(alloc, terms, arrival, opened, &authenticator) {
        Ok(remembered) => Ok(Judged {
            authenticator,
            remembered,
        }),
        Err(refusal) => {
            drop(authenticator);
            Err(refusal)
        }
    }
}

/// What was opened and keeps the rules, as the client presents it.
fn presented<'k>(opened: Opened<'k>, judged: Judged) -> Presented<'k>
    requires realm { judged.remembered.server_realm ≡ opened.request.realm }
    requires server { judged.remembered.server ≡ opened.request.server.name_string }
    ensures entry { result.entry ≡ entry_of opened.entry.request judged.authenticator judged.remembered.microseconds }
    ensures accepted { result.accepted ≡ accepted_of opened.entry.request opened.entry.ticket judged.authenticator }
    ensures key { result.key.now ≡ opened.entry.key.now }
{
    let Opened {
        request,
        key,
        ticket,
    } = opened;
    let Judged {
        authenticator,
        remembered,
    } = judged;
    presented_of(key, request, ticket, authenticator, remembered)
}

/// What a client presents with an AP-REQ, where it keeps all rules but those of the cache (RFC
/// 4120, 3.2.3). No cache is asked: `admit` does that. So the work of opening needs no lock on the
/// cache.
///
/// `session_keys` are those of the service's own ticket-granting tickets, for a ticket that is
/// sealed under one (user-to-user); mostly there are none.
///
/// Else the refusal is that of the first rule that is broken, in the order of `Rule`; `OutOfMemory`
/// may come in the place of any result.
pub fn present<'k, O: Opening>(
    alloc: Global,
    keys: &'k [ServiceKey],
    session_keys: &'k [ServiceKey],
    terms: &Terms,
    arrival: &Arrival,
    octets: &[u8],
) -> Result<Presented<'k>, Refusal>
    ensures found { IfOk result (λ p.
        IsPresented ⟦<O as Opening>⟧ keys.now session_keys.now terms.now arrival.now octets.now p.key.now p.entry p.accepted) }
    ensures rejected { IfErr result (OrMemory (IsNotPresented ⟦<O as Opening>⟧ keys.now session_keys.now terms.now arrival.now octets.now)) }
{
    let opened = ticket_in::<O>(alloc, keys, session_keys, terms, octets)?;
    match judge_opened::<O>(alloc, terms, arrival, &opened) {
        Ok(found) => Ok(presented(opened, found)),
        Err(refusal) => {
            drop(opened);
            Err(refusal)
        }
    }
}

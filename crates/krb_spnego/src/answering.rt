//! A side makes a step by what the caller tells of its mechanisms.

ghost use Rattle.std.specs.Prelude.{◌≡◌, if◌then◌else◌, is_some, IfOk, None};
ghost use Rattle.std.specs.Option.{option_copied};
ghost use Rattle.krb_spnego.specs.Answering.{AcceptorAnswers, InitiatorAnswers, IsEnd, IsEndBy, IsGivenName, IsNameInOffer, IsNameTaken, IsRejection, Tells, acceptor_refusal, initiator_refusal, is_mechanisms, is_quiet, acceptor_lacks_mic, initiator_lacks_mic, taken_name, told_token};
ghost use Rattle.krb_spnego_rules.specs.Fields.{items_in};

use crate::asking::{first_supported, listed};
use crate::error::ReadError;
use crate::machine::{accept_step, initiate_step};
use crate::reading::read_offer;
use crate::told::Told;
use crate::writing::write_reply;
use krb_der::DerEncode;
use krb_gss_tokens::gss_api::{ApplicationTag0, GssApiNegInit, MechTypeList, NegTokenTarg1};
use krb_spnego_rules::{Acceptor, Fresh, Initiator, Message, NegState, Proposal, Refusal, Rule};
use std::alloc::{AllocError, Global};

/// What a step comes to.
#[derive(Drop)]
pub enum Answered<S> {
    /// The mechanism's own MIC has to be sent, and none was told: the step is not made.
    LacksMic,
    /// The side after the step, and the octets that it sends, if any: its answer, or the message
    /// that rejects.
    Stands(S, Option<Vec<u8>>),
}

/// Why an acceptor ended the negotiation, if it did.
fn acceptor_refusal(side: &Acceptor<Told>) -> Option<Refusal>
    ensures { result ≡ acceptor_refusal side.now }
{
    match side {
        Acceptor::Failed(refusal) => Some(*refusal),
        Acceptor::Fresh(_) => None,
        Acceptor::Running(_) => None,
        Acceptor::Complete(_) => None,
        Acceptor::Bare(_) => None,
    }
}

/// Why an initiator ended the negotiation, if it did.
fn initiator_refusal(side: &Initiator<Told>) -> Option<Refusal>
    ensures { result ≡ initiator_refusal side.now }
{
    match side {
        Initiator::Failed(refusal) => Some(*refusal),
        Initiator::Offered(_) => None,
        Initiator::Running(_) => None,
        Initiator::Complete(_) => None,
    }
}

/// Whether an acceptor's mechanism was asked for a MIC that was not told.
fn acceptor_lacks_mic(side: &Acceptor<Told>) -> bool
    ensures { result ≡ acceptor_lacks_mic side.now }
{
    match side {
        Acceptor::Running(running) => running.mechanism.lacks_mic,
        Acceptor::Complete(complete) => complete.mechanism.lacks_mic,
        Acceptor::Failed(_) => false,
        Acceptor::Fresh(_) => false,
        Acceptor::Bare(_) => false,
    }
}

/// Whether an initiator's mechanism was asked for a MIC that was not told.
fn initiator_lacks_mic(side: &Initiator<Told>) -> bool
    ensures { result ≡ initiator_lacks_mic side.now }
{
    match side {
        Initiator::Running(running) => running.mechanism.lacks_mic,
        Initiator::Complete(complete) => complete.mechanism.lacks_mic,
        Initiator::Failed(_) => false,
        Initiator::Offered(_) => false,
    }
}

/// Whether nothing is said to a peer: one that rejected, or that sends a message after the end.
fn is_quiet(refusal: Refusal) -> bool
    ensures { result ≡ is_quiet refusal }
{
    match refusal {
        Refusal::OutOfMemory => false,
        Refusal::Unread => false,
        Refusal::Broken(rule) => match rule {
            Rule::NoState => false,
            Rule::Rejected => true,
            Rule::NoMechanism => false,
            Rule::SecondMechanism => false,
            Rule::UnknownMechanism => false,
            Rule::Unprotected => false,
            Rule::LateRequest => false,
            Rule::NoToken => false,
            Rule::UnexpectedToken => false,
            Rule::MechanismFailed => false,
            Rule::EarlyMic => false,
            Rule::WrongMic => false,
            Rule::NoMic => false,
            Rule::EarlyCompletion => false,
            Rule::Finished => true,
        },
    }
}

/// Whether it is the mechanism that refused.
fn is_mechanisms(refusal: Refusal) -> bool
    ensures { result ≡ is_mechanisms refusal }
{
    match refusal {
        Refusal::OutOfMemory => false,
        Refusal::Unread => false,
        Refusal::Broken(rule) => match rule {
            Rule::NoState => false,
            Rule::Rejected => false,
            Rule::NoMechanism => false,
            Rule::SecondMechanism => false,
            Rule::UnknownMechanism => false,
            Rule::Unprotected => false,
            Rule::LateRequest => false,
            Rule::NoToken => false,
            Rule::UnexpectedToken => false,
            Rule::MechanismFailed => true,
            Rule::EarlyMic => false,
            Rule::WrongMic => false,
            Rule::NoMic => false,
            Rule::EarlyCompletion => false,
            Rule::Finished => false,
        },
    }
}

/// The mechanism's token that says why, where it is the mechanism that refused.
fn told_token(refusal: Refusal, error: Option<Vec<u8>>) -> Option<Vec<u8>>
    ensures { result ≡ told_token refusal error }
{
    if is_mechanisms(refusal) { error } else { None }
}

/// The name of the mechanism, beside its token.
fn beside(token: &Option<Vec<u8>>, name: Option<Vec<u64>>) -> Option<Vec<u64>>
    ensures { result ≡ (if is_some token.now then name else None) }
{
    if token.is_some() { name } else { None }
}

/// What is said to a peer where a negotiation ends: the NegTokenResp that rejects (RFC 4178,
/// 4.2.2), with the mechanism's token that says why, and its name where none was said; this token
/// alone where there is no negotiation around the mechanism's tokens.
fn rejection(
    alloc: Global,
    refusal: Refusal,
    bare: bool,
    error: Option<Vec<u8>>,
    name: Option<Vec<u64>>,
) -> Result<Option<Vec<u8>>, AllocError>
    ensures { IfOk result (IsRejection ⟦<NegTokenTarg1 as DerEncode>⟧ refusal bare error name) }
{
    if is_quiet(refusal) {
        return Ok(None);
    }
    let token = told_token(refusal, error);
    if bare {
        return Ok(token);
    }
    let message = Message {
        state: Some(NegState::Reject),
        mechanism: beside(&token, name),
        token,
        mic: None,
    };
    Ok(Some(write_reply(alloc, message)?))
}

/// What is sent after a step: `failed` says that the side had failed before.
fn tells(
    alloc: Global,
    sent: Result<Option<Vec<u8>>, ReadError>,
    refusal: Option<Refusal>,
    failed: bool,
    bare: bool,
    error: Option<Vec<u8>>,
    name: Option<Vec<u64>>,
) -> Result<Option<Vec<u8>>, AllocError>
    ensures { IfOk result (Tells ⟦<NegTokenTarg1 as DerEncode>⟧ sent refusal failed bare error name) }
{
    match sent {
        Err(ReadError::OutOfMemory) => Err(AllocError),
        Err(ReadError::Malformed(_)) => ended(alloc, refusal, failed, bare, error, name),
        Err(ReadError::NotSpnego) => ended(alloc, refusal, failed, bare, error, name),
        Err(ReadError::UnknownState) => ended(alloc, refusal, failed, bare, error, name),
        Ok(Some(octets)) => Ok(Some(octets)),
        Ok(None) => ended(alloc, refusal, failed, bare, error, name),
    }
}

/// What is said where a step ended the negotiation so.
fn ended_by(
    alloc: Global,
    refusal: Refusal,
    failed: bool,
    bare: bool,
    error: Option<Vec<u8>>,
    name: Option<Vec<u64>>,
) -> Result<Option<Vec<u8>>, AllocError>
    ensures { IfOk result (IsEndBy ⟦<NegTokenTarg1 as DerEncode>⟧ failed refusal bare error name) }
{
    if failed {
        Ok(None)
    } else {
        rejection(alloc, refusal, bare, error, name)
    }
}

/// What is said where a step sends nothing.
fn ended(
    alloc: Global,
    refusal: Option<Refusal>,
    failed: bool,
    bare: bool,
    error: Option<Vec<u8>>,
    name: Option<Vec<u64>>,
) -> Result<Option<Vec<u8>>, AllocError>
    ensures { IfOk result (IsEnd ⟦<NegTokenTarg1 as DerEncode>⟧ refusal failed bare error name) }
{
    match refusal {
        None => Ok(None),
        Some(Refusal::OutOfMemory) => Err(AllocError),
        Some(Refusal::Unread) => ended_by(alloc, Refusal::Unread, failed, bare, error, name),
        Some(Refusal::Broken(rule)) => {
            ended_by(alloc, Refusal::Broken(rule), failed, bare, error, name)
        }
    }
}

/// Arcs, once more.
fn copied(alloc: Global, arcs: Option<&Vec<u64>>) -> Result<Option<Vec<u64>>, AllocError>
    ensures { IfOk result (λ copy. items_in copy ≡ items_in (option_copied arcs.entry)) }
{
    match arcs {
        Some(arcs) => match Vec::from_slice(alloc, arcs.as_slice()) {
            Ok(copy) => Ok(Some(copy)),
            Err(_error) => Err(AllocError),
        },
        None => Ok(None),
    }
}

/// The name that an acceptor of these mechanisms takes of an offer.
fn name_of(
    alloc: Global,
    mechanisms: &[Told],
    proposal: &Proposal,
) -> Result<Option<Vec<u64>>, AllocError>
    ensures { IfOk result (λ name. items_in name ≡ taken_name mechanisms.now proposal.now) }
{
    let list = proposal.mechanisms.as_slice();
    let rank = first_supported(mechanisms, list);
    copied(alloc, listed(list, rank))
}

/// The name that an acceptor takes of its first octets, where they are an offer.
fn name_in_offer(
    alloc: Global,
    fresh: &Fresh<Told>,
    token: &[u8],
) -> Result<Option<Vec<u64>>, AllocError>
    ensures { IfOk result (IsNameInOffer ⟦<ApplicationTag0<GssApiNegInit> as DerEncode>⟧ ⟦<MechTypeList as DerEncode>⟧ fresh.now token.now) }
{
    match read_offer(alloc, token) {
        Ok(proposal) => name_of(alloc, &fresh.mechanisms, &proposal),
        Err(ReadError::OutOfMemory) => Err(AllocError),
        Err(ReadError::Malformed(_)) => Ok(None),
        Err(ReadError::NotSpnego) => Ok(None),
        Err(ReadError::UnknownState) => Ok(None),
    }
}

/// The name that an acceptor takes of octets.
fn name_taken(
    alloc: Global,
    side: &Acceptor<Told>,
    token: &[u8],
) -> Result<Option<Vec<u64>>, AllocError>
    ensures { IfOk result (IsNameTaken ⟦<ApplicationTag0<GssApiNegInit> as DerEncode>⟧ ⟦<MechTypeList as DerEncode>⟧ side.now token.now) }
{
    match side {
        Acceptor::Fresh(fresh) => name_in_offer(alloc, fresh, token),
        Acceptor::Running(_) => Ok(None),
        Acceptor::Complete(_) => Ok(None),
        Acceptor::Bare(_) => Ok(None),
        Acceptor::Failed(_) => Ok(None),
    }
}

/// The name beside a token that says why.
fn name_beside(
    alloc: Global,
    side: &Acceptor<Told>,
    token: &[u8],
    error: &Option<Vec<u8>>,
) -> Result<Option<Vec<u64>>, AllocError>
    ensures { IfOk result (IsGivenName ⟦<ApplicationTag0<GssApiNegInit> as DerEncode>⟧ ⟦<MechTypeList as DerEncode>⟧ error.now side.now token.now) }
{
    match error {
        Some(_) => name_taken(alloc, side, token),
        None => Ok(None),
    }
}

/// The acceptor after octets of the initiator, and the octets that it sends, if any: the step of
/// `accept_step`, by what its mechanisms tell. `error` is the token of the mechanism that refused,
/// if it has one that says why.
///
/// `LacksMic` where the mechanism's own MIC has to be sent, and was not told. Where the step ends
/// the negotiation, a message that rejects is sent (RFC 4178, 4.2.2), but to a peer that rejected,
/// or that sent a message after the end.
pub fn accept_told(
    alloc: Global,
    side: Acceptor<Told>,
    token: &[u8],
    error: Option<Vec<u8>>,
) -> Result<Answered<Acceptor<Told>>, AllocError>
    ensures { IfOk result
        (AcceptorAnswers ⟦<ApplicationTag0<GssApiNegInit> as DerEncode>⟧ ⟦<MechTypeList as DerEncode>⟧ ⟦<NegTokenTarg1 as DerEncode>⟧ side
        token.now error) }
{
    let name = name_beside(alloc, &side, token, &error)?;
    let failed = acceptor_refusal(&side).is_some();
    let bare = side.takes_bare(token);
    let (after, sent) = accept_step(alloc, side, token);
    if acceptor_lacks_mic(&after) {
        return Ok(Answered::LacksMic);
    }
    let refusal = acceptor_refusal(&after);
    match tells(alloc, sent, refusal, failed, bare, error, name) {
        Ok(octets) => Ok(Answered::Stands(after, octets)),
        Err(error) => Err(error),
    }
}

/// The initiator after octets of the acceptor, and the octets that it sends, if any: the step of
/// `initiate_step`, by what its mechanisms tell. `error` is the token of the mechanism that
/// refused, if it has one that says why.
///
/// `LacksMic` where the mechanism's own MIC has to be sent, and was not told. Where the step ends
/// the negotiation, a message that rejects is sent (RFC 4178, 4.2.2), but to a peer that rejected,
/// or that sent a message after the end.
pub fn initiate_told(
    alloc: Global,
    side: Initiator<Told>,
    token: &[u8],
    error: Option<Vec<u8>>,
) -> Result<Answered<Initiator<Told>>, AllocError>
    ensures { IfOk result (InitiatorAnswers ⟦<NegTokenTarg1 as DerEncode>⟧ side token.now error) }
{
    let failed = initiator_refusal(&side).is_some();
    let (after, sent) = initiate_step(alloc, side, token);
    if initiator_lacks_mic(&after) {
        return Ok(Answered::LacksMic);
    }
    let refusal = initiator_refusal(&after);
    match tells(alloc, sent, refusal, failed, false, error, None) {
        Ok(octets) => Ok(Answered::Stands(after, octets)),
        Err(error) => Err(error),
    }
}

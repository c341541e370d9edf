//! A side as the numbers that the caller keeps, and back.

ghost use Rattle.std.specs.Prelude.{◌≡◌, ◌==◌, ◌∷◌, [], Some, find, nat_eq, position, MatchOption, MatchResult};
ghost use Rattle.std.specs.Cmp.Lexicographic.{pointwise};
ghost use Rattle.krb_c_calls.specs.declared.call_error.CallError.TheVariants as calls;
ghost use Rattle.krb_c_negotiation.specs.Sides.{IsAcceptorOf, IsCompleteOf, IsInitiatorOf, IsOfferedOf, IsRunningOf, RefusesAcceptor, RefusesChosen, RefusesInitiator, RefusesName, RefusesOffered, acceptor_after, bare_after, bare_in, chosen_in, complete_after, failed_after, initiator_after, name_rank, offered_after, other_name, rank_of, running_after, terms_in, told_name};

use crate::mechanisms::copied;
use crate::numbers::{Stage, flag, is_set, refusal_number, refusal_of, stage_of};
use crate::records::NegotiationRecord;
use krb_c_calls::CallError;
use krb_spnego::Told;
use krb_spnego_rules::{
    Acceptor, Bare, Complete, Fresh, Initiator, Offered, Refusal, Running, Terms,
};
use std::alloc::Global;

/// The first of the mechanisms that has this number.
fn numbered(mechanisms: Vec<Told>, number: u32) -> Option<Told>
    ensures { result ≡ find (λ m. m.place == number) mechanisms.items }
{
    mechanisms
        .into_iter()
        .find(|mechanism| mechanism.place == number)
}

/// The mechanism that the caller knows by this number.
fn chosen(mechanisms: Vec<Told>, number: u32) -> Result<Told, CallError>
    ensures { result ≡ chosen_in mechanisms.items number }
{
    match numbered(mechanisms, number) {
        Some(mechanism) => Ok(mechanism),
        None => Err(CallError::Number),
    }
}

/// Arcs, once more.
fn same_arcs(alloc: Global, arcs: &[u64]) -> Result<Vec<u64>, CallError>
    ensures { MatchResult result (λ copy. copy.items ≡ arcs.now) (λ e. e ≡ calls.Memory) }
{
    match Vec::from_slice(alloc, arcs) {
        Ok(copy) => Ok(copy),
        Err(_error) => Err(CallError::Memory),
    }
}

/// Another name of a mechanism, by its place among these.
fn other_name(alloc: Global, others: &[Vec<u64>], place: usize) -> Result<Vec<u64>, CallError>
    ensures { MatchResult result (λ name. other_name others.now place ≡ Some name.items)
        (RefusesName (other_name others.now place)) }
{
    match others.get(place) {
        Some(other) => same_arcs(alloc, other.as_slice()),
        None => Err(CallError::Number),
    }
}

/// The name of a mechanism that has this number: 0 its own, k its k-th other one.
fn told_name(alloc: Global, mechanism: &Told, number: usize) -> Result<Vec<u64>, CallError>
    ensures { MatchResult result (λ name. told_name mechanism.now number ≡ Some name.items)
        (RefusesName (told_name mechanism.now number)) }
{
    if number == 0 {
        same_arcs(alloc, mechanism.oid.as_slice())
    } else {
        other_name(alloc, &mechanism.others, number - 1)
    }
}

/// What is agreed on.
fn terms_of(side: &NegotiationRecord) -> Terms
    ensures { result ≡ terms_in side.now }
{
    Terms {
        preferred: is_set(side.preferred),
        required: is_set(side.required),
        sent: is_set(side.sent),
    }
}

/// A side that waits for a later message.
fn running_of(
    alloc: Global,
    side: &NegotiationRecord,
    mechanisms: Vec<Told>,
    list: &[u8],
) -> Result<Running<Told>, CallError>
    ensures { MatchResult result (IsRunningOf side.now mechanisms.items list.now)
        (RefusesChosen side.now mechanisms.items) }
{
    let mechanism = chosen(mechanisms, side.mechanism)?;
    match told_name(alloc, &mechanism, side.name) {
        Ok(name) => Ok(Running {
            mechanism,
            name,
            established: is_set(side.established),
            terms: terms_of(side),
            list: copied(alloc, list)?,
        }),
        Err(refusal) => Err(refusal),
    }
}

/// A side that is complete.
fn complete_of(
    alloc: Global,
    side: &NegotiationRecord,
    mechanisms: Vec<Told>,
    list: &[u8],
) -> Result<Complete<Told>, CallError>
    ensures { MatchResult result (IsCompleteOf side.now mechanisms.items list.now)
        (RefusesChosen side.now mechanisms.items) }
{
    let mechanism = chosen(mechanisms, side.mechanism)?;
    match told_name(alloc, &mechanism, side.name) {
        Ok(name) => Ok(Complete {
            mechanism,
            name,
            terms: terms_of(side),
            by_mic: is_set(side.by_mic),
            list: copied(alloc, list)?,
        }),
        Err(refusal) => Err(refusal),
    }
}

/// The first mechanism, and the others.
pub(crate) fn split(mechanisms: Vec<Told>) -> Option<(Told, Vec<Told>)>
    ensures { MatchOption result (mechanisms.items ≡ []) (λ p. mechanisms.items ≡ p.0 ∷ p.1.items) }
{
    let mut others = mechanisms;
    if others.is_empty() {
        return None;
    }
    let first = others.remove(0);
    Some((first, others))
}

/// An initiator whose offer is made.
fn offered_of(
    alloc: Global,
    side: &NegotiationRecord,
    mechanisms: Vec<Told>,
    list: &[u8],
) -> Result<Offered<Told>, CallError>
    ensures { MatchResult result (IsOfferedOf side.now mechanisms.items list.now) (RefusesOffered mechanisms.items) }
{
    match split(mechanisms) {
        None => Err(CallError::Number),
        Some((first, others)) => Ok(Offered {
            first,
            established: is_set(side.established),
            others,
            list: copied(alloc, list)?,
        }),
    }
}

/// A side whose mechanism's own tokens are exchanged.
fn bare_of(side: &NegotiationRecord, mechanisms: Vec<Told>) -> Result<Bare<Told>, CallError>
    ensures { result ≡ bare_in side.now mechanisms.items }
{
    match chosen(mechanisms, side.mechanism) {
        Ok(mechanism) => Ok(Bare {
            mechanism,
            established: is_set(side.established),
        }),
        Err(error) => Err(error),
    }
}

/// The acceptor of these numbers: `Number` where they are of none, `Memory`.
pub(crate) fn acceptor_of(
    alloc: Global,
    side: &NegotiationRecord,
    mechanisms: Vec<Told>,
    list: &[u8],
) -> Result<Acceptor<Told>, CallError>
    ensures { MatchResult result (IsAcceptorOf side.now mechanisms list.now)
        (RefusesAcceptor side.now mechanisms.items) }
{
    match stage_of(side.stage)? {
        Stage::Begins => Ok(Acceptor::Fresh(Fresh {
            mechanisms,
            asks: is_set(side.asks),
        })),
        Stage::Waits => Ok(Acceptor::Running(running_of(alloc, side, mechanisms, list)?)),
        Stage::Offered => Err(CallError::Number),
        Stage::Complete => Ok(Acceptor::Complete(complete_of(alloc, side, mechanisms, list)?)),
        Stage::Failed => Ok(Acceptor::Failed(refusal_of(side.rule)?)),
        Stage::Bare => Ok(Acceptor::Bare(bare_of(side, mechanisms)?)),
    }
}

/// The initiator of these numbers: `Number` where they are of none, `Memory`.
pub(crate) fn initiator_of(
    alloc: Global,
    side: &NegotiationRecord,
    mechanisms: Vec<Told>,
    list: &[u8],
) -> Result<Initiator<Told>, CallError>
    ensures { MatchResult result (IsInitiatorOf side.now mechanisms.items list.now)
        (RefusesInitiator side.now mechanisms.items) }
{
    match stage_of(side.stage)? {
        Stage::Begins => Err(CallError::Number),
        Stage::Waits => Ok(Initiator::Running(running_of(alloc, side, mechanisms, list)?)),
        Stage::Offered => Ok(Initiator::Offered(offered_of(alloc, side, mechanisms, list)?)),
        Stage::Complete => Ok(Initiator::Complete(complete_of(alloc, side, mechanisms, list)?)),
        Stage::Failed => Ok(Initiator::Failed(refusal_of(side.rule)?)),
        Stage::Bare => Err(CallError::Number),
    }
}

/// Whether arcs are the same.
fn are_same(one: &[u64], other: &[u64]) -> bool
    ensures { result ≡ pointwise nat_eq one.now other.now }
{
    one == other
}

/// The number of a name behind a mechanism's own.
fn rank_of(rank: Option<usize>) -> usize
    ensures { result ≡ rank_of rank }
{
    match rank {
        Some(rank) => rank.wrapping_add(1),
        None => 0,
    }
}

/// The place of a name among others.
fn place_in(others: &[Vec<u64>], name: &[u64]) -> Option<usize>
    ensures { result ≡ position (λ other. pointwise nat_eq other.items name.now) others.now }
{
    others
        .iter()
        .position(|other| are_same(other.as_slice(), name))
}

/// The number of a name of a mechanism's.
fn name_rank(mechanism: &Told, name: &[u64]) -> usize
    ensures { result ≡ name_rank mechanism.now name.now }
{
    if are_same(mechanism.oid.as_slice(), name) {
        0
    } else {
        rank_of(place_in(&mechanism.others, name))
    }
}

/// The numbers of a side that waits.
fn running_after(side: &NegotiationRecord, running: &Running<Told>) -> NegotiationRecord
    ensures { result ≡ running_after side.now running.now }
{
    NegotiationRecord {
        stage: 1,
        mechanism: running.mechanism.place,
        name: name_rank(&running.mechanism, running.name.as_slice()),
        established: flag(running.established),
        preferred: flag(running.terms.preferred),
        required: flag(running.terms.required),
        sent: flag(running.terms.sent),
        ..*side
    }
}

/// The numbers of a side that is complete.
fn complete_after(side: &NegotiationRecord, complete: &Complete<Told>) -> NegotiationRecord
    ensures { result ≡ complete_after side.now complete.now }
{
    NegotiationRecord {
        stage: 3,
        mechanism: complete.mechanism.place,
        name: name_rank(&complete.mechanism, complete.name.as_slice()),
        established: flag(complete.mechanism.established),
        preferred: flag(complete.terms.preferred),
        required: flag(complete.terms.required),
        sent: flag(complete.terms.sent),
        by_mic: flag(complete.by_mic),
        ..*side
    }
}

/// The numbers of a side that ended the negotiation.
pub(crate) fn failed_after(side: &NegotiationRecord, refusal: Refusal) -> NegotiationRecord
    ensures { result ≡ failed_after side.now refusal }
{
    NegotiationRecord {
        stage: 4,
        rule: refusal_number(refusal),
        ..*side
    }
}

/// The numbers of a side whose mechanism's own tokens are exchanged.
fn bare_after(side: &NegotiationRecord, bare: &Bare<Told>) -> NegotiationRecord
    ensures { result ≡ bare_after side.now bare.now }
{
    NegotiationRecord {
        stage: 5,
        mechanism: bare.mechanism.place,
        established: flag(bare.established),
        ..*side
    }
}

/// The numbers of an initiator whose offer is made.
fn offered_after(side: &NegotiationRecord, offered: &Offered<Told>) -> NegotiationRecord
    ensures { result ≡ offered_after side.now offered.now }
{
    NegotiationRecord {
        stage: 2,
        mechanism: offered.first.place,
        established: flag(offered.established),
        ..*side
    }
}

/// The numbers of an acceptor after a step.
pub(crate) fn acceptor_after(side: &NegotiationRecord, after: &Acceptor<Told>) -> NegotiationRecord
    ensures { result ≡ acceptor_after side.now after.now }
{
    match after {
        Acceptor::Fresh(_) => *side,
        Acceptor::Running(running) => running_after(side, running),
        Acceptor::Complete(complete) => complete_after(side, complete),
        Acceptor::Bare(bare) => bare_after(side, bare),
        Acceptor::Failed(refusal) => failed_after(side, *refusal),
    }
}

/// The numbers of an initiator after a step.
pub(crate) fn initiator_after(
    side: &NegotiationRecord,
    after: &Initiator<Told>,
) -> NegotiationRecord
    ensures { result ≡ initiator_after side.now after.now }
{
    match after {
        Initiator::Offered(offered) => offered_after(side, offered),
        Initiator::Running(running) => running_after(side, running),
        Initiator::Complete(complete) => complete_after(side, complete),
        Initiator::Failed(refusal) => failed_after(side, *refusal),
    }
}

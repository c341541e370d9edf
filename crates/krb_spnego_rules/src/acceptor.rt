//! The side that chooses.

ghost use Rattle.std.specs.Prelude.{◌≡◌, ◌&&◌, find};
ghost use Rattle.std.specs.List.{list_any};
ghost use Rattle.std.specs.Option.{option_copied};
ghost use Rattle.krb_spnego_rules.specs.AcceptorSteps.{AcceptorIsOffered, AcceptorSteps, AcceptorTakesBare, BareGoesOn, BareSteps, FirstAnswers, FirstBare, IsOffered, OfferedAs, TakesUp, choice_in_offer, ended, is_first as is_first_rank, name_at, named_in, rank_in, settled as settled_of, takes_bare};
ghost use Rattle.krb_spnego_rules.specs.declared.acceptor.Acceptor.TheVariants as states;

use crate::checks::check_offer;
use crate::mechanism::{Mechanism, MechanismError, find_named};
use crate::message::{Message, Proposal, Refusal, copied, octets};
use crate::side::{After, Complete, Running, go_on, is_established, later, waiting_state};
use crate::words::{Choice, Offer, Role, Rule, Terms};
use std::alloc::Global;

/// An acceptor that waits for the first token.
#[derive(Drop)]
pub struct Fresh<M> {
    /// The mechanisms that it supports. Of the initiator's list it takes the first that names one
    /// of them.
    pub mechanisms: Vec<M>,
    /// It wants MICs whichever mechanism is chosen.
    pub asks: bool,
}

/// An acceptor whose initiator speaks a mechanism with no negotiation around it.
#[derive(Drop)]
pub struct Bare<M> {
    /// The mechanism.
    pub mechanism: M,
    /// Its context is established.
    pub established: bool,
}

/// The side that chooses a mechanism (RFC 4178, 3.2).
#[derive(Drop)]
pub enum Acceptor<M> {
    /// No token came.
    Fresh(Fresh<M>),
    /// A mechanism is chosen, and this side waits for a message.
    Running(Running<M>),
    /// It is complete.
    Complete(Complete<M>),
    /// The initiator's first token was a mechanism's own.
    Bare(Bare<M>),
    /// It ended the negotiation, for good.
    Failed(Refusal),
}

/// An acceptor of these mechanisms: `asks` says that it wants MICs whichever mechanism is chosen.
pub fn accept<M: Mechanism>(mechanisms: Vec<M>, asks: bool) -> Acceptor<M>
    ensures { result ≡ states.Fresh (record { mechanisms = mechanisms; asks = asks }) }
{
    Acceptor::Fresh(Fresh { mechanisms, asks })
}

/// Whether an object identifier names one of the mechanisms.
fn supports<M: Mechanism>(mechanisms: &[M], name: &[u64]) -> bool
    ensures { result ≡ list_any (λ m. M.meaning.names m name.now) mechanisms.now }
{
    mechanisms.iter().any(|mechanism| mechanism.is_named(name))
}

/// The rank of the first object identifier of the list that names one of the mechanisms.
fn first_supported<M: Mechanism>(mechanisms: &[M], list: &[Vec<u64>]) -> Option<usize>
    ensures { result ≡ rank_in M.meaning mechanisms.now list.now }
{
    list.iter()
        .position(|name| supports(mechanisms, name.as_slice()))
}

/// The object identifier of the list at this rank.
fn listed(list: &[Vec<u64>], rank: Option<usize>) -> Option<&Vec<u64>>
    ensures { option_copied result ≡ name_at rank list.now }
{
    match rank {
        Some(rank) => list.get(rank),
        None => None,
    }
}

/// The mechanism that an object identifier names, if there is one.
fn named_by<M: Mechanism>(mechanisms: Vec<M>, name: Option<&Vec<u64>>) -> Option<M>
    ensures { result ≡ named_in M.meaning mechanisms.items (option_copied name.entry) }
{
    match name {
        Some(name) => find_named(mechanisms, name.as_slice()),
        None => None,
    }
}

/// Whether it is the list's first.
fn is_first(rank: Option<usize>) -> bool
    ensures { result ≡ is_first_rank rank }
{
    match rank {
        Some(rank) => rank == 0,
        None => false,
    }
}

/// What an offer comes to.
fn choice_of<M: Mechanism>(list: &[Vec<u64>], first: bool, found: &Option<M>) -> Choice
    ensures { result ≡ choice_in_offer M.meaning list.now first found.now }
{
    match list {
        [] => Choice::Absent,
        [_, ..] => match found {
            None => Choice::Unknown,
            Some(mechanism) => {
                let integrity = mechanism.has_integrity();
                if first {
                    Choice::Preferred(integrity)
                } else {
                    Choice::Other(integrity)
                }
            }
        },
    }
}

/// Whether mechToken is looked at: it is the preferred mechanism's.
fn looks_at(preferred: bool, token: bool) -> bool
    ensures { result ≡ (preferred && token) }
{
    preferred && token
}

/// The first reply: mechToken is looked at where the mechanism is the initiator's preferred one.
fn first_answer<M: Mechanism>(
    alloc: Global,
    running: Running<M>,
    named: Vec<u64>,
    token: Option<&[u8]>,
    mic: Option<&[u8]>,
    looks: bool,
) -> Result<(After<M>, Option<Message>), Refusal>
    ensures { FirstAnswers M.meaning running named (option_copied token.entry) (option_copied mic.entry) looks result }
{
    if looks {
        return go_on(
            alloc,
            Role::Acceptor,
            running,
            Some(named),
            None,
            token,
            mic,
        );
    }
    let answer = Message {
        state: Some(waiting_state(true, running.terms.required)),
        mechanism: Some(named),
        token: None,
        mic: None,
    };
    Ok((After::Running(running), Some(answer)))
}

/// A side whose mechanism is chosen.
fn take_up<M: Mechanism>(
    alloc: Global,
    proposal: Proposal,
    rank: Option<usize>,
    mechanism: M,
    terms: Terms,
) -> Result<(After<M>, Option<Message>), Refusal>
    ensures { TakesUp M.meaning proposal (name_at rank proposal.mechanisms.items) mechanism terms result }
{
    match listed(proposal.mechanisms.as_slice(), rank) {
        Some(listed) => {
            let name = copied(alloc, listed)?;
            let named = copied(alloc, listed)?;
            let running = Running {
                mechanism,
                name,
                established: false,
                terms,
                list: proposal.list,
            };
            let looks = looks_at(terms.preferred, proposal.token.is_some());
            first_answer(
                alloc,
                running,
                named,
                octets(&proposal.token),
                octets(&proposal.mic),
                looks,
            )
        }
        None => Err(Refusal::Broken(Rule::NoMechanism)),
    }
}

/// The offer, of which the mechanism is found.
fn offered_as<M: Mechanism>(
    alloc: Global,
    asks: bool,
    proposal: Proposal,
    rank: Option<usize>,
    found: Option<M>,
) -> Result<(After<M>, Option<Message>), Refusal>
    ensures { OfferedAs M.meaning asks proposal rank (name_at rank proposal.mechanisms.items) found result }
{
    let offer = Offer {
        choice: choice_of(&proposal.mechanisms, is_first(rank), &found),
        token: proposal.token.is_some(),
        mic: proposal.mic.is_some(),
    };
    let terms = check_offer(offer, asks)?;
    match found {
        Some(mechanism) => take_up(alloc, proposal, rank, mechanism, terms),
        None => Err(Refusal::Broken(Rule::NoMechanism)),
    }
}

/// The offer.
fn offered<M: Mechanism>(
    alloc: Global,
    fresh: Fresh<M>,
    proposal: Proposal,
) -> Result<(After<M>, Option<Message>), Refusal>
    ensures { IsOffered M.meaning fresh proposal result }
{
    let rank = first_supported(&fresh.mechanisms, &proposal.mechanisms);
    let found = named_by(
        fresh.mechanisms,
        listed(proposal.mechanisms.as_slice(), rank),
    );
    offered_as(alloc, fresh.asks, proposal, rank, found)
}

/// A side after a message, and its answer.
fn settled<M: Mechanism>(
    outcome: Result<(After<M>, Option<Message>), Refusal>,
) -> (Acceptor<M>, Option<Message>)
    ensures { result ≡ settled_of outcome }
{
    match outcome {
        Ok((after, answer)) => match after {
            After::Running(running) => (Acceptor::Running(running), answer),
            After::Complete(complete) => (Acceptor::Complete(complete), answer),
        },
        Err(refusal) => (Acceptor::Failed(refusal), None),
    }
}

/// A token with no negotiation around it.
fn bare_step<M: Mechanism>(
    alloc: Global,
    mechanism: M,
    token: &[u8],
) -> (Acceptor<M>, Option<Vec<u8>>)
    ensures { BareSteps M.meaning mechanism token.now result }
{
    let mut context = mechanism;
    match context.step(alloc, Some(token)) {
        Ok(turn) => {
            let established = is_established(turn.progress());
            let side = Bare {
                mechanism: context,
                established,
            };
            (Acceptor::Bare(side), turn.token())
        }
        Err(MechanismError::OutOfMemory) => (Acceptor::Failed(Refusal::OutOfMemory), None),
        Err(MechanismError::Refused) => (
            Acceptor::Failed(Refusal::Broken(Rule::MechanismFailed)),
            None,
        ),
    }
}

/// The first of the mechanisms whose own first token the octets are.
fn find_bare<M: Mechanism>(mechanisms: Vec<M>, token: &[u8]) -> Option<M>
    ensures { result ≡ find (λ m. M.meaning.bare m token.now) mechanisms.items }
{
    mechanisms
        .into_iter()
        .find(|mechanism| mechanism.is_bare(token))
}

/// The first token, with no negotiation around it.
fn first_bare<M: Mechanism>(
    alloc: Global,
    found: Option<M>,
    token: &[u8],
) -> (Acceptor<M>, Option<Vec<u8>>)
    ensures { FirstBare M.meaning found token.now result }
{
    match found {
        Some(mechanism) => bare_step(alloc, mechanism, token),
        None => (Acceptor::Failed(Refusal::Unread), None),
    }
}

/// A later one.
fn later_bare<M: Mechanism>(
    alloc: Global,
    mechanism: M,
    established: bool,
    token: &[u8],
) -> (Acceptor<M>, Option<Vec<u8>>)
    ensures { BareGoesOn M.meaning mechanism established token.now result }
{
    if established {
        (Acceptor::Failed(Refusal::Broken(Rule::Finished)), None)
    } else {
        bare_step(alloc, mechanism, token)
    }
}

impl<M: Mechanism> Acceptor<M> {
    /// The acceptor after octets that were no message, or a message for which it does not wait.
    pub fn unread(self) -> Acceptor<M>
        ensures { result ≡ ended self }
    {
        match self {
            Acceptor::Fresh(_) => Acceptor::Failed(Refusal::Unread),
            Acceptor::Running(_) => Acceptor::Failed(Refusal::Unread),
            Acceptor::Bare(_) => Acceptor::Failed(Refusal::Unread),
            Acceptor::Complete(_) => Acceptor::Failed(Refusal::Broken(Rule::Finished)),
            Acceptor::Failed(refusal) => Acceptor::Failed(refusal),
        }
    }

    /// Whether octets go to a mechanism with no negotiation around them: a first token that one of
    /// the mechanisms knows as its own, and what follows it.
    pub fn takes_bare(&self, token: &[u8]) -> bool
        ensures { result ≡ takes_bare M.meaning self.now token.now }
    {
        match self {
            Acceptor::Fresh(fresh) => is_bare_of_any(&fresh.mechanisms, token),
            Acceptor::Bare(_) => true,
            Acceptor::Running(_) => false,
            Acceptor::Complete(_) => false,
            Acceptor::Failed(_) => false,
        }
    }

    /// The acceptor after the initiator's offer, and its first reply. Of the initiator's list it
    /// takes the first name that names one of its mechanisms. An offer in any other state ends the
    /// negotiation: `Unread`, `Finished` after completion.
    pub fn offered(self, alloc: Global, proposal: Proposal) -> (Acceptor<M>, Option<Message>)
        ensures { AcceptorIsOffered M.meaning self proposal result }
    {
        match self {
            Acceptor::Fresh(fresh) => settled(offered(alloc, fresh, proposal)),
            Acceptor::Running(_) => (Acceptor::Failed(Refusal::Unread), None),
            Acceptor::Bare(_) => (Acceptor::Failed(Refusal::Unread), None),
            Acceptor::Complete(_) => (Acceptor::Failed(Refusal::Broken(Rule::Finished)), None),
            Acceptor::Failed(refusal) => (Acceptor::Failed(refusal), None),
        }
    }

    /// The acceptor after a later message of the initiator, and the message that it answers, if
    /// any.
    ///
    /// A message that breaks a rule ends the negotiation by the first rule that it breaks; one that
    /// comes after this side was complete, by `Finished`. A side that has failed has failed for
    /// good: each later call returns the same refusal, and answers nothing.
    pub fn step(self, alloc: Global, message: &Message) -> (Acceptor<M>, Option<Message>)
        ensures { AcceptorSteps M.meaning self message.now result }
    {
        match self {
            Acceptor::Running(running) => settled(later(alloc, Role::Acceptor, running, message)),
            Acceptor::Fresh(_) => (Acceptor::Failed(Refusal::Unread), None),
            Acceptor::Bare(_) => (Acceptor::Failed(Refusal::Unread), None),
            Acceptor::Complete(_) => (Acceptor::Failed(Refusal::Broken(Rule::Finished)), None),
            Acceptor::Failed(refusal) => (Acceptor::Failed(refusal), None),
        }
    }

    /// The acceptor after a mechanism's own token, and the token that the mechanism answers, if
    /// any. `Unread` where no mechanism knows a first token as its own.
    pub fn bare(self, alloc: Global, token: &[u8]) -> (Acceptor<M>, Option<Vec<u8>>)
        ensures { AcceptorTakesBare M.meaning self token.now result }
    {
        match self {
            Acceptor::Fresh(fresh) => first_bare(alloc, find_bare(fresh.mechanisms, token), token),
            Acceptor::Bare(side) => later_bare(alloc, side.mechanism, side.established, token),
            Acceptor::Running(_) => (Acceptor::Failed(Refusal::Unread), None),
            Acceptor::Complete(_) => (Acceptor::Failed(Refusal::Broken(Rule::Finished)), None),
            Acceptor::Failed(refusal) => (Acceptor::Failed(refusal), None),
        }
    }
}

/// Whether octets are a first token of one of the mechanisms.
fn is_bare_of_any<M: Mechanism>(mechanisms: &[M], token: &[u8]) -> bool
    ensures { result ≡ list_any (λ m. M.meaning.bare m token.now) mechanisms.now }
{
    mechanisms.iter().any(|mechanism| mechanism.is_bare(token))
}

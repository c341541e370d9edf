//! The side that offers.

ghost use Rattle.std.specs.Prelude.{◌≡◌, false, Err, None, IfOk};
ghost use Rattle.krb_spnego_rules.specs.Fields.{items_in};
ghost use Rattle.krb_spnego_rules.specs.InitiatorSteps.{Begins, GoesOnAs, InitiatorSteps, Replied, RepliedAs, chosen as chosen_of, picks, picks_other, settled as settled_of, unread_initiator};
ghost use Rattle.krb_spnego_rules.specs.Steps.{IsHindered};
ghost use Rattle.krb_spnego_rules.specs.declared.message.Refusal.{Refusal as RefusalOf};

use crate::checks::check_first_reply;
use crate::mechanism::{Mechanism, find_named};
use crate::message::{Message, Refusal, copied, octets};
use crate::side::{After, Complete, Running, advance, go_on, is_established, later};
use crate::words::{Choice, Reply, Role, Rule, Terms};
use std::alloc::Global;

/// An initiator that has sent its offer, and waits for the first reply.
#[derive(Drop)]
pub struct Offered<M> {
    /// Its preferred mechanism, whose first token was sent.
    pub first: M,
    /// That mechanism's context is established on this side.
    pub established: bool,
    /// The other mechanisms, in order of preference.
    pub others: Vec<M>,
    /// The DER encoding of the list of mechanisms, as it was sent.
    pub list: Vec<u8>,
}

/// The side that offers mechanisms (RFC 4178, 3.2).
#[derive(Drop)]
pub enum Initiator<M> {
    /// Its offer is sent.
    Offered(Offered<M>),
    /// A mechanism is chosen, and this side waits for a message.
    Running(Running<M>),
    /// It is complete.
    Complete(Complete<M>),
    /// It ended the negotiation, for good.
    Failed(Refusal),
}

/// An initiator of these mechanisms, the preferred one first, and the first token of that one.
/// `list` is the DER encoding of the list of their object identifiers, as it is sent.
///
/// `OutOfMemory`, or `MechanismFailed` where the preferred mechanism does not begin.
pub fn begin<M: Mechanism>(
    alloc: Global,
    first: M,
    others: Vec<M>,
    list: Vec<u8>,
) -> Result<(Initiator<M>, Option<Vec<u8>>), Refusal>
    ensures begun { IfOk result (Begins M.meaning first others list) }
    ensures hindered { (e : RefusalOf) → result ≡ Err e → IsHindered M.meaning false first None e }
{
    let mut context = first;
    let turn = advance(alloc, &mut context, false, None)?;
    let offered = Offered {
        first: context,
        established: is_established(turn.progress()),
        others,
        list,
    };
    Ok((Initiator::Offered(offered), turn.token()))
}

/// What a reply's supportedMech comes to, and the mechanism that it names.
fn picked<M: Mechanism>(first: M, others: Vec<M>, named: &Option<Vec<u64>>) -> (Choice, Option<M>)
    ensures { result ≡ picks M.meaning first others.items (items_in named.now) }
{
    match named {
        None => (Choice::Absent, None),
        Some(name) => {
            if first.is_named(name.as_slice()) {
                let integrity = first.has_integrity();
                return (Choice::Preferred(integrity), Some(first));
            }
            other_choice(find_named(others, name.as_slice()))
        }
    }
}

/// What the name of another mechanism than the preferred one comes to.
fn other_choice<M: Mechanism>(found: Option<M>) -> (Choice, Option<M>)
    ensures { result ≡ picks_other M.meaning found }
{
    match found {
        Some(mechanism) => {
            let integrity = mechanism.has_integrity();
            (Choice::Other(integrity), Some(mechanism))
        }
        None => (Choice::Unknown, None),
    }
}

/// A side whose mechanism is chosen.
fn chosen<M: Mechanism>(
    established: bool,
    list: Vec<u8>,
    mechanism: M,
    name: Vec<u64>,
    terms: Terms,
) -> Running<M>
    ensures { result ≡ chosen_of established list mechanism name terms }
{
    Running {
        mechanism,
        name,
        established: established && terms.preferred,
        terms,
        list,
    }
}

/// The first reply, which breaks no rule so far.
fn go_on_as<M: Mechanism>(
    alloc: Global,
    established: bool,
    list: Vec<u8>,
    message: &Message,
    mechanism: M,
    terms: Terms,
) -> Result<(After<M>, Option<Message>), Refusal>
    ensures { GoesOnAs M.meaning established list message.now mechanism terms (items_in message.now.mechanism) result }
{
    match &message.mechanism {
        Some(named) => {
            let name = copied(alloc, named)?;
            let side = chosen(established, list, mechanism, name, terms);
            go_on(
                alloc,
                Role::Initiator,
                side,
                None,
                message.state,
                octets(&message.token),
                octets(&message.mic),
            )
        }
        None => Err(Refusal::Broken(Rule::NoMechanism)),
    }
}

/// The first reply, of which the mechanism is picked.
fn replied_as<M: Mechanism>(
    alloc: Global,
    established: bool,
    list: Vec<u8>,
    message: &Message,
    choice: Choice,
    found: Option<M>,
) -> Result<(After<M>, Option<Message>), Refusal>
    ensures { RepliedAs M.meaning established list message.now (choice, found) result }
{
    let reply = Reply {
        state: message.state,
        choice,
        token: message.token.is_some(),
    };
    let terms = check_first_reply(reply, established)?;
    match found {
        Some(mechanism) => go_on_as(alloc, established, list, message, mechanism, terms),
        None => Err(Refusal::Broken(Rule::NoMechanism)),
    }
}

/// The first reply.
fn replied<M: Mechanism>(
    alloc: Global,
    offered: Offered<M>,
    message: &Message,
) -> Result<(After<M>, Option<Message>), Refusal>
    ensures { Replied M.meaning offered message.now result }
{
    let Offered {
        first,
        established,
        others,
        list,
    } = offered;
    let (choice, found) = picked(first, others, &message.mechanism);
    replied_as(alloc, established, list, message, choice, found)
}

/// A side after a message, and its answer.
fn settled<M: Mechanism>(
    outcome: Result<(After<M>, Option<Message>), Refusal>,
) -> (Initiator<M>, Option<Message>)
    ensures { result ≡ settled_of outcome }
{
    match outcome {
        Ok((after, answer)) => match after {
            After::Running(running) => (Initiator::Running(running), answer),
            After::Complete(complete) => (Initiator::Complete(complete), answer),
        },
        Err(refusal) => (Initiator::Failed(refusal), None),
    }
}

impl<M: Mechanism> Initiator<M> {
    /// The initiator after octets that were no message.
    pub fn unread(self) -> Initiator<M>
        ensures { result ≡ unread_initiator self }
    {
        match self {
            Initiator::Offered(_) => Initiator::Failed(Refusal::Unread),
            Initiator::Running(_) => Initiator::Failed(Refusal::Unread),
            Initiator::Complete(_) => Initiator::Failed(Refusal::Broken(Rule::Finished)),
            Initiator::Failed(refusal) => Initiator::Failed(refusal),
        }
    }

    /// The initiator after a message of the acceptor, and the message that it answers, if any.
    ///
    /// A message that breaks a rule ends the negotiation by the first rule that it breaks; one that
    /// comes after this side was complete, by `Finished`. A side that has failed has failed for
    /// good: each later call returns the same refusal, and answers nothing.
    pub fn step(self, alloc: Global, message: &Message) -> (Initiator<M>, Option<Message>)
        ensures { InitiatorSteps M.meaning self message.now result }
    {
        match self {
            Initiator::Offered(offered) => settled(replied(alloc, offered, message)),
            Initiator::Running(running) => settled(later(alloc, Role::Initiator, running, message)),
            Initiator::Complete(_) => (Initiator::Failed(Refusal::Broken(Rule::Finished)), None),
            Initiator::Failed(refusal) => (Initiator::Failed(refusal), None),
        }
    }
}

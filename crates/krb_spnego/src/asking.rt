//! What a message asks of a mechanism that the caller runs elsewhere.

ghost use Rattle.std.specs.Prelude.{◌≡◌, ◌&&◌, ◌==◌, find, is_some};
ghost use Rattle.std.specs.List.{list_any};
ghost use Rattle.std.specs.Option.{option_copied};
ghost use Rattle.krb_spnego.specs.Asking.{AcceptorAsks, BareAsks, FirstReplyAsks, FreshAsks, InitiatorAsks, LaterAsks, OfferAsks, first_reply_asked, later_asks, offer_asks, offer_asked, pick_in, pick_other, place_in, refusal_of, first_reply_asks};
ghost use Rattle.krb_spnego.specs.Told.{is_told_name, told_meaning};
ghost use Rattle.krb_spnego_rules.specs.AcceptorSteps.{choice_in_offer, is_first, name_at, named_in, rank_in};
ghost use Rattle.krb_spnego_rules.specs.Fields.{items_in};

use crate::error::ReadError;
use crate::reading::{read_offer, read_reply};
use crate::told::Told;
use krb_der::DerEncode;
use krb_gss_tokens::gss_api::{ApplicationTag0, GssApiNegInit, MechTypeList, NegTokenTarg1};
use krb_spnego_rules::{
    Acceptor, Choice, Fresh, Initiator, Mechanism, Message, Offer, Offered, Proposal, Refusal,
    Reply, Rule, Running, Terms, check_first_reply, check_later, check_offer,
};
use std::alloc::Global;

/// What a message that breaks no rule so far asks of a mechanism.
#[derive(Drop)]
pub struct Question {
    /// The mechanism's place among this side's.
    pub mechanism: u32,
    /// It takes the token that came, or begins with none.
    pub steps: bool,
    /// The token that came.
    pub token: Option<Vec<u8>>,
    /// The peer's MIC, which can be verified where its context is established and there is no token
    /// to be sent.
    pub mic: Option<Vec<u8>>,
    /// The encoding of the list that is offered, which MICs are over: of an offer.
    pub list: Option<Vec<u8>>,
}

/// Why a side ends a negotiation where octets are no message.
fn refusal_of(error: ReadError) -> Refusal
    ensures { result ≡ refusal_of error }
{
    match error {
        ReadError::OutOfMemory => Refusal::OutOfMemory,
        ReadError::Malformed(_) => Refusal::Unread,
        ReadError::NotSpnego => Refusal::Unread,
        ReadError::UnknownState => Refusal::Unread,
    }
}

/// The place of a mechanism.
fn place_of(found: Option<&Told>) -> Option<u32>
    ensures { result ≡ place_in (option_copied found.entry) }
{
    match found {
        Some(mechanism) => Some(mechanism.place),
        None => None,
    }
}

/// The first of the mechanisms that arcs name.
fn find_named<'a>(mechanisms: &'a [Told], name: &[u64]) -> Option<&'a Told>
    ensures { option_copied result ≡ find (λ m. is_told_name m name.now) mechanisms.now }
{
    mechanisms.iter().find(|mechanism| mechanism.is_named(name))
}

/// The first of the mechanisms whose own first token came.
fn find_bare<'a>(mechanisms: &'a [Told]) -> Option<&'a Told>
    ensures { option_copied result ≡ find (λ m. m.bare) mechanisms.now }
{
    mechanisms.iter().find(|mechanism| mechanism.bare)
}

/// Whether arcs name one of the mechanisms.
fn supports(mechanisms: &[Told], name: &[u64]) -> bool
    ensures { result ≡ list_any (λ m. is_told_name m name.now) mechanisms.now }
{
    mechanisms.iter().any(|mechanism| mechanism.is_named(name))
}

/// The rank of the first object identifier of the list that names one of the mechanisms.
pub(crate) fn first_supported(mechanisms: &[Told], list: &[Vec<u64>]) -> Option<usize>
    ensures { result ≡ rank_in told_meaning mechanisms.now list.now }
{
    list.iter()
        .position(|name| supports(mechanisms, name.as_slice()))
}

/// The object identifier of the list at this rank.
pub(crate) fn listed(list: &[Vec<u64>], rank: Option<usize>) -> Option<&Vec<u64>>
    ensures { option_copied result ≡ name_at rank list.now }
{
    match rank {
        Some(rank) => list.get(rank),
        None => None,
    }
}

/// The mechanism that an object identifier names, if there is one.
fn named_by<'a>(mechanisms: &'a [Told], name: Option<&Vec<u64>>) -> Option<&'a Told>
    ensures { option_copied result ≡ named_in told_meaning mechanisms.now (option_copied name.entry) }
{
    match name {
        Some(name) => find_named(mechanisms, name.as_slice()),
        None => None,
    }
}

/// Whether it is the list's first.
fn is_first(rank: Option<usize>) -> bool
    ensures { result ≡ is_first rank }
{
    match rank {
        Some(rank) => rank == 0,
        None => false,
    }
}

/// What an offer comes to.
fn choice_of(list: &[Vec<u64>], first: bool, found: Option<&Told>) -> Choice
    ensures { result ≡ choice_in_offer told_meaning list.now first (option_copied found.entry) }
{
    match list {
        [] => Choice::Absent,
        [_, ..] => match found {
            None => Choice::Unknown,
            Some(mechanism) => {
                if first {
                    Choice::Preferred(mechanism.integrity)
                } else {
                    Choice::Other(mechanism.integrity)
                }
            }
        },
    }
}

/// What an offer asks, where its rules come to these terms.
fn offer_asked(
    checked: Result<Terms, Rule>,
    place: Option<u32>,
    proposal: Proposal,
) -> Result<Question, Refusal>
    ensures { result ≡ offer_asked checked place proposal }
{
    match checked {
        Err(rule) => Err(Refusal::Broken(rule)),
        Ok(terms) => match place {
            None => Err(Refusal::Broken(Rule::NoMechanism)),
            Some(mechanism) => Ok(Question {
                mechanism,
                steps: terms.preferred && proposal.token.is_some(),
                token: proposal.token,
                mic: proposal.mic,
                list: Some(proposal.list),
            }),
        },
    }
}

/// What an offer asks.
fn offer_asks(fresh: &Fresh<Told>, proposal: Proposal) -> Result<Question, Refusal>
    ensures { result ≡ offer_asks fresh.now proposal }
{
    let list = proposal.mechanisms.as_slice();
    let rank = first_supported(&fresh.mechanisms, list);
    let found = named_by(&fresh.mechanisms, listed(list, rank));
    let offer = Offer {
        choice: choice_of(list, is_first(rank), found),
        token: proposal.token.is_some(),
        mic: proposal.mic.is_some(),
    };
    let place = place_of(found);
    offer_asked(check_offer(offer, fresh.asks), place, proposal)
}

/// What the octets of an offer ask.
fn after_offer(alloc: Global, fresh: &Fresh<Told>, token: &[u8]) -> Result<Question, Refusal>
    ensures { OfferAsks ⟦<ApplicationTag0<GssApiNegInit> as DerEncode>⟧ ⟦<MechTypeList as DerEncode>⟧ fresh.now token.now result }
{
    match read_offer(alloc, token) {
        Ok(proposal) => offer_asks(fresh, proposal),
        Err(error) => Err(refusal_of(error)),
    }
}

/// What a mechanism's own token asks, with no negotiation around it.
fn bare_asks(alloc: Global, mechanism: u32, token: &[u8]) -> Result<Question, Refusal>
    ensures { BareAsks mechanism token.now result }
{
    match Vec::from_slice(alloc, token) {
        Ok(own) => Ok(Question {
            mechanism,
            steps: true,
            token: Some(own),
            mic: None,
            list: None,
        }),
        Err(_error) => Err(Refusal::OutOfMemory),
    }
}

/// What the first octets ask of an acceptor.
fn fresh_asks(alloc: Global, fresh: &Fresh<Told>, token: &[u8]) -> Result<Question, Refusal>
    ensures { FreshAsks ⟦<ApplicationTag0<GssApiNegInit> as DerEncode>⟧ ⟦<MechTypeList as DerEncode>⟧ fresh.now token.now result }
{
    match place_of(find_bare(&fresh.mechanisms)) {
        Some(mechanism) => bare_asks(alloc, mechanism, token),
        None => after_offer(alloc, fresh, token),
    }
}

/// What a later message asks.
fn later_asks(running: &Running<Told>, message: Message) -> Result<Question, Refusal>
    ensures { result ≡ later_asks running.now message }
{
    let choice = match &message.mechanism {
        Some(_) => Choice::Unknown,
        None => Choice::Absent,
    };
    let reply = Reply {
        state: message.state,
        choice,
        token: message.token.is_some(),
    };
    match check_later(reply, running.established) {
        Err(rule) => Err(Refusal::Broken(rule)),
        Ok(()) => Ok(Question {
            mechanism: running.mechanism.place,
            steps: !running.established,
            token: message.token,
            mic: message.mic,
            list: None,
        }),
    }
}

/// What the octets of a later message ask.
fn after_later(alloc: Global, running: &Running<Told>, token: &[u8]) -> Result<Question, Refusal>
    ensures { LaterAsks ⟦<NegTokenTarg1 as DerEncode>⟧ running.now token.now result }
{
    match read_reply(alloc, token) {
        Ok(message) => later_asks(running, message),
        Err(error) => Err(refusal_of(error)),
    }
}

/// What octets of the initiator ask of an acceptor's mechanism, before `accept_told` makes the
/// step: a first token that one of the mechanisms knows as its own, an offer (RFC 4178, 4.2.1) or a
/// later message (4.2.2).
///
/// Else why the side ends the negotiation: by the first rule that the message breaks, `Unread`
/// where the octets are no message; `OutOfMemory`.
pub fn acceptor_asks(
    alloc: Global,
    side: &Acceptor<Told>,
    token: &[u8],
) -> Result<Question, Refusal>
    ensures { AcceptorAsks ⟦<ApplicationTag0<GssApiNegInit> as DerEncode>⟧ ⟦<MechTypeList as DerEncode>⟧ ⟦<NegTokenTarg1 as DerEncode>⟧ side.now
        token.now result }
{
    match side {
        Acceptor::Fresh(fresh) => fresh_asks(alloc, fresh, token),
        Acceptor::Running(running) => after_later(alloc, running, token),
        Acceptor::Complete(_) => Err(Refusal::Broken(Rule::Finished)),
        Acceptor::Bare(bare) => {
            if bare.established {
                Err(Refusal::Broken(Rule::Finished))
            } else {
                bare_asks(alloc, bare.mechanism.place, token)
            }
        }
        Acceptor::Failed(refusal) => Err(*refusal),
    }
}

/// What the name of another mechanism than the preferred one comes to.
fn pick_other(found: Option<&Told>) -> (Choice, Option<u32>)
    ensures { result ≡ pick_other (option_copied found.entry) }
{
    match found {
        Some(mechanism) => (Choice::Other(mechanism.integrity), Some(mechanism.place)),
        None => (Choice::Unknown, None),
    }
}

/// What a reply's supportedMech comes to, and the place of the mechanism that it names.
fn pick_in(offered: &Offered<Told>, named: &Option<Vec<u64>>) -> (Choice, Option<u32>)
    ensures { result ≡ pick_in offered.now (items_in named.now) }
{
    match named {
        None => (Choice::Absent, None),
        Some(name) => {
            let first = &offered.first;
            if first.is_named(name.as_slice()) {
                return (Choice::Preferred(first.integrity), Some(first.place));
            }
            pick_other(find_named(&offered.others, name.as_slice()))
        }
    }
}

/// What the first reply asks, where its rules come to these terms.
fn first_reply_asked(
    checked: Result<Terms, Rule>,
    place: Option<u32>,
    established: bool,
    message: Message,
) -> Result<Question, Refusal>
    ensures { result ≡ first_reply_asked checked place established message }
{
    match checked {
        Err(rule) => Err(Refusal::Broken(rule)),
        Ok(terms) => match place {
            None => Err(Refusal::Broken(Rule::NoMechanism)),
            Some(mechanism) => Ok(Question {
                mechanism,
                steps: !(established && terms.preferred),
                token: message.token,
                mic: message.mic,
                list: None,
            }),
        },
    }
}

/// What the first reply asks.
fn first_reply_asks(offered: &Offered<Told>, message: Message) -> Result<Question, Refusal>
    ensures { result ≡ first_reply_asks offered.now message }
{
    let (choice, place) = pick_in(offered, &message.mechanism);
    let reply = Reply {
        state: message.state,
        choice,
        token: message.token.is_some(),
    };
    let established = offered.established;
    first_reply_asked(
        check_first_reply(reply, established),
        place,
        established,
        message,
    )
}

/// What the octets of the first reply ask.
fn after_first_reply(
    alloc: Global,
    offered: &Offered<Told>,
    token: &[u8],
) -> Result<Question, Refusal>
    ensures { FirstReplyAsks ⟦<NegTokenTarg1 as DerEncode>⟧ offered.now token.now result }
{
    match read_reply(alloc, token) {
        Ok(message) => first_reply_asks(offered, message),
        Err(error) => Err(refusal_of(error)),
    }
}

/// What octets of the acceptor ask of an initiator's mechanism, before `initiate_told` makes the
/// step: the first reply (RFC 4178, 4.2.2), or a later one.
///
/// Else why the side ends the negotiation: by the first rule that the message breaks, `Unread`
/// where the octets are no message; `OutOfMemory`.
pub fn initiator_asks(
    alloc: Global,
    side: &Initiator<Told>,
    token: &[u8],
) -> Result<Question, Refusal>
    ensures { InitiatorAsks ⟦<NegTokenTarg1 as DerEncode>⟧ side.now token.now result }
{
    match side {
        Initiator::Offered(offered) => after_first_reply(alloc, offered, token),
        Initiator::Running(running) => after_later(alloc, running, token),
        Initiator::Complete(_) => Err(Refusal::Broken(Rule::Finished)),
        Initiator::Failed(refusal) => Err(*refusal),
    }
}

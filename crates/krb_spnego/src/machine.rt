//! Both sides over octets.

ghost use Rattle.std.specs.Prelude.{◌≡◌, true, IfErr, IfOk, OnErr, is_some};
ghost use Rattle.krb_spnego.specs.Offering.{BeginsNot, BeginsWith};
ghost use Rattle.krb_spnego.specs.Taking.{AcceptorTakes, InitiatorTakes, Sends, TakesOffer, TakesReply, Writes, is_fresh_side};
ghost use Rattle.krb_spnego_rules.specs.declared.acceptor.Acceptor.TheVariants as acceptors;
ghost use Rattle.krb_spnego_rules.specs.declared.message.Refusal.TheVariants as refusals;

use crate::error::{BeginError, ReadError};
use crate::reading::{read_offer, read_reply};
use crate::writing::{list_of, octets_of, write_offer, write_reply};
use krb_der::DerEncode;
use krb_gss_tokens::gss_api::{ApplicationTag0, GssApiNegInit, MechTypeList, NegTokenTarg1};
use krb_spnego_rules::{Acceptor, Initiator, Mechanism, Message, Refusal};
use std::alloc::{AllocError, Global};

/// An initiator of these mechanisms, the preferred one first, and its offer: the octets of a
/// NegTokenInit in its token, with the first token of the preferred mechanism (RFC 4178, 4.2.1).
///
/// `NoIdentifier` where a mechanism's arcs are no object identifier, `MechanismFailed` where the
/// preferred mechanism does not begin; `OutOfMemory`.
pub fn begin<M: Mechanism>(
    alloc: Global,
    first: M,
    others: Vec<M>,
) -> Result<(Initiator<M>, Vec<u8>), BeginError>
    ensures begun { IfOk result
        (BeginsWith ⟦<ApplicationTag0<GssApiNegInit> as DerEncode>⟧ ⟦<MechTypeList as DerEncode>⟧ M.meaning first others) }
    ensures refused { IfErr result (BeginsNot M.meaning first others.items) }
{
    let types = list_of(alloc, &first, &others)?;
    let list = octets_of(alloc, &types)?;
    match krb_spnego_rules::begin(alloc, first, others, list) {
        Ok((side, token)) => {
            let offer = write_offer(alloc, types, token)?;
            Ok((side, offer))
        }
        Err(Refusal::OutOfMemory) => Err(BeginError::OutOfMemory),
        Err(_) => Err(BeginError::MechanismFailed),
    }
}

/// The octets of an answer, if there is one.
fn written(alloc: Global, answer: Option<Message>) -> Result<Option<Vec<u8>>, AllocError>
    ensures written { IfOk result (Writes ⟦<NegTokenTarg1 as DerEncode>⟧ answer) }
    ensures refused { OnErr result (is_some answer ≡ true) }
{
    match answer {
        Some(message) => Ok(Some(write_reply(alloc, message)?)),
        None => Ok(None),
    }
}

/// A side after a step of the rules, and the octets of its answer; where memory fails, `failed`.
fn sent<S: Drop>(
    alloc: Global,
    after: S,
    answer: Option<Message>,
    failed: S,
) -> (S, Result<Option<Vec<u8>>, ReadError>)
    ensures { Sends ⟦<NegTokenTarg1 as DerEncode>⟧ (after, answer) failed result }
{
    match written(alloc, answer) {
        Ok(octets) => (after, Ok(octets)),
        Err(_) => (failed, Err(ReadError::OutOfMemory)),
    }
}

/// The initiator after octets of the acceptor, and the octets that it answers, if any (RFC 4178,
/// 4.2.2); or why the octets were no message.
///
/// The octets have to be the one encoding of a NegTokenResp. Of the message, `Initiator::step` says
/// what follows: one that breaks a rule ends the negotiation by the first rule that it breaks, and
/// so do octets that are no message (`Unread`). After completion each message ends it (`Finished`).
/// A side that has failed has failed for good, and answers nothing.
pub fn initiate_step<M: Mechanism>(
    alloc: Global,
    side: Initiator<M>,
    token: &[u8],
) -> (Initiator<M>, Result<Option<Vec<u8>>, ReadError>)
    ensures { InitiatorTakes ⟦<NegTokenTarg1 as DerEncode>⟧ M.meaning side token.now result }
{
    match read_reply(alloc, token) {
        Ok(message) => {
            let (after, answer) = side.step(alloc, &message);
            sent(
                alloc,
                after,
                answer,
                Initiator::Failed(Refusal::OutOfMemory),
            )
        }
        Err(error) => (side.unread(), Err(error)),
    }
}

/// The offer.
fn after_offer<M: Mechanism>(
    alloc: Global,
    side: Acceptor<M>,
    token: &[u8],
) -> (Acceptor<M>, Result<Option<Vec<u8>>, ReadError>)
    ensures { TakesOffer ⟦<ApplicationTag0<GssApiNegInit> as DerEncode>⟧ ⟦<MechTypeList as DerEncode>⟧ ⟦<NegTokenTarg1 as DerEncode>⟧ M.meaning side
        token.now result }
{
    match read_offer(alloc, token) {
        Ok(proposal) => {
            let (after, answer) = side.offered(alloc, proposal);
            sent(alloc, after, answer, Acceptor::Failed(Refusal::OutOfMemory))
        }
        Err(error) => (side.unread(), Err(error)),
    }
}

/// A later message.
fn after_reply<M: Mechanism>(
    alloc: Global,
    side: Acceptor<M>,
    token: &[u8],
) -> (Acceptor<M>, Result<Option<Vec<u8>>, ReadError>)
    ensures { TakesReply ⟦<NegTokenTarg1 as DerEncode>⟧ M.meaning side token.now result }
{
    match read_reply(alloc, token) {
        Ok(message) => {
            let (after, answer) = side.step(alloc, &message);
            sent(alloc, after, answer, Acceptor::Failed(Refusal::OutOfMemory))
        }
        Err(error) => (side.unread(), Err(error)),
    }
}

/// Whether no token came.
fn is_fresh<M>(side: &Acceptor<M>) -> bool
    ensures { result ≡ is_fresh_side side.now }
{
    match side {
        Acceptor::Fresh(_) => true,
        Acceptor::Running(_) => false,
        Acceptor::Complete(_) => false,
        Acceptor::Bare(_) => false,
        Acceptor::Failed(_) => false,
    }
}

/// The acceptor after octets of the initiator, and the octets that it answers, if any; or why the
/// octets were no message.
///
/// First octets that a mechanism knows as its own (`Mechanism::is_bare`) go to it with no
/// negotiation around them, and so does what follows them. Other first octets have to be the one
/// encoding of an offer (RFC 4178, 4.2.1), later ones that of a NegTokenResp (4.2.2). Of the
/// message, `Acceptor::offered` and `Acceptor::step` say what follows; octets that are no message
/// end the negotiation (`Unread`). A side that has failed has failed for good, and answers nothing.
pub fn accept_step<M: Mechanism>(
    alloc: Global,
    side: Acceptor<M>,
    token: &[u8],
) -> (Acceptor<M>, Result<Option<Vec<u8>>, ReadError>)
    ensures { AcceptorTakes ⟦<ApplicationTag0<GssApiNegInit> as DerEncode>⟧ ⟦<MechTypeList as DerEncode>⟧ ⟦<NegTokenTarg1 as DerEncode>⟧ M.meaning
        side token.now result }
{
    if side.takes_bare(token) {
        let (after, answer) = side.bare(alloc, token);
        return (after, Ok(answer));
    }
    if is_fresh(&side) {
        after_offer(alloc, side, token)
    } else {
        after_reply(alloc, side, token)
    }
}

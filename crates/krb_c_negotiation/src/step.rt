//! A side makes a step.

ghost use Rattle.std.specs.Prelude.{◌≡◌, IfOk, MatchResult};
ghost use Rattle.krb_c_calls.specs.Handing.{IsPut};
ghost use Rattle.krb_c_calls.specs.declared.call_error.CallError.TheVariants as calls;
ghost use Rattle.krb_c_negotiation.specs.Answering.{AcceptorMakes, InitiatorMakes, IsAcceptorStep, IsAnswer, IsHandedOver, IsInitiatorStep, IsStep, IsWithoutMic, RefusesAcceptorStep, RefusesInitiatorStep, RefusesStep, answer_of, octets_in, told_error};
ghost use Rattle.krb_spnego_rules.specs.Fields.{items_in};
ghost use Rattle.krb_c_negotiation.specs.Mechanisms.{words};

use crate::mechanisms::{Tale, copied, mechanisms_of};
use crate::numbers::{flag, role_of};
use crate::records::{AnswerRecord, NegotiationRecord};
use crate::sides::{acceptor_after, acceptor_of, initiator_after, initiator_of};
use krb_c_calls::handing::put;
use krb_c_calls::{CallError, DONE};
use krb_der::{Asn1SequenceOf, DerEncode};
use krb_gss_tokens::gss_api::{ApplicationTag0, GssApiNegInit, MechTypeList, NegTokenTarg1};
use krb_spnego::{Answered, Told, accept_told, initiate_told};
use krb_spnego_rules::{Acceptor, Initiator, Role};
use std::alloc::{AllocError, Global};

/// What a step comes to.
#[derive(Drop)]
pub(crate) struct Step {
    /// The side after it.
    pub side: NegotiationRecord,
    /// What is told of it.
    pub answer: AnswerRecord,
    /// The octets that are sent.
    pub octets: Vec<u8>,
}

/// The token of a mechanism that says why it refuses.
fn error_of(alloc: Global, tale: &Tale) -> Result<Option<Vec<u8>>, AllocError>
    ensures { IfOk result (λ error. items_in error ≡ told_error (words tale.now)) }
{
    if tale.progress != 3 {
        return Ok(None);
    }
    match tale.token {
        [] => Ok(None),
        [_, ..] => Ok(Some(copied(alloc, tale.token)?)),
    }
}

/// What is told of a step that sends this, or nothing.
fn answer_of(sent: &Option<Vec<u8>>) -> AnswerRecord
    ensures { result ≡ answer_of sent.now }
{
    AnswerRecord {
        lacks_mic: 0,
        sends: flag(sent.is_some()),
    }
}

/// The octets that are sent.
fn octets_of(alloc: Global, sent: Option<Vec<u8>>) -> Vec<u8>
    ensures { result.items ≡ octets_in sent }
{
    match sent {
        Some(octets) => octets,
        None => Vec::new(alloc),
    }
}

/// A step for which the mechanism's own MIC has to be told.
fn without_mic(alloc: Global, side: &NegotiationRecord) -> Step
    ensures { IsWithoutMic side.now result }
{
    Step {
        side: *side,
        answer: AnswerRecord {
            lacks_mic: 1,
            sends: 0,
        },
        octets: Vec::new(alloc),
    }
}

/// A step of an acceptor.
fn accepted(
    alloc: Global,
    side: &NegotiationRecord,
    tale: &Tale,
    octets: &[u8],
) -> Result<Step, CallError>
    ensures { MatchResult result
        (IsAcceptorStep ⟦<ApplicationTag0<GssApiNegInit> as DerEncode>⟧ ⟦<MechTypeList as DerEncode>⟧ ⟦<NegTokenTarg1 as DerEncode>⟧
        ⟦<Asn1SequenceOf<MechTypeList> as DerEncode>⟧ side.now (words tale.now) octets.now)
        (RefusesAcceptorStep ⟦<Asn1SequenceOf<MechTypeList> as DerEncode>⟧ side.now (words tale.now)) }
{
    let mechanisms = mechanisms_of(alloc, side, tale)?;
    match acceptor_of(alloc, side, mechanisms, tale.list) {
        Ok(acceptor) => accepted_by(alloc, side, acceptor, tale, octets),
        Err(refusal) => Err(refusal),
    }
}

/// A step of an acceptor that is made of its numbers.
fn accepted_by(
    alloc: Global,
    side: &NegotiationRecord,
    acceptor: Acceptor<Told>,
    tale: &Tale,
    octets: &[u8],
) -> Result<Step, CallError>
    ensures { MatchResult result
        (AcceptorMakes ⟦<ApplicationTag0<GssApiNegInit> as DerEncode>⟧ ⟦<MechTypeList as DerEncode>⟧ ⟦<NegTokenTarg1 as DerEncode>⟧ side.now
        acceptor (words tale.now) octets.now)
        (λ e. e ≡ calls.Memory) }
{
    let error = error_of(alloc, tale)?;
    match accept_told(alloc, acceptor, octets, error)? {
        Answered::LacksMic => Ok(without_mic(alloc, side)),
        Answered::Stands(after, sent) => Ok(Step {
            side: acceptor_after(side, &after),
            answer: answer_of(&sent),
            octets: octets_of(alloc, sent),
        }),
    }
}

/// A step of an initiator.
fn initiated(
    alloc: Global,
    side: &NegotiationRecord,
    tale: &Tale,
    octets: &[u8],
) -> Result<Step, CallError>
    ensures { MatchResult result
        (IsInitiatorStep ⟦<NegTokenTarg1 as DerEncode>⟧ ⟦<Asn1SequenceOf<MechTypeList> as DerEncode>⟧ side.now (words tale.now) octets.now)
        (RefusesInitiatorStep ⟦<Asn1SequenceOf<MechTypeList> as DerEncode>⟧ side.now (words tale.now)) }
{
    let mechanisms = mechanisms_of(alloc, side, tale)?;
    match initiator_of(alloc, side, mechanisms, tale.list) {
        Ok(initiator) => initiated_by(alloc, side, initiator, tale, octets),
        Err(refusal) => Err(refusal),
    }
}

/// A step of an initiator that is made of its numbers.
fn initiated_by(
    alloc: Global,
    side: &NegotiationRecord,
    initiator: Initiator<Told>,
    tale: &Tale,
    octets: &[u8],
) -> Result<Step, CallError>
    ensures { MatchResult result
        (InitiatorMakes ⟦<NegTokenTarg1 as DerEncode>⟧ side.now initiator (words tale.now) octets.now)
        (λ e. e ≡ calls.Memory) }
{
    let error = error_of(alloc, tale)?;
    match initiate_told(alloc, initiator, octets, error)? {
        Answered::LacksMic => Ok(without_mic(alloc, side)),
        Answered::Stands(after, sent) => Ok(Step {
            side: initiator_after(side, &after),
            answer: answer_of(&sent),
            octets: octets_of(alloc, sent),
        }),
    }
}

/// A step of a side.
fn answered(
    alloc: Global,
    side: &NegotiationRecord,
    tale: &Tale,
    octets: &[u8],
) -> Result<Step, CallError>
    ensures { MatchResult result
        (IsStep ⟦<ApplicationTag0<GssApiNegInit> as DerEncode>⟧ ⟦<MechTypeList as DerEncode>⟧ ⟦<NegTokenTarg1 as DerEncode>⟧
        ⟦<Asn1SequenceOf<MechTypeList> as DerEncode>⟧ side.now (words tale.now) octets.now)
        (RefusesStep ⟦<Asn1SequenceOf<MechTypeList> as DerEncode>⟧ side.now (words tale.now)) }
{
    match role_of(side.role)? {
        Role::Initiator => initiated(alloc, side, tale, octets),
        Role::Acceptor => accepted(alloc, side, tale, octets),
    }
}

/// A step is handed over: its octets, and where all of them fit the side and what is told.
fn hand_over(
    step: Step,
    side: &mut NegotiationRecord,
    told: &mut AnswerRecord,
    out: &mut [u8],
    size: &mut usize,
) -> u32
    ensures put { IsPut step.octets.items out.old out.new size.new result }
    ensures handed { IsHandedOver step (record { side = side.old; told = told.old; out = out.old })
        (record { side = side.new; told = told.new; out = out.new }) result }
{
    let status = put(&step.octets, out, size);
    if status != DONE {
        return status;
    }
    *side = step.side;
    *told = step.answer;
    status
}

/// A side makes the step that octets of the peer's ask for (RFC 4178, 3.2, 4.2 and 5), by what its
/// mechanisms made of them, and what it sends is put into `out`: its answer, or the message that
/// rejects where the step ends the negotiation.
///
/// 0: the side is the one after the step, and `told` says whether something is sent. Where it says
/// that the mechanism's own MIC lacks, no step is made, and the side is as it was. Or 1, where
/// `out` has too little room; 3 where a number means nothing; 9, 10 or 11 where the names of the
/// mechanisms are no encoding, or of more or fewer of them; 2 where memory was wanting: then the
/// side and `told` are as they were.
pub fn answer(
    alloc: Global,
    side: &mut NegotiationRecord,
    tale: &Tale,
    octets: &[u8],
    told: &mut AnswerRecord,
    out: &mut [u8],
    size: &mut usize,
) -> u32
    ensures { IsAnswer ⟦<ApplicationTag0<GssApiNegInit> as DerEncode>⟧ ⟦<MechTypeList as DerEncode>⟧ ⟦<NegTokenTarg1 as DerEncode>⟧
        ⟦<Asn1SequenceOf<MechTypeList> as DerEncode>⟧ (words tale.now) octets.now (record { side = side.old; told = told.old; out = out.old })
        (record { side = side.new; told = told.new; out = out.new }) size.new result }
{
    match answered(alloc, side, tale, octets) {
        Ok(step) => hand_over(step, side, told, out, size),
        Err(refusal) => {
            *size = 0;
            refusal.status()
        }
    }
}

//! What octets of the peer's ask of a mechanism.

ghost use Rattle.std.specs.Prelude.{◌≡◌, ◌++◌, IfOk, MatchResult, OnOk};
ghost use Rattle.krb_c_calls.specs.Handing.{IsPut};
ghost use Rattle.krb_c_calls.specs.declared.call_error.CallError.TheVariants as calls;
ghost use Rattle.krb_c_negotiation.specs.Answering.{RefusesAcceptorStep, RefusesInitiatorStep, RefusesStep, octets_in};
ghost use Rattle.krb_c_negotiation.specs.Taking.{AcceptorTakesUp, InitiatorTakesUp, IsBroken, IsTaken, IsTakenUp, IsToldOver, Takes, octets_of_question, question_of, size_in};
ghost use Rattle.krb_c_negotiation.specs.Mechanisms.{words};

use crate::mechanisms::{Tale, mechanisms_of};
use crate::numbers::{flag, refusal_number, role_of};
use crate::records::{NO_QUESTION, NegotiationRecord, QuestionRecord};
use crate::sides::{acceptor_of, initiator_of};
use krb_c_calls::handing::put;
use krb_c_calls::{CallError, DONE};
use krb_der::{Asn1SequenceOf, DerEncode};
use krb_gss_tokens::gss_api::{ApplicationTag0, GssApiNegInit, MechTypeList, NegTokenTarg1};
use krb_spnego::{Question, acceptor_asks, initiator_asks};
use krb_spnego_rules::{Refusal, Role};
use std::alloc::{AllocError, Global};

/// What is asked, as the caller is told it.
#[derive(Drop)]
pub(crate) struct TakenUp {
    /// The numbers.
    pub question: QuestionRecord,
    /// The token, the MIC and the list, one behind the other.
    pub octets: Vec<u8>,
}

/// How many octets there are.
fn size_of(octets: &Option<Vec<u8>>) -> usize
    ensures { result ≡ size_in octets.now }
{
    match octets {
        Some(octets) => octets.len(),
        None => 0,
    }
}

/// The numbers of a question.
fn question_of(question: &Question) -> QuestionRecord
    ensures { result ≡ question_of question.now }
{
    QuestionRecord {
        rule: 0,
        mechanism: question.mechanism,
        steps: flag(question.steps),
        has_token: flag(question.token.is_some()),
        has_mic: flag(question.mic.is_some()),
        has_list: flag(question.list.is_some()),
        token_size: size_of(&question.token),
        mic_size: size_of(&question.mic),
        list_size: size_of(&question.list),
    }
}

/// Appends octets, if there are some.
fn append(out: &mut Vec<u8>, octets: &Option<Vec<u8>>) -> Result<(), AllocError>
    ensures { OnOk result (out.new.items ≡ out.old.items ++ octets_in octets.now) }
{
    match octets {
        Some(octets) => out.extend_from_slice(octets.as_slice()),
        None => Ok(()),
    }
}

/// The token, the MIC and the list of a question.
fn octets_of(alloc: Global, question: &Question) -> Result<Vec<u8>, AllocError>
    ensures { IfOk result (λ octets. octets.items ≡ octets_of_question question.now) }
{
    let mut octets = Vec::new(alloc);
    append(&mut octets, &question.token)?;
    append(&mut octets, &question.mic)?;
    append(&mut octets, &question.list)?;
    Ok(octets)
}

/// The rule that is broken, as the caller is told it.
fn broken(alloc: Global, refusal: Refusal) -> TakenUp
    ensures { IsBroken refusal result }
{
    TakenUp {
        question: QuestionRecord {
            rule: refusal_number(refusal),
            ..NO_QUESTION
        },
        octets: Vec::new(alloc),
    }
}

/// A question as the caller is told it, or the rule that is broken.
fn told(alloc: Global, asked: Result<Question, Refusal>) -> Result<TakenUp, CallError>
    ensures { MatchResult result (IsTakenUp asked) (λ e. e ≡ calls.Memory) }
{
    match asked {
        Ok(question) => {
            let octets = octets_of(alloc, &question)?;
            Ok(TakenUp {
                question: question_of(&question),
                octets,
            })
        }
        Err(Refusal::OutOfMemory) => Err(CallError::Memory),
        Err(Refusal::Unread) => Ok(broken(alloc, Refusal::Unread)),
        Err(Refusal::Broken(rule)) => Ok(broken(alloc, Refusal::Broken(rule))),
    }
}

/// What octets ask of an acceptor's mechanism.
fn acceptor_taken(
    alloc: Global,
    side: &NegotiationRecord,
    tale: &Tale,
    octets: &[u8],
) -> Result<TakenUp, CallError>
    ensures { MatchResult result
        (AcceptorTakesUp ⟦<ApplicationTag0<GssApiNegInit> as DerEncode>⟧ ⟦<MechTypeList as DerEncode>⟧ ⟦<NegTokenTarg1 as DerEncode>⟧
        ⟦<Asn1SequenceOf<MechTypeList> as DerEncode>⟧ side.now (words tale.now) octets.now)
        (RefusesAcceptorStep ⟦<Asn1SequenceOf<MechTypeList> as DerEncode>⟧ side.now (words tale.now)) }
{
    let mechanisms = mechanisms_of(alloc, side, tale)?;
    match acceptor_of(alloc, side, mechanisms, tale.list) {
        Ok(acceptor) => told(alloc, acceptor_asks(alloc, &acceptor, octets)),
        Err(refusal) => Err(refusal),
    }
}

/// What octets ask of an initiator's mechanism.
fn initiator_taken(
    alloc: Global,
    side: &NegotiationRecord,
    tale: &Tale,
    octets: &[u8],
) -> Result<TakenUp, CallError>
    ensures { MatchResult result
        (InitiatorTakesUp ⟦<NegTokenTarg1 as DerEncode>⟧ ⟦<Asn1SequenceOf<MechTypeList> as DerEncode>⟧ side.now (words tale.now) octets.now)
        (RefusesInitiatorStep ⟦<Asn1SequenceOf<MechTypeList> as DerEncode>⟧ side.now (words tale.now)) }
{
    let mechanisms = mechanisms_of(alloc, side, tale)?;
    match initiator_of(alloc, side, mechanisms, tale.list) {
        Ok(initiator) => told(alloc, initiator_asks(alloc, &initiator, octets)),
        Err(refusal) => Err(refusal),
    }
}

/// What octets ask of a side's mechanism.
fn taken(
    alloc: Global,
    side: &NegotiationRecord,
    tale: &Tale,
    octets: &[u8],
) -> Result<TakenUp, CallError>
    ensures { MatchResult result
        (IsTaken ⟦<ApplicationTag0<GssApiNegInit> as DerEncode>⟧ ⟦<MechTypeList as DerEncode>⟧ ⟦<NegTokenTarg1 as DerEncode>⟧
        ⟦<Asn1SequenceOf<MechTypeList> as DerEncode>⟧ side.now (words tale.now) octets.now)
        (RefusesStep ⟦<Asn1SequenceOf<MechTypeList> as DerEncode>⟧ side.now (words tale.now)) }
{
    match role_of(side.role)? {
        Role::Initiator => initiator_taken(alloc, side, tale, octets),
        Role::Acceptor => acceptor_taken(alloc, side, tale, octets),
    }
}

/// A question is handed over: its octets, and where all of them fit its numbers.
fn hand_over(taken: TakenUp, question: &mut QuestionRecord, out: &mut [u8], size: &mut usize) -> u32
    ensures put { IsPut taken.octets.items out.old out.new size.new result }
    ensures handed { IsToldOver taken question.old question.new result }
{
    let status = put(&taken.octets, out, size);
    if status != DONE {
        return status;
    }
    *question = taken.question;
    status
}

/// What octets of the peer's ask of a side's mechanism (RFC 4178, 3.2, 4.2 and 5): whether it takes
/// the token that came, or begins with none, and which MIC it verifies over which list; or the rule
/// that they break first. The side makes no step. Of the tale the names, the mechanisms and the
/// list are looked at, and that its number of what was made of a token means something.
///
/// 0: `question` says it, and the token, the MIC and the list stand in `out` one behind the other.
/// Or 1, where `out` has too little room; 3 where a number means nothing; 9, 10 or 11 where the
/// names of the mechanisms are no encoding, or of more or fewer of them; 2 where memory was
/// wanting: then `question` is as it was.
pub fn take(
    alloc: Global,
    side: &NegotiationRecord,
    tale: &Tale,
    octets: &[u8],
    question: &mut QuestionRecord,
    out: &mut [u8],
    size: &mut usize,
) -> u32
    ensures { Takes ⟦<ApplicationTag0<GssApiNegInit> as DerEncode>⟧ ⟦<MechTypeList as DerEncode>⟧ ⟦<NegTokenTarg1 as DerEncode>⟧
        ⟦<Asn1SequenceOf<MechTypeList> as DerEncode>⟧ side.now (words tale.now) octets.now (record { question = question.old; out = out.old })
        (record { question = question.new; out = out.new }) size.new result }
{
    match taken(alloc, side, tale, octets) {
        Ok(taken) => hand_over(taken, question, out, size),
        Err(refusal) => {
            *size = 0;
            refusal.status()
        }
    }
}

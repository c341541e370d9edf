//! What both sides do once a mechanism is chosen.

ghost use Rattle.std.specs.Prelude.{◌≡◌, ◌⊎◌, Err, not, IfOk};
ghost use Rattle.std.specs.Option.{option_copied};
ghost use Rattle.krb_spnego_rules.specs.Decisions.{continues, holds as is_held};
ghost use Rattle.krb_spnego_rules.specs.Mics.{IsSeen};
ghost use Rattle.krb_spnego_rules.specs.Steps.{Answers, Does, Finishes, GoesOn, IsHindered, Later, Signs, Takes, Waits, completed as completed_of, decides, waiting as waiting_of, waiting_state as state_of_waiting};
ghost use Rattle.krb_spnego_rules.specs.declared.message.Refusal.{Refusal as RefusalOf};
ghost use Rattle.krb_spnego_rules.specs.declared.message.Refusal.TheVariants as refusals;

use crate::checks::check_later;
use crate::decision::{acceptor_decision, initiator_decision};
use crate::mechanism::{Mechanism, MechanismError, Turn};
use crate::message::{Message, Refusal, octets, reply_of};
use crate::words::{Decision, Mic, NegState, Progress, Role, Rule, Terms};
use std::alloc::{AllocError, Global};

/// A side with a mechanism that waits for a message.
#[derive(Drop)]
pub struct Running<M> {
    /// The mechanism that both sides use.
    pub mechanism: M,
    /// The arcs of its object identifier, as the acceptor's supportedMech has it.
    pub name: Vec<u64>,
    /// Its context is established on this side.
    pub established: bool,
    /// What is agreed on.
    pub terms: Terms,
    /// The DER encoding of the initiator's list of mechanisms, as it was sent.
    pub list: Vec<u8>,
}

/// A side that is complete.
#[derive(Drop)]
pub struct Complete<M> {
    /// The mechanism that both sides use, with its context established.
    pub mechanism: M,
    /// The arcs of its object identifier, as the acceptor's supportedMech has it.
    pub name: Vec<u64>,
    /// What was agreed on.
    pub terms: Terms,
    /// A MIC of the peer was verified over the list.
    pub by_mic: bool,
    /// The DER encoding of the initiator's list of mechanisms, as it was sent.
    pub list: Vec<u8>,
}

/// A side after a message that it did not refuse.
#[derive(Drop)]
pub enum After<M> {
    /// It waits for a message.
    Running(Running<M>),
    /// It is complete.
    Complete(Complete<M>),
}

/// How the context stands after the token, and the token that it makes.
pub(crate) fn advance<M: Mechanism>(
    alloc: Global,
    mechanism: &mut M,
    established: bool,
    token: Option<&[u8]>,
) -> Result<Turn, Refusal>
    ensures taken { IfOk result (Takes M.meaning established mechanism.old (option_copied token.entry) mechanism.new) }
    ensures hindered { (e : RefusalOf) → result ≡ Err e → IsHindered M.meaning established mechanism.old (option_copied token.entry) e }
{
    if established {
        return Ok(Turn::Ends);
    }
    match mechanism.step(alloc, token) {
        Ok(turn) => Ok(turn),
        Err(MechanismError::OutOfMemory) => Err(Refusal::OutOfMemory),
        Err(MechanismError::Refused) => Err(Refusal::Broken(Rule::MechanismFailed)),
    }
}

/// mechListMIC, verified where there is a context for it.
fn seen<M: Mechanism>(
    alloc: Global,
    mechanism: &M,
    list: &[u8],
    progress: Progress,
    mic: Option<&[u8]>,
) -> Result<Mic, AllocError>
    ensures { IfOk result (IsSeen (M.meaning.holds mechanism.now list.now) (option_copied mic.entry) progress) }
{
    match mic {
        None => Ok(Mic::Absent),
        Some(mic) => match progress {
            Progress::Continues => Ok(Mic::Early),
            Progress::EndsWithToken => Ok(Mic::Early),
            Progress::Ends => {
                if mechanism.verify_mic(alloc, list, mic)? {
                    Ok(Mic::Holds)
                } else {
                    Ok(Mic::Wrong)
                }
            }
        },
    }
}

/// This side's MIC over the list, if it is to be sent.
fn signed<M: Mechanism>(
    alloc: Global,
    mechanism: &mut M,
    list: &[u8],
    wanted: bool,
) -> Result<Option<Vec<u8>>, AllocError>
    ensures { IfOk result (Signs M.meaning mechanism.old list.now wanted mechanism.new) }
{
    if wanted {
        let mic = mechanism.make_mic(alloc, list)?;
        Ok(Some(mic))
    } else {
        Ok(None)
    }
}

/// negState of a message of a side that waits: request-mic in the acceptor's first message, where
/// MICs have to be exchanged.
pub(crate) fn waiting_state(first: bool, required: bool) -> NegState
    ensures { result ≡ state_of_waiting first required }
{
    if first {
        if required {
            return NegState::RequestMic;
        }
    }
    NegState::AcceptIncomplete
}

/// What a side does.
fn decision_of(
    role: Role,
    terms: Terms,
    first: bool,
    progress: Progress,
    state: Option<NegState>,
    mic: Mic,
) -> Decision
    ensures { result ≡ decides role terms first progress state mic }
{
    match role {
        Role::Initiator => initiator_decision(terms, progress, state, mic),
        Role::Acceptor => acceptor_decision(terms, first, progress, state, mic),
    }
}

/// Whether the context is established.
pub(crate) fn is_established(progress: Progress) -> bool
    ensures { result ≡ not (continues progress) }
{
    match progress {
        Progress::Continues => false,
        Progress::EndsWithToken => true,
        Progress::Ends => true,
    }
}

fn held(mic: Mic) -> bool
    ensures { result ≡ is_held mic }
{
    match mic {
        Mic::Holds => true,
        Mic::Absent => false,
        Mic::Early => false,
        Mic::Wrong => false,
    }
}

/// A side that is complete.
fn completed<M: Mechanism>(running: Running<M>, mic: Mic) -> Complete<M>
    ensures { result ≡ completed_of running running.mechanism mic }
{
    Complete {
        mechanism: running.mechanism,
        name: running.name,
        terms: running.terms,
        by_mic: held(mic),
        list: running.list,
    }
}

/// A side that waits for a message, after it sent one with its MIC or without.
fn waiting<M: Mechanism>(running: Running<M>, progress: Progress, with_mic: bool) -> Running<M>
    ensures { result ≡ waiting_of running running.mechanism progress with_mic }
{
    Running {
        mechanism: running.mechanism,
        name: running.name,
        established: is_established(progress),
        terms: Terms {
            preferred: running.terms.preferred,
            required: running.terms.required,
            sent: running.terms.sent || with_mic,
        },
        list: running.list,
    }
}

/// The last message of a side that is complete, with its MIC or without.
fn finish<M: Mechanism>(
    alloc: Global,
    running: Running<M>,
    turn: Turn,
    mic: Mic,
    named: Option<Vec<u64>>,
    with_mic: bool,
) -> Result<(After<M>, Option<Message>), AllocError>
    ensures { IfOk result (Finishes M.meaning running turn mic named with_mic) }
{
    let Running {
        mechanism,
        name,
        established,
        terms,
        list,
    } = running;
    let mut context = mechanism;
    let own = signed(alloc, &mut context, &list, with_mic)?;
    let side = Running {
        mechanism: context,
        name,
        established,
        terms,
        list,
    };
    let answer = Message {
        state: Some(NegState::AcceptCompleted),
        mechanism: named,
        token: turn.token(),
        mic: own,
    };
    Ok((After::Complete(completed(side, mic)), Some(answer)))
}

/// A message of a side that waits for one, with its MIC or without.
fn wait<M: Mechanism>(
    alloc: Global,
    running: Running<M>,
    turn: Turn,
    named: Option<Vec<u64>>,
    with_mic: bool,
) -> Result<(After<M>, Option<Message>), AllocError>
    ensures { IfOk result (Waits M.meaning running turn named with_mic) }
{
    let Running {
        mechanism,
        name,
        established,
        terms,
        list,
    } = running;
    let mut context = mechanism;
    let own = signed(alloc, &mut context, &list, with_mic)?;
    let side = Running {
        mechanism: context,
        name,
        established,
        terms,
        list,
    };
    let progress = turn.progress();
    let answer = Message {
        state: Some(waiting_state(named.is_some(), side.terms.required)),
        mechanism: named,
        token: turn.token(),
        mic: own,
    };
    let after = waiting(side, progress, with_mic);
    Ok((After::Running(after), Some(answer)))
}

/// What a side does by its decision.
fn act<M: Mechanism>(
    alloc: Global,
    running: Running<M>,
    turn: Turn,
    mic: Mic,
    named: Option<Vec<u64>>,
    decision: Decision,
) -> Result<(After<M>, Option<Message>), Refusal>
    ensures { (result ≡ Err refusals.OutOfMemory) ⊎ Does M.meaning running turn mic named decision result }
{
    match decision {
        Decision::Refuse(rule) => Err(Refusal::Broken(rule)),
        Decision::Rest => Ok((After::Complete(completed(running, mic)), None)),
        Decision::Finish(with_mic) => {
            let sent = finish(alloc, running, turn, mic, named, with_mic)?;
            Ok(sent)
        }
        Decision::Wait(with_mic) => {
            let sent = wait(alloc, running, turn, named, with_mic)?;
            Ok(sent)
        }
    }
}

/// What a side does with a message once its mechanism took the token.
fn answer<M: Mechanism>(
    alloc: Global,
    role: Role,
    running: Running<M>,
    turn: Turn,
    named: Option<Vec<u64>>,
    state: Option<NegState>,
    mic: Option<&[u8]>,
) -> Result<(After<M>, Option<Message>), Refusal>
    ensures { (result ≡ Err refusals.OutOfMemory) ⊎ Answers M.meaning role running turn named state (option_copied mic.entry) result }
{
    let progress = turn.progress();
    let sight = seen(alloc, &running.mechanism, &running.list, progress, mic)?;
    let decision = decision_of(role, running.terms, named.is_some(), progress, state, sight);
    act(alloc, running, turn, sight, named, decision)
}

/// What a side does with a message that breaks no rule so far: `named` is the mechanism that its
/// answer names, in the acceptor's first one.
pub(crate) fn go_on<M: Mechanism>(
    alloc: Global,
    role: Role,
    running: Running<M>,
    named: Option<Vec<u64>>,
    state: Option<NegState>,
    token: Option<&[u8]>,
    mic: Option<&[u8]>,
) -> Result<(After<M>, Option<Message>), Refusal>
    ensures { GoesOn M.meaning role running named state (option_copied token.entry) (option_copied mic.entry) result }
{
    let Running {
        mechanism,
        name,
        established,
        terms,
        list,
    } = running;
    let mut context = mechanism;
    let turn = advance(alloc, &mut context, established, token)?;
    let side = Running {
        mechanism: context,
        name,
        established,
        terms,
        list,
    };
    answer(alloc, role, side, turn, named, state, mic)
}

/// A message after the first two.
pub(crate) fn later<M: Mechanism>(
    alloc: Global,
    role: Role,
    running: Running<M>,
    message: &Message,
) -> Result<(After<M>, Option<Message>), Refusal>
    ensures { Later M.meaning role running message.now result }
{
    check_later(reply_of(message), running.established)?;
    go_on(
        alloc,
        role,
        running,
        None,
        message.state,
        octets(&message.token),
        octets(&message.mic),
    )
}

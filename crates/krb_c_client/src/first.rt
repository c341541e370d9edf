//! A first ticket, step by step.

ghost use Rattle.std.specs.Prelude.{IfErr, IfOk};
ghost use Rattle.krb_client.specs.Initial.{IsNoAnswer, IsStep};
ghost use Rattle.krb_c_client.specs.Exchanges.{IsNoKeyIn};
ghost use Rattle.krb_c_client.specs.Followed.{TellsFirst};
ghost use Rattle.krb_c_client.specs.Initial.{FollowsFirst, GoesNotOn, GoesOn, IsAnswered, IsBeginning, IsInitialCall, IsNext, IsNoBeginning, IsNotAnswered, IsNotNext, IsRead, Opens, OpensNot, RefusesFirst};
ghost use Rattle.krb_c_client.specs.Inputs.{inputs_of};

use crate::asked::{Prepared, Question, is_absent, prepared_of, terms_of};
use crate::exchange::{key_in, offset_in, written};
use crate::granted::{Told, granted_told};
use crate::keys::client_keys;
use crate::records::{ExchangeRecord, FollowedRecord, sends, waits};
use crate::refusal::Refusal;
use crate::rules::{client_refusal, request_refusal};
use crate::tell::{Followed, tell};
use crate::turn::{is_first_turn, out_of_turn};
use krb_c_calls::CallError;
use krb_client::{
    Asked, ClientError, Encodings, InitialExchange, InitialStep, Moment, Rfc4120, Secret, Terms,
};
use krb_der::DerEncode;
use krb_messages::messages::EncTgsRepPart;
use krb_types::data_types::Ticket;
use std::alloc::{AllocError, Global};

/// By what the client proves who it is.
#[derive(Clone, Copy)]
pub struct Proof<'a> {
    /// Its password.
    pub password: &'a [u8],
    /// A keytab with its keys; where it has octets, no password is looked at.
    pub keytab: &'a [u8],
}

/// The beginning of an exchange.
fn begun(alloc: Global, terms: &Terms, asked: Asked, moment: &Moment) -> Result<Followed, Refusal>
    ensures begun { IfOk result (λ f. IsBeginning ⟦<Rfc4120 as Encodings>⟧.initial terms.now asked moment.now f) }
    ensures refused { IfErr result (IsNoBeginning terms.now asked moment.now) }
{
    match InitialExchange::begin(alloc, terms, asked, moment) {
        Ok((exchange, octets)) => {
            let kept = written(&exchange.offset, exchange.asked.nonce, &exchange.key);
            drop(exchange);
            Ok(Followed {
                exchange: kept,
                told: Told {
                    record: sends(),
                    octets,
                },
            })
        }
        Err(error) => Err(request_refusal(error)),
    }
}

/// The exchange that the caller kept. `Number` where the encryption type of its key has no suite.
pub(crate) fn exchange_of(
    alloc: Global,
    kept: &ExchangeRecord,
    asked: Asked,
) -> Result<InitialExchange, CallError>
    ensures read { IfOk result (IsRead kept.now asked) }
    ensures refused { IfErr result (IsNoKeyIn kept.now) }
{
    match key_in(alloc, kept) {
        Ok(key) => Ok(InitialExchange {
            asked,
            offset: offset_in(kept),
            key,
        }),
        Err(error) => {
            drop(asked);
            Err(error)
        }
    }
}

/// What is told of a step.
fn told(alloc: Global, step: InitialStep) -> Result<Told, AllocError>
    ensures { IfOk result (λ t. TellsFirst ⟦<Ticket as DerEncode>⟧ ⟦<EncTgsRepPart as DerEncode>⟧ step t.record t.octets.items) }
{
    match step {
        InitialStep::Send(octets) => Ok(Told {
            record: sends(),
            octets,
        }),
        InitialStep::Granted(granted) => granted_told(alloc, granted),
        InitialStep::Wait => Ok(Told {
            record: waits(),
            octets: Vec::new(alloc),
        }),
    }
}

/// The step of an exchange on a message, and the exchange after it.
fn stepped(
    alloc: Global,
    terms: &Terms,
    exchange: InitialExchange,
    secret: &Secret,
    moment: &Moment,
    message: &[u8],
) -> Result<(InitialExchange, InitialStep), ClientError>
    ensures step { IfOk result (λ r. IsStep ⟦<Rfc4120 as Encodings>⟧.initial terms.now exchange secret.now moment.now
        message.now r.1 r.0) }
    ensures refused { IfErr result (IsNoAnswer ⟦<Rfc4120 as Encodings>⟧.initial terms.now exchange secret.now moment.now
        message.now) }
{
    let mut exchange = exchange;
    match exchange.step(alloc, terms, secret, moment, message) {
        Ok(step) => Ok((exchange, step)),
        Err(error) => {
            drop(exchange);
            Err(error)
        }
    }
}

/// What follows on a message.
fn next(
    alloc: Global,
    terms: &Terms,
    exchange: InitialExchange,
    secret: &Secret,
    moment: &Moment,
    message: &[u8],
) -> Result<Followed, Refusal>
    ensures next { IfOk result (IsNext ⟦<Rfc4120 as Encodings>⟧.initial ⟦<Ticket as DerEncode>⟧ ⟦<EncTgsRepPart as DerEncode>⟧
        terms.now exchange secret.now moment.now message.now) }
    ensures refused { IfErr result (IsNotNext ⟦<Rfc4120 as Encodings>⟧.initial terms.now exchange secret.now moment.now
        message.now) }
{
    match stepped(alloc, terms, exchange, secret, moment, message) {
        Ok((exchange, step)) => {
            let kept = written(&exchange.offset, exchange.asked.nonce, &exchange.key);
            drop(exchange);
            let told = told(alloc, step)?;
            Ok(Followed {
                exchange: kept,
                told,
            })
        }
        Err(error) => Err(client_refusal(&error)),
    }
}

/// What follows on a message, by what the client proves who it is. `Keytab` where its keytab is
/// none.
fn answered(
    alloc: Global,
    question: &Question,
    proof: &Proof,
    moment: &Moment,
    exchange: InitialExchange,
) -> Result<Followed, Refusal>
    ensures answered { IfOk result (IsAnswered ⟦<Rfc4120 as Encodings>⟧.initial ⟦<Ticket as DerEncode>⟧ ⟦<EncTgsRepPart as DerEncode>⟧
        (inputs_of question.now) proof.now.password.now proof.now.keytab.now exchange moment.now) }
    ensures refused { IfErr result (IsNotAnswered ⟦<Rfc4120 as Encodings>⟧.initial
        (inputs_of question.now) proof.now.password.now proof.now.keytab.now exchange moment.now) }
{
    let terms = terms_of(question);
    if is_absent(proof.keytab) {
        let secret = Secret::Password(proof.password);
        return next(alloc, &terms, exchange, &secret, moment, question.message);
    }
    let keys = client_keys(alloc, proof.keytab, &exchange.asked)?;
    let secret = Secret::Keys(keys.as_slice());
    next(alloc, &terms, exchange, &secret, moment, question.message)
}

/// What follows on a message, of an exchange that the caller kept.
fn continued(
    alloc: Global,
    question: &Question,
    proof: &Proof,
    kept: &ExchangeRecord,
    prepared: Prepared,
) -> Result<Followed, Refusal>
    ensures goes_on { IfOk result (GoesOn ⟦<Rfc4120 as Encodings>⟧.initial ⟦<Ticket as DerEncode>⟧ ⟦<EncTgsRepPart as DerEncode>⟧
        (inputs_of question.now) proof.now.password.now proof.now.keytab.now kept.now prepared.asked prepared.moment) }
    ensures refused { IfErr result (GoesNotOn ⟦<Rfc4120 as Encodings>⟧.initial
        (inputs_of question.now) proof.now.password.now proof.now.keytab.now kept.now prepared.asked prepared.moment) }
{
    let Prepared { asked, moment } = prepared;
    let exchange = exchange_of(alloc, kept, asked)?;
    answered(alloc, question, proof, &moment, exchange)
}

/// The beginning of an exchange, as it is asked.
fn opened(alloc: Global, question: &Question, prepared: Prepared) -> Result<Followed, Refusal>
    ensures opens { IfOk result (Opens ⟦<Rfc4120 as Encodings>⟧.initial (inputs_of question.now) prepared.asked prepared.moment) }
    ensures refused { IfErr result (OpensNot (inputs_of question.now) prepared.asked prepared.moment) }
{
    let Prepared { asked, moment } = prepared;
    let terms = terms_of(question);
    begun(alloc, &terms, asked, &moment)
}

/// What becomes of a call.
fn decided(
    alloc: Global,
    question: &Question,
    proof: &Proof,
    kept: &ExchangeRecord,
) -> Result<Followed, Refusal>
    ensures follows { IfOk result (FollowsFirst ⟦<Rfc4120 as Encodings>⟧.initial ⟦<Ticket as DerEncode>⟧ ⟦<EncTgsRepPart as DerEncode>⟧
        (inputs_of question.now) proof.now.password.now proof.now.keytab.now kept.now) }
    ensures refused { IfErr result (RefusesFirst ⟦<Rfc4120 as Encodings>⟧.initial
        (inputs_of question.now) proof.now.password.now proof.now.keytab.now kept.now) }
{
    if !is_first_turn(kept, question.message) {
        return Err(out_of_turn());
    }
    let prepared = prepared_of(alloc, question, kept.nonce)?;
    if is_absent(question.message) {
        opened(alloc, question, prepared)
    } else {
        continued(alloc, question, proof, kept, prepared)
    }
}

/// A first ticket, step by step (RFC 4120, 3.1): what follows on the message. No octets begin an
/// exchange, and only one that is all zeros; octets are for one that has begun. Else rule 1,
/// `OtherMessage`, is broken, before all else.
///
/// 0 where something follows: `followed` tells what, its octets are handed out, and `exchange` is as
/// it is to be passed in the next time; 1 where the octets are more than `out` has. Else, of a call in
/// its turn, the first of these: 13 where there are not 16 random octets; 9 where the client is no
/// principal with a realm, then where the server is none; 3 where an encryption type has no suite; of
/// a message 3 where that of the key that was kept has none, and 23 where the keytab is none; 42 where
/// a rule is broken: `followed` tells which. Or 2 where an allocation failed. But for 0 `exchange` is
/// as it was, and but for 0 and 42 `followed` is all zeros.
pub fn initial(
    alloc: Global,
    question: &Question,
    proof: &Proof,
    exchange: &mut ExchangeRecord,
    followed: &mut FollowedRecord,
    out: &mut [u8],
    size: &mut usize,
) -> u32
    ensures { IsInitialCall ⟦<Rfc4120 as Encodings>⟧.initial ⟦<Ticket as DerEncode>⟧ ⟦<EncTgsRepPart as DerEncode>⟧
        (inputs_of question.now) proof.now.password.now proof.now.keytab.now exchange.old exchange.new followed.new
        out.old out.new size.new result }
{
    let outcome = decided(alloc, question, proof, exchange);
    tell(&outcome, exchange, followed, out, size)
}

//! A further ticket, step by step.

ghost use Rattle.std.specs.Prelude.{◌≡◌, IfErr, IfOk};
ghost use Rattle.krb_client.specs.Service.{IsNoServiceAnswer, IsServiceStep};
ghost use Rattle.krb_client.specs.Errors.{IsMemoryOr};
ghost use Rattle.krb_c_client.specs.Followed.{TellsFurther};
ghost use Rattle.krb_c_client.specs.Inputs.{inputs_of};
ghost use Rattle.krb_c_client.specs.Means.{AreMeans, AreNoMeans, IsByOf, IsNoTicket, means_of};
ghost use Rattle.krb_c_client.specs.Service.{FollowsFurther, GoesNotOn, GoesOn, IsBeginning, IsNext, IsNoBeginning, IsNotNext, IsTicketCall, Opens, OpensNot, RefusesFurther};
ghost use Rattle.krb_der.specs.Whole.{Encodes};

use crate::asked::{Prepared, Question, is_absent, prepared_of, terms_of};
use crate::exchange::{offset_in, written};
use crate::granted::{Told, granted_told};
use crate::records::{ExchangeRecord, FollowedRecord, sends, waits};
use crate::refusal::Refusal;
use crate::rules::{client_refusal, request_refusal};
use crate::tell::{Followed, tell};
use crate::turn::{is_further_turn, out_of_turn};
use krb_c_calls::CallError;
use krb_c_calls::suites::cipher_suite_of;
use krb_client::{
    Asked, ByTicket, ClientError, Encodings, Key, LentKey, Moment, Rfc4120, ServiceExchange,
    ServiceStep, Terms,
};
use krb_crypto::CipherSuite;
use krb_der::{DerEncode, from_bytes};
use krb_messages::messages::EncTgsRepPart;
use krb_types::data_types::Ticket;
use std::alloc::{AllocError, Global};

/// By what a further ticket is asked for.
#[derive(Clone, Copy)]
pub struct ByRecord<'a> {
    /// The encoding of the ticket for the KDC.
    pub ticket: &'a [u8],
    /// The encryption type of its session key, and of the subkey.
    pub session_etype: i32,
    /// The octets of the session key.
    pub session_key: &'a [u8],
    /// Those of the subkey, the same in each call of an exchange.
    pub subkey: &'a [u8],
}

/// By what a further ticket is asked for, as the engine takes it.
#[derive(Drop)]
struct Means {
    /// The ticket for the KDC.
    ticket: Ticket,
    /// The suite of its session key.
    suite: CipherSuite,
    /// The subkey.
    subkey: Key,
}

/// The ticket whose one encoding the octets are. `Invalid`, `Truncated` or `Unsupported` where they
/// are of none.
pub(crate) fn ticket_of(alloc: Global, octets: &[u8]) -> Result<Ticket, CallError>
    ensures found { IfOk result (Encodes ⟦<Ticket as DerEncode>⟧ octets.now) }
    ensures refused { IfErr result (IsNoTicket ⟦<Ticket as DerEncode>⟧ octets.now) }
{
    match from_bytes::<Ticket>(alloc, octets) {
        Ok(ticket) => Ok(ticket),
        Err(error) => Err(CallError::from(error)),
    }
}

/// By what a further ticket is asked for. Else the error of `ticket_of`; else `Number` where the
/// encryption type has no suite.
fn means_of(alloc: Global, by: &ByRecord) -> Result<Means, CallError>
    ensures made { IfOk result (λ m. AreMeans ⟦<Ticket as DerEncode>⟧ (means_of by.now) m.ticket m.suite m.subkey) }
    ensures refused { IfErr result (AreNoMeans ⟦<Ticket as DerEncode>⟧ (means_of by.now)) }
{
    let ticket = ticket_of(alloc, by.ticket)?;
    let suite = cipher_suite_of(by.session_etype)?;
    let of_subkey = cipher_suite_of(by.session_etype)?;
    let octets = Vec::from_slice(alloc, by.subkey)?;
    Ok(Means {
        ticket,
        suite,
        subkey: Key {
            suite: of_subkey,
            octets,
        },
    })
}

/// The ticket and its session key, lent.
fn by_of<'a>(ticket: &'a Ticket, suite: &'a CipherSuite, octets: &'a [u8]) -> ByTicket<'a>
    ensures { IsByOf ticket.now suite.now octets.now result }
{
    ByTicket {
        ticket,
        session: LentKey { suite, octets },
    }
}

/// The beginning of an exchange.
fn begun(
    alloc: Global,
    terms: &Terms,
    by: &ByTicket,
    asked: Asked,
    subkey: Key,
    offset: Option<i64>,
    moment: &Moment,
) -> Result<Followed, Refusal>
    ensures begun { IfOk result (IsBeginning ⟦<Rfc4120 as Encodings>⟧.service terms.now by.now asked subkey offset moment.now) }
    ensures refused { IfErr result (IsNoBeginning terms.now by.now asked subkey offset moment.now) }
{
    match ServiceExchange::begin(alloc, terms, by, asked, subkey, offset, moment) {
        Ok((exchange, octets)) => {
            let kept = written(&exchange.offset, exchange.asked.nonce, &None);
            drop(exchange);
            Ok(Followed {
                exchange: kept,
                told: Told {
                    record: sends(),
                    octets,
                },
            })
        }
        Err(error) => Err(request_refusal(error)),
    }
}

/// What is told of a step.
fn told(alloc: Global, step: ServiceStep) -> Result<Told, AllocError>
    ensures { IfOk result (λ t. TellsFurther ⟦<Ticket as DerEncode>⟧ ⟦<EncTgsRepPart as DerEncode>⟧ step t.record t.octets.items) }
{
    match step {
        ServiceStep::Send(octets) => Ok(Told {
            record: sends(),
            octets,
        }),
        ServiceStep::Granted(granted) => granted_told(alloc, granted),
        ServiceStep::Wait => Ok(Told {
            record: waits(),
            octets: Vec::new(alloc),
        }),
    }
}

/// The step of an exchange on a message, and the exchange after it.
fn stepped(
    alloc: Global,
    terms: &Terms,
    by: &ByTicket,
    exchange: ServiceExchange,
    moment: &Moment,
    message: &[u8],
) -> Result<(ServiceExchange, ServiceStep), ClientError>
    ensures step { IfOk result (λ r. IsServiceStep ⟦<Rfc4120 as Encodings>⟧.service terms.now by.now exchange moment.now
        message.now r.1 r.0) }
    ensures refused { IfErr result (IsNoServiceAnswer ⟦<Rfc4120 as Encodings>⟧.service terms.now by.now exchange moment.now
        message.now) }
{
    let mut exchange = exchange;
    match exchange.step(alloc, terms, by, moment, message) {
        Ok(step) => Ok((exchange, step)),
        Err(error) => {
            drop(exchange);
            Err(error)
        }
    }
}

/// What follows on a message.
fn next(
    alloc: Global,
    terms: &Terms,
    by: &ByTicket,
    exchange: ServiceExchange,
    moment: &Moment,
    message: &[u8],
) -> Result<Followed, Refusal>
    ensures next { IfOk result (IsNext ⟦<Rfc4120 as Encodings>⟧.service ⟦<Ticket as DerEncode>⟧ ⟦<EncTgsRepPart as DerEncode>⟧
        terms.now by.now exchange moment.now message.now) }
    ensures refused { IfErr result (IsNotNext ⟦<Rfc4120 as Encodings>⟧.service terms.now by.now exchange moment.now
        message.now) }
{
    match stepped(alloc, terms, by, exchange, moment, message) {
        Ok((exchange, step)) => {
            let kept = written(&exchange.offset, exchange.asked.nonce, &None);
            drop(exchange);
            let told = told(alloc, step)?;
            Ok(Followed {
                exchange: kept,
                told,
            })
        }
        Err(error) => Err(client_refusal(&error)),
    }
}

/// The beginning of an exchange, as it is asked.
fn opened(
    alloc: Global,
    question: &Question,
    by: &ByTicket,
    subkey: Key,
    kept: &ExchangeRecord,
    prepared: Prepared,
) -> Result<Followed, Refusal>
    ensures opens { IfOk result (Opens ⟦<Rfc4120 as Encodings>⟧.service (inputs_of question.now) by.now subkey kept.now
        prepared.asked prepared.moment) }
    ensures refused { IfErr result (OpensNot (inputs_of question.now) by.now subkey kept.now prepared.asked prepared.moment) }
{
    let Prepared { asked, moment } = prepared;
    let terms = terms_of(question);
    let offset = offset_in(kept);
    begun(alloc, &terms, by, asked, subkey, offset, &moment)
}

/// What follows on a message, of an exchange that the caller kept.
fn continued(
    alloc: Global,
    question: &Question,
    by: &ByTicket,
    subkey: Key,
    kept: &ExchangeRecord,
    prepared: Prepared,
) -> Result<Followed, Refusal>
    ensures goes_on { IfOk result (GoesOn ⟦<Rfc4120 as Encodings>⟧.service ⟦<Ticket as DerEncode>⟧ ⟦<EncTgsRepPart as DerEncode>⟧
        (inputs_of question.now) by.now subkey kept.now prepared.asked prepared.moment) }
    ensures refused { IfErr result (GoesNotOn ⟦<Rfc4120 as Encodings>⟧.service
        (inputs_of question.now) by.now subkey kept.now prepared.asked prepared.moment) }
{
    let Prepared { asked, moment } = prepared;
    let terms = terms_of(question);
    let exchange = ServiceExchange {
        asked,
        offset: offset_in(kept),
        subkey,
    };
    next(alloc, &terms, by, exchange, &moment, question.message)
}

/// What becomes of a call.
fn decided(
    alloc: Global,
    question: &Question,
    by: &ByRecord,
    kept: &ExchangeRecord,
) -> Result<Followed, Refusal>
    ensures follows { IfOk result (FollowsFurther ⟦<Rfc4120 as Encodings>⟧.service ⟦<Ticket as DerEncode>⟧ ⟦<EncTgsRepPart as DerEncode>⟧
        (inputs_of question.now) (means_of by.now) kept.now) }
    ensures refused { IfErr result (RefusesFurther ⟦<Rfc4120 as Encodings>⟧.service ⟦<Ticket as DerEncode>⟧
        (inputs_of question.now) (means_of by.now) kept.now) }
{
    if !is_further_turn(kept, question.message) {
        return Err(out_of_turn());
    }
    let prepared = prepared_of(alloc, question, kept.nonce)?;
    let means = means_of(alloc, by)?;
    let Means {
        ticket,
        suite,
        subkey,
    } = means;
    let lent = by_of(&ticket, &suite, by.session_key);
    if is_absent(question.message) {
        opened(alloc, question, &lent, subkey, kept, prepared)
    } else {
        continued(alloc, question, &lent, subkey, kept, prepared)
    }
}

/// A further ticket, step by step (RFC 4120, 3.3): what follows on the message.
///
/// As `initial` in all else, but that an exchange may begin with what the KDC's time is ahead, as
/// one before it took it; and that there is neither a key that was kept nor a keytab: after what is
/// asked, and before a rule, it is 9, 10 or 11 where the ticket is no encoding of one, and then 3
/// where the encryption type of the session key has no suite.
pub fn ticket(
    alloc: Global,
    question: &Question,
    by: &ByRecord,
    exchange: &mut ExchangeRecord,
    followed: &mut FollowedRecord,
    out: &mut [u8],
    size: &mut usize,
) -> u32
    ensures { IsTicketCall ⟦<Rfc4120 as Encodings>⟧.service ⟦<Ticket as DerEncode>⟧ ⟦<EncTgsRepPart as DerEncode>⟧
        (inputs_of question.now) (means_of by.now) exchange.old exchange.new followed.new out.old out.new size.new result }
{
    let outcome = decided(alloc, question, by, exchange);
    tell(&outcome, exchange, followed, out, size)
}

//! A reply that renames the client or the server.

ghost use Rattle.std.specs.Prelude.{IfErr, IfOk};
ghost use Rattle.krb_c_client.specs.Inputs.{inputs_of};
ghost use Rattle.krb_c_client.specs.Renamed.{IsRenamedCall, IsRenamedTold, IsTaken, RefusesRenamed, TakesNot};

use crate::asked::{Prepared, Question, prepared_of, terms_of};
use crate::first::exchange_of;
use crate::granted::{Told, granted_told};
use crate::records::{ExchangeRecord, FollowedRecord};
use crate::refusal::Refusal;
use crate::rules::rename_refusal;
use crate::tell::tell_granted;
use krb_client::{Encodings, InitialExchange, Moment, Rfc4120, Terms};
use krb_der::DerEncode;
use krb_messages::messages::EncTgsRepPart;
use krb_types::data_types::{Checksum, Ticket};
use std::alloc::Global;

/// What a reply grants that renames.
fn taken(
    alloc: Global,
    terms: &Terms,
    exchange: &InitialExchange,
    moment: &Moment,
    request: &[u8],
    message: &[u8],
) -> Result<Told, Refusal>
    ensures taken { IfOk result (λ t. IsTaken ⟦<Rfc4120 as Encodings>⟧.initial ⟦<Checksum as DerEncode>⟧ ⟦<Ticket as DerEncode>⟧
        ⟦<EncTgsRepPart as DerEncode>⟧ terms.now exchange.now moment.now request.now message.now t) }
    ensures refused { IfErr result (TakesNot ⟦<Rfc4120 as Encodings>⟧.initial ⟦<Checksum as DerEncode>⟧
        terms.now exchange.now moment.now request.now message.now) }
{
    match exchange.renamed(alloc, terms, moment, request, message) {
        Ok(granted) => Ok(granted_told(alloc, granted)?),
        Err(error) => Err(rename_refusal(&error)),
    }
}

/// What becomes of a call.
fn decided(
    alloc: Global,
    question: &Question,
    request: &[u8],
    kept: &ExchangeRecord,
) -> Result<Told, Refusal>
    ensures told { IfOk result (IsRenamedTold ⟦<Rfc4120 as Encodings>⟧.initial ⟦<Checksum as DerEncode>⟧ ⟦<Ticket as DerEncode>⟧
        ⟦<EncTgsRepPart as DerEncode>⟧ (inputs_of question.now) request.now kept.now) }
    ensures refused { IfErr result (RefusesRenamed ⟦<Rfc4120 as Encodings>⟧.initial ⟦<Checksum as DerEncode>⟧
        (inputs_of question.now) request.now kept.now) }
{
    let prepared = prepared_of(alloc, question, kept.nonce)?;
    let Prepared { asked, moment } = prepared;
    let exchange = exchange_of(alloc, kept, asked)?;
    let terms = terms_of(question);
    taken(alloc, &terms, &exchange, &moment, request, question.message)
}

/// What a reply grants that renames the client or the server (RFC 6806, 6 and 11): client and
/// server of the question are those of the reply, `request` the last request of the exchange.
///
/// 0 where it grants a ticket: `followed` tells of it, and its octets are handed out; 1 where they
/// are more than `out` has. 42 where a rule is broken: `followed` tells which. Else as `initial`. The
/// exchange is as it was in each case.
pub fn renamed(
    alloc: Global,
    question: &Question,
    request: &[u8],
    exchange: &ExchangeRecord,
    followed: &mut FollowedRecord,
    out: &mut [u8],
    size: &mut usize,
) -> u32
    ensures { IsRenamedCall ⟦<Rfc4120 as Encodings>⟧.initial ⟦<Checksum as DerEncode>⟧ ⟦<Ticket as DerEncode>⟧ ⟦<EncTgsRepPart as DerEncode>⟧
        (inputs_of question.now) request.now exchange.now followed.new out.old out.new size.new result }
{
    let outcome = decided(alloc, question, request, exchange);
    tell_granted(&outcome, followed, out, size)
}

//! The call.

ghost use Rattle.std.specs.Prelude.{◌≡◌, length};
ghost use Rattle.krb_accept.specs.Kerberos.{HasLength};
ghost use Rattle.krb_c_accept.specs.Calls.{IsAnswered, IsCall, IsDecision, IsOutcome, Tells, let_in_status, refused};
ghost use Rattle.krb_c_accept.specs.Inputs.{inputs_of};

use crate::answer::{Answer, answer_of};
use crate::decision::{LetIn, judged};
use crate::prepared::{Asked, Prepared, prepared_of};
use crate::records::{AcceptedRecord, NOTHING};
use crate::rules::refused_record;
use krb_accept::{Kerberos, TokenRefusal};
use krb_accept_rules::Opening;
use krb_c_calls::handing::put;
use krb_c_calls::{CallError, DONE};
use krb_der::DerEncode;
use krb_enc_parts::data_types::{EncApRepPart, EncKrbCredPart};
use krb_messages::messages::{ApRep, KrbCred};
use krb_types::data_types::AuthorizationData;
use std::alloc::Global;

/// The status of a client that is let in unless the caller's replay cache has its entry.
pub const UNLESS_REPEATED: u32 = 43;

/// What becomes of a call.
#[derive(Drop)]
enum Outcome {
    /// The client is let in.
    LetIn(Answer),
    /// It is refused by a rule.
    Refused(TokenRefusal),
    /// Nothing is decided.
    Failed(CallError),
}

/// What becomes of a token that is refused.
fn refused(refusal: TokenRefusal) -> Outcome
    ensures { result ≡ refused refusal }
{
    if refusal.is_out_of_memory() {
        Outcome::Failed(CallError::Memory)
    } else {
        Outcome::Refused(refusal)
    }
}

/// What becomes of a client that is let in.
fn answered(alloc: Global, asked: &Asked, let_in: &LetIn) -> Outcome
    requires random { length asked.now.random.now ≡ 48 }
    requires key { HasLength let_in.now.context.accepted.ticket.key }
    ensures { IsAnswered ⟦<EncApRepPart as DerEncode>⟧ ⟦<ApRep as DerEncode>⟧ ⟦<AuthorizationData as DerEncode>⟧ (inputs_of asked.now) let_in.now result }
{
    match answer_of(alloc, &asked.acceptor, asked.random, asked.token, let_in) {
        Ok(answer) => Outcome::LetIn(answer),
        Err(error) => Outcome::Failed(error),
    }
}

/// What becomes of a token.
fn outcome_of(alloc: Global, asked: &Asked, prepared: &Prepared) -> Outcome
    requires { length asked.now.random.now ≡ 48 }
    ensures { IsOutcome ⟦<KrbCred as DerEncode>⟧ ⟦<EncKrbCredPart as DerEncode>⟧ ⟦<AuthorizationData as DerEncode>⟧ ⟦<Kerberos as Opening>⟧
        ⟦<EncApRepPart as DerEncode>⟧ ⟦<ApRep as DerEncode>⟧ (inputs_of asked.now) prepared.now result }
{
    match judged(alloc, prepared, asked.token) {
        Ok(let_in) => {
            let outcome = answered(alloc, asked, &let_in);
            drop(let_in);
            outcome
        }
        Err(refusal) => refused(refusal),
    }
}

/// What becomes of a call.
fn decided(alloc: Global, asked: &Asked) -> Outcome
    ensures { IsDecision ⟦<KrbCred as DerEncode>⟧ ⟦<EncKrbCredPart as DerEncode>⟧ ⟦<AuthorizationData as DerEncode>⟧ ⟦<Kerberos as Opening>⟧
        ⟦<EncApRepPart as DerEncode>⟧ ⟦<ApRep as DerEncode>⟧ (inputs_of asked.now) result }
{
    match prepared_of(alloc, asked) {
        Ok(prepared) => outcome_of(alloc, asked, &prepared),
        Err(error) => Outcome::Failed(error),
    }
}

/// The status of a client that is let in, by that of its octets.
fn let_in_status(status: u32) -> u32
    ensures { result ≡ let_in_status status }
{
    if status == DONE {
        UNLESS_REPEATED
    } else {
        status
    }
}

/// Tells what became of a call.
fn tell(outcome: &Outcome, accepted: &mut AcceptedRecord, out: &mut [u8], size: &mut usize) -> u32
    ensures { Tells outcome.now accepted.new out.old out.new size.new result }
{
    match outcome {
        Outcome::LetIn(answer) => {
            let status = put(&answer.octets, out, size);
            *accepted = if status == DONE {
                answer.record
            } else {
                NOTHING
            };
            let_in_status(status)
        }
        Outcome::Refused(refusal) => {
            *accepted = refused_record(refusal);
            *size = 0;
            CallError::NotAccepted.status()
        }
        Outcome::Failed(error) => {
            *accepted = NOTHING;
            *size = 0;
            error.status()
        }
    }
}

/// Whether a service lets in the client that sent a token (RFC 4120, 3.2.3; RFC 4121, 4.1), by all rules but one: that its replay cache has the entry, the caller sees
/// to.
///
/// 43 where it does, and not 0, since the replay cache was not asked yet: `accepted` tells of the client, and its octets are handed out; 1 where they are more than `out` has, and then `accepted` is all zeros. 41 where a
/// rule refuses the token: `accepted` tells which. Before the token is looked at, the first of these: 13 where there are not 48 random octets; 13 where the hash of the
/// bindings has neither 0 nor 16 octets; 3 where the options are not such (`AreOptions`); 23 where the keytab is none, then where that of the session keys is; 9 where the
/// name of the server is none, then where the realm is. 2 where an allocation failed. But for 43 and 41 `accepted` is all zeros.
pub fn accept(
    alloc: Global,
    asked: &Asked,
    accepted: &mut AcceptedRecord,
    out: &mut [u8],
    size: &mut usize,
) -> u32
    ensures { IsCall ⟦<KrbCred as DerEncode>⟧ ⟦<EncKrbCredPart as DerEncode>⟧ ⟦<AuthorizationData as DerEncode>⟧ ⟦<Kerberos as Opening>⟧
        ⟦<EncApRepPart as DerEncode>⟧ ⟦<ApRep as DerEncode>⟧ (inputs_of asked.now) accepted.new out.old out.new size.new result }
{
    let outcome = decided(alloc, asked);
    tell(&outcome, accepted, out, size)
}

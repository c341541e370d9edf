//! The rules of a ticket and its session key before the authenticator is opened (RFC 4120, 3.2.3).

ghost use Rattle.std.specs.Prelude.{◌≡◌, IfErr, OnOk, MatchBool};
ghost use Rattle.krb_accept_rules.specs.FirstFault.{Keeps, RefusesFirst};
ghost use Rattle.krb_accept_rules.specs.SessionRules.{IsSessionKey, SessionRule, ShowsNothing, session_order};

use crate::authenticator::is_permitted;
use crate::fields::{RequestFields, TicketFields};
use crate::flags::has_flags;
use crate::numbers::is_same_integer;
use crate::opening::Opening;
use crate::refusal::{Refusal, Rule};
use crate::terms::Terms;
use krb_types::data_types::EncryptionKey;

/// Whether a session key is of an encryption type that is supported and permitted, and the
/// authenticator names it.
fn is_session_key<O: Opening>(terms: &Terms, request: &RequestFields, key: &EncryptionKey) -> bool
    ensures { MatchBool result (IsSessionKey ⟦<O as Opening>⟧ terms.now request.now key.now)
        (IsSessionKey ⟦<O as Opening>⟧ terms.now request.now key.now → ⊥) }
{
    is_permitted::<O>(terms, &key.key_type.0)
        && is_same_integer(&request.authenticator.etype.0, &key.key_type.0)
}

/// Whether a ticket keeps the rules that come before the authenticator is opened, `Flags` and
/// `SessionSuite`; else the refusal by the first of these that is broken.
///
/// Nothing is allocated, so this is the answer always: there is no `OutOfMemory`.
pub fn check_session<O: Opening>(
    terms: &Terms,
    request: &RequestFields,
    ticket: &TicketFields,
) -> Result<(), Refusal>
    ensures kept { OnOk result (Keeps (SessionRule ⟦<O as Opening>⟧ terms.now request.now ticket.now) session_order) }
    ensures broken { IfErr result (RefusesFirst (SessionRule ⟦<O as Opening>⟧ terms.now request.now ticket.now) ShowsNothing session_order) }
{
    if !has_flags(&ticket.flags) {
        return Err(Refusal::plain(Rule::Flags));
    }
    if !is_session_key::<O>(terms, request, &ticket.key) {
        return Err(Refusal::plain(Rule::SessionSuite));
    }
    Ok(())
}

//! The rules of a ticket's time (RFC 4120, 3.2.3).

ghost use Rattle.std.specs.Prelude.{◌≡◌, IfErr, OnOk};
ghost use Rattle.krb_accept_rules.specs.AuthenticatorRules.{AuthenticatorRule, ShowsTime, time_order};
ghost use Rattle.krb_accept_rules.specs.FirstFault.{Keeps, RefusesFirst};
ghost use Rattle.krb_accept_rules.specs.TicketTimes.{start_of};

use crate::fields::{AuthenticatorFields, TicketFields};
use crate::opening::Opening;
use crate::refusal::{Refusal, Rule};
use crate::seconds::is_no_later;
use crate::terms::{Arrival, Terms};
use krb_types::view::{is_set, unix_seconds};

/// The number of INVALID among the flags of a ticket (RFC 4120, 5.3).
const INVALID: usize = 7;

/// From when on the ticket is valid, in seconds.
fn start_of(ticket: &TicketFields) -> i64
    ensures { result ≡ start_of ticket.now }
{
    match &ticket.start_time {
        Some(time) => unix_seconds(time),
        None => unix_seconds(&ticket.auth_time),
    }
}

/// Whether the ticket is valid at this time; else the first rule that it breaks.
pub(crate) fn check_times<O: Opening>(
    terms: &Terms,
    arrival: &Arrival,
    ticket: &TicketFields,
    authenticator: &AuthenticatorFields,
) -> Result<(), Refusal>
    ensures kept { OnOk result (Keeps (AuthenticatorRule ⟦<O as Opening>⟧ terms.now arrival.now ticket.now authenticator.now) time_order) }
    ensures broken { IfErr result (RefusesFirst (AuthenticatorRule ⟦<O as Opening>⟧ terms.now arrival.now ticket.now authenticator.now)
        (ShowsTime ticket.now authenticator.now) time_order) }
{
    let start = start_of(ticket);
    if !is_no_later(start, arrival.clock, terms.skew) {
        return Err(Refusal {
            rule: Rule::NotYetValid,
            seen: Some(start),
        });
    }
    if is_set(&ticket.flags, INVALID) {
        return Err(Refusal::plain(Rule::Invalid));
    }
    let end = unix_seconds(&ticket.end_time);
    if !is_no_later(arrival.clock, end, terms.skew) {
        return Err(Refusal {
            rule: Rule::Expired,
            seen: Some(end),
        });
    }
    Ok(())
}

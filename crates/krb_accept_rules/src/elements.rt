//! The rules of a client's name and realm, of a ticket's path and of authorization data (RFC 8062; RFC 4120, 2.7 and 5.2.6).

ghost use Rattle.std.specs.Prelude.{◌≡◌, IfErr, IfOk, OnOk, MatchBool};
ghost use Rattle.krb_accept_rules.specs.AuthenticatorRules.{AuthenticatorRule, EachElement, HasName, IsPath, IsUnderstood, IsWellFormed, ShowsTime, data_in, octets_order, trust_order};
ghost use Rattle.krb_accept_rules.specs.FirstFault.{Keeps, OrMemory, RefusesFirst};
ghost use Rattle.krb_accept_rules.specs.Firsts.{EachIs};

use crate::fields::{AuthenticatorFields, TicketFields};
use crate::numbers::is_listed;
use crate::opening::Opening;
use crate::refusal::{Refusal, Rule};
use crate::servers::is_realm_of;
use crate::terms::{Arrival, Terms};
use krb_types::data_types::{AuthorizationData, AuthorizationDataInner};
use krb_types::view::{is_set, items};
use std::alloc::{AllocError, Global};

/// The number of ANONYMOUS among the flags of a ticket (RFC 8062, 3).
const ANONYMOUS: usize = 16;

/// The number of TRANSITED-POLICY-CHECKED among the flags of a ticket (RFC 4120, 5.3).
const TRANSITED_POLICY_CHECKED: usize = 12;

/// The type of AD-IF-RELEVANT (RFC 4120, 5.2.6.1).
const IF_RELEVANT: u32 = 1;

/// Whether the client has a name, or the service lets in clients without one.
fn has_name(terms: &Terms, ticket: &TicketFields) -> bool
    ensures { MatchBool result (HasName terms.now ticket.now) (HasName terms.now ticket.now → ⊥) }
{
    !is_set(&ticket.flags, ANONYMOUS) || terms.anonymous
}

/// Whether the path of realms that the ticket took may be taken.
fn is_path(terms: &Terms, ticket: &TicketFields) -> bool
    ensures { MatchBool result (IsPath terms.now ticket.now) (IsPath terms.now ticket.now → ⊥) }
{
    ticket.transited.contents.0.0.is_empty()
        || is_set(&ticket.flags, TRANSITED_POLICY_CHECKED)
        || terms.unchecked_path
}

/// The elements of authorization data, where there are some.
fn data_in(field: &Option<AuthorizationData>) -> &[AuthorizationDataInner]
    ensures { result.now ≡ data_in field.now }
{
    match field {
        Some(elements) => items(elements),
        None => &[],
    }
}

/// Whether the service understands an element.
fn is_understood(known: &[u32], element: &AuthorizationDataInner) -> bool
    ensures { MatchBool result (IsUnderstood known.now element.now) (IsUnderstood known.now element.now → ⊥) }
{
    element.ad_type.0.is_number(IF_RELEVANT) || is_listed(known, &element.ad_type.0)
}

/// Whether the service understands each element.
fn are_understood(known: &[u32], elements: &[AuthorizationDataInner]) -> bool
    ensures { MatchBool result (EachIs (IsUnderstood known.now) elements.now)
        (EachIs (IsUnderstood known.now) elements.now → ⊥) }
{
    for element in elements {
        if !is_understood(known, element) {
            return false;
        }
    }
    true
}

/// Whether the service understands each element of the ticket and of the authenticator.
fn is_all_understood(
    known: &[u32],
    ticket: &TicketFields,
    authenticator: &AuthenticatorFields,
) -> bool
    ensures { MatchBool result (EachElement (IsUnderstood known.now) ticket.now authenticator.now)
        (EachElement (IsUnderstood known.now) ticket.now authenticator.now → ⊥) }
{
    are_understood(known, data_in(&ticket.authorization_data))
        && are_understood(known, data_in(&authenticator.authorization_data))
}

/// Whether what an element holds is an AuthorizationData, where it is an AD-IF-RELEVANT.
fn is_well_formed<O: Opening>(
    alloc: Global,
    element: &AuthorizationDataInner,
) -> Result<bool, AllocError>
    ensures { IfOk result (λ is. MatchBool is (IsWellFormed ⟦<O as Opening>⟧ element.now)
        (IsWellFormed ⟦<O as Opening>⟧ element.now → ⊥)) }
{
    if !element.ad_type.0.is_number(IF_RELEVANT) {
        return Ok(true);
    }
    O::is_authorization_data(alloc, &element.ad_data.0.0)
}

/// Whether each element is well-formed.
fn are_well_formed<O: Opening>(
    alloc: Global,
    elements: &[AuthorizationDataInner],
) -> Result<bool, AllocError>
    ensures { IfOk result (λ is. MatchBool is (EachIs (IsWellFormed ⟦<O as Opening>⟧) elements.now)
        (EachIs (IsWellFormed ⟦<O as Opening>⟧) elements.now → ⊥)) }
{
    for element in elements {
        let is = is_well_formed::<O>(alloc, element)?;
        if !is {
            return Ok(false);
        }
    }
    Ok(true)
}

/// Whether each element of the ticket and of the authenticator is well-formed.
fn is_all_well_formed<O: Opening>(
    alloc: Global,
    ticket: &TicketFields,
    authenticator: &AuthenticatorFields,
) -> Result<bool, AllocError>
    ensures { IfOk result (λ is. MatchBool is (EachElement (IsWellFormed ⟦<O as Opening>⟧) ticket.now authenticator.now)
        (EachElement (IsWellFormed ⟦<O as Opening>⟧) ticket.now authenticator.now → ⊥)) }
{
    let of_ticket = are_well_formed::<O>(alloc, data_in(&ticket.authorization_data))?;
    let of_authenticator = are_well_formed::<O>(alloc, data_in(&authenticator.authorization_data))?;
    Ok(of_ticket && of_authenticator)
}

/// Whether the ticket is of a client that the service lets in by its name, its realm, its path and
/// its authorization data; else the first rule that is broken.
pub(crate) fn check_trust<O: Opening>(
    terms: &Terms,
    arrival: &Arrival,
    ticket: &TicketFields,
    authenticator: &AuthenticatorFields,
) -> Result<(), Refusal>
    ensures kept { OnOk result (Keeps (AuthenticatorRule ⟦<O as Opening>⟧ terms.now arrival.now ticket.now authenticator.now) trust_order) }
    ensures broken { IfErr result (RefusesFirst (AuthenticatorRule ⟦<O as Opening>⟧ terms.now arrival.now ticket.now authenticator.now)
        (ShowsTime ticket.now authenticator.now) trust_order) }
{
    if !has_name(terms, ticket) {
        return Err(Refusal::plain(Rule::Anonymous));
    }
    if !is_realm_of(terms, &ticket.realm) {
        return Err(Refusal::plain(Rule::ClientRealm));
    }
    if !is_path(terms, ticket) {
        return Err(Refusal::plain(Rule::Path));
    }
    if !is_all_understood(&terms.known_data, ticket, authenticator) {
        return Err(Refusal::plain(Rule::CriticalData));
    }
    Ok(())
}

/// Whether what each AD-IF-RELEVANT holds is an AuthorizationData.
pub(crate) fn check_form<O: Opening>(
    alloc: Global,
    terms: &Terms,
    arrival: &Arrival,
    ticket: &TicketFields,
    authenticator: &AuthenticatorFields,
) -> Result<(), Refusal>
    ensures kept { OnOk result (Keeps (AuthenticatorRule ⟦<O as Opening>⟧ terms.now arrival.now ticket.now authenticator.now) octets_order) }
    ensures broken { IfErr result (OrMemory (RefusesFirst (AuthenticatorRule ⟦<O as Opening>⟧ terms.now arrival.now ticket.now authenticator.now)
        (ShowsTime ticket.now authenticator.now) octets_order)) }
{
    let is = is_all_well_formed::<O>(alloc, ticket, authenticator)?;
    if is {
        Ok(())
    } else {
        Err(Refusal::plain(Rule::DataForm))
    }
}

//! The rules that an authenticator keeps beside its ticket (RFC 4120, 3.2.3).

ghost use Rattle.std.specs.Prelude.{◌≡◌, pos, IfOk, IfErr, OnOk, MatchBool};
ghost use Rattle.krb_accept_rules.specs.AuthenticatorRules.{AuthenticatorRule, FitsAddress, IsPermitted, IsSameClient, IsSubkey, ShowsTime, WherePresent};
ghost use Rattle.krb_accept_rules.specs.AuthenticatorRules.{authenticator_order, client_order, parts_order, value_order};
ghost use Rattle.krb_accept_rules.specs.FirstFault.{Keeps, OrMemory, RefusesFirst};
ghost use Rattle.krb_accept_rules.specs.Numbers.{IsNumber32};

use crate::elements::{check_form, check_trust};
use crate::fields::{AuthenticatorFields, TicketFields};
use crate::names::{is_among, is_same_name, is_same_realm};
use crate::numbers::{is_listed, is_number_of_32_bits, microseconds_of};
use crate::opening::Opening;
use crate::refusal::{Refusal, Rule};
use crate::seconds::is_within;
use crate::terms::{Arrival, Terms};
use crate::ticket::check_times;
use krb_der::IntegerAsn1;
use krb_types::data_types::{EncryptionKey, HostAddress, HostAddresses};
use krb_types::view::{items, unix_seconds};
use std::alloc::Global;

/// authenticator-vno (RFC 4120, 5.5.1).
const VERSION: u32 = 5;

/// Whether an encryption type is supported and permitted.
pub(crate) fn is_permitted<O: Opening>(terms: &Terms, etype: &IntegerAsn1) -> bool
    ensures { MatchBool result (IsPermitted ⟦<O as Opening>⟧ terms.now etype.now)
        (IsPermitted ⟦<O as Opening>⟧ terms.now etype.now → ⊥) }
{
    O::is_supported(etype) && is_listed(&terms.etypes, etype)
}

/// Whether a key may be a subkey.
fn is_subkey<O: Opening>(terms: &Terms, key: &EncryptionKey) -> bool
    ensures { MatchBool result (IsSubkey ⟦<O as Opening>⟧ terms.now key.now)
        (IsSubkey ⟦<O as Opening>⟧ terms.now key.now → ⊥) }
{
    is_permitted::<O>(terms, &key.key_type.0) && O::has_key_length(key)
}

/// Whether a subkey may be one, where it is present.
fn may_have_subkey<O: Opening>(terms: &Terms, subkey: &Option<EncryptionKey>) -> bool
    ensures { MatchBool result (WherePresent (IsSubkey ⟦<O as Opening>⟧ terms.now) subkey.now)
        (WherePresent (IsSubkey ⟦<O as Opening>⟧ terms.now) subkey.now → ⊥) }
{
    match subkey {
        Some(key) => is_subkey::<O>(terms, key),
        None => true,
    }
}

/// Whether a sequence number fits 32 bits, where it is present.
fn may_have_number(number: &Option<IntegerAsn1>) -> bool
    ensures { MatchBool result (WherePresent IsNumber32 number.now) (WherePresent IsNumber32 number.now → ⊥) }
{
    match number {
        Some(number) => is_number_of_32_bits(number),
        None => true,
    }
}

/// Whether the ticket is of the client that made the authenticator.
fn is_same_client(ticket: &TicketFields, authenticator: &AuthenticatorFields) -> bool
    ensures { MatchBool result (IsSameClient ticket.now authenticator.now)
        (IsSameClient ticket.now authenticator.now → ⊥) }
{
    is_same_realm(&ticket.realm, &authenticator.realm)
        && is_same_name(
            &ticket.client.name_string.0,
            &authenticator.client.name_string.0,
        )
}

/// Whether a ticket for these addresses may be used from this one.
fn fits_address(
    required: bool,
    address: &Option<HostAddress>,
    addresses: &Option<HostAddresses>,
) -> bool
    ensures { MatchBool result (FitsAddress required address.now addresses.now)
        (FitsAddress required address.now addresses.now → ⊥) }
{
    match address {
        None => true,
        Some(address) => match addresses {
            None => !required,
            Some(addresses) => is_among(items(addresses), address),
        },
    }
}

/// The microseconds of the authenticator, where its own parts keep the rules; else the first rule
/// that they break.
fn check_parts<O: Opening>(
    terms: &Terms,
    arrival: &Arrival,
    ticket: &TicketFields,
    authenticator: &AuthenticatorFields,
) -> Result<u32, Refusal>
    ensures microseconds { IfOk result (λ n. authenticator.now.cusec ≡ pos n) }
    ensures kept { OnOk result (Keeps (AuthenticatorRule ⟦<O as Opening>⟧ terms.now arrival.now ticket.now authenticator.now) parts_order) }
    ensures broken { IfErr result (RefusesFirst (AuthenticatorRule ⟦<O as Opening>⟧ terms.now arrival.now ticket.now authenticator.now)
        (ShowsTime ticket.now authenticator.now) parts_order) }
{
    if !authenticator.version.is_number(VERSION) {
        return Err(Refusal::plain(Rule::AuthenticatorVersion));
    }
    let Some(microseconds) = microseconds_of(&authenticator.cusec) else {
        return Err(Refusal::plain(Rule::Microseconds));
    };
    if !may_have_number(&authenticator.sequence_number) {
        return Err(Refusal::plain(Rule::SequenceNumber));
    }
    if !may_have_subkey::<O>(terms, &authenticator.subkey) {
        return Err(Refusal::plain(Rule::Subkey));
    }
    Ok(microseconds)
}

/// Whether the client that made the authenticator may use the ticket, from its address and at its
/// time; else the first rule that is broken.
fn check_client<O: Opening>(
    terms: &Terms,
    arrival: &Arrival,
    ticket: &TicketFields,
    authenticator: &AuthenticatorFields,
) -> Result<(), Refusal>
    ensures kept { OnOk result (Keeps (AuthenticatorRule ⟦<O as Opening>⟧ terms.now arrival.now ticket.now authenticator.now) client_order) }
    ensures broken { IfErr result (RefusesFirst (AuthenticatorRule ⟦<O as Opening>⟧ terms.now arrival.now ticket.now authenticator.now)
        (ShowsTime ticket.now authenticator.now) client_order) }
{
    if !is_same_client(ticket, authenticator) {
        return Err(Refusal::plain(Rule::OtherClient));
    }
    if !fits_address(
        terms.addresses_required,
        &arrival.address,
        &ticket.addresses,
    ) {
        return Err(Refusal::plain(Rule::OtherAddress));
    }
    let time = unix_seconds(&authenticator.ctime);
    if !is_within(time, arrival.clock, terms.skew) {
        return Err(Refusal {
            rule: Rule::Skew,
            seen: Some(time),
        });
    }
    Ok(())
}

/// The microseconds of an authenticator, where it and its ticket keep the rules that are decided on
/// their values, `AuthenticatorVersion` to `CriticalData`; else the refusal by the first of these
/// that is broken.
///
/// Nothing is allocated, so this is the answer always: there is no `OutOfMemory`.
pub fn judge<O: Opening>(
    terms: &Terms,
    arrival: &Arrival,
    ticket: &TicketFields,
    authenticator: &AuthenticatorFields,
) -> Result<u32, Refusal>
    ensures microseconds { IfOk result (λ n. authenticator.now.cusec ≡ pos n) }
    ensures kept { OnOk result (Keeps (AuthenticatorRule ⟦<O as Opening>⟧ terms.now arrival.now ticket.now authenticator.now) value_order) }
    ensures broken { IfErr result (RefusesFirst (AuthenticatorRule ⟦<O as Opening>⟧ terms.now arrival.now ticket.now authenticator.now)
        (ShowsTime ticket.now authenticator.now) value_order) }
{
    let microseconds = check_parts::<O>(terms, arrival, ticket, authenticator)?;
    let _client = check_client::<O>(terms, arrival, ticket, authenticator)?;
    let _times = check_times::<O>(terms, arrival, ticket, authenticator)?;
    let _trust = check_trust::<O>(terms, arrival, ticket, authenticator)?;
    Ok(microseconds)
}

/// The microseconds of the authenticator, where it and the ticket keep the rules; else the first
/// that is broken.
pub(crate) fn check_authenticator<O: Opening>(
    alloc: Global,
    terms: &Terms,
    arrival: &Arrival,
    ticket: &TicketFields,
    authenticator: &AuthenticatorFields,
) -> Result<u32, Refusal>
    ensures microseconds { IfOk result (λ n. authenticator.now.cusec ≡ pos n) }
    ensures kept { OnOk result (Keeps (AuthenticatorRule ⟦<O as Opening>⟧ terms.now arrival.now ticket.now authenticator.now) authenticator_order) }
    ensures broken { IfErr result (OrMemory (RefusesFirst (AuthenticatorRule ⟦<O as Opening>⟧ terms.now arrival.now ticket.now authenticator.now)
        (ShowsTime ticket.now authenticator.now) authenticator_order)) }
{
    let microseconds = judge::<O>(terms, arrival, ticket, authenticator)?;
    let _form = check_form::<O>(alloc, terms, arrival, ticket, authenticator)?;
    Ok(microseconds)
}

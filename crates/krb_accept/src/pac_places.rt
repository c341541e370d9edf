//! Where the PAC of a ticket stands (MS-PAC, 2.1): in one AD-IF-RELEVANT of the ticket, and nowhere else.

ghost use Rattle.std.specs.Prelude.{◌≡◌, ◌⊎◌, pos, IfOk, MatchBool, MatchOption};
ghost use Rattle.krb_accept.specs.PacPlaces.{HasNoWay, HoldsFree, HoldsOne, HoldsPac, IsFree, IsPac, IsPacOf, IsWay, MatchHeld, NoPacOf, OneOf, Reaches, TicketPac, both};
ghost use Rattle.krb_message_fields.specs.Paths.{LeadsNowhere};
ghost use Rattle.krb_accept_rules.specs.Firsts.{EachIs};

use crate::opening::{octets_of, value_of};
use krb_der::DerEncode;
use krb_message_fields::places::{Step, place_of};
use krb_types::data_types::{AuthorizationData, AuthorizationDataInner};
use krb_types::view::items;
use std::alloc::{AllocError, Global};

/// The type of AD-IF-RELEVANT (RFC 4120, 5.2.6.1).
const IF_RELEVANT: u32 = 1;

/// The type of AD-MANDATORY-FOR-KDC (RFC 4120, 5.2.6.4).
const MANDATORY_FOR_KDC: u32 = 8;

/// The type of AD-KDCIssued (RFC 4120, 5.2.6.2).
const KDC_ISSUED: u32 = 4;

/// The type of AD-AND-OR (RFC 4120, 5.2.6.3).
const AND_OR: u32 = 5;

/// The type of AD-CAMMAC (RFC 7751, 3).
const CAMMAC: u32 = 96;

/// The way into an element whose content is an AuthorizationData.
const WHOLE: [Step; 0] = [];

/// The way to field 0 of a SEQUENCE.
const FIELD_0: [Step; 2] = [Step::Tag(0x30), Step::Tag(0xa0)];

/// The way to field 1 of a SEQUENCE.
const FIELD_1: [Step; 2] = [Step::Tag(0x30), Step::Tag(0xa1)];

/// The way to field 3 of a SEQUENCE.
const FIELD_3: [Step; 2] = [Step::Tag(0x30), Step::Tag(0xa3)];

/// The type of AD-WIN2K-PAC (RFC 4120, 7.5.4).
const WIN2K_PAC: u32 = 128;

/// How many levels of containers may stand in an element; real tickets have one.
const LEVELS: usize = 16;

/// Where a PAC is found.
#[derive(Drop)]
pub(crate) enum Held {
    /// None stands there.
    Nowhere,
    /// One stands where it is verified, and these are its octets.
    Once(Vec<u8>),
    /// One stands where nobody verifies it, or a second one; or what stands there cannot be looked
    /// through.
    Elsewhere,
}

/// Whether an element is an AD-WIN2K-PAC.
fn is_pac(element: &AuthorizationDataInner) -> bool
    ensures { MatchBool result (IsPac element.now) (IsPac element.now → ⊥) }
{
    element.ad_type.0.is_number(WIN2K_PAC)
}

/// Whether an element is an AD-IF-RELEVANT.
fn is_if_relevant(element: &AuthorizationDataInner) -> bool
    ensures { MatchBool result (element.now.ad_type ≡ pos 1) (element.now.ad_type ≡ pos 1 → ⊥) }
{
    element.ad_type.0.is_number(IF_RELEVANT)
}

/// Whether an element's content is an AuthorizationData.
fn is_whole(element: &AuthorizationDataInner) -> bool
    ensures { MatchBool result ((element.now.ad_type ≡ pos 1) ⊎ (element.now.ad_type ≡ pos 8))
        ((element.now.ad_type ≡ pos 1) ⊎ (element.now.ad_type ≡ pos 8) → ⊥) }
{
    is_if_relevant(element) || element.ad_type.0.is_number(MANDATORY_FOR_KDC)
}

/// The tags that lead from an element's content to the AuthorizationData in it; `None` where its
/// type has none.
fn way_into(element: &AuthorizationDataInner) -> Option<&'static [Step]>
    ensures { MatchOption result (HasNoWay element.now) (λ way. IsWay element.now way.now) }
{
    if is_whole(element) {
        return Some(&WHOLE);
    }
    if element.ad_type.0.is_number(KDC_ISSUED) {
        return Some(&FIELD_3);
    }
    if element.ad_type.0.is_number(AND_OR) {
        return Some(&FIELD_1);
    }
    if element.ad_type.0.is_number(CAMMAC) {
        return Some(&FIELD_0);
    }
    None
}

/// The octets to which a way leads; `None` where it leads nowhere.
fn reached<'a>(way: &[Step], octets: &'a [u8]) -> Option<&'a [u8]>
    ensures { MatchOption result (LeadsNowhere way.now octets.now) (λ inner. Reaches way.now octets.now inner.now) }
{
    let place = place_of(way, octets)?;
    Some(&octets[place.offset..place.offset + place.size])
}

/// The octets that an element holds.
fn content_of(element: &AuthorizationDataInner) -> &[u8]
    ensures { result.now ≡ element.now.ad_data }
{
    octets_of(&element.ad_data.0)
}

/// Whether octets are an AuthorizationData in which no PAC stands.
#[cycle(free)]
fn holds_free(alloc: Global, levels: usize, octets: &[u8]) -> Result<bool, AllocError>
    ensures { IfOk result (λ is. MatchBool is (HoldsFree ⟦<AuthorizationData as DerEncode>⟧ levels octets.now)
        (HoldsFree ⟦<AuthorizationData as DerEncode>⟧ levels octets.now → ⊥)) }
{
    if levels == 0 {
        return Ok(false);
    }
    match value_of::<AuthorizationData>(alloc, octets)? {
        Some(inner) => are_free(alloc, levels - 1, items(&inner)),
        None => Ok(false),
    }
}

/// Whether no PAC stands in any of these elements.
#[cycle(free)]
fn are_free(
    alloc: Global,
    levels: usize,
    elements: &[AuthorizationDataInner],
) -> Result<bool, AllocError>
    ensures { IfOk result (λ is. MatchBool is (EachIs (IsFree ⟦<AuthorizationData as DerEncode>⟧ levels) elements.now)
        (EachIs (IsFree ⟦<AuthorizationData as DerEncode>⟧ levels) elements.now → ⊥)) }
{
    'elements: for element in elements {
        if !is_free(alloc, levels, element)? {
            return Ok(false);
        }
    }
    Ok(true)
}

/// Whether no PAC stands in an element.
#[cycle(free)]
fn is_free(
    alloc: Global,
    levels: usize,
    element: &AuthorizationDataInner,
) -> Result<bool, AllocError>
    ensures { IfOk result (λ is. MatchBool is (IsFree ⟦<AuthorizationData as DerEncode>⟧ levels element.now)
        (IsFree ⟦<AuthorizationData as DerEncode>⟧ levels element.now → ⊥)) }
{
    if is_pac(element) {
        return Ok(false);
    }
    let Some(way) = way_into(element) else {
        return Ok(true);
    };
    let Some(inner) = reached(way, content_of(element)) else {
        return Ok(false);
    };
    holds_free(alloc, levels, inner)
}

/// Whether no PAC stands in an element of a ticket or an authenticator.
pub(crate) fn is_without_pac(
    alloc: Global,
    element: &AuthorizationDataInner,
) -> Result<bool, AllocError>
    ensures { IfOk result (λ is. MatchBool is (IsFree ⟦<AuthorizationData as DerEncode>⟧ 16 element.now)
        (IsFree ⟦<AuthorizationData as DerEncode>⟧ 16 element.now → ⊥)) }
{
    is_free(alloc, LEVELS, element)
}

/// Whether no PAC stands in authorization data.
pub(crate) fn has_no_pac(
    alloc: Global,
    field: &Option<AuthorizationData>,
) -> Result<bool, AllocError>
    ensures { IfOk result (λ is. MatchBool is (NoPacOf ⟦<AuthorizationData as DerEncode>⟧ field.now)
        (NoPacOf ⟦<AuthorizationData as DerEncode>⟧ field.now → ⊥)) }
{
    match field {
        Some(elements) => are_free(alloc, LEVELS, items(elements)),
        None => Ok(true),
    }
}

/// What is found in both.
fn both(first: Held, second: Held) -> Held
    ensures { result ≡ both first second }
{
    match first {
        Held::Nowhere => second,
        Held::Once(octets) => match second {
            Held::Nowhere => Held::Once(octets),
            Held::Once(other) => {
                drop(octets);
                drop(other);
                Held::Elsewhere
            }
            Held::Elsewhere => {
                drop(octets);
                Held::Elsewhere
            }
        },
        Held::Elsewhere => {
            drop(second);
            Held::Elsewhere
        }
    }
}

/// What an element of an AD-IF-RELEVANT of a ticket is.
fn held_by(alloc: Global, element: &AuthorizationDataInner) -> Result<Held, AllocError>
    ensures { IfOk result (λ found. MatchHeld found (IsFree ⟦<AuthorizationData as DerEncode>⟧ 15 element.now) (IsPacOf element.now)) }
{
    if is_pac(element) {
        return Ok(Held::Once(Vec::from_slice(alloc, content_of(element))?));
    }
    if is_free(alloc, LEVELS - 1, element)? {
        Ok(Held::Nowhere)
    } else {
        Ok(Held::Elsewhere)
    }
}

/// What the elements of an AD-IF-RELEVANT of a ticket are.
fn held_by_each(alloc: Global, elements: &[AuthorizationDataInner]) -> Result<Held, AllocError>
    ensures { IfOk result (λ found. MatchHeld found (EachIs (IsFree ⟦<AuthorizationData as DerEncode>⟧ 15) elements.now)
        (OneOf (IsFree ⟦<AuthorizationData as DerEncode>⟧ 15) IsPacOf elements.now)) }
{
    let mut found = Held::Nowhere;
    'elements: for element in elements {
        found = both(found, held_by(alloc, element)?);
    }
    Ok(found)
}

/// What stands in an AD-IF-RELEVANT of a ticket.
fn held_within(alloc: Global, octets: &[u8]) -> Result<Held, AllocError>
    ensures { IfOk result (λ found. MatchHeld found (HoldsFree ⟦<AuthorizationData as DerEncode>⟧ 16 octets.now)
        (HoldsOne ⟦<AuthorizationData as DerEncode>⟧ octets.now)) }
{
    match value_of::<AuthorizationData>(alloc, octets)? {
        Some(inner) => held_by_each(alloc, items(&inner)),
        None => Ok(Held::Elsewhere),
    }
}

/// What stands in an element of a ticket.
fn held_in(alloc: Global, element: &AuthorizationDataInner) -> Result<Held, AllocError>
    ensures { IfOk result (λ found. MatchHeld found (IsFree ⟦<AuthorizationData as DerEncode>⟧ 16 element.now)
        (HoldsPac ⟦<AuthorizationData as DerEncode>⟧ element.now)) }
{
    if is_if_relevant(element) {
        return held_within(alloc, content_of(element));
    }
    if is_without_pac(alloc, element)? {
        Ok(Held::Nowhere)
    } else {
        Ok(Held::Elsewhere)
    }
}

/// What stands in the elements of a ticket.
fn held_in_each(alloc: Global, elements: &[AuthorizationDataInner]) -> Result<Held, AllocError>
    ensures { IfOk result (λ found. MatchHeld found (EachIs (IsFree ⟦<AuthorizationData as DerEncode>⟧ 16) elements.now)
        (OneOf (IsFree ⟦<AuthorizationData as DerEncode>⟧ 16) (HoldsPac ⟦<AuthorizationData as DerEncode>⟧) elements.now)) }
{
    let mut found = Held::Nowhere;
    'elements: for element in elements {
        found = both(found, held_in(alloc, element)?);
    }
    Ok(found)
}

/// The PAC of a ticket, by its authorization data.
pub(crate) fn pac_in(alloc: Global, field: &Option<AuthorizationData>) -> Result<Held, AllocError>
    ensures { IfOk result (λ found. MatchHeld found (NoPacOf ⟦<AuthorizationData as DerEncode>⟧ field.now)
        (TicketPac ⟦<AuthorizationData as DerEncode>⟧ field.now)) }
{
    match field {
        Some(elements) => held_in_each(alloc, items(elements)),
        None => Ok(Held::Nowhere),
    }
}

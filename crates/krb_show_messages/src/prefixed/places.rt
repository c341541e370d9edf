//! Where what is told of a message behind its length stands (MS-KKDCP, 2.2.2).

ghost use Rattle.std.specs.Prelude.{◌≡◌, Some, length, drop, IfOk};
ghost use Rattle.krb_show_messages.specs.Places.{items_places, message_places, prefixed_places, row_places};
ghost use Rattle.krb_show_messages.specs.Prefixed.{IsPrefixed, message_row};

use crate::places::places_of_octets;
use crate::prefixed::{behind_length, is_prefixed, message_row};
use krb_schema::Item;
use krb_show::{NoFormats, Place, Walk, place_at, places_of_items, walk_named};
use std::alloc::{AllocError, Global};

/// The places of so many octets, the length and what a message is told as behind it.
fn places_around(
    alloc: Global,
    size: usize,
    message: &[Option<Place>],
) -> Result<Vec<Option<Place>>, AllocError>
    ensures { IfOk result (λ places. places.items ≡ message_places size message.now) }
{
    let all = place_at(0, size);
    let mut places = Vec::new(alloc);
    places.extend_from_slice(&[all, place_at(0, 4)])?;
    places.extend_from_slice(message)?;
    places.push(all)?;
    Ok(places)
}

/// The places of octets behind whose length a message of these items stands.
fn places_of_message(
    alloc: Global,
    octets: &[u8],
    items: &[Item],
) -> Result<Vec<Option<Place>>, AllocError>
    requires { IsPrefixed octets.now }
    ensures { IfOk result (λ places. items_places octets.now items.now places.items) }
{
    let message = places_of_items::<NoFormats>(alloc, 4, behind_length(octets), items)?;
    places_around(alloc, octets.len(), &message)
}

/// The places of octets behind whose length a message of this row stands, if one does.
fn places_by_message_row(
    alloc: Global,
    row: &'static str,
    octets: &[u8],
) -> Result<Vec<Option<Place>>, AllocError>
    requires { IsPrefixed octets.now }
    ensures { IfOk result (λ places. row_places (Some row.now) octets.now places.items) }
{
    let message = behind_length(octets);
    match walk_named(alloc, row, row, message)? {
        Walk::Items(items) => places_of_message(alloc, octets, &items),
        Walk::NoRow | Walk::Fault(_) => places_of_octets(alloc, octets),
    }
}

/// The places of octets behind whose length octets stand, by the row that the first of these tells.
fn places_behind_length(alloc: Global, octets: &[u8]) -> Result<Vec<Option<Place>>, AllocError>
    requires { IsPrefixed octets.now }
    ensures { IfOk result (λ places. row_places (message_row (drop 4 octets.now)) octets.now places.items) }
{
    match message_row(behind_length(octets)) {
        Some(row) => places_by_message_row(alloc, row, octets),
        None => places_of_octets(alloc, octets),
    }
}

/// Where each token that `show_prefixed` appends for octets stands in these: the length in the first four octets, and the elements
/// of the message behind it. Other octets are one token, and have one place. The only error is an allocation failure.
pub(crate) fn places_of_prefixed(
    alloc: Global,
    octets: &[u8],
) -> Result<Vec<Option<Place>>, AllocError>
    ensures { IfOk result (λ places. prefixed_places octets.now places.items) }
{
    if is_prefixed(octets) {
        return places_behind_length(alloc, octets);
    }
    places_of_octets(alloc, octets)
}

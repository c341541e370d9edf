//! Places of what rows show of octets that stand behind others.

ghost use Rattle.std.specs.Prelude.{◌≡◌, List, [], ◌∷◌, length, IfOk};
ghost use Rattle.krb_show.specs.InnerPlaces.{ArePlacesByRow, place_at, place_behind, places_behind, walk_places};
ghost use Rattle.krb_show.specs.Items.{start};
ghost use Rattle.krb_show.specs.PlacedItems.{shown_with_places};
ghost use Rattle.krb_show.specs.Tokens.{Token};
ghost use Rattle.krb_show.specs.declared.rows.stand.Secrets.TheVariants as secrets;

use crate::rows::formats::ShowsFormats;
use crate::rows::placed::push_items_with_places;
use crate::rows::stand::Secrets;
use crate::rows::walk::{Walk, walk_named};
use crate::token::{Page, Token};
use krb_message_fields::places::Place;
use krb_schema::Item;
use std::alloc::{AllocError, Global};

/// The place of so many octets behind so many others.
pub fn place_at(offset: usize, size: usize) -> Option<Place>
    ensures { result ≡ place_at offset size }
{
    Some(Place { offset, size })
}

/// The place of a token of octets before which so many others stand.
fn place_behind(base: usize, token: &Token) -> Option<Place>
    ensures { result ≡ place_behind base token.now.place }
{
    let place = token.place()?;
    Some(Place {
        offset: base.saturating_add(place.offset),
        size: place.size,
    })
}

/// The places of tokens of octets before which so many others stand.
fn places_behind(
    alloc: Global,
    base: usize,
    page: &[Token],
) -> Result<Vec<Option<Place>>, AllocError>
    ensures { IfOk result (λ places. places.items ≡ places_behind base page.now) }
{
    let mut places = Vec::with_capacity(alloc, page.len())?;
    'tokens: for token in page {
        places.push(place_behind(base, token))?;
    }
    Ok(places)
}

/// Where each token that `push_items` appends for items of octets, secrets shown, stands in octets in which so many others stand before
/// these: the place of its element. The only error is an allocation failure.
pub fn places_of_items<F: ShowsFormats>(
    alloc: Global,
    base: usize,
    octets: &[u8],
    items: &[Item],
) -> Result<Vec<Option<Place>>, AllocError>
    ensures { IfOk result (λ places. (page : List Token) × shown_with_places F.tells F.places octets.now items.now (start secrets.Shown) [] page
        × (places.items ≡ places_behind base page)) }
{
    let mut page: Page = Vec::new(alloc);
    push_items_with_places::<F>(alloc, Secrets::Shown, octets, items, &mut page)?;
    places_behind(alloc, base, &page)
}

/// The one place of octets before which so many others stand.
fn place_of_all(alloc: Global, base: usize, octets: &[u8]) -> Result<Vec<Option<Place>>, AllocError>
    ensures { IfOk result (λ places. places.items ≡ place_at base (length octets.now) ∷ []) }
{
    let mut places = Vec::new(alloc);
    places.push(place_at(base, octets.len()))?;
    Ok(places)
}

/// The places of what a walk of octets comes to before which so many others stand.
fn places_of_walk<F: ShowsFormats>(
    alloc: Global,
    base: usize,
    octets: &[u8],
    walk: Walk,
) -> Result<Vec<Option<Place>>, AllocError>
    ensures { IfOk result (λ places. walk_places F.tells F.places base octets.now walk places.items) }
{
    match walk {
        Walk::Items(items) => places_of_items::<F>(alloc, base, octets, &items),
        Walk::NoRow | Walk::Fault(_) => place_of_all(alloc, base, octets),
    }
}

/// Where each token that `show_by_row` appends for octets by the row of this name stands, in octets in which so many others
/// stand before these: the place of its element. Octets that are no element of the row are one token, and have one place. For the caller
/// of `place_tokens`, in whose format a message stands. The only error is an allocation failure.
pub fn places_by_row<F: ShowsFormats>(
    alloc: Global,
    row_name: &'static str,
    base: usize,
    octets: &[u8],
) -> Result<Vec<Option<Place>>, AllocError>
    ensures { IfOk result (λ places. ArePlacesByRow F.tells F.places row_name.now base octets.now places.items) }
{
    let walk = walk_named(alloc, row_name, row_name, octets)?;
    places_of_walk::<F>(alloc, base, octets, walk)
}

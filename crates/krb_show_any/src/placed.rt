//! Pages with the places of elements.

ghost use Rattle.std.specs.Prelude.{◌≡◌, [], ◌∷◌, ◌++◌, None, IfOk};
ghost use Rattle.krb_show_pages.specs.Pages.{is_reply};
ghost use Rattle.krb_show_any.specs.Placed.{IsPlacedBy, IsPlacedIn, IsPlacedPage, are_places, is_placed, is_same_text, type_places, within_choice};

use crate::kind::Kind;
use crate::rows::{type_row, walk_octets};
use krb_show::{
    Page, Place, Plain, Secrets, Token, Walk, place_tokens, places_by_row, push_items_with_places,
};
use krb_show_messages::{KerberosFormats, places_of_pac};
use krb_show_negoex::places_of_negoex;
use krb_show_pages::{is_reply, places_of_ccache, places_of_keytab};
use krb_show_text::text_of_page;
use krb_show_tokens::kpasswd::places_of_password_frame;
use krb_show_tokens::places_of_token;
use std::alloc::{AllocError, Global};

/// Whether two pages have one text.
fn is_same_text(alloc: Global, first: &[Token], second: &[Token]) -> Result<bool, AllocError>
    ensures { IfOk result (λ same. same ≡ is_same_text first.now second.now) }
{
    let one = text_of_page(alloc, first)?;
    let other = text_of_page(alloc, second)?;
    Ok(one.as_bytes() == other.as_bytes())
}

/// The tokens of the items of a walk with their places, if they have the text of the page; else the
/// page.
fn placed_by(alloc: Global, walk: Walk, octets: &[u8], page: Page) -> Result<Page, AllocError>
    ensures { IfOk result (λ made. IsPlacedBy walk octets.now page.items made.items) }
{
    let Walk::Items(items) = walk else {
        return Ok(page);
    };
    let mut placed = Vec::new(alloc);
    push_items_with_places::<KerberosFormats>(alloc, Secrets::Shown, octets, &items, &mut placed)?;
    if is_same_text(alloc, &placed, &page)? {
        Ok(placed)
    } else {
        Ok(page)
    }
}

/// The places of an alternative, around which a struct stands that has none.
fn within_struct(alloc: Global, found: &[Option<Place>]) -> Result<Vec<Option<Place>>, AllocError>
    ensures { IfOk result (λ places. places.items ≡ None ∷ (found.now ++ None ∷ [])) }
{
    let mut places = Vec::with_capacity(alloc, found.len() + 2)?;
    places.push(None)?;
    places.extend_from_slice(found)?;
    places.push(None)?;
    Ok(places)
}

/// The places of a type by its row, as its page has them: that of a PA-PK-AS-REP is a struct of its alternative (RFC 4556, 3.2.3), which has no place of its
/// own.
fn within_choice(
    alloc: Global,
    name: &str,
    found: Vec<Option<Place>>,
) -> Result<Vec<Option<Place>>, AllocError>
    ensures { IfOk result (λ places. places.items ≡ within_choice (is_reply name.now) found.items) }
{
    if is_reply(name) {
        return within_struct(alloc, &found);
    }
    Ok(found)
}

/// Where each token of the page of a type stands: that of its row.
fn places_of_type(
    alloc: Global,
    name: &'static str,
    octets: &[u8],
) -> Result<Vec<Option<Place>>, AllocError>
    ensures { IfOk result (λ places. type_places name.now octets.now places.items) }
{
    let found = places_by_row::<KerberosFormats>(alloc, type_row(name, octets), 0, octets)?;
    within_choice(alloc, name, found)
}

/// Where in octets of a kind each token of their page stands, in the order of the tokens: of a format that is no DER, and of a
/// type that is named, whose page may name its outermost element otherwise than its row; none of other kinds.
fn places_of(alloc: Global, kind: Kind, octets: &[u8]) -> Result<Vec<Option<Place>>, AllocError>
    ensures { IfOk result (λ places. are_places kind octets.now places.items) }
{
    match kind {
        Kind::Token => places_of_token(alloc, octets),
        Kind::Pac => places_of_pac(alloc, octets),
        Kind::Negoex => places_of_negoex(alloc, octets),
        Kind::PasswordFrame => places_of_password_frame(alloc, octets),
        Kind::Keytab => places_of_keytab(alloc, octets),
        Kind::Ccache => places_of_ccache(alloc, octets),
        Kind::Type(name) => places_of_type(alloc, name, octets),
        Kind::Application(_) | Kind::Tree => Ok(Vec::new(alloc)),
    }
}

/// Whether the first token of a page has a place.
fn is_placed(page: &[Token]) -> bool
    ensures { result ≡ is_placed page.now }
{
    match page.first() {
        Some(token) => token.place().is_some(),
        None => false,
    }
}

/// The page of octets of a kind, whose tokens get the places of the octets that tell them, if its first token has none and there is
/// a place for each.
fn placed_in(alloc: Global, kind: Kind, octets: &[u8], page: Page) -> Result<Page, AllocError>
    ensures { IfOk result (λ made. IsPlacedIn (is_placed page.items) kind octets.now page.items made.items) }
{
    if is_placed(&page) {
        return Ok(page);
    }
    let places = places_of(alloc, kind, octets)?;
    if places.len() != page.len() {
        return Ok(page);
    }
    let mut made = page;
    place_tokens::<Plain>(alloc, octets, 0, &places, 0, &mut made)?;
    Ok(made)
}

/// The page of octets of a kind, with the places of its values in the octets. The text of the page stays.
///
/// Of a kind that has a row in the table of `krb_schema` the places are those of the items of the walk by this row, if the page of the
/// items has the same text. Of a format that is no DER (a PAC, a message of NEGOEX, a token, a frame, a keytab, a cache) they are
/// those that its layout gives, and a value has its place only if the octets there are what it tells. The only error is an
/// allocation failure.
pub fn page_with_places(
    alloc: Global,
    kind: Kind,
    octets: &[u8],
    page: Page,
) -> Result<Page, AllocError>
    ensures { IfOk result (λ made. IsPlacedPage kind octets.now page.items made.items) }
{
    let walk = walk_octets(alloc, kind, octets)?;
    let page = placed_by(alloc, walk, octets, page)?;
    placed_in(alloc, kind, octets, page)
}

//! Items as tokens that have their places.

ghost use Rattle.std.specs.Prelude.{◌≡◌, IfOk, OnErr, OnOk};
ghost use Rattle.krb_show.specs.Tokens.{Begins};
ghost use Rattle.krb_show.specs.Items.{start};
ghost use Rattle.krb_show.specs.PlacedItems.{format_places, inner_places, place_of, shown_with_places, step_with_place};

use crate::places::place_behind;
use crate::rows::formats::ShowsFormats;
use crate::rows::items::push_item;
use crate::rows::stand::{Secrets, Stand};
use crate::spots::{Plain, place_tokens};
use crate::token::Page;
use krb_message_fields::places::Place;
use krb_schema::{Form, Item, Leaf, Role, content_of};
use std::alloc::{AllocError, Global};

/// Where the content of an item is.
fn place_of(item: Item) -> Place
    ensures { result ≡ place_of item }
{
    Place {
        offset: item.offset,
        size: item.size,
    }
}

/// Where in octets that are more than that to a program what is told of them stands; nowhere in others.
fn format_places<F: ShowsFormats>(
    alloc: Global,
    role: Role,
    number: &[u8],
    octets: &[u8],
) -> Result<Vec<Option<Place>>, AllocError>
    ensures { IfOk result (λ inner. format_places F.tells F.places role number.now octets.now inner.items) }
{
    if role == Role::None {
        return Ok(Vec::new(alloc));
    }
    F::places_of_format(alloc, role, number, octets)
}

/// Where what is told of the octets of an element stands in them, if they are of a format that is no DER.
fn inner_places<F: ShowsFormats>(
    alloc: Global,
    form: Form,
    role: Role,
    number: &[u8],
    octets: &[u8],
) -> Result<Vec<Option<Place>>, AllocError>
    ensures { IfOk result (λ inner. inner_places F.tells F.places form role number.now octets.now inner.items) }
{
    match form {
        Form::Leaf(Leaf::Octets) => format_places::<F>(alloc, role, number, octets),
        Form::Leaf(_) | Form::Begin(_) | Form::End(_) => Ok(Vec::new(alloc)),
    }
}

/// Appends the token of an item as `push_item` does, and gives it the place of the item. Of the
/// tokens of octets of a format that is no DER the first and the last have it, and each of the others
/// that of the octets in these that it tells.
#[tactic(auto, using(crate::proofs::Placed::begins_placed, crate::proofs::Placed::begins_kept))]
fn push_item_with_place<'o, F: ShowsFormats>(
    alloc: Global,
    octets: &'o [u8],
    item: Item,
    rest: &[Item],
    stand: &mut Stand<'o>,
    page: &mut Page,
) -> Result<(), AllocError>
    ensures ok { OnOk result (step_with_place F.tells F.places octets.now item rest.now stand.old page.old.items stand.new page.new.items) }
    ensures kept { Begins page.old.items page.new.items }
{
    let start = page.len();
    let content = content_of(octets, item);
    let inner = inner_places::<F>(alloc, item.form, item.name.role, stand.number(), content)?;
    push_item::<F>(alloc, octets, item, rest, stand, page)?;
    place_tokens::<Plain>(alloc, content, item.offset, &inner, start, page)?;
    place_behind(page, start, place_of(item));
    Ok(())
}

/// Appends the items of these octets, one after another, with their places.
#[tactic(auto, using(crate::proofs::Growing::begins_self, crate::proofs::Growing::begins_more))]
fn push_each_with_places<'o, F: ShowsFormats>(
    alloc: Global,
    octets: &'o [u8],
    items: &[Item],
    stand: &mut Stand<'o>,
    page: &mut Page,
) -> Result<(), AllocError>
    ensures ok { OnOk result (shown_with_places F.tells F.places octets.now items.now stand.old page.old.items page.new.items) }
    ensures kept { Begins page.old.items page.new.items }
{
    let mut rest = items;
    'items: while let Some((item, behind)) = rest.split_first() {
        push_item_with_place::<F>(alloc, octets, *item, behind, stand, page)?;
        rest = behind;
    }
    Ok(())
}

/// Appends the tokens of items of these octets, as `push_items` does, with the places of the items:
/// how many of the octets stand before an element's content, and how many octets that has. The page
/// is as before where an allocation fails.
pub fn push_items_with_places<F: ShowsFormats>(
    alloc: Global,
    secrets: Secrets,
    octets: &[u8],
    items: &[Item],
    page: &mut Page,
) -> Result<(), AllocError>
    ensures ok { OnOk result (shown_with_places F.tells F.places octets.now items.now (start secrets) page.old.items page.new.items) }
    ensures kept { OnOk result (Begins page.old.items page.new.items) }
    ensures err { OnErr result (page.new.items ≡ page.old.items) }
{
    let before = page.len();
    let mut stand = Stand::new(alloc, secrets);
    let pushed = push_each_with_places::<F>(alloc, octets, items, &mut stand, page);
    if pushed.is_err() {
        page.truncate(before);
    }
    pushed
}

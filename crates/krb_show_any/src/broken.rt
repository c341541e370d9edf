//! Rules of standards that octets of a kind break which are legal DER.

ghost use Rattle.std.specs.Prelude.{◌≡◌, IfOk, map, take};
ghost use Rattle.krb_show_any.specs.Broken.{AreBrokenByRow, AreBrokenFrom, AreBrokenIn, AreBrokenInFrame, AreBrokenOf, moved};

use crate::frames::{Framed, framed_in};
use crate::kind::Kind;
use crate::place::is_frame;
use crate::rows::walk_octets;
use krb_schema::{Item, broken_rules};
use krb_show::{Walk, walk_named};
use std::alloc::{AllocError, Global};

/// The items of a walk that break a rule of their standard.
fn broken_in(alloc: Global, walk: Walk, octets: &[u8]) -> Result<Vec<Item>, AllocError>
    ensures { IfOk result (λ broken. AreBrokenIn octets.now walk broken.items) }
{
    match walk {
        Walk::Items(items) => broken_rules(alloc, octets, &items),
        _ => Ok(Vec::new(alloc)),
    }
}

/// The items by the row of the kind.
fn broken_by_row(alloc: Global, kind: Kind, octets: &[u8]) -> Result<Vec<Item>, AllocError>
    ensures { IfOk result (λ broken. AreBrokenByRow kind octets.now broken.items) }
{
    let walk = walk_octets(alloc, kind, octets)?;
    broken_in(alloc, walk, octets)
}

/// An item of octets before which so many stand.
fn moved(start: usize, item: Item) -> Item
    ensures { result ≡ moved start item }
{
    Item {
        form: item.form,
        name: item.name,
        depth: item.depth,
        tag: item.tag,
        offset: start.saturating_add(item.offset),
        size: item.size,
    }
}

/// Items of octets before which so many stand.
fn all_moved(alloc: Global, start: usize, items: &[Item]) -> Result<Vec<Item>, AllocError>
    ensures { IfOk result (λ made. made.items ≡ map (moved start) items.now) }
{
    let mut made = Vec::new(alloc);
    'items: for item in items {
        made.push(moved(start, *item))?;
    }
    Ok(made)
}

/// The items in a message of a frame, with their places in the frame.
fn broken_from(alloc: Global, framed: Framed) -> Result<Vec<Item>, AllocError>
    ensures { IfOk result (λ broken. AreBrokenFrom framed.entry broken.items) }
{
    let walk = walk_named(alloc, framed.type_name, framed.type_name, framed.message)?;
    let broken = broken_in(alloc, walk, framed.message)?;
    all_moved(alloc, framed.start, &broken)
}

/// The items in the message that stands in the frame at the start of octets; none if no message of a type that the table has stands there.
fn broken_in_frame(alloc: Global, octets: &[u8]) -> Result<Vec<Item>, AllocError>
    ensures { IfOk result (λ broken. AreBrokenInFrame octets.now broken.items) }
{
    match framed_in(alloc, octets)? {
        Some(framed) => broken_from(alloc, framed),
        None => Ok(Vec::new(alloc)),
    }
}

/// The items of octets of a kind that break a rule of their standard, in the order of the octets, as by `krb_schema::broken_rules`: a number
/// that it fixes and that is another (pvno, msg-type), microseconds that are not from 0 to 999999, and a list without elements that has to have one.
/// Of a frame of the GSS-API (RFC 2743, 3.1) they are those of the message in it, by the row that the mechanism and the token id say; their places are in
/// the octets that were given.
///
/// None of a kind that has no row in the table of `krb_schema`, of a frame of any other message, and of octets that are no element of the row. The only
/// error is an allocation failure.
pub fn broken_rules_of(alloc: Global, kind: Kind, octets: &[u8]) -> Result<Vec<Item>, AllocError>
    ensures { IfOk result (λ broken. AreBrokenOf kind octets.now broken.items) }
{
    if is_frame(kind, octets) {
        broken_in_frame(alloc, octets)
    } else {
        broken_by_row(alloc, kind, octets)
    }
}

//! The calls.

ghost use Rattle.std.specs.Prelude.{◌≡◌, map, MatchBool};
ghost use Rattle.krb_c_calls.specs.Handing.{ArePut, IsAnswered};
ghost use Rattle.krb_c_calls.specs.Items.{HoldsNumber, IsItemAnswer, IsItemNumber, IsItemsAnswer, IsNameOf, RefusesName, record_of};

use crate::call_error::{CallError, DONE, ROOM};
use crate::handing::put;
use crate::items::numbers::content_number;
use crate::items::record::{ItemRecord, NO_ITEM, record_of};
use crate::items::walks::{found, walked};
use krb_schema::{Form, Item, Leaf, content_of, name_of_number};
use std::alloc::Global;

/// Puts the items to the front of the caller's, if there is room.
fn put_items(found: &[Item], items: &mut [ItemRecord], count: &mut usize) -> u32
    ensures { ArePut (map record_of found.now) items.old items.new count.new result }
{
    *count = found.len();
    if found.len() > items.len() {
        return ROOM;
    }
    'items: for n in 0..found.len() {
        items[n] = record_of(found[n]);
    }
    DONE
}

/// All items of octets, which are to be one element of the type that its standard calls so, as `AS-REQ`, `EncTicketPart` or `KDC-PROXY-MESSAGE`: in the
/// order of the octets, a node where it begins and where it ends.
///
/// Status 0 where they are at the front of `items`, and `count` says how many; 1 where they are `count`, and more than `items` has room for, which is as it
/// was. Else `count` is 0: 3 where no type has the name; 2, 9, 10, 11 or 22 of the first error of the octets from the left, and `offset` is how many octets stand before it.
pub fn items(
    alloc: Global,
    type_name: &[u8],
    octets: &[u8],
    items: &mut [ItemRecord],
    count: &mut usize,
    offset: &mut usize,
) -> u32
    ensures { IsItemsAnswer type_name.now octets.now items.old items.new count.new offset.new result }
{
    match walked(alloc, type_name, octets) {
        Ok(found) => {
            *offset = 0;
            put_items(&found, items, count)
        }
        Err(refused) => {
            *count = 0;
            *offset = refused.offset;
            refused.refusal.status()
        }
    }
}

/// The name that items of this number have. Status 0 where it is handed out, 1 where it has more than `out`; 3 where no name has the number.
pub fn item_name(number: u32, out: &mut [u8], size: &mut usize) -> u32
    ensures { IsAnswered (IsNameOf number) (RefusesName number) out.old out.new size.new result }
{
    match name_of_number(number as usize) {
        Some(name) => put(name.as_bytes(), out, size),
        None => {
            *size = 0;
            CallError::Number.status()
        }
    }
}

/// The item that a path leads to, as `req-body.sname.name-string[1]`, of octets that `items` takes: of a field or an element its own, and not that of what
/// holds it alone. The empty path leads to the whole.
///
/// Status 0 where `item` is it. Else `item` is all zeros: what `items` answers to such octets; 3 of what is no path; 20 where there is no such field or element.
pub fn find(
    alloc: Global,
    type_name: &[u8],
    path: &[u8],
    octets: &[u8],
    item: &mut ItemRecord,
) -> u32
    ensures { IsItemAnswer type_name.now path.now octets.now item.new result }
{
    match found(alloc, type_name, path, octets) {
        Ok(it) => {
            *item = record_of(it);
            DONE
        }
        Err(refusal) => {
            *item = NO_ITEM;
            refusal.status()
        }
    }
}

/// Whether an item is an INTEGER.
fn holds_number(form: Form) -> bool
    ensures { MatchBool result (HoldsNumber form) (HoldsNumber form → ⊥) }
{
    match form {
        Form::Leaf(leaf) => match leaf {
            Leaf::Integer | Leaf::Unsigned | Leaf::Number(_) | Leaf::Microseconds => true,
            Leaf::Flags
            | Leaf::Bits
            | Leaf::Text
            | Leaf::Component
            | Leaf::Time
            | Leaf::Octets
            | Leaf::Secret
            | Leaf::Cipher
            | Leaf::Truth
            | Leaf::Identifier
            | Leaf::Any => false,
        },
        Form::Begin(_) | Form::End(_) => false,
    }
}

/// The number of the item that a path leads to.
///
/// Status 0 where `number` is it. Else `number` is 0: what `find` answers; 3 where the item is no INTEGER; 21 where 64 bits do not hold it.
pub fn find_number(
    alloc: Global,
    type_name: &[u8],
    path: &[u8],
    octets: &[u8],
    number: &mut i64,
) -> u32
    ensures { IsItemNumber type_name.now path.now octets.now number.new result }
{
    *number = 0;
    let item = match found(alloc, type_name, path, octets) {
        Ok(item) => item,
        Err(refusal) => return refusal.status(),
    };
    if !holds_number(item.form) {
        return CallError::Number.status();
    }
    content_number(alloc, content_of(octets, item), number)
}

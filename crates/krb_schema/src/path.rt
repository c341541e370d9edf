//! The item that a path leads to, as `req-body.sname.name-string[1]` or `tickets[0].enc-part.cipher`: names of fields as their standard spells them, with `.`
//! between, and `[n]` for the element n of a list, counted from 0.

ghost use Rattle.std.specs.Prelude.{◌≡◌, ◌+◌, ◌^◌, ◌<◌, ◌≤◌, length, None, Some, IfSome, MatchOption, MatchResult};
ghost use Rattle.krb_schema.specs.Paths.{IsFound, RefusesPath, closed_size, digits_size, element_of, field_of, is_child, is_digit, is_end, is_of_name, is_tag, is_wrap, item_of, leads, led, name_size, named, nth, number_of, own, step_into, step_size, untagged};

use crate::item::{Form, Item, Node};
use thiserror::Error;

/// How many steps a path has at most: as many as there are levels.
const STEPS: u8 = 64;

/// Why a path leads to no item.
#[derive(Clone, Copy, PartialEq, Eq, Debug, Drop, Error)]
pub enum PathError {
    /// It is no path: a name or a number is empty, a bracket is not closed, or it has more than 64 steps.
    #[error("no path")]
    NoPath,
    /// There is no such field or element.
    #[error("no such field")]
    Absent,
}

/// Whether what holds one element alone begins: an explicit tag, or an OCTET STRING.
fn is_wrap(form: Form) -> bool
    ensures { result ≡ is_wrap form }
{
    match form {
        Form::Begin(node) => match node {
            Node::Wrap => true,
            Node::Struct | Node::List | Node::FilledList => false,
        },
        Form::Leaf(_) | Form::End(_) => false,
    }
}

fn is_end(form: Form) -> bool
    ensures { result ≡ is_end form }
{
    match form {
        Form::End(_) => true,
        Form::Leaf(_) | Form::Begin(_) => false,
    }
}

/// Whether an element begins one deeper.
fn is_child(depth: u8, item: Item) -> bool
    ensures { result ≡ is_child depth item }
{
    item.depth.saturating_sub(depth) == 1 && !is_end(item.form)
}

/// Those from the one on that has an element's elements.
fn own(items: &[Item]) -> &[Item]
    ensures { result.now ≡ own items.now }
{
    let mut rest = items;
    'items: while let Some((item, behind)) = rest.split_first() {
        if !is_wrap(item.form) {
            return rest;
        }
        rest = behind;
    }
    rest
}

/// Whether an explicit tag begins.
fn is_tag(item: Item) -> bool
    ensures { result ≡ is_tag item }
{
    is_wrap(item.form) && item.tag != 4
}

/// Those from the first on that is no explicit tag.
fn untagged(items: &[Item]) -> &[Item]
    ensures { result.now ≡ untagged items.now }
{
    let mut rest = items;
    'items: while let Some((item, behind)) = rest.split_first() {
        if !is_tag(*item) {
            return rest;
        }
        rest = behind;
    }
    rest
}

/// Behind the item of a node at this depth: those from its first field of this name on; none where the node ends before.
fn named<'a>(depth: u8, name: &[u8], items: &'a [Item]) -> &'a [Item]
    ensures { result.now ≡ named depth name.now items.now }
{
    let mut rest = items;
    'items: while let Some((item, behind)) = rest.split_first() {
        if item.depth <= depth {
            return &[];
        }
        if is_child(depth, *item) && item.name.text.as_bytes() == name {
            return rest;
        }
        rest = behind;
    }
    rest
}

/// Likewise from its element n on.
fn nth(depth: u8, n: usize, items: &[Item]) -> &[Item]
    ensures { result.now ≡ nth depth n items.now }
{
    let mut left = n;
    let mut rest = items;
    'items: while let Some((item, behind)) = rest.split_first() {
        if item.depth <= depth {
            return &[];
        }
        if is_child(depth, *item) {
            if left == 0 {
                return rest;
            }
            left -= 1;
        }
        rest = behind;
    }
    rest
}

fn field_of<'a>(name: &[u8], items: &'a [Item]) -> &'a [Item]
    ensures { result.now ≡ field_of name.now items.now }
{
    match own(items).split_first() {
        Some((item, behind)) => named(item.depth, name, behind),
        None => &[],
    }
}

fn element_of(n: usize, items: &[Item]) -> &[Item]
    ensures { result.now ≡ element_of n items.now }
{
    match own(items).split_first() {
        Some((item, behind)) => nth(item.depth, n, behind),
        None => &[],
    }
}

/// Whether it is an octet of a name.
fn is_of_name(octet: u8) -> bool
    ensures { result ≡ is_of_name octet }
{
    octet != b'.' && octet != b'[' && octet != b']'
}

fn is_digit(octet: u8) -> bool
    ensures { result ≡ is_digit octet }
{
    b'0' <= octet && octet <= b'9'
}

/// How many octets at the front of a text are a name.
#[tactic(auto, using(crate::proofs::PathSizes::prefix_within))]
fn name_size(text: &[u8]) -> usize
    ensures size { result ≡ name_size text.now }
    ensures within { result ≤ length text.now }
{
    text.iter().take_while(|octet| is_of_name(**octet)).count()
}

/// How many octets at the front of a text are decimal digits.
#[tactic(auto, using(crate::proofs::PathSizes::prefix_within))]
fn digits_size(text: &[u8]) -> usize
    ensures size { result ≡ digits_size text.now }
    ensures within { result ≤ length text.now }
{
    text.iter().take_while(|octet| is_digit(**octet)).count()
}

/// The number that decimal digits are; one past the largest `usize` is that.
fn number_of(digits: &[u8]) -> usize
    ensures { result ≡ number_of digits.now }
{
    let mut number: usize = 0;
    let mut rest = digits;
    'digits: while let Some((digit, behind)) = rest.split_first() {
        number = number
            .saturating_mul(10)
            .saturating_add(digit.saturating_sub(48) as usize);
        rest = behind;
    }
    number
}

/// How many octets a number and `]` have, if it stands in brackets.
fn closed_size(digits: usize, behind: &[u8]) -> Option<usize>
    requires { digits + length behind.now < 2 ^ 64 }
    ensures size { result ≡ closed_size digits behind.now }
    ensures within { IfSome result (λ size. size ≤ digits + length behind.now) }
{
    match behind.split_first() {
        Some((octet, _)) if *octet == b']' && 0 < digits => Some(digits + 1),
        _ => None,
    }
}

/// How many octets of a step stand behind its first; `None` where it is no step.
fn step_size(mark: u8, text: &[u8]) -> Option<usize>
    ensures size { result ≡ step_size mark text.now }
    ensures within { IfSome result (λ size. size ≤ length text.now) }
{
    if mark == b'.' {
        let size = name_size(text);
        if 0 < size { Some(size) } else { None }
    } else if mark == b'[' {
        let size = digits_size(text);
        closed_size(size, &text[size..])
    } else {
        None
    }
}

/// Where a step leads from elements.
fn step_into<'a>(mark: u8, text: &[u8], items: &'a [Item]) -> &'a [Item]
    ensures { result.now ≡ step_into mark text.now items.now }
{
    if mark == b'.' {
        field_of(&text[..name_size(text)], items)
    } else {
        element_of(number_of(&text[..digits_size(text)]), items)
    }
}

/// The items from those on to which so many steps at most lead; `None` where the text is no such steps.
fn led<'a>(levels: u8, text: &[u8], items: &'a [Item]) -> Option<&'a [Item]>
    ensures { MatchOption result (led levels text.now items.now ≡ None) (λ found. led levels text.now items.now ≡ Some found.now) }
{
    let Some((mark, behind)) = text.split_first() else {
        return Some(items);
    };
    if levels == 0 {
        return None;
    }
    let size = step_size(*mark, behind)?;
    led(levels - 1, &behind[size..], step_into(*mark, behind, items))
}

/// The items from those on to which a path leads, whose first name has no `.` before it.
fn leads<'a>(path: &[u8], items: &'a [Item]) -> Option<&'a [Item]>
    ensures { MatchOption result (leads path.now items.now ≡ None) (λ found. leads path.now items.now ≡ Some found.now) }
{
    match path.split_first() {
        None => Some(items),
        Some((first, _)) if *first == b'[' => led(STEPS, path, items),
        Some(_) => {
            let size = step_size(b'.', path)?;
            led(STEPS - 1, &path[size..], step_into(b'.', path, items))
        }
    }
}

/// The item that stands at these; `None` where there is none.
fn item_of(items: &[Item]) -> Option<Item>
    ensures { result ≡ item_of items.now }
{
    match untagged(items).split_first() {
        Some((item, _)) => Some(*item),
        None => None,
    }
}

/// The item that a path leads to among those that `items_of` answers; the empty path leads to the whole. A field or an element of a list has the item
/// of what stands in its explicit tags. An OCTET STRING that holds an element has its own, and the path goes on to the fields of what it holds.
///
/// `Absent` where there is no such field or element, `NoPath` where the text is no path.
pub fn find(items: &[Item], path: &[u8]) -> Result<Item, PathError>
    ensures { MatchResult result (λ item. IsFound path.now items.now item) (λ error. RefusesPath path.now items.now error) }
{
    let Some(found) = leads(path, items) else {
        return Err(PathError::NoPath);
    };
    match item_of(found) {
        Some(item) => Ok(item),
        None => Err(PathError::Absent),
    }
}

//! Rules of standards that values may break which are legal DER.

ghost use Rattle.std.specs.Prelude.{◌≡◌, IfOk, MatchBool, take, drop};
ghost use Rattle.krb_schema.specs.Rules.{AreBroken, IsMicroseconds, Obeys, content_of, number_content};

use crate::item::{Form, Item, Node};
use crate::shape::Leaf;
use std::alloc::{AllocError, Global};

/// What stands in octets at the place of an item: its content, of octets that it is of.
#[tactic(auto, using(crate::proofs::Contents::none_behind, crate::proofs::Contents::all_taken))]
pub fn content_of(octets: &[u8], item: Item) -> &[u8]
    ensures { result.now ≡ content_of octets.now item }
{
    if octets.len() < item.offset {
        return &octets[octets.len()..];
    }
    let behind = &octets[item.offset..];
    if behind.len() < item.size {
        return behind;
    }
    &behind[..item.size]
}

/// Whether a content is that of the INTEGER of this number.
fn is_number(number: u8, content: &[u8]) -> bool
    ensures { MatchBool result (content.now ≡ number_content number) (content.now ≡ number_content number → ⊥) }
{
    if number < 128 {
        content == [number].as_slice()
    } else {
        content == [0, number].as_slice()
    }
}

/// Whether a content is that of an INTEGER from 0 to 999999.
fn is_microseconds(content: &[u8]) -> bool
    ensures { MatchBool result (IsMicroseconds content.now) (IsMicroseconds content.now → ⊥) }
{
    match content {
        [a] => *a < 128,
        [a, b] => *a < 128,
        [a, b, c] => (*a as u32 * 256 + *b as u32) * 256 + (*c as u32) < 1_000_000,
        _ => false,
    }
}

/// Whether an item of these octets obeys the rule of its standard.
pub fn obeys(octets: &[u8], item: Item) -> bool
    ensures { MatchBool result (Obeys octets.now item) (Obeys octets.now item → ⊥) }
{
    match item.form {
        Form::Leaf(Leaf::Number(number)) => is_number(number, content_of(octets, item)),
        Form::Leaf(Leaf::Microseconds) => is_microseconds(content_of(octets, item)),
        Form::Begin(Node::FilledList) => item.size != 0,
        _ => true,
    }
}

/// The items of octets that break the rule of their standard, in order: a number that it fixes and that is another (pvno, msg-type),
/// microseconds that are not from 0 to 999999, and a list without elements that has to have one. `AllocError` where an allocation fails.
pub fn broken_rules(alloc: Global, octets: &[u8], items: &[Item]) -> Result<Vec<Item>, AllocError>
    ensures { IfOk result (λ broken. AreBroken octets.now items.now broken.items) }
{
    let mut broken = Vec::new(alloc);
    let mut passed = 0;
    'items: while passed < items.len() {
        let item = items[passed];
        if !obeys(octets, item) {
            broken.push(item)?;
        }
        passed += 1;
    }
    Ok(broken)
}

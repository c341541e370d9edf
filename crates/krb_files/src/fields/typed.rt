//! Octets behind the number of their type.

ghost use Rattle.std.specs.Prelude.{◌≡◌, ◌↔◌, IsTrue};
ghost use Rattle.std.specs.Iterator.{YieldsFirst, item_count};
ghost use Rattle.krb_files.specs.FieldReading.{Gives, list_at, shown_list, size_of, typed_at as typed_octets_at, typed_list_at as typed_octets_list_at};
ghost use Rattle.krb_files.specs.FieldWritten.{FitsTyped};

use crate::fields::error::FieldError;
use crate::fields::number::{LengthSize, counted_at, u16_at, u32_at};
use crate::fields::writing::fits;
use std::marker::Model;

/// Octets and the number of their type.
#[derive(Drop)]
pub struct TypedOctets<'a> {
    kind: u16,
    octets: &'a [u8],
}

impl<'a> Model for TypedOctets<'a> {
    ghost use Rattle.std.specs.Prelude.{◌<◌, ◌^◌};
    ghost use Rattle.krb_files.specs.FieldReading.{Typed};

    ghost Value = { Typed };

    ghost view = { λ t. record { kind = t.kind; octets = t.octets.now } };

    ghost invariant = { λ t. t.kind < 2 ^ 16 };
}

impl<'a> TypedOctets<'a> {
    /// Octets of this type.
    pub fn new(kind: u16, octets: &'a [u8]) -> Self
        ensures { result ≡ record { kind = kind; octets = octets.now } }
    {
        TypedOctets { kind, octets }
    }

    /// The number of the type.
    pub fn kind(&self) -> u16
        ensures { result ≡ self.now.kind }
    {
        self.kind
    }

    /// The octets.
    pub fn octets(&self) -> &'a [u8]
        ensures { result.now ≡ self.now.octets }
    {
        self.octets
    }

    /// Whether the length of the octets has a place in a field of this size.
    pub fn fits(&self, size: LengthSize) -> bool
        ensures { IsTrue result ↔ FitsTyped (size_of size) self.now }
    {
        fits(size, self.octets.len())
    }
}

/// Octets with their types, one after the other. An iterator over them; a contract sees the list of those that are left.
#[derive(Drop)]
pub struct TypedListView<'a> {
    count: u32,
    octets: &'a [u8],
}

impl<'a> Model for TypedListView<'a> {
    ghost use Rattle.std.specs.Prelude.{List};
    ghost use Rattle.krb_files.specs.FieldReading.{Typed};

    ghost Value = { List Typed };

    ghost use Rattle.krb_files.specs.FieldReading.{shown_list, typed_at};

    ghost view = { λ t. shown_list (typed_at 4) t.count t.octets.now };
}

impl<'a> TypedListView<'a> {
    /// The same again, from those that are left.
    pub fn again(&self) -> TypedListView<'a>
        ensures { result ≡ self.now }
    {
        TypedListView {
            count: self.count,
            octets: self.octets,
        }
    }
}

impl<'a> Iterator for TypedListView<'a> {
    type Item = TypedOctets<'a>;

    ghost next_gives = { YieldsFirst (λ left. left) };

    ghost remaining = { item_count (λ left. left) };

    /// The next octets.
    fn next(&mut self) -> Option<TypedOctets<'a>> {
        if self.count == 0 {
            return None;
        }
        match typed_at(LengthSize::Four, self.octets) {
            Ok((typed, rest)) => {
                self.count -= 1;
                self.octets = rest;
                Some(typed)
            }
            Err(_) => None,
        }
    }
}

/// The octets behind a type of 16 bits and a length, and the octets after them. `Truncated` where the octets end inside these
/// numbers, `LengthPastEnd` where the length says more octets than there are after it.
pub fn typed_at(size: LengthSize, octets: &[u8]) -> Result<(TypedOctets<'_>, &[u8]), FieldError>
    ensures { Gives (λ x. (x.0, x.1.now)) result (typed_octets_at (size_of size) octets.now) }
{
    let (kind, rest) = u16_at(octets)?;
    let (octets, rest) = counted_at(size, rest)?;
    Ok((TypedOctets { kind, octets }, rest))
}

/// The octets after so many with a type each.
fn after_typed(count: u32, octets: &[u8]) -> Result<&[u8], FieldError>
    ensures { Gives (λ after. (shown_list (typed_octets_at 4) count octets.now, after.now)) result (list_at (typed_octets_at 4) count octets.now) }
{
    let mut rest = octets;
    'typed: for _ in 0..count {
        let (_, after) = typed_at(LengthSize::Four, rest)?;
        rest = after;
    }
    Ok(rest)
}

/// A list behind a count of 32 bits, and the octets after it: each element is octets behind a type of 16 bits and a length of 32 bits.
///
/// The first error is returned: `CountPastEnd` where the count says more elements than there are octets after it, so that what it
/// claims costs nothing, and else as `typed_at`.
#[tactic(auto, unfolding(crate::specs::FieldReading::typed_list_at))]
pub fn typed_list_at(octets: &[u8]) -> Result<(TypedListView<'_>, &[u8]), FieldError>
    ensures { Gives (λ x. (x.0, x.1.now)) result (typed_octets_list_at octets.now) }
{
    let (count, rest) = u32_at(octets)?;
    if rest.len() < count as usize {
        return Err(FieldError::CountPastEnd);
    }
    let after = after_typed(count, rest)?;
    let list = TypedListView {
        count,
        octets: rest,
    };
    Ok((list, after))
}

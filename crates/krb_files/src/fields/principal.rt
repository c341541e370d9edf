//! Names: a count of components, a realm, and the components.

ghost use Rattle.std.specs.Prelude.{◌≡◌, map};
ghost use Rattle.std.specs.Iterator.{YieldsFirstRef, item_count};
ghost use Rattle.std.specs.Str.{bytes_eq};
ghost use Rattle.std.specs.Cmp.Lexicographic.{pointwise};
ghost use Rattle.krb_files.specs.Principals.{principal_of, same_principal};
ghost use Rattle.krb_files.specs.FieldReading.{Gives, counted_list_at, principal_at as principal_fields_at, components_of, size_of};

use crate::fields::error::FieldError;
use crate::fields::number::{LengthSize, counted_at, length_at};
use crate::fields::writing::PrincipalParts;
use std::marker::Model;

/// Counted octets, one after the other. An iterator over them; a contract sees the list of those that are left.
#[derive(Drop)]
pub struct ComponentsView<'a> {
    size: LengthSize,
    count: u32,
    octets: &'a [u8],
}

impl<'a> Model for ComponentsView<'a> {
    ghost use Rattle.std.specs.Prelude.{List, ℕ};
    ghost use Rattle.std.specs.Coded.{coded_ℕ, coded_list};

    ghost Value = { List (List ℕ) };

    ghost use Rattle.krb_files.specs.FieldReading.{components_of, size_of};

    ghost view = { λ p. components_of (size_of p.size) p.count p.octets.now };
}

impl<'a> ComponentsView<'a> {
    /// The same components again, from those that are left.
    pub fn again(&self) -> ComponentsView<'a>
        ensures { result ≡ self.now }
    {
        ComponentsView {
            size: self.size,
            count: self.count,
            octets: self.octets,
        }
    }
}

impl<'a> Iterator for ComponentsView<'a> {
    type Item = &'a [u8];

    ghost next_gives = { YieldsFirstRef (λ left. left) };

    ghost remaining = { item_count (λ left. left) };

    /// The next component.
    fn next(&mut self) -> Option<&'a [u8]> {
        if self.count == 0 {
            return None;
        }
        match counted_at(self.size, self.octets) {
            Ok((component, rest)) => {
                self.count -= 1;
                self.octets = rest;
                Some(component)
            }
            Err(_) => None,
        }
    }
}

/// A realm and the components of a principal: slices of the caller's octets.
#[derive(Drop)]
pub struct PrincipalView<'a> {
    realm: &'a [u8],
    components: ComponentsView<'a>,
}

impl<'a> Model for PrincipalView<'a> {
    ghost use Rattle.krb_files.specs.FieldReading.{Principal};

    ghost Value = { Principal };

    ghost view = { λ n. record { realm = n.realm.now; components = n.components } };
}

impl<'a> PrincipalView<'a> {
    /// The realm's octets.
    pub fn realm(&self) -> &'a [u8]
        ensures { result.now ≡ self.now.realm }
    {
        self.realm
    }

    /// The components of the principal, in their order.
    pub fn components(&self) -> ComponentsView<'a>
        ensures { result ≡ self.now.components }
    {
        self.components.again()
    }

    /// The same principal again.
    pub fn again(&self) -> PrincipalView<'a>
        ensures { result ≡ self.now }
    {
        PrincipalView {
            realm: self.realm,
            components: self.components.again(),
        }
    }

    /// Whether this is the same principal: the same realm and components, octet by octet.
    pub fn is_same(&self, principal: &PrincipalParts) -> bool
        ensures { result ≡ same_principal self.now (principal_of principal.now) }
    {
        self.realm == principal.realm && has_components(&self.components, principal.components)
    }
}

/// Whether the components are these, in this order.
fn has_components(name: &ComponentsView, parts: &[&[u8]]) -> bool
    ensures { result ≡ pointwise bytes_eq name.now (map (λ p. p.now) parts.now) }
{
    let mut components = name.again();
    'parts: for part in parts {
        match components.next() {
            Some(component) => {
                if component != *part {
                    return false;
                }
            }
            None => return false,
        }
    }
    components.next().is_none()
}

/// The octets after so many counted octets.
fn after_components(size: LengthSize, count: u32, octets: &[u8]) -> Result<&[u8], FieldError>
    ensures { Gives (λ after. (components_of (size_of size) count octets.now, after.now)) result (counted_list_at (size_of size) count octets.now) }
{
    let mut rest = octets;
    'components: for _ in 0..count {
        let (_, after) = counted_at(size, rest)?;
        rest = after;
    }
    Ok(rest)
}

/// The principal at the front of the octets, and the octets after it: how many components it has, the realm, and the components, each of these
/// octets behind a length.
///
/// The first error is returned: `Truncated` where the octets end inside the count or a length, `LengthPastEnd` where a length says
/// more octets than there are after it, and `CountPastEnd` where the count says more components than there are octets after the realm,
/// so that what a count claims costs nothing.
#[tactic(auto, unfolding(crate::specs::FieldReading::principal_at))]
pub fn principal_at(
    size: LengthSize,
    octets: &[u8],
) -> Result<(PrincipalView<'_>, &[u8]), FieldError>
    ensures { Gives (λ x. (x.0, x.1.now)) result (principal_fields_at (size_of size) octets.now) }
{
    let (count, rest) = length_at(size, octets)?;
    let (realm, rest) = counted_at(size, rest)?;
    if rest.len() < count as usize {
        return Err(FieldError::CountPastEnd);
    }
    let after = after_components(size, count, rest)?;
    let components = ComponentsView {
        size,
        count,
        octets: rest,
    };
    Ok((PrincipalView { realm, components }, after))
}

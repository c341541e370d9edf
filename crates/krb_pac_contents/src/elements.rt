//! The elements of arrays, one at a time.

ghost use Rattle.std.specs.Prelude.{◌≡◌, ◌*◌, ◌/◌, ◌≤◌, length};
ghost use Rattle.krb_pac_contents.specs.Elements.{memberships, sids_of};
ghost use Rattle.std.specs.Iterator.{YieldsFirst, item_count};

use crate::numbers::u32_at;
use crate::sid::{SidView, sid};
use std::marker::Model;

/// A group of an account (MS-PAC 2.2.2, GROUP_MEMBERSHIP).
#[derive(Clone, Copy, PartialEq, Eq)]
pub struct Membership {
    /// The relative identifier of the group, in the domain of the account, or in that of the resource groups.
    pub relative_id: u32,
    /// SE_GROUP_MANDATORY (1), SE_GROUP_ENABLED_BY_DEFAULT (2), SE_GROUP_ENABLED (4), SE_GROUP_RESOURCE (0x20000000) and others.
    pub attributes: u32,
}

/// An extra identifier of an account (MS-PAC 2.2.1, KERB_SID_AND_ATTRIBUTES).
#[derive(Drop)]
pub struct SidAndAttributes<'a> {
    /// The identifier.
    pub sid: SidView<'a>,
    /// The attributes, as those of a `Membership`.
    pub attributes: u32,
}

/// An iterator over groups. A contract sees the list of those that are left.
#[derive(Drop)]
pub struct Memberships<'a> {
    left: usize,
    octets: &'a [u8],
}

impl<'a> Model for Memberships<'a> {
    ghost use Rattle.std.specs.Prelude.{◌*◌, ◌≤◌, List, length};
    ghost use Rattle.krb_pac_contents.specs.Elements.{memberships};
    ghost use Rattle.krb_pac_contents.specs.declared.elements.Membership.{Membership};

    ghost Value = { List Membership };

    ghost view = { λ it. memberships it.left it.octets.now };

    ghost invariant = { λ it. 8 * it.left ≤ length it.octets.now };
}

/// The groups that the octets are, 8 octets each.
pub(crate) fn groups_in(octets: &[u8]) -> Memberships<'_>
    ensures { result ≡ memberships (length octets.now / 8) octets.now }
{
    Memberships {
        left: octets.len() / 8,
        octets,
    }
}

impl<'a> Iterator for Memberships<'a> {
    type Item = Membership;

    ghost next_gives = { YieldsFirst (λ left. left) };

    ghost remaining = { item_count (λ left. left) };

    /// The next group.
    fn next(&mut self) -> Option<Membership> {
        if self.left == 0 {
            return None;
        }
        let membership = Membership {
            relative_id: u32_at(self.octets, 0),
            attributes: u32_at(self.octets, 4),
        };
        let (_, rest) = self.octets.split_at(8);
        self.left -= 1;
        self.octets = rest;
        Some(membership)
    }
}

/// An iterator over extra identifiers. A contract sees the list of those that are left.
#[derive(Drop)]
pub struct ExtraSids<'a> {
    left: usize,
    elements: &'a [u8],
    sids: &'a [u8],
}

impl<'a> Model for ExtraSids<'a> {
    ghost use Rattle.std.specs.Prelude.{◌*◌, ◌≤◌, List, length};
    ghost use Rattle.krb_pac_contents.specs.Elements.{sids_of};
    ghost use Rattle.krb_pac_contents.specs.declared.elements.SidAndAttributes.{SidAndAttributes};

    ghost Value = { List SidAndAttributes };

    ghost view = { λ it. sids_of it.left it.elements.now it.sids.now };

    ghost invariant = { λ it. 8 * it.left ≤ length it.elements.now };
}

/// The identifiers of elements of 8 octets each, which stand one after the other.
pub(crate) fn sids_in<'a>(elements: &'a [u8], sids: &'a [u8]) -> ExtraSids<'a>
    ensures { result ≡ sids_of (length elements.now / 8) elements.now sids.now }
{
    ExtraSids {
        left: elements.len() / 8,
        elements,
        sids,
    }
}

impl<'a> Iterator for ExtraSids<'a> {
    type Item = SidAndAttributes<'a>;

    ghost next_gives = { YieldsFirst (λ left. left) };

    ghost remaining = { item_count (λ left. left) };

    /// The next identifier.
    fn next(&mut self) -> Option<SidAndAttributes<'a>> {
        if self.left == 0 {
            return None;
        }
        let Ok(read) = sid(self.sids) else {
            return None;
        };
        let attributes = u32_at(self.elements, 4);
        let (_, rest) = self.elements.split_at(8);
        self.left -= 1;
        self.elements = rest;
        self.sids = read.rest;
        Some(SidAndAttributes {
            sid: read.sid,
            attributes,
        })
    }
}

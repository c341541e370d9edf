//! Where KERB_VALIDATION_INFO (MS-PAC 2.5) has what is told of it. Behind two headers and a pointer of 20 octets stands the
//! structure, in 216 octets, and behind it what its pointers point to, in the order of the pointers (C706, 14.3.12).

use super::{Places, push, u16_at, u32_at};
use krb_pac_contents::LogonView;
use std::alloc::{AllocError, Global};

/// How many octets stand before the structure.
const BEFORE: usize = 20;

/// How many octets stand before what its pointers point to.
const BEHIND: usize = 236;

/// Where what a pointer points to begins, and how many octets it has.
#[derive(Clone, Copy)]
struct Referent {
    offset: usize,
    size: usize,
}

/// Octets, and how many of them stand before what the next pointer points to.
#[derive(Drop)]
struct Referents<'a> {
    octets: &'a [u8],
    at: usize,
}

impl<'a> Referents<'a> {
    /// The characters of the string (MS-DTYP 2.3.10) behind whose lengths a pointer stands, in the structure behind so many octets: none
    /// where the pointer is null.
    fn string(&mut self, field: usize) -> Referent {
        let field = BEFORE.saturating_add(field);
        if u32_at(self.octets, field.saturating_add(4)) == 0 {
            return Referent {
                offset: field,
                size: 0,
            };
        }
        let size = u16_at(self.octets, field);
        let offset = self.at.saturating_add(12);
        self.at = offset
            .saturating_add(size)
            .saturating_add((4 - size % 4) % 4);
        Referent { offset, size }
    }

    /// The elements of 8 octets each of the array behind whose count a pointer stands, in the structure behind so many octets.
    fn array(&mut self, field: usize) -> Referent {
        let field = BEFORE.saturating_add(field);
        if u32_at(self.octets, field.saturating_add(4)) == 0 {
            return Referent {
                offset: field,
                size: 0,
            };
        }
        let offset = self.at.saturating_add(4);
        let size = u32_at(self.octets, field).saturating_mul(8);
        self.at = offset.saturating_add(size);
        Referent { offset, size }
    }

    /// The identifier (MS-DTYP 2.4.2) that stands next, behind its count of sub-authorities.
    fn sid(&mut self) -> Referent {
        let size = u32_at(self.octets, self.at)
            .saturating_mul(4)
            .saturating_add(8);
        let offset = self.at.saturating_add(4);
        self.at = offset.saturating_add(size);
        Referent { offset, size }
    }
}

/// Appends the place of what a pointer points to.
fn push_referent(places: &mut Places, referent: Referent) -> Result<(), AllocError> {
    push(places, referent.offset, referent.size)
}

/// Appends the place of a field of the structure.
fn push_fixed(places: &mut Places, field: usize, size: usize) -> Result<(), AllocError> {
    push(places, BEFORE.saturating_add(field), size)
}

/// The times that the structure begins with, and the names behind them.
fn push_user(places: &mut Places, referents: &mut Referents) -> Result<(), AllocError> {
    for field in [0, 8, 16, 24, 32, 40] {
        push_fixed(places, field, 8)?;
    }
    push_names(places, referents)
}

/// The names of the user and the paths.
fn push_names(places: &mut Places, referents: &mut Referents) -> Result<(), AllocError> {
    for field in [48, 56, 64, 72, 80, 88] {
        let name = referents.string(field);
        push_referent(places, name)?;
    }
    Ok(())
}

/// A list of groups (MS-PAC 2.2.2), of four octets of RelativeId and four of Attributes each.
fn push_groups(places: &mut Places, groups: Referent) -> Result<(), AllocError> {
    push_referent(places, groups)?;
    for i in 0..groups.size / 8 {
        let offset = groups.offset.saturating_add(i.saturating_mul(8));
        push(places, offset, 8)?;
        push(places, offset, 4)?;
        push(places, offset.saturating_add(4), 4)?;
        push(places, offset, 8)?;
    }
    push_referent(places, groups)
}

/// Counts of logons, and which account it is, in which groups.
fn push_counts(places: &mut Places, referents: &mut Referents) -> Result<(), AllocError> {
    push_fixed(places, 96, 2)?;
    push_fixed(places, 98, 2)?;
    push_fixed(places, 100, 4)?;
    push_fixed(places, 104, 4)?;
    let groups = referents.array(108);
    push_groups(places, groups)
}

/// The session, and the domain that the account is in.
fn push_domain(places: &mut Places, referents: &mut Referents) -> Result<(), AllocError> {
    push_fixed(places, 116, 4)?;
    push_fixed(places, 120, 16)?;
    let server = referents.string(136);
    push_referent(places, server)?;
    let domain = referents.string(144);
    push_referent(places, domain)?;
    let identifier = referents.sid();
    push_referent(places, identifier)
}

/// Flags of the account, and its last logons.
fn push_account(places: &mut Places) -> Result<(), AllocError> {
    push_fixed(places, 164, 4)?;
    push_fixed(places, 168, 4)?;
    push_fixed(places, 172, 8)?;
    push_fixed(places, 180, 8)?;
    push_fixed(places, 188, 4)
}

/// The extra identifiers (MS-PAC 2.2.1): pointers and Attributes of four octets each, and behind all of these the identifiers.
fn push_extra(places: &mut Places, referents: &mut Referents) -> Result<(), AllocError> {
    let elements = referents.array(196);
    push_referent(places, elements)?;
    for i in 0..elements.size / 8 {
        let offset = elements.offset.saturating_add(i.saturating_mul(8));
        let sid = referents.sid();
        push(places, offset, 8)?;
        push_referent(places, sid)?;
        push(places, offset.saturating_add(4), 4)?;
        push(places, offset, 8)?;
    }
    push_referent(places, elements)
}

/// The identifier of the resource groups' domain, if it is there, and the resource groups.
fn push_resources(
    places: &mut Places,
    logon: &LogonView,
    referents: &mut Referents,
) -> Result<(), AllocError> {
    if logon.resource_group_domain_sid().is_some() {
        let sid = referents.sid();
        push_referent(places, sid)?;
    }
    let groups = referents.array(208);
    push_groups(places, groups)
}

/// The places of the tokens of the logon information, in their order.
pub(crate) fn places_of_logon(
    alloc: Global,
    octets: &[u8],
    logon: &LogonView,
) -> Result<Places, AllocError> {
    let mut places = Vec::new(alloc);
    let mut referents = Referents { octets, at: BEHIND };
    push(&mut places, 0, octets.len())?;
    push_user(&mut places, &mut referents)?;
    push_counts(&mut places, &mut referents)?;
    push_domain(&mut places, &mut referents)?;
    push_account(&mut places)?;
    push_extra(&mut places, &mut referents)?;
    push_resources(&mut places, logon, &mut referents)?;
    push(&mut places, 0, octets.len())?;
    Ok(places)
}

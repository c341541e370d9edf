//! Security identifiers.

ghost use Rattle.std.specs.Prelude.{◌≡◌, ◌+◌, ◌*◌, ℕ, List, length, slice_index};
ghost use Rattle.std.specs.Iterator.{YieldsFirst, item_count};
ghost use Rattle.krb_pac_contents.specs.Steps.{Read};
ghost use Rattle.krb_pac_contents.specs.Sid.{packed_sid_of, whole_sid_of, sid_of, identifier_authority, sub_authorities};

use crate::error::LogonError;
use crate::numbers::u32_at;
use byteorder::{BigEndian, ByteOrder};
use std::marker::Model;

/// A security identifier (MS-DTYP 2.4.2.2, SID) over the octets that the caller holds. It takes no memory.
///
/// A contract sees its octets: revision, how many sub-authorities there are, six octets of the authority, and four for each
/// sub-authority.
#[derive(Drop)]
pub struct SidView<'a> {
    octets: &'a [u8],
}

impl<'a> Model for SidView<'a> {
    ghost Value = { List ℕ };

    ghost view = { λ s. s.octets.now };

    ghost invariant = { λ s. length s.octets.now ≡ 8 + 4 * slice_index s.octets.now 1 };
}

impl<'a> SidView<'a> {
    /// The security identifier that the octets are, all of them.
    ///
    /// `Truncated` where they end too early, `SidRevision` where the first is not 1, `SubAuthorityCount` where the second is above 15,
    /// `TrailingOctets` where there are more, in this order. It takes no memory.
    #[tactic(auto, unfolding(crate::specs::Sid::whole_sid_of))]
    pub fn new(octets: &'a [u8]) -> Result<Self, LogonError>
        ensures { result ≡ whole_sid_of octets.now }
    {
        let read = packed_sid(octets)?;
        if !read.rest.is_empty() {
            return Err(LogonError::TrailingOctets);
        }
        Ok(read.sid)
    }

    /// The octets of the identifier.
    pub fn octets(&self) -> &'a [u8]
        ensures { result.now ≡ self.now }
    {
        self.octets
    }

    /// The authority that issued the identifier, a number of 48 bits (MS-DTYP 2.4.1.1): 5 is that of Windows.
    pub fn identifier_authority(&self) -> u64
        ensures { result ≡ identifier_authority self.now }
    {
        let (_, authority) = self.octets.split_at(2);
        BigEndian::read_u48(authority)
    }

    /// The sub-authorities, at most 15 of an identifier that was read. The last is the relative identifier.
    pub fn sub_authorities(&self) -> SubAuthorities<'a>
        ensures { result ≡ sub_authorities self.now }
    {
        let (_, octets) = self.octets.split_at(8);
        SubAuthorities {
            left: usize::from(self.octets[1]),
            octets,
        }
    }

    /// The same identifier.
    pub(crate) fn again(&self) -> SidView<'a>
        ensures { result ≡ self.now }
    {
        SidView {
            octets: self.octets,
        }
    }
}

/// An iterator over the sub-authorities of an identifier. A contract sees the list of those that are left.
#[derive(Drop)]
pub struct SubAuthorities<'a> {
    left: usize,
    octets: &'a [u8],
}

impl<'a> Model for SubAuthorities<'a> {
    ghost use Rattle.std.specs.Prelude.{◌*◌, ◌≤◌, ℕ, List, length};
    ghost use Rattle.krb_pac_contents.specs.Numbers.{longs};

    ghost Value = { List ℕ };

    ghost view = { λ it. longs it.left it.octets.now };

    ghost invariant = { λ it. 4 * it.left ≤ length it.octets.now };
}

impl<'a> Iterator for SubAuthorities<'a> {
    type Item = u32;

    ghost next_gives = { YieldsFirst (λ left. left) };

    ghost remaining = { item_count (λ left. left) };

    /// The next sub-authority.
    fn next(&mut self) -> Option<u32> {
        if self.left == 0 {
            return None;
        }
        let number = u32_at(self.octets, 0);
        let (_, rest) = self.octets.split_at(4);
        self.left -= 1;
        self.octets = rest;
        Some(number)
    }
}

/// An identifier, and the octets after it.
#[derive(Drop)]
pub(crate) struct SidRead<'a> {
    pub(crate) sid: SidView<'a>,
    pub(crate) rest: &'a [u8],
}

impl<'a> Model for SidRead<'a> {
    ghost Value = { Read };

    ghost view = { λ s. record { octets = s.sid; rest = s.rest.now } };
}

/// The identifier that the octets begin with.
#[tactic(auto, unfolding(crate::specs::Sid::packed_sid_of))]
pub(crate) fn packed_sid(octets: &[u8]) -> Result<SidRead<'_>, LogonError>
    ensures { result ≡ packed_sid_of octets.now }
{
    if octets.len() < 8 {
        return Err(LogonError::Truncated);
    }
    if octets[0] != 1 {
        return Err(LogonError::SidRevision);
    }
    if octets[1] > 15 {
        return Err(LogonError::SubAuthorityCount);
    }
    let end = 8 + 4 * usize::from(octets[1]);
    if octets.len() < end {
        return Err(LogonError::Truncated);
    }
    Ok(SidRead {
        sid: SidView {
            octets: &octets[..end],
        },
        rest: &octets[end..],
    })
}

/// The identifier that a pointer points to, which its count of sub-authorities stands before.
#[tactic(auto, unfolding(crate::specs::Sid::sid_of))]
pub(crate) fn sid(octets: &[u8]) -> Result<SidRead<'_>, LogonError>
    ensures { result ≡ sid_of octets.now }
{
    if octets.len() < 12 {
        return Err(LogonError::Truncated);
    }
    if u32_at(octets, 0) != u32::from(octets[5]) {
        return Err(LogonError::SidConformance);
    }
    packed_sid(&octets[4..])
}

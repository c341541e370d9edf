//! The user's principal name and the domain's DNS name.

ghost use Rattle.std.specs.Prelude.{◌≡◌, ◌+◌, ◌≤◌, ℕ, List, [], length, unwrap_or};
ghost use Rattle.std.specs.Option.{option_copied};
ghost use Rattle.krb_pac_contents.specs.Upn.{UpnDns, named_of, name_of, sam_and_sid_of, upn_dns_of};

use crate::SidView;
use crate::buffers::attributes::requestor;
use crate::buffers::error::BufferError;
use crate::numbers::{u16_at, u32_at};
use std::marker::Model;

/// The user's principal name and the domain's DNS name (MS-PAC 2.10, UPN_DNS_INFO) over the octets that the caller holds.
#[derive(Drop)]
pub struct UpnDnsView<'a> {
    flags: u32,
    upn: Octets<'a>,
    dns_domain_name: Octets<'a>,
    sam_name: Option<Octets<'a>>,
    sid: Option<SidView<'a>>,
}

impl<'a> Model for UpnDnsView<'a> {
    ghost Value = { UpnDns };

    ghost view = { λ v. record { flags = v.flags; upn = v.upn; dns_domain_name = v.dns_domain_name; sam_name = v.sam_name; sid = v.sid } };
}

/// Octets that the caller holds.
#[derive(Drop)]
struct Octets<'a> {
    octets: &'a [u8],
}

impl<'a> Model for Octets<'a> {
    ghost Value = { List ℕ };

    ghost view = { λ o. o.octets.now };
}

impl<'a> UpnDnsView<'a> {
    /// The names that the octets hold.
    ///
    /// `Truncated` where the first 12 octets are not all there, or, with flag S, the first 20; `NameLength` where the length of a name is
    /// odd, `Range` where a name or the identifier is not within the octets, `Sid` of the identifier's error: the first in the order of
    /// the fields. Octets that nothing names are not looked at.
    #[tactic(auto, unfolding(crate::specs::Upn::upn_dns_of))]
    pub fn new(octets: &'a [u8]) -> Result<Self, BufferError>
        ensures { result ≡ upn_dns_of octets.now }
    {
        if octets.len() < 12 {
            return Err(BufferError::Truncated);
        }
        let upn = name(octets, 0)?;
        let dns_domain_name = name(octets, 4)?;
        sam_and_sid(octets, upn, dns_domain_name)
    }

    /// Flags: 1 where the principal name was made of the account's, 2 (S) where there are a SAM name and an identifier.
    pub fn flags(&self) -> u32
        ensures { result ≡ self.now.flags }
    {
        self.flags
    }

    /// The user's principal name, in UTF-16, little endian.
    pub fn upn(&self) -> &'a [u8]
        ensures { result.now ≡ self.now.upn }
    {
        self.upn.octets
    }

    /// The domain's DNS name, in UTF-16, little endian.
    pub fn dns_domain_name(&self) -> &'a [u8]
        ensures { result.now ≡ self.now.dns_domain_name }
    {
        self.dns_domain_name.octets
    }

    /// The SAM name, in UTF-16, little endian, with flag S; no octets without it, and then `sid` is `None`.
    pub fn sam_name(&self) -> &'a [u8]
        ensures { result.now ≡ unwrap_or self.now.sam_name [] }
    {
        match &self.sam_name {
            Some(name) => name.octets,
            None => &[],
        }
    }

    /// The identifier of the user, with flag S.
    pub fn sid(&self) -> Option<&SidView<'a>>
        ensures { option_copied result ≡ self.now.sid }
    {
        self.sid.as_ref()
    }
}

/// The octets that a length at a place, and the offset after it, name.
#[tactic(auto, unfolding(crate::specs::Upn::named_of))]
fn named(octets: &[u8], at: usize) -> Result<Octets<'_>, BufferError>
    requires { at + 4 ≤ length octets.now }
    ensures { result ≡ named_of octets.now at }
{
    let len = usize::from(u16_at(octets, at));
    let offset = usize::from(u16_at(octets, at + 2));
    if octets.len() < offset + len {
        return Err(BufferError::Range);
    }
    let (_, rest) = octets.split_at(offset);
    let (octets, _) = rest.split_at(len);
    Ok(Octets { octets })
}

/// A name of these octets.
#[tactic(auto, unfolding(crate::specs::Upn::name_of))]
fn name(octets: &[u8], at: usize) -> Result<Octets<'_>, BufferError>
    requires { at + 4 ≤ length octets.now }
    ensures { result ≡ name_of octets.now at }
{
    if u16_at(octets, at) % 2 != 0 {
        return Err(BufferError::NameLength);
    }
    named(octets, at)
}

/// The names, and with flag S the SAM name and the identifier.
#[tactic(auto, unfolding(crate::specs::Upn::sam_and_sid_of))]
fn sam_and_sid<'a>(
    octets: &'a [u8],
    upn: Octets<'a>,
    dns_domain_name: Octets<'a>,
) -> Result<UpnDnsView<'a>, BufferError>
    requires { 12 ≤ length octets.now }
    ensures { result ≡ sam_and_sid_of octets.now upn.entry dns_domain_name.entry }
{
    let flags = u32_at(octets, 8);
    if flags / 2 % 2 == 0 {
        return Ok(UpnDnsView {
            flags,
            upn,
            dns_domain_name,
            sam_name: None,
            sid: None,
        });
    }
    if octets.len() < 20 {
        return Err(BufferError::Truncated);
    }
    let sam_name = name(octets, 12)?;
    let sid_octets = named(octets, 16)?;
    let sid = requestor(sid_octets.octets)?;
    Ok(UpnDnsView {
        flags,
        upn,
        dns_domain_name,
        sam_name: Some(sam_name),
        sid: Some(sid),
    })
}

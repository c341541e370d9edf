//! The logon information over the octets that the caller holds.

ghost use Rattle.std.specs.Prelude.{◌≡◌, ◌≤◌, length, OnOk};
ghost use Rattle.krb_pac_contents.specs.Logon.{Names, Domain, Logon, header_of, names_of, domain_of, end_of, logon_of};
ghost use Rattle.krb_pac_contents.specs.Steps.{Read};

use crate::error::LogonError;
use crate::fixed::pointers;
use crate::numbers::{u16_at, u32_at};
use crate::referents::{
    ExtraSidsRead, MaybeSidRead, Part, array_referent, extra_sids_referent, resource_sid_referent,
    string_referent,
};
use crate::sid::{SidView, sid};
use std::marker::Model;

/// The six strings from EffectiveName on, and the octets after them.
#[derive(Drop)]
pub(crate) struct NamesRead<'a> {
    pub(crate) effective_name: &'a [u8],
    pub(crate) full_name: &'a [u8],
    pub(crate) logon_script: &'a [u8],
    pub(crate) profile_path: &'a [u8],
    pub(crate) home_directory: &'a [u8],
    pub(crate) home_directory_drive: &'a [u8],
    rest: &'a [u8],
}

impl<'a> Model for NamesRead<'a> {
    ghost Value = { Names };

    ghost view = { λ n. record { effective_name = n.effective_name.now; full_name = n.full_name.now; logon_script = n.logon_script.now; profile_path = n.profile_path.now; home_directory = n.home_directory.now; home_directory_drive = n.home_directory_drive.now; rest = n.rest.now } };
}

/// GroupIds, LogonServer, LogonDomainName, LogonDomainId, and the octets after them.
#[derive(Drop)]
pub(crate) struct DomainRead<'a> {
    pub(crate) groups: &'a [u8],
    pub(crate) logon_server: &'a [u8],
    pub(crate) logon_domain_name: &'a [u8],
    pub(crate) logon_domain_id: SidView<'a>,
    rest: &'a [u8],
}

impl<'a> Model for DomainRead<'a> {
    ghost Value = { Domain };

    ghost view = { λ d. record { groups = d.groups.now; logon_server = d.logon_server.now; logon_domain_name = d.logon_domain_name.now; logon_domain_id = d.logon_domain_id; rest = d.rest.now } };
}

/// The logon information of a PAC (MS-PAC 2.5, KERB_VALIDATION_INFO) over the octets that the caller holds. It takes no memory.
#[derive(Drop)]
pub struct LogonView<'a> {
    pub(crate) fixed: &'a [u8],
    pub(crate) names: NamesRead<'a>,
    pub(crate) domain: DomainRead<'a>,
    pub(crate) extra: ExtraSidsRead<'a>,
    pub(crate) resource: MaybeSidRead<'a>,
    pub(crate) resource_groups: Part<'a>,
}

impl<'a> Model for LogonView<'a> {
    ghost Value = { Logon };

    ghost view = { λ v. record { fixed = v.fixed.now; names = v.names; domain = v.domain; extra = v.extra; resource = v.resource; resource_groups = v.resource_groups } };

    ghost invariant = { λ v. length v.fixed.now ≡ 216 };
}

impl<'a> LogonView<'a> {
    /// The logon information that the octets are: all of one buffer of the type `KerbValidationInfo`.
    ///
    /// The first error is returned. The headers are looked at first, then whether the 216 octets of the structure are there, then its
    /// pointers, strings' lengths and counts in the order of its octets, and then what its pointers point to, in the same order. No count
    /// is believed: each is compared with the octets that are there before anything is done by it. No memory is taken, and the steps
    /// are at most as many as the octets.
    #[tactic(auto, unfolding(crate::specs::Logon::logon_of))]
    pub fn new(octets: &'a [u8]) -> Result<Self, LogonError>
        ensures { result ≡ logon_of octets.now }
    {
        header(octets)?;
        let (_, object) = octets.split_at(20);
        let (fixed, _) = object.split_at(216);
        let (_, rest) = octets.split_at(236);
        pointers(fixed)?;
        let names = names(fixed, rest)?;
        let domain = domain(fixed, names.rest)?;
        let extra = extra_sids_referent(fixed, domain.rest)?;
        let resource = resource_sid_referent(fixed, extra.rest)?;
        let groups = array_referent(fixed, 208, resource.rest)?;
        let resource_groups = padded_end(octets, groups)?;
        Ok(LogonView {
            fixed,
            names,
            domain,
            extra,
            resource,
            resource_groups,
        })
    }
}

/// The headers, and the pointer after them, which may not be null.
#[tactic(auto, unfolding(crate::specs::Logon::header_of))]
fn header(octets: &[u8]) -> Result<(), LogonError>
    ensures header { result ≡ header_of octets.now }
    ensures room { OnOk result (236 ≤ length octets.now) }
{
    if octets.len() < 16 {
        return Err(LogonError::Truncated);
    }
    if octets[0] != 1 {
        return Err(LogonError::Version);
    }
    if octets[1] != 0x10 {
        return Err(LogonError::Endianness);
    }
    if u16_at(octets, 2) != 8 {
        return Err(LogonError::HeaderLength);
    }
    if 16 + u32_at(octets, 8) as usize != octets.len() {
        return Err(LogonError::ObjectLength);
    }
    if octets.len() < 236 {
        return Err(LogonError::Truncated);
    }
    if u32_at(octets, 16) == 0 {
        return Err(LogonError::NullPointer);
    }
    Ok(())
}

#[tactic(auto, unfolding(crate::specs::Logon::names_of))]
fn names<'a>(fixed: &[u8], octets: &'a [u8]) -> Result<NamesRead<'a>, LogonError>
    requires { 216 ≤ length fixed.now }
    ensures { result ≡ names_of fixed.now octets.now }
{
    let effective_name = string_referent(fixed, 48, octets)?;
    let full_name = string_referent(fixed, 56, effective_name.rest)?;
    let logon_script = string_referent(fixed, 64, full_name.rest)?;
    let profile_path = string_referent(fixed, 72, logon_script.rest)?;
    let home_directory = string_referent(fixed, 80, profile_path.rest)?;
    let home_directory_drive = string_referent(fixed, 88, home_directory.rest)?;
    Ok(NamesRead {
        effective_name: effective_name.octets,
        full_name: full_name.octets,
        logon_script: logon_script.octets,
        profile_path: profile_path.octets,
        home_directory: home_directory.octets,
        home_directory_drive: home_directory_drive.octets,
        rest: home_directory_drive.rest,
    })
}

#[tactic(auto, unfolding(crate::specs::Logon::domain_of))]
fn domain<'a>(fixed: &[u8], octets: &'a [u8]) -> Result<DomainRead<'a>, LogonError>
    requires { 216 ≤ length fixed.now }
    ensures { result ≡ domain_of fixed.now octets.now }
{
    let groups = array_referent(fixed, 108, octets)?;
    let logon_server = string_referent(fixed, 136, groups.rest)?;
    let logon_domain_name = string_referent(fixed, 144, logon_server.rest)?;
    let logon_domain_id = sid(logon_domain_name.rest)?;
    Ok(DomainRead {
        groups: groups.octets,
        logon_server: logon_server.octets,
        logon_domain_name: logon_domain_name.octets,
        logon_domain_id: logon_domain_id.sid,
        rest: logon_domain_id.rest,
    })
}

/// The last part that was read, where only padding is after it, or nothing.
#[tactic(auto, unfolding(crate::specs::Logon::end_of))]
fn padded_end<'a>(octets: &[u8], last: Part<'a>) -> Result<Part<'a>, LogonError>
    ensures { result ≡ end_of octets.now last.entry }
{
    let used = octets.len().saturating_sub(last.rest.len());
    let padded = (used + 7) / 8 * 8;
    if !last.rest.is_empty() && octets.len() < padded {
        return Err(LogonError::Padding);
    }
    if padded < octets.len() {
        return Err(LogonError::TrailingOctets);
    }
    Ok(last)
}

//! What pointers point to.

ghost use Rattle.std.specs.Prelude.{◌≡◌, ◌+◌, ◌*◌, ◌^◌, ◌<◌, ◌≤◌, length, IfOk};
ghost use Rattle.std.specs.Result.{result_map_both};
ghost use Rattle.krb_pac_contents.specs.Referents.{string_of, string_at, array_of, array_at, element_pointers_of, after_sids, ExtraSids, extra_sids_of, extra_sids_at, MaybeSid, resource_sid_at};
ghost use Rattle.krb_pac_contents.specs.Steps.{Read};

use crate::error::LogonError;
use crate::fixed::needed_pointer;
use crate::numbers::{u16_at, u32_at};
use crate::sid::{SidView, sid};
use std::marker::Model;

/// Octets that were taken, and those after them.
#[derive(Drop)]
pub(crate) struct Part<'a> {
    pub(crate) octets: &'a [u8],
    pub(crate) rest: &'a [u8],
}

impl<'a> Model for Part<'a> {
    ghost Value = { Read };

    ghost view = { λ p. record { octets = p.octets.now; rest = p.rest.now } };
}

/// The characters of a string of this length and maximum length.
#[tactic(auto, unfolding(crate::specs::Referents::string_of))]
fn string(len: usize, max: usize, octets: &[u8]) -> Result<Part<'_>, LogonError>
    requires { len < 2 ^ 16 }
    ensures { result ≡ string_of len max octets.now }
{
    if octets.len() < 12 {
        return Err(LogonError::Truncated);
    }
    if u32_at(octets, 0) as usize != max / 2 {
        return Err(LogonError::MaximumCount);
    }
    if u32_at(octets, 4) != 0 {
        return Err(LogonError::Offset);
    }
    if u32_at(octets, 8) as usize != len / 2 {
        return Err(LogonError::ActualCount);
    }
    if octets.len() < 12 + len {
        return Err(LogonError::Truncated);
    }
    let padding = (4 - len % 4) % 4;
    if octets.len() < 12 + len + padding {
        return Err(LogonError::Padding);
    }
    let (_, octets) = octets.split_at(12);
    let (octets, rest) = octets.split_at(len);
    let (_, rest) = rest.split_at(padding);
    Ok(Part { octets, rest })
}

/// What the string at a place of the fixed part points to.
#[tactic(auto, unfolding(crate::specs::Referents::string_at))]
pub(crate) fn string_referent<'a>(
    fixed: &[u8],
    at: usize,
    octets: &'a [u8],
) -> Result<Part<'a>, LogonError>
    requires { at + 8 ≤ length fixed.now }
    ensures { result ≡ string_at fixed.now at octets.now }
{
    if u32_at(fixed, at + 4) == 0 {
        return Ok(Part {
            octets: &[],
            rest: octets,
        });
    }
    string(
        usize::from(u16_at(fixed, at)),
        usize::from(u16_at(fixed, at + 2)),
        octets,
    )
}

/// An array of so many elements of 8 octets.
#[tactic(auto, unfolding(crate::specs::Referents::array_of))]
fn array(count: usize, octets: &[u8]) -> Result<Part<'_>, LogonError>
    requires { count < 2 ^ 32 }
    ensures array { result ≡ array_of count octets.now }
    ensures size { IfOk result (λ a. length a.octets ≡ 8 * count) }
{
    if octets.len() < 4 {
        return Err(LogonError::Truncated);
    }
    if u32_at(octets, 0) as usize != count {
        return Err(LogonError::MaximumCount);
    }
    if octets.len() < 4 + 8 * count {
        return Err(LogonError::Truncated);
    }
    let (octets, rest) = octets[4..].split_at(8 * count);
    Ok(Part { octets, rest })
}

/// What the array at a place of the fixed part points to.
#[tactic(auto, unfolding(crate::specs::Referents::array_at))]
pub(crate) fn array_referent<'a>(
    fixed: &[u8],
    at: usize,
    octets: &'a [u8],
) -> Result<Part<'a>, LogonError>
    requires { at + 8 ≤ length fixed.now }
    ensures { result ≡ array_at fixed.now at octets.now }
{
    if u32_at(fixed, at + 4) == 0 {
        return Ok(Part {
            octets: &[],
            rest: octets,
        });
    }
    array(u32_at(fixed, at) as usize, octets)
}

/// The pointers that so many elements begin with.
fn element_pointers(count: usize, octets: &[u8]) -> Result<(), LogonError>
    requires { 8 * count ≤ length octets.now }
    ensures { result ≡ element_pointers_of count octets.now }
{
    let mut rest = octets;
    'elements: for n in 0..count {
        needed_pointer(rest, 0)?;
        (_, rest) = rest.split_at(8);
    }
    Ok(())
}

/// The octets after so many identifiers.
fn after(count: usize, octets: &[u8]) -> Result<&[u8], LogonError>
    ensures { after_sids count octets.now ≡ result_map_both (λ r. r.now) (λ e. e) result }
{
    let mut rest = octets;
    'sids: for n in 0..count {
        rest = sid(rest)?.rest;
    }
    Ok(rest)
}

/// The elements of ExtraSids, from where on their identifiers stand, and the octets after these.
#[derive(Drop)]
pub(crate) struct ExtraSidsRead<'a> {
    pub(crate) elements: &'a [u8],
    pub(crate) sids: &'a [u8],
    pub(crate) rest: &'a [u8],
}

impl<'a> Model for ExtraSidsRead<'a> {
    ghost Value = { ExtraSids };

    ghost view = { λ x. record { elements = x.elements.now; sids = x.sids.now; rest = x.rest.now } };
}

/// So many extra identifiers.
#[tactic(auto, unfolding(crate::specs::Referents::extra_sids_of))]
fn extra_sids(count: usize, octets: &[u8]) -> Result<ExtraSidsRead<'_>, LogonError>
    requires { count < 2 ^ 32 }
    ensures { result ≡ extra_sids_of count octets.now }
{
    let elements = array(count, octets)?;
    element_pointers(count, elements.octets)?;
    let rest = after(count, elements.rest)?;
    Ok(ExtraSidsRead {
        elements: elements.octets,
        sids: elements.rest,
        rest,
    })
}

/// What ExtraSids points to.
#[tactic(auto, unfolding(crate::specs::Referents::extra_sids_at))]
pub(crate) fn extra_sids_referent<'a>(
    fixed: &[u8],
    octets: &'a [u8],
) -> Result<ExtraSidsRead<'a>, LogonError>
    requires { 216 ≤ length fixed.now }
    ensures { result ≡ extra_sids_at fixed.now octets.now }
{
    if u32_at(fixed, 200) == 0 {
        return Ok(ExtraSidsRead {
            elements: &[],
            sids: &[],
            rest: octets,
        });
    }
    extra_sids(u32_at(fixed, 196) as usize, octets)
}

/// An identifier that may not be there, and the octets after it.
#[derive(Drop)]
pub(crate) struct MaybeSidRead<'a> {
    pub(crate) sid: Option<SidView<'a>>,
    pub(crate) rest: &'a [u8],
}

impl<'a> Model for MaybeSidRead<'a> {
    ghost Value = { MaybeSid };

    ghost view = { λ s. record { sid = s.sid; rest = s.rest.now } };
}

/// What ResourceGroupDomainSid points to.
#[tactic(auto, unfolding(crate::specs::Referents::resource_sid_at))]
pub(crate) fn resource_sid_referent<'a>(
    fixed: &[u8],
    octets: &'a [u8],
) -> Result<MaybeSidRead<'a>, LogonError>
    requires { 216 ≤ length fixed.now }
    ensures { result ≡ resource_sid_at fixed.now octets.now }
{
    if u32_at(fixed, 204) == 0 {
        return Ok(MaybeSidRead {
            sid: None,
            rest: octets,
        });
    }
    let read = sid(octets)?;
    Ok(MaybeSidRead {
        sid: Some(read.sid),
        rest: read.rest,
    })
}

//! Where what is told of the checksum of the GSS-API stands in it (RFC 4121, 4.1.1).

ghost use Rattle.std.specs.Prelude.{◌≡◌, ◌+◌, ◌≤◌, List, ◌++◌, Option, true, length, IfOk, OnOk};
ghost use Rattle.krb_message_fields.specs.declared.places.place.Place.{Place};
ghost use Rattle.krb_show_messages.specs.GssChecksum.{IsGssChecksum, dlgth};
ghost use Rattle.krb_show_messages.specs.Places.{exts_places, gss_checksum_places, places_behind_flags, rest_places};

use crate::gss_checksum::{delegated_length, delegates, is_gss_checksum};
use crate::places::places_of_octets;
use krb_show::{NoFormats, Place, place_at, places_by_row};
use std::alloc::{AllocError, Global};

/// Appends the place of Exts, the octets from an offset on, if there are any.
fn push_exts(octets: &[u8], at: usize, places: &mut Vec<Option<Place>>) -> Result<(), AllocError>
    requires { at ≤ length octets.now }
    ensures { OnOk result (places.new.items ≡ places.old.items ++ exts_places at (length octets.now)) }
{
    if at == octets.len() {
        return Ok(());
    }
    places.push(place_at(at, octets.len() - at))?;
    Ok(())
}

/// Appends the places of what those have that delegate.
fn push_delegation(
    alloc: Global,
    octets: &[u8],
    places: &mut Vec<Option<Place>>,
) -> Result<(), AllocError>
    requires { 28 + dlgth octets.now ≤ length octets.now }
    ensures { OnOk result ((rest : List (Option Place)) × places_behind_flags true octets.now rest × (places.new.items ≡ places.old.items ++ rest)) }
{
    let length = delegated_length(octets) as usize;
    let deleg = places_by_row::<NoFormats>(alloc, "KRB-CRED", 28, &octets[28..][..length])?;
    places.extend_from_slice(&[place_at(24, 2), place_at(26, 2)])?;
    places.extend_from_slice(&deleg)?;
    push_exts(octets, 28 + length, places)?;
    Ok(())
}

/// Appends the places of what stands behind Flags.
fn push_rest(
    alloc: Global,
    octets: &[u8],
    places: &mut Vec<Option<Place>>,
) -> Result<(), AllocError>
    requires { IsGssChecksum octets.now }
    ensures { OnOk result ((rest : List (Option Place)) × rest_places octets.now rest × (places.new.items ≡ places.old.items ++ rest)) }
{
    if delegates(octets) {
        return push_delegation(alloc, octets, places);
    }
    push_exts(octets, 24, places)
}

/// Where each token that `show_gss_checksum` appends for octets stands in these (RFC 4121, 4.1.1): Lgth in the octets from 0 on, Bnd
/// from 4, Flags from 20, DlgOpt from 24 and Dlgth from 26 on, the elements of Deleg behind 28 octets, and Exts behind Deleg or Flags.
/// Other octets are one token, and have one place. The only error is an allocation failure.
pub(crate) fn places_of_gss_checksum(
    alloc: Global,
    octets: &[u8],
) -> Result<Vec<Option<Place>>, AllocError>
    ensures { IfOk result (λ places. gss_checksum_places octets.now places.items) }
{
    if !is_gss_checksum(octets) {
        return places_of_octets(alloc, octets);
    }
    let all = place_at(0, octets.len());
    let mut places = Vec::new(alloc);
    places.extend_from_slice(&[all, place_at(0, 4), place_at(4, 16), place_at(20, 4)])?;
    push_rest(alloc, octets, &mut places)?;
    places.push(all)?;
    Ok(places)
}

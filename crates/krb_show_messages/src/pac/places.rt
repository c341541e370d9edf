//! Where what is told of a PAC stands in it (MS-PAC, 2.3 and 2.4).

ghost use Rattle.std.specs.Prelude.{◌≡◌, ◌+◌, ◌<◌, ◌^◌, ◌++◌, length, IfOk, OnOk};
ghost use Rattle.krb_pac.specs.Numbered.{NumberedPacIs};
ghost use Rattle.krb_show_messages.specs.Places.{buffer_places, directory_places, each_places, named_places, other_places, pac_places, plain_places};

use crate::pac::{buffers, is_plain};
use crate::places::places_of_octets;
use krb_pac::{NumberedBufferView, NumberedPacView};
use krb_show::{Place, place_at};
use std::alloc::{AllocError, Global};

/// Appends the place of the octets that a buffer's entry names, if they are told.
fn push_named(
    has_octets: bool,
    buffer: &NumberedBufferView,
    places: &mut Vec<Option<Place>>,
) -> Result<(), AllocError>
    ensures { OnOk result (places.new.items ≡ places.old.items ++ named_places has_octets buffer.now) }
{
    if has_octets {
        let info = buffer.info_buffer();
        places.push(place_at(info.offset as usize, info.cb_buffer_size as usize))?;
    }
    Ok(())
}

/// Appends the places of a buffer whose entry (MS-PAC, 2.4, PAC_INFO_BUFFER) begins there, with its octets or without.
fn push_buffer(
    has_octets: bool,
    at: usize,
    buffer: &NumberedBufferView,
    places: &mut Vec<Option<Place>>,
) -> Result<(), AllocError>
    requires { at + 16 < 2 ^ 63 }
    ensures { OnOk result (places.new.items ≡ places.old.items ++ buffer_places has_octets at buffer.now) }
{
    let entry = place_at(at, 16);
    let fields = [
        entry,
        place_at(at, 4),
        place_at(at + 4, 4),
        place_at(at + 8, 8),
    ];
    places.extend_from_slice(&fields)?;
    push_named(has_octets, buffer, places)?;
    places.push(entry)?;
    Ok(())
}

/// Appends the places of the buffers, with their octets or without.
fn push_buffers(
    has_octets: bool,
    buffers: &[NumberedBufferView],
    places: &mut Vec<Option<Place>>,
) -> Result<(), AllocError>
    requires { length buffers.now < 2 ^ 32 }
    ensures { OnOk result (places.new.items ≡ places.old.items ++ each_places has_octets 0 buffers.now) }
{
    let mut at = 8;
    'buffers: for buffer in buffers {
        push_buffer(has_octets, at, buffer, places)?;
        at += 16;
    }
    Ok(())
}

/// The places of a PAC that is told as the list of its buffers.
fn places_of_plain(
    alloc: Global,
    octets: &[u8],
    buffers: &[NumberedBufferView],
) -> Result<Vec<Option<Place>>, AllocError>
    requires { length buffers.now < 2 ^ 32 }
    ensures { IfOk result (λ places. places.items ≡ plain_places (length octets.now) buffers.now) }
{
    let all = place_at(0, octets.len());
    let mut places = Vec::new(alloc);
    places.push(all)?;
    push_buffers(true, buffers, &mut places)?;
    places.push(all)?;
    Ok(places)
}

/// The places of a PAC that is told as the list of its entries and all its octets.
fn places_of_other(
    alloc: Global,
    octets: &[u8],
    buffers: &[NumberedBufferView],
) -> Result<Vec<Option<Place>>, AllocError>
    requires { length buffers.now < 2 ^ 32 }
    ensures { IfOk result (λ places. places.items ≡ other_places (length octets.now) buffers.now) }
{
    let all = place_at(0, octets.len());
    let entries = place_at(8, 16 * buffers.len());
    let mut places = Vec::new(alloc);
    places.extend_from_slice(&[all, entries])?;
    push_buffers(false, buffers, &mut places)?;
    places.extend_from_slice(&[entries, all, all])?;
    Ok(places)
}

/// The places of a PAC.
fn places_of_directory(
    alloc: Global,
    octets: &[u8],
    pac: &NumberedPacView,
) -> Result<Vec<Option<Place>>, AllocError>
    requires { NumberedPacIs octets.now pac.now }
    ensures { IfOk result (λ places. directory_places octets.now pac.now places.items) }
{
    let buffers = buffers(alloc, pac)?;
    if is_plain(octets, &buffers) {
        places_of_plain(alloc, octets, &buffers)
    } else {
        places_of_other(alloc, octets, &buffers)
    }
}

/// Where each token that `show_pac` and `page_of_pac` append for octets stands in these (MS-PAC, 2.3 and 2.4): of a buffer's struct
/// its entry, that of entry n the 16 octets behind 8 + 16 n; of the numbers in it the entry's fields; of `buffer` the octets that the
/// entry names; and of the list of buffers all octets. Octets that are no PAC are one token, and have one place. For the caller of
/// `place_tokens`. The only error is an allocation failure.
pub fn places_of_pac(alloc: Global, octets: &[u8]) -> Result<Vec<Option<Place>>, AllocError>
    ensures { IfOk result (λ places. pac_places octets.now places.items) }
{
    match NumberedPacView::new(octets) {
        Ok(pac) => places_of_directory(alloc, octets, &pac),
        Err(_) => places_of_octets(alloc, octets),
    }
}

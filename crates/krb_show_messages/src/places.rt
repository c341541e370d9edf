//! Places of what is told of formats that are no DER.

ghost use Rattle.std.specs.Prelude.{◌≡◌, length, IfOk};
ghost use Rattle.krb_show_messages.specs.Places.{all_places};

use krb_show::{Place, place_at};
use std::alloc::{AllocError, Global};

/// The one place of what is told as octets: all of them.
pub(crate) fn places_of_octets(
    alloc: Global,
    octets: &[u8],
) -> Result<Vec<Option<Place>>, AllocError>
    ensures { IfOk result (λ places. places.items ≡ all_places (length octets.now)) }
{
    let mut places = Vec::new(alloc);
    places.push(place_at(0, octets.len()))?;
    Ok(places)
}

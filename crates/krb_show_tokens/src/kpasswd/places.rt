//! Where what the page of a frame tells stands.

ghost use Rattle.std.specs.Prelude.{◌≡◌, ◌++◌, ℕ, List, length, IfOk, MatchOption, OnOk};
ghost use Rattle.krb_show_tokens.specs.MessagePlaces.{AreMessages, AreMessagesAt, adds_kpasswd, first_row, kpasswd_places};
ghost use Rattle.krb_show_tokens.specs.Parts.{further};
ghost use Rattle.krb_show_tokens.specs.Places.{number_places};

use crate::part::Part;
use crate::places::messages::{first_of, push_row};
use krb_show::Place;
use std::alloc::{AllocError, Global};

/// How many octets stand before the messages (RFC 3244, 2).
const HEADER: usize = 6;

/// The name of the row of the first message, which its tag tells (RFC 4120, 5.10).
fn first_row(message: &[u8]) -> &'static str
    ensures { result.now ≡ first_row message.now }
{
    if first_of(message) == 0x6f {
        "AP-REP"
    } else {
        "AP-REQ"
    }
}

/// The octets of the first message, an element of DER, and those behind it.
fn messages_in(frame: Part<'_>) -> Option<(Part<'_>, Part<'_>)>
    ensures { MatchOption result ((first private : List ℕ) → AreMessages first private frame.entry.octets.now → ⊥)
        (λ p. AreMessagesAt frame.entry.start p.0.start p.1.start p.0.octets.now p.1.octets.now frame.entry.octets.now) }
{
    let Some((_, messages)) = frame.split(HEADER) else {
        return None;
    };
    let Some((_, behind)) = messages.element() else {
        return None;
    };
    let size = messages.octets.len() - behind.octets.len();
    let (octets, _) = messages.octets.split_at(size);
    let first = Part {
        start: messages.start,
        octets,
    };
    let private = Part {
        start: messages.start.saturating_add(size),
        octets: behind.octets,
    };
    Some((first, private))
}

/// Appends the places of the frame and of the numbers before its messages.
fn push_numbers(frame: Part, places: &mut Vec<Option<Place>>) -> Result<(), AllocError>
    ensures { OnOk result (places.new.items ≡ places.old.items
        ++ number_places frame.entry.start (length frame.entry.octets.now)) }
{
    places.push(Some(frame.field(0, frame.octets.len())))?;
    places.push(Some(frame.field(0, 2)))?;
    places.push(Some(frame.field(2, 2)))?;
    places.push(Some(frame.field(4, 2)))?;
    Ok(())
}

/// Appends the places of a frame of these two messages.
fn push_frame(
    alloc: Global,
    frame: Part,
    first: Part,
    private: Part,
    places: &mut Vec<Option<Place>>,
) -> Result<(), AllocError>
    requires frame { frame.start ≡ 0 }
    requires first { first.start ≡ 6 }
    requires private { private.start ≡ further 6 (length first.octets.now) }
    ensures { OnOk result (adds_kpasswd first.entry.octets.now private.entry.octets.now (length frame.entry.octets.now)
        places.old.items places.new.items) }
{
    push_numbers(frame, places)?;
    push_row(alloc, first_row(first.octets), first, places)?;
    push_row(alloc, "KRB-PRIV", private, places)?;
    places.push(frame.place())?;
    Ok(())
}

/// Where in a kpasswd message what each token of `page_of_password_frame` tells stands, in the
/// order of the tokens (RFC 3244, 2): the three numbers of 16 bits, and the elements of the two
/// messages. For `place_tokens`. Other octets have no places. The only error is an allocation
/// failure.
pub fn places_of_password_frame(
    alloc: Global,
    octets: &[u8],
) -> Result<Vec<Option<Place>>, AllocError>
    ensures { IfOk result (λ places. kpasswd_places octets.now places.items) }
{
    let frame = Part { start: 0, octets };
    let mut places = Vec::new(alloc);
    let Some((first, private)) = messages_in(frame) else {
        return Ok(places);
    };
    push_frame(alloc, frame, first, private, &mut places)?;
    Ok(places)
}

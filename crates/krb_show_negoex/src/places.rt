//! Where what is told of messages of NEGOEX stands in them (MS-NEGOEX, 2.2.5 and 2.2.6).

ghost use Rattle.std.specs.Prelude.{◌≡◌, ℕ, ◌+◌, ◌<◌, ◌≤◌, ◌^◌, ◌++◌, length, IfOk, OnOk};
ghost use Rattle.krb_negoex.specs.View.{exchange_view_layout, nego_view_layout, verify_view_layout};
ghost use Rattle.krb_show_negoex.specs.Negoex.{exchange_octets, nego_octets, type_number, verify_octets};
ghost use Rattle.krb_show_negoex.specs.NegoexPlaces.{AddsMessages, AddsPlaces, checksum_places, each_extension, each_scheme, end_places, exchange_places};
ghost use Rattle.krb_show_negoex.specs.NegoexPlaces.{extension_places, extensions_places, header_places, negoex_places, nego_places, number_at, schemes_places, vector_place, verify_places};

use crate::pieces::{unsaid_exchange, unsaid_nego, unsaid_verify};
use crate::{is_followed, own_length};
use byteorder::{ByteOrder, LittleEndian};
use krb_negoex::negoex::views::{ExchangeView, NegoView, VerifyView};
use krb_show::{Place, place_at};
use std::alloc::{AllocError, Global};

/// The number in the four octets from an offset on; zero if they are not there.
fn number_at(octets: &[u8], at: usize) -> usize
    requires { at < 2 ^ 63 }
    ensures is { result ≡ number_at octets.now at }
    ensures small { result < 2 ^ 32 }
{
    if at + 4 <= octets.len() {
        LittleEndian::read_u32(&octets[at..]) as usize
    } else {
        0
    }
}

/// Where the elements of a vector stand, and how many there are (MS-NEGOEX, 2.2.5.2).
#[derive(Clone, Copy)]
struct Vector {
    offset: usize,
    count: usize,
}

/// The vector that an offset and a count at an offset name.
fn vector_at(octets: &[u8], at: usize) -> Vector
    requires { at < 2 ^ 62 }
    ensures offset { result.offset ≡ number_at octets.now at }
    ensures count { result.count ≡ number_at octets.now (at + 4) }
    ensures small_offset { result.offset < 2 ^ 32 }
    ensures small_count { result.count < 2 ^ 32 }
{
    Vector {
        offset: number_at(octets, at),
        count: number_at(octets, at + 4),
    }
}

/// The place of the elements of a vector, each of so many octets, if it has any; so many octets stand before the message.
fn place_of_vector(base: usize, vector: Vector, width: usize) -> Option<Place>
    requires base { base < 2 ^ 63 }
    requires offset { vector.offset < 2 ^ 32 }
    requires count { vector.count < 2 ^ 32 }
    requires width { width ≤ 16 }
    ensures { result ≡ vector_place base vector.offset vector.count width }
{
    if vector.count == 0 {
        return None;
    }
    place_at(base + vector.offset, width * vector.count)
}

/// Appends the places of a header (MS-NEGOEX, 2.2.6.2).
fn push_header(base: usize, places: &mut Vec<Option<Place>>) -> Result<(), AllocError>
    requires { base < 2 ^ 63 }
    ensures { OnOk result (places.new.items ≡ places.old.items ++ header_places base) }
{
    let header = place_at(base, 40);
    let fields = [
        header,
        place_at(base + 8, 4),
        place_at(base + 12, 4),
        place_at(base + 16, 4),
        place_at(base + 20, 4),
        place_at(base + 24, 16),
        header,
    ];
    places.extend_from_slice(&fields)
}

/// Appends the places of so many schemes (MS-NEGOEX, 2.2.5.2.2), one behind another from an offset on.
fn push_each_scheme(
    first: usize,
    count: usize,
    places: &mut Vec<Option<Place>>,
) -> Result<(), AllocError>
    requires first { first < 2 ^ 63 + 2 ^ 32 }
    requires count { count < 2 ^ 32 }
    ensures { OnOk result (places.new.items ≡ places.old.items ++ each_scheme first count) }
{
    for n in 0..count {
        places.push(place_at(first + 16 * n, 16))?;
    }
    Ok(())
}

/// Appends the places of the schemes of a message (MS-NEGOEX, 2.2.6.3).
fn push_schemes(
    base: usize,
    octets: &[u8],
    places: &mut Vec<Option<Place>>,
) -> Result<(), AllocError>
    requires { base < 2 ^ 63 }
    ensures { OnOk result (places.new.items ≡ places.old.items ++ schemes_places base octets.now) }
{
    let vector = vector_at(octets, 80);
    let list = place_of_vector(base, vector, 16);
    places.push(list)?;
    push_each_scheme(base + vector.offset, vector.count, places)?;
    places.push(list)?;
    Ok(())
}

/// Appends the places of an extension at an offset of the message (MS-NEGOEX, 2.2.5.1.4).
fn push_extension(
    base: usize,
    octets: &[u8],
    at: usize,
    places: &mut Vec<Option<Place>>,
) -> Result<(), AllocError>
    requires base { base < 2 ^ 63 }
    requires at { at < 2 ^ 40 }
    ensures { OnOk result (places.new.items ≡ places.old.items ++ extension_places base octets.now at) }
{
    let extension = place_at(base + at, 12);
    let value = place_of_vector(base, vector_at(octets, at + 4), 1);
    let fields = [extension, place_at(base + at, 4), value, extension];
    places.extend_from_slice(&fields)
}

/// Appends the places of so many extensions (MS-NEGOEX, 2.2.5.2.4), the first at an offset of the message.
fn push_each_extension(
    base: usize,
    octets: &[u8],
    vector: Vector,
    places: &mut Vec<Option<Place>>,
) -> Result<(), AllocError>
    requires base { base < 2 ^ 63 }
    requires offset { vector.offset < 2 ^ 32 }
    requires count { vector.count < 2 ^ 32 }
    ensures { OnOk result (places.new.items ≡ places.old.items ++ each_extension base octets.now vector.offset vector.count) }
{
    for n in 0..vector.count {
        push_extension(base, octets, vector.offset + 12 * n, places)?;
    }
    Ok(())
}

/// Appends the places of the extensions of a message (MS-NEGOEX, 2.2.6.3).
fn push_extensions(
    base: usize,
    octets: &[u8],
    places: &mut Vec<Option<Place>>,
) -> Result<(), AllocError>
    requires { base < 2 ^ 63 }
    ensures { OnOk result (places.new.items ≡ places.old.items ++ extensions_places base octets.now) }
{
    let vector = vector_at(octets, 88);
    let list = place_of_vector(base, vector, 12);
    places.push(list)?;
    push_each_extension(base, octets, vector, places)?;
    places.push(list)?;
    Ok(())
}

/// Appends the place of all octets of a message if its last field is these, and that of its end.
fn push_end(
    whole: Option<Place>,
    is_unsaid: bool,
    places: &mut Vec<Option<Place>>,
) -> Result<(), AllocError>
    ensures { OnOk result (places.new.items ≡ places.old.items ++ end_places whole is_unsaid) }
{
    if is_unsaid {
        return places.extend_from_slice(&[whole, whole]);
    }
    places.push(whole)?;
    Ok(())
}

/// Appends the places of the fields of a `NEGO_MESSAGE` (MS-NEGOEX, 2.2.6.3), and of its octets if they are one.
fn push_nego_fields(
    base: usize,
    octets: &[u8],
    is_unsaid: bool,
    places: &mut Vec<Option<Place>>,
) -> Result<(), AllocError>
    requires { base < 2 ^ 63 }
    ensures { OnOk result (places.new.items ≡ places.old.items ++ nego_places base octets.now is_unsaid) }
{
    let whole = place_at(base, octets.len());
    places.push(whole)?;
    push_header(base, places)?;
    places.extend_from_slice(&[place_at(base + 40, 32), place_at(base + 72, 8)])?;
    push_schemes(base, octets, places)?;
    push_extensions(base, octets, places)?;
    push_end(whole, is_unsaid, places)?;
    Ok(())
}

/// Appends the places of a `NEGO_MESSAGE`; none if the octets are not one.
fn push_nego(base: usize, octets: &[u8], places: &mut Vec<Option<Place>>) -> Result<(), AllocError>
    requires { base < 2 ^ 63 }
    ensures { OnOk result (AddsPlaces nego_view_layout nego_octets (nego_places base octets.now) octets.now places.old.items places.new.items) }
{
    match NegoView::new(octets) {
        Ok(message) => {
            let unsaid = unsaid_nego(octets, &message);
            push_nego_fields(base, octets, unsaid.is_some(), places)
        }
        Err(_error) => Ok(()),
    }
}

/// Appends the places of the fields of an `EXCHANGE_MESSAGE` (MS-NEGOEX, 2.2.6.4), and of its octets if they are one.
fn push_exchange_fields(
    base: usize,
    octets: &[u8],
    is_unsaid: bool,
    places: &mut Vec<Option<Place>>,
) -> Result<(), AllocError>
    requires { base < 2 ^ 63 }
    ensures { OnOk result (places.new.items ≡ places.old.items ++ exchange_places base octets.now is_unsaid) }
{
    let whole = place_at(base, octets.len());
    places.push(whole)?;
    push_header(base, places)?;
    let exchange = place_of_vector(base, vector_at(octets, 56), 1);
    places.extend_from_slice(&[place_at(base + 40, 16), exchange])?;
    push_end(whole, is_unsaid, places)?;
    Ok(())
}

/// Appends the places of an `EXCHANGE_MESSAGE`; none if the octets are not one.
fn push_exchange(
    base: usize,
    octets: &[u8],
    places: &mut Vec<Option<Place>>,
) -> Result<(), AllocError>
    requires { base < 2 ^ 63 }
    ensures { OnOk result (AddsPlaces exchange_view_layout exchange_octets (exchange_places base octets.now) octets.now places.old.items places.new.items) }
{
    match ExchangeView::new(octets) {
        Ok(message) => {
            let unsaid = unsaid_exchange(octets, &message);
            push_exchange_fields(base, octets, unsaid.is_some(), places)
        }
        Err(_error) => Ok(()),
    }
}

/// Appends the places of the fields of a `VERIFY_MESSAGE` (MS-NEGOEX, 2.2.6.5), and of its octets if they are one.
fn push_verify_fields(
    base: usize,
    octets: &[u8],
    is_unsaid: bool,
    places: &mut Vec<Option<Place>>,
) -> Result<(), AllocError>
    requires { base < 2 ^ 63 }
    ensures { OnOk result (places.new.items ≡ places.old.items ++ verify_places base octets.now is_unsaid) }
{
    let whole = place_at(base, octets.len());
    places.push(whole)?;
    push_header(base, places)?;
    places.push(place_at(base + 40, 16))?;
    push_checksum(base, octets, places)?;
    push_end(whole, is_unsaid, places)?;
    Ok(())
}

/// Appends the places of a `VERIFY_MESSAGE`; none if the octets are not one.
fn push_verify(
    base: usize,
    octets: &[u8],
    places: &mut Vec<Option<Place>>,
) -> Result<(), AllocError>
    requires { base < 2 ^ 63 }
    ensures { OnOk result (AddsPlaces verify_view_layout verify_octets (verify_places base octets.now) octets.now places.old.items places.new.items) }
{
    match VerifyView::new(octets) {
        Ok(message) => {
            let unsaid = unsaid_verify(octets, &message);
            push_verify_fields(base, octets, unsaid.is_some(), places)
        }
        Err(_error) => Ok(()),
    }
}

/// Appends the places of the checksum of a message (MS-NEGOEX, 2.2.5.1.3).
fn push_checksum(
    base: usize,
    octets: &[u8],
    places: &mut Vec<Option<Place>>,
) -> Result<(), AllocError>
    requires { base < 2 ^ 63 }
    ensures { OnOk result (places.new.items ≡ places.old.items ++ checksum_places base octets.now) }
{
    let checksum = place_at(base + 56, 20);
    let value = place_of_vector(base, vector_at(octets, 68), 1);
    let fields = [
        checksum,
        place_at(base + 56, 4),
        place_at(base + 60, 4),
        place_at(base + 64, 4),
        value,
        checksum,
    ];
    places.extend_from_slice(&fields)
}

/// Appends the places of a message, told by its MessageType (MS-NEGOEX, 2.2.6.1); none if the octets are no message.
fn push_message(
    base: usize,
    octets: &[u8],
    places: &mut Vec<Option<Place>>,
) -> Result<(), AllocError>
    requires { base < 2 ^ 63 }
    ensures short { length octets.now < 12 → OnOk result (places.new.items ≡ places.old.items) }
    ensures nego { 12 ≤ length octets.now → type_number octets.now ≤ 1
        → OnOk result (AddsPlaces nego_view_layout nego_octets (nego_places base octets.now) octets.now places.old.items places.new.items) }
    ensures exchange { 12 ≤ length octets.now → 2 ≤ type_number octets.now → type_number octets.now ≤ 5
        → OnOk result (AddsPlaces exchange_view_layout exchange_octets (exchange_places base octets.now) octets.now places.old.items places.new.items) }
    ensures verify { 12 ≤ length octets.now → type_number octets.now ≡ 6
        → OnOk result (AddsPlaces verify_view_layout verify_octets (verify_places base octets.now) octets.now places.old.items places.new.items) }
    ensures other { 12 ≤ length octets.now → 7 ≤ type_number octets.now → OnOk result (places.new.items ≡ places.old.items) }
{
    if octets.len() < 12 {
        return Ok(());
    }
    match LittleEndian::read_u32(&octets[8..]) {
        0..=1 => push_nego(base, octets, places),
        2..=5 => push_exchange(base, octets, places),
        6 => push_verify(base, octets, places),
        _ => Ok(()),
    }
}

/// Appends the places of messages, one behind another (MS-NEGOEX, 2.2.6).
fn push_messages(octets: &[u8], places: &mut Vec<Option<Place>>) -> Result<(), AllocError>
    ensures { OnOk result ((n : ℕ) × AddsMessages n 0 octets.now places.old.items places.new.items) }
{
    let mut base = 0;
    let mut rest = octets;
    'messages: while is_followed(rest) {
        let size = own_length(rest);
        let (first, others) = rest.split_at(size);
        push_message(base, first, places)?;
        base += size;
        rest = others;
    }
    push_message(base, rest, places)?;
    Ok(())
}

/// Where each token of the page that `page_of_negoex` answers for octets stands in these: a field of a message where the standard
/// has it (MS-NEGOEX, 2.2.5 and 2.2.6), the elements of a vector where the message says (2.2.5.2), and messages one behind another by
/// their own lengths (2.2.6.2, cbMessageLength). A vector without elements has no place, and octets that are no message have none. For
/// the caller of `place_tokens`. The only error is an allocation failure.
pub fn places_of_negoex(alloc: Global, octets: &[u8]) -> Result<Vec<Option<Place>>, AllocError>
    ensures { IfOk result (λ places. negoex_places octets.now places.items) }
{
    let mut places = Vec::new(alloc);
    if !is_followed(octets) {
        push_message(0, octets, &mut places)?;
        return Ok(places);
    }
    let all = place_at(0, octets.len());
    places.push(all)?;
    push_messages(octets, &mut places)?;
    places.push(all)?;
    Ok(places)
}

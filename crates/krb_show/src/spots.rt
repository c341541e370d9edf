//! Places of values in octets of formats that are no DER.

ghost use Rattle.std.specs.Prelude.{◌≡◌, ◌≤◌, List, ℕ, Bool, length, take, drop, IfOk, OnOk};
ghost use Rattle.std.specs.Option.{option_copied};
ghost use Rattle.byteorder.specs.Endian.{big_number, little_number};
ghost use Rattle.krb_show.specs.Spots.{content_in, found, is_number, is_number_of, is_plain, is_told, spotted};
ghost use Rattle.krb_show.specs.Tokens.{Token, placed_where};

use crate::places::give_place;
use crate::token::{Form, Page, Token};
use byteorder::{BigEndian, ByteOrder, LittleEndian};
use krb_message_fields::places::Place;
use std::alloc::{AllocError, Global};

/// Whether octets are this number, most significant octet first.
fn is_big(content: &[u8], number: i64) -> bool
    requires one { 1 ≤ length content.now }
    requires eight { length content.now ≤ 8 }
    ensures { result ≡ is_number (length content.now) (big_number (length content.now) content.now) number }
{
    let size = content.len();
    i128::from(BigEndian::read_uint(content, size)) == i128::from(number)
        || BigEndian::read_int(content, size) == number
}

/// Whether octets are this number, least significant octet first.
fn is_little(content: &[u8], number: i64) -> bool
    requires one { 1 ≤ length content.now }
    requires eight { length content.now ≤ 8 }
    ensures { result ≡ is_number (length content.now) (little_number (length content.now) content.now) number }
{
    let size = content.len();
    i128::from(LittleEndian::read_uint(content, size)) == i128::from(number)
        || LittleEndian::read_int(content, size) == number
}

/// Whether octets are this number, in one to eight octets, most significant octet first or last.
fn is_number_of(content: &[u8], number: i64) -> bool
    ensures { result ≡ is_number_of content.now number }
{
    if content.is_empty() || content.len() > 8 {
        return false;
    }
    is_big(content, number) || is_little(content, number)
}

/// Whether octets are what a token tells: its number, or its octets if they are no name's.
pub fn is_plain(content: &[u8], token: &Token) -> bool
    ensures { result ≡ is_plain content.now token.now }
{
    match token.form() {
        Form::Number => match token.number() {
            Some(number) => is_number_of(content, number),
            None => true,
        },
        Form::Text => !token.components().is_empty() || content == token.octets(),
        Form::Octets | Form::Secret | Form::Cipher => content == token.octets(),
        Form::Struct
        | Form::StructEnd
        | Form::List
        | Form::ListEnd
        | Form::Flags
        | Form::Word
        | Form::Identifier => true,
    }
}

/// Which octets can be what a token tells.
pub trait Tells {
    /// Whether octets can be what a token tells.
    ghost told: { List ℕ → Token → Bool };

    /// Whether these octets can be what a token tells. The only error is an allocation failure.
    fn is_told(alloc: Global, content: &[u8], token: &Token) -> Result<bool, AllocError>
        ensures { IfOk result (λ is_told. is_told ≡ told content.now token.now) };
}

/// Numbers in one to eight octets, in either order; texts and octets as they are. Names, flags, times and object identifiers are not
/// compared, nor is where a struct or a list begins and ends.
#[derive(Drop)]
pub struct Plain;

impl Tells for Plain {
    ghost told = { is_plain };

    fn is_told(_alloc: Global, content: &[u8], token: &Token) -> Result<bool, AllocError> {
        Ok(is_plain(content, token))
    }
}

/// The octets at a place, if there are so many.
fn content_at(octets: &[u8], place: Place) -> Option<&[u8]>
    ensures { option_copied result ≡ content_in place octets.now }
{
    let end = place.offset.checked_add(place.size)?;
    octets.get(place.offset..end)
}

/// The place of a token in octets before which so many others stand, if the octets there are what it tells.
fn found<T: Tells>(
    alloc: Global,
    octets: &[u8],
    base: usize,
    place: Option<Place>,
    token: &Token,
) -> Result<Option<Place>, AllocError>
    ensures { IfOk result (λ place_found. place_found ≡ found T.told base octets.now place (Some token.now)) }
{
    let Some(place) = place else {
        return Ok(None);
    };
    let Some(offset) = base.checked_add(place.offset) else {
        return Ok(None);
    };
    let Some(content) = content_at(octets, place) else {
        return Ok(None);
    };
    if !T::is_told(alloc, content, token)? {
        return Ok(None);
    }
    Ok(Some(Place {
        offset,
        size: place.size,
    }))
}

/// Gives the token at an index a place, if there is one.
fn place_where(page: &mut Page, index: usize, place: Option<Place>)
    ensures { page.new.items ≡ placed_where place index page.old.items }
{
    if let Some(place) = place {
        give_place(page, index, place);
    }
}

/// Gives the tokens from an index on these places, in their order, in octets in which so many stand before these: a token
/// gets its place only if the octets there are what it tells (`T`). The only error is an allocation failure; tokens before the index
/// stay as they were.
#[tactic(auto, using(crate::proofs::Placed::none_spotted, crate::proofs::Placed::take_where))]
pub fn place_tokens<T: Tells>(
    alloc: Global,
    octets: &[u8],
    base: usize,
    places: &[Option<Place>],
    start: usize,
    page: &mut Page,
) -> Result<(), AllocError>
    ensures ok { OnOk result (page.new.items ≡ spotted T.told base octets.now start places.now page.old.items) }
    ensures kept { take start page.new.items ≡ take start page.old.items }
{
    let mut index = start;
    let mut rest = places;
    'places: while let Some((place, behind)) = rest.split_first() {
        let Some(token) = page.get(index) else {
            return Ok(());
        };
        let place = found::<T>(alloc, octets, base, *place, token)?;
        place_where(page, index, place);
        index += 1;
        rest = behind;
    }
    Ok(())
}

//! The contents of buffers with their places.

ghost use Rattle.std.specs.Prelude.{◌≡◌, take, IfOk, OnOk};
ghost use Rattle.krb_pac_contents.specs.Names.{name_of};
ghost use Rattle.krb_show_pac.specs.Placed.{is_spelled, is_told, placed_contents};

use crate::places::places_of_contents;
use krb_pac_contents::text::name_text;
use krb_show::{Form, Page, Place, Tells, Token, is_plain, place_tokens};
use std::alloc::{AllocError, Global};

/// Which octets of a buffer can be what a token tells: a text is in UTF-16, least significant octet first (MS-DTYP 2.3.10).
#[derive(Drop)]
struct Units;

/// Whether octets spell a text.
fn is_spelled(alloc: Global, content: &[u8], text: &[u8]) -> Result<bool, AllocError>
    ensures { IfOk result (λ same. same ≡ is_spelled (name_of content.now) text.now) }
{
    match name_text(alloc, content)? {
        Some(spelled) => Ok(spelled.as_bytes() == text),
        None => Ok(false),
    }
}

impl Tells for Units {
    ghost told = { is_told };

    fn is_told(alloc: Global, content: &[u8], token: &Token) -> Result<bool, AllocError> {
        match token.form() {
            Form::Text => is_spelled(alloc, content, token.octets()),
            _ => Ok(is_plain(content, token)),
        }
    }
}

/// Gives the tokens from an index on, which are the contents of a buffer of this type and these octets, the places of the octets
/// that tell them, if the buffer has a place. The only error is an allocation failure.
pub(crate) fn place_contents(
    alloc: Global,
    ul_type: u32,
    octets: &[u8],
    place: Option<Place>,
    start: usize,
    page: &mut Page,
) -> Result<(), AllocError>
    ensures ok { OnOk result (placed_contents place octets.now start page.old.items page.new.items) }
    ensures kept { take start page.new.items ≡ take start page.old.items }
{
    let Some(place) = place else {
        return Ok(());
    };
    let places = places_of_contents(alloc, ul_type, octets)?;
    place_tokens::<Units>(alloc, octets, place.offset, &places, start, page)
}

//! Pages with the contents of the buffers of PACs.

ghost use Rattle.std.specs.Prelude.{◌≡◌, None, IfOk, OnOk};
ghost use Rattle.std.specs.Option.{option_copied};
ghost use Rattle.krb_show.specs.Tokens.{Begins};
ghost use Rattle.krb_show_pac.specs.Inserted.{IsInserted, IsWithContents, are_types, behind, contents_at, octets_at, octets_of_form, place_at, type_of, with_places};

use crate::contents::show_contents;
use crate::placed::place_contents;
use krb_registry::Kind;
use krb_show::{Form, Insert, Page, Place, Token, page_with};
use std::alloc::{AllocError, Global};
use std::marker::Model;

/// What inserts the contents of a PAC's buffers, each behind the octets of its buffer. As a value it is the number of a type of buffers that stands last
/// before the next token.
#[derive(Drop)]
struct Contents {
    ul_type: Option<i64>,
}

impl Model for Contents {
    ghost use Rattle.std.specs.Prelude.{Option, ℤ};

    ghost Value = { Option ℤ };

    ghost view = { λ c. c.ul_type };
}

/// Whether it is a kind of the numbers of types of buffers (MS-PAC, 2.4), and of the octets of a buffer.
fn are_types(kind: Option<Kind>) -> bool
    ensures { result ≡ are_types kind }
{
    match kind {
        Some(Kind::PacBufferType) => true,
        _ => false,
    }
}

/// A type of a buffer whose contents are shown.
fn type_of(number: Option<i64>) -> Option<u32>
    ensures { result ≡ type_of number }
{
    match number {
        Some(1) => Some(1),
        Some(6) => Some(6),
        Some(7) => Some(7),
        Some(10) => Some(10),
        Some(12) => Some(12),
        Some(16) => Some(16),
        Some(17) => Some(17),
        Some(18) => Some(18),
        Some(19) => Some(19),
        _ => None,
    }
}

/// The octets of a token that is octets.
fn octets_of_form(token: &Token) -> Option<&[u8]>
    ensures { option_copied result ≡ octets_of_form token.now }
{
    match token.form() {
        Form::Octets | Form::Secret => Some(token.octets()),
        _ => None,
    }
}

/// The octets of a buffer that a page ends with.
fn octets_at(page: &[Token]) -> Option<&[u8]>
    ensures { option_copied result ≡ octets_at page.now }
{
    let last = page.last()?;
    if are_types(last.kind()) {
        octets_of_form(last)
    } else {
        None
    }
}

/// The place of the token that a page ends with.
fn place_at(page: &[Token]) -> Option<Place>
    ensures { result ≡ place_at page.now }
{
    page.last()?.place()
}

/// Appends the contents of a buffer of this type and these octets, with their places if the buffer has one.
fn show_with_places(
    alloc: Global,
    ul_type: u32,
    octets: &[u8],
    place: Option<Place>,
    page: &mut Page,
) -> Result<(), AllocError>
    ensures ok { OnOk result (with_places ul_type octets.now place page.old.items page.new.items) }
    ensures kept { OnOk result (Begins page.old.items page.new.items) }
{
    let start = page.len();
    show_contents(alloc, ul_type, octets, page)?;
    place_contents(alloc, ul_type, octets, place, start, page)
}

/// Appends the contents of the buffer of this type whose octets a page ends with.
fn show_at_end(alloc: Global, ul_type: Option<i64>, page: &mut Page) -> Result<(), AllocError>
    ensures ok { OnOk result (contents_at (type_of ul_type) (octets_at page.old.items) (place_at page.old.items) page.old.items page.new.items) }
    ensures kept { OnOk result (Begins page.old.items page.new.items) }
{
    let Some(ul_type) = type_of(ul_type) else {
        return Ok(());
    };
    let Some(octets) = octets_at(page) else {
        return Ok(());
    };
    let octets = Vec::from_slice(alloc, octets)?;
    let place = place_at(page);
    show_with_places(alloc, ul_type, &octets, place, page)
}

/// The number of a type of buffers that stands last before the token behind this one.
fn behind(token: &Token, ul_type: Option<i64>) -> Option<i64>
    ensures { result ≡ behind token.now ul_type }
{
    match token.form() {
        Form::Number => {
            if are_types(token.kind()) {
                token.number()
            } else {
                ul_type
            }
        }
        _ => ul_type,
    }
}

impl Insert for Contents {
    ghost inserts = { IsInserted };

    fn insert(&mut self, alloc: Global, next: &Token, page: &mut Page) -> Result<(), AllocError> {
        show_at_end(alloc, self.ul_type, page)?;
        self.ul_type = behind(next, self.ul_type);
        Ok(())
    }
}

/// The page with the contents of the buffers of its PACs: behind the octets of each buffer, at the end of its struct, stands what `show_contents`
/// appends for its type and octets. If the octets of the buffer have a place, what is told of them has the places of the octets in the buffer that
/// tell it, counted as that place is. All other tokens stay, in their order. The only error is an allocation failure.
pub fn page_with_contents(alloc: Global, page: Page) -> Result<Page, AllocError>
    ensures { IfOk result (λ made. IsWithContents page.items made.items) }
{
    let mut contents = Contents { ul_type: None };
    page_with(alloc, &mut contents, page)
}

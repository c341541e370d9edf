//! Pages as indented lines with places.

ghost use Rattle.std.specs.Prelude.{◌≡◌, ◌<◌, ◌+◌, ◌^◌, List, [], ◌∷◌, ◌++◌, IfOk, OnOk};
ghost use Rattle.std.specs.String.{string_bytes};
ghost use Rattle.krb_show_text.specs.Text.{AreLines, ArePrintable, line, text_of_lines};
ghost use Rattle.krb_show_text.specs.TextWithPlaces.{at_text, lines_with_place, page_lines_with_places, page_text_with_places, place_text};

use crate::text::{depth_after, push_line_start};
use krb_message_fields::places::Place;
use krb_show::{Form, Token};
use std::alloc::{AllocError, Global};

/// Appends a place, behind a blank and `@`.
#[tactic(auto, using(crate::proofs::PrintablePlaces::printable_at))]
fn push_at(out: &mut Vec<u8>, alloc: Global, place: Place) -> Result<(), AllocError>
    ensures ok { OnOk result (out.new.items ≡ out.old.items ++ at_text place) }
    ensures printable { ArePrintable (at_text place) }
{
    let text = format!(in alloc; " @{}+{}", place.offset, place.size)?;
    out.extend_from_slice(text.as_bytes())
}

/// Appends a place, if there is one.
fn push_place(out: &mut Vec<u8>, alloc: Global, place: Option<Place>) -> Result<(), AllocError>
    ensures ok { OnOk result (out.new.items ≡ out.old.items ++ place_text place) }
    ensures printable { OnOk result (ArePrintable (place_text place)) }
{
    match place {
        Some(place) => push_at(out, alloc, place),
        None => Ok(()),
    }
}

/// Appends a line with its place, and a line feed.
#[tactic(auto, using(crate::proofs::Printable::printable_append))]
fn push_line_with_place(
    out: &mut Vec<u8>,
    alloc: Global,
    depth: usize,
    token: &Token,
) -> Result<(), AllocError>
    ensures ok { OnOk result (out.new.items ≡ out.old.items ++ (line depth token.now ++ place_text token.now.place) ++ 10 ∷ []) }
    ensures printable { OnOk result (ArePrintable (line depth token.now ++ place_text token.now.place)) }
{
    push_line_start(out, alloc, depth, token)?;
    push_place(out, alloc, token.place())?;
    out.push(b'\n')?;
    Ok(())
}

/// Appends the line of a token with its place, unless it is an end.
fn push_lines_with_place(
    out: &mut Vec<u8>,
    alloc: Global,
    depth: usize,
    token: &Token,
) -> Result<(), AllocError>
    ensures ok { OnOk result (out.new.items ≡ out.old.items ++ text_of_lines (lines_with_place depth token.now.form token.now)) }
    ensures printable { OnOk result (AreLines (lines_with_place depth token.now.form token.now)) }
{
    match token.form() {
        Form::StructEnd => Ok(()),
        Form::ListEnd => Ok(()),
        Form::Struct => push_line_with_place(out, alloc, depth, token),
        Form::List => push_line_with_place(out, alloc, depth, token),
        Form::Number => push_line_with_place(out, alloc, depth, token),
        Form::Flags => push_line_with_place(out, alloc, depth, token),
        Form::Word => push_line_with_place(out, alloc, depth, token),
        Form::Identifier => push_line_with_place(out, alloc, depth, token),
        Form::Text => push_line_with_place(out, alloc, depth, token),
        Form::Octets => push_line_with_place(out, alloc, depth, token),
        Form::Secret => push_line_with_place(out, alloc, depth, token),
        Form::Cipher => push_line_with_place(out, alloc, depth, token),
    }
}

/// The octets of a page's text with places.
fn octets_with_places(alloc: Global, page: &[Token]) -> Result<Vec<u8>, AllocError>
    ensures text { IfOk result (λ text. text.items ≡ page_text_with_places page.now) }
    ensures lines { OnOk result (AreLines (page_lines_with_places 0 page.now)) }
{
    let mut out = Vec::new(alloc);
    let mut depth = 0;
    for token in page {
        push_lines_with_place(&mut out, alloc, depth, token)?;
        depth = depth_after(depth, token.form());
    }
    Ok(out)
}

/// The text of a page as `text_of_page` writes it, and at the end of the line of each token that has
/// a place that place, as ` @OFFSET+SIZE`: how many octets stand before the content of the element,
/// and how many octets that has, both in decimal. All of it is printable ASCII, with a line feed at
/// the end of each line and nowhere else.
#[tactic(auto, using(crate::proofs::Printable::text_is_utf8))]
pub fn text_of_page_with_places(alloc: Global, page: &[Token]) -> Result<String, AllocError>
    ensures text { IfOk result (λ text. string_bytes text ≡ page_text_with_places page.now) }
    ensures lines { OnOk result (AreLines (page_lines_with_places 0 page.now)) }
{
    let octets = octets_with_places(alloc, page)?;
    match String::from_utf8(octets) {
        Ok(text) => Ok(text),
        Err(_) => unreachable!(),
    }
}

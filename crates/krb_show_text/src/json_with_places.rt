//! Pages with places as JSON (RFC 8259).

ghost use Rattle.std.specs.Prelude.{◌≡◌, ◌<◌, ◌^◌, Bool, List, [], ◌∷◌, ◌++◌, Some, true, IfOk, OnOk};
ghost use Rattle.std.specs.String.{string_bytes};
ghost use Rattle.krb_show_text.specs.JsonWithPlaces.{before_value, behind_value, json_line_with_places, json_token_with_place, json_tokens_with_places, place_begin, place_end};
ghost use Rattle.krb_show_text.specs.Text.{ArePrintable};

use crate::json::{begins, ends, push_before, push_value};
use krb_message_fields::places::Place;
use krb_show::{Token, are_octets};
use std::alloc::{AllocError, Global};

/// Appends the begin of an object that has this place, up to its member `value`.
#[tactic(auto, using(crate::proofs::PrintablePlaces::printable_begin))]
fn push_place_begin(out: &mut Vec<u8>, alloc: Global, place: Place) -> Result<(), AllocError>
    ensures ok { OnOk result (out.new.items ≡ out.old.items ++ place_begin (Some place)) }
    ensures printable { ArePrintable (place_begin (Some place)) }
{
    let offset = format!(in alloc; "{}", place.offset)?;
    let size = format!(in alloc; "{}", place.size)?;
    out.extend_from_slice(b"{\"offset\":")?;
    out.extend_from_slice(offset.as_bytes())?;
    out.extend_from_slice(b",\"size\":")?;
    out.extend_from_slice(size.as_bytes())?;
    out.extend_from_slice(b",\"value\":")
}

/// Appends what stands before a value for its place.
fn push_before_value(out: &mut Vec<u8>, alloc: Global, token: &Token) -> Result<(), AllocError>
    ensures ok { OnOk result (out.new.items ≡ out.old.items ++ before_value token.now) }
    ensures printable { OnOk result (ArePrintable (before_value token.now)) }
{
    if ends(token.form()) {
        return Ok(());
    }
    match token.place() {
        Some(place) => push_place_begin(out, alloc, place),
        None => Ok(()),
    }
}

/// Appends what stands behind a value for its place.
fn push_behind_value(out: &mut Vec<u8>, token: &Token) -> Result<(), AllocError>
    ensures { OnOk result (out.new.items ≡ out.old.items ++ behind_value token.now) }
{
    if begins(token.form()) {
        return Ok(());
    }
    match token.place() {
        Some(_) => out.extend_from_slice(b"}"),
        None => Ok(()),
    }
}

/// A lemma: what a token adds is printable, if what stands before its value is.
#[tactic(auto, using(crate::proofs::PrintablePlaces::printable_token))]
fn is_printable_with_place(token: &Token)
    ensures { (first : Bool) → ArePrintable (before_value token.now) → ArePrintable (json_token_with_place first token.now) }
{
    are_octets(token.text());
    are_octets(token.octets());
    are_octets(token.note());
}

/// Appends a token, with its place.
fn push_token_with_place(
    out: &mut Vec<u8>,
    alloc: Global,
    first: bool,
    token: &Token,
) -> Result<(), AllocError>
    ensures ok { OnOk result (out.new.items ≡ out.old.items ++ json_token_with_place first token.now) }
    ensures printable { OnOk result (ArePrintable (json_token_with_place first token.now)) }
{
    is_printable_with_place(token);
    push_before(out, first, token)?;
    push_before_value(out, alloc, token)?;
    push_value(out, token)?;
    push_behind_value(out, token)
}

/// Appends the tokens of a page, with their places.
fn push_tokens_with_places(
    out: &mut Vec<u8>,
    alloc: Global,
    page: &[Token],
) -> Result<(), AllocError>
    ensures ok { OnOk result (out.new.items ≡ out.old.items ++ json_tokens_with_places true page.now) }
    ensures printable { OnOk result (ArePrintable (json_tokens_with_places true page.now)) }
{
    let mut first = true;
    for token in page {
        push_token_with_place(out, alloc, first, token)?;
        first = begins(token.form());
    }
    Ok(())
}

/// The octets of a page with places as JSON.
#[tactic(auto, using(crate::proofs::PrintablePlaces::printable_whole))]
fn octets_with_places(alloc: Global, page: &[Token]) -> Result<Vec<u8>, AllocError>
    ensures json { IfOk result (λ json. json.items ≡ json_line_with_places page.now ++ 10 ∷ []) }
    ensures printable { OnOk result (ArePrintable (json_line_with_places page.now)) }
{
    let mut out = Vec::new(alloc);
    out.push(b'{')?;
    push_tokens_with_places(&mut out, alloc, page)?;
    out.push(b'}')?;
    out.push(b'\n')?;
    Ok(out)
}

/// A page as JSON, as `json_of_page` writes it, but for the values of tokens that have a place: such
/// a value V stands as `{"offset":O,"size":S,"value":V}`, where O octets stand before the content of
/// the element and S octets are its content. All of it is printable ASCII, with a line feed at its
/// end.
#[tactic(auto, using(crate::proofs::PrintablePlaces::whole_is_utf8))]
pub fn json_of_page_with_places(alloc: Global, page: &[Token]) -> Result<String, AllocError>
    ensures json { IfOk result (λ json. string_bytes json ≡ json_line_with_places page.now ++ 10 ∷ []) }
    ensures printable { OnOk result (ArePrintable (json_line_with_places page.now)) }
{
    let octets = octets_with_places(alloc, page)?;
    match String::from_utf8(octets) {
        Ok(json) => Ok(json),
        Err(_) => unreachable!(),
    }
}

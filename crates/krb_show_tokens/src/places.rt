//! Where what the pages of tokens tell stands in their octets, in the order of the tokens of a
//! page.

ghost use Rattle.std.specs.Prelude.{IfOk, OnOk};
ghost use Rattle.krb_show_tokens.specs.TokenPlaces.{adds_by_head, adds_by_kind, adds_framed, token_places};

pub(crate) mod frames;
pub(crate) mod messages;
pub(crate) mod negotiations;
mod per_message;

use crate::heads::{Head, head_of};
use crate::part::Part;
use crate::places::frames::push_frame;
use crate::places::negotiations::{
    NEG_TOKEN_INIT, NEG_TOKEN_RESP, push_framed_negotiation, push_negotiation,
};
use crate::places::per_message::{push_mic, push_wrap};
use crate::tokens::{TokenKind, kind_of};
use krb_show::Place;
use std::alloc::{AllocError, Global};

/// Appends the places of the tokens of a frame that says that it holds this.
fn push_by_head(
    alloc: Global,
    head: Head,
    frame: Part,
    places: &mut Vec<Option<Place>>,
) -> Result<(), AllocError>
    ensures { OnOk result (adds_by_head head frame.entry.start frame.entry.octets.now places.old.items places.new.items) }
{
    match head {
        Head::Negotiation => push_framed_negotiation(alloc, frame, places),
        Head::Kerberos(_, _) | Head::Unknown => push_frame(alloc, frame, places),
    }
}

/// Appends the places of the tokens of a token in a frame.
fn push_framed(
    alloc: Global,
    frame: Part,
    places: &mut Vec<Option<Place>>,
) -> Result<(), AllocError>
    ensures { OnOk result (adds_framed frame.entry.start frame.entry.octets.now places.old.items places.new.items) }
{
    let head = head_of(alloc, frame.octets)?;
    push_by_head(alloc, head, frame, places)
}

/// Appends the places of the tokens of a token of this kind.
fn push_by_kind(
    alloc: Global,
    kind: TokenKind,
    octets: &[u8],
    places: &mut Vec<Option<Place>>,
) -> Result<(), AllocError>
    ensures { OnOk result (adds_by_kind kind octets.now places.old.items places.new.items) }
{
    let token = Part { start: 0, octets };
    match kind {
        TokenKind::Mic => push_mic(token, places),
        TokenKind::Wrap => push_wrap(token, places),
        TokenKind::Framed => push_framed(alloc, token, places),
        TokenKind::NegTokenInit => push_negotiation(alloc, NEG_TOKEN_INIT, token, places),
        TokenKind::NegTokenResp => push_negotiation(alloc, NEG_TOKEN_RESP, token, places),
        TokenKind::Empty | TokenKind::Unknown => Ok(()),
    }
}

/// Where in a token of the GSS-API what each token of `page_of_token` tells stands, in the order of
/// these: of DER the content of the element, of a token id its two octets, of a MIC or Wrap token
/// each field (RFC 4121, 4.2.6). A token that a negotiation holds, and that is opened, has the
/// places of what it holds. For `place_tokens`. Other octets have the places up to where they are
/// no token. The only error is an allocation failure.
pub fn places_of_token(alloc: Global, octets: &[u8]) -> Result<Vec<Option<Place>>, AllocError>
    ensures { IfOk result (λ places. token_places octets.now places.items) }
{
    let mut places = Vec::new(alloc);
    push_by_kind(alloc, kind_of(octets), octets, &mut places)?;
    Ok(places)
}

//! Where the elements of the tokens of a negotiation stand (RFC 4178, 4.2), and the parts of the tokens that they hold.

ghost use Rattle.std.specs.Prelude.{◌≡◌, nat_lt, length, slice_index, List, [], IfOk, OnOk};
ghost use Rattle.krb_show.specs.Items.{start};
ghost use Rattle.krb_show.specs.PlacedItems.{shown_with_places};
ghost use Rattle.krb_show.specs.Tokens.{Token};
ghost use Rattle.krb_show.specs.declared.rows.stand.Secrets.TheVariants as secrets;
ghost use Rattle.krb_show_messages.specs.Formats.{formats_of};
ghost use Rattle.krb_show_messages.specs.Places.{formats_places};
ghost use Rattle.krb_show_tokens.specs.TokenPlaces.{adds_each, adds_frame, adds_held, adds_list_mic, adds_mechanism_token, adds_negotiation, adds_placed, held_by_role, held_of, is_tgs, neg_token_init, tells_but_tgs, tells_by_size, tells_content, tells_frame, tells_token};

use crate::heads::mechanism_of;
use crate::opened::open_mic;
use crate::part::Part;
use crate::places::frames::{frame_parts, push_frame};
use crate::places::messages::{first_of, is_message};
use crate::places::per_message::push_mic;
use krb_schema::Item;
use krb_show::{
    Form, Page, Place, Role, Secrets, Token, Walk, place_at, push_items_with_places, walk_named,
};
use krb_show_messages::KerberosFormats;
use std::alloc::{AllocError, Global};

/// The tag of a frame: application 0, constructed (RFC 2743, 3.1).
const FRAME: u8 = 0x60;

/// The name of the row of the first alternative of `NegotiationToken` (RFC 4178, 4.2).
pub(crate) const NEG_TOKEN_INIT: &str = "NegotiationToken (negTokenInit)";

/// The name of the row of its second alternative.
pub(crate) const NEG_TOKEN_RESP: &str = "NegotiationToken (negTokenResp)";

/// What a token of a negotiation's row holds.
#[derive(Clone, Copy)]
enum Held {
    /// A token of a mechanism.
    MechanismToken,
    /// A MIC over a list of mechanisms.
    ListMic,
    /// Any other value.
    Value,
}

/// Whether a message with this tag is a TGS-REQ or a TGS-REP, which no mechanism's token is
/// (RFC 4120, 5.10).
fn is_tgs(tag: u8) -> bool
    ensures { result ≡ is_tgs tag }
{
    tag == 0x6c || tag == 0x6d
}

/// Whether octets are a message that a frame of a mechanism's token is told with.
fn is_framed_message(alloc: Global, octets: &[u8]) -> Result<bool, AllocError>
    ensures { IfOk result (tells_but_tgs (is_tgs (slice_index octets.now 0)) octets.now) }
{
    if is_tgs(first_of(octets)) {
        return Ok(false);
    }
    is_message(alloc, octets)
}

/// Whether behind two octets stands such a message.
fn is_message_behind_id(alloc: Global, inner: Part) -> Result<bool, AllocError>
    ensures { IfOk result (tells_by_size (nat_lt (length inner.entry.octets.now) 2) inner.entry.octets.now) }
{
    match inner.split(2) {
        Some((_, message)) => is_framed_message(alloc, message.octets),
        None => Ok(false),
    }
}

/// Whether the content of a frame is a mechanism, two octets and such a message.
fn is_content(alloc: Global, content: &[u8]) -> Result<bool, AllocError>
    ensures { IfOk result (tells_content content.now) }
{
    match mechanism_of(alloc, content)? {
        Some((mechanism, inner)) => {
            drop(mechanism);
            is_message_behind_id(
                alloc,
                Part {
                    start: 0,
                    octets: inner,
                },
            )
        }
        None => Ok(false),
    }
}

/// Whether octets are one frame around a mechanism, a token id and such a message (RFC 2743, 3.1).
fn is_frame(alloc: Global, octets: &[u8]) -> Result<bool, AllocError>
    ensures { IfOk result (tells_frame octets.now) }
{
    let frame = Part { start: 0, octets };
    match frame.element() {
        Some((content, behind)) => {
            if !behind.octets.is_empty() {
                return Ok(false);
            }
            is_content(alloc, content.octets)
        }
        None => Ok(false),
    }
}

/// Whether the token of a mechanism is opened, which is where `MechTokens` opens a frame. What it
/// opens without a frame is in the items of the row.
fn is_opened(alloc: Global, octets: &[u8]) -> Result<bool, AllocError>
    ensures { IfOk result (tells_token octets.now) }
{
    if first_of(octets) == FRAME {
        is_frame(alloc, octets)
    } else {
        Ok(false)
    }
}

/// Appends the places of the tokens of a mechanism's token, opened if it is a frame (RFC 4178, 4.2).
fn push_mechanism_token(
    alloc: Global,
    token: Part,
    places: &mut Vec<Option<Place>>,
) -> Result<(), AllocError>
    ensures { OnOk result (adds_mechanism_token token.entry.start token.entry.octets.now places.old.items places.new.items) }
{
    if is_opened(alloc, token.octets)? {
        push_frame(alloc, token, places)
    } else {
        places.push(token.place())?;
        Ok(())
    }
}

/// Appends the places of the tokens of a MIC of a list of mechanisms, opened if it is a MIC token
/// (RFC 4178, 5).
fn push_list_mic(
    alloc: Global,
    mic: Part,
    places: &mut Vec<Option<Place>>,
) -> Result<(), AllocError>
    ensures { OnOk result (adds_list_mic mic.entry.start mic.entry.octets.now places.old.items places.new.items) }
{
    match open_mic(alloc, mic.octets)? {
        Some(token) => {
            drop(token);
            push_mic(mic, places)
        }
        None => {
            places.push(mic.place())?;
            Ok(())
        }
    }
}

/// What octets of this role hold.
fn held_by_role(role: Role) -> Held
    ensures { result ≡ held_by_role role }
{
    match role {
        Role::MechanismToken => Held::MechanismToken,
        Role::MechanismListMic => Held::ListMic,
        _ => Held::Value,
    }
}

/// What a token of this form and this role holds.
fn held_of(form: Form, role: Role) -> Held
    ensures { result ≡ held_of form role }
{
    match form {
        Form::Octets => held_by_role(role),
        _ => Held::Value,
    }
}

/// Appends the places of what holds this, of so many octets.
fn push_held(
    alloc: Global,
    held: Held,
    size: usize,
    part: Part,
    places: &mut Vec<Option<Place>>,
) -> Result<(), AllocError>
    ensures { OnOk result (adds_held held part.entry.start size part.entry.octets.now places.old.items places.new.items) }
{
    match held {
        Held::MechanismToken => push_mechanism_token(alloc, part, places),
        Held::ListMic => push_list_mic(alloc, part, places),
        Held::Value => {
            places.push(place_at(part.start, size))?;
            Ok(())
        }
    }
}

/// Appends the places of what a token of a negotiation's row, before which so many octets stand, is
/// told as.
fn push_shown(
    alloc: Global,
    base: usize,
    shown: &Token,
    places: &mut Vec<Option<Place>>,
) -> Result<(), AllocError>
    ensures { OnOk result (adds_placed shown.now.place base shown.now places.old.items places.new.items) }
{
    let Some(place) = shown.place() else {
        places.push(None)?;
        return Ok(());
    };
    let part = Part {
        start: base.saturating_add(place.offset),
        octets: shown.octets(),
    };
    let held = held_of(shown.form(), shown.role());
    push_held(alloc, held, place.size, part, places)
}

/// Appends the places of what tokens of a negotiation's row are told as.
fn push_each(
    alloc: Global,
    base: usize,
    page: &[Token],
    places: &mut Vec<Option<Place>>,
) -> Result<(), AllocError>
    ensures { OnOk result (adds_each base page.now places.old.items places.new.items) }
{
    let mut rest = page;
    'tokens: while let Some((shown, behind)) = rest.split_first() {
        push_shown(alloc, base, shown, places)?;
        rest = behind;
    }
    Ok(())
}

/// Appends the places of the tokens of these items.
fn push_items(
    alloc: Global,
    items: &[Item],
    part: Part,
    places: &mut Vec<Option<Place>>,
) -> Result<(), AllocError>
    ensures { OnOk result ((page : List Token) × shown_with_places formats_of formats_places part.entry.octets.now items.now (start secrets.Shown) [] page
        × adds_each part.entry.start page places.old.items places.new.items) }
{
    let mut page: Page = Vec::new(alloc);
    push_items_with_places::<KerberosFormats>(
        alloc,
        Secrets::Shown,
        part.octets,
        items,
        &mut page,
    )?;
    push_each(alloc, part.start, &page, places)
}

/// Appends the places of the tokens of a NegotiationToken (RFC 4178, 4.2) by the row of its
/// alternative.
pub(crate) fn push_negotiation(
    alloc: Global,
    row: &'static str,
    token: Part,
    places: &mut Vec<Option<Place>>,
) -> Result<(), AllocError>
    ensures { OnOk result (adds_negotiation row.now token.entry.start token.entry.octets.now places.old.items places.new.items) }
{
    match walk_named(alloc, row, row, token.octets)? {
        Walk::Items(items) => push_items(alloc, &items, token, places),
        Walk::NoRow | Walk::Fault(_) => Ok(()),
    }
}

/// Appends the places of the tokens of a NegTokenInit in a frame (RFC 2743, 3.1; RFC 4178, 4.2).
pub(crate) fn push_framed_negotiation(
    alloc: Global,
    frame: Part,
    places: &mut Vec<Option<Place>>,
) -> Result<(), AllocError>
    ensures { OnOk result (adds_frame (adds_negotiation neg_token_init) frame.entry.start frame.entry.octets.now
        places.old.items places.new.items) }
{
    let Some(parts) = frame_parts(frame) else {
        return Ok(());
    };
    places.extend_from_slice(&[parts.content.place(), parts.mechanism.place()])?;
    push_negotiation(alloc, NEG_TOKEN_INIT, parts.inner, places)?;
    places.push(parts.content.place())?;
    Ok(())
}

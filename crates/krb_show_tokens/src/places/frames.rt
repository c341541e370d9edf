//! Where the parts of frames stand (RFC 2743, 3.1; RFC 4121, 4.1), and of messages of IAKERB in them
//! (draft-ietf-kitten-iakerb-03).

ghost use Rattle.std.specs.Prelude.{◌≡◌, [], ℕ, List, IfOk, MatchOption, OnOk};
ghost use Rattle.krb_show_tokens.specs.TokenPlaces.{AreFrameParts, adds_behind_id, adds_field, adds_fields, adds_frame, adds_header, adds_kerberos, adds_proxied, adds_tagged, is_proxy_id};

use crate::part::Part;
use crate::places::messages::push_message;
use krb_show::Place;
use std::alloc::{AllocError, Global};

/// Appends the place of the content of the element at the front, if there is one.
fn push_tagged(tagged: Part, places: &mut Vec<Option<Place>>) -> Result<(), AllocError>
    ensures { OnOk result (adds_tagged tagged.entry.start tagged.entry.octets.now places.old.items places.new.items) }
{
    match tagged.element() {
        Some((content, _)) => {
            places.push(content.place())?;
            Ok(())
        }
        None => Ok(()),
    }
}

/// Appends the place of the first of these fields, if there is one, and gives those behind it.
fn push_field<'a>(fields: Part<'a>, places: &mut Vec<Option<Place>>) -> Result<Part<'a>, AllocError>
    ensures { IfOk result (λ rest. adds_field fields.entry.start fields.entry.octets.now rest.start rest.octets.now
        places.old.items places.new.items) }
{
    match fields.element() {
        Some((tagged, behind)) => {
            push_tagged(tagged, places)?;
            Ok(behind)
        }
        None => Ok(fields),
    }
}

/// Appends the places of the three fields of a header of IAKERB that are there.
fn push_fields(fields: Part, places: &mut Vec<Option<Place>>) -> Result<(), AllocError>
    ensures { OnOk result (adds_fields 3 fields.entry.start fields.entry.octets.now places.old.items places.new.items) }
{
    let second = push_field(fields, places)?;
    let third = push_field(second, places)?;
    let _behind = push_field(third, places)?;
    Ok(())
}

/// Appends the places of the tokens of a header of IAKERB, whose fields stand under explicit tags
/// (draft-ietf-kitten-iakerb-03, 3).
fn push_header(header: Part, places: &mut Vec<Option<Place>>) -> Result<(), AllocError>
    ensures { OnOk result (adds_header header.entry.start header.entry.octets.now places.old.items places.new.items) }
{
    places.push(header.place())?;
    push_fields(header, places)?;
    places.push(header.place())?;
    Ok(())
}

/// Appends the places of the tokens of a header of IAKERB and of the message behind it.
fn push_proxied(
    alloc: Global,
    proxied: Part,
    places: &mut Vec<Option<Place>>,
) -> Result<(), AllocError>
    ensures { OnOk result (adds_proxied proxied.entry.start proxied.entry.octets.now places.old.items places.new.items) }
{
    match proxied.element() {
        Some((header, message)) => {
            push_header(header, places)?;
            push_message(alloc, message, places)
        }
        None => Ok(()),
    }
}

/// Whether octets begin with the token id of messages of IAKERB (draft-ietf-kitten-iakerb-03, 3).
fn is_proxy_id(octets: &[u8]) -> bool
    ensures { result ≡ is_proxy_id octets.now }
{
    octets.len() >= 2 && octets[0] == 5 && octets[1] == 1
}

/// Appends the places of the tokens of what stands behind a token id.
fn push_behind_id(
    alloc: Global,
    is_proxied: bool,
    behind: Part,
    places: &mut Vec<Option<Place>>,
) -> Result<(), AllocError>
    ensures { OnOk result (adds_behind_id is_proxied behind.entry.start behind.entry.octets.now places.old.items places.new.items) }
{
    if is_proxied {
        push_proxied(alloc, behind, places)
    } else {
        push_message(alloc, behind, places)
    }
}

/// Appends the places of the tokens of what stands behind a mechanism other than SPNEGO: the token
/// id, the header where the message is of IAKERB, and the message.
pub(crate) fn push_kerberos(
    alloc: Global,
    inner: Part,
    places: &mut Vec<Option<Place>>,
) -> Result<(), AllocError>
    ensures { OnOk result (adds_kerberos inner.entry.start inner.entry.octets.now places.old.items places.new.items) }
{
    let Some((id, behind)) = inner.split(2) else {
        return Ok(());
    };
    places.push(id.place())?;
    push_behind_id(alloc, is_proxy_id(inner.octets), behind, places)
}

/// The parts of a frame (RFC 2743, 3.1).
#[derive(Clone, Copy)]
pub(crate) struct FrameParts<'a> {
    /// All that stands in it.
    pub(crate) content: Part<'a>,
    /// The content of the mechanism's element.
    pub(crate) mechanism: Part<'a>,
    /// What stands behind the mechanism.
    pub(crate) inner: Part<'a>,
}

/// The parts of the frame at the front, if there is one.
pub(crate) fn frame_parts(frame: Part<'_>) -> Option<FrameParts<'_>>
    ensures { MatchOption result ((content_at mechanism_at inner_at : ℕ) (content mechanism inner : List ℕ)
        → AreFrameParts frame.entry.start content_at mechanism_at inner_at content mechanism inner frame.entry.octets.now → ⊥)
        (λ p. AreFrameParts frame.entry.start p.content.start p.mechanism.start p.inner.start p.content.octets.now p.mechanism.octets.now
        p.inner.octets.now frame.entry.octets.now) }
{
    let Some((content, _)) = frame.element() else {
        return None;
    };
    let Some((mechanism, inner)) = content.element() else {
        return None;
    };
    Some(FrameParts {
        content,
        mechanism,
        inner,
    })
}

/// Appends the places of the tokens of a Kerberos token in a frame (RFC 2743, 3.1; RFC 4121, 4.1).
pub(crate) fn push_frame(
    alloc: Global,
    frame: Part,
    places: &mut Vec<Option<Place>>,
) -> Result<(), AllocError>
    ensures { OnOk result (adds_frame adds_kerberos frame.entry.start frame.entry.octets.now places.old.items places.new.items) }
{
    let Some(parts) = frame_parts(frame) else {
        return Ok(());
    };
    places.extend_from_slice(&[parts.content.place(), parts.mechanism.place()])?;
    push_kerberos(alloc, parts.inner, places)?;
    places.push(parts.content.place())?;
    Ok(())
}

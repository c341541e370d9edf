//! Where the messages within tokens stand, each by its row.

ghost use Rattle.std.specs.Prelude.{◌≡◌, None, Some, slice_index, IfOk, MatchOption, OnOk};
ghost use Rattle.krb_show_tokens.specs.MessagePlaces.{IsMessageRow, IsUserRow, adds_message, adds_row, row_of_tag, tells_message};

use crate::part::Part;
use krb_show::{Place, Walk, places_by_row, walk_named};
use krb_show_messages::KerberosFormats;
use std::alloc::{AllocError, Global};

/// The first octet; 0 where there is none.
pub(crate) fn first_of(octets: &[u8]) -> u8
    ensures { result ≡ slice_index octets.now 0 }
{
    if octets.is_empty() {
        return 0;
    }
    octets[0]
}

/// Appends the places of the tokens of octets by the row of this name.
pub(crate) fn push_row(
    alloc: Global,
    row: &'static str,
    part: Part,
    places: &mut Vec<Option<Place>>,
) -> Result<(), AllocError>
    ensures { OnOk result (adds_row row.now part.entry.start part.entry.octets.now places.old.items places.new.items) }
{
    let inner = places_by_row::<KerberosFormats>(alloc, row, part.start, part.octets)?;
    places.extend_from_slice(&inner)
}

/// The name of the row of the message with this tag (RFC 4120, 5.10).
fn row_of_tag(tag: u8) -> Option<&'static str>
    ensures { MatchOption result (row_of_tag tag ≡ None) (λ row. row_of_tag tag ≡ Some row.now) }
{
    match tag {
        0x6a => Some("AS-REQ"),
        0x6b => Some("AS-REP"),
        0x6c => Some("TGS-REQ"),
        0x6d => Some("TGS-REP"),
        0x6e => Some("AP-REQ"),
        0x6f => Some("AP-REP"),
        0x7e => Some("KRB-ERROR"),
        _ => None,
    }
}

/// The name of the row of a KRB-TGT-REQ or a KRB-TGT-REP, which have one tag
/// (draft-swift-win2k-krb-user2user-03).
fn user_row(alloc: Global, message: &[u8]) -> Result<&'static str, AllocError>
    ensures { IfOk result (λ row. IsUserRow message.now row.now) }
{
    match walk_named(alloc, "TGT-REQ", "TGT-REQ", message)? {
        Walk::Items(_) => Ok("TGT-REQ"),
        Walk::NoRow | Walk::Fault(_) => Ok("TGT-REP"),
    }
}

/// The name of the row of a message, which its tag tells.
fn row_of_message(alloc: Global, message: &[u8]) -> Result<&'static str, AllocError>
    ensures { IfOk result (λ row. IsMessageRow message.now row.now) }
{
    match row_of_tag(first_of(message)) {
        Some(row) => Ok(row),
        None => user_row(alloc, message),
    }
}

/// Appends the places of the tokens of a message, by its row.
pub(crate) fn push_message(
    alloc: Global,
    message: Part,
    places: &mut Vec<Option<Place>>,
) -> Result<(), AllocError>
    ensures { OnOk result (adds_message message.entry.start message.entry.octets.now places.old.items places.new.items) }
{
    let row = row_of_message(alloc, message.octets)?;
    push_row(alloc, row, message, places)
}

/// Whether octets are a message of the row that their tag tells.
pub(crate) fn is_message(alloc: Global, octets: &[u8]) -> Result<bool, AllocError>
    ensures { IfOk result (tells_message octets.now) }
{
    let row = row_of_message(alloc, octets)?;
    match walk_named(alloc, row, row, octets)? {
        Walk::Items(_) => Ok(true),
        Walk::NoRow | Walk::Fault(_) => Ok(false),
    }
}

//! Where the fields of MIC and Wrap tokens stand (RFC 4121, 4.2.6).

ghost use Rattle.std.specs.Prelude.{◌≡◌, ◌++◌, length, OnOk};
ghost use Rattle.krb_show_tokens.specs.Places.{mic_places, wrap_places};

use crate::part::Part;
use krb_show::Place;
use std::alloc::AllocError;

/// How many octets stand before the checksum of a MIC token and the data of a Wrap token (RFC 4121,
/// 4.2.6).
const PER_MESSAGE_HEADER: usize = 16;

/// Appends the places of the tokens of a MIC token: TOK_ID, Flags, SND_SEQ and SGN_CKSUM (RFC 4121,
/// 4.2.6.1).
pub(crate) fn push_mic(token: Part, places: &mut Vec<Option<Place>>) -> Result<(), AllocError>
    ensures { OnOk result (places.new.items ≡ places.old.items
        ++ mic_places token.entry.start (length token.entry.octets.now)) }
{
    let size = token.octets.len();
    if size < PER_MESSAGE_HEADER {
        return Ok(());
    }
    places.extend_from_slice(&[
        Some(token.field(0, size)),
        Some(token.field(0, 2)),
        Some(token.field(2, 1)),
        Some(token.field(8, 8)),
        Some(token.field(PER_MESSAGE_HEADER, size - PER_MESSAGE_HEADER)),
        Some(token.field(0, size)),
    ])
}

/// Appends the places of the tokens of a Wrap token: TOK_ID, Flags, EC, RRC, SND_SEQ and the data
/// (RFC 4121, 4.2.6.2).
pub(crate) fn push_wrap(token: Part, places: &mut Vec<Option<Place>>) -> Result<(), AllocError>
    ensures { OnOk result (places.new.items ≡ places.old.items
        ++ wrap_places token.entry.start (length token.entry.octets.now)) }
{
    let size = token.octets.len();
    if size < PER_MESSAGE_HEADER {
        return Ok(());
    }
    places.extend_from_slice(&[
        Some(token.field(0, size)),
        Some(token.field(0, 2)),
        Some(token.field(2, 1)),
        Some(token.field(4, 2)),
        Some(token.field(6, 2)),
        Some(token.field(8, 8)),
        Some(token.field(PER_MESSAGE_HEADER, size - PER_MESSAGE_HEADER)),
        Some(token.field(0, size)),
    ])
}

//! Where the first error of octets is.

ghost use Rattle.std.specs.Prelude.{◌≡◌, IfOk};
ghost use Rattle.krb_show_any.specs.Places.{IsPlaceByRow, IsPlaceOf, is_frame, is_same_reason, place_in};

use crate::error::PageError;
use crate::frames::place_in_frame;
use crate::kind::Kind;
use crate::rows::walk_octets;
use krb_schema::Fault;
use krb_show::Walk;
use std::alloc::{AllocError, Global};

/// Whether two errors have one reason.
pub(crate) fn is_same_reason(first: &PageError, second: &PageError) -> bool
    ensures { result ≡ is_same_reason first.now second.now }
{
    first.reason().as_bytes() == second.reason().as_bytes()
}

/// The place of an error after a walk: that of the first fault, if it has the error's reason.
fn place_in(error: &PageError, walk: Walk) -> Option<usize>
    ensures { result ≡ place_in error.now walk }
{
    let Walk::Fault(Fault::Refused { why, offset }) = walk else {
        return None;
    };
    if is_same_reason(&PageError::Der(why), error) {
        Some(offset)
    } else {
        None
    }
}

/// Whether octets of a kind are a frame of the GSS-API (RFC 2743, 3.1).
pub(crate) fn is_frame(kind: Kind, octets: &[u8]) -> bool
    ensures { result ≡ is_frame kind octets.now }
{
    match (kind, octets) {
        (Kind::Token, [0x60, ..]) => true,
        _ => false,
    }
}

/// Where the first error of octets of a kind is, by the kind's row.
fn place_by_row(
    alloc: Global,
    kind: Kind,
    error: &PageError,
    octets: &[u8],
) -> Result<Option<usize>, AllocError>
    ensures { IfOk result (IsPlaceByRow kind error.now octets.now) }
{
    let walk = walk_octets(alloc, kind, octets)?;
    Ok(place_in(error, walk))
}

/// Where the first error of octets of a kind is: how many octets stand before it. The octets are walked once more, by the row of their kind in
/// the table of `krb_schema`; of a frame of the GSS-API the message in it, by the row that the mechanism and the token id say. An error of a tag or of a
/// length is where its element begins, one of a content without elements where that content begins, and octets that are left over where they begin.
///
/// `None` for kinds without a row, in the header of a frame, in a message of IAKERB, and where the walk refuses the octets for another reason than this
/// error has, or not at all. The only error is an allocation failure.
pub fn place_of_error(
    alloc: Global,
    kind: Kind,
    error: &PageError,
    octets: &[u8],
) -> Result<Option<usize>, AllocError>
    ensures { IfOk result (IsPlaceOf kind error.now octets.now) }
{
    if is_frame(kind, octets) {
        place_in_frame(alloc, error, octets)
    } else {
        place_by_row(alloc, kind, error, octets)
    }
}

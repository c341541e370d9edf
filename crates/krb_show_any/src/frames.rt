//! Messages in frames of the GSS-API (RFC 2743, 3.1; RFC 4121, 4.1), and where their first error is.

ghost use Rattle.std.specs.Prelude.{◌≡◌, ◌++◌, List, ℕ, None, Some, length, IfOk, MatchOption};
ghost use Rattle.krb_der_core.specs.Tlv.{tlv};
ghost use Rattle.krb_show_any.specs.Frames.{IsBehind, IsPlaceIn, IsPlaceInFrame, StandsIn, StandsNone, is_spnego, place_from, type_of_id};
ghost use Rattle.krb_show_any.specs.Places.{is_same_reason};

use crate::error::PageError;
use crate::place::is_same_reason;
use krb_der_core::read_tlv;
use krb_der_x509::ObjectIdentifierAsn1;
use krb_schema::Fault;
use krb_show::{Walk, walk_named};
use krb_show_tokens::read_mechanism;
use std::alloc::{AllocError, Global};

/// The tag of a frame: application 0, constructed (RFC 2743, 3.1).
const FRAME: u8 = 0x60;

/// The arcs of SPNEGO (RFC 4178, 3.2).
const SPNEGO: [u64; 7] = [1, 3, 6, 1, 5, 5, 2];

/// A message in a frame.
#[derive(Clone, Copy)]
pub(crate) struct Framed<'a> {
    /// How many octets stand before it.
    pub(crate) start: usize,
    /// The name of its type in the table of `krb_schema`.
    pub(crate) type_name: &'static str,
    /// It, up to the end of the frame.
    pub(crate) message: &'a [u8],
}

/// The type of the message behind a token id (RFC 4121, 4.1).
fn type_of_id(first: u8, second: u8) -> Option<&'static str>
    ensures { MatchOption result (type_of_id first second ≡ None) (λ name. type_of_id first second ≡ Some name.now) }
{
    match (first, second) {
        (1, 0) => Some("AP-REQ"),
        (2, 0) => Some("AP-REP"),
        (3, 0) => Some("KRB-ERROR"),
        (4, 0) => Some("TGT-REQ"),
        (4, 1) => Some("TGT-REP"),
        (5, 0) => Some("AS-REQ"),
        (6, 0) => Some("AS-REP"),
        _ => None,
    }
}

/// Whether a mechanism is SPNEGO.
fn is_spnego(mechanism: &ObjectIdentifierAsn1) -> bool
    ensures { result ≡ is_spnego mechanism.now }
{
    mechanism.arcs() == SPNEGO.as_slice()
}

/// The message in what stands behind a mechanism, after so many octets.
fn behind_mechanism(is_spnego: bool, start: usize, inner: &[u8]) -> Option<Framed<'_>>
    ensures { MatchOption result ((f : Framed) → IsBehind is_spnego start inner.now f → ⊥) (IsBehind is_spnego start inner.now) }
{
    if is_spnego {
        return Some(Framed {
            start,
            type_name: "NegotiationToken (negTokenInit)",
            message: inner,
        });
    }
    match inner {
        [first, second, message @ ..] => match type_of_id(*first, *second) {
            Some(type_name) => Some(Framed {
                start: start.saturating_add(2),
                type_name,
                message,
            }),
            None => None,
        },
        _ => None,
    }
}

/// How many octets the frame at the start of octets has; 0 where there is none.
#[tactic(auto, using(crate::proofs::FrameSizes::one_size))]
fn frame_size(octets: &[u8]) -> usize
    ensures { (content trailing : List ℕ) → octets.now ≡ tlv 96 content ++ trailing → length (tlv 96 content) ≡ result }
{
    match read_tlv(FRAME, octets) {
        Ok((_content, taken)) => taken,
        Err(_) => 0,
    }
}

/// The message in the frame at the start of octets, if there is one of a type that the table has.
pub(crate) fn framed_in(alloc: Global, octets: &[u8]) -> Result<Option<Framed<'_>>, AllocError>
    ensures { IfOk result (λ found. MatchOption found (StandsNone octets.now) (StandsIn octets.now)) }
{
    let Some((mechanism, inner)) = read_mechanism(alloc, octets)? else {
        return Ok(None);
    };
    let start = frame_size(octets).saturating_sub(inner.len());
    Ok(behind_mechanism(is_spnego(&mechanism), start, inner))
}

/// The place of the fault of a walk of a message that begins after so many octets, if it has the error's reason.
fn place_from(error: &PageError, start: usize, walk: Walk) -> Option<usize>
    ensures { result ≡ place_from error.now start walk }
{
    let Walk::Fault(Fault::Refused { why, offset }) = walk else {
        return None;
    };
    if is_same_reason(&PageError::Der(why), error) {
        Some(start.saturating_add(offset))
    } else {
        None
    }
}

/// Where an error is in a message.
fn place_in(alloc: Global, error: &PageError, framed: Framed) -> Result<Option<usize>, AllocError>
    ensures { IfOk result (IsPlaceIn error.now framed.entry) }
{
    let walk = walk_named(alloc, framed.type_name, framed.type_name, framed.message)?;
    Ok(place_from(error, framed.start, walk))
}

/// Where an error is in the message that stands in the frame at the start of octets. `None` where there is none of a type that the table has, and where
/// its first fault has another reason than this error.
pub(crate) fn place_in_frame(
    alloc: Global,
    error: &PageError,
    octets: &[u8],
) -> Result<Option<usize>, AllocError>
    ensures { IfOk result (IsPlaceInFrame error.now octets.now) }
{
    match framed_in(alloc, octets)? {
        Some(framed) => place_in(alloc, error, framed),
        None => Ok(None),
    }
}

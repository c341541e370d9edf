//! Frames of two messages, at the start of octets.

ghost use Rattle.std.specs.Prelude.{◌≡◌, ◌++◌, ◌+◌, List, ℕ, length, IfOk, IfErr, MatchResult};
ghost use Rattle.krb_der_core.specs.Reading.{TakesPrefix};
ghost use Rattle.krb_messages.specs.Frame.{IsFramed};
ghost use Rattle.krb_messages.specs.Rejected.{TrailingHeader, FrameRejected, HeaderError};

use crate::kpasswd::error::{ReadFrameError, ap_message_error, krb_priv_error};
use krb_der::{Der, DerEncode};
use krb_registry::krb_priv::KRB_PRIV_VERSION;
use std::alloc::Global;

/// How many octets come before the messages: a length, the version, and another length.
pub(crate) const HEADER_LENGTH: usize = 6;

/// How many octets end with the version.
const VERSION_END: usize = 4;

/// What follows the six octets before the messages. The lengths are not looked at.
fn trailing_header(octets: &[u8]) -> Result<&[u8], ReadFrameError>
    ensures ok { IfOk result (λ rest. TrailingHeader octets.now rest.now) }
    ensures err { IfErr result (HeaderError octets.now) }
{
    if octets.len() < VERSION_END {
        return Err(ReadFrameError::Cut);
    }
    if [octets[2], octets[3]] != KRB_PRIV_VERSION {
        return Err(ReadFrameError::Version);
    }
    if octets.len() < HEADER_LENGTH {
        return Err(ReadFrameError::Cut);
    }
    Ok(&octets[HEADER_LENGTH..])
}

/// The two messages of the frame at the start of the octets, and how many octets the frame has.
fn messages<A: Der + Drop, B: Der>(
    alloc: Global,
    octets: &[u8],
) -> Result<((A, B), usize), ReadFrameError>
    ensures valid { IfOk result (λ p. A.is_value p.0.0 × B.is_value p.0.1) }
    ensures found { IfOk result (λ p. (frame : List ℕ) × IsFramed frame (A.enc p.0.0) (B.enc p.0.1) × TakesPrefix frame p.1 octets.now) }
    ensures first_error { IfErr result (FrameRejected ⟦<A as DerEncode>⟧ ⟦<B as DerEncode>⟧ octets.now) }
{
    let trailing = trailing_header(octets)?;
    let (first, n) = match A::read(alloc, trailing) {
        Ok(read) => read,
        Err(error) => return Err(ap_message_error(error)),
    };
    let (second, m) = match B::read(alloc, &trailing[n..]) {
        Ok(read) => read,
        Err(error) => return Err(krb_priv_error(error)),
    };
    Ok(((first, second), HEADER_LENGTH + n + m))
}

/// The two messages of the frame at the start of the octets, and how many octets the frame has.
pub(crate) fn prefix_messages<A: Der + Drop, B: Der>(
    alloc: Global,
    octets: &[u8],
) -> Result<((A, B), usize), ReadFrameError>
    ensures valid { IfOk result (λ p. A.is_value p.0.0 × B.is_value p.0.1) }
    ensures found { IfOk result (λ p. (frame : List ℕ) × IsFramed frame (A.enc p.0.0) (B.enc p.0.1) × TakesPrefix frame p.1 octets.now) }
    ensures first_error { IfErr result (FrameRejected ⟦<A as DerEncode>⟧ ⟦<B as DerEncode>⟧ octets.now) }
    ensures reads { (a : A) (b : B) (frame rest : List ℕ) → A.is_value a → B.is_value b → IsFramed frame (A.enc a) (B.enc b) → octets.now ≡ frame ++ rest
        → MatchResult result (λ p. p ≡ ((a, b), length frame)) (λ e. e ≡ ReadFrameError.OutOfMemory) }
{
    messages(alloc, octets)
}

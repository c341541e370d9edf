//! The frame of a request to change a password, and of the reply.

ghost use Rattle.std.specs.Prelude.{◌≡◌, ◌⊎◌, ◌≤◌, ◌<◌, ◌^◌, ◌∷◌, ◌++◌, ℕ, List, length, IfOk, IfErr, MatchResult};
ghost use Rattle.std.specs.Int.{to_be_bytes, w16};
ghost use Rattle.krb_c_calls.specs.Handing.{IsAnswered};
ghost use Rattle.krb_der_core.specs.Reading.{TakesPrefix};
ghost use Rattle.krb_messages.specs.Frame.{IsFramed, frame};
ghost use Rattle.krb_c_calls.specs.Password.{HasSizes, IsFrameAt, IsMadeFrame, RefusesFrame, RefusesMaking};
ghost use Rattle.krb_c_calls.specs.Statuses.{refusal_status};
ghost use Rattle.krb_c_calls.specs.declared.call_error.CallError.TheVariants as refusals;
ghost use Rattle.krb_c_calls.specs.FrameStatuses.{frame_status};

use crate::frames::element::element_size;
use crate::frames::refusal::frame_refusal;
use crate::handing::hand_out;
use crate::parts::checked;
use crate::{CallError, DONE};
use krb_der::{Der, DerEncode};
use krb_messages::kpasswd::{ReadFrameError, read_frame};
use krb_messages::messages::{ApMessage, KrbPriv};
use std::alloc::{AllocError, Global};

/// How many octets are before the messages.
const HEADER_LENGTH: usize = 6;

/// How many octets a frame has at most.
const MOST: usize = 65535;

/// How many octets the first message has, and how many the second, in a frame of these, which has so many.
fn sizes<A: DerEncode, B: DerEncode>(
    _first: &A,
    _second: &B,
    frame: &[u8],
    taken: usize,
) -> (usize, usize)
    requires valid { A.is_value _first.now × B.is_value _second.now }
    requires found { (x : List ℕ) × IsFramed x (A.enc _first.now) (B.enc _second.now) × TakesPrefix x taken frame.now }
    ensures { HasSizes ⟦<A as DerEncode>⟧ ⟦<B as DerEncode>⟧ frame.now result.0 result.1 }
{
    let size = element_size(&frame[HEADER_LENGTH..]);
    (size, taken - HEADER_LENGTH - size)
}

/// How many octets the AP message has, and how many the KRB-PRIV, in the frame at the start.
fn message_sizes(alloc: Global, frame: &[u8]) -> Result<(usize, usize), ReadFrameError>
    ensures found { IfOk result (λ p. HasSizes ⟦<ApMessage as DerEncode>⟧ ⟦<KrbPriv as DerEncode>⟧ frame.now p.0 p.1) }
    ensures rejected { IfErr result (λ e. RefusesFrame ⟦<ApMessage as DerEncode>⟧ ⟦<KrbPriv as DerEncode>⟧ frame.now (frame_status e)) }
{
    let (message, taken) = read_frame(alloc, frame)?;
    let found = sizes(&message.ap_message, &message.krb_priv, frame, taken);
    drop(message);
    Ok(found)
}

/// The places of the AP message, a KRB-AP-REQ or a KRB-AP-REP, and of the KRB-PRIV in the frame at the start of the octets (RFC 3244, 2).
/// Its version is 1. The lengths in it are compared with nothing; the frame ends with the KRB-PRIV, and what follows is not looked at.
///
/// 10 where the octets end in the six before the messages; 25 where these have another version; 9, 10 or 11 as the first error of the AP message
/// is, else of the KRB-PRIV; 2 where memory was wanting. All four numbers are then 0.
pub fn password_frame(
    alloc: Global,
    frame: &[u8],
    ap_offset: &mut usize,
    ap_size: &mut usize,
    priv_offset: &mut usize,
    priv_size: &mut usize,
) -> u32
    ensures { IsFrameAt ⟦<ApMessage as DerEncode>⟧ ⟦<KrbPriv as DerEncode>⟧ frame.now ap_offset.new ap_size.new priv_offset.new priv_size.new result }
{
    *ap_offset = 0;
    *ap_size = 0;
    *priv_offset = 0;
    *priv_size = 0;
    match message_sizes(alloc, frame) {
        Ok((ap, private)) => {
            *ap_offset = HEADER_LENGTH;
            *ap_size = ap;
            *priv_offset = HEADER_LENGTH + ap;
            *priv_size = private;
            DONE
        }
        Err(error) => frame_refusal(error).status(),
    }
}

/// The six octets before the messages, and these.
fn joined(
    alloc: Global,
    whole: u16,
    first: u16,
    ap_message: &[u8],
    krb_priv: &[u8],
) -> Result<Vec<u8>, AllocError>
    ensures { IfOk result (λ made. made.items ≡ to_be_bytes w16 whole ++ (0 ∷ 1 ∷ (to_be_bytes w16 first ++ (ap_message.now ++ krb_priv.now)))) }
{
    let [whole_high, whole_low] = whole.to_be_bytes();
    let [first_high, first_low] = first.to_be_bytes();
    let mut frame = Vec::from_slice(alloc, &[whole_high, whole_low, 0, 1, first_high, first_low])?;
    frame.extend_from_slice(ap_message)?;
    frame.extend_from_slice(krb_priv)?;
    Ok(frame)
}

/// The frame of these octets, with its lengths.
fn framed(alloc: Global, ap_message: &[u8], krb_priv: &[u8]) -> Result<Vec<u8>, CallError>
    ensures { MatchResult result (λ made. (made.items ≡ frame ap_message.now krb_priv.now) × (length made.items < 2 ^ 16))
        (λ e. (e ≡ refusals.Memory)
        ⊎ ((e ≡ refusals.FrameSize) × (2 ^ 16 ≤ length (frame ap_message.now krb_priv.now)))) }
{
    let first = ap_message.len();
    if first > MOST || krb_priv.len() > MOST || HEADER_LENGTH + first + krb_priv.len() > MOST {
        return Err(CallError::FrameSize);
    }
    let whole = HEADER_LENGTH + first + krb_priv.len();
    Ok(joined(alloc, whole as u16, first as u16, ap_message, krb_priv)?)
}

/// What `make_frame` hands out, or why it refuses.
fn frame_of<A: Der + Drop, B: Der + Drop>(
    alloc: Global,
    ap_message: &[u8],
    krb_priv: &[u8],
) -> Result<Vec<u8>, CallError>
    ensures { MatchResult result
        (λ made. IsMadeFrame ⟦<A as DerEncode>⟧ ⟦<B as DerEncode>⟧ ap_message.now krb_priv.now made.items)
        (λ e. RefusesMaking ⟦<A as DerEncode>⟧ ⟦<B as DerEncode>⟧ ap_message.now krb_priv.now (refusal_status e)) }
{
    checked::<A>(alloc, ap_message)?;
    checked::<B>(alloc, krb_priv)?;
    framed(alloc, ap_message, krb_priv)
}

/// The frame of two messages, whose types are these.
fn make_frame<A: Der + Drop, B: Der + Drop>(
    alloc: Global,
    ap_message: &[u8],
    krb_priv: &[u8],
    out: &mut [u8],
    size: &mut usize,
) -> u32
    ensures { IsAnswered (IsMadeFrame ⟦<A as DerEncode>⟧ ⟦<B as DerEncode>⟧ ap_message.now krb_priv.now)
        (RefusesMaking ⟦<A as DerEncode>⟧ ⟦<B as DerEncode>⟧ ap_message.now krb_priv.now) out.old out.new size.new result }
{
    hand_out(&frame_of::<A, B>(alloc, ap_message, krb_priv), out, size)
}

/// The frame of these two messages, with its lengths and the version 1 (RFC 3244, 2). `password_frame` reads it as them.
///
/// Where the first is not the one encoding of a KRB-AP-REQ or a KRB-AP-REP, and then where the second is not that of a KRB-PRIV, 9, 10 or 11,
/// as their first error is; else 28 where the frame has more than 65535 octets; 2 where memory was wanting. On a refusal `out` is as it was.
pub fn make_password_frame(
    alloc: Global,
    ap_message: &[u8],
    krb_priv: &[u8],
    out: &mut [u8],
    size: &mut usize,
) -> u32
    ensures { IsAnswered (IsMadeFrame ⟦<ApMessage as DerEncode>⟧ ⟦<KrbPriv as DerEncode>⟧ ap_message.now krb_priv.now)
        (RefusesMaking ⟦<ApMessage as DerEncode>⟧ ⟦<KrbPriv as DerEncode>⟧ ap_message.now krb_priv.now) out.old out.new size.new result }
{
    make_frame::<ApMessage, KrbPriv>(alloc, ap_message, krb_priv, out, size)
}

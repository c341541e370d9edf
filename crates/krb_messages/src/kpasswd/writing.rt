//! Frames of two messages, in octets.

ghost use Rattle.std.specs.Prelude.{◌≡◌, ◌<◌, ◌≤◌, ◌^◌, ◌⊎◌, ◌∷◌, ◌++◌, length, drop, IfOk, IfErr, OnOk};
ghost use Rattle.std.specs.Int.{to_be_bytes, w16};
ghost use Rattle.krb_messages.specs.Frame.{frame};
ghost use Rattle.krb_messages.specs.Rejected.{IsUnwritten};

use crate::kpasswd::error::WriteFrameError;
use crate::kpasswd::prefix::HEADER_LENGTH;
use krb_der::DerEncode;
use krb_registry::krb_priv::KRB_PRIV_VERSION;
use std::alloc::Global;

/// A length in two octets. `TooLong` where it does not fit.
fn two_octets(n: usize) -> Result<u16, WriteFrameError>
    ensures ok { IfOk result (λ m. m ≡ n) }
    ensures err { IfErr result (λ e. (e ≡ WriteFrameError.TooLong) × (2 ^ 16 ≤ n)) }
{
    match u16::try_from(n) {
        Ok(n) => Ok(n),
        Err(_) => Err(WriteFrameError::TooLong),
    }
}

/// The octets before the messages: the length of the frame, the version, and the length of the first message.
fn header(whole: u16, first: u16) -> [u8; HEADER_LENGTH]
    ensures { result ≡ to_be_bytes w16 whole ++ (0 ∷ 1 ∷ to_be_bytes w16 first) }
{
    let [whole_high, whole_low] = whole.to_be_bytes();
    let [version_high, version_low] = KRB_PRIV_VERSION;
    let [first_high, first_low] = first.to_be_bytes();
    [
        whole_high,
        whole_low,
        version_high,
        version_low,
        first_high,
        first_low,
    ]
}

/// Replaces the first six octets by the header.
fn put_header(octets: &mut [u8], whole: u16, first: u16)
    requires { 6 ≤ length octets.old }
    ensures { octets.new ≡ (to_be_bytes w16 whole ++ (0 ∷ 1 ∷ to_be_bytes w16 first)) ++ drop 6 octets.old }
{
    octets[..HEADER_LENGTH].copy_from_slice(&header(whole, first));
}

/// The frame of two messages.
///
/// A frame of more than 65535 octets is `TooLong`, unless an allocation fails before; every other error is `OutOfMemory`.
pub(crate) fn frame_octets<A: DerEncode, B: DerEncode>(
    alloc: Global,
    first: &A,
    second: &B,
) -> Result<Vec<u8>, WriteFrameError>
    ensures ok { IfOk result (λ v. v.items ≡ frame (A.enc first.now) (B.enc second.now)) }
    ensures fits { OnOk result (length (frame (A.enc first.now) (B.enc second.now)) < 2 ^ 16) }
    ensures valid { OnOk result (A.is_value first.now × B.is_value second.now) }
    ensures err { IfErr result (IsUnwritten (frame (A.enc first.now) (B.enc second.now))) }
{
    let mut octets = Vec::from_slice(alloc, &[0; HEADER_LENGTH])?;
    first.write(alloc, &mut octets)?;
    let first_length = two_octets(octets.len() - HEADER_LENGTH)?;
    second.write(alloc, &mut octets)?;
    let whole = two_octets(octets.len())?;
    put_header(&mut octets, whole, first_length);
    Ok(octets)
}

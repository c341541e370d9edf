//! Parts of messages, sealed and opened.

ghost use Rattle.std.specs.Prelude.{◌≡◌, MatchResult};
ghost use Rattle.krb_c_calls.specs.Handing.{IsAnswered};
ghost use Rattle.krb_c_calls.specs.Statuses.{refusal_status};
ghost use Rattle.krb_c_calls.specs.Parts.{IsOpening, IsPart, IsSealing, RefusesOpening, RefusesPart, RefusesSealing};

use crate::call_error::CallError;
use crate::handing::hand_out;
use crate::messages::encrypted;
use crate::parts::messages::checked;
use crate::suites::cipher_suite_of;
use krb_crypto::CipherSuite;
use krb_crypto::prepared::OpeningKey;
use krb_crypto::seal::PartError;
use krb_crypto::seal::prepared::open_part;
use krb_der::{Der, DerEncode, to_vec};
use std::alloc::Global;

/// The value whose encoding the suite seals to the octets.
fn part_under<T: Der + Drop>(
    alloc: Global,
    suite: &CipherSuite,
    key: &[u8],
    usage: i32,
    sealed: &[u8],
) -> Result<T, CallError>
    ensures { MatchResult result (IsPart ⟦<T as DerEncode>⟧ suite.now key.now usage sealed.now)
        (λ e. RefusesPart ⟦<T as DerEncode>⟧ suite.now key.now usage sealed.now (refusal_status e)) }
{
    let prepared = OpeningKey::new(suite, key, usage)?;
    match open_part::<T>(alloc, &prepared, sealed) {
        Ok(value) => Ok(value),
        Err(PartError::Crypto(error)) => Err(CallError::from(error)),
        Err(PartError::Der(error)) => Err(CallError::from(error)),
    }
}

/// Its encoding, under the suite of this encryption type.
fn opened<T: Der + Drop>(
    alloc: Global,
    etype: i32,
    key: &[u8],
    usage: i32,
    sealed: &[u8],
) -> Result<Vec<u8>, CallError>
    ensures { MatchResult result (λ made. IsOpening ⟦<T as DerEncode>⟧ etype key.now usage sealed.now made.items)
        (λ e. RefusesOpening ⟦<T as DerEncode>⟧ etype key.now usage sealed.now (refusal_status e)) }
{
    let suite = cipher_suite_of(etype)?;
    let value = part_under::<T>(alloc, &suite, key, usage, sealed)?;
    Ok(to_vec(alloc, &value)?)
}

/// The encoding of the part that was sealed to the octets, without the zeros that the suite padded it with (RFC 3961, 5.3; RFC 4120, 5).
///
/// Status 3 for a number of no suite, else 5 for a key of another length than the suite's, else 2 where an allocation failed; 6, 7 or 8 of octets
/// that nothing is sealed to, as `crate::decrypt` tells; 9, 10 or 11 where what is sealed to them is no encoding of the type with fewer zeros
/// behind it than the suite pads to, as its first error is. On a refusal `out` is as it was.
pub fn open<T: Der + Drop>(
    alloc: Global,
    etype: i32,
    key: &[u8],
    usage: i32,
    sealed: &[u8],
    out: &mut [u8],
    size: &mut usize,
) -> u32
    ensures { IsAnswered (IsOpening ⟦<T as DerEncode>⟧ etype key.now usage sealed.now)
        (RefusesOpening ⟦<T as DerEncode>⟧ etype key.now usage sealed.now) out.old out.new size.new result }
{
    hand_out(&opened::<T>(alloc, etype, key, usage, sealed), out, size)
}

/// What `seal` hands out, or why it refuses.
fn sealed<T: Der + Drop>(
    alloc: Global,
    etype: i32,
    key: &[u8],
    usage: i32,
    confounder: &[u8],
    part: &[u8],
) -> Result<Vec<u8>, CallError>
    ensures { MatchResult result
        (λ made. IsSealing ⟦<T as DerEncode>⟧ etype key.now usage confounder.now part.now made.items)
        (λ e. RefusesSealing ⟦<T as DerEncode>⟧ etype key.now confounder.now part.now (refusal_status e)) }
{
    checked::<T>(alloc, part)?;
    encrypted(alloc, etype, key, usage, confounder, part)
}

/// The part's octets, sealed as `crate::encrypt` seals them, where they are the one encoding of a value of the type (RFC 3961, 5.3).
///
/// Where they are not, status 9, 10 or 11, as their first error is; else those of `crate::encrypt`. 2 where an allocation failed. On a
/// refusal `out` is as it was.
pub fn seal<T: Der + Drop>(
    alloc: Global,
    etype: i32,
    key: &[u8],
    usage: i32,
    confounder: &[u8],
    part: &[u8],
    out: &mut [u8],
    size: &mut usize,
) -> u32
    ensures { IsAnswered (IsSealing ⟦<T as DerEncode>⟧ etype key.now usage confounder.now part.now)
        (RefusesSealing ⟦<T as DerEncode>⟧ etype key.now confounder.now part.now) out.old out.new size.new result }
{
    hand_out(
        &sealed::<T>(alloc, etype, key, usage, confounder, part),
        out,
        size,
    )
}

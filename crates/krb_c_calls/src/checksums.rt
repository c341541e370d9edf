//! Checksums of messages that stand alone.

ghost use Rattle.std.specs.Prelude.{◌≡◌, MatchResult};
ghost use Rattle.krb_c_calls.specs.Statuses.{refusal_status};
ghost use Rattle.krb_c_calls.specs.Handing.{IsAnswered};
ghost use Rattle.krb_c_calls.specs.Checksums.{IsChecksumBy, RefusesChecksumBy, IsChecksum, RefusesChecksum, IsVerificationBy, IsVerification};

use crate::call_error::{CallError, DONE};
use crate::handing::hand_out;
use crate::suites::checksum_suite_of;
use krb_crypto::ChecksumSuite;
use krb_crypto::prepared::ChecksumKey;
use std::alloc::Global;

fn summed_by(
    alloc: Global,
    suite: &ChecksumSuite,
    key: &[u8],
    usage: i32,
    message: &[u8],
) -> Result<Vec<u8>, CallError>
    ensures { MatchResult result
        (λ made. IsChecksumBy suite.now key.now usage message.now made.items)
        (λ e. RefusesChecksumBy suite.now key.now (refusal_status e)) }
{
    let prepared = ChecksumKey::new(suite, key, usage)?;
    Ok(prepared.checksum(alloc, message)?)
}

/// What `checksum` hands out, or why it refuses.
pub fn summed(
    alloc: Global,
    cksumtype: i32,
    key: &[u8],
    usage: i32,
    message: &[u8],
) -> Result<Vec<u8>, CallError>
    ensures { MatchResult result
        (λ made. IsChecksum cksumtype key.now usage message.now made.items)
        (λ e. RefusesChecksum cksumtype key.now (refusal_status e)) }
{
    let suite = checksum_suite_of(cksumtype)?;
    summed_by(alloc, &suite, key, usage, message)
}

/// The checksum of a message that stands alone, under the key Kc of this key and usage (RFC 3961, 5.4; RFC 8009, 6). Status 3 for a number
/// of no suite, else 5 for a key of another length than the suite's, else 2 where an allocation failed.
pub fn checksum(
    alloc: Global,
    cksumtype: i32,
    key: &[u8],
    usage: i32,
    message: &[u8],
    out: &mut [u8],
    size: &mut usize,
) -> u32
    ensures { IsAnswered (IsChecksum cksumtype key.now usage message.now)
        (RefusesChecksum cksumtype key.now) out.old out.new size.new result }
{
    hand_out(&summed(alloc, cksumtype, key, usage, message), out, size)
}

fn verified_by(
    suite: &ChecksumSuite,
    key: &[u8],
    usage: i32,
    message: &[u8],
    checksum: &[u8],
) -> u32
    ensures { IsVerificationBy suite.now key.now usage message.now checksum.now result }
{
    let Ok(prepared) = ChecksumKey::new(suite, key, usage) else {
        return CallError::KeySize.status();
    };
    match prepared.verify(message, checksum) {
        Ok(()) => DONE,
        Err(_) => CallError::Integrity.status(),
    }
}

/// Whether these octets are the checksum that `checksum` hands out: 0 where they are, 7 where they are not, also where they are too many or
/// too few. Status 3 for a number of no suite, else 5 for a key of another length than the suite's. All octets are compared, wherever they
/// differ; nothing is allocated.
pub fn verify_checksum(
    cksumtype: i32,
    key: &[u8],
    usage: i32,
    message: &[u8],
    checksum: &[u8],
) -> u32
    ensures { IsVerification cksumtype key.now usage message.now checksum.now result }
{
    match checksum_suite_of(cksumtype) {
        Ok(suite) => verified_by(&suite, key, usage, message, checksum),
        Err(refusal) => refusal.status(),
    }
}

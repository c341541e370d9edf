//! Keys of checksums that a caller keeps: Kc, derived once for a usage (RFC 3961, 5.4; RFC 8009, 6),
//! where one key is used often.

ghost use Rattle.std.specs.Prelude.{◌≡◌, ◌≤◌, ℕ, ℤ, List, ◌++◌, length, take, MatchResult};
ghost use Rattle.krb_crypto_block.specs.Aes.{aes_block};
ghost use Rattle.krb_crypto_block.specs.Fold.{fold};
ghost use Rattle.krb_crypto.specs.Suites.{NoSuite};
ghost use Rattle.krb_crypto_message.specs.WellKnown.{usage_constant};
ghost use Rattle.krb_c_calls.specs.Checksums.{IsVerification};
ghost use Rattle.krb_c_calls.specs.Handing.{IsAnswered};
ghost use Rattle.krb_c_calls.specs.KeptChecksums.{IsKeptChecksumKey, IsChecksumKeptBy, IsChecksumKeeping, IsKc};
ghost use Rattle.krb_c_calls.specs.KeptChecksums.{IsChecksumPut, IsSumOfKept, IsVerificationOfKept, sum_under, kc_octets_of};
ghost use Rattle.krb_c_calls.specs.KeptChecksums.{RefusesChecksumKey, RefusesKc, RefusesKept};
ghost use Rattle.krb_c_calls.specs.Numbers.{checksum_number};
ghost use Rattle.krb_c_calls.specs.Statuses.{refusal_status};

use crate::call_error::{CallError, DONE};
use crate::handing::put;
use crate::kept::{LONGEST, filled};
use crate::suites::checksum_suite_of;
use krb_crypto::{ChecksumSuite, usage_kc};
use krb_crypto_block::in_place::n_fold_into;
use krb_crypto_block::{AES_BLOCK_SIZE, AesEncryptionKey, AesSize, DES3_KEY_SIZE};
use krb_crypto_hash::comparison::are_equal;
use krb_crypto_hash::keyed::{HmacSha1Key, HmacSha256Key, HmacSha384Key};
use krb_crypto_message::des;
use std::alloc::Global;
use std::marker::Model;

/// The octets of the longest checksum.
const LONGEST_SUM: usize = 24;

/// `krb_checksum_key` of `krb.h`: a key of a checksum type for one usage, as Kc. 36 octets, with no
/// pointer in them.
#[repr(C)]
#[derive(Drop)]
pub struct KeptChecksumKey {
    /// The checksum type.
    pub cksumtype: i32,
    /// Kc, of as many octets as a key, or a checksum of RFC 8009, has, and zeros behind it.
    pub kc: [u8; LONGEST],
}

/// The suite of its checksum type; else `Number`.
fn suite_of(kept: &KeptChecksumKey) -> Result<ChecksumSuite, CallError>
    ensures { MatchResult result (λ suite. checksum_number suite ≡ kept.now.cksumtype)
        (λ e. (e ≡ CallError.Number) × NoSuite checksum_number kept.now.cksumtype) }
{
    checksum_suite_of(kept.cksumtype)
}

/// The first block of Kc under AES (DK of RFC 3961, 5.1): the usage's constant, folded to a block and
/// encrypted.
fn first_block(cipher: &AesEncryptionKey, usage: i32) -> [u8; AES_BLOCK_SIZE]
    ensures { result ≡ aes_block cipher.now (fold (usage_constant usage 0x99) 128) }
{
    let mut folded = [0; AES_BLOCK_SIZE];
    n_fold_into(&usage_kc(usage), &mut folded);
    cipher.encrypt_block(folded)
}

/// Kc of a key of AES128 (RFC 3962, 6): one block. `KeySize` for a key of another length.
fn aes128_kc(key: &[u8], usage: i32) -> Result<[u8; LONGEST], CallError>
    ensures { MatchResult result (IsKc ChecksumSuite.HmacSha196Aes128 key.now usage)
        (λ e. RefusesKc ChecksumSuite.HmacSha196Aes128 key.now (refusal_status e)) }
{
    let cipher = AesEncryptionKey::new(key, &AesSize::Aes128)?;
    Ok(filled(&first_block(&cipher, usage)))
}

/// Kc of a key of AES256 (RFC 3962, 6): two blocks, the second of which is the first one, encrypted.
/// `KeySize` for a key of another length.
fn aes256_kc(key: &[u8], usage: i32) -> Result<[u8; LONGEST], CallError>
    ensures { MatchResult result (IsKc ChecksumSuite.HmacSha196Aes256 key.now usage)
        (λ e. RefusesKc ChecksumSuite.HmacSha196Aes256 key.now (refusal_status e)) }
{
    let cipher = AesEncryptionKey::new(key, &AesSize::Aes256)?;
    let first = first_block(&cipher, usage);
    let second = cipher.encrypt_block(first);
    Ok(concatenated(&first, &second))
}

/// The two blocks, concatenated.
fn concatenated(first: &[u8; AES_BLOCK_SIZE], second: &[u8; AES_BLOCK_SIZE]) -> [u8; LONGEST]
    ensures { result ≡ first.now ++ second.now }
{
    let mut blocks = [0; LONGEST];
    blocks[..AES_BLOCK_SIZE].copy_from_slice(first);
    blocks[AES_BLOCK_SIZE..].copy_from_slice(second);
    blocks
}

/// Kc of a key of aes128-cts-hmac-sha256-128 (RFC 8009, 3 and 6). `KeySize` for a key of another
/// length.
fn sha256_kc(key: &[u8], usage: i32) -> Result<[u8; LONGEST], CallError>
    ensures { MatchResult result (IsKc ChecksumSuite.HmacSha256128Aes128 key.now usage)
        (λ e. RefusesKc ChecksumSuite.HmacSha256128Aes128 key.now (refusal_status e)) }
{
    if key.len() != 16 {
        return Err(CallError::KeySize);
    }
    let block = HmacSha256Key::new(key).kdf_block(&usage_kc(usage), 128);
    Ok(filled(&block[..16]))
}

/// Kc of a key of aes256-cts-hmac-sha384-192 (RFC 8009, 3 and 6). `KeySize` for a key of another
/// length.
fn sha384_kc(key: &[u8], usage: i32) -> Result<[u8; LONGEST], CallError>
    ensures { MatchResult result (IsKc ChecksumSuite.HmacSha384192Aes256 key.now usage)
        (λ e. RefusesKc ChecksumSuite.HmacSha384192Aes256 key.now (refusal_status e)) }
{
    if key.len() != 32 {
        return Err(CallError::KeySize);
    }
    let block = HmacSha384Key::new(key).kdf_block(&usage_kc(usage), 192);
    Ok(filled(&block[..24]))
}

/// Kc of a key of triple DES (RFC 3961, 6.3). `KeySize` for a key of another length; else `Memory`
/// where an allocation failed.
fn des3_kc(alloc: Global, key: &[u8], usage: i32) -> Result<[u8; LONGEST], CallError>
    ensures { MatchResult result (IsKc ChecksumSuite.HmacSha1Des3Kd key.now usage)
        (λ e. RefusesKc ChecksumSuite.HmacSha1Des3Kd key.now (refusal_status e)) }
{
    if key.len() != DES3_KEY_SIZE {
        return Err(CallError::KeySize);
    }
    let kc = des::derive_key(alloc, key, &usage_kc(usage))?;
    Ok(filled(&kc))
}

/// Kc of this key and usage, and zeros behind it.
fn derived(
    alloc: Global,
    suite: &ChecksumSuite,
    key: &[u8],
    usage: i32,
) -> Result<[u8; LONGEST], CallError>
    ensures { MatchResult result (IsKc suite.now key.now usage) (λ e. RefusesKc suite.now key.now (refusal_status e)) }
{
    match suite {
        ChecksumSuite::HmacSha196Aes128 => aes128_kc(key, usage),
        ChecksumSuite::HmacSha196Aes256 => aes256_kc(key, usage),
        ChecksumSuite::HmacSha1Des3Kd => des3_kc(alloc, key, usage),
        ChecksumSuite::HmacSha256128Aes128 => sha256_kc(key, usage),
        ChecksumSuite::HmacSha384192Aes256 => sha384_kc(key, usage),
    }
}

fn kept_by(
    alloc: Global,
    suite: &ChecksumSuite,
    cksumtype: i32,
    key: &[u8],
    usage: i32,
) -> Result<KeptChecksumKey, CallError>
    requires { checksum_number suite.now ≡ cksumtype }
    ensures { MatchResult result
        (λ kept. (kept.cksumtype ≡ cksumtype) × IsChecksumKeptBy suite.now key.now usage kept)
        (λ e. RefusesKc suite.now key.now (refusal_status e)) }
{
    let kc = derived(alloc, suite, key, usage)?;
    Ok(KeptChecksumKey { cksumtype, kc })
}

fn kept_of(
    alloc: Global,
    cksumtype: i32,
    key: &[u8],
    usage: i32,
) -> Result<KeptChecksumKey, CallError>
    ensures { MatchResult result
        (λ kept. (kept.cksumtype ≡ cksumtype) × IsKeptChecksumKey key.now usage kept)
        (λ e. RefusesChecksumKey cksumtype key.now (refusal_status e)) }
{
    let suite = checksum_suite_of(cksumtype)?;
    kept_by(alloc, &suite, cksumtype, key, usage)
}

/// `kept` becomes the key of this checksum type for this usage (RFC 4120, 7.5.1), and the status is 0.
/// Status 3 for a number of no suite, else 5 for a key of another length than the suite's, else, under
/// triple DES alone, which allocates, 2 where an allocation failed; then `kept` is as it was.
pub fn keep_checksum_key(
    alloc: Global,
    cksumtype: i32,
    key: &[u8],
    usage: i32,
    kept: &mut KeptChecksumKey,
) -> u32
    ensures { IsChecksumKeeping cksumtype key.now usage kept.old kept.new result }
{
    match kept_of(alloc, cksumtype, key, usage) {
        Ok(made) => {
            *kept = made;
            DONE
        }
        Err(refusal) => refusal.status(),
    }
}

/// A checksum. As a value it is its octets.
#[derive(Drop)]
struct Sum {
    octets: [u8; LONGEST_SUM],
    size: usize,
}

impl Model for Sum {
    ghost Value = { List ℕ };

    ghost view = { λ sum. take sum.size sum.octets };

    ghost invariant = { λ sum. sum.size ≤ 24 };
}

impl Sum {
    /// The first octets of an HMAC, so many.
    fn of(mac: &[u8], size: usize) -> Sum
        requires short { size ≤ 24 }
        requires long { size ≤ length mac.now }
        ensures { result ≡ take size mac.now }
    {
        let mut octets = [0; LONGEST_SUM];
        octets[..size].copy_from_slice(&mac[..size]);
        Sum { octets, size }
    }

    /// Its octets.
    fn as_slice(&self) -> &[u8]
        ensures { result.now ≡ self.now }
    {
        &self.octets[..self.size]
    }
}

/// The HMAC of the message under the first octets of these as Kc, cut to a checksum of the suite.
fn sum_under(suite: &ChecksumSuite, kc: &[u8; LONGEST], message: &[u8]) -> Sum
    ensures { result ≡ sum_under suite.now (take (kc_octets_of suite.now) kc.now) message.now }
{
    match suite {
        ChecksumSuite::HmacSha196Aes128 => Sum::of(&HmacSha1Key::new(&kc[..16]).mac(message), 12),
        ChecksumSuite::HmacSha196Aes256 => Sum::of(&HmacSha1Key::new(&kc[..32]).mac(message), 12),
        ChecksumSuite::HmacSha1Des3Kd => Sum::of(&HmacSha1Key::new(&kc[..24]).mac(message), 20),
        ChecksumSuite::HmacSha256128Aes128 => {
            Sum::of(&HmacSha256Key::new(&kc[..16]).mac(message), 16)
        }
        ChecksumSuite::HmacSha384192Aes256 => {
            Sum::of(&HmacSha384Key::new(&kc[..24]).mac(message), 24)
        }
    }
}

/// The checksum of the message under a kept key; else `Number`.
fn sum_of(kept: &KeptChecksumKey, message: &[u8]) -> Result<Sum, CallError>
    ensures { MatchResult result (λ sum. IsSumOfKept kept.now message.now sum)
        (λ e. (e ≡ CallError.Number) × NoSuite checksum_number kept.now.cksumtype) }
{
    let suite = suite_of(kept)?;
    Ok(sum_under(&suite, &kept.kc, message))
}

/// As `checksum`, under a kept key: the suite's checksum under the first octets of `kc`, whatever the
/// struct holds. Status 3 where it has the number of no suite is the only refusal; nothing is
/// allocated. On any status but 0 `out` is as it was.
pub fn checksum_kept(
    kept: &KeptChecksumKey,
    message: &[u8],
    out: &mut [u8],
    size: &mut usize,
) -> u32
    ensures kept { (key : List ℕ) (usage : ℤ) → IsKeptChecksumKey key usage kept.now
        → IsChecksumPut kept.now.cksumtype key usage message.now out.old out.new size.new result }
    ensures answered { IsAnswered (IsSumOfKept kept.now message.now) (RefusesKept kept.now)
        out.old out.new size.new result }
{
    match sum_of(kept, message) {
        Ok(sum) => put(sum.as_slice(), out, size),
        Err(refusal) => {
            *size = 0;
            refusal.status()
        }
    }
}

/// As `verify_checksum`, under a kept key: 0 where the octets are the checksum that `checksum_kept`
/// hands out, 7 where they are not, also where they are too many or too few. Status 3 where the struct
/// has the number of no suite. All octets are compared, wherever they differ; nothing is allocated.
pub fn verify_checksum_kept(kept: &KeptChecksumKey, message: &[u8], checksum: &[u8]) -> u32
    ensures kept { (key : List ℕ) (usage : ℤ) → IsKeptChecksumKey key usage kept.now
        → IsVerification kept.now.cksumtype key usage message.now checksum.now result }
    ensures answered { IsVerificationOfKept kept.now message.now checksum.now result }
{
    match sum_of(kept, message) {
        Ok(sum) => {
            if are_equal(checksum, sum.as_slice()) {
                DONE
            } else {
                CallError::Integrity.status()
            }
        }
        Err(refusal) => refusal.status(),
    }
}

//! Keys that a caller keeps, derived once for a usage (RFC 3961, 5.3), where one key is used often.

ghost use Rattle.std.specs.Prelude.{◌≡◌, ◌≤◌, ◌-◌, ℕ, ℤ, List, length, take, drop, replicate, MatchResult, IfErr, IsErrAnd};
ghost use Rattle.krb_crypto.specs.Suites.{NoSuite};
ghost use Rattle.krb_c_calls.specs.Numbers.{etype_number};
ghost use Rattle.krb_c_calls.specs.Statuses.{refusal_status};
ghost use Rattle.krb_c_calls.specs.Handing.{IsAnswered, IsHandedOut, IsKept};
ghost use Rattle.krb_c_calls.specs.Calls.{IsEncryption, IsEncryptionBy, RefusesEncryption, RefusesEncryptionBy, IsDecryption, IsDecryptionBy, RefusesDecryption, RefusesDecryptionBy};
ghost use Rattle.krb_c_calls.specs.Kept.{IsKeptBy, IsKeptKey, IsKeeping, RefusesKey};

use crate::call_error::{CallError, DONE};
use crate::handing::hand_out;
use crate::suites::cipher_suite_of;
use krb_crypto::message_keys::{derive_message_keys, integrity_key_size};
use krb_crypto::prepared::{OpeningKey, SealingKey};
use krb_crypto::{Cipher, CipherSuite};
use std::alloc::Global;

/// The octets of the longest Ke or Ki.
pub(crate) const LONGEST: usize = 32;

/// `krb_key` of `krb.h`: a key of an encryption type for one usage, as Ke and Ki. 68 octets, with no pointer in them.
#[repr(C)]
#[derive(Drop)]
pub struct KeptKey {
    /// The encryption type.
    pub etype: i32,
    /// Ke, of as many octets as a key of the type has, and zeros behind it.
    pub ke: [u8; LONGEST],
    /// Ki, of as many as a key, or a checksum of RFC 8009, has, and zeros behind it.
    pub ki: [u8; LONGEST],
}

/// The suite of its encryption type; else `Number`.
fn suite_of(kept: &KeptKey) -> Result<CipherSuite, CallError>
    ensures { MatchResult result (λ suite. etype_number suite ≡ kept.now.etype) (λ e. (e ≡ CallError.Number) × NoSuite etype_number kept.now.etype) }
{
    cipher_suite_of(kept.etype)
}

/// The octets, and zeros behind them.
pub(crate) fn filled(octets: &[u8]) -> [u8; LONGEST]
    requires { length octets.now ≤ 32 }
    ensures octets { take (length octets.now) result ≡ octets.now }
    ensures zeros { drop (length octets.now) result ≡ replicate (32 - length octets.now) 0 }
{
    let mut filled = [0; LONGEST];
    filled[..octets.len()].copy_from_slice(octets);
    filled
}

fn kept_by(suite: &CipherSuite, etype: i32, key: &[u8], usage: i32) -> Result<KeptKey, CallError>
    requires { etype_number suite.now ≡ etype }
    ensures { MatchResult result (λ kept. (kept.etype ≡ etype) × IsKeptBy suite.now key.now usage kept) (λ e. RefusesKey etype key.now (refusal_status e)) }
{
    let keys = derive_message_keys(suite, key, usage)?;
    Ok(KeptKey {
        etype,
        ke: filled(keys.ke()),
        ki: filled(keys.ki()),
    })
}

fn kept_of(etype: i32, key: &[u8], usage: i32) -> Result<KeptKey, CallError>
    ensures { MatchResult result (λ kept. (kept.etype ≡ etype) × IsKeptKey key.now usage kept) (λ e. RefusesKey etype key.now (refusal_status e)) }
{
    let suite = cipher_suite_of(etype)?;
    kept_by(&suite, etype, key, usage)
}

/// `kept` becomes the key of this encryption type for this usage (RFC 4120, 7.5.1), and the status is 0. Status 3 for a number of no suite, else 5
/// for a key of another length than the suite's; then `kept` is as it was. It allocates nothing.
pub fn keep_key(etype: i32, key: &[u8], usage: i32, kept: &mut KeptKey) -> u32
    ensures { IsKeeping etype key.now usage kept.old kept.new result }
{
    match kept_of(etype, key, usage) {
        Ok(made) => {
            *kept = made;
            DONE
        }
        Err(refusal) => refusal.status(),
    }
}

fn encrypted_under(
    alloc: Global,
    suite: &CipherSuite,
    kept: &KeptKey,
    confounder: &[u8],
    payload: &[u8],
) -> Result<Vec<u8>, CallError>
    ensures { (key : List ℕ) (usage : ℤ) → IsKeptBy suite.now key usage kept.now
        → MatchResult result (λ made. IsEncryptionBy suite.now key usage confounder.now payload.now made.items)
        (λ e. RefusesEncryptionBy suite.now key confounder.now (refusal_status e)) }
{
    if confounder.len() != suite.confounder_size() {
        return Err(CallError::ConfounderSize);
    }
    let ke = &kept.ke[..suite.key_size()];
    let ki = &kept.ki[..integrity_key_size(suite)];
    let prepared = SealingKey::from_message_keys(suite, ke, ki)?;
    Ok(prepared.encrypt(alloc, payload, confounder)?)
}

/// What `encrypt_kept` hands out, or why it refuses.
pub fn encrypted_kept(
    alloc: Global,
    kept: &KeptKey,
    confounder: &[u8],
    payload: &[u8],
) -> Result<Vec<u8>, CallError>
    ensures kept { (key : List ℕ) (usage : ℤ) → IsKeptKey key usage kept.now
        → MatchResult result (λ made. IsEncryption kept.now.etype key usage confounder.now payload.now made.items)
        (λ e. RefusesEncryption kept.now.etype key confounder.now (refusal_status e)) }
    ensures number { NoSuite etype_number kept.now.etype → IsErrAnd result (λ e. refusal_status e ≡ 3) }
{
    let suite = suite_of(kept)?;
    encrypted_under(alloc, &suite, kept, confounder, payload)
}

/// As `encrypt`, under a kept key. Status 3 where it has the number of no suite, else 4 for a confounder of another length than the suite's, else 2
/// where an allocation failed. On any status but 0 `out` is as it was, whatever the struct holds.
pub fn encrypt_kept(
    alloc: Global,
    kept: &KeptKey,
    confounder: &[u8],
    payload: &[u8],
    out: &mut [u8],
    size: &mut usize,
) -> u32
    ensures kept { (key : List ℕ) (usage : ℤ) → IsKeptKey key usage kept.now
        → IsAnswered (IsEncryption kept.now.etype key usage confounder.now payload.now)
        (RefusesEncryption kept.now.etype key confounder.now) out.old out.new size.new result }
    ensures number { NoSuite etype_number kept.now.etype → (result ≡ 3) × IsKept out.old out.new size.new }
    ensures handed { IsHandedOut out.old out.new size.new result }
{
    hand_out(&encrypted_kept(alloc, kept, confounder, payload), out, size)
}

fn decrypted_under(
    alloc: Global,
    suite: &CipherSuite,
    kept: &KeptKey,
    sealed: &[u8],
) -> Result<Vec<u8>, CallError>
    ensures { (key : List ℕ) (usage : ℤ) → IsKeptBy suite.now key usage kept.now
        → MatchResult result (λ made. IsDecryptionBy suite.now key usage sealed.now made.items)
        (λ e. RefusesDecryptionBy suite.now key usage sealed.now (refusal_status e)) }
{
    let ke = &kept.ke[..suite.key_size()];
    let ki = &kept.ki[..integrity_key_size(suite)];
    let prepared = OpeningKey::from_message_keys(suite, ke, ki)?;
    Ok(prepared.decrypt(alloc, sealed)?)
}

/// What `decrypt_kept` hands out, or why it refuses.
pub fn decrypted_kept(alloc: Global, kept: &KeptKey, sealed: &[u8]) -> Result<Vec<u8>, CallError>
    ensures kept { (key : List ℕ) (usage : ℤ) → IsKeptKey key usage kept.now
        → MatchResult result (λ made. IsDecryption kept.now.etype key usage sealed.now made.items)
        (λ e. RefusesDecryption kept.now.etype key usage sealed.now (refusal_status e)) }
    ensures number { NoSuite etype_number kept.now.etype → IsErrAnd result (λ e. refusal_status e ≡ 3) }
{
    let suite = suite_of(kept)?;
    decrypted_under(alloc, &suite, kept, sealed)
}

/// As `decrypt`, under a kept key. Status 3 where it has the number of no suite, else 2 where an allocation failed, 6 for too few octets, 8 for no
/// whole blocks of triple DES, and 7 else. On any status but 0 `out` is as it was, whatever the struct holds.
pub fn decrypt_kept(
    alloc: Global,
    kept: &KeptKey,
    sealed: &[u8],
    out: &mut [u8],
    size: &mut usize,
) -> u32
    ensures kept { (key : List ℕ) (usage : ℤ) → IsKeptKey key usage kept.now
        → IsAnswered (IsDecryption kept.now.etype key usage sealed.now)
        (RefusesDecryption kept.now.etype key usage sealed.now) out.old out.new size.new result }
    ensures number { NoSuite etype_number kept.now.etype → (result ≡ 3) × IsKept out.old out.new size.new }
    ensures handed { IsHandedOut out.old out.new size.new result }
{
    hand_out(&decrypted_kept(alloc, kept, sealed), out, size)
}

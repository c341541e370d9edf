//! Messages encrypted and decrypted.

ghost use Rattle.std.specs.Prelude.{◌≡◌, MatchResult};
ghost use Rattle.krb_c_calls.specs.Statuses.{refusal_status};
ghost use Rattle.krb_c_calls.specs.Handing.{IsAnswered};
ghost use Rattle.krb_c_calls.specs.Calls.{IsEncryptionBy, RefusesEncryptionBy, IsEncryption, RefusesEncryption, IsDecryptionBy, RefusesDecryptionBy, IsDecryption, RefusesDecryption};

use crate::call_error::CallError;
use crate::handing::hand_out;
use crate::suites::cipher_suite_of;
use krb_crypto::prepared::{OpeningKey, SealingKey};
use krb_crypto::{Cipher, CipherSuite};
use std::alloc::Global;

fn encrypted_by(
    alloc: Global,
    suite: &CipherSuite,
    key: &[u8],
    usage: i32,
    confounder: &[u8],
    payload: &[u8],
) -> Result<Vec<u8>, CallError>
    ensures { MatchResult result
        (λ made. IsEncryptionBy suite.now key.now usage confounder.now payload.now made.items)
        (λ e. RefusesEncryptionBy suite.now key.now confounder.now (refusal_status e)) }
{
    if confounder.len() != suite.confounder_size() {
        return Err(CallError::ConfounderSize);
    }
    let prepared = SealingKey::new(suite, key, usage)?;
    Ok(prepared.encrypt(alloc, payload, confounder)?)
}

/// What `encrypt` hands out, or why it refuses.
pub fn encrypted(
    alloc: Global,
    etype: i32,
    key: &[u8],
    usage: i32,
    confounder: &[u8],
    payload: &[u8],
) -> Result<Vec<u8>, CallError>
    ensures { MatchResult result
        (λ made. IsEncryption etype key.now usage confounder.now payload.now made.items)
        (λ e. RefusesEncryption etype key.now confounder.now (refusal_status e)) }
{
    let suite = cipher_suite_of(etype)?;
    encrypted_by(alloc, &suite, key, usage, confounder, payload)
}

/// The payload, encrypted under the confounder, with the integrity checksum after it (RFC 3961, 5.3; RFC 8009, 5). Status 3 for a number of
/// no suite, else 4 for a confounder and then 5 for a key of another length than the suite's, else 2 where an allocation failed.
pub fn encrypt(
    alloc: Global,
    etype: i32,
    key: &[u8],
    usage: i32,
    confounder: &[u8],
    payload: &[u8],
    out: &mut [u8],
    size: &mut usize,
) -> u32
    ensures { IsAnswered (IsEncryption etype key.now usage confounder.now payload.now)
        (RefusesEncryption etype key.now confounder.now) out.old out.new size.new result }
{
    hand_out(
        &encrypted(alloc, etype, key, usage, confounder, payload),
        out,
        size,
    )
}

fn decrypted_by(
    alloc: Global,
    suite: &CipherSuite,
    key: &[u8],
    usage: i32,
    sealed: &[u8],
) -> Result<Vec<u8>, CallError>
    ensures { MatchResult result
        (λ made. IsDecryptionBy suite.now key.now usage sealed.now made.items)
        (λ e. RefusesDecryptionBy suite.now key.now usage sealed.now (refusal_status e)) }
{
    let prepared = OpeningKey::new(suite, key, usage)?;
    Ok(prepared.decrypt(alloc, sealed)?)
}

/// What `decrypt` hands out, or why it refuses.
pub fn decrypted(
    alloc: Global,
    etype: i32,
    key: &[u8],
    usage: i32,
    sealed: &[u8],
) -> Result<Vec<u8>, CallError>
    ensures { MatchResult result
        (λ made. IsDecryption etype key.now usage sealed.now made.items)
        (λ e. RefusesDecryption etype key.now usage sealed.now (refusal_status e)) }
{
    let suite = cipher_suite_of(etype)?;
    decrypted_by(alloc, &suite, key, usage, sealed)
}

/// The payload that was encrypted to these octets, with the fewest zeros to whole blocks after it under triple DES (RFC 3961, 5.3; RFC 8009,
/// 5). Nothing of it is handed out unless its integrity checksum holds. Status 3 for a number of no suite, else 5 for a key of another
/// length than the suite's; else 2 where an allocation failed, 6 for too few octets, 8 for no whole blocks of triple DES, and 7 else.
pub fn decrypt(
    alloc: Global,
    etype: i32,
    key: &[u8],
    usage: i32,
    sealed: &[u8],
    out: &mut [u8],
    size: &mut usize,
) -> u32
    ensures { IsAnswered (IsDecryption etype key.now usage sealed.now)
        (RefusesDecryption etype key.now usage sealed.now) out.old out.new size.new result }
{
    hand_out(&decrypted(alloc, etype, key, usage, sealed), out, size)
}

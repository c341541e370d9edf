//! An exchange, as the caller keeps it between two messages.

ghost use Rattle.std.specs.Prelude.{◌≡◌, ◌≤◌, length, take, IfErr, IfOk};
ghost use Rattle.krb_crypto.specs.BySuite.{key_octets_of};
ghost use Rattle.krb_c_calls.specs.Numbers.{etype_number};
ghost use Rattle.krb_c_client.specs.Exchanges.{IsKeyIn, IsNoKeyIn, etype_or_zero, key_or_zeros, offset_in, offset_or_zero, padded, taken_number, written};

use crate::records::ExchangeRecord;
use krb_c_calls::CallError;
use krb_c_calls::suites::cipher_suite_of;
use krb_client::Key;
use krb_crypto::{Cipher, CipherSuite};
use std::alloc::Global;

/// How many octets an exchange has for a key.
const KEY_SIZE: usize = 32;

/// What the KDC's time is ahead, where it was taken.
pub(crate) fn offset_in(kept: &ExchangeRecord) -> Option<i64>
    ensures { result ≡ offset_in kept.now }
{
    if kept.has_offset == 0 {
        None
    } else {
        Some(kept.offset)
    }
}

/// How many octets a key of the suite has.
fn key_size(suite: &CipherSuite) -> usize
    ensures size { result ≡ key_octets_of suite.now }
    ensures within { result ≤ 32 }
{
    suite.key_size()
}

/// The key, where there is one. `Number` where its encryption type has no suite.
pub(crate) fn key_in(alloc: Global, kept: &ExchangeRecord) -> Result<Option<Key>, CallError>
    ensures found { IfOk result (IsKeyIn kept.now) }
    ensures refused { IfErr result (IsNoKeyIn kept.now) }
{
    if kept.etype == 0 {
        return Ok(None);
    }
    let suite = cipher_suite_of(kept.etype)?;
    let size = key_size(&suite);
    let octets = Vec::from_slice(alloc, &kept.key[..size])?;
    Ok(Some(Key { suite, octets }))
}

/// The first 32 octets, or all where they are fewer.
fn first(octets: &[u8]) -> &[u8]
    ensures octets { result.now ≡ take 32 octets.now }
    ensures size { length result.now ≤ 32 }
{
    if octets.len() > KEY_SIZE {
        &octets[..KEY_SIZE]
    } else {
        octets
    }
}

/// The octets of a key, and zeros.
fn padded(octets: &[u8]) -> [u8; KEY_SIZE]
    ensures { result ≡ padded octets.now }
{
    let kept = first(octets);
    let mut key = [0; KEY_SIZE];
    key[..kept.len()].copy_from_slice(kept);
    key
}

/// The octets of the key, and zeros; zeros where there is none.
fn key_or_zeros(key: &Option<Key>) -> [u8; KEY_SIZE]
    ensures { result ≡ key_or_zeros key.now }
{
    match key {
        Some(key) => padded(key.octets.as_slice()),
        None => [0; KEY_SIZE],
    }
}

/// The encryption type of the key; 0 where there is none.
fn etype_or_zero(key: &Option<Key>) -> i32
    ensures { result ≡ etype_or_zero key.now }
{
    match key {
        Some(key) => etype_of(&key.suite),
        None => 0,
    }
}

/// The number of the suite's encryption type.
fn etype_of(suite: &CipherSuite) -> i32
    ensures { result ≡ etype_number suite.now }
{
    match suite {
        CipherSuite::Des3CbcSha1Kd => 16,
        CipherSuite::Aes128CtsHmacSha196 => 17,
        CipherSuite::Aes256CtsHmacSha196 => 18,
        CipherSuite::Aes128CtsHmacSha256128 => 19,
        CipherSuite::Aes256CtsHmacSha384192 => 20,
    }
}

/// What the KDC's time is ahead; 0 where it was not taken.
fn offset_or_zero(offset: &Option<i64>) -> i64
    ensures { result ≡ offset_or_zero offset.now }
{
    match offset {
        Some(offset) => *offset,
        None => 0,
    }
}

/// 1 where the KDC's time was taken, and else 0.
fn taken_number(offset: &Option<i64>) -> u32
    ensures { result ≡ taken_number offset.now }
{
    match offset {
        Some(_) => 1,
        None => 0,
    }
}

/// An exchange that has begun, as the caller is to keep it.
pub(crate) fn written(offset: &Option<i64>, nonce: u32, key: &Option<Key>) -> ExchangeRecord
    ensures { result ≡ written offset.now nonce key.now }
{
    ExchangeRecord {
        offset: offset_or_zero(offset),
        has_offset: taken_number(offset),
        nonce,
        etype: etype_or_zero(key),
        begun: 1,
        key: key_or_zeros(key),
    }
}

//! Checksums under the suites of RFC 8009.

ghost use Rattle.std.specs.Prelude.{◌≡◌, length, IfOk, IfErr};
ghost use Rattle.krb_crypto_hash.specs.CryptoError.{RejectsKey};
ghost use Rattle.krb_crypto_block.specs.Size.{key_octets};
ghost use Rattle.krb_crypto_message.specs.AesSha2.{sha2_mac, sha2_ki, sha2_sum};

use super::key_derivation::test_key;
use super::keyed_hash::KeyedHash;
use super::mac::checksum_size;
use super::prepared::Sha2ChecksumKey;
use crate::well_known::usage_ki;
use krb_crypto_block::{AesSize, KerberosCryptoResult};
use std::alloc::Global;

/// The HMAC of just these octets under Ki, cut to 16 or 24 octets. What is sealed in with a payload is the one of 16 zero
/// octets and the encrypted octets.
///
/// `KeyLength` where the key has not the size's length; an allocation failure is the only other error.
pub fn integrity_checksum(
    alloc: Global,
    key: &[u8],
    key_usage: i32,
    payload: &[u8],
    size: &AesSize,
) -> KerberosCryptoResult<Vec<u8>>
    ensures key { IfOk result (λ _. length key.now ≡ key_octets size.now) }
    ensures checksum { IfOk result (λ checksum. checksum.items ≡ sha2_mac size.now (sha2_ki size.now key.now key_usage) payload.now) }
    ensures rejected { IfErr result (RejectsKey (key_octets size.now) key.now) }
{
    test_key(key, size)?;
    let ki = KeyedHash::new(key, size).derived(&usage_ki(key_usage), checksum_size(size));
    let checksum = KeyedHash::new(ki.as_slice(), size).mac(&[], payload);
    Ok(Vec::from_slice(alloc, checksum.as_slice())?)
}

/// The checksum of a message that stands alone (RFC 8009, 6): its HMAC under Kc, cut to 16 or 24 octets.
///
/// `KeyLength` where the key has not the size's length; an allocation failure is the only other error.
pub fn keyed_checksum(
    alloc: Global,
    key: &[u8],
    key_usage: i32,
    payload: &[u8],
    size: &AesSize,
) -> KerberosCryptoResult<Vec<u8>>
    ensures key { IfOk result (λ _. length key.now ≡ key_octets size.now) }
    ensures checksum { IfOk result (λ checksum. checksum.items ≡ sha2_sum size.now key.now key_usage payload.now) }
    ensures rejected { IfErr result (RejectsKey (key_octets size.now) key.now) }
{
    Sha2ChecksumKey::new(key, key_usage, size)?.checksum(alloc, payload)
}

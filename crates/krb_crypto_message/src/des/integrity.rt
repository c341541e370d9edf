//! Checksums under triple DES (RFC 3961, 5.3, 5.4 and 6.3).

ghost use Rattle.std.specs.Prelude.{◌≡◌, length, IfOk, IfErr};
ghost use Rattle.krb_crypto_hash.specs.CryptoError.{RejectsKey};
ghost use Rattle.krb_crypto_hash.specs.Hmac.{hmac};
ghost use Rattle.krb_crypto_message.specs.Sealed.{des3_ki, des3_sum};

use super::key_derivation::derived_key;
use super::prepared::Des3ChecksumKey;
use crate::well_known::usage_ki;
use krb_crypto_block::{DES3_MAC_SIZE, DesKey, KerberosCryptoResult, hmac_sha1};
use std::alloc::Global;

/// The checksum that is sealed in with a payload: its HMAC under Ki, of 20 octets. The payload is not padded.
///
/// `KeyLength` where the key has not 24 octets; an allocation failure is the only other error.
pub fn integrity_checksum(
    alloc: Global,
    key: &[u8],
    key_usage: i32,
    payload: &[u8],
) -> KerberosCryptoResult<Vec<u8>>
    ensures key { IfOk result (λ _. length key.now ≡ 24) }
    ensures checksum { IfOk result (λ checksum. checksum.items ≡ hmac (des3_ki key.now key_usage) payload.now) }
    ensures rejected { IfErr result (RejectsKey 24 key.now) }
{
    let base = DesKey::new(key)?;
    let ki = derived_key(&base, &usage_ki(key_usage));
    Ok(hmac_sha1(alloc, &ki, payload, DES3_MAC_SIZE)?)
}

/// The checksum of a message that stands alone (RFC 3961, 5.4): its HMAC under Kc, of 20 octets.
///
/// `KeyLength` where the key has not 24 octets; an allocation failure is the only other error.
pub fn keyed_checksum(
    alloc: Global,
    key: &[u8],
    key_usage: i32,
    payload: &[u8],
) -> KerberosCryptoResult<Vec<u8>>
    ensures key { IfOk result (λ _. length key.now ≡ 24) }
    ensures checksum { IfOk result (λ checksum. checksum.items ≡ des3_sum key.now key_usage payload.now) }
    ensures rejected { IfErr result (RejectsKey 24 key.now) }
{
    Des3ChecksumKey::new(key, key_usage)?.checksum(alloc, payload)
}

//! Checksums under AES (RFC 3961, 5.3 and 5.4; RFC 3962, 6).

ghost use Rattle.std.specs.Prelude.{◌≡◌, length, IfOk, IfErr};
ghost use Rattle.krb_crypto_hash.specs.CryptoError.{RejectsKey};
ghost use Rattle.krb_crypto_block.specs.Size.{key_octets};
ghost use Rattle.krb_crypto_message.specs.Sealed.{mac_96, aes_ki, aes_sum};

use super::key_derivation::derived_key;
use super::prepared::AesChecksumKey;
use crate::well_known::usage_ki;
use krb_crypto_block::{AES_MAC_SIZE, AesEncryptionKey, AesSize, KerberosCryptoResult, hmac_sha1};
use std::alloc::Global;

/// The checksum that is sealed in with a payload: its HMAC under Ki, cut to 12 octets.
///
/// `KeyLength` where the key has not the size's length; an allocation failure is the only other error.
pub fn integrity_checksum(
    alloc: Global,
    key: &[u8],
    key_usage: i32,
    payload: &[u8],
    size: &AesSize,
) -> KerberosCryptoResult<Vec<u8>>
    ensures key { IfOk result (λ _. length key.now ≡ key_octets size.now) }
    ensures checksum { IfOk result (λ checksum. checksum.items ≡ mac_96 (aes_ki key.now key_usage) payload.now) }
    ensures rejected { IfErr result (RejectsKey (key_octets size.now) key.now) }
{
    let base = AesEncryptionKey::new(key, size)?;
    let ki = derived_key(&base, &usage_ki(key_usage), size);
    hmac_sha1(alloc, ki.as_slice(), payload, AES_MAC_SIZE)
}

/// The checksum of a message that stands alone (RFC 3961, 5.4): its HMAC under Kc, cut to 12 octets.
///
/// `KeyLength` where the key has not the size's length; an allocation failure is the only other error.
pub fn checksum_sha_aes(
    alloc: Global,
    key: &[u8],
    key_usage: i32,
    payload: &[u8],
    size: &AesSize,
) -> KerberosCryptoResult<Vec<u8>>
    ensures key { IfOk result (λ _. length key.now ≡ key_octets size.now) }
    ensures checksum { IfOk result (λ checksum. checksum.items ≡ aes_sum key.now key_usage payload.now) }
    ensures rejected { IfErr result (RejectsKey (key_octets size.now) key.now) }
{
    AesChecksumKey::new(key, key_usage, size)?.checksum(alloc, payload)
}

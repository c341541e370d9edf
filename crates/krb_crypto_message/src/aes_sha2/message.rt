//! Messages under the suites of RFC 8009, 5, stated once over the size of the key.

ghost use Rattle.std.specs.Prelude.{◌≡◌, ◌≢◌, ◌+◌, ◌≤◌, length, IfOk, IfErr};
ghost use Rattle.krb_crypto_hash.specs.CryptoError.{IsMemoryOr, RejectsKey};
ghost use Rattle.krb_crypto_block.specs.Size.{key_octets};
ghost use Rattle.krb_crypto_message.specs.AesSha2.{IsSealedSha2, sha2_ke, sha2_ki, sha2_checksum_octets, sha2_error};
ghost use Rattle.krb_crypto_message.specs.Sealing.{IsTheOne, IsGiven, Opens, HasNoPayload, Encrypts, OpensUnchecked, HasNoPayloadUnchecked};

use super::mac::checksum_size;
use super::prepared::{Sha2OpeningKey, Sha2SealingKey};
use crate::without_checksum::{DecryptWithoutChecksum, EncryptWithoutChecksum};
use krb_crypto_block::{AES_BLOCK_SIZE, AesSize, KerberosCryptoError, KerberosCryptoResult};
use std::alloc::Global;

/// The payload, encrypted with the confounder before it under Ke, and the HMAC of 16 zero octets and the encrypted octets
/// under Ki, cut to 16 or 24 octets.
///
/// `KeyLength` where the key has not the size's length; an allocation failure is the only other error.
pub fn encrypt_message(
    alloc: Global,
    key: &[u8],
    key_usage: i32,
    payload: &[u8],
    size: &AesSize,
    confounder: [u8; AES_BLOCK_SIZE],
) -> KerberosCryptoResult<Vec<u8>>
    ensures key { IfOk result (λ _. length key.now ≡ key_octets size.now) }
    ensures sealed { IfOk result (λ octets. IsTheOne (IsSealedSha2 size.now key.now key_usage confounder payload.now) octets.items) }
    ensures rejected { IfErr result (RejectsKey (key_octets size.now) key.now) }
{
    let keys = Sha2SealingKey::new(key, key_usage, size)?;
    keys.encrypt(alloc, payload, confounder)
}

/// The payload that was encrypted to these octets.
///
/// `CipherLength` of their number and 32 or 40 where they are fewer, then `KeyLength` where the key has not the size's length,
/// then `IntegrityCheck` where the checksum is another; nothing is decrypted before it is compared.
pub fn decrypt_message(
    alloc: Global,
    key: &[u8],
    key_usage: i32,
    cipher_data: &[u8],
    size: &AesSize,
) -> KerberosCryptoResult<Vec<u8>>
    ensures key { IfOk result (λ _. length key.now ≡ key_octets size.now) }
    ensures opened { IfOk result (λ payload. Opens 1 (IsGiven (IsSealedSha2 size.now key.now key_usage) 16 cipher_data.now) payload.items) }
    ensures rejected { length key.now ≡ key_octets size.now
        → IfErr result (λ e. IsMemoryOr e (HasNoPayload (IsSealedSha2 size.now key.now key_usage) 16 cipher_data.now)) }
    ensures exact { IfErr result (λ e. IsMemoryOr e (e ≡ sha2_error size.now key.now cipher_data.now)) }
{
    let keys = opening_keys(key, key_usage, cipher_data, size)?;
    keys.decrypt(alloc, cipher_data)
}

/// What `encrypt_message` makes, without the checksum; with it the confounder and Ki.
pub fn encrypt_message_no_checksum(
    alloc: Global,
    key: &[u8],
    key_usage: i32,
    payload: &[u8],
    size: &AesSize,
    confounder: [u8; AES_BLOCK_SIZE],
) -> KerberosCryptoResult<EncryptWithoutChecksum>
    ensures key { IfOk result (λ _. length key.now ≡ key_octets size.now) }
    ensures encrypted { IfOk result (λ made. IsTheOne
        (Encrypts (IsSealedSha2 size.now key.now key_usage) (sha2_checksum_octets size.now) confounder payload.now) made.encrypted.items) }
    ensures confounder { IfOk result (λ made. made.confounder.items ≡ confounder) }
    ensures ki { IfOk result (λ made. made.ki.items ≡ sha2_ki size.now key.now key_usage) }
    ensures rejected { IfErr result (RejectsKey (key_octets size.now) key.now) }
{
    let keys = Sha2SealingKey::new(key, key_usage, size)?;
    keys.encrypt_no_checksum(alloc, payload, confounder)
}

/// What the octets without their last 16 or 24 decrypt to, these last octets, which are not compared, and Ki.
///
/// `CipherLength` of their number and 32 or 40 where they are fewer, then `KeyLength` where the key has not the size's length.
pub fn decrypt_message_no_checksum(
    alloc: Global,
    key: &[u8],
    key_usage: i32,
    cipher_data: &[u8],
    size: &AesSize,
) -> KerberosCryptoResult<DecryptWithoutChecksum>
    ensures key { IfOk result (λ _. length key.now ≡ key_octets size.now) }
    ensures opened { IfOk result (λ made. OpensUnchecked 1 16 (sha2_checksum_octets size.now) (IsSealedSha2 size.now key.now key_usage) cipher_data.now
        made.confounder.items made.plaintext.items made.checksum.items) }
    ensures ki { IfOk result (λ made. made.ki.items ≡ sha2_ki size.now key.now key_usage) }
    ensures rejected { length key.now ≡ key_octets size.now → IfErr result (λ e. IsMemoryOr e
        (HasNoPayloadUnchecked 16 (sha2_checksum_octets size.now) (IsSealedSha2 size.now key.now key_usage) cipher_data.now)) }
    ensures exact { IfErr result (λ e. IsMemoryOr e ((e ≡ sha2_error size.now key.now cipher_data.now) × (e ≢ KerberosCryptoError.IntegrityCheck))) }
{
    let keys = opening_keys(key, key_usage, cipher_data, size)?;
    keys.decrypt_no_checksum(alloc, cipher_data)
}

/// The keys of octets that are long enough for a confounder and a checksum.
fn opening_keys(
    key: &[u8],
    key_usage: i32,
    cipher_data: &[u8],
    size: &AesSize,
) -> KerberosCryptoResult<Sha2OpeningKey>
    ensures key { IfOk result (λ _. length key.now ≡ key_octets size.now) }
    ensures long { IfOk result (λ _. 16 + sha2_checksum_octets size.now ≤ length cipher_data.now) }
    ensures size { IfOk result (λ k. k.size ≡ size.now) }
    ensures ke { IfOk result (λ k. k.keys.ke ≡ sha2_ke size.now key.now key_usage) }
    ensures ki { IfOk result (λ k. k.keys.ki ≡ sha2_ki size.now key.now key_usage) }
    ensures exact { IfErr result (λ e. (e ≡ sha2_error size.now key.now cipher_data.now) × (e ≢ KerberosCryptoError.IntegrityCheck)) }
{
    let shortest = AES_BLOCK_SIZE + checksum_size(size);
    if cipher_data.len() < shortest {
        return Err(KerberosCryptoError::CipherLength(cipher_data.len(), shortest));
    }
    Sha2OpeningKey::new(key, key_usage, size)
}

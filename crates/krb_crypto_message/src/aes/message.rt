//! Messages under AES (RFC 3961, 5.3; RFC 3962, 6), stated once over the size of the key.

ghost use Rattle.std.specs.Prelude.{◌≡◌, ◌≢◌, ◌≤◌, length, IfOk, IfErr};
ghost use Rattle.krb_crypto_hash.specs.CryptoError.{IsMemoryOr, RejectsKey};
ghost use Rattle.krb_crypto_block.specs.Size.{key_octets};
ghost use Rattle.krb_crypto_message.specs.Sealed.{IsSealedAes, aes_ke, aes_ki, aes_error};
ghost use Rattle.krb_crypto_message.specs.Sealing.{IsTheOne, IsGiven, Opens, HasNoPayload, Encrypts, OpensUnchecked, HasNoPayloadUnchecked};

use super::prepared::{AesOpeningKey, AesSealingKey, SHORTEST};
use crate::without_checksum::{DecryptWithoutChecksum, EncryptWithoutChecksum};
use krb_crypto_block::{AES_BLOCK_SIZE, AesSize, KerberosCryptoError, KerberosCryptoResult};
use std::alloc::Global;

/// The payload, encrypted with the confounder before it under Ke, and the HMAC of both under Ki, cut to 12 octets.
///
/// `KeyLength` where the key has not the size's length; an allocation failure is the only other error.
pub fn encrypt_message(
    alloc: Global,
    key: &[u8],
    key_usage: i32,
    payload: &[u8],
    size: &AesSize,
    confounder: [u8; AES_BLOCK_SIZE],
) -> KerberosCryptoResult<Vec<u8>>
    ensures key { IfOk result (λ _. length key.now ≡ key_octets size.now) }
    ensures sealed { IfOk result (λ octets. IsTheOne (IsSealedAes key.now key_usage confounder payload.now) octets.items) }
    ensures rejected { IfErr result (RejectsKey (key_octets size.now) key.now) }
{
    let keys = AesSealingKey::new(key, key_usage, size)?;
    keys.encrypt(alloc, payload, confounder)
}

/// The payload that was encrypted to these octets.
///
/// `CipherLength` of their number and 28 where they are fewer, then `KeyLength` where the key has not the size's length,
/// then `IntegrityCheck` where the checksum is another; nothing is returned before it is compared.
pub fn decrypt_message(
    alloc: Global,
    key: &[u8],
    key_usage: i32,
    cipher_data: &[u8],
    size: &AesSize,
) -> KerberosCryptoResult<Vec<u8>>
    ensures key { IfOk result (λ _. length key.now ≡ key_octets size.now) }
    ensures opened { IfOk result (λ payload. Opens 1 (IsGiven (IsSealedAes key.now key_usage) 16 cipher_data.now) payload.items) }
    ensures rejected { length key.now ≡ key_octets size.now
        → IfErr result (λ e. IsMemoryOr e (HasNoPayload (IsSealedAes key.now key_usage) 16 cipher_data.now)) }
    ensures exact { IfErr result (λ e. IsMemoryOr e (e ≡ aes_error (key_octets size.now) key.now cipher_data.now)) }
{
    let keys = opening_keys(key, key_usage, cipher_data, size)?;
    keys.decrypt(alloc, cipher_data)
}

/// What `encrypt_message` makes, without the checksum; with it the confounder and Ki.
pub fn encrypt_message_no_checksum(
    alloc: Global,
    key: &[u8],
    key_usage: i32,
    payload: &[u8],
    size: &AesSize,
    confounder: [u8; AES_BLOCK_SIZE],
) -> KerberosCryptoResult<EncryptWithoutChecksum>
    ensures key { IfOk result (λ _. length key.now ≡ key_octets size.now) }
    ensures encrypted { IfOk result (λ made. IsTheOne (Encrypts (IsSealedAes key.now key_usage) 12 confounder payload.now) made.encrypted.items) }
    ensures confounder { IfOk result (λ made. made.confounder.items ≡ confounder) }
    ensures ki { IfOk result (λ made. made.ki.items ≡ aes_ki key.now key_usage) }
    ensures rejected { IfErr result (RejectsKey (key_octets size.now) key.now) }
{
    let keys = AesSealingKey::new(key, key_usage, size)?;
    keys.encrypt_no_checksum(alloc, payload, confounder)
}

/// What the octets without their last 12 decrypt to, these 12 octets, which are not compared, and Ki.
///
/// `CipherLength` of their number and 28 where they are fewer, then `KeyLength` where the key has not the size's length.
pub fn decrypt_message_no_checksum(
    alloc: Global,
    key: &[u8],
    key_usage: i32,
    cipher_data: &[u8],
    size: &AesSize,
) -> KerberosCryptoResult<DecryptWithoutChecksum>
    ensures key { IfOk result (λ _. length key.now ≡ key_octets size.now) }
    ensures opened { IfOk result (λ made. OpensUnchecked 1 16 12 (IsSealedAes key.now key_usage) cipher_data.now
        made.confounder.items made.plaintext.items made.checksum.items) }
    ensures ki { IfOk result (λ made. made.ki.items ≡ aes_ki key.now key_usage) }
    ensures rejected { length key.now ≡ key_octets size.now
        → IfErr result (λ e. IsMemoryOr e (HasNoPayloadUnchecked 16 12 (IsSealedAes key.now key_usage) cipher_data.now)) }
    ensures exact { IfErr result (λ e. IsMemoryOr e ((e ≡ aes_error (key_octets size.now) key.now cipher_data.now)
        × (e ≢ KerberosCryptoError.IntegrityCheck))) }
{
    let keys = opening_keys(key, key_usage, cipher_data, size)?;
    keys.decrypt_no_checksum(alloc, cipher_data)
}

/// The keys of octets that are long enough for a confounder and a checksum.
fn opening_keys(
    key: &[u8],
    key_usage: i32,
    cipher_data: &[u8],
    size: &AesSize,
) -> KerberosCryptoResult<AesOpeningKey>
    ensures made { IfOk result (λ k. (length key.now ≡ key_octets size.now) × (k.ke ≡ aes_ke key.now key_usage) × (k.ki ≡ aes_ki key.now key_usage)) }
    ensures long { IfOk result (λ _. 28 ≤ length cipher_data.now) }
    ensures exact { IfErr result (λ e. (e ≡ aes_error (key_octets size.now) key.now cipher_data.now) × (e ≢ KerberosCryptoError.IntegrityCheck)) }
{
    if cipher_data.len() < SHORTEST {
        return Err(KerberosCryptoError::CipherLength(cipher_data.len(), SHORTEST));
    }
    AesOpeningKey::new(key, key_usage, size)
}

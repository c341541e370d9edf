//! Messages under triple DES (RFC 3961, 5.3 and 6.3).

ghost use Rattle.std.specs.Prelude.{◌≡◌, ◌≢◌, length, IfOk, IfErr};
ghost use Rattle.krb_crypto_hash.specs.CryptoError.{IsMemoryOr, RejectsKey};
ghost use Rattle.krb_crypto_message.specs.Sealed.{IsSealedDes3, des3_ki, des3_error};
ghost use Rattle.krb_crypto_message.specs.Sealing.{IsTheOne, IsGiven, Opens, HasNoPayload, Encrypts, OpensUnchecked, HasNoPayloadUnchecked};

use super::prepared::Des3MessageKey;
use crate::without_checksum::{DecryptWithoutChecksum, EncryptWithoutChecksum};
use krb_crypto_block::{DES3_BLOCK_SIZE, KerberosCryptoError, KerberosCryptoResult};
use std::alloc::Global;

/// The payload, encrypted with the confounder before it and zeros to whole blocks after it under Ke, and the HMAC of
/// all this under Ki, of 20 octets.
///
/// `KeyLength` where the key has not 24 octets; an allocation failure is the only other error.
pub fn encrypt_message(
    alloc: Global,
    key: &[u8],
    key_usage: i32,
    payload: &[u8],
    confounder: [u8; DES3_BLOCK_SIZE],
) -> KerberosCryptoResult<Vec<u8>>
    ensures key { IfOk result (λ _. length key.now ≡ 24) }
    ensures sealed { IfOk result (λ octets. IsTheOne (IsSealedDes3 key.now key_usage confounder payload.now) octets.items) }
    ensures rejected { IfErr result (RejectsKey 24 key.now) }
{
    let keys = Des3MessageKey::new(key, key_usage)?;
    keys.encrypt(alloc, payload, confounder)
}

/// The payload that was encrypted to these octets, with its padding, whatever that is.
///
/// `KeyLength` where the key has not 24 octets, then `CipherLength` of their number and 28 where they are fewer, then
/// `CipherUnpad` where those before the last 20 are not whole blocks of 8, then `IntegrityCheck` where the checksum
/// is another; nothing is returned before it is compared.
pub fn decrypt_message(
    alloc: Global,
    key: &[u8],
    key_usage: i32,
    cipher_data: &[u8],
) -> KerberosCryptoResult<Vec<u8>>
    ensures key { IfOk result (λ _. length key.now ≡ 24) }
    ensures opened { IfOk result (λ payload. Opens 8 (IsGiven (IsSealedDes3 key.now key_usage) 8 cipher_data.now) payload.items) }
    ensures rejected { length key.now ≡ 24 → IfErr result (λ e. IsMemoryOr e (HasNoPayload (IsSealedDes3 key.now key_usage) 8 cipher_data.now)) }
    ensures exact { IfErr result (λ e. IsMemoryOr e (e ≡ des3_error key.now cipher_data.now)) }
{
    let keys = Des3MessageKey::new(key, key_usage)?;
    keys.decrypt(alloc, cipher_data)
}

/// What `encrypt_message` makes, without the checksum; with it the confounder and Ki.
pub fn encrypt_message_no_checksum(
    alloc: Global,
    key: &[u8],
    key_usage: i32,
    payload: &[u8],
    confounder: [u8; DES3_BLOCK_SIZE],
) -> KerberosCryptoResult<EncryptWithoutChecksum>
    ensures key { IfOk result (λ _. length key.now ≡ 24) }
    ensures encrypted { IfOk result (λ made. IsTheOne (Encrypts (IsSealedDes3 key.now key_usage) 20 confounder payload.now) made.encrypted.items) }
    ensures confounder { IfOk result (λ made. made.confounder.items ≡ confounder) }
    ensures ki { IfOk result (λ made. made.ki.items ≡ des3_ki key.now key_usage) }
    ensures rejected { IfErr result (RejectsKey 24 key.now) }
{
    let keys = Des3MessageKey::new(key, key_usage)?;
    keys.encrypt_no_checksum(alloc, payload, confounder)
}

/// What the octets without their last 20 decrypt to, with the padding, whatever that is, these 20 octets, which are not
/// compared, and Ki.
///
/// `KeyLength`, `CipherLength` and `CipherUnpad` as in `decrypt_message`, in this order.
pub fn decrypt_message_no_checksum(
    alloc: Global,
    key: &[u8],
    key_usage: i32,
    cipher_data: &[u8],
) -> KerberosCryptoResult<DecryptWithoutChecksum>
    ensures key { IfOk result (λ _. length key.now ≡ 24) }
    ensures opened { IfOk result (λ made. OpensUnchecked 8 8 20 (IsSealedDes3 key.now key_usage) cipher_data.now
        made.confounder.items made.plaintext.items made.checksum.items) }
    ensures ki { IfOk result (λ made. made.ki.items ≡ des3_ki key.now key_usage) }
    ensures rejected { length key.now ≡ 24 → IfErr result (λ e. IsMemoryOr e (HasNoPayloadUnchecked 8 20 (IsSealedDes3 key.now key_usage) cipher_data.now)) }
    ensures exact { IfErr result (λ e. IsMemoryOr e ((e ≡ des3_error key.now cipher_data.now) × (e ≢ KerberosCryptoError.IntegrityCheck))) }
{
    let keys = Des3MessageKey::new(key, key_usage)?;
    keys.decrypt_no_checksum(alloc, cipher_data)
}

//! The two keys of a message under AES (RFC 3961, 5.3).

ghost use Rattle.std.specs.Prelude.{◌≡◌, length, IfOk, IfErr};
ghost use Rattle.krb_crypto_hash.specs.CryptoError.{IsKeyLengthError};
ghost use Rattle.krb_crypto_block.specs.Size.{key_octets};
ghost use Rattle.krb_crypto_message.specs.Sealed.{aes_ke, aes_ki};

use super::key_derivation::derived_key;
use crate::message_keys::MessageKeys;
use crate::well_known::{usage_ke, usage_ki};
use krb_crypto_block::{AesEncryptionKey, AesSize, KerberosCryptoResult};

/// Ke and Ki of this usage, of the key's length (RFC 3962, 6), from one expansion of the base key. `KeyLength` where the key has not the size's
/// length; it allocates nothing.
pub fn derive_message_keys(
    key: &[u8],
    key_usage: i32,
    size: &AesSize,
) -> KerberosCryptoResult<MessageKeys>
    ensures key { IfOk result (λ _. length key.now ≡ key_octets size.now) }
    ensures ke { IfOk result (λ keys. keys.ke ≡ aes_ke key.now key_usage) }
    ensures ki { IfOk result (λ keys. keys.ki ≡ aes_ki key.now key_usage) }
    ensures size { IfOk result (λ keys. (length keys.ke ≡ key_octets size.now) × (length keys.ki ≡ key_octets size.now)) }
    ensures rejected { IfErr result (IsKeyLengthError (key_octets size.now) key.now) }
{
    let base = AesEncryptionKey::new(key, size)?;
    let ke = derived_key(&base, &usage_ke(key_usage), size);
    let ki = derived_key(&base, &usage_ki(key_usage), size);
    Ok(MessageKeys::new(ke, ki))
}

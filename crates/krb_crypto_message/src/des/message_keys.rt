//! The two keys of a message under triple DES (RFC 3961, 5.3 and 6.3).

ghost use Rattle.std.specs.Prelude.{◌≡◌, length, IfOk, IfErr};
ghost use Rattle.krb_crypto_hash.specs.CryptoError.{IsKeyLengthError};
ghost use Rattle.krb_crypto_message.specs.Sealed.{des3_ke, des3_ki};

use super::key_derivation::derived_key;
use crate::message_keys::MessageKeys;
use crate::short_octets::ShortOctets;
use crate::well_known::{usage_ke, usage_ki};
use krb_crypto_block::{DesKey, KerberosCryptoResult};

/// Ke and Ki of this usage, of 24 octets each, from one schedule of the base key. `KeyLength` where the key has not 24 octets; it allocates
/// nothing.
pub fn derive_message_keys(key: &[u8], key_usage: i32) -> KerberosCryptoResult<MessageKeys>
    ensures key { IfOk result (λ _. length key.now ≡ 24) }
    ensures ke { IfOk result (λ keys. keys.ke ≡ des3_ke key.now key_usage) }
    ensures ki { IfOk result (λ keys. keys.ki ≡ des3_ki key.now key_usage) }
    ensures size { IfOk result (λ keys. (length keys.ke ≡ 24) × (length keys.ki ≡ 24)) }
    ensures rejected { IfErr result (IsKeyLengthError 24 key.now) }
{
    let base = DesKey::new(key)?;
    let mut ke = ShortOctets::empty();
    ke.push(&derived_key(&base, &usage_ke(key_usage)));
    let mut ki = ShortOctets::empty();
    ki.push(&derived_key(&base, &usage_ki(key_usage)));
    Ok(MessageKeys::new(ke, ki))
}

//! The two keys of a message under the suites of RFC 8009.

ghost use Rattle.std.specs.Prelude.{◌≡◌, length, IfOk, IfErr};
ghost use Rattle.krb_crypto_hash.specs.CryptoError.{IsKeyLengthError};
ghost use Rattle.krb_crypto_block.specs.Size.{key_octets};
ghost use Rattle.krb_crypto_message.specs.AesSha2.{sha2_ke, sha2_ki, sha2_checksum_octets};

use super::key_derivation::test_key;
use super::keyed_hash::KeyedHash;
use super::mac::checksum_size;
use crate::message_keys::MessageKeys;
use crate::well_known::{usage_ke, usage_ki};
use krb_crypto_block::{AesSize, KerberosCryptoResult};

/// Ke, of the key's length, and Ki, of a checksum's, of this usage (RFC 8009, 5), from one keyed hash. `KeyLength` where the key has not the
/// size's length; it allocates nothing.
pub fn derive_message_keys(
    key: &[u8],
    key_usage: i32,
    size: &AesSize,
) -> KerberosCryptoResult<MessageKeys>
    ensures key { IfOk result (λ _. length key.now ≡ key_octets size.now) }
    ensures ke { IfOk result (λ keys. keys.ke ≡ sha2_ke size.now key.now key_usage) }
    ensures ki { IfOk result (λ keys. keys.ki ≡ sha2_ki size.now key.now key_usage) }
    ensures size { IfOk result (λ keys. (length keys.ke ≡ key_octets size.now) × (length keys.ki ≡ sha2_checksum_octets size.now)) }
    ensures rejected { IfErr result (IsKeyLengthError (key_octets size.now) key.now) }
{
    test_key(key, size)?;
    let base = KeyedHash::new(key, size);
    let ke = base.derived(&usage_ke(key_usage), size.key_length());
    let ki = base.derived(&usage_ki(key_usage), checksum_size(size));
    Ok(MessageKeys::new(ke, ki))
}

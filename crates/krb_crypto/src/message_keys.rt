//! The two keys of a message (RFC 3961, 5.3), as octets that a caller can keep.

ghost use Rattle.std.specs.Prelude.{◌≡◌, ◌≤◌, length, IfOk, IfErr};
ghost use Rattle.krb_crypto_hash.specs.CryptoError.{IsKeyLengthError};
ghost use Rattle.krb_crypto.specs.BySuite.{key_octets_of, integrity_key_of};
ghost use Rattle.krb_crypto.specs.PreparedKeys.{RejectsMessageKeys, encryption_key_of, integrity_key_octets_of};

use crate::cipher::Cipher;
use crate::cipher_suite::CipherSuite;
use krb_crypto_block::{AesSize, KerberosCryptoError, KerberosCryptoResult};
use krb_crypto_message::{MessageKeys, aes, aes_sha2, des};

/// Ke and Ki of a key of this suite for a usage (RFC 3961, 5.3; RFC 8009, 5), of which `SealingKey` and `OpeningKey` are made again without a
/// derivation. `KeyLength` where the key has not as many octets as the suite's keys have; it allocates nothing.
pub fn derive_message_keys(
    suite: &CipherSuite,
    key: &[u8],
    key_usage: i32,
) -> KerberosCryptoResult<MessageKeys>
    ensures key { IfOk result (λ _. length key.now ≡ key_octets_of suite.now) }
    ensures ke { IfOk result (λ keys. keys.ke ≡ encryption_key_of suite.now key.now key_usage) }
    ensures ki { IfOk result (λ keys. keys.ki ≡ integrity_key_of suite.now key.now key_usage) }
    ensures ke_size { IfOk result (λ keys. length keys.ke ≡ key_octets_of suite.now) }
    ensures ki_size { IfOk result (λ keys. length keys.ki ≡ integrity_key_octets_of suite.now) }
    ensures rejected { IfErr result (IsKeyLengthError (key_octets_of suite.now) key.now) }
{
    match suite {
        CipherSuite::Aes128CtsHmacSha196 => {
            aes::derive_message_keys(key, key_usage, &AesSize::Aes128)
        }
        CipherSuite::Aes256CtsHmacSha196 => {
            aes::derive_message_keys(key, key_usage, &AesSize::Aes256)
        }
        CipherSuite::Des3CbcSha1Kd => des::derive_message_keys(key, key_usage),
        CipherSuite::Aes128CtsHmacSha256128 => {
            aes_sha2::derive_message_keys(key, key_usage, &AesSize::Aes128)
        }
        CipherSuite::Aes256CtsHmacSha384192 => {
            aes_sha2::derive_message_keys(key, key_usage, &AesSize::Aes256)
        }
    }
}

/// The octets of Ki: as many as a key has, and under the suites of RFC 8009 as a checksum.
pub fn integrity_key_size(suite: &CipherSuite) -> usize
    ensures size { result ≡ integrity_key_octets_of suite.now }
    ensures short { result ≤ 32 }
{
    match suite {
        CipherSuite::Aes128CtsHmacSha196 => 16,
        CipherSuite::Aes256CtsHmacSha196 => 32,
        CipherSuite::Des3CbcSha1Kd => 24,
        CipherSuite::Aes128CtsHmacSha256128 => 16,
        CipherSuite::Aes256CtsHmacSha384192 => 24,
    }
}

/// Refuses a Ke or a Ki of another length than the suite's, Ke first.
pub(crate) fn check_message_keys(
    suite: &CipherSuite,
    ke: &[u8],
    ki: &[u8],
) -> KerberosCryptoResult<()>
    ensures size { IfOk result (λ _. length ke.now ≡ key_octets_of suite.now) }
    ensures integrity_size { IfOk result (λ _. length ki.now ≡ integrity_key_octets_of suite.now) }
    ensures short { IfOk result (λ _. length ki.now ≤ 32) }
    ensures rejected { IfErr result (RejectsMessageKeys suite.now ke.now ki.now) }
{
    let size = suite.key_size();
    if ke.len() != size {
        return Err(KerberosCryptoError::KeyLength(ke.len(), size));
    }
    let integrity_size = integrity_key_size(suite);
    if ki.len() != integrity_size {
        return Err(KerberosCryptoError::KeyLength(ki.len(), integrity_size));
    }
    Ok(())
}

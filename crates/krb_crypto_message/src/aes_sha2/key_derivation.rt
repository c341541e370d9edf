//! Keys of the suites of RFC 8009 from keys and from passwords (RFC 8009, 3 and 4).

ghost use Rattle.std.specs.Prelude.{◌≡◌, ◌≤◌, length, IfOk, IfErr, MatchResult};
ghost use Rattle.krb_crypto_hash.specs.CryptoError.{IsKeyLengthError};
ghost use Rattle.krb_crypto_hash.specs.Pbkdf2.{IsPbkdf2Over};
ghost use Rattle.krb_crypto_hash.specs.declared.error.KerberosCryptoError.TheVariants.{OutOfMemory};
ghost use Rattle.krb_crypto_block.specs.Size.{key_octets};
ghost use Rattle.krb_crypto_message.specs.AesSha2.{sha2_hmac, sha2_hmac_octets, sha2_salt, IsSha2PasswordKey};
ghost use Rattle.krb_crypto_message.specs.Sealing.{IsTheOne};

use super::keyed_hash::KeyedHash;
use crate::well_known::KERBEROS;
use krb_crypto_block::{AesSize, KerberosCryptoError, KerberosCryptoResult};
use krb_crypto_hash::{pbkdf2_hmac_sha256, pbkdf2_hmac_sha384};
use std::alloc::Global;

/// The rounds of PBKDF2 by default (RFC 8009, 4).
const PBKDF2_ROUNDS: u32 = 32768;

/// The names of the suites, which stand before a salt with a zero octet between (RFC 8009, 4).
const AES128_NAME: &[u8; 26] = b"aes128-cts-hmac-sha256-128";

const AES256_NAME: &[u8; 26] = b"aes256-cts-hmac-sha384-192";

/// `KeyLength` where the key has not the size's length.
pub(crate) fn test_key(key: &[u8], size: &AesSize) -> KerberosCryptoResult<()>
    ensures { MatchResult result (λ _. length key.now ≡ key_octets size.now) (IsKeyLengthError (key_octets size.now) key.now) }
{
    let wanted = size.key_length();
    if key.len() != wanted {
        return Err(KerberosCryptoError::KeyLength(key.len(), wanted));
    }
    Ok(())
}

/// The key that a password and a salt give (string-to-key of RFC 8009, 4): PBKDF2 with the suite's HMAC, 32768 rounds and the
/// suite's name before the salt, and the key that is derived from it with the label "kerberos". `OutOfMemory` is the only
/// error.
pub fn derive_key_from_password(
    alloc: Global,
    password: &[u8],
    salt: &[u8],
    size: &AesSize,
) -> KerberosCryptoResult<Vec<u8>>
    ensures size { IfOk result (λ key. length key.items ≡ key_octets size.now) }
    ensures made { IfOk result (λ key. IsTheOne (IsSha2PasswordKey size.now password.now salt.now) key.items) }
    ensures rejected { IfErr result (λ e. e ≡ OutOfMemory) }
{
    let named = named_salt(alloc, salt, size)?;
    let mut seed = vec![in alloc; 0u8; size.key_length()]?;
    stretch(password, &named, &mut seed, size);
    let key = KeyedHash::new(&seed, size).derived(KERBEROS, size.key_length());
    Ok(Vec::from_slice(alloc, key.as_slice())?)
}

/// The suite's name, a zero octet and the salt (RFC 8009, 4).
fn named_salt(alloc: Global, salt: &[u8], size: &AesSize) -> KerberosCryptoResult<Vec<u8>>
    ensures { MatchResult result (λ named. named.items ≡ sha2_salt size.now salt.now) (λ e. e ≡ OutOfMemory) }
{
    let name = match size {
        AesSize::Aes128 => AES128_NAME,
        AesSize::Aes256 => AES256_NAME,
    };
    let mut named = Vec::from_slice(alloc, name)?;
    named.push(0)?;
    named.extend_from_slice(salt)?;
    Ok(named)
}

/// Fills `out`, of at most 32 octets, with what PBKDF2 with the suite's HMAC derives (RFC 8009, 4).
fn stretch(password: &[u8], salt: &[u8], out: &mut [u8], size: &AesSize)
    requires { length out.old ≤ 32 }
    ensures { IsPbkdf2Over (sha2_hmac size.now) (sha2_hmac_octets size.now) password.now salt.now 32768 out.new }
{
    match size {
        AesSize::Aes128 => pbkdf2_hmac_sha256(password, salt, PBKDF2_ROUNDS, out),
        AesSize::Aes256 => pbkdf2_hmac_sha384(password, salt, PBKDF2_ROUNDS, out),
    }
}

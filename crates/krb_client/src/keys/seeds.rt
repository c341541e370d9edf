//! String-to-key of the suites of AES, with a number of iterations (RFC 3962, 4; RFC 8009, 4).

ghost use Rattle.std.specs.Prelude.{◌≡◌, ◌<◌, IfOk};
ghost use Rattle.krb_crypto_block.specs.declared.aes.AesSize.TheVariants.{Aes128, Aes256};
ghost use Rattle.krb_crypto_message.specs.AesSha2.{sha2_salt};
ghost use Rattle.krb_client.specs.PasswordKeys.{IsAesKey, IsSha2Key};

use krb_crypto_block::AesSize;
use krb_crypto_hash::{
    KerberosCryptoResult, kdf_hmac_sha256, kdf_hmac_sha384, pbkdf2_hmac_sha1, pbkdf2_hmac_sha256,
    pbkdf2_hmac_sha384,
};
use krb_crypto_message::{KERBEROS, aes};
use std::alloc::{AllocError, Global};

/// The names of the suites, which stand before a salt with a zero octet between (RFC 8009, 4).
const AES128_NAME: &[u8; 26] = b"aes128-cts-hmac-sha256-128";

const AES256_NAME: &[u8; 26] = b"aes256-cts-hmac-sha384-192";

/// The key of aes128-cts-hmac-sha1-96.
pub(crate) fn aes128_key(
    alloc: Global,
    password: &[u8],
    salt: &[u8],
    iterations: u32,
) -> KerberosCryptoResult<Vec<u8>>
    requires { 0 < iterations }
    ensures { IfOk result (λ key. IsAesKey 16 password.now salt.now iterations key.items) }
{
    let mut seed = [0; 16];
    pbkdf2_hmac_sha1(password, salt, iterations, &mut seed);
    aes::derive_key(alloc, &seed, KERBEROS, &AesSize::Aes128)
}

/// The key of aes256-cts-hmac-sha1-96.
pub(crate) fn aes256_key(
    alloc: Global,
    password: &[u8],
    salt: &[u8],
    iterations: u32,
) -> KerberosCryptoResult<Vec<u8>>
    requires { 0 < iterations }
    ensures { IfOk result (λ key. IsAesKey 32 password.now salt.now iterations key.items) }
{
    let mut seed = [0; 32];
    pbkdf2_hmac_sha1(password, salt, iterations, &mut seed);
    aes::derive_key(alloc, &seed, KERBEROS, &AesSize::Aes256)
}

/// The suite's name, a zero octet and the salt (RFC 8009, 4).
fn named_salt(alloc: Global, size: &AesSize, salt: &[u8]) -> Result<Vec<u8>, AllocError>
    ensures { IfOk result (λ named. named.items ≡ sha2_salt size.now salt.now) }
{
    let name = match size {
        AesSize::Aes128 => AES128_NAME,
        AesSize::Aes256 => AES256_NAME,
    };
    let mut named = Vec::from_slice(alloc, name)?;
    named.push(0)?;
    named.extend_from_slice(salt)?;
    Ok(named)
}

/// The key of aes128-cts-hmac-sha256-128.
pub(crate) fn aes128_sha256_key(
    alloc: Global,
    password: &[u8],
    salt: &[u8],
    iterations: u32,
) -> KerberosCryptoResult<Vec<u8>>
    requires { 0 < iterations }
    ensures { IfOk result (λ key. IsSha2Key Aes128 password.now salt.now iterations key.items) }
{
    let named = named_salt(alloc, &AesSize::Aes128, salt)?;
    let mut seed = [0; 16];
    pbkdf2_hmac_sha256(password, named.as_slice(), iterations, &mut seed);
    let key = kdf_hmac_sha256(alloc, &seed, KERBEROS, 128)?;
    Ok(key)
}

/// The key of aes256-cts-hmac-sha384-192.
pub(crate) fn aes256_sha384_key(
    alloc: Global,
    password: &[u8],
    salt: &[u8],
    iterations: u32,
) -> KerberosCryptoResult<Vec<u8>>
    requires { 0 < iterations }
    ensures { IfOk result (λ key. IsSha2Key Aes256 password.now salt.now iterations key.items) }
{
    let named = named_salt(alloc, &AesSize::Aes256, salt)?;
    let mut seed = [0; 32];
    pbkdf2_hmac_sha384(password, named.as_slice(), iterations, &mut seed);
    let key = kdf_hmac_sha384(alloc, &seed, KERBEROS, 256)?;
    Ok(key)
}

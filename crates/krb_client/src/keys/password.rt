//! Keys of passwords (string-to-key of RFC 3961, 3), with what a KDC tells of them.

ghost use Rattle.std.specs.Prelude.{◌≡◌, ◌<◌, ◌⊎◌, IfErr, IfOk, MatchBool, MatchResult};
ghost use Rattle.std.specs.Option.{option_copied};
ghost use Rattle.krb_crypto.specs.declared.cipher_suite.CipherSuite.TheVariants as cipher;
ghost use Rattle.krb_client.specs.PasswordKeys.{IsKeyOf, IsKeyOfPassword, IsNoKeyOfPassword, IsOtherLength, Iterates, default_iterations};
ghost use Rattle.krb_client.specs.declared.keys.password.PasswordError.TheVariants as errors;

use crate::keys::limits::Limits;
use crate::keys::seeds::{aes128_key, aes128_sha256_key, aes256_key, aes256_sha384_key};
use krb_crypto::CipherSuite;
use krb_crypto_hash::KerberosCryptoError;
use std::alloc::Global;
use thiserror::Error;

/// Why a password gives no key.
#[derive(Debug, Clone, Copy, PartialEq, Eq, Error)]
pub enum PasswordError {
    /// The suite is triple DES, whose string-to-key has no iterations (RFC 3961, 6.3.1).
    #[error("a password has no key of triple DES here")]
    Suite,
    /// The parameters of string-to-key are not four octets (RFC 3962, 4; RFC 8009, 4).
    #[error("the parameters of string-to-key are not four octets")]
    Parameters,
    /// This number of iterations is past a limit.
    #[error("{0} iterations are past the limits")]
    Iterations(u64),
    /// An allocation failed.
    #[error("memory")]
    OutOfMemory,
}

/// An allocation failure is the only error of string-to-key under AES.
impl From<KerberosCryptoError> for PasswordError {
    ghost from_gives = { λ _ e. e ≡ errors.OutOfMemory };

    fn from(_error: KerberosCryptoError) -> PasswordError {
        PasswordError::OutOfMemory
    }
}

/// The number of iterations by default (RFC 3962, 4; RFC 8009, 4).
fn default_iterations(suite: &CipherSuite) -> u64
    ensures { result ≡ default_iterations suite.now }
{
    match suite {
        CipherSuite::Aes128CtsHmacSha196 | CipherSuite::Aes256CtsHmacSha196 => 4096,
        CipherSuite::Aes128CtsHmacSha256128 | CipherSuite::Aes256CtsHmacSha384192 => 32768,
        CipherSuite::Des3CbcSha1Kd => 0,
    }
}

/// The number in the parameters. `Parameters` where these are not four octets.
fn iterations_in(octets: &[u8]) -> Result<u64, PasswordError>
    ensures { MatchResult result (λ n. Iterates cipher.Des3CbcSha1Kd (Some octets.now) n)
        (λ e. (e ≡ errors.Parameters) × IsOtherLength (Some octets.now)) }
{
    let [first, second, third, fourth] = octets else {
        return Err(PasswordError::Parameters);
    };
    let number = u32::from_be_bytes([*first, *second, *third, *fourth]);
    if number == 0 {
        return Ok(1 << 32);
    }
    Ok(u64::from(number))
}

/// The number of iterations.
fn iterations_of(suite: &CipherSuite, parameters: Option<&[u8]>) -> Result<u64, PasswordError>
    ensures { MatchResult result (Iterates suite.now (option_copied parameters.entry))
        (λ e. (e ≡ errors.Parameters) × IsOtherLength (option_copied parameters.entry)) }
{
    match parameters {
        Some(octets) => iterations_in(octets),
        None => Ok(default_iterations(suite)),
    }
}

/// The key of a suite of AES.
fn key_of(
    alloc: Global,
    suite: &CipherSuite,
    password: &[u8],
    salt: &[u8],
    iterations: u32,
) -> Result<Vec<u8>, PasswordError>
    requires { 0 < iterations }
    ensures key { IfOk result (λ key. IsKeyOf suite.now password.now salt.now iterations key.items) }
    ensures rejected { IfErr result (λ e. (e ≡ errors.OutOfMemory) ⊎ ((e ≡ errors.Suite) ×
        (suite.now ≡ cipher.Des3CbcSha1Kd))) }
{
    match suite {
        CipherSuite::Aes128CtsHmacSha196 => Ok(aes128_key(alloc, password, salt, iterations)?),
        CipherSuite::Aes256CtsHmacSha196 => Ok(aes256_key(alloc, password, salt, iterations)?),
        CipherSuite::Aes128CtsHmacSha256128 => {
            Ok(aes128_sha256_key(alloc, password, salt, iterations)?)
        }
        CipherSuite::Aes256CtsHmacSha384192 => {
            Ok(aes256_sha384_key(alloc, password, salt, iterations)?)
        }
        CipherSuite::Des3CbcSha1Kd => Err(PasswordError::Suite),
    }
}

/// Whether the suite is triple DES.
fn is_triple_des(suite: &CipherSuite) -> bool
    ensures { MatchBool result (suite.now ≡ cipher.Des3CbcSha1Kd) (suite.now ≡ cipher.Des3CbcSha1Kd → ⊥) }
{
    match suite {
        CipherSuite::Des3CbcSha1Kd => true,
        _ => false,
    }
}

/// The key of a password and a salt, with these parameters of string-to-key (`s2kparams` of RFC
/// 4120, 5.2.7.5), or by default.
///
/// `Suite` for triple DES; else `Parameters` where they are not four octets; else `Iterations`
/// where their number is past the limits. Until then nothing is done with the password.
#[tactic(auto, using(crate::proofs::SameKeys::one_key))]
pub fn key_of_password(
    alloc: Global,
    suite: &CipherSuite,
    password: &[u8],
    salt: &[u8],
    parameters: Option<&[u8]>,
    limits: &Limits,
) -> Result<Vec<u8>, PasswordError>
    ensures key { IfOk result (λ key. IsKeyOfPassword suite.now password.now salt.now
        (option_copied parameters.entry) limits.now key.items) }
    ensures rejected { IfErr result (IsNoKeyOfPassword suite.now (option_copied parameters.entry) limits.now) }
{
    if is_triple_des(suite) {
        return Err(PasswordError::Suite);
    }
    let iterations = iterations_of(suite, parameters)?;
    if iterations == 0
        || iterations < u64::from(limits.least)
        || iterations > u64::from(limits.most)
    {
        return Err(PasswordError::Iterations(iterations));
    }
    let key = key_of(alloc, suite, password, salt, iterations as u32)?;
    Ok(key)
}

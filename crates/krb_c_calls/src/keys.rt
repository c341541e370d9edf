//! Keys of passwords and of random octets, and n-fold.

ghost use Rattle.std.specs.Prelude.{◌≡◌, MatchResult};
ghost use Rattle.krb_c_calls.specs.Statuses.{refusal_status};
ghost use Rattle.krb_c_calls.specs.Handing.{IsAnswered};
ghost use Rattle.krb_c_calls.specs.Keys.{IsKeyOfPasswordBy, RefusesPasswordBy, IsKeyOfPassword, RefusesPassword, IsKeyOfSeedBy, RefusesSeedBy, IsKeyOfSeed, RefusesSeed, IsFolding};

use crate::call_error::{CallError, DONE};
use crate::handing::hand_out;
use crate::suites::cipher_suite_of;
use krb_crypto::{Cipher, CipherSuite};
use krb_crypto_block::in_place::n_fold_into;
use std::alloc::Global;

fn key_of_password_by(
    alloc: Global,
    suite: &CipherSuite,
    password: &[u8],
    salt: &[u8],
) -> Result<Vec<u8>, CallError>
    ensures { MatchResult result
        (λ made. IsKeyOfPasswordBy suite.now password.now salt.now made.items)
        (λ e. RefusesPasswordBy suite.now password.now salt.now (refusal_status e)) }
{
    Ok(suite.generate_key_from_password(alloc, password, salt)?)
}

fn key_of_password(
    alloc: Global,
    etype: i32,
    password: &[u8],
    salt: &[u8],
) -> Result<Vec<u8>, CallError>
    ensures { MatchResult result
        (λ made. IsKeyOfPassword etype password.now salt.now made.items)
        (λ e. RefusesPassword etype password.now salt.now (refusal_status e)) }
{
    let suite = cipher_suite_of(etype)?;
    key_of_password_by(alloc, &suite, password, salt)
}

/// The key that a password and a salt give, with the default number of rounds (RFC 3961, 3 and 6.3.1; RFC 3962, 4; RFC 8009, 4). Status 3
/// for a number of no suite, 5 where both are empty under triple DES, 2 where an allocation failed.
pub fn string_to_key(
    alloc: Global,
    etype: i32,
    password: &[u8],
    salt: &[u8],
    out: &mut [u8],
    size: &mut usize,
) -> u32
    ensures { IsAnswered (IsKeyOfPassword etype password.now salt.now)
        (RefusesPassword etype password.now salt.now) out.old out.new size.new result }
{
    hand_out(&key_of_password(alloc, etype, password, salt), out, size)
}

fn key_of_seed_by(alloc: Global, suite: &CipherSuite, seed: &[u8]) -> Result<Vec<u8>, CallError>
    ensures { MatchResult result
        (λ made. IsKeyOfSeedBy suite.now seed.now made.items)
        (λ e. RefusesSeedBy suite.now seed.now (refusal_status e)) }
{
    if seed.len() != suite.seed_bit_len() / 8 {
        return Err(CallError::SeedSize);
    }
    let seed = Vec::from_slice(alloc, seed)?;
    match suite.random_to_key(alloc, seed) {
        Ok(key) => Ok(key),
        Err(_) => Err(CallError::Memory),
    }
}

fn key_of_seed(alloc: Global, etype: i32, seed: &[u8]) -> Result<Vec<u8>, CallError>
    ensures { MatchResult result
        (λ made. IsKeyOfSeed etype seed.now made.items)
        (λ e. RefusesSeed etype seed.now (refusal_status e)) }
{
    let suite = cipher_suite_of(etype)?;
    key_of_seed_by(alloc, &suite, seed)
}

/// The key that random octets give (RFC 3961, 3 and 6.3.1; RFC 3962, 6; RFC 8009, 5). Status 3 for a number of no suite, else 13 for a seed
/// of another length than the suite's, else 2 where an allocation failed.
pub fn random_to_key(
    alloc: Global,
    etype: i32,
    seed: &[u8],
    out: &mut [u8],
    size: &mut usize,
) -> u32
    ensures { IsAnswered (IsKeyOfSeed etype seed.now) (RefusesSeed etype seed.now) out.old out.new size.new result }
{
    hand_out(&key_of_seed(alloc, etype, seed), out, size)
}

/// The octets, folded to as many as `out` has (RFC 3961, 5.1), all of which are written. Status 14 where there is no octet to fold, or none to
/// fold to, and then `out` is as it was. Nothing is allocated.
pub fn n_fold(input: &[u8], out: &mut [u8]) -> u32
    ensures { IsFolding input.now out.old out.new result }
{
    if input.is_empty() || out.is_empty() {
        return CallError::Empty.status();
    }
    n_fold_into(input, out);
    DONE
}

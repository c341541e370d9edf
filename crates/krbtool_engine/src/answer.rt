//! What a command returns for an input.

ghost use Rattle.std.specs.Prelude.{◌≡◌, ℕ, List, length, IfOk, IfErr, MatchResult};
ghost use Rattle.krb_crypto_message.specs.Sealing.{IsGiven};
ghost use Rattle.krb_crypto.specs.BySuite.{key_octets_of, confounder_octets_of};
ghost use Rattle.krbtool_engine.specs.Commands.{IsChecked, IsSealing, IsOpening, IsAnswer, IsReadError, IsSealError, IsOpenError, IsOpenErrorUnder, IsRejection, HasConfounder};
ghost use Rattle.krbtool_engine.specs.Outcome.{IsOutside};

use crate::command::{Command, SealingKey};
use crate::failure::Failure;
use krb_crypto::Cipher;
use krb_crypto::seal::{open_part, seal_part};
use krb_der::{Der, from_bytes, to_vec};
use std::alloc::Global;

/// The input again, where it is the encoding of a value of the type.
fn checked<T: Der + Drop>(alloc: Global, input: &[u8]) -> Result<Vec<u8>, Failure>
    ensures found { IfOk result (λ made. IsChecked T.is_value T.enc input.now made.items) }
    ensures only { (answer : List ℕ) → IsChecked T.is_value T.enc input.now answer
        → MatchResult result (λ made. made.items ≡ answer) IsOutside }
    ensures rejected { IfErr result (IsReadError T.is_value T.enc T.first T.error input.now) }
{
    let value: T = from_bytes(alloc, input)?;
    Ok(to_vec(alloc, &value)?)
}

/// The input, the encoding of a value, sealed under the cipher.
fn sealed<T: Der + Drop>(
    alloc: Global,
    cipher: &dyn Cipher,
    key: &SealingKey,
    confounder: &[u8],
    input: &[u8],
) -> Result<Vec<u8>, Failure>
    requires { length confounder.now ≡ confounder_octets cipher.now }
    ensures found { IfOk result (λ made. (v : T) × T.is_value v × (input.now ≡ T.enc v)
        × (length key.now.octets.items ≡ key_octets cipher.now)
        × meaning cipher.now key.now.octets.items key.now.usage confounder.now (T.enc v) made.items) }
    ensures only { (v : T) (answer : List ℕ) → T.is_value v → input.now ≡ T.enc v
        → length key.now.octets.items ≡ key_octets cipher.now
        → meaning cipher.now key.now.octets.items key.now.usage confounder.now (T.enc v) answer
        → MatchResult result (λ made. made.items ≡ answer) IsOutside }
    ensures rejected { IfErr result (IsSealError T.is_value T.enc T.first T.error (key_octets cipher.now) key.now.octets.items input.now) }
{
    let value: T = from_bytes(alloc, input)?;
    let made = seal_part(alloc, cipher, &key.octets, key.usage, confounder, &value)?;
    Ok(made)
}

/// The encoding of the value that was sealed under the cipher to the input.
fn opened<T: Der + Drop>(
    alloc: Global,
    cipher: &dyn Cipher,
    key: &SealingKey,
    input: &[u8],
) -> Result<Vec<u8>, Failure>
    ensures found { IfOk result (λ made. (v : T) × T.is_value v × (made.items ≡ T.enc v)
        × (length key.now.octets.items ≡ key_octets cipher.now)
        × IsGiven (meaning cipher.now key.now.octets.items key.now.usage) (confounder_octets cipher.now) input.now (T.enc v)) }
    ensures only { (v : T) → T.is_value v → length key.now.octets.items ≡ key_octets cipher.now
        → IsGiven (meaning cipher.now key.now.octets.items key.now.usage) (confounder_octets cipher.now) input.now (T.enc v)
        → MatchResult result (λ made. made.items ≡ T.enc v) IsOutside }
    ensures rejected { IfErr result (IsOpenError T.is_value T.enc T.first T.error (padding_octets cipher.now)
        (IsGiven (meaning cipher.now key.now.octets.items key.now.usage) (confounder_octets cipher.now) input.now)
        (length key.now.octets.items ≡ key_octets cipher.now)
        (unopened cipher.now key.now.octets.items key.now.usage input.now)) }
{
    let value: T = open_part(alloc, cipher, &key.octets, key.usage, input)?;
    Ok(to_vec(alloc, &value)?)
}

/// The input, sealed under the key.
fn sealed_under<T: Der + Drop>(
    alloc: Global,
    key: &SealingKey,
    confounder: &[u8],
    input: &[u8],
) -> Result<Vec<u8>, Failure>
    requires { length confounder.now ≡ confounder_octets_of key.now.suite }
    ensures found { IfOk result (λ made. IsSealing T.is_value T.enc key.now.suite key.now.octets.items key.now.usage confounder.now input.now made.items) }
    ensures only { (answer : List ℕ) → IsSealing T.is_value T.enc key.now.suite key.now.octets.items key.now.usage confounder.now input.now answer
        → MatchResult result (λ made. made.items ≡ answer) IsOutside }
    ensures rejected { IfErr result (IsSealError T.is_value T.enc T.first T.error (key_octets_of key.now.suite) key.now.octets.items input.now) }
{
    sealed::<T>(alloc, &key.suite, key, confounder, input)
}

/// The encoding that was sealed under the key to the input.
fn opened_under<T: Der + Drop>(
    alloc: Global,
    key: &SealingKey,
    input: &[u8],
) -> Result<Vec<u8>, Failure>
    ensures found { IfOk result (λ made. IsOpening T.is_value T.enc key.now.suite key.now.octets.items key.now.usage input.now made.items) }
    ensures only { (answer : List ℕ) → IsOpening T.is_value T.enc key.now.suite key.now.octets.items key.now.usage input.now answer
        → MatchResult result (λ made. made.items ≡ answer) IsOutside }
    ensures rejected { IfErr result (IsOpenErrorUnder T.is_value T.enc T.first T.error key.now.suite key.now.octets.items key.now.usage input.now) }
{
    opened::<T>(alloc, &key.suite, key, input)
}

/// What the command returns for the input.
pub fn answer<T: Der + Drop>(
    alloc: Global,
    command: &Command,
    input: &[u8],
) -> Result<Vec<u8>, Failure>
    requires { HasConfounder command.now }
    ensures found { IfOk result (λ made. IsAnswer T.is_value T.enc command.now input.now made.items) }
    ensures only { (answer : List ℕ) → IsAnswer T.is_value T.enc command.now input.now answer
        → MatchResult result (λ made. made.items ≡ answer) IsOutside }
    ensures rejected { IfErr result (IsRejection T.is_value T.enc T.first T.error command.now input.now) }
{
    match command {
        Command::Check => checked::<T>(alloc, input),
        Command::Seal { key, confounder } => sealed_under::<T>(alloc, key, confounder, input),
        Command::Open { key } => opened_under::<T>(alloc, key, input),
    }
}

//! The command that arguments are. They are counted, then tested from the left.

ghost use Rattle.std.specs.Prelude.{◌≡◌, ◌≢◌, ◌⊎◌, ℕ, ℤ, List, [], ◌∷◌, codes, map, IfOk, IfErr, Ok};
ghost use Rattle.std.specs.String.{string_bytes};
ghost use Rattle.hex.specs.Hex.{decode_of};
ghost use Rattle.krbtool_engine.specs.Arguments.{IsEtype, IsUsage, AreKeyArguments, IsCommand, RejectsEtype, RejectsKeyArguments, RejectsArguments};

use crate::command::{Command, SealingKey};
use crate::failure::Failure;
use hex::FromHexError;
use krb_crypto::{Cipher, CipherSuite};
use std::alloc::Global;

/// The command that the arguments are. `Arguments` where they are none, and `Crypto(AlgorithmIdentifier)` where they name an
/// encryption type that the program does not know, whatever arguments follow.
pub fn parse(alloc: Global, arguments: &[String]) -> Result<Command, Failure>
    ensures found { IfOk result (IsCommand (map string_bytes arguments.now)) }
    ensures rejected { IfErr result (RejectsArguments (map string_bytes arguments.now)) }
{
    match arguments.len() {
        1 => {
            if arguments[0].as_str() == "check" {
                Ok(Command::Check)
            } else {
                Err(Failure::Arguments)
            }
        }
        4 => {
            if arguments[0].as_str() == "open" {
                parse_open(
                    alloc,
                    arguments[1].as_str(),
                    arguments[2].as_str(),
                    arguments[3].as_str(),
                )
            } else {
                Err(Failure::Arguments)
            }
        }
        5 => {
            if arguments[0].as_str() == "seal" {
                parse_seal(
                    alloc,
                    arguments[1].as_str(),
                    arguments[2].as_str(),
                    arguments[3].as_str(),
                    arguments[4].as_str(),
                )
            } else {
                Err(Failure::Arguments)
            }
        }
        _ => Err(Failure::Arguments),
    }
}

fn parse_open(alloc: Global, etype: &str, key: &str, usage: &str) -> Result<Command, Failure>
    ensures found { IfOk result (IsCommand (codes "open" ∷ etype.now ∷ key.now ∷ usage.now ∷ [])) }
    ensures rejected { IfErr result (RejectsArguments (codes "open" ∷ etype.now ∷ key.now ∷ usage.now ∷ [])) }
{
    let key = parse_key(alloc, etype, key, usage)?;
    Ok(Command::Open { key })
}

fn parse_seal(
    alloc: Global,
    etype: &str,
    key: &str,
    usage: &str,
    confounder: &str,
) -> Result<Command, Failure>
    ensures found { IfOk result (IsCommand (codes "seal" ∷ etype.now ∷ key.now ∷ usage.now ∷ confounder.now ∷ [])) }
    ensures rejected { IfErr result (RejectsArguments (codes "seal" ∷ etype.now ∷ key.now ∷ usage.now ∷ confounder.now ∷ [])) }
{
    let key = parse_key(alloc, etype, key, usage)?;
    let confounder = octets_of(alloc, confounder)?;
    if confounder.len() != key.suite.confounder_size() {
        return Err(Failure::Arguments);
    }
    Ok(Command::Seal { key, confounder })
}

/// The arguments ETYPE KEYHEX USAGE.
fn parse_key(alloc: Global, etype: &str, key: &str, usage: &str) -> Result<SealingKey, Failure>
    ensures found { IfOk result (λ k. AreKeyArguments etype.now key.now usage.now k.suite k.octets.items k.usage) }
    ensures rejected { IfErr result (RejectsKeyArguments etype.now key.now usage.now) }
{
    let suite = suite_of(etype)?;
    let octets = octets_of(alloc, key)?;
    let usage = usage_of(usage)?;
    Ok(SealingKey {
        suite,
        octets,
        usage,
    })
}

/// ETYPE: decimal digits, of a number that a `usize` holds.
fn suite_of(text: &str) -> Result<CipherSuite, Failure>
    ensures found { IfOk result (IsEtype text.now) }
    ensures rejected { IfErr result (RejectsEtype text.now) }
{
    if text.starts_with('+') {
        return Err(Failure::Arguments);
    }
    match text.parse::<usize>() {
        Ok(number) => CipherSuite::try_from(number).map_err(Failure::Crypto),
        Err(_) => Err(Failure::Arguments),
    }
}

/// USAGE: decimal digits, with or without a minus, of a number that an `i32` holds.
fn usage_of(text: &str) -> Result<i32, Failure>
    ensures found { IfOk result (IsUsage text.now) }
    ensures rejected { IfErr result (λ e. (e ≡ Failure.Arguments) × ((usage : ℤ) → ¬ IsUsage text.now usage)) }
{
    if text.starts_with('+') {
        return Err(Failure::Arguments);
    }
    match text.parse::<i32>() {
        Ok(usage) => Ok(usage),
        Err(_) => Err(Failure::Arguments),
    }
}

/// KEYHEX and CONFHEX: an even number of hexadecimal digits of either case.
fn octets_of(alloc: Global, text: &str) -> Result<Vec<u8>, Failure>
    ensures found { IfOk result (λ octets. decode_of text.now ≡ Ok octets.items) }
    ensures rejected { IfErr result (λ e. (e ≡ Failure.Memory) ⊎ ((e ≡ Failure.Arguments) × ((octets : List ℕ) → decode_of text.now ≢ Ok octets))) }
{
    match hex::decode(alloc, text) {
        Ok(octets) => Ok(octets),
        Err(FromHexError::OutOfMemory) => Err(Failure::Memory),
        Err(_) => Err(Failure::Arguments),
    }
}

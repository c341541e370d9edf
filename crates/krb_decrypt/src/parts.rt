//! What keys make of an encrypted part.

ghost use Rattle.std.specs.Prelude.{◌≡◌, ◌↔◌, IfOk, IsTrue, MatchOption, codes};
ghost use Rattle.krb_decrypt.specs.Keys.{zeros_of};
ghost use Rattle.krb_decrypt.specs.Outcomes.{IsClear, IsNoPart, IsNotClear, IsOther, IsOutcome, IsPart, IsPartAs, IsPartFor, NoOther};
ghost use Rattle.krb_decrypt.specs.Outcomes.{UnderKeys, UnderSuite};
ghost use Rattle.krb_decrypt.specs.Types.{IsOfNo};

use crate::key::{Key, suite_of};
use crate::outcome::{Outcome, Part, Reason};
use crate::preceding::Preceding;
use crate::search::{first_key, is_of_one};
use crate::usage::{Usage, usages_of};
use crate::walked::walked;
use krb_crypto::CipherSuite;
use krb_schema::Role;
use std::alloc::{AllocError, Global};

/// How many keys that are found in decrypted parts are tried, beside those of the caller: whoever may send many would else have each part tried under each
/// of them.
pub const MOST_FOUND: usize = 1000;

/// The part of this type that octets are, if they are one element of it.
fn part_as(
    alloc: Global,
    type_name: &'static str,
    octets: &[u8],
) -> Result<Option<Part>, AllocError>
    ensures { IfOk result (λ found. MatchOption found (IsOfNo type_name.now octets.now) (IsPart type_name.now octets.now)) }
{
    match walked(alloc, type_name, octets)? {
        Some(items) => Ok(Some(Part {
            type_name,
            octets: Vec::from_slice(alloc, octets)?,
            items,
        })),
        None => Ok(None),
    }
}

/// What some KDCs encrypt for a usage in preceding of its type, if the octets are it.
fn other_part(alloc: Global, usage: Usage, octets: &[u8]) -> Result<Option<Part>, AllocError>
    ensures { IfOk result (λ found. MatchOption found (NoOther usage octets.now) (IsOther usage octets.now)) }
{
    match usage {
        Usage::AsRep => part_as(alloc, "EncTGSRepPart", octets),
        _ => Ok(None),
    }
}

/// The part that octets are which is encrypted for the usage, if they are it.
fn part_of(alloc: Global, usage: Usage, octets: &[u8]) -> Result<Option<Part>, AllocError>
    ensures { IfOk result (λ found. MatchOption found (IsNoPart usage octets.now) (λ p. IsPartAs usage octets.now p × (p.octets.items ≡ octets.now))) }
{
    let part = part_as(alloc, usage.type_name(), octets)?;
    match part {
        Some(part) => Ok(Some(part)),
        None => other_part(alloc, usage, octets),
    }
}

/// The part that is encrypted for the usage, of a payload that with at most so many zeros is these octets.
fn part_for(
    alloc: Global,
    usage: Usage,
    most: usize,
    octets: &[u8],
) -> Result<Option<Part>, AllocError>
    ensures { IfOk result (IsPartFor usage most octets.now) }
{
    let part = part_of(alloc, usage, octets)?;
    match part {
        Some(part) => Ok(Some(part)),
        None => {
            let Some((last, front)) = octets.split_last() else {
                return Ok(None);
            };
            if most == 0 {
                return Ok(None);
            }
            if *last != 0 {
                return Ok(None);
            }
            part_for(alloc, usage, most - 1, front)
        }
    }
}

/// How many zeros may fill a payload of a suite up to whole blocks (RFC 3961, 6.3).
fn zeros_of(suite: &CipherSuite) -> usize
    ensures { result ≡ zeros_of suite.now }
{
    match suite {
        CipherSuite::Des3CbcSha1Kd => 7,
        _ => 0,
    }
}

/// What the keys make of a part of this suite.
fn under_suite(
    alloc: Global,
    suite: &CipherSuite,
    role: Role,
    cipher: &[u8],
    keys: &[Key],
) -> Result<Outcome, AllocError>
    ensures { IfOk result (UnderSuite suite.now role cipher.now keys.now) }
{
    if !is_of_one(keys, suite) {
        return Ok(Outcome::NotDecrypted(Reason::NoKeyOfType));
    }
    let Some(first) = first_key(alloc, keys, suite, usages_of(role), cipher)? else {
        return Ok(Outcome::NotDecrypted(Reason::NoKeyFits));
    };
    let part = part_for(alloc, first.usage, zeros_of(suite), &first.decrypted)?;
    Ok(Outcome::Decrypted {
        key: first.index,
        usage: first.usage,
        part,
    })
}

/// What the keys make of a part, by its encryption type.
fn under_keys(
    alloc: Global,
    preceding: Preceding,
    cipher: &[u8],
    keys: &[Key],
) -> Result<Outcome, AllocError>
    ensures { IfOk result (UnderKeys preceding.role preceding.etype cipher.now keys.now) }
{
    if keys.is_empty() {
        return Ok(Outcome::NotTried);
    }
    match suite_of(preceding.etype) {
        Some(suite) => under_suite(alloc, &suite, preceding.role, cipher, keys),
        None => Ok(Outcome::NotDecrypted(Reason::TypeNotSupported)),
    }
}

/// Whether octets are in the clear: those of a KRB-CRED under encryption type 0.
fn is_clear(preceding: Preceding) -> bool
    ensures { IsTrue result ↔ IsClear preceding.role preceding.etype }
{
    match (preceding.role, preceding.etype) {
        (Role::EncKrbCredPart, Some(0)) => true,
        _ => false,
    }
}

/// The part that octets in the clear are, if they are such and it.
fn clear_part(
    alloc: Global,
    preceding: Preceding,
    cipher: &[u8],
) -> Result<Option<Part>, AllocError>
    ensures { IfOk result (λ found. MatchOption found (IsNotClear preceding.role preceding.etype cipher.now)
        (λ p. IsClear preceding.role preceding.etype × IsPart (codes "EncKrbCredPart") cipher.now p)) }
{
    if is_clear(preceding) {
        return part_as(alloc, "EncKrbCredPart", cipher);
    }
    Ok(None)
}

/// What the keys make of a ciphertext that stands so: a part in the clear, what the first key and its first usage decrypt, or why none does.
/// The usages that are tried are those of its role, in their order; a ciphertext is decrypted once for each key of its type and each of these,
/// until one fits. The only error is an allocation failure.
pub fn outcome_of(
    alloc: Global,
    preceding: Preceding,
    cipher: &[u8],
    keys: &[Key],
) -> Result<Outcome, AllocError>
    ensures { IfOk result (IsOutcome preceding.role preceding.etype cipher.now keys.now) }
{
    let clear = clear_part(alloc, preceding, cipher)?;
    match clear {
        Some(part) => Ok(Outcome::InClear(part)),
        None => under_keys(alloc, preceding, cipher, keys),
    }
}

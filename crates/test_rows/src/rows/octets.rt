//! Octets in hexadecimal digits.

ghost use Rattle.std.specs.Prelude.{◌≡◌, IfOk};
ghost use Rattle.hex.specs.Hex.{decode_of};

use crate::rows::error::RowError;
use hex::FromHexError;
use std::alloc::Global;

/// The octets of hexadecimal digits, two an octet. `NoDigits` where they are others.
fn decoded(alloc: Global, digits: &str) -> Result<Vec<u8>, RowError>
    ensures ok { IfOk result (λ octets. decode_of digits.now ≡ Ok octets.items) }
{
    match hex::decode(alloc, digits) {
        Ok(octets) => Ok(octets),
        Err(FromHexError::OutOfMemory) => Err(RowError::OutOfMemory),
        Err(_) => Err(RowError::NoDigits),
    }
}

/// Appends the octets of a part.
fn push_part(alloc: Global, octets: &mut Vec<u8>, part: &str) -> Result<(), RowError> {
    let (digits, count) = part.split_once('*').unwrap_or((part, "1"));
    let repeated = decoded(alloc, digits)?;
    let Ok(count) = count.parse::<u32>() else {
        return Err(RowError::NoDigits);
    };
    for _ in 0..count {
        octets.extend_from_slice(&repeated)?;
    }
    Ok(())
}

/// The octets of parts with a blank between: hexadecimal digits, or digits, `*` and how many times their octets stand, in decimal
/// digits. `NoDigits` where a part is not so.
pub fn octets_of(alloc: Global, parts: &str) -> Result<Vec<u8>, RowError> {
    let mut octets = Vec::new(alloc);
    for part in parts.split(' ') {
        push_part(alloc, &mut octets, part)?;
    }
    Ok(octets)
}

//! Hexadecimal digits in pairs with marks before and between them.

ghost use Rattle.std.specs.Prelude.{◌≡◌, ◌++◌, IfOk, OnOk};
ghost use Rattle.krb_input.specs.Marks.{behind_pair, digits_left, digits_of, is_separator, spot_behind, unmarked};

use std::alloc::{AllocError, Global};

/// Where one is in a text of digits in pairs.
#[derive(Clone, Copy, PartialEq, Eq)]
pub enum Spot {
    /// Before a pair, or a mark.
    BetweenPairs,
    /// Behind the first digit of a pair.
    WithinPair,
    /// Behind a zero, which begins a pair or the mark `0x`.
    BehindZero,
    /// Behind a backslash, which begins the mark `\x`.
    BehindBackslash,
}

/// Whether it is a colon, a comma or a hyphen.
fn is_separator(octet: u8) -> bool
    ensures { result ≡ is_separator octet }
{
    octet == b':' || octet == b',' || octet == b'-'
}

/// Where one is behind an octet that stands between pairs.
fn behind_pair(octet: u8) -> Spot
    ensures { result ≡ behind_pair octet }
{
    if is_separator(octet) {
        Spot::BetweenPairs
    } else if octet == b'0' {
        Spot::BehindZero
    } else if octet == b'\\' {
        Spot::BehindBackslash
    } else {
        Spot::WithinPair
    }
}

/// Where one is behind an octet.
fn spot_behind(spot: Spot, octet: u8) -> Spot
    ensures { result ≡ spot_behind spot octet }
{
    match spot {
        Spot::BetweenPairs => behind_pair(octet),
        Spot::WithinPair => Spot::BetweenPairs,
        Spot::BehindZero => Spot::BetweenPairs,
        Spot::BehindBackslash => Spot::BetweenPairs,
    }
}

/// Appends what of an octet is a digit.
fn push_digits(out: &mut Vec<u8>, spot: Spot, octet: u8) -> Result<(), AllocError>
    ensures { OnOk result (out.new.items ≡ out.old.items ++ digits_of spot octet) }
{
    match spot {
        Spot::BetweenPairs => {
            if is_separator(octet) || octet == b'0' || octet == b'\\' {
                return Ok(());
            }
            out.extend_from_slice(&[octet])
        }
        Spot::WithinPair => out.extend_from_slice(&[octet]),
        Spot::BehindZero => {
            if octet == b'x' || octet == b'X' {
                return Ok(());
            }
            out.extend_from_slice(&[b'0', octet])
        }
        Spot::BehindBackslash => {
            if octet == b'x' {
                return Ok(());
            }
            out.extend_from_slice(&[b'\\', octet])
        }
    }
}

/// Appends what is left at the end.
fn push_left(out: &mut Vec<u8>, spot: Spot) -> Result<(), AllocError>
    ensures { OnOk result (out.new.items ≡ out.old.items ++ digits_left spot) }
{
    match spot {
        Spot::BetweenPairs => Ok(()),
        Spot::WithinPair => Ok(()),
        Spot::BehindZero => out.extend_from_slice(b"0"),
        Spot::BehindBackslash => out.extend_from_slice(b"\\"),
    }
}

/// A text of digits in pairs without its marks: `0x`, `0X` or `\x` before a pair, and a colon, a comma or a hyphen between pairs. Marks at
/// other places stay.
#[tactic(auto, using(crate::proofs::Machines::written_more, crate::proofs::Machines::written_all))]
pub fn unmarked(alloc: Global, text: &[u8]) -> Result<Vec<u8>, AllocError>
    ensures { IfOk result (λ digits. digits.items ≡ unmarked text.now) }
{
    let mut digits = Vec::with_capacity(alloc, text.len())?;
    let mut spot = Spot::BetweenPairs;
    for octet in text {
        push_digits(&mut digits, spot, *octet)?;
        spot = spot_behind(spot, *octet);
    }
    push_left(&mut digits, spot)?;
    Ok(digits)
}

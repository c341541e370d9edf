//! Whole numbers.

ghost use Rattle.std.specs.Prelude.{◌≡◌, ◌++◌, pos, negsuc, ◌<ℤ◌, ◌≤ℤ◌, IfOk, OnOk};
ghost use Rattle.std.specs.Int.Digits.{digits_of};
ghost use Rattle.krb_der_core.specs.Integer.{inverted, whole_number};

use krb_der::IntegerAsn1;
use std::alloc::{AllocError, Global};

/// Appends the digits of a number in base 256, the highest first.
fn push_digits(n: u64, out: &mut Vec<u8>) -> Result<(), AllocError>
    ensures { OnOk result (out.new.items ≡ out.old.items ++ digits_of 256 n) }
{
    if n == 0 {
        return Ok(());
    }
    push_digits(n / 256, out)?;
    out.push((n % 256) as u8)?;
    Ok(())
}

/// Appends the complements of these digits.
fn push_inverted(n: u64, out: &mut Vec<u8>) -> Result<(), AllocError>
    ensures { OnOk result (out.new.items ≡ out.old.items ++ inverted (digits_of 256 n)) }
{
    if n == 0 {
        return Ok(());
    }
    push_inverted(n / 256, out)?;
    out.push(255 - (n % 256) as u8)?;
    Ok(())
}

/// The number, or one less than its magnitude where it is negative.
fn complement(number: i64) -> u64
    ensures negative { number <ℤ pos 0 → negsuc result ≡ number }
    ensures other { pos 0 ≤ℤ number → pos result ≡ number }
{
    if number < 0 {
        (-1 - number) as u64
    } else {
        number as u64
    }
}

/// Octets that represent the number in two's complement, the highest first.
fn octets_of(alloc: Global, number: i64) -> Result<Vec<u8>, AllocError>
    ensures { IfOk result (λ octets. whole_number octets.items ≡ number) }
{
    let mut octets = Vec::new(alloc);
    if number < 0 {
        octets.push(255)?;
        push_inverted(complement(number), &mut octets)?;
        return Ok(octets);
    }
    octets.push(0)?;
    push_digits(complement(number), &mut octets)?;
    Ok(octets)
}

/// The INTEGER of this number (X.690, 8.3). The only error is an allocation failure.
pub fn integer_of(alloc: Global, number: i64) -> Result<IntegerAsn1, AllocError>
    ensures { IfOk result (λ integer. integer ≡ number) }
{
    let octets = octets_of(alloc, number)?;
    match IntegerAsn1::from_bytes_be_signed(alloc, octets) {
        Ok(integer) => Ok(integer),
        Err(_) => Err(AllocError),
    }
}

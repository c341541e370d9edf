//! Flags by their numbers (RFC 4120, 5.2.8).

ghost use Rattle.std.specs.Prelude.{◌≡◌, ◌+◌, ◌*◌, ◌<◌, ◌≤◌, ◌⊎◌, ◌↔◌, ℕ, MatchBool, All, Any, IfOk, IfErr};
ghost use Rattle.krb_der_core.specs.BitString.{IsBits};
ghost use Rattle.krb_der_core.specs.Encoding.{IsOctets};
ghost use Rattle.krb_build.specs.Flags.{AreFlags, has, octet};
ghost use Rattle.krb_build.specs.Errors.{IsFlagError, IsMemoryOr};
ghost use Rattle.krb_build.specs.declared.error.BuildError.TheVariants.{FlagNumber};

use crate::error::BuildError;
use krb_der::BitStringAsn1;
use std::alloc::Global;

/// The number of flags: KerberosFlags are 32 bits or more (RFC 4120, 5.2.8).
const FLAGS: usize = 32;

/// The bit of this number: 1 where it is in the list.
fn bit(numbers: &[usize], number: usize) -> u8
    ensures { result ≡ has numbers.now number }
{
    if numbers.contains(&number) { 1 } else { 0 }
}

/// The octet of the flags from this number on, the highest bit first.
fn octet(numbers: &[usize], first: usize) -> u8
    requires { first ≤ 24 }
    ensures { result ≡ octet numbers.now first }
{
    128 * bit(numbers, first)
        + 64 * bit(numbers, first + 1)
        + 32 * bit(numbers, first + 2)
        + 16 * bit(numbers, first + 3)
        + 8 * bit(numbers, first + 4)
        + 4 * bit(numbers, first + 5)
        + 2 * bit(numbers, first + 6)
        + bit(numbers, first + 7)
}

/// Whether each is the number of a flag.
fn are_flags(numbers: &[usize]) -> bool
    ensures { MatchBool result (All (λ n. n < 32) numbers.now) (Any (λ n. 32 ≤ n) numbers.now) }
{
    for number in numbers {
        if *number >= FLAGS {
            return false;
        }
    }
    true
}

/// 32 flags, of which those in the list are set and no others, in whatever order it has them (RFC 4120, 5.2.8). Flag 0 is the highest bit
/// of the first octet. `FlagNumber` where a number is past 31.
pub fn bits_of(alloc: Global, numbers: &[usize]) -> Result<BitStringAsn1, BuildError>
    ensures flags { IfOk result (AreFlags numbers.now) }
    ensures valid { IfOk result IsBits }
    ensures rejected { IfErr result (λ e. IsMemoryOr e (IsFlagError numbers.now e)) }
{
    if !are_flags(numbers) {
        return Err(BuildError::FlagNumber);
    }
    let octets = [
        octet(numbers, 0),
        octet(numbers, 8),
        octet(numbers, 16),
        octet(numbers, 24),
    ];
    known_octets(&octets);
    Ok(BitStringAsn1::with_bytes(Vec::from_slice(alloc, &octets)?))
}

/// Lemma: what a slice holds are octets.
pub(crate) fn known_octets(octets: &[u8])
    ensures { IsOctets octets.now }
{}

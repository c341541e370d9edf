//! Integers, compared with numbers.

ghost use Rattle.std.specs.Prelude.{◌≡◌, ◌<◌, ℕ, pos, MatchBool, MatchOption};
ghost use Rattle.krb_accept_rules.specs.Numbers.{HasMicroseconds, IsListed, IsNumber32};

use krb_der::IntegerAsn1;
use krb_types::data_types::Microseconds;

/// How many microseconds a second has.
const MICROSECONDS: u32 = 1_000_000;

/// Whether two integers are the same.
pub(crate) fn is_same_integer(first: &IntegerAsn1, second: &IntegerAsn1) -> bool
    ensures { MatchBool result (first.now ≡ second.now) (first.now ≡ second.now → ⊥) }
{
    *first == *second
}

/// Whether an integer is one of the numbers.
pub(crate) fn is_listed(numbers: &[u32], integer: &IntegerAsn1) -> bool
    ensures { MatchBool result (IsListed numbers.now integer.now) (IsListed numbers.now integer.now → ⊥) }
{
    for number in numbers {
        if integer.is_number(*number) {
            return true;
        }
    }
    false
}

/// Whether an integer fits 32 bits and is not negative (RFC 4120, 5.2.4).
pub(crate) fn is_number_of_32_bits(integer: &IntegerAsn1) -> bool
    ensures { MatchBool result (IsNumber32 integer.now) (IsNumber32 integer.now → ⊥) }
{
    match integer.to_u32() {
        Some(_number) => true,
        None => false,
    }
}

/// Microseconds, where they are 0 to 999999 (RFC 4120, 5.2.4).
pub(crate) fn microseconds_of(cusec: &Microseconds) -> Option<u32>
    ensures { MatchOption result (HasMicroseconds cusec.now → ⊥) (λ n. (cusec.now ≡ pos n) × (n < 1000000)) }
{
    let Some(number) = cusec.to_u32() else {
        return None;
    };
    if number < MICROSECONDS {
        Some(number)
    } else {
        None
    }
}

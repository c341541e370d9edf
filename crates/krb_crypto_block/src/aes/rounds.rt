//! The rounds of the cipher (FIPS 197, 5.1) on 16 lanes.

ghost use Rattle.std.specs.Prelude.{◌≡◌, ℕ, List, map};
ghost use Rattle.krb_crypto_block.specs.Modes.{IsBlock};
ghost use Rattle.krb_crypto_block.specs.Aes.{round, last_round};
ghost use Rattle.krb_crypto_block.specs.AesLanes.{tower, with_constant, round_octets, round_vector, looked_up_at};
ghost use Rattle.krb_crypto_block.specs.declared.aes.tables.TheConstants.{LAST_U, LAST_V};

use super::nibbles::{inversion_indices, linear, looked_up};
use super::tables::{LAST_U, LAST_V, ONCE_U, ONCE_V, TO_HIGH, TO_LOW, TWICE_U, TWICE_V};
use std::simd::prelude::*;

/// Each octet in tower form.
#[inline(always)]
pub(super) fn to_tower(x: u8x16) -> u8x16
    ensures { result ≡ map tower x }
{
    linear(TO_LOW, TO_HIGH, x)
}

/// A round, in tower form.
#[inline(always)]
pub(super) fn round(x: u8x16, key: u8x16) -> u8x16
    ensures { (w st : List ℕ) (n : ℕ) → IsBlock 16 st → x ≡ map tower st → key ≡ round_vector w n → result ≡ map tower (round w n st) }
{
    let (u, v) = inversion_indices(x);
    let once = looked_up(ONCE_U, ONCE_V, u, v);
    let twice = looked_up(TWICE_U, TWICE_V, u, v);
    let thrice = once ^ twice;
    let own: u8x16 = twice.swizzle([0, 5, 10, 15, 4, 9, 14, 3, 8, 13, 2, 7, 12, 1, 6, 11]);
    let next: u8x16 = thrice.swizzle([5, 10, 15, 0, 9, 14, 3, 4, 13, 2, 7, 8, 1, 6, 11, 12]);
    let third: u8x16 = once.swizzle([10, 15, 0, 5, 14, 3, 4, 9, 2, 7, 8, 13, 6, 11, 12, 1]);
    let fourth: u8x16 = once.swizzle([15, 0, 5, 10, 3, 4, 9, 14, 7, 8, 13, 2, 11, 12, 1, 6]);
    (own ^ key) ^ (third ^ fourth) ^ next
}

/// SubBytes without its constant, to octets of the standard.
#[inline(always)]
pub(super) fn substituted(x: u8x16) -> u8x16
    ensures { result ≡ map (looked_up_at LAST_U LAST_V) x }
{
    let (u, v) = inversion_indices(x);
    looked_up(LAST_U, LAST_V, u, v)
}

/// The last round, which has no MixColumns.
#[inline(always)]
pub(super) fn last_round(x: u8x16, key: u8x16) -> u8x16
    ensures { (w st : List ℕ) (n : ℕ) → IsBlock 16 st → x ≡ map tower st → key ≡ map with_constant (round_octets w n)
        → result ≡ last_round w n st }
{
    let rows: u8x16 = substituted(x).swizzle([
        0, 5, 10, 15, 4, 9, 14, 3, 8, 13, 2, 7, 12, 1, 6, 11,
    ]);
    rows ^ key
}

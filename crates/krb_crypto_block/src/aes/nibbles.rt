//! Look-ups by nibble, 16 lanes at once: tables of 16 octets, which vector permutes read with no address.

ghost use Rattle.std.specs.Prelude.{◌≡◌, map, bit_xor};
ghost use Rattle.std.specs.Simd.Lanes.{zip2};
ghost use Rattle.krb_crypto_block.specs.AesLanes.{AreIndices, permute_at, low_of, high_of, first_index, second_index, linear_of};

use super::tables::{INVERSE, SCALED};
use std::simd::prelude::*;

/// The low nibbles.
#[inline(always)]
fn low(x: u8x16) -> u8x16
    ensures { result ≡ map low_of x }
{
    x & u8x16::splat(15)
}

/// The high nibbles.
#[inline(always)]
fn high(x: u8x16) -> u8x16
    ensures { result ≡ map high_of x }
{
    x >> u8x16::splat(4)
}

/// The lanes of a vector at these positions; 0 at those from 128 on.
#[inline(always)]
pub(super) fn shuffled(x: u8x16, at: u8x16) -> u8x16
    requires { AreIndices at }
    ensures { result ≡ map (permute_at x) at }
{
    x.swizzle_dyn(at)
}

/// Each lane of the table at these positions; 0 at those from 128 on.
#[inline(always)]
fn permuted(table: [u8; 16], at: u8x16) -> u8x16
    requires { AreIndices at }
    ensures { result ≡ map (permute_at table) at }
{
    shuffled(u8x16::from_array(table), at)
}

/// A linear map of each octet, by a table for each nibble.
#[inline(always)]
pub(super) fn linear(first: [u8; 16], second: [u8; 16], x: u8x16) -> u8x16
    ensures { result ≡ map (linear_of first second) x }
{
    permuted(first, low(x)) ^ permuted(second, high(x))
}

/// Of each octet in tower form the two indices at which tables hold what is linear in its inverse.
#[inline(always)]
pub(super) fn inversion_indices(x: u8x16) -> (u8x16, u8x16)
    ensures { (result.0 ≡ map first_index x) × (result.1 ≡ map second_index x) }
{
    let low = low(x);
    let high = high(x);
    let sum = high ^ low;
    let scaled = permuted(SCALED, low);
    let first = permuted(INVERSE, high) ^ scaled;
    let second = permuted(INVERSE, sum) ^ scaled;
    (
        permuted(INVERSE, first) ^ sum,
        permuted(INVERSE, second) ^ high,
    )
}

/// What two tables hold at these indices, added.
#[inline(always)]
pub(super) fn looked_up(first: [u8; 16], second: [u8; 16], u: u8x16, v: u8x16) -> u8x16
    requires { (AreIndices u) × (AreIndices v) }
    ensures { result ≡ zip2 bit_xor (map (permute_at first) u) (map (permute_at second) v) }
{
    permuted(first, u) ^ permuted(second, v)
}

//! The rounds of the equivalent inverse cipher (FIPS 197, 5.3.5) on 16 lanes.

ghost use Rattle.std.specs.Prelude.{◌≡◌, ℕ, List, map};
ghost use Rattle.krb_crypto_block.specs.Modes.{IsBlock};
ghost use Rattle.krb_crypto_block.specs.InverseCipher.{inverse_mix_columns};
ghost use Rattle.krb_crypto_block.specs.AesWords.{inverse_cipher_round, inverse_cipher_last};
ghost use Rattle.krb_crypto_block.specs.AesLanes.{inverse_linear, inverse_form, inverse_vector, round_octets, inverse_positions};

use super::nibbles::{inversion_indices, linear, looked_up, shuffled};
use super::tables::{
    D9_U, D9_V, DB_U, DB_V, DD_U, DD_V, DE_U, DE_V, E9_HIGH, E9_LOW, EB_HIGH, EB_LOW, ED_HIGH,
    ED_LOW, EE_HIGH, EE_LOW, INVERSE_LINEAR_HIGH, INVERSE_LINEAR_LOW, INVERTED_U, INVERTED_V,
};
use std::simd::prelude::*;

/// What the linear part of the affine map takes to each octet, in tower form.
#[inline(always)]
pub(super) fn to_inverse_linear(x: u8x16) -> u8x16
    ensures { result ≡ map inverse_linear x }
{
    linear(INVERSE_LINEAR_LOW, INVERSE_LINEAR_HIGH, x)
}

/// InvMixColumns of a round key, and what the linear part of the affine map takes to it, in tower form.
pub(super) fn unmixed(k: u8x16) -> u8x16
    ensures { (st : List ℕ) → IsBlock 16 st → k ≡ st → result ≡ map inverse_linear (inverse_mix_columns st) }
{
    let next: u8x16 = linear(EB_LOW, EB_HIGH, k).swizzle([
        1, 2, 3, 0, 5, 6, 7, 4, 9, 10, 11, 8, 13, 14, 15, 12,
    ]);
    let third: u8x16 = linear(ED_LOW, ED_HIGH, k).swizzle([
        2, 3, 0, 1, 6, 7, 4, 5, 10, 11, 8, 9, 14, 15, 12, 13,
    ]);
    let fourth: u8x16 = linear(E9_LOW, E9_HIGH, k).swizzle([
        3, 0, 1, 2, 7, 4, 5, 6, 11, 8, 9, 10, 15, 12, 13, 14,
    ]);
    linear(EE_LOW, EE_HIGH, k) ^ (third ^ fourth) ^ next
}

/// For each term of a round the positions of the lanes that it takes: by InvShiftRows those of a
/// lane's own row, and of the three rows after it.
#[derive(Clone, Copy)]
pub(super) struct InverseTurns {
    own: u8x16,
    next: u8x16,
    third: u8x16,
    fourth: u8x16,
    ghost own_is: { own ≡ inverse_positions 0 },
    ghost next_is: { next ≡ inverse_positions 1 },
    ghost third_is: { third ≡ inverse_positions 2 },
    ghost fourth_is: { fourth ≡ inverse_positions 3 },
}

impl InverseTurns {
    /// The positions. This is not inlined, so that the compiler does not know them in a round: it
    /// would move the permute of a sum of two look-ups into both, and a round would have 21 permutes
    /// in place of 17.
    #[inline(never)]
    pub(super) fn new() -> InverseTurns {
        InverseTurns {
            own: u8x16::from_array([0, 13, 10, 7, 4, 1, 14, 11, 8, 5, 2, 15, 12, 9, 6, 3]),
            next: u8x16::from_array([13, 10, 7, 0, 1, 14, 11, 4, 5, 2, 15, 8, 9, 6, 3, 12]),
            third: u8x16::from_array([10, 7, 0, 13, 14, 11, 4, 1, 2, 15, 8, 5, 6, 3, 12, 9]),
            fourth: u8x16::from_array([7, 0, 13, 10, 11, 4, 1, 14, 15, 8, 5, 2, 3, 12, 9, 6]),
        }
    }
}

/// A round of the inverse cipher, in inverse form; the round key is unmixed.
#[inline(always)]
pub(super) fn inverse_round(x: u8x16, key: u8x16, turns: &InverseTurns) -> u8x16
    ensures { (w st : List ℕ) (n : ℕ) → IsBlock 16 st → x ≡ map inverse_form st → key ≡ inverse_vector w n
        → result ≡ map inverse_form (inverse_cipher_round w n st) }
{
    let (u, v) = inversion_indices(x);
    let own = shuffled(looked_up(DE_U, DE_V, u, v), turns.own);
    let next = shuffled(looked_up(DB_U, DB_V, u, v), turns.next);
    let third = shuffled(looked_up(DD_U, DD_V, u, v), turns.third);
    let fourth = shuffled(looked_up(D9_U, D9_V, u, v), turns.fourth);
    (own ^ key) ^ (third ^ fourth) ^ next
}

/// The last round of the inverse cipher, which has no InvMixColumns.
#[inline(always)]
pub(super) fn inverse_last_round(x: u8x16, key: u8x16, turns: &InverseTurns) -> u8x16
    ensures { (w st : List ℕ) → IsBlock 16 st → x ≡ map inverse_form st → key ≡ round_octets w 0 → result ≡ inverse_cipher_last w st }
{
    let (u, v) = inversion_indices(x);
    shuffled(looked_up(INVERTED_U, INVERTED_V, u, v), turns.own) ^ key
}

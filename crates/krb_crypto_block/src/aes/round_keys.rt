//! Round keys (FIPS 197, 5.2 and 5.3.5) as the rounds on vectors take them. Each is made of those
//! before it, an octet a lane, with no way through words.

ghost use Rattle.std.specs.Prelude.{◌≡◌, ℕ, ◌+◌, ◌*◌, ◌<◌, ◌≤◌, List, length, map};
ghost use Rattle.krb_crypto_block.specs.Modes.{IsOctets, IsBlock};
ghost use Rattle.krb_crypto_block.specs.Aes.{column_of, add_words, sub_word, rot_word, key_expansion, IsKeySize};
ghost use Rattle.krb_crypto_block.specs.AesLanes.{tower, round_octets, HasVectors, HasInverseVectors};
ghost use Rattle.krb_crypto_block.specs.AesNextKey.{constant_word, in_each_column, next_octets, HasLast};

use super::inverse_rounds::{to_inverse_linear, unmixed};
use super::rounds::{substituted, to_tower};
use super::tables::ROUND_CONSTANTS;
use crate::octets::are_octets;
use std::simd::prelude::*;

/// The round keys of the longer key.
pub(super) const MOST_KEYS: usize = 15;

/// A round key, an octet a lane.
#[derive(Clone, Copy)]
pub(super) struct RoundKey {
    pub(super) lanes: u8x16,
}

/// Round key `n` among the octets of the key itself.
#[inline(always)]
fn own_key(key: &[u8], n: usize) -> u8x16
    requires { 16 * n + 16 ≤ length key.now }
    ensures { result ≡ round_octets key.now n }
{
    u8x16::from_slice(&key[16 * n..16 * n + 16])
}

/// The last word of a round key in tower form after SubWord, in each column.
#[inline(always)]
fn substituted_word(key: u8x16) -> u8x16
    ensures { (st : List ℕ) → IsBlock 16 st → key ≡ map tower st → result ≡ in_each_column (sub_word (column_of st 3)) }
{
    let word: u8x16 = key.swizzle([
        12, 13, 14, 15, 12, 13, 14, 15, 12, 13, 14, 15, 12, 13, 14, 15,
    ]);
    substituted(word) ^ u8x16::splat(0x63)
}

/// The last word of a round key in tower form after RotWord and SubWord, with Rcon[`n` + 1] added,
/// in each column.
#[inline(always)]
fn rotated_word(key: u8x16, n: usize) -> u8x16
    requires { n < 10 }
    ensures { (st : List ℕ) → IsBlock 16 st → key ≡ map tower st
        → result ≡ in_each_column (add_words (sub_word (rot_word (column_of st 3))) (constant_word n)) }
{
    let word: u8x16 = key.swizzle([
        13, 14, 15, 12, 13, 14, 15, 12, 13, 14, 15, 12, 13, 14, 15, 12,
    ]);
    let constant: u8x16 = u8x16::splat(ROUND_CONSTANTS[n]).shuffle(
        u8x16::splat(0),
        [0, 16, 16, 16, 0, 16, 16, 16, 0, 16, 16, 16, 0, 16, 16, 16],
    );
    substituted(word) ^ u8x16::splat(0x63) ^ constant
}

/// The next round key: the first word of this one has the term added, and each later word the new
/// word before it.
#[inline(always)]
fn summed(key: u8x16, term: u8x16) -> u8x16
    ensures { (st t : List ℕ) → IsBlock 16 st → key ≡ st → term ≡ in_each_column t → result ≡ next_octets st t }
{
    let none = u8x16::splat(0);
    let one: u8x16 = none.shuffle(
        key,
        [0, 1, 2, 3, 16, 17, 18, 19, 20, 21, 22, 23, 24, 25, 26, 27],
    );
    let pairs = key ^ one;
    let two: u8x16 = none.shuffle(
        pairs,
        [0, 1, 2, 3, 4, 5, 6, 7, 16, 17, 18, 19, 20, 21, 22, 23],
    );
    pairs ^ two ^ term
}

/// Round key `n` of a key of `NK` words, from the two before it, or of 4 words from the last alone.
/// `tower` is the last in tower form.
#[inline(always)]
fn next_key<const NK: usize>(before: u8x16, last: u8x16, tower: u8x16, n: usize) -> u8x16
    requires size { IsKeySize NK }
    requires past { NK ≤ 4 * n }
    requires within { n ≤ NK + 6 }
    ensures { (key : List ℕ) → IsOctets key → length key ≡ 4 * NK → HasLast NK (key_expansion key) before last tower n
        → result ≡ round_octets (key_expansion key) n }
{
    if NK == 4 {
        summed(last, rotated_word(tower, n - 1))
    } else if n % 2 == 0 {
        summed(before, rotated_word(tower, n / 2 - 1))
    } else {
        summed(before, substituted_word(tower))
    }
}

/// The round keys as the rounds take them, into `keys`: in tower form, and all but the first with
/// the constant of SubBytes.
pub(super) fn encryption_keys<const NK: usize>(key: &[u8], keys: &mut [RoundKey; MOST_KEYS])
    requires size { IsKeySize NK }
    requires whole { length key.now ≡ 4 * NK }
    ensures { HasVectors (key_expansion key.now) keys.new (NK + 6) }
{
    are_octets(key);
    let mut before = own_key(key, 0);
    let mut last = own_key(key, NK / 4 - 1);
    let mut tower = to_tower(last);
    keys[NK / 4 - 1] = RoundKey {
        lanes: tower ^ u8x16::splat(0x6e),
    };
    keys[0] = RoundKey {
        lanes: to_tower(before),
    };
    for n in NK / 4..NK + 6 {
        let next = next_key::<NK>(before, last, tower, n);
        tower = to_tower(next);
        keys[n] = RoundKey {
            lanes: tower ^ u8x16::splat(0x6e),
        };
        before = last;
        last = next;
    }
    keys[NK + 6] = RoundKey {
        lanes: next_key::<NK>(before, last, tower, NK + 6) ^ u8x16::splat(0x63),
    };
}

/// The round keys as the rounds of the inverse cipher take them, into `keys`.
pub(super) fn decryption_keys<const NK: usize>(key: &[u8], keys: &mut [RoundKey; MOST_KEYS])
    requires size { IsKeySize NK }
    requires whole { length key.now ≡ 4 * NK }
    ensures { HasInverseVectors (key_expansion key.now) keys.new (NK + 6) }
{
    are_octets(key);
    let mut before = own_key(key, 0);
    let mut last = own_key(key, NK / 4 - 1);
    let mut tower = to_tower(last);
    keys[NK / 4 - 1] = RoundKey {
        lanes: unmixed(last) ^ u8x16::splat(0x2c),
    };
    keys[0] = RoundKey { lanes: before };
    for n in NK / 4..NK + 6 {
        let next = next_key::<NK>(before, last, tower, n);
        tower = to_tower(next);
        keys[n] = RoundKey {
            lanes: unmixed(next) ^ u8x16::splat(0x2c),
        };
        before = last;
        last = next;
    }
    let next = next_key::<NK>(before, last, tower, NK + 6);
    keys[NK + 6] = RoundKey {
        lanes: to_inverse_linear(next ^ u8x16::splat(0x63)),
    };
}

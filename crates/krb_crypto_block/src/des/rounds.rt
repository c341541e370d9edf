//! The 16 rounds of DES between its first and its last permutation (FIPS 46-3, Enciphering, Deciphering).

ghost use Rattle.std.specs.Prelude.{◌≡◌, map, reverse, take, drop};
ghost use Rattle.krb_crypto_block.specs.Des.{bits, round_value, rounds, key_bits};

use super::tables::COMBINED;

/// What the rounds with these round keys make of the two halves of a block: the right half, and after it the left half.
pub(super) fn rounds(keys: &[u64; 16], block: u64) -> u64
    ensures { bits 64 result ≡ rounds (map key_bits keys.now) (take 32 (bits 64 block)) (drop 32 (bits 64 block)) }
{
    let mut left = (block >> 32) as u32;
    let mut right = (block % (1 << 32)) as u32;
    'rounds: for n in 0..16 {
        let next = left ^ round_value(right, keys[n]);
        left = right;
        right = next;
    }
    right as u64 * (1 << 32) + left as u64
}

/// The same with the round keys from the last to the first, which decrypts.
pub(super) fn rounds_back(keys: &[u64; 16], block: u64) -> u64
    ensures { bits 64 result ≡ rounds (reverse (map key_bits keys.now)) (take 32 (bits 64 block)) (drop 32 (bits 64 block)) }
{
    let mut left = (block >> 32) as u32;
    let mut right = (block % (1 << 32)) as u32;
    'rounds: for n in 0..16 {
        let next = left ^ round_value(right, keys[15 - n]);
        left = right;
        right = next;
    }
    right as u64 * (1 << 32) + left as u64
}

/// f(R, K), what a round adds to the left half (FIPS 46-3, The Cipher Function f). E takes six bits for each box, four further
/// on than for the box before: of the half turned by 3 they are in each octet those of S1, S3, S5 and S7, and of the half turned
/// by 31 those of S2, S4, S6 and S8.
fn round_value(right: u32, key: u64) -> u32
    ensures { bits 32 result ≡ round_value (bits 32 right) (key_bits key) }
{
    let wide = right.rotate_right(3) as u64 * (1 << 32) + right.rotate_right(31) as u64;
    let mixed = wide ^ key;
    let mut value = 0;
    'boxes: for i in 0..4 {
        let odd = (mixed >> (56 - 8 * i)) % 64;
        let even = (mixed >> (24 - 8 * i)) % 64;
        value = value ^ COMBINED[2 * i][odd as usize] ^ COMBINED[2 * i + 1][even as usize];
    }
    value
}

//! The key schedule of DES (FIPS 46-3, Appendix 1).

ghost use Rattle.std.specs.Prelude.{◌≡◌, ◌^◌, ◌<◌, ◌≤◌, ◌++◌, map};
ghost use Rattle.krb_crypto_block.specs.DesTables.{first_choice, second_choice};
ghost use Rattle.krb_crypto_block.specs.Des.{bits, permuted, turned_left, round_keys, key_bits};

use super::permutation::permute_first;
use super::tables::{CHOSEN_OF_C, CHOSEN_OF_D, TURNS};

/// The 16 round keys of a key, each as a round takes it: six bits in an octet, for S1, S3, S5, S7, S2, S4, S6 and S8.
pub(super) fn round_keys(key: u64) -> [u64; 16]
    ensures { map key_bits result ≡ round_keys (bits 64 key) }
{
    let chosen = first_choice(key);
    let mut c = chosen >> 28;
    let mut d = chosen % (1 << 28);
    let mut keys = [0; 16];
    'keys: for i in 0..16 {
        c = turn_left(c, TURNS[i]);
        d = turn_left(d, TURNS[i]);
        keys[i] = second_choice(c, d);
    }
    keys
}

/// PC-1, the 28 bits of C and the 28 bits of D. IP makes each octet of one column of the key, a bit of each of its octets from
/// the last to the first, and PC-1 takes the same columns: the first three and half of the fourth, the seventh, the sixth, the
/// fifth and the other half of the fourth.
fn first_choice(key: u64) -> u64
    ensures value { bits 56 result ≡ permuted first_choice (bits 64 key) }
    ensures small { result < 2 ^ 56 }
{
    let columns = permute_first(key);
    let mut chosen = (columns >> 24) % 256;
    chosen = chosen * 256 + (columns >> 56) % 256;
    chosen = chosen * 256 + (columns >> 16) % 256;
    chosen = chosen * 16 + (columns >> 52) % 16;
    chosen = chosen * 256 + columns % 256;
    chosen = chosen * 256 + (columns >> 40) % 256;
    chosen = chosen * 256 + (columns >> 8) % 256;
    chosen * 16 + (columns >> 48) % 16
}

/// C or D, of 28 bits, turned left by this many places.
fn turn_left(half: u64, places: u8) -> u64
    requires half { half < 2 ^ 28 }
    requires few { places ≤ 28 }
    ensures value { bits 28 result ≡ turned_left places (bits 28 half) }
    ensures small { result < 2 ^ 28 }
{
    let low = 1 << (28 - places);
    half % low * (1 << places) + half / low
}

/// PC-2, the round key that C and D choose, by seven bits of each at a time.
fn second_choice(c: u64, d: u64) -> u64
    ensures { key_bits result ≡ permuted second_choice (bits 28 c ++ bits 28 d) }
{
    let mut of_c = 0;
    let mut of_d = 0;
    'parts: for i in 0..4 {
        of_c = of_c ^ CHOSEN_OF_C[i][((c >> (21 - 7 * i)) % 128) as usize];
        of_d = of_d ^ CHOSEN_OF_D[i][((d >> (21 - 7 * i)) % 128) as usize];
    }
    let odd = (of_c >> 16) as u64 * (1 << 16) + (of_d >> 16) as u64;
    let even = (of_c % (1 << 16)) as u64 * (1 << 16) + (of_d % (1 << 16)) as u64;
    odd * (1 << 32) + even
}

//! The rounds of the cipher and of its equivalent inverse (FIPS 197, 5.1, 5.3.5), on states of four words, a column each.

ghost use Rattle.std.specs.Prelude.{◌≡◌, ℕ, ◌+◌, ◌-◌, ◌≤◌, List};
ghost use Rattle.krb_crypto_block.specs.Modes.{IsOctets, IsBlock};
ghost use Rattle.krb_crypto_block.specs.Aes.{add_round_key, round, rounds, last_round};
ghost use Rattle.krb_crypto_aes_tables.specs.RoundKeys.{HasUnmixedKey};
ghost use Rattle.krb_crypto_block.specs.AesWords.{Holds, HasRoundKey, inverse_cipher_round, inverse_cipher_rounds, inverse_cipher_last};

use crate::encrypting_tables::mixed_column;
use crate::opening_tables::unmixed_column;
use crate::tables::{substituted_column, unsubstituted_column};
use krb_crypto_block::aes_key_expansion::ROUND_KEY_WORDS;

/// AddRoundKey (5.1.4) of a block, with round key `n`.
pub(crate) fn add_round_key(keys: &[u32; ROUND_KEY_WORDS], n: usize, block: [u8; 16]) -> [u32; 4]
    requires { n ≤ 14 }
    ensures { (w : List ℕ) → IsOctets w → HasRoundKey w keys.now n → IsBlock 16 block → Holds result (add_round_key w n block) }
{
    [
        u32::from_be_bytes([block[0], block[1], block[2], block[3]]) ^ keys[4 * n],
        u32::from_be_bytes([block[4], block[5], block[6], block[7]]) ^ keys[4 * n + 1],
        u32::from_be_bytes([block[8], block[9], block[10], block[11]]) ^ keys[4 * n + 2],
        u32::from_be_bytes([block[12], block[13], block[14], block[15]]) ^ keys[4 * n + 3],
    ]
}

/// The first nine rounds, which each key has.
pub(crate) fn nine_rounds(keys: &[u32; ROUND_KEY_WORDS], block: [u8; 16]) -> [u32; 4]
    ensures { (w : List ℕ) → IsOctets w → ((n : ℕ) → n ≤ 9 → HasRoundKey w keys.now n) → IsBlock 16 block → Holds result (rounds w block 9) }
{
    let fourth = four_rounds(keys, 1, add_round_key(keys, 0, block));
    let eighth = four_rounds(keys, 5, fourth);
    round(keys, 9, eighth)
}

/// Round `n` and the three after it.
pub(crate) fn four_rounds(keys: &[u32; ROUND_KEY_WORDS], n: usize, s: [u32; 4]) -> [u32; 4]
    requires { n ≤ 11 }
    ensures { (w st : List ℕ) → IsOctets w → ((i : ℕ) → i ≤ 3 → HasRoundKey w keys.now (n + i)) → Holds s st
        → Holds result (round w (n + 3) (round w (n + 2) (round w (n + 1) (round w n st)))) }
{
    round(
        keys,
        n + 3,
        round(keys, n + 2, round(keys, n + 1, round(keys, n, s))),
    )
}

/// Round `n` (5.1).
fn round(keys: &[u32; ROUND_KEY_WORDS], n: usize, s: [u32; 4]) -> [u32; 4]
    requires { n ≤ 14 }
    ensures { (w st : List ℕ) → IsOctets w → HasRoundKey w keys.now n → Holds s st → Holds result (round w n st) }
{
    let [a0, a1, a2, a3] = s[0].to_be_bytes();
    let [b0, b1, b2, b3] = s[1].to_be_bytes();
    let [c0, c1, c2, c3] = s[2].to_be_bytes();
    let [d0, d1, d2, d3] = s[3].to_be_bytes();
    [
        mixed_column(a0, b1, c2, d3) ^ keys[4 * n],
        mixed_column(b0, c1, d2, a3) ^ keys[4 * n + 1],
        mixed_column(c0, d1, a2, b3) ^ keys[4 * n + 2],
        mixed_column(d0, a1, b2, c3) ^ keys[4 * n + 3],
    ]
}

/// The last round, `n`, has no MixColumns (5.1).
pub(crate) fn last_round(keys: &[u32; ROUND_KEY_WORDS], n: usize, s: [u32; 4]) -> [u8; 16]
    requires { n ≤ 14 }
    ensures { (w st : List ℕ) → IsOctets w → HasRoundKey w keys.now n → Holds s st → result ≡ last_round w n st }
{
    let [a0, a1, a2, a3] = s[0].to_be_bytes();
    let [b0, b1, b2, b3] = s[1].to_be_bytes();
    let [c0, c1, c2, c3] = s[2].to_be_bytes();
    let [d0, d1, d2, d3] = s[3].to_be_bytes();
    octets_of([
        substituted_column(a0, b1, c2, d3) ^ keys[4 * n],
        substituted_column(b0, c1, d2, a3) ^ keys[4 * n + 1],
        substituted_column(c0, d1, a2, b3) ^ keys[4 * n + 2],
        substituted_column(d0, a1, b2, c3) ^ keys[4 * n + 3],
    ])
}

/// The octets of a state.
fn octets_of(s: [u32; 4]) -> [u8; 16]
    ensures { (st : List ℕ) → Holds s st → result ≡ st }
{
    let [a0, a1, a2, a3] = s[0].to_be_bytes();
    let [b0, b1, b2, b3] = s[1].to_be_bytes();
    let [c0, c1, c2, c3] = s[2].to_be_bytes();
    let [d0, d1, d2, d3] = s[3].to_be_bytes();
    [
        a0, a1, a2, a3, b0, b1, b2, b3, c0, c1, c2, c3, d0, d1, d2, d3,
    ]
}

/// The nine rounds of the inverse cipher, from round 9 to round 1, which each key has.
pub(crate) fn nine_inverse_rounds(keys: &[u32; ROUND_KEY_WORDS], s: [u32; 4]) -> [u32; 4]
    ensures { (w st : List ℕ) → IsOctets w → ((n : ℕ) → 1 ≤ n → n ≤ 9 → HasUnmixedKey w keys.now n) → Holds s st → Holds result (inverse_cipher_rounds w st 9) }
{
    let fifth = four_inverse_rounds(keys, 8, inverse_round(keys, 9, s));
    four_inverse_rounds(keys, 4, fifth)
}

/// Round `n` of the inverse cipher, and the three that come after it, down to `n - 3`.
pub(crate) fn four_inverse_rounds(keys: &[u32; ROUND_KEY_WORDS], n: usize, s: [u32; 4]) -> [u32; 4]
    requires { (3 ≤ n) × (n ≤ 14) }
    ensures { (w st : List ℕ) → IsOctets w → ((i : ℕ) → i ≤ 3 → HasUnmixedKey w keys.now (n - i)) → Holds s st
        → Holds result (inverse_cipher_round w (n - 3) (inverse_cipher_round w (n - 2)
        (inverse_cipher_round w (n - 1) (inverse_cipher_round w n st)))) }
{
    inverse_round(
        keys,
        n - 3,
        inverse_round(
            keys,
            n - 2,
            inverse_round(keys, n - 1, inverse_round(keys, n, s)),
        ),
    )
}

/// Round `n` of the inverse cipher; the round key is unmixed (5.3.5).
fn inverse_round(keys: &[u32; ROUND_KEY_WORDS], n: usize, s: [u32; 4]) -> [u32; 4]
    requires { n ≤ 14 }
    ensures { (w st : List ℕ) → IsOctets w → HasUnmixedKey w keys.now n → Holds s st → Holds result (inverse_cipher_round w n st) }
{
    let [a0, a1, a2, a3] = s[0].to_be_bytes();
    let [b0, b1, b2, b3] = s[1].to_be_bytes();
    let [c0, c1, c2, c3] = s[2].to_be_bytes();
    let [d0, d1, d2, d3] = s[3].to_be_bytes();
    [
        unmixed_column(a0, d1, c2, b3) ^ keys[4 * n],
        unmixed_column(b0, a1, d2, c3) ^ keys[4 * n + 1],
        unmixed_column(c0, b1, a2, d3) ^ keys[4 * n + 2],
        unmixed_column(d0, c1, b2, a3) ^ keys[4 * n + 3],
    ]
}

/// The last round of the inverse cipher has no InvMixColumns (5.3.5).
pub(crate) fn inverse_last_round(keys: &[u32; ROUND_KEY_WORDS], s: [u32; 4]) -> [u8; 16]
    ensures { (w st : List ℕ) → IsOctets w → HasRoundKey w keys.now 0 → Holds s st → result ≡ inverse_cipher_last w st }
{
    let [a0, a1, a2, a3] = s[0].to_be_bytes();
    let [b0, b1, b2, b3] = s[1].to_be_bytes();
    let [c0, c1, c2, c3] = s[2].to_be_bytes();
    let [d0, d1, d2, d3] = s[3].to_be_bytes();
    octets_of([
        unsubstituted_column(a0, d1, c2, b3) ^ keys[0],
        unsubstituted_column(b0, a1, d2, c3) ^ keys[1],
        unsubstituted_column(c0, b1, a2, d3) ^ keys[2],
        unsubstituted_column(d0, c1, b2, a3) ^ keys[3],
    ])
}

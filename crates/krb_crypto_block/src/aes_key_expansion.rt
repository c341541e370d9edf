//! The key expansion of AES (FIPS 197, 5.2), by words, over any way to put a column through the
//! S-box. It is for the crate of the word tables: this crate makes round keys in vectors.

ghost use Rattle.std.specs.Prelude.{◌≡◌, ℕ, ◌+◌, ◌*◌, ◌<◌, ◌≤◌, List, [], ◌∷◌, length, take};
ghost use Rattle.krb_crypto_block.specs.Modes.{IsOctets};
ghost use Rattle.krb_crypto_block.specs.SBox.{s_box};
ghost use Rattle.krb_crypto_block.specs.Aes.{key_term, key_expansion, IsKeySize};
ghost use Rattle.krb_crypto_block.specs.AesWords.{word_of, HasRoundKey};

use crate::octets::are_octets;

/// The words of the round keys of the longer key: 15 of 4.
pub const ROUND_KEY_WORDS: usize = 60;

/// Rcon[1] to Rcon[10].
const ROUND_CONSTANTS: [u32; 10] = [
    0x01000000, 0x02000000, 0x04000000, 0x08000000, 0x10000000, 0x20000000, 0x40000000, 0x80000000,
    0x1b000000, 0x36000000,
];

/// SubWord (FIPS 197, 5.2).
pub trait SubstitutesColumns {
    /// The column of these octets, first row first, after SubBytes.
    fn substituted_column(a: u8, b: u8, c: u8, d: u8) -> u32
        ensures { result ≡ word_of (s_box a ∷ s_box b ∷ s_box c ∷ s_box d ∷ []) };
}

/// The words of the round keys of a key of `NK` words, `4 * NK + 28` of them. No contract speaks of the words after them.
pub fn expand<const NK: usize, S: SubstitutesColumns>(key: &[u8]) -> [u32; ROUND_KEY_WORDS]
    requires size { IsKeySize NK }
    requires whole { length key.now ≡ 4 * NK }
    ensures { (n : ℕ) → n ≤ NK + 6 → HasRoundKey (key_expansion key.now) result n }
{
    are_octets(key);
    let mut w = [0; ROUND_KEY_WORDS];
    'copy: for i in 0..NK {
        w[i] = u32::from_be_bytes([key[4 * i], key[4 * i + 1], key[4 * i + 2], key[4 * i + 3]]);
    }
    'expand: for i in NK..4 * NK + 28 {
        w[i] = w[i - NK] ^ key_term::<NK, S>(i, w[i - 1]);
    }
    w
}

/// What word `i` adds to the word `NK` before it, from the word before it.
fn key_term<const NK: usize, S: SubstitutesColumns>(i: usize, before: u32) -> u32
    requires size { IsKeySize NK }
    requires within { i < 4 * NK + 28 }
    requires past { NK ≤ i }
    ensures { (t : List ℕ) → IsOctets t → before ≡ word_of t → result ≡ word_of (key_term NK i t) }
{
    let [a, b, c, d] = before.to_be_bytes();
    if i % NK == 0 {
        S::substituted_column(b, c, d, a) ^ ROUND_CONSTANTS[i / NK - 1]
    } else if NK == 8 && i % 8 == 4 {
        S::substituted_column(a, b, c, d)
    } else {
        before
    }
}

/// The octets of a key first. No contract speaks of the octets after them, but that they are octets.
pub fn kept_octets(key: &[u8]) -> [u8; 32]
    requires { length key.now ≤ 32 }
    ensures prefix { take (length key.now) result ≡ key.now }
    ensures octets { IsOctets result }
{
    let mut octets = [0; 32];
    octets[..key.len()].copy_from_slice(key);
    are_octets(&octets);
    octets
}

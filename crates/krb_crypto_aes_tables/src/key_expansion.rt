//! The S-box by its table for the key expansion (FIPS 197, 5.2), and the round keys of the equivalent inverse cipher (5.3.5), by words.

ghost use Rattle.std.specs.Prelude.{◌≡◌, ℕ, ◌≤◌, List};
ghost use Rattle.krb_crypto_block.specs.Modes.{IsOctets};
ghost use Rattle.krb_crypto_block.specs.Aes.{product_of_columns};
ghost use Rattle.krb_crypto_block.specs.AesWords.{word_of, HasRoundKey};
ghost use Rattle.krb_crypto_block.specs.InverseCipher.{unmix_polynomial};
ghost use Rattle.krb_crypto_aes_tables.specs.RoundKeys.{HasInverseKeys};

use crate::opening_tables::unmixed_column;
use crate::tables::{sub_byte, substituted_column};
use krb_crypto_block::aes_key_expansion::{ROUND_KEY_WORDS, SubstitutesColumns};

/// The S-box by its table.
pub(crate) struct Tables;

impl SubstitutesColumns for Tables {
    fn substituted_column(a: u8, b: u8, c: u8, d: u8) -> u32 {
        substituted_column(a, b, c, d)
    }
}

/// The words of the round keys of the equivalent inverse cipher (5.3.5), from those of the cipher.
pub(crate) fn invert(words: &[u32; ROUND_KEY_WORDS], rounds: usize) -> [u32; ROUND_KEY_WORDS]
    requires { (1 ≤ rounds) × (rounds ≤ 14) }
    ensures { (w : List ℕ) → IsOctets w → ((n : ℕ) → n ≤ rounds → HasRoundKey w words.now n) → HasInverseKeys w result rounds }
{
    let mut inverted = *words;
    'unmix: for i in 4..4 * rounds {
        inverted[i] = unmixed(words[i]);
    }
    inverted
}

/// The column of this word after InvMixColumns. The S-box goes first, since the tables undo it.
fn unmixed(word: u32) -> u32
    ensures { (t : List ℕ) → IsOctets t → word ≡ word_of t → result ≡ word_of (product_of_columns unmix_polynomial t) }
{
    let [a, b, c, d] = word.to_be_bytes();
    unmixed_column(sub_byte(a), sub_byte(b), sub_byte(c), sub_byte(d))
}

//! A key of AES, for the word tables.

ghost use Rattle.std.specs.Prelude.{◌≡◌, ℕ, ◌-◌, ◌*◌, List, length, take, MatchResult};
ghost use Rattle.krb_crypto_block.specs.Aes.{aes_block};
ghost use Rattle.krb_crypto_block.specs.InverseCipher.{aes_undo};
ghost use Rattle.krb_crypto_block.specs.Modes.{IsOctets};
ghost use Rattle.krb_crypto_block.specs.Size.{key_octets};
ghost use Rattle.krb_crypto_hash.specs.CryptoError.{IsKeyLengthError};
ghost use Rattle.krb_crypto_aes_tables.specs.RoundKeys.{IsKept};

use crate::key_expansion::{Tables, invert};
use crate::rounds::{
    add_round_key, four_inverse_rounds, four_rounds, inverse_last_round, last_round,
    nine_inverse_rounds, nine_rounds,
};
use krb_crypto_block::aes_key_expansion::{ROUND_KEY_WORDS, expand, kept_octets};
use krb_crypto_block::octets::are_octets;
use krb_crypto_block::{
    AES_BLOCK_SIZE, AES256_KEY_SIZE, AesSize, KerberosCryptoError, KerberosCryptoResult,
};
use std::marker::Model;

/// A key, ready for use: its octets, and the round keys of the cipher and of its equivalent inverse (FIPS 197, 5.3.5). As a
/// value it is its octets.
#[derive(Drop)]
pub struct AesTableKey {
    octets: [u8; AES256_KEY_SIZE],
    round_keys: [u32; ROUND_KEY_WORDS],
    inverse_keys: [u32; ROUND_KEY_WORDS],
    rounds: usize,
}

impl Model for AesTableKey {
    ghost Value = { List ℕ };

    ghost view = { λ k. take (4 * (k.rounds - 6)) k.octets };

    ghost invariant = { λ k. IsKept k.octets k.round_keys k.inverse_keys k.rounds };
}

impl AesTableKey {
    /// The key of these octets. `KeyLength` where they are not as many as the size's keys have; it allocates nothing.
    pub fn new(key: &[u8], size: &AesSize) -> KerberosCryptoResult<AesTableKey>
        ensures { MatchResult result (λ k. (length key.now ≡ key_octets size.now) × (k ≡ key.now)) (IsKeyLengthError (key_octets size.now) key.now) }
    {
        let wanted = size.key_length();
        if key.len() != wanted {
            return Err(KerberosCryptoError::KeyLength(key.len(), wanted));
        }
        let rounds = key.len() / 4 + 6;
        let round_keys = match size {
            AesSize::Aes256 => expand::<8, Tables>(key),
            AesSize::Aes128 => expand::<4, Tables>(key),
        };
        Ok(AesTableKey {
            octets: kept_octets(key),
            inverse_keys: invert(&round_keys, rounds),
            round_keys,
            rounds,
        })
    }

    /// The block, encrypted under the key (FIPS 197, 5.1).
    pub fn encrypt_block(&self, block: [u8; AES_BLOCK_SIZE]) -> [u8; AES_BLOCK_SIZE]
        ensures { result ≡ aes_block self.now block }
    {
        are_octets(&block);
        let keys = &self.round_keys;
        let ninth = nine_rounds(keys, block);
        if self.rounds == 10 {
            last_round(keys, 10, ninth)
        } else {
            last_round(keys, 14, four_rounds(keys, 10, ninth))
        }
    }

    /// The block, decrypted under the key, by the inverse cipher (FIPS 197, 5.3).
    pub fn decrypt_block(&self, block: [u8; AES_BLOCK_SIZE]) -> [u8; AES_BLOCK_SIZE]
        ensures undone { aes_block self.now result ≡ block }
        ensures alone { (q : List ℕ) → length q ≡ 16 → IsOctets q → aes_block self.now q ≡ block → q ≡ result }
        ensures value { result ≡ aes_undo self.now block }
    {
        are_octets(&block);
        let keys = &self.inverse_keys;
        let tenth = if self.rounds == 10 {
            add_round_key(keys, 10, block)
        } else {
            four_inverse_rounds(keys, 13, add_round_key(keys, 14, block))
        };
        inverse_last_round(keys, nine_inverse_rounds(keys, tenth))
    }
}

//! Keys of AES, ready for use: for both directions, or for one.

ghost use Rattle.std.specs.Prelude.{◌≡◌, ℕ, List, length, MatchResult};
ghost use Rattle.krb_crypto_block.specs.Aes.{aes_block};
ghost use Rattle.krb_crypto_block.specs.AesLanes.{key_prefix, EncryptsWith, DecryptsWith};
ghost use Rattle.krb_crypto_block.specs.InverseCipher.{aes_undo};
ghost use Rattle.krb_crypto_block.specs.Modes.{AreInverse, IsOctets};
ghost use Rattle.krb_crypto_block.specs.Size.{key_octets};
ghost use Rattle.krb_crypto_hash.specs.CryptoError.{IsKeyLengthError};

use super::inverse_rounds::{InverseTurns, inverse_last_round, inverse_round, to_inverse_linear};
use super::round_keys::{MOST_KEYS, RoundKey, decryption_keys, encryption_keys};
use super::rounds::{last_round, round, to_tower};
use super::{AES_BLOCK_SIZE, AES256_KEY_SIZE, AesSize};
use crate::aes_key_expansion::kept_octets;
use crate::block_cipher::{BlockDecrypt, BlockEncrypt};
use crate::octets::are_octets;
use krb_crypto_hash::{KerberosCryptoError, KerberosCryptoResult};
use std::marker::Model;
use std::simd::prelude::*;

/// A key, ready to encrypt: its octets, and the round keys of the cipher. As a value it is its octets.
#[derive(Drop)]
pub struct AesEncryptionKey {
    octets: [u8; AES256_KEY_SIZE],
    keys: [RoundKey; MOST_KEYS],
    rounds: usize,
}

impl Model for AesEncryptionKey {
    ghost Value = { List ℕ };

    ghost view = { λ k. key_prefix k.octets k.rounds };

    ghost invariant = { λ k. EncryptsWith k.octets k.keys k.rounds };
}

impl AesEncryptionKey {
    /// The key of these octets. `KeyLength` where they are not as many as the size's keys have; it allocates nothing.
    pub fn new(key: &[u8], size: &AesSize) -> KerberosCryptoResult<AesEncryptionKey>
        ensures { MatchResult result (λ k. (length key.now ≡ key_octets size.now) × (k ≡ key.now)) (IsKeyLengthError (key_octets size.now) key.now) }
    {
        let wanted = size.key_length();
        if key.len() != wanted {
            return Err(KerberosCryptoError::KeyLength(key.len(), wanted));
        }
        let mut keys = [RoundKey {
            lanes: u8x16::splat(0),
        }; MOST_KEYS];
        match size {
            AesSize::Aes256 => encryption_keys::<8>(key, &mut keys),
            AesSize::Aes128 => encryption_keys::<4>(key, &mut keys),
        }
        Ok(AesEncryptionKey {
            octets: kept_octets(key),
            keys,
            rounds: key.len() / 4 + 6,
        })
    }

    /// The block, encrypted under the key (FIPS 197, 5.1).
    pub fn encrypt_block(&self, block: [u8; AES_BLOCK_SIZE]) -> [u8; AES_BLOCK_SIZE]
        ensures { result ≡ aes_block self.now block }
    {
        are_octets(&block);
        let mut s = to_tower(u8x16::from_array(block)) ^ self.keys[0].lanes;
        for n in 1..self.rounds {
            s = round(s, self.keys[n].lanes);
        }
        last_round(s, self.keys[self.rounds].lanes).to_array()
    }

    /// A lemma: the cipher and its inverse under this key undo each other.
    pub(crate) fn undoes(&self)
        ensures { AreInverse 16 (aes_block self.now) (aes_undo self.now) }
    {
        let _rounds = self.rounds;
    }
}

/// A key, ready to decrypt: its octets, and the round keys of the equivalent inverse cipher (FIPS 197, 5.3.5). As a value it is its
/// octets.
#[derive(Drop)]
pub struct AesDecryptionKey {
    octets: [u8; AES256_KEY_SIZE],
    keys: [RoundKey; MOST_KEYS],
    rounds: usize,
}

impl Model for AesDecryptionKey {
    ghost Value = { List ℕ };

    ghost view = { λ k. key_prefix k.octets k.rounds };

    ghost invariant = { λ k. DecryptsWith k.octets k.keys k.rounds };
}

impl AesDecryptionKey {
    /// The key of these octets. `KeyLength` where they are not as many as the size's keys have; it allocates nothing.
    pub fn new(key: &[u8], size: &AesSize) -> KerberosCryptoResult<AesDecryptionKey>
        ensures { MatchResult result (λ k. (length key.now ≡ key_octets size.now) × (k ≡ key.now)) (IsKeyLengthError (key_octets size.now) key.now) }
    {
        let wanted = size.key_length();
        if key.len() != wanted {
            return Err(KerberosCryptoError::KeyLength(key.len(), wanted));
        }
        let mut keys = [RoundKey {
            lanes: u8x16::splat(0),
        }; MOST_KEYS];
        match size {
            AesSize::Aes256 => decryption_keys::<8>(key, &mut keys),
            AesSize::Aes128 => decryption_keys::<4>(key, &mut keys),
        }
        Ok(AesDecryptionKey {
            octets: kept_octets(key),
            keys,
            rounds: key.len() / 4 + 6,
        })
    }

    /// The block, decrypted under the key, by the inverse cipher (FIPS 197, 5.3).
    pub fn decrypt_block(&self, block: [u8; AES_BLOCK_SIZE]) -> [u8; AES_BLOCK_SIZE]
        ensures undone { aes_block self.now result ≡ block }
        ensures alone { (q : List ℕ) → length q ≡ 16 → IsOctets q → aes_block self.now q ≡ block → q ≡ result }
        ensures value { result ≡ aes_undo self.now block }
    {
        are_octets(&block);
        let turns = InverseTurns::new();
        let mut s = to_inverse_linear(u8x16::from_array(block)) ^ self.keys[self.rounds].lanes;
        for i in 1..self.rounds {
            s = inverse_round(s, self.keys[self.rounds - i].lanes, &turns);
        }
        inverse_last_round(s, self.keys[0].lanes, &turns).to_array()
    }

    /// Two blocks, each decrypted under the key, side by side: on most processors this takes less time than one after the other.
    pub fn decrypt_two(
        &self,
        first: [u8; AES_BLOCK_SIZE],
        second: [u8; AES_BLOCK_SIZE],
    ) -> ([u8; AES_BLOCK_SIZE], [u8; AES_BLOCK_SIZE])
        ensures first { result.0 ≡ aes_undo self.now first }
        ensures second { result.1 ≡ aes_undo self.now second }
    {
        are_octets(&first);
        are_octets(&second);
        let turns = InverseTurns::new();
        let last = self.keys[self.rounds].lanes;
        let mut s = to_inverse_linear(u8x16::from_array(first)) ^ last;
        let mut t = to_inverse_linear(u8x16::from_array(second)) ^ last;
        for i in 1..self.rounds {
            let key = self.keys[self.rounds - i].lanes;
            s = inverse_round(s, key, &turns);
            t = inverse_round(t, key, &turns);
        }
        let key = self.keys[0].lanes;
        (
            inverse_last_round(s, key, &turns).to_array(),
            inverse_last_round(t, key, &turns).to_array(),
        )
    }

    /// A lemma: the cipher and its inverse under this key undo each other.
    pub(crate) fn undoes(&self)
        ensures { AreInverse 16 (aes_block self.now) (aes_undo self.now) }
    {
        let _rounds = self.rounds;
    }
}

/// A key, ready for use in both directions. As a value it is its octets.
#[derive(Drop)]
pub struct AesKey {
    encryption: AesEncryptionKey,
    decryption: AesDecryptionKey,
}

impl Model for AesKey {
    ghost Value = { List ℕ };

    ghost view = { λ k. k.encryption };

    ghost invariant = { λ k. k.decryption ≡ k.encryption };
}

impl AesKey {
    /// The key of these octets. `KeyLength` where they are not as many as the size's keys have; it allocates nothing.
    pub fn new(key: &[u8], size: &AesSize) -> KerberosCryptoResult<AesKey>
        ensures { MatchResult result (λ k. (length key.now ≡ key_octets size.now) × (k ≡ key.now)) (IsKeyLengthError (key_octets size.now) key.now) }
    {
        Ok(AesKey {
            encryption: AesEncryptionKey::new(key, size)?,
            decryption: AesDecryptionKey::new(key, size)?,
        })
    }

    /// The block, encrypted under the key (FIPS 197, 5.1).
    pub fn encrypt_block(&self, block: [u8; AES_BLOCK_SIZE]) -> [u8; AES_BLOCK_SIZE]
        ensures { result ≡ aes_block self.now block }
    {
        self.encryption.encrypt_block(block)
    }

    /// The block, decrypted under the key, by the inverse cipher (FIPS 197, 5.3).
    pub fn decrypt_block(&self, block: [u8; AES_BLOCK_SIZE]) -> [u8; AES_BLOCK_SIZE]
        ensures undone { aes_block self.now result ≡ block }
        ensures alone { (q : List ℕ) → length q ≡ 16 → IsOctets q → aes_block self.now q ≡ block → q ≡ result }
        ensures value { result ≡ aes_undo self.now block }
    {
        self.decryption.decrypt_block(block)
    }
}

impl BlockEncrypt<AES_BLOCK_SIZE> for AesEncryptionKey {
    ghost use Rattle.krb_crypto_block.specs.Aes.{aes_block};
    ghost use Rattle.krb_crypto_block.specs.InverseCipher.{aes_undo};

    ghost encrypts = { aes_block };

    ghost decrypts = { aes_undo };

    fn encrypt_block(&self, block: &[u8; AES_BLOCK_SIZE]) -> [u8; AES_BLOCK_SIZE] {
        self.encrypt_block(*block)
    }
}

impl BlockDecrypt<AES_BLOCK_SIZE> for AesDecryptionKey {
    ghost use Rattle.krb_crypto_block.specs.Aes.{aes_block};
    ghost use Rattle.krb_crypto_block.specs.InverseCipher.{aes_undo};

    ghost encrypts = { aes_block };

    ghost decrypts = { aes_undo };

    fn decrypt_block(&self, block: &[u8; AES_BLOCK_SIZE]) -> [u8; AES_BLOCK_SIZE] {
        self.decrypt_block(*block)
    }

    fn decrypt_two(
        &self,
        first: &[u8; AES_BLOCK_SIZE],
        second: &[u8; AES_BLOCK_SIZE],
    ) -> ([u8; AES_BLOCK_SIZE], [u8; AES_BLOCK_SIZE]) {
        self.decrypt_two(*first, *second)
    }
}

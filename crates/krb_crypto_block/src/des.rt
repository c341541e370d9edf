//! Triple DES (NIST SP 800-67, 3.1; RFC 3961, 6.3), for keys of 24 octets: three keys of DES (FIPS 46-3).

ghost use Rattle.std.specs.Prelude.{◌≡◌, ℕ, ◌+◌, ◌≤◌, List, length, take, drop, MatchResult};
ghost use Rattle.krb_crypto_block.specs.Des.{bits, octet_bits, ede3, ede3_undo, AreScheduled};
ghost use Rattle.krb_crypto_block.specs.Modes.{AreInverse, IsOctets};
ghost use Rattle.krb_crypto_hash.specs.CryptoError.{IsKeyLengthError};

use crate::block_cipher::{BlockDecrypt, BlockEncrypt};
use key_schedule::round_keys;
use krb_crypto_hash::{KerberosCryptoError, KerberosCryptoResult};
use permutation::{permute_first, permute_last};
use rounds::{rounds, rounds_back};
use std::marker::Model;

mod key_schedule;
mod permutation;
mod rounds;
mod tables;

pub use tables::COMBINED;

/// The octets of a block (FIPS 46-3): 64 bits.
pub const DES3_BLOCK_SIZE: usize = 8;

/// The octets of a key (RFC 3961, 6.3): three keys of DES.
pub const DES3_KEY_SIZE: usize = 24;

/// The octets of an integrity checksum (RFC 3961, 6.3): a whole HMAC over SHA-1.
pub const DES3_MAC_SIZE: usize = 20;

/// The octets of a seed (RFC 3961, 6.3.1): 168 bits.
pub const DES3_SEED_LEN: usize = 21;

/// A key, ready for use: its octets, and the round keys of its three keys of DES. As a value it is the octets.
#[derive(Drop)]
pub struct DesKey {
    octets: [u8; DES3_KEY_SIZE],
    first: [u64; 16],
    second: [u64; 16],
    third: [u64; 16],
}

impl Model for DesKey {
    ghost Value = { List ℕ };

    ghost view = { λ k. k.octets };

    ghost invariant = { λ k. AreScheduled k.first k.second k.third k.octets };
}

impl DesKey {
    /// The key of these octets. `KeyLength` where they are not 24; it allocates nothing.
    pub fn new(key: &[u8]) -> KerberosCryptoResult<DesKey>
        ensures { MatchResult result (λ k. (length key.now ≡ 24) × (k ≡ key.now)) (IsKeyLengthError 24 key.now) }
    {
        if key.len() != DES3_KEY_SIZE {
            return Err(KerberosCryptoError::KeyLength(key.len(), DES3_KEY_SIZE));
        }
        let mut octets = [0; DES3_KEY_SIZE];
        octets.copy_from_slice(key);
        Ok(DesKey {
            octets,
            first: round_keys(eight_octets(&octets, 0)),
            second: round_keys(eight_octets(&octets, 8)),
            third: round_keys(eight_octets(&octets, 16)),
        })
    }

    /// The block that triple DES makes of this one under the key: encrypted with its first key, decrypted with its
    /// second, encrypted with its third. In between, the last permutation of one and the first of the next undo each other.
    pub fn encrypt_block(&self, block: [u8; DES3_BLOCK_SIZE]) -> [u8; DES3_BLOCK_SIZE]
        ensures { result ≡ ede3 self.now block }
    {
        let start = permute_first(u64::from_be_bytes(block));
        let once = rounds(&self.first, start);
        let twice = rounds_back(&self.second, once);
        let thrice = rounds(&self.third, twice);
        permute_last(thrice).to_be_bytes()
    }

    /// The one block that triple DES makes this one of under the key.
    pub fn decrypt_block(&self, block: [u8; DES3_BLOCK_SIZE]) -> [u8; DES3_BLOCK_SIZE]
        ensures undone { ede3 self.now result ≡ block }
        ensures alone { (q : List ℕ) → length q ≡ 8 → IsOctets q → ede3 self.now q ≡ block → q ≡ result }
        ensures value { result ≡ ede3_undo self.now block }
    {
        let start = permute_first(u64::from_be_bytes(block));
        let once = rounds_back(&self.third, start);
        let twice = rounds(&self.second, once);
        let thrice = rounds_back(&self.first, twice);
        permute_last(thrice).to_be_bytes()
    }

    /// A lemma: the two block calls undo each other.
    pub(crate) fn undoes(&self)
        ensures { AreInverse 8 (ede3 self.now) (ede3_undo self.now) }
    {}
}

impl BlockEncrypt<DES3_BLOCK_SIZE> for DesKey {
    ghost use Rattle.krb_crypto_block.specs.Des.{ede3, ede3_undo};

    ghost encrypts = { ede3 };

    ghost decrypts = { ede3_undo };

    fn encrypt_block(&self, block: &[u8; DES3_BLOCK_SIZE]) -> [u8; DES3_BLOCK_SIZE] {
        self.encrypt_block(*block)
    }
}

impl BlockDecrypt<DES3_BLOCK_SIZE> for DesKey {
    ghost use Rattle.krb_crypto_block.specs.Des.{ede3, ede3_undo};

    ghost encrypts = { ede3 };

    ghost decrypts = { ede3_undo };

    fn decrypt_block(&self, block: &[u8; DES3_BLOCK_SIZE]) -> [u8; DES3_BLOCK_SIZE] {
        self.decrypt_block(*block)
    }

    fn decrypt_two(
        &self,
        first: &[u8; DES3_BLOCK_SIZE],
        second: &[u8; DES3_BLOCK_SIZE],
    ) -> ([u8; DES3_BLOCK_SIZE], [u8; DES3_BLOCK_SIZE]) {
        (self.decrypt_block(*first), self.decrypt_block(*second))
    }
}

/// The bits of the eight octets from this place on, as one number.
fn eight_octets(octets: &[u8], at: usize) -> u64
    requires { at + 8 ≤ length octets.now }
    ensures { bits 64 result ≡ octet_bits (take 8 (drop at octets.now)) }
{
    u64::from_be_bytes([
        octets[at],
        octets[at + 1],
        octets[at + 2],
        octets[at + 3],
        octets[at + 4],
        octets[at + 5],
        octets[at + 6],
        octets[at + 7],
    ])
}

//! Keys of HMAC (RFC 2104), ready for use: what is hashed of a key alone is hashed once, however many messages follow.

ghost use Rattle.std.specs.Prelude.{◌≡◌, ℕ, ◌≤◌, List, ◌++◌, length, take};
ghost use Rattle.krb_crypto_hash.specs.Hmac.{AreSizes, hmac_over, IsReady};
ghost use Rattle.krb_crypto_hash.specs.Kdf.{kdf_message};

use crate::hash::HashFunction;
use crate::hmac::{keyed, mac};
use crate::kdf::block_under;
use sha1::Sha1;
use sha2::{Sha256, Sha384};
use std::marker::Model;

/// The octets of the longest key.
pub const LONGEST_KEY: usize = 32;

/// A key of at most 32 octets, ready for use: its octets, and the two hashes that have absorbed K XOR ipad and K XOR opad (RFC 2104,
/// 2). As a value it is its octets. It holds no memory of its own.
#[derive(Drop)]
pub struct HmacKey<const BLOCK: usize, const SIZE: usize, H: HashFunction<BLOCK, SIZE>> {
    octets: [u8; LONGEST_KEY],
    length: usize,
    inner: H,
    outer: H,
}

/// A key of HMAC-SHA1 (FIPS 180-4, 6.1).
pub type HmacSha1Key = HmacKey<64, 20, Sha1>;

/// A key of HMAC-SHA256 (FIPS 180-4, 6.2).
pub type HmacSha256Key = HmacKey<64, 32, Sha256>;

/// A key of HMAC-SHA384 (FIPS 180-4, 6.5).
pub type HmacSha384Key = HmacKey<128, 48, Sha384>;

impl<const BLOCK: usize, const SIZE: usize, H: HashFunction<BLOCK, SIZE>> Model
    for HmacKey<BLOCK, SIZE, H> {
    ghost Value = { List ℕ };

    ghost view = { λ k. take k.length k.octets };

    ghost invariant = { λ k. (k.length ≤ 32) × IsReady (H.holds k.inner) (H.holds k.outer) H.hash BLOCK (take k.length k.octets) };
}

impl<const BLOCK: usize, const SIZE: usize, H: HashFunction<BLOCK, SIZE>> HmacKey<BLOCK, SIZE, H> {
    /// The key of these octets.
    pub fn new(key: &[u8]) -> HmacKey<BLOCK, SIZE, H>
        requires sizes { AreSizes BLOCK SIZE }
        requires short { length key.now ≤ 32 }
        ensures { result ≡ key.now }
    {
        let mut octets = [0; LONGEST_KEY];
        octets[..key.len()].copy_from_slice(key);
        let (inner, outer) = keyed::<BLOCK, SIZE, H>(key);
        HmacKey {
            octets,
            length: key.len(),
            inner,
            outer,
        }
    }

    /// Its octets.
    pub fn as_slice(&self) -> &[u8]
        ensures { result.now ≡ self.now }
    {
        &self.octets[..self.length]
    }

    /// The HMAC (RFC 2104, 2) of the payload.
    pub fn mac(&self, payload: &[u8]) -> [u8; SIZE]
        requires { AreSizes BLOCK SIZE }
        ensures { result ≡ hmac_over H.hash BLOCK self.now payload.now }
    {
        mac(&self.inner, &self.outer, payload, &[])
    }

    /// The HMAC of two parts, concatenated.
    pub fn mac_of_parts(&self, first: &[u8], second: &[u8]) -> [u8; SIZE]
        requires { AreSizes BLOCK SIZE }
        ensures { result ≡ hmac_over H.hash BLOCK self.now (first.now ++ second.now) }
    {
        mac(&self.inner, &self.outer, first, second)
    }

    /// The HMAC whose first octets are the key of so many bits for this label (KDF-HMAC-SHA2 of RFC 8009, 3).
    pub fn kdf_block(&self, label: &[u8], bits: u32) -> [u8; SIZE]
        requires { AreSizes BLOCK SIZE }
        ensures { result ≡ hmac_over H.hash BLOCK self.now (kdf_message label.now bits) }
    {
        block_under(&self.inner, &self.outer, label, bits)
    }
}

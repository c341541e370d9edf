//! The HMAC of a suite of RFC 8009, under a key that is ready for use: its checksums and the keys that it derives.

ghost use Rattle.std.specs.Prelude.{◌≡◌, ◌≤◌, ◌++◌, length};
ghost use Rattle.krb_crypto_message.specs.AesSha2.{sha2_mac, sha2_kdf, sha2_checksum_octets};
ghost use Rattle.krb_crypto_message.specs.KeyedHash.{size_of, key_of};

use super::mac::checksum_size;
use crate::short_octets::ShortOctets;
use krb_crypto_block::AesSize;
use krb_crypto_hash::keyed::{HmacSha256Key, HmacSha384Key};

/// A key of at most 32 octets, for HMAC-SHA256 under keys of 16 octets and for HMAC-SHA384 under keys of 32.
#[derive(Drop)]
pub(crate) enum KeyedHash {
    Sha256(HmacSha256Key),
    Sha384(HmacSha384Key),
}

impl KeyedHash {
    /// The key of these octets, for the suite of this size.
    pub(crate) fn new(key: &[u8], size: &AesSize) -> KeyedHash
        requires { length key.now ≤ 32 }
        ensures size { size_of result ≡ size.now }
        ensures key { key_of result ≡ key.now }
    {
        match size {
            AesSize::Aes128 => KeyedHash::Sha256(HmacSha256Key::new(key)),
            AesSize::Aes256 => KeyedHash::Sha384(HmacSha384Key::new(key)),
        }
    }

    /// The size of the suite's keys.
    pub(crate) fn size(&self) -> AesSize
        ensures { result ≡ size_of self.now }
    {
        match self {
            KeyedHash::Sha256(_) => AesSize::Aes128,
            KeyedHash::Sha384(_) => AesSize::Aes256,
        }
    }

    /// The octets of the key.
    pub(crate) fn as_slice(&self) -> &[u8]
        ensures { result.now ≡ key_of self.now }
    {
        match self {
            KeyedHash::Sha256(key) => key.as_slice(),
            KeyedHash::Sha384(key) => key.as_slice(),
        }
    }

    /// The HMAC of two parts, concatenated, cut to a checksum (RFC 8009, 5).
    pub(crate) fn mac(&self, first: &[u8], second: &[u8]) -> ShortOctets
        ensures mac { result ≡ sha2_mac (size_of self.now) (key_of self.now) (first.now ++ second.now) }
        ensures size { length result ≡ sha2_checksum_octets (size_of self.now) }
    {
        let cut = checksum_size(&self.size());
        let mut mac = ShortOctets::empty();
        match self {
            KeyedHash::Sha256(key) => mac.push(&key.mac_of_parts(first, second)[..cut]),
            KeyedHash::Sha384(key) => mac.push(&key.mac_of_parts(first, second)[..cut]),
        }
        mac
    }

    /// The key of so many octets that it gives for a label (KDF-HMAC-SHA2 of RFC 8009, 3).
    pub(crate) fn derived(&self, label: &[u8], octets: usize) -> ShortOctets
        requires { octets ≤ 32 }
        ensures derived { result ≡ sha2_kdf (size_of self.now) (key_of self.now) label.now octets }
        ensures size { length result ≡ octets }
    {
        let bits = 8 * octets as u32;
        let mut derived = ShortOctets::empty();
        match self {
            KeyedHash::Sha256(key) => derived.push(&key.kdf_block(label, bits)[..octets]),
            KeyedHash::Sha384(key) => derived.push(&key.kdf_block(label, bits)[..octets]),
        }
        derived
    }
}

//! The checksum suites by their numbers.

ghost use Rattle.std.specs.Prelude.{◌≡◌, ◌<◌};
ghost use Rattle.krb_crypto.specs.Suites.{checksum_type, IsNumbered};

use krb_crypto_block::{KerberosCryptoError, KerberosCryptoResult};
use krb_registry::cksum_types::{
    HMAC_SHA1_96_AES128, HMAC_SHA1_96_AES256, HMAC_SHA1_DES3_KD, HMAC_SHA256_128_AES128,
    HMAC_SHA384_192_AES256,
};

/// A checksum suite. Its number is that of its checksum type (RFC 3961, 8; RFC 3962, 7; RFC 8009, 7).
#[derive(Debug, Drop, Clone, PartialEq, Eq)]
pub enum ChecksumSuite {
    /// hmac-sha1-96-aes256, 16.
    HmacSha196Aes256,
    /// hmac-sha1-96-aes128, 15.
    HmacSha196Aes128,
    /// hmac-sha1-des3-kd, 12.
    HmacSha1Des3Kd,
    /// hmac-sha256-128-aes128, 19.
    HmacSha256128Aes128,
    /// hmac-sha384-192-aes256, 20.
    HmacSha384192Aes256,
}

impl ChecksumSuite {
    fn number(&self) -> usize
        ensures value { result ≡ checksum_type self.now }
        ensures octet { result < 256 }
    {
        match self {
            ChecksumSuite::HmacSha196Aes256 => HMAC_SHA1_96_AES256,
            ChecksumSuite::HmacSha196Aes128 => HMAC_SHA1_96_AES128,
            ChecksumSuite::HmacSha1Des3Kd => HMAC_SHA1_DES3_KD,
            ChecksumSuite::HmacSha256128Aes128 => HMAC_SHA256_128_AES128,
            ChecksumSuite::HmacSha384192Aes256 => HMAC_SHA384_192_AES256,
        }
    }
}

/// The suite of this number; else `AlgorithmIdentifier` of the number.
impl TryFrom<usize> for ChecksumSuite {
    type Error = KerberosCryptoError;

    ghost try_from_gives = { IsNumbered checksum_type };

    fn try_from(identifier: usize) -> KerberosCryptoResult<ChecksumSuite> {
        match identifier {
            HMAC_SHA1_96_AES256 => Ok(ChecksumSuite::HmacSha196Aes256),
            HMAC_SHA1_96_AES128 => Ok(ChecksumSuite::HmacSha196Aes128),
            HMAC_SHA1_DES3_KD => Ok(ChecksumSuite::HmacSha1Des3Kd),
            HMAC_SHA256_128_AES128 => Ok(ChecksumSuite::HmacSha256128Aes128),
            HMAC_SHA384_192_AES256 => Ok(ChecksumSuite::HmacSha384192Aes256),
            _ => Err(KerberosCryptoError::AlgorithmIdentifier(identifier)),
        }
    }
}

impl From<ChecksumSuite> for usize {
    ghost from_gives = { λ suite n. n ≡ checksum_type suite };

    fn from(suite: ChecksumSuite) -> usize {
        suite.number()
    }
}

impl From<ChecksumSuite> for u32 {
    ghost from_gives = { λ suite n. n ≡ checksum_type suite };

    fn from(suite: ChecksumSuite) -> u32 {
        suite.number() as u32
    }
}

impl From<ChecksumSuite> for u8 {
    ghost from_gives = { λ suite n. n ≡ checksum_type suite };

    fn from(suite: ChecksumSuite) -> u8 {
        suite.number() as u8
    }
}

impl From<&ChecksumSuite> for u32 {
    ghost from_gives = { λ suite n. n ≡ checksum_type suite.now };

    fn from(suite: &ChecksumSuite) -> u32 {
        suite.number() as u32
    }
}

impl From<&ChecksumSuite> for u8 {
    ghost from_gives = { λ suite n. n ≡ checksum_type suite.now };

    fn from(suite: &ChecksumSuite) -> u8 {
        suite.number() as u8
    }
}

//! The encryption suites by their numbers.

ghost use Rattle.std.specs.Prelude.{◌≡◌, ◌<◌, [], ◌∷◌, pos, MatchOption, MatchResult};
ghost use Rattle.krb_crypto_hash.specs.CryptoError.{IsMemoryOr};
ghost use Rattle.krb_crypto.specs.Suites.{etype, IsNumbered, IsIdentifierData, NoSuite};
ghost use Rattle.krb_crypto.specs.declared.cipher_suite.CipherSuite.{CipherSuite};

use krb_crypto_block::{KerberosCryptoError, KerberosCryptoResult};
use krb_der::IntegerAsn1;
use krb_registry::etypes::{
    AES128_CTS_HMAC_SHA1_96, AES128_CTS_HMAC_SHA256_128, AES256_CTS_HMAC_SHA1_96,
    AES256_CTS_HMAC_SHA384_192, DES3_CBC_SHA1_KD,
};
use std::alloc::Global;

/// An encryption suite. Its number is that of its encryption type (RFC 3961, 8; RFC 3962, 7; RFC 8009, 7).
#[derive(Debug, Drop, Clone, PartialEq, Eq)]
pub enum CipherSuite {
    /// aes128-cts-hmac-sha1-96, 17.
    Aes128CtsHmacSha196,
    /// aes256-cts-hmac-sha1-96, 18.
    Aes256CtsHmacSha196,
    /// des3-cbc-hmac-sha1-kd, 16.
    Des3CbcSha1Kd,
    /// aes128-cts-hmac-sha256-128, 19.
    Aes128CtsHmacSha256128,
    /// aes256-cts-hmac-sha384-192, 20.
    Aes256CtsHmacSha384192,
}

impl CipherSuite {
    /// The suite whose number is the identifier's one octet; else `AlgorithmIdentifierData` of the identifier, whose
    /// octets are copied.
    pub fn from_octets(alloc: Global, identifier: &[u8]) -> KerberosCryptoResult<CipherSuite>
        ensures { MatchResult result (λ suite. identifier.now ≡ etype suite ∷ [])
            (λ e. NoSuite (λ suite. etype suite ∷ []) identifier.now × IsMemoryOr e (IsIdentifierData identifier.now e)) }
    {
        if let [octet] = identifier {
            if let Ok(suite) = CipherSuite::try_from(*octet as usize) {
                return Ok(suite);
            }
        }
        Err(KerberosCryptoError::AlgorithmIdentifierData(Vec::from_slice(alloc, identifier)?))
    }

    /// The suite of an encryption type (RFC 3961, 8; RFC 3962, 7; RFC 8009, 7); `None` where no suite has this number.
    pub fn of_number(number: &IntegerAsn1) -> Option<CipherSuite>
        ensures { MatchOption result ((suite : CipherSuite) → number.now ≡ pos (etype suite) → ⊥) (λ suite. number.now ≡ pos (etype suite)) }
    {
        match CipherSuite::try_from(number.to_u32()? as usize) {
            Ok(suite) => Some(suite),
            Err(_error) => None,
        }
    }

    fn number(&self) -> usize
        ensures value { result ≡ etype self.now }
        ensures octet { result < 256 }
    {
        match self {
            CipherSuite::Aes128CtsHmacSha196 => AES128_CTS_HMAC_SHA1_96,
            CipherSuite::Aes256CtsHmacSha196 => AES256_CTS_HMAC_SHA1_96,
            CipherSuite::Des3CbcSha1Kd => DES3_CBC_SHA1_KD,
            CipherSuite::Aes128CtsHmacSha256128 => AES128_CTS_HMAC_SHA256_128,
            CipherSuite::Aes256CtsHmacSha384192 => AES256_CTS_HMAC_SHA384_192,
        }
    }
}

/// The suite of this number; else `AlgorithmIdentifier` of the number.
impl TryFrom<usize> for CipherSuite {
    type Error = KerberosCryptoError;

    ghost try_from_gives = { IsNumbered etype };

    fn try_from(identifier: usize) -> KerberosCryptoResult<CipherSuite> {
        match identifier {
            AES128_CTS_HMAC_SHA1_96 => Ok(CipherSuite::Aes128CtsHmacSha196),
            AES256_CTS_HMAC_SHA1_96 => Ok(CipherSuite::Aes256CtsHmacSha196),
            DES3_CBC_SHA1_KD => Ok(CipherSuite::Des3CbcSha1Kd),
            AES128_CTS_HMAC_SHA256_128 => Ok(CipherSuite::Aes128CtsHmacSha256128),
            AES256_CTS_HMAC_SHA384_192 => Ok(CipherSuite::Aes256CtsHmacSha384192),
            _ => Err(KerberosCryptoError::AlgorithmIdentifier(identifier)),
        }
    }
}

impl From<CipherSuite> for usize {
    ghost from_gives = { λ suite n. n ≡ etype suite };

    fn from(suite: CipherSuite) -> usize {
        suite.number()
    }
}

impl From<CipherSuite> for u8 {
    ghost from_gives = { λ suite n. n ≡ etype suite };

    fn from(suite: CipherSuite) -> u8 {
        suite.number() as u8
    }
}

impl From<&CipherSuite> for u32 {
    ghost from_gives = { λ suite n. n ≡ etype suite.now };

    fn from(suite: &CipherSuite) -> u32 {
        suite.number() as u32
    }
}

impl From<&CipherSuite> for u8 {
    ghost from_gives = { λ suite n. n ≡ etype suite.now };

    fn from(suite: &CipherSuite) -> u8 {
        suite.number() as u8
    }
}

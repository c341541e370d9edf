//! The checksums of RFC 3962: HMAC-SHA1 under a key of AES, cut to 96 bits.

use krb_crypto::{Checksum, ChecksumSuite, KerberosCryptoResult};
use std::alloc::Global;

/// hmac-sha1-96-aes128, checksum type 15 (RFC 3962, 7): keys of 16 octets, checksums of 12.
#[derive(Debug, Drop, Clone, PartialEq, Eq, Default)]
pub struct HmacSha196Aes128;

impl Checksum for HmacSha196Aes128 {
    ghost use Rattle.krb_crypto_message.specs.Sealed.{aes_sum};
    ghost use Rattle.krb_crypto.specs.declared.checksum_suite.ChecksumSuite.TheVariants as checksum;

    ghost key_octets = { λ _. 16 };

    ghost sum = { λ _ key usage message. aes_sum key usage message };

    ghost suite = { λ _. checksum.HmacSha196Aes128 };

    fn checksum_type(&self) -> ChecksumSuite {
        ChecksumSuite::HmacSha196Aes128.checksum_type()
    }

    fn checksum(
        &self,
        alloc: Global,
        key: &[u8],
        key_usage: i32,
        payload: &[u8],
    ) -> KerberosCryptoResult<Vec<u8>> {
        ChecksumSuite::HmacSha196Aes128.checksum(alloc, key, key_usage, payload)
    }
}

/// hmac-sha1-96-aes256, checksum type 16 (RFC 3962, 7): keys of 32 octets, checksums of 12.
#[derive(Debug, Drop, Clone, PartialEq, Eq, Default)]
pub struct HmacSha196Aes256;

impl Checksum for HmacSha196Aes256 {
    ghost use Rattle.krb_crypto_message.specs.Sealed.{aes_sum};
    ghost use Rattle.krb_crypto.specs.declared.checksum_suite.ChecksumSuite.TheVariants as checksum;

    ghost key_octets = { λ _. 32 };

    ghost sum = { λ _ key usage message. aes_sum key usage message };

    ghost suite = { λ _. checksum.HmacSha196Aes256 };

    fn checksum_type(&self) -> ChecksumSuite {
        ChecksumSuite::HmacSha196Aes256.checksum_type()
    }

    fn checksum(
        &self,
        alloc: Global,
        key: &[u8],
        key_usage: i32,
        payload: &[u8],
    ) -> KerberosCryptoResult<Vec<u8>> {
        ChecksumSuite::HmacSha196Aes256.checksum(alloc, key, key_usage, payload)
    }
}

//! The checksums of RFC 8009: HMAC-SHA256 and HMAC-SHA384 under a key of AES, cut to half their length.

use krb_crypto::{Checksum, ChecksumSuite, KerberosCryptoResult};
use std::alloc::Global;

/// hmac-sha256-128-aes128, checksum type 19 (RFC 8009, 6 and 7): keys of 16 octets, checksums of 16.
#[derive(Debug, Drop, Clone, PartialEq, Eq, Default)]
pub struct HmacSha256128Aes128;

impl Checksum for HmacSha256128Aes128 {
    ghost use Rattle.krb_crypto_block.specs.declared.aes.AesSize.TheVariants as size;
    ghost use Rattle.krb_crypto_message.specs.AesSha2.{sha2_sum};
    ghost use Rattle.krb_crypto.specs.declared.checksum_suite.ChecksumSuite.TheVariants as checksum;

    ghost key_octets = { λ _. 16 };

    ghost sum = { λ _ key usage message. sha2_sum size.Aes128 key usage message };

    ghost suite = { λ _. checksum.HmacSha256128Aes128 };

    fn checksum_type(&self) -> ChecksumSuite {
        ChecksumSuite::HmacSha256128Aes128.checksum_type()
    }

    fn checksum(
        &self,
        alloc: Global,
        key: &[u8],
        key_usage: i32,
        payload: &[u8],
    ) -> KerberosCryptoResult<Vec<u8>> {
        ChecksumSuite::HmacSha256128Aes128.checksum(alloc, key, key_usage, payload)
    }
}

/// hmac-sha384-192-aes256, checksum type 20 (RFC 8009, 6 and 7): keys of 32 octets, checksums of 24.
#[derive(Debug, Drop, Clone, PartialEq, Eq, Default)]
pub struct HmacSha384192Aes256;

impl Checksum for HmacSha384192Aes256 {
    ghost use Rattle.krb_crypto_block.specs.declared.aes.AesSize.TheVariants as size;
    ghost use Rattle.krb_crypto_message.specs.AesSha2.{sha2_sum};
    ghost use Rattle.krb_crypto.specs.declared.checksum_suite.ChecksumSuite.TheVariants as checksum;

    ghost key_octets = { λ _. 32 };

    ghost sum = { λ _ key usage message. sha2_sum size.Aes256 key usage message };

    ghost suite = { λ _. checksum.HmacSha384192Aes256 };

    fn checksum_type(&self) -> ChecksumSuite {
        ChecksumSuite::HmacSha384192Aes256.checksum_type()
    }

    fn checksum(
        &self,
        alloc: Global,
        key: &[u8],
        key_usage: i32,
        payload: &[u8],
    ) -> KerberosCryptoResult<Vec<u8>> {
        ChecksumSuite::HmacSha384192Aes256.checksum(alloc, key, key_usage, payload)
    }
}

//! The checksum suites as checksums: each is the one that its number names.

use crate::checksum::Checksum;
use crate::checksum_suite::ChecksumSuite;
use krb_crypto_block::{AesSize, KerberosCryptoResult};
use krb_crypto_message::{aes, aes_sha2, des};
use std::alloc::Global;

impl Checksum for ChecksumSuite {
    ghost use Rattle.krb_crypto.specs.BySuite.{checksum_key_octets_of, sum_of};

    ghost key_octets = { checksum_key_octets_of };

    ghost sum = { sum_of };

    ghost suite = { λ suite. suite };

    fn checksum_type(&self) -> ChecksumSuite {
        match self {
            ChecksumSuite::HmacSha196Aes256 => ChecksumSuite::HmacSha196Aes256,
            ChecksumSuite::HmacSha196Aes128 => ChecksumSuite::HmacSha196Aes128,
            ChecksumSuite::HmacSha1Des3Kd => ChecksumSuite::HmacSha1Des3Kd,
            ChecksumSuite::HmacSha256128Aes128 => ChecksumSuite::HmacSha256128Aes128,
            ChecksumSuite::HmacSha384192Aes256 => ChecksumSuite::HmacSha384192Aes256,
        }
    }

    fn checksum(
        &self,
        alloc: Global,
        key: &[u8],
        key_usage: i32,
        payload: &[u8],
    ) -> KerberosCryptoResult<Vec<u8>> {
        match self {
            ChecksumSuite::HmacSha196Aes256 => {
                aes::checksum_sha_aes(alloc, key, key_usage, payload, &AesSize::Aes256)
            }
            ChecksumSuite::HmacSha196Aes128 => {
                aes::checksum_sha_aes(alloc, key, key_usage, payload, &AesSize::Aes128)
            }
            ChecksumSuite::HmacSha1Des3Kd => des::keyed_checksum(alloc, key, key_usage, payload),
            ChecksumSuite::HmacSha256128Aes128 => {
                aes_sha2::keyed_checksum(alloc, key, key_usage, payload, &AesSize::Aes128)
            }
            ChecksumSuite::HmacSha384192Aes256 => {
                aes_sha2::keyed_checksum(alloc, key, key_usage, payload, &AesSize::Aes256)
            }
        }
    }
}

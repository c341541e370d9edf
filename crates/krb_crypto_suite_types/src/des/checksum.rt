//! The checksum of triple DES (RFC 3961, 6.3): a whole HMAC-SHA1.

use krb_crypto::{Checksum, ChecksumSuite, KerberosCryptoResult};
use std::alloc::Global;

/// hmac-sha1-des3-kd, checksum type 12 (RFC 3961, 6.3): keys of 24 octets, checksums of 20.
#[derive(Debug, Drop, Clone, PartialEq, Eq, Default)]
pub struct HmacSha1Des3Kd;

impl Checksum for HmacSha1Des3Kd {
    ghost use Rattle.krb_crypto_message.specs.Sealed.{des3_sum};
    ghost use Rattle.krb_crypto.specs.declared.checksum_suite.ChecksumSuite.TheVariants as checksum;

    ghost key_octets = { λ _. 24 };

    ghost sum = { λ _ key usage message. des3_sum key usage message };

    ghost suite = { λ _. checksum.HmacSha1Des3Kd };

    fn checksum_type(&self) -> ChecksumSuite {
        ChecksumSuite::HmacSha1Des3Kd.checksum_type()
    }

    fn checksum(
        &self,
        alloc: Global,
        key: &[u8],
        key_usage: i32,
        payload: &[u8],
    ) -> KerberosCryptoResult<Vec<u8>> {
        ChecksumSuite::HmacSha1Des3Kd.checksum(alloc, key, key_usage, payload)
    }
}

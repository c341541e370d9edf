//! The trait of keyed checksums.

ghost use Rattle.std.specs.Prelude.{◌≡◌, ℕ, ℤ, List, length, IfOk, IfErr};
ghost use Rattle.krb_crypto_hash.specs.CryptoError.{RejectsKey};
ghost use Rattle.krb_crypto.specs.declared.checksum_suite.ChecksumSuite.{ChecksumSuite};

use crate::checksum_suite::ChecksumSuite;
use krb_crypto_block::KerberosCryptoResult;
use std::alloc::Global;

/// A keyed checksum (RFC 3961, 4), which callers pass as `&dyn Checksum`.
pub trait Checksum {
    // The octets of a key.
    ghost key_octets: { Self → ℕ };

    // The checksum of a message under this key and key usage.
    ghost sum: { Self → List ℕ → ℤ → List ℕ → List ℕ };

    // The suite whose number names the checksum.
    ghost suite: { Self → ChecksumSuite };

    /// The suite whose number names the checksum in a Checksum.
    fn checksum_type(&self) -> ChecksumSuite
        ensures { result ≡ suite self.now };

    /// The checksum of a payload that stands alone in a message, under the key Kc of this key and key usage.
    ///
    /// A key of another length is `KeyLength`; the only other error is `OutOfMemory`.
    fn checksum(
        &self,
        alloc: Global,
        key: &[u8],
        key_usage: i32,
        payload: &[u8],
    ) -> KerberosCryptoResult<Vec<u8>>
        ensures key { IfOk result (λ _. length key.now ≡ key_octets self.now) }
        ensures checksum { IfOk result (λ checksum. checksum.items ≡ sum self.now key.now key_usage payload.now) }
        ensures rejected { IfErr result (RejectsKey (key_octets self.now) key.now) };
}

//! Encryption under a suite by its number.

ghost use Rattle.std.specs.Prelude.{◌≡◌, pos, IfOk};
ghost use Rattle.krb_crypto_message.specs.Sealed.{IsSealedAes};

use krb_crypto::{Cipher, CipherSuite, KerberosCryptoResult};
use std::alloc::Global;

/// What aes256-cts-hmac-sha1-96 makes of the octets of a ticket's part, whose key usage is 2.
pub fn sealed_octets(
    alloc: Global,
    key: &[u8; 32],
    confounder: &[u8; 16],
    part: &[u8],
) -> KerberosCryptoResult<Vec<u8>>
    ensures { IfOk result (λ octets. IsSealedAes key.now (pos 2) confounder.now part.now octets.items) }
{
    CipherSuite::Aes256CtsHmacSha196.encrypt(alloc, key, 2, part, confounder)
}

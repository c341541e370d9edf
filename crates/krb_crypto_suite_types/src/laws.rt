//! Lemmas: each type is what the standard says of its suite, and so the same as the suite of its number.

ghost use Rattle.krb_crypto.specs.Standards.{IsAesSuite, IsDes3Suite, IsAesSha2Suite, IsAesChecksum, IsDes3Checksum, IsAesSha2Checksum};

use crate::aes::{Aes128CtsHmacSha196, Aes256CtsHmacSha196, HmacSha196Aes128, HmacSha196Aes256};
use crate::aes_sha2::{
    Aes128CtsHmacSha256128, Aes256CtsHmacSha384192, HmacSha256128Aes128, HmacSha384192Aes256,
};
use crate::des::{Des3CbcSha1Kd, HmacSha1Des3Kd};
use krb_crypto::{Checksum, Cipher};
use krb_crypto_block::AesSize;

/// aes128-cts-hmac-sha1-96, encryption type 17 with checksums of type 15, and keys of 16 octets (RFC 3962, 6 and 7).
pub fn aes128_cts_hmac_sha1_96()
    ensures cipher { (suite : Aes128CtsHmacSha196) → IsAesSuite ⟦<Aes128CtsHmacSha196 as Cipher>⟧ suite 16 17 15 }
{}

/// aes256-cts-hmac-sha1-96, encryption type 18 with checksums of type 16, and keys of 32 octets (RFC 3962, 6 and 7).
pub fn aes256_cts_hmac_sha1_96()
    ensures cipher { (suite : Aes256CtsHmacSha196) → IsAesSuite ⟦<Aes256CtsHmacSha196 as Cipher>⟧ suite 32 18 16 }
{}

/// des3-cbc-hmac-sha1-kd, encryption type 16 with checksums of type 12 (RFC 3961, 6.3 and 8).
pub fn des3_cbc_hmac_sha1_kd()
    ensures cipher { (suite : Des3CbcSha1Kd) → IsDes3Suite ⟦<Des3CbcSha1Kd as Cipher>⟧ suite }
{}

/// hmac-sha1-96-aes128, checksum type 15, under keys of 16 octets (RFC 3962, 7).
pub fn hmac_sha1_96_aes128()
    ensures checksum { (suite : HmacSha196Aes128) → IsAesChecksum ⟦<HmacSha196Aes128 as Checksum>⟧ suite 16 15 }
{}

/// hmac-sha1-96-aes256, checksum type 16, under keys of 32 octets (RFC 3962, 7).
pub fn hmac_sha1_96_aes256()
    ensures checksum { (suite : HmacSha196Aes256) → IsAesChecksum ⟦<HmacSha196Aes256 as Checksum>⟧ suite 32 16 }
{}

/// hmac-sha1-des3-kd, checksum type 12 (RFC 3961, 6.3 and 8).
pub fn hmac_sha1_des3_kd()
    ensures checksum { (suite : HmacSha1Des3Kd) → IsDes3Checksum ⟦<HmacSha1Des3Kd as Checksum>⟧ suite }
{}

/// aes128-cts-hmac-sha256-128, encryption type 19 with checksums of type 19, keys of 16 octets and checksums of 16 (RFC 8009, 5
/// and 7).
pub fn aes128_cts_hmac_sha256_128()
    ensures cipher { (suite : Aes128CtsHmacSha256128) → IsAesSha2Suite ⟦<Aes128CtsHmacSha256128 as Cipher>⟧ suite AesSize.Aes128 16 16 19 }
{}

/// aes256-cts-hmac-sha384-192, encryption type 20 with checksums of type 20, keys of 32 octets and checksums of 24 (RFC 8009, 5
/// and 7).
pub fn aes256_cts_hmac_sha384_192()
    ensures cipher { (suite : Aes256CtsHmacSha384192) → IsAesSha2Suite ⟦<Aes256CtsHmacSha384192 as Cipher>⟧ suite AesSize.Aes256 32 24 20 }
{}

/// hmac-sha256-128-aes128, checksum type 19, under keys of 16 octets (RFC 8009, 6 and 7).
pub fn hmac_sha256_128_aes128()
    ensures checksum { (suite : HmacSha256128Aes128) → IsAesSha2Checksum ⟦<HmacSha256128Aes128 as Checksum>⟧ suite AesSize.Aes128 16 19 }
{}

/// hmac-sha384-192-aes256, checksum type 20, under keys of 32 octets (RFC 8009, 6 and 7).
pub fn hmac_sha384_192_aes256()
    ensures checksum { (suite : HmacSha384192Aes256) → IsAesSha2Checksum ⟦<HmacSha384192Aes256 as Checksum>⟧ suite AesSize.Aes256 32 20 }
{}

//! Lemmas: each suite is what its standard says.

ghost use Rattle.std.specs.Prelude.{◌≡◌, ◌↔◌, ℕ, Result, true};
ghost use Rattle.std.specs.Borrow.{Bor};
ghost use Rattle.krb_crypto_hash.specs.declared.error.KerberosCryptoError.{KerberosCryptoError};
ghost use Rattle.krb_crypto.specs.Standards.{IsAesSuite, IsAesSha2Suite, IsDes3Suite, IsAesChecksum, IsAesSha2Checksum, IsDes3Checksum};
ghost use Rattle.krb_crypto.specs.Suites.{etype, checksum_type, IsNumbered};

use crate::checksum::Checksum;
use crate::checksum_suite::ChecksumSuite;
use crate::cipher::Cipher;
use crate::cipher_suite::CipherSuite;
use krb_crypto_block::AesSize;

/// aes128-cts-hmac-sha1-96, encryption type 17 with checksums of type 15, and keys of 16 octets (RFC 3962, 6 and 7).
pub fn aes128_cts_hmac_sha1_96()
    ensures named { IsAesSuite ⟦<CipherSuite as Cipher>⟧ CipherSuite.Aes128CtsHmacSha196 16 17 15 }
{}

/// aes256-cts-hmac-sha1-96, encryption type 18 with checksums of type 16, and keys of 32 octets (RFC 3962, 6 and 7).
pub fn aes256_cts_hmac_sha1_96()
    ensures named { IsAesSuite ⟦<CipherSuite as Cipher>⟧ CipherSuite.Aes256CtsHmacSha196 32 18 16 }
{}

/// des3-cbc-hmac-sha1-kd, encryption type 16 with checksums of type 12 (RFC 3961, 6.3 and 8).
pub fn des3_cbc_hmac_sha1_kd()
    ensures named { IsDes3Suite ⟦<CipherSuite as Cipher>⟧ CipherSuite.Des3CbcSha1Kd }
{}

/// aes128-cts-hmac-sha256-128, encryption type 19 with checksums of type 19, keys of 16 octets and checksums of 16 (RFC 8009, 5
/// and 7).
pub fn aes128_cts_hmac_sha256_128()
    ensures named { IsAesSha2Suite ⟦<CipherSuite as Cipher>⟧ CipherSuite.Aes128CtsHmacSha256128 AesSize.Aes128 16 16 19 }
{}

/// aes256-cts-hmac-sha384-192, encryption type 20 with checksums of type 20, keys of 32 octets and checksums of 24 (RFC 8009, 5
/// and 7).
pub fn aes256_cts_hmac_sha384_192()
    ensures named { IsAesSha2Suite ⟦<CipherSuite as Cipher>⟧ CipherSuite.Aes256CtsHmacSha384192 AesSize.Aes256 32 24 20 }
{}

/// hmac-sha1-96-aes128, checksum type 15, under keys of 16 octets (RFC 3962, 7).
pub fn hmac_sha1_96_aes128()
    ensures named { IsAesChecksum ⟦<ChecksumSuite as Checksum>⟧ ChecksumSuite.HmacSha196Aes128 16 15 }
{}

/// hmac-sha1-96-aes256, checksum type 16, under keys of 32 octets (RFC 3962, 7).
pub fn hmac_sha1_96_aes256()
    ensures named { IsAesChecksum ⟦<ChecksumSuite as Checksum>⟧ ChecksumSuite.HmacSha196Aes256 32 16 }
{}

/// hmac-sha1-des3-kd, checksum type 12 (RFC 3961, 6.3 and 8).
pub fn hmac_sha1_des3_kd()
    ensures named { IsDes3Checksum ⟦<ChecksumSuite as Checksum>⟧ ChecksumSuite.HmacSha1Des3Kd }
{}

/// hmac-sha256-128-aes128, checksum type 19, under keys of 16 octets (RFC 8009, 6 and 7).
pub fn hmac_sha256_128_aes128()
    ensures named { IsAesSha2Checksum ⟦<ChecksumSuite as Checksum>⟧ ChecksumSuite.HmacSha256128Aes128 AesSize.Aes128 16 19 }
{}

/// hmac-sha384-192-aes256, checksum type 20, under keys of 32 octets (RFC 8009, 6 and 7).
pub fn hmac_sha384_192_aes256()
    ensures named { IsAesSha2Checksum ⟦<ChecksumSuite as Checksum>⟧ ChecksumSuite.HmacSha384192Aes256 AesSize.Aes256 32 20 }
{}

/// An encryption suite is turned into its number, and made of it; a number of no suite is rejected (RFC 3961, 8; RFC 3962, 7;
/// RFC 8009, 7).
pub fn cipher_suite_numbers()
    ensures into_usize { (suite : CipherSuite) (n : ℕ) → ⟦<usize as From<CipherSuite>>⟧.from_gives suite n ↔ n ≡ etype suite }
    ensures into_u8 { (suite : CipherSuite) (n : ℕ) → ⟦<u8 as From<CipherSuite>>⟧.from_gives suite n ↔ n ≡ etype suite }
    ensures ref_into_u32 { (suite : Bor CipherSuite) (n : ℕ) → ⟦<u32 as From<&'static CipherSuite>>⟧.from_gives suite n ↔ n ≡ etype suite.now }
    ensures ref_into_u8 { (suite : Bor CipherSuite) (n : ℕ) → ⟦<u8 as From<&'static CipherSuite>>⟧.from_gives suite n ↔ n ≡ etype suite.now }
    ensures from_usize { (n : ℕ) (answer : Result CipherSuite KerberosCryptoError)
        → ⟦<CipherSuite as TryFrom<usize>>⟧.try_from_gives n answer ↔ IsNumbered etype n answer }
{}

/// A checksum suite is turned into its number, and made of it; a number of no suite is rejected (RFC 3961, 8; RFC 3962, 7;
/// RFC 8009, 7).
pub fn checksum_suite_numbers()
    ensures into_usize { (suite : ChecksumSuite) (n : ℕ) → ⟦<usize as From<ChecksumSuite>>⟧.from_gives suite n ↔ n ≡ checksum_type suite }
    ensures into_u32 { (suite : ChecksumSuite) (n : ℕ) → ⟦<u32 as From<ChecksumSuite>>⟧.from_gives suite n ↔ n ≡ checksum_type suite }
    ensures into_u8 { (suite : ChecksumSuite) (n : ℕ) → ⟦<u8 as From<ChecksumSuite>>⟧.from_gives suite n ↔ n ≡ checksum_type suite }
    ensures ref_into_u32 { (suite : Bor ChecksumSuite) (n : ℕ) → ⟦<u32 as From<&'static ChecksumSuite>>⟧.from_gives suite n ↔ n ≡ checksum_type suite.now }
    ensures ref_into_u8 { (suite : Bor ChecksumSuite) (n : ℕ) → ⟦<u8 as From<&'static ChecksumSuite>>⟧.from_gives suite n ↔ n ≡ checksum_type suite.now }
    ensures from_usize { (n : ℕ) (answer : Result ChecksumSuite KerberosCryptoError)
        → ⟦<ChecksumSuite as TryFrom<usize>>⟧.try_from_gives n answer ↔ IsNumbered checksum_type n answer }
{}

/// Suites are equal where they are the same, and a clone is the same suite.
pub fn suites_are_compared()
    ensures cipher_suite_eq { (a b : CipherSuite) → ⟦<CipherSuite as PartialEq>⟧.eq a b ≡ true ↔ a ≡ b }
    ensures checksum_suite_eq { (a b : ChecksumSuite) → ⟦<ChecksumSuite as PartialEq>⟧.eq a b ≡ true ↔ a ≡ b }
    ensures cipher_suite_clone { (a b : CipherSuite) → ⟦<CipherSuite as Clone>⟧.is_clone a b → b ≡ a }
    ensures checksum_suite_clone { (a b : ChecksumSuite) → ⟦<ChecksumSuite as Clone>⟧.is_clone a b → b ≡ a }
{}

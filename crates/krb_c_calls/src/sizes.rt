//! Sizes, in octets, by the numbers of suites.

ghost use Rattle.std.specs.Prelude.{◌≡◌, ◌<◌, ◌^◌};
ghost use Rattle.krb_crypto.specs.BySuite.{key_octets_of, confounder_octets_of, checksum_key_octets_of};
ghost use Rattle.krb_c_calls.specs.Numbers.{etype_number, checksum_number};
ghost use Rattle.krb_c_calls.specs.Keys.{seed_octets_of};
ghost use Rattle.krb_c_calls.specs.Sizes.{IsSizeOf, IsEncryptedSize, sealed_octets_of, sum_octets_of, IsWord};

use crate::suites::{checksum_suite_of, cipher_suite_of};
use krb_crypto::{ChecksumSuite, Cipher, CipherSuite};
use krb_crypto_block::{
    AES_MAC_SIZE, AES128_KEY_SIZE, AES256_KEY_SIZE, DES3_KEY_SIZE, DES3_MAC_SIZE,
};

/// The octets of a key of this encryption type; 0 where no suite has the number.
pub fn key_size(etype: i32) -> usize
    ensures { IsSizeOf etype_number key_octets_of etype result }
{
    match cipher_suite_of(etype) {
        Ok(suite) => suite.key_size(),
        Err(_) => 0,
    }
}

/// The octets of a seed of which `random_to_key` makes a key; 0 where no suite has the number.
pub fn seed_size(etype: i32) -> usize
    ensures { IsSizeOf etype_number seed_octets_of etype result }
{
    match cipher_suite_of(etype) {
        Ok(suite) => suite.seed_bit_len() / 8,
        Err(_) => 0,
    }
}

/// The octets of a confounder; 0 where no suite has the number.
pub fn confounder_size(etype: i32) -> usize
    ensures { IsSizeOf etype_number confounder_octets_of etype result }
{
    match cipher_suite_of(etype) {
        Ok(suite) => suite.confounder_size(),
        Err(_) => 0,
    }
}

fn sealed_octets(suite: &CipherSuite, payload: u128) -> u128
    requires { payload < 2 ^ 64 }
    ensures { result ≡ sealed_octets_of suite.now payload }
{
    match suite {
        CipherSuite::Aes128CtsHmacSha196 => 16 + payload + 12,
        CipherSuite::Aes256CtsHmacSha196 => 16 + payload + 12,
        CipherSuite::Des3CbcSha1Kd => 8 + (payload + 7) / 8 * 8 + 20,
        CipherSuite::Aes128CtsHmacSha256128 => 16 + payload + 16,
        CipherSuite::Aes256CtsHmacSha384192 => 16 + payload + 24,
    }
}

fn word(number: u128) -> usize
    ensures { IsWord number result }
{
    if number > usize::MAX as u128 {
        return 0;
    }
    number as usize
}

/// The octets that `encrypt` makes of a payload of so many, with confounder and checksum, and of whole blocks under triple DES; 0 where no
/// suite has the number, or where they are more than a `usize` holds.
pub fn encrypted_size(etype: i32, payload_size: usize) -> usize
    ensures { IsEncryptedSize etype payload_size result }
{
    match cipher_suite_of(etype) {
        Ok(suite) => word(sealed_octets(&suite, payload_size as u128)),
        Err(_) => 0,
    }
}

fn sum_octets(suite: &ChecksumSuite) -> usize
    ensures { result ≡ sum_octets_of suite.now }
{
    match suite {
        ChecksumSuite::HmacSha196Aes256 => AES_MAC_SIZE,
        ChecksumSuite::HmacSha196Aes128 => AES_MAC_SIZE,
        ChecksumSuite::HmacSha1Des3Kd => DES3_MAC_SIZE,
        ChecksumSuite::HmacSha256128Aes128 => 16,
        ChecksumSuite::HmacSha384192Aes256 => 24,
    }
}

/// The octets of a checksum of this type; 0 where no suite has the number.
pub fn checksum_size(cksumtype: i32) -> usize
    ensures { IsSizeOf checksum_number sum_octets_of cksumtype result }
{
    match checksum_suite_of(cksumtype) {
        Ok(suite) => sum_octets(&suite),
        Err(_) => 0,
    }
}

fn key_octets(suite: &ChecksumSuite) -> usize
    ensures { result ≡ checksum_key_octets_of suite.now }
{
    match suite {
        ChecksumSuite::HmacSha196Aes256 => AES256_KEY_SIZE,
        ChecksumSuite::HmacSha196Aes128 => AES128_KEY_SIZE,
        ChecksumSuite::HmacSha1Des3Kd => DES3_KEY_SIZE,
        ChecksumSuite::HmacSha256128Aes128 => AES128_KEY_SIZE,
        ChecksumSuite::HmacSha384192Aes256 => AES256_KEY_SIZE,
    }
}

/// The octets of a key for checksums of this type; 0 where no suite has the number.
pub fn checksum_key_size(cksumtype: i32) -> usize
    ensures { IsSizeOf checksum_number checksum_key_octets_of cksumtype result }
{
    match checksum_suite_of(cksumtype) {
        Ok(suite) => key_octets(&suite),
        Err(_) => 0,
    }
}

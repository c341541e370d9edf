//! Suites by number and by name.

ghost use Rattle.std.specs.Prelude.{◌≡◌};
ghost use Rattle.std.specs.Option.{option_copied};
ghost use Rattle.krb_decrypt.specs.Suites.{digits_of, name_mark, number_mark, suite_of_number, suite_of_text};

use krb_crypto::CipherSuite;
use krb_input::after_text;

/// The suite of an encryption type (RFC 3961, 8; RFC 3962, 7; RFC 8009, 7).
pub fn suite_of_number(number: u16) -> Option<CipherSuite>
    ensures { result ≡ suite_of_number number }
{
    match number {
        16 => Some(CipherSuite::Des3CbcSha1Kd),
        17 => Some(CipherSuite::Aes128CtsHmacSha196),
        18 => Some(CipherSuite::Aes256CtsHmacSha196),
        19 => Some(CipherSuite::Aes128CtsHmacSha256128),
        20 => Some(CipherSuite::Aes256CtsHmacSha384192),
        _ => None,
    }
}

/// The number of a suite, and a colon.
fn number_mark(suite: &CipherSuite) -> &'static [u8]
    ensures { result.now ≡ number_mark suite.now }
{
    match suite {
        CipherSuite::Des3CbcSha1Kd => b"16:",
        CipherSuite::Aes128CtsHmacSha196 => b"17:",
        CipherSuite::Aes256CtsHmacSha196 => b"18:",
        CipherSuite::Aes128CtsHmacSha256128 => b"19:",
        CipherSuite::Aes256CtsHmacSha384192 => b"20:",
    }
}

/// The name of a suite, and a colon.
fn name_mark(suite: &CipherSuite) -> &'static [u8]
    ensures { result.now ≡ name_mark suite.now }
{
    match suite {
        CipherSuite::Des3CbcSha1Kd => b"des3-cbc-sha1-kd:",
        CipherSuite::Aes128CtsHmacSha196 => b"aes128-cts-hmac-sha1-96:",
        CipherSuite::Aes256CtsHmacSha196 => b"aes256-cts-hmac-sha1-96:",
        CipherSuite::Aes128CtsHmacSha256128 => b"aes128-cts-hmac-sha256-128:",
        CipherSuite::Aes256CtsHmacSha384192 => b"aes256-cts-hmac-sha384-192:",
    }
}

/// What stands behind the number or the name of a suite and a colon; `None` where a text begins with neither.
pub fn digits_of<'a>(suite: &CipherSuite, text: &'a [u8]) -> Option<&'a [u8]>
    ensures { option_copied result ≡ digits_of suite.now text.now }
{
    match after_text(number_mark(suite), text) {
        Some(digits) => Some(digits),
        None => after_text(name_mark(suite), text),
    }
}

/// The suite whose number or name and a colon a text begins with.
pub fn suite_of_text(text: &[u8]) -> Option<CipherSuite>
    ensures { result ≡ suite_of_text text.now }
{
    if digits_of(&CipherSuite::Des3CbcSha1Kd, text).is_some() {
        return Some(CipherSuite::Des3CbcSha1Kd);
    }
    if digits_of(&CipherSuite::Aes128CtsHmacSha196, text).is_some() {
        return Some(CipherSuite::Aes128CtsHmacSha196);
    }
    if digits_of(&CipherSuite::Aes256CtsHmacSha196, text).is_some() {
        return Some(CipherSuite::Aes256CtsHmacSha196);
    }
    if digits_of(&CipherSuite::Aes128CtsHmacSha256128, text).is_some() {
        return Some(CipherSuite::Aes128CtsHmacSha256128);
    }
    if digits_of(&CipherSuite::Aes256CtsHmacSha384192, text).is_some() {
        return Some(CipherSuite::Aes256CtsHmacSha384192);
    }
    None
}

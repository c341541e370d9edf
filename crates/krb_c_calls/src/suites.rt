//! The suites by the numbers of C, which are signed, as those of RFC 4120 are.

ghost use Rattle.std.specs.Prelude.{◌≡◌, MatchResult};
ghost use Rattle.krb_crypto.specs.Suites.{NoSuite};
ghost use Rattle.krb_c_calls.specs.Numbers.{etype_number, checksum_number};

use crate::call_error::CallError;
use krb_crypto::{ChecksumSuite, CipherSuite};

/// The suite of this encryption type; else `Number`, as for all negative numbers (RFC 3961, 8).
pub fn cipher_suite_of(number: i32) -> Result<CipherSuite, CallError>
    ensures { MatchResult result (λ suite. etype_number suite ≡ number) (λ e. (e ≡ CallError.Number) × NoSuite etype_number number) }
{
    if number < 0 {
        return Err(CallError::Number);
    }
    match CipherSuite::try_from(number as usize) {
        Ok(suite) => Ok(suite),
        Err(_) => Err(CallError::Number),
    }
}

/// The suite of this checksum type; else `Number`, as for all negative numbers (RFC 3961, 8).
pub fn checksum_suite_of(number: i32) -> Result<ChecksumSuite, CallError>
    ensures { MatchResult result (λ suite. checksum_number suite ≡ number) (λ e. (e ≡ CallError.Number) × NoSuite checksum_number number) }
{
    if number < 0 {
        return Err(CallError::Number);
    }
    match ChecksumSuite::try_from(number as usize) {
        Ok(suite) => Ok(suite),
        Err(_) => Err(CallError::Number),
    }
}

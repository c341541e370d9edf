//! Whether a signature is the checksum of a message.

ghost use Rattle.std.specs.Prelude.{◌≡◌, ◌≢◌, ℕ, pos, List, length, ⊤, MatchBool, MatchOption};
ghost use Rattle.krb_crypto.specs.BySuite.{checksum_key_octets_of, sum_of};
ghost use Rattle.krb_crypto.specs.PreparedKeys.{IsChecksumPreparedFor};
ghost use Rattle.krb_crypto.specs.Suites.{checksum_type, NoSuite};
ghost use Rattle.krb_pac_signatures.specs.Signature.{signature_type, signature};
ghost use Rattle.krb_pac_signatures.specs.Verdict.{IsVerdict};

use crate::SignatureView;
use krb_crypto::ChecksumSuite;
use krb_crypto::prepared::ChecksumKey;

/// What is known of a checksum.
#[derive(Debug, Clone, Copy, PartialEq, Eq)]
pub enum Verdict {
    /// There is no such checksum, or not the one that it is over.
    Absent,
    /// Its type is that of no suite, as of HMAC-MD5 (-138): it is not verified.
    NotVerified,
    /// The key has not the length of the keys of the checksum's type.
    KeyLength,
    /// It is the checksum of these octets under this key.
    Holds,
    /// It is not the checksum of these octets under this key.
    Differs,
}

/// The key usage of the checksums of a PAC: KERB_NON_KERB_CKSUM_SALT (MS-PAC 2.8).
const KEY_USAGE: i32 = 17;

/// The suite of a number, where one has it.
fn suite_of(number: u32) -> Option<ChecksumSuite>
    ensures { MatchOption result (NoSuite checksum_type number) (λ suite. checksum_type suite ≡ number) }
{
    match ChecksumSuite::try_from(number as usize) {
        Ok(suite) => Some(suite),
        Err(_error) => None,
    }
}

/// The key, prepared for the checksums of a PAC, where its length is the suite's.
fn prepared_for(suite: &ChecksumSuite, key: &[u8]) -> Option<ChecksumKey>
    ensures none { MatchOption result (length key.now ≢ checksum_key_octets_of suite.now) (λ k. k.suite ≡ suite.now) }
    ensures some { MatchOption result ⊤ (IsChecksumPreparedFor key.now (pos 17)) }
{
    match ChecksumKey::new(suite, key, KEY_USAGE) {
        Ok(prepared) => Some(prepared),
        Err(_error) => None,
    }
}

/// Whether octets are the checksum of a message under a prepared key.
fn is_checksum(prepared: &ChecksumKey, message: &[u8], checksum: &[u8]) -> bool
    ensures { (key : List ℕ) → IsChecksumPreparedFor key (pos 17) prepared.now
        → MatchBool result (checksum.now ≡ sum_of prepared.now.suite key (pos 17) message.now) (checksum.now ≢ sum_of prepared.now.suite key (pos 17) message.now) }
{
    match prepared.verify(message, checksum) {
        Ok(()) => true,
        Err(_error) => false,
    }
}

/// Whether a signature is the checksum of a message under a key, for key usage 17. All octets are compared, wherever they differ. It
/// allocates nothing.
pub fn verify(given: &SignatureView, key: &[u8], message: &[u8]) -> Verdict
    ensures { IsVerdict (signature_type given.now) (signature given.now) key.now message.now result }
{
    let Some(suite) = suite_of(given.signature_type()) else {
        return Verdict::NotVerified;
    };
    let Some(prepared) = prepared_for(&suite, key) else {
        return Verdict::KeyLength;
    };
    if is_checksum(&prepared, message, given.signature()) {
        return Verdict::Holds;
    }
    Verdict::Differs
}

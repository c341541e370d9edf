//! Checksums under a key (RFC 3961, 4).

ghost use Rattle.std.specs.Prelude.{◌≡◌, ◌≢◌, ⊤, length, IfErr, IfOk, MatchOption, pos};
ghost use Rattle.krb_crypto.specs.BySuite.{checksum_key_octets_of, checksum_suite_of, key_octets_of, sum_of};
ghost use Rattle.krb_crypto.specs.PreparedKeys.{IsChecksumPreparedFor};
ghost use Rattle.krb_client.specs.Errors.{IsMemoryOr};
ghost use Rattle.krb_client.specs.Sealed.{IsChecksum, checksum_value, key_of};
ghost use Rattle.krb_client.specs.declared.requests.error.RequestError.TheVariants as errors;

use crate::requests::error::RequestError;
use crate::requests::key::LentKey;
use krb_crypto::prepared::ChecksumKey;
use krb_crypto::{ChecksumSuite, Cipher};
use krb_der::{ExplicitContextTag0, ExplicitContextTag1, IntegerAsn1, OctetStringAsn1};
use krb_types::data_types::Checksum;
use std::alloc::Global;

/// Checksum of these octets.
pub(crate) fn checksum_value(cksumtype: IntegerAsn1, octets: Vec<u8>) -> Checksum
    ensures { result ≡ checksum_value cksumtype octets.items }
{
    Checksum {
        cksumtype: ExplicitContextTag0::from(cksumtype),
        checksum: ExplicitContextTag1::from(OctetStringAsn1(octets)),
    }
}

/// The key of a checksum, prepared for a usage, where its length is the suite's.
fn prepared_for(suite: &ChecksumSuite, key: &[u8], usage: i32) -> Option<ChecksumKey>
    ensures none { MatchOption result (length key.now ≢ checksum_key_octets_of suite.now) (λ k. k.suite ≡ suite.now) }
    ensures some { MatchOption result ⊤ (IsChecksumPreparedFor key.now usage) }
{
    match ChecksumKey::new(suite, key, usage) {
        Ok(prepared) => Some(prepared),
        Err(_error) => None,
    }
}

/// The sum of a checksum suite over these octets.
fn sum(
    alloc: Global,
    suite: &ChecksumSuite,
    key: &[u8],
    usage: u8,
    octets: &[u8],
) -> Result<Vec<u8>, RequestError>
    ensures size { IfOk result (λ _. length key.now ≡ checksum_key_octets_of suite.now) }
    ensures sum { IfOk result (λ s. s.items ≡ sum_of suite.now key.now (pos usage) octets.now) }
    ensures rejected { IfErr result (λ e. IsMemoryOr e ((e ≡ errors.Key) ×
        (length key.now ≢ checksum_key_octets_of suite.now))) }
{
    let Some(prepared) = prepared_for(suite, key, i32::from(usage)) else {
        return Err(RequestError::Key);
    };
    match prepared.checksum(alloc, octets) {
        Ok(sum) => Ok(sum),
        Err(_error) => Err(RequestError::OutOfMemory),
    }
}

/// The checksum of these octets by the key's suite, under the key for this usage. `Key` where the
/// key has not the suite's length.
pub(crate) fn checksum(
    alloc: Global,
    key: &LentKey,
    usage: u8,
    octets: &[u8],
) -> Result<Checksum, RequestError>
    ensures checksum { IfOk result (IsChecksum (key_of key.now) (pos usage) octets.now) }
    ensures rejected { IfErr result (λ e. IsMemoryOr e ((e ≡ errors.Key) ×
        (length key.now.octets.now ≢ key_octets_of key.now.suite.now))) }
{
    let suite = key.suite.checksum_type();
    let sum = sum(alloc, &suite, key.octets, usage, octets)?;
    let number = IntegerAsn1::from_u32(alloc, u32::from(&suite));
    Ok(checksum_value(number, sum))
}

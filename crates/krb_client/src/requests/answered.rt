//! The checksum of an AS-REQ, in the reply to it (RFC 6806, 11).

ghost use Rattle.std.specs.Prelude.{◌≡◌, ◌≢◌, length, IfErr, IfOk, MatchResult};
ghost use Rattle.krb_crypto.specs.BySuite.{key_octets_of};
ghost use Rattle.krb_client.specs.Errors.{IsMemoryOr};
ghost use Rattle.krb_client.specs.RequestChecksums.{IsRequestChecksum, mark, marked};
ghost use Rattle.krb_client.specs.Sealed.{key_of};
ghost use Rattle.krb_client.specs.declared.requests.error.RequestError.TheVariants as errors;

use crate::requests::checksum::checksum;
use crate::requests::error::RequestError;
use crate::requests::fields::encoded;
use crate::requests::key::LentKey;
use crate::requests::timestamp::element_of;
use krb_der::{Asn1SequenceOf, DerEncode, IntegerAsn1};
use krb_types::data_types::{Checksum, PaData};
use std::alloc::Global;

/// PA-REQ-ENC-PA-REP: data of pre-authentication of type 149, with no octets.
fn mark(alloc: Global) -> PaData
    ensures { result ≡ mark }
{
    element_of(IntegerAsn1::from_u32(alloc, 149), Vec::new(alloc))
}

/// These data of pre-authentication, and behind them PA-REQ-ENC-PA-REP, by which a client asks that
/// the reply have the checksum of its request (RFC 6806, 11).
pub fn marked(
    alloc: Global,
    padata: Option<Asn1SequenceOf<PaData>>,
) -> Result<Asn1SequenceOf<PaData>, RequestError>
    ensures { MatchResult result (λ list. list ≡ marked padata) (λ e. e ≡ errors.OutOfMemory) }
{
    let mut list = match padata {
        Some(list) => list.0,
        None => Vec::new(alloc),
    };
    list.push(mark(alloc))?;
    Ok(Asn1SequenceOf(list))
}

/// The encoding of the checksum of an AS-REQ under the reply key (RFC 6806, 11), for key usage 56.
/// `Key` where the key has not its suite's length.
pub fn request_checksum(
    alloc: Global,
    key: &LentKey,
    request: &[u8],
) -> Result<Vec<u8>, RequestError>
    ensures made { IfOk result (λ octets. IsRequestChecksum ⟦<Checksum as DerEncode>⟧ (key_of key.now) request.now octets.items) }
    ensures rejected { IfErr result (λ e. IsMemoryOr e ((e ≡ errors.Key) ×
        (length key.now.octets.now ≢ key_octets_of key.now.suite.now))) }
{
    let value = checksum(alloc, key, 56, request)?;
    let octets = encoded(alloc, value)?;
    Ok(octets)
}

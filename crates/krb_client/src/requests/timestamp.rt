//! PA-ENC-TIMESTAMP (RFC 4120, 5.2.7.2).

ghost use Rattle.std.specs.Prelude.{◌≡◌, [], ◌∷◌, IfErr, IfOk, MatchResult, pos};
ghost use Rattle.krb_client.specs.Errors.{IsMemoryOr};
ghost use Rattle.krb_client.specs.Sealed.{key_of};
ghost use Rattle.krb_client.specs.Timestamps.{IsNoTimestamp, IsTimestamp, element_of, stamp_of};
ghost use Rattle.krb_client.specs.declared.requests.error.RequestError.TheVariants as errors;

use crate::requests::error::RequestError;
use crate::requests::fields::{encoded, field, time_at};
use crate::requests::key::LentKey;
use crate::requests::sealing::sealed_value;
use krb_der::{
    Asn1SequenceOf, DerEncode, ExplicitContextTag0, ExplicitContextTag1, ExplicitContextTag2,
    IntegerAsn1, OctetStringAsn1,
};
use krb_types::data_types::{EncryptedData, KerberosTime, Microseconds, PaData, PaEncTsEnc};
use std::alloc::Global;

/// PA-DATA of this type with these octets.
pub(crate) fn element_of(padata_type: IntegerAsn1, octets: Vec<u8>) -> PaData
    ensures { result ≡ element_of padata_type octets.items }
{
    PaData {
        padata_type: ExplicitContextTag1::from(padata_type),
        padata_data: ExplicitContextTag2::from(OctetStringAsn1(octets)),
    }
}

/// One element of pre-authentication data, of this type and with these octets.
pub(crate) fn only(
    alloc: Global,
    padata_type: u32,
    octets: Vec<u8>,
) -> Result<Asn1SequenceOf<PaData>, RequestError>
    ensures { MatchResult result (λ list. list ≡ element_of (pos padata_type) octets.items ∷ [])
        (λ e. e ≡ errors.OutOfMemory) }
{
    let number = IntegerAsn1::from_u32(alloc, padata_type);
    let mut list = Vec::new(alloc);
    list.push(element_of(number, octets))?;
    Ok(Asn1SequenceOf(list))
}

/// PA-ENC-TS-ENC of this time.
fn stamp_of(time: KerberosTime, microseconds: Microseconds) -> PaEncTsEnc
    ensures { result ≡ stamp_of time microseconds }
{
    PaEncTsEnc {
        patimestamp: ExplicitContextTag0::from(time),
        pausec: field(Some(microseconds)),
    }
}

/// The client's time, sealed under its key (key usage 1): the pre-authentication data of an AS-REQ
/// (RFC 4120, 5.2.7.2). The time is in seconds since 1 January 1970 and microseconds; the
/// confounder has as many octets as the suite's, 8 for triple DES, else 16, and is random.
///
/// `Microseconds` where there are more than 999999; else `Time` where the year is not of 0 to 9999;
/// else `Confounder`, else `Key`, where the confounder or the key has not the suite's length.
pub fn pa_enc_timestamp(
    alloc: Global,
    key: &LentKey,
    seconds: i64,
    microseconds: u32,
    confounder: &[u8],
) -> Result<Asn1SequenceOf<PaData>, RequestError>
    ensures made { IfOk result (IsTimestamp ⟦<PaEncTsEnc as DerEncode>⟧ ⟦<EncryptedData as DerEncode>⟧
        (key_of key.now) seconds microseconds confounder.now) }
    ensures rejected { IfErr result (λ e. IsMemoryOr e (IsNoTimestamp
        (key_of key.now) seconds microseconds confounder.now e)) }
{
    let (time, microseconds) = time_at(alloc, seconds, microseconds)?;
    let stamp = stamp_of(time, microseconds);
    let encrypted = sealed_value(alloc, key, 1, confounder, stamp)?;
    let octets = encoded(alloc, encrypted)?;
    only(alloc, 2, octets)
}

//! Parts of messages, sealed (RFC 4120, 5.2.9).

ghost use Rattle.std.specs.Prelude.{◌≡◌, ◌≢◌, ⊤, length, IfErr, IfOk, MatchOption, pos};
ghost use Rattle.krb_crypto_message.specs.Sealing.{IsTheOne};
ghost use Rattle.krb_crypto.specs.BySuite.{IsSealed, confounder_octets_of, key_octets_of};
ghost use Rattle.krb_crypto.specs.PreparedKeys.{IsPreparedFor};
ghost use Rattle.krb_client.specs.Errors.{IsMemoryOr};
ghost use Rattle.krb_client.specs.Sealed.{IsNotSealed, IsSealedPart, encrypted, key_of};
ghost use Rattle.krb_client.specs.declared.requests.error.RequestError.TheVariants as errors;

use crate::requests::error::RequestError;
use crate::requests::fields::encoding;
use crate::requests::key::LentKey;
use krb_crypto::prepared::SealingKey;
use krb_crypto::{Cipher, CipherSuite};
use krb_der::{
    DerEncode, ExplicitContextTag0, ExplicitContextTag2, IntegerAsn1, OctetStringAsn1, Optional,
};
use krb_types::data_types::EncryptedData;
use std::alloc::Global;

/// The key, prepared for a usage, where its length is the suite's.
fn prepared_for(suite: &CipherSuite, key: &[u8], usage: i32) -> Option<SealingKey>
    ensures none { MatchOption result (length key.now ≢ key_octets_of suite.now) (λ k. k.suite ≡ suite.now) }
    ensures some { MatchOption result ⊤ (IsPreparedFor key.now usage) }
{
    match SealingKey::new(suite, key, usage) {
        Ok(prepared) => Some(prepared),
        Err(_error) => None,
    }
}

/// What the suite makes of a payload, under a key for a usage and this confounder.
fn sealed_octets(
    alloc: Global,
    key: &LentKey,
    usage: u8,
    confounder: &[u8],
    payload: &[u8],
) -> Result<Vec<u8>, RequestError>
    ensures confounder { IfOk result (λ _. length confounder.now ≡ confounder_octets_of key.now.suite.now) }
    ensures key { IfOk result (λ _. length key.now.octets.now ≡ key_octets_of key.now.suite.now) }
    ensures sealed { IfOk result (λ octets.
        IsTheOne (IsSealed key.now.suite.now key.now.octets.now (pos usage) confounder.now payload.now) octets.items) }
    ensures rejected { IfErr result (λ e. IsMemoryOr e (IsNotSealed (key_of key.now) confounder.now e)) }
{
    if confounder.len() != key.suite.confounder_size() {
        return Err(RequestError::Confounder);
    }
    let Some(prepared) = prepared_for(key.suite, key.octets, i32::from(usage)) else {
        return Err(RequestError::Key);
    };
    match prepared.encrypt(alloc, payload, confounder) {
        Ok(octets) => Ok(octets),
        Err(_error) => Err(RequestError::OutOfMemory),
    }
}

/// EncryptedData of these octets.
fn encrypted(etype: IntegerAsn1, cipher: Vec<u8>) -> EncryptedData
    ensures { result ≡ encrypted etype cipher.items }
{
    EncryptedData {
        etype: ExplicitContextTag0::from(etype),
        kvno: Optional(None),
        cipher: ExplicitContextTag2::from(OctetStringAsn1(cipher)),
    }
}

/// The value's encoding, sealed under the key for this usage, with this confounder, which has the
/// suite's length.
///
/// `Confounder` where the confounder has not, else `Key` where the key has not.
pub(crate) fn sealed<T: DerEncode>(
    alloc: Global,
    key: &LentKey,
    usage: u8,
    confounder: &[u8],
    value: &T,
) -> Result<EncryptedData, RequestError>
    ensures sealed { IfOk result (IsSealedPart ⟦<T as DerEncode>⟧ (key_of key.now)
        (pos usage) confounder.now value.now) }
    ensures rejected { IfErr result (λ e. IsMemoryOr e (IsNotSealed (key_of key.now) confounder.now e)) }
{
    let payload = encoding(alloc, value)?;
    let cipher = sealed_octets(alloc, key, usage, confounder, &payload)?;
    let etype = IntegerAsn1::from_u32(alloc, u32::from(key.suite));
    Ok(encrypted(etype, cipher))
}

/// The same of a value, which is let go.
pub(crate) fn sealed_value<T: DerEncode + Drop>(
    alloc: Global,
    key: &LentKey,
    usage: u8,
    confounder: &[u8],
    value: T,
) -> Result<EncryptedData, RequestError>
    ensures sealed { IfOk result (IsSealedPart ⟦<T as DerEncode>⟧ (key_of key.now) (pos usage) confounder.now value) }
    ensures rejected { IfErr result (λ e. IsMemoryOr e (IsNotSealed (key_of key.now) confounder.now e)) }
{
    sealed(alloc, key, usage, confounder, &value)
}

//! Authenticators (RFC 4120, 5.5.1).

ghost use Rattle.std.specs.Prelude.{◌≡◌, ◌≢◌, length, pos, IfErr, IfOk};
ghost use Rattle.krb_crypto.specs.BySuite.{key_octets_of};
ghost use Rattle.krb_crypto.specs.Suites.{etype};
ghost use Rattle.krb_client.specs.Applications.{AreSenderFields, HasOtherSize, IsAuthenticator, IsNoAuthenticator, IsSizedOption, authenticator_of, optional_key, optional_number};
ghost use Rattle.krb_client.specs.Errors.{IsMemoryOr};
ghost use Rattle.krb_client.specs.Sealed.{key_value};
ghost use Rattle.krb_client.specs.declared.requests.error.RequestError.TheVariants as errors;

use crate::requests::error::RequestError;
use crate::requests::fields::{copies_of, field, time_at};
use crate::requests::key::LentKey;
use krb_crypto::Cipher;
use krb_der::{
    ApplicationTag, ExplicitContextTag0, ExplicitContextTag1, ExplicitContextTag2,
    ExplicitContextTag4, ExplicitContextTag5, IntegerAsn1, OctetStringAsn1, Optional,
};
use krb_enc_parts::data_types::{Authenticator, AuthenticatorInner};
use krb_types::data_types::{
    Checksum, EncryptionKey, KerberosTime, Microseconds, PrincipalName, Realm,
};
use std::alloc::Global;

/// Who sends an authenticator, when, and what it chooses (RFC 4120, 5.5.1).
#[derive(Drop, Clone, Copy)]
pub struct Sender<'a> {
    /// The client's realm.
    pub crealm: &'a Realm,
    /// The client's name.
    pub cname: &'a PrincipalName,
    /// The client's time, in seconds since 1 January 1970.
    pub seconds: i64,
    /// The microseconds after it, 0 to 999999.
    pub microseconds: u32,
    /// The key that the client chooses for what follows.
    pub subkey: Option<LentKey<'a>>,
    /// The number of the client's first message.
    pub seq_number: Option<u32>,
}

/// EncryptionKey of these octets.
fn key_value(key_type: IntegerAsn1, octets: Vec<u8>) -> EncryptionKey
    ensures { result ≡ key_value key_type octets.items }
{
    EncryptionKey {
        key_type: ExplicitContextTag0::from(key_type),
        key_value: ExplicitContextTag1::from(OctetStringAsn1(octets)),
    }
}

/// EncryptionKey of a key. `Subkey` where it has not its suite's length.
fn encryption_key(alloc: Global, key: &LentKey) -> Result<EncryptionKey, RequestError>
    ensures size { IfOk result (λ _. length key.now.octets.now ≡ key_octets_of key.now.suite.now) }
    ensures key { IfOk result (λ k. k ≡ key_value (pos (etype key.now.suite.now)) key.now.octets.now) }
    ensures rejected { IfErr result (λ e. IsMemoryOr e ((e ≡ errors.Subkey) ×
        (length key.now.octets.now ≢ key_octets_of key.now.suite.now))) }
{
    if key.octets.len() != key.suite.key_size() {
        return Err(RequestError::Subkey);
    }
    let octets = Vec::from_slice(alloc, key.octets)?;
    let number = IntegerAsn1::from_u32(alloc, u32::from(key.suite));
    Ok(key_value(number, octets))
}

/// The subkey, where there is one.
fn subkey_of(alloc: Global, key: &Option<LentKey>) -> Result<Option<EncryptionKey>, RequestError>
    ensures size { IfOk result (λ _. IsSizedOption key.now) }
    ensures key { IfOk result (λ k. k ≡ optional_key key.now) }
    ensures rejected { IfErr result (λ e. IsMemoryOr e ((e ≡ errors.Subkey) × HasOtherSize key.now)) }
{
    match key {
        Some(key) => Ok(Some(encryption_key(alloc, key)?)),
        None => Ok(None),
    }
}

/// The number of the first message, where there is one.
fn number_of(alloc: Global, number: Option<u32>) -> Option<IntegerAsn1>
    ensures { result ≡ optional_number number }
{
    match number {
        Some(number) => Some(IntegerAsn1::from_u32(alloc, number)),
        None => None,
    }
}

/// What of an authenticator takes memory or may be refused.
#[derive(Drop)]
struct Fields {
    crealm: Realm,
    cname: PrincipalName,
    cusec: Microseconds,
    ctime: KerberosTime,
    subkey: Option<EncryptionKey>,
}

/// These fields of this client's authenticator.
fn fields_of(alloc: Global, sender: &Sender) -> Result<Fields, RequestError>
    ensures fields { IfOk result (AreSenderFields sender.now) }
    ensures rejected { IfErr result (λ e. IsMemoryOr e (IsNoAuthenticator sender.now e)) }
{
    let (ctime, cusec) = time_at(alloc, sender.seconds, sender.microseconds)?;
    let subkey = match subkey_of(alloc, &sender.subkey) {
        Ok(subkey) => subkey,
        Err(error) => {
            drop(cusec);
            return Err(error);
        }
    };
    match copies_of(alloc, sender.crealm, sender.cname) {
        Ok((crealm, cname)) => Ok(Fields {
            crealm,
            cname,
            cusec,
            ctime,
            subkey,
        }),
        Err(error) => {
            drop(cusec);
            drop(subkey);
            Err(error)
        }
    }
}

/// The authenticator of these fields, with this checksum and this number.
fn authenticator_of(
    alloc: Global,
    fields: Fields,
    cksum: Option<Checksum>,
    seq_number: Option<u32>,
) -> Authenticator
    ensures { result ≡ authenticator_of fields.crealm fields.cname cksum fields.cusec fields.ctime fields.subkey
        (optional_number seq_number) }
{
    ApplicationTag(AuthenticatorInner {
        authenticator_vno: ExplicitContextTag0::from(IntegerAsn1::from_u32(alloc, 5)),
        crealm: ExplicitContextTag1::from(fields.crealm),
        cname: ExplicitContextTag2::from(fields.cname),
        cksum: field(cksum),
        cusec: ExplicitContextTag4::from(fields.cusec),
        ctime: ExplicitContextTag5::from(fields.ctime),
        subkey: field(fields.subkey),
        seq_number: field(number_of(alloc, seq_number)),
        authorization_data: Optional(None),
    })
}

/// The authenticator of this client, with this checksum.
///
/// `Microseconds` where there are more than 999999; else `Time` where the year is not of 0 to 9999;
/// else `Subkey` where the subkey has not its suite's length.
pub(crate) fn authenticator(
    alloc: Global,
    sender: &Sender,
    cksum: Option<Checksum>,
) -> Result<Authenticator, RequestError>
    ensures made { IfOk result (IsAuthenticator sender.now cksum) }
    ensures rejected { IfErr result (λ e. IsMemoryOr e (IsNoAuthenticator sender.now e)) }
{
    match fields_of(alloc, sender) {
        Ok(fields) => Ok(authenticator_of(alloc, fields, cksum, sender.seq_number)),
        Err(error) => {
            drop(cksum);
            Err(error)
        }
    }
}

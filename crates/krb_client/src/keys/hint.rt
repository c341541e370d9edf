//! What a KDC tells of a client's key (RFC 4120, 5.2.7.5 and 5.9.1).

ghost use Rattle.std.specs.Prelude.{◌≡◌, ◌⊎◌, List, MatchBool, MatchOption, IfErr, IfOk};
ghost use Rattle.std.specs.Option.{option_copied};
ghost use Rattle.krb_crypto.specs.declared.cipher_suite.CipherSuite.{CipherSuite};
ghost use Rattle.krb_types.specs.declared.data_types.etype_info.EtypeInfo2Entry.{EtypeInfo2Entry};
ghost use Rattle.krb_der.specs.Whole.{Encodes};
ghost use Rattle.krb_client.specs.Firsts.{IsFirst, NoneIs};
ghost use Rattle.krb_client.specs.KeyHints.{ElementsTellNoKey, HasEntry, InfoTellsNoKey, IsClientKey, IsEntryOf, IsHint, IsInfo, IsNoClientKey, IsNoToldKey, IsToldKey, TellsKey, TellsNoKey};
ghost use Rattle.krb_client.specs.declared.keys.hint.HintError.TheVariants as errors;

use crate::keys::limits::Limits;
use crate::keys::password::PasswordError;
use crate::keys::secret::{Client, Secret, client_key};
use krb_client_rules::Key;
use krb_crypto::CipherSuite;
use krb_der::{Asn1SequenceOf, Der, DerEncode, from_bytes};
use krb_types::data_types::{EtypeInfo2, EtypeInfo2Entry, PaData};
use krb_types::view::items;
use std::alloc::{AllocError, Global};
use thiserror::Error;

/// ETYPE-INFO2 among pre-authentication data (RFC 4120, 7.5.2).
const ETYPE_INFO2: u32 = 19;

/// Why no key is told, in the order of the variants.
#[derive(Debug, Clone, Copy, PartialEq, Eq, Error)]
pub enum HintError {
    /// The data of the error are no encoding of a METHOD-DATA (RFC 4120, 5.9.1).
    #[error("the data of the error are no METHOD-DATA")]
    MethodData,
    /// No element of the METHOD-DATA is an ETYPE-INFO2.
    #[error("the KDC tells of no encryption type")]
    NoInfo,
    /// The first of this type is no encoding of an ETYPE-INFO2 (RFC 4120, 5.2.7.5).
    #[error("what the KDC tells of encryption types is no ETYPE-INFO2")]
    Info,
    /// It has no entry of an encryption type that the client accepts.
    #[error("no encryption type is shared with the KDC")]
    EncryptionType,
    /// The client has no key of the first suite that is shared.
    #[error("there is no key of the encryption type")]
    NoKey,
    /// Its password gives none.
    #[error("{0}")]
    Password(PasswordError),
    /// An allocation failed.
    #[error("memory")]
    OutOfMemory,
}

impl From<AllocError> for HintError {
    ghost from_gives = { λ _ e. e ≡ errors.OutOfMemory };

    fn from(_error: AllocError) -> HintError {
        HintError::OutOfMemory
    }
}

/// The value whose one encoding the octets are, where they are one.
fn value_of<T: Der + Drop>(alloc: Global, octets: &[u8]) -> Result<Option<T>, AllocError>
    ensures { IfOk result (λ found. MatchOption found ((v : T) → Encodes ⟦<T as DerEncode>⟧ octets.now v → ⊥)
        (Encodes ⟦<T as DerEncode>⟧ octets.now)) }
{
    match from_bytes::<T>(alloc, octets) {
        Ok(value) => Ok(Some(value)),
        Err(error) => {
            if error.is_out_of_memory() {
                return Err(AllocError);
            }
            Ok(None)
        }
    }
}

/// Whether an element is an ETYPE-INFO2.
fn is_info(element: &PaData) -> bool
    ensures { MatchBool result (IsInfo element.now) (IsInfo element.now → ⊥) }
{
    element.padata_type.0.is_number(ETYPE_INFO2)
}

/// The first element that is an ETYPE-INFO2.
fn first_info(elements: &[PaData]) -> Option<&PaData>
    ensures { MatchOption result (NoneIs IsInfo elements.now) (λ d. IsFirst IsInfo elements.now d.now) }
{
    for element in elements {
        if is_info(element) {
            return Some(element);
        }
    }
    None
}

/// Whether an entry is of this suite's encryption type.
fn is_entry_of(entry: &EtypeInfo2Entry, suite: &CipherSuite) -> bool
    ensures { MatchBool result (IsEntryOf suite.now entry.now) (IsEntryOf suite.now entry.now → ⊥) }
{
    entry.etype.0.is_number(u32::from(suite))
}

/// The first entry of this suite's encryption type.
fn entry_of<'a>(entries: &'a [EtypeInfo2Entry], suite: &CipherSuite) -> Option<&'a EtypeInfo2Entry>
    ensures { MatchOption result (NoneIs (IsEntryOf suite.now) entries.now) (λ e. IsFirst
        (IsEntryOf suite.now) entries.now e.now) }
{
    for entry in entries {
        if is_entry_of(entry, suite) {
            return Some(entry);
        }
    }
    None
}

/// The first of these suites that has an entry, and its first entry.
#[tactic(auto, using(crate::proofs::Firsts::none_has))]
fn hint_among<'a>(
    entries: &'a [EtypeInfo2Entry],
    suites: &'a [CipherSuite],
) -> Option<(&'a CipherSuite, &'a EtypeInfo2Entry)>
    ensures { MatchOption result (NoneIs (HasEntry entries.now) suites.now)
        (λ p. IsHint suites.now entries.now p.0.now p.1.now) }
{
    for suite in suites {
        if let Some(entry) = entry_of(entries, suite) {
            return Some((suite, entry));
        }
    }
    None
}

/// The salt of an entry.
fn salt_in(entry: &EtypeInfo2Entry) -> Option<&[u8]>
    ensures { option_copied result ≡ entry.now.salt.0 }
{
    match &entry.salt.0 {
        Some(salt) => Some(salt.0.as_str().as_bytes()),
        None => None,
    }
}

/// The parameters of string-to-key in an entry.
fn parameters_in(entry: &EtypeInfo2Entry) -> Option<&[u8]>
    ensures { option_copied result ≡ entry.now.s2kparams.0 }
{
    match &entry.s2kparams.0 {
        Some(parameters) => Some(parameters.0.0.as_slice()),
        None => None,
    }
}

/// The client's key, by these entries.
fn key_by_entries(
    alloc: Global,
    client: &Client,
    secret: &Secret,
    limits: &Limits,
    suites: &[CipherSuite],
    entries: &[EtypeInfo2Entry],
) -> Result<Key, HintError>
    ensures made { IfOk result (λ key. (suite : CipherSuite) × (entry : EtypeInfo2Entry)
        × IsHint suites.now entries.now suite entry
        × IsClientKey client.now secret.now limits.now suite entry.salt.0 entry.s2kparams.0 key) }
    ensures rejected { IfErr result (λ e. (e ≡ errors.OutOfMemory)
        ⊎ TellsNoKey secret.now limits.now suites.now entries.now e) }
{
    let Some((suite, entry)) = hint_among(entries, suites) else {
        return Err(HintError::EncryptionType);
    };
    let salt = salt_in(entry);
    let parameters = parameters_in(entry);
    client_key(alloc, client, secret, limits, suite, salt, parameters)
}

/// The client's key, by the octets of an ETYPE-INFO2.
fn key_by_info(
    alloc: Global,
    client: &Client,
    secret: &Secret,
    limits: &Limits,
    suites: &[CipherSuite],
    octets: &[u8],
) -> Result<Key, HintError>
    ensures made { IfOk result (λ key. (entries : List EtypeInfo2Entry)
        × Encodes ⟦<EtypeInfo2 as DerEncode>⟧ octets.now entries
        × (suite : CipherSuite) × (entry : EtypeInfo2Entry) × IsHint suites.now entries suite entry
        × IsClientKey client.now secret.now limits.now suite entry.salt.0 entry.s2kparams.0 key) }
    ensures rejected { IfErr result (λ e. (e ≡ errors.OutOfMemory)
        ⊎ InfoTellsNoKey ⟦<EtypeInfo2 as DerEncode>⟧ secret.now limits.now suites.now octets.now e) }
{
    let Some(entries) = value_of::<EtypeInfo2>(alloc, octets)? else {
        return Err(HintError::Info);
    };
    key_by_entries(alloc, client, secret, limits, suites, items(&entries))
}

/// The client's key, as elements of pre-authentication data tell of it, which the caller has read,
/// as those of an AS-REP: the first ETYPE-INFO2 among them counts, as in `told_key`.
///
/// The error is the first of `HintError` that holds, from `NoInfo` on.
pub fn key_by_elements(
    alloc: Global,
    client: &Client,
    secret: &Secret,
    limits: &Limits,
    suites: &[CipherSuite],
    elements: &[PaData],
) -> Result<Key, HintError>
    ensures made { IfOk result (TellsKey ⟦<EtypeInfo2 as DerEncode>⟧ client.now secret.now limits.now suites.now
        elements.now) }
    ensures rejected { IfErr result (λ e. (e ≡ errors.OutOfMemory)
        ⊎ ElementsTellNoKey ⟦<EtypeInfo2 as DerEncode>⟧ secret.now limits.now suites.now elements.now e) }
{
    let Some(element) = first_info(elements) else {
        return Err(HintError::NoInfo);
    };
    let info = element.padata_data.0.0.as_slice();
    key_by_info(alloc, client, secret, limits, suites, info)
}

/// The client's key, as the data of a KDC's error tell of it: KDC_ERR_PREAUTH_REQUIRED has a
/// METHOD-DATA (RFC 4120, 5.9.1), whose first ETYPE-INFO2 counts (5.2.7.5). Of the suites, in the
/// order in which they are given, the first that it has an entry of, and of its entries the first,
/// with its salt, or the default one, and its parameters.
///
/// The error is the first of `HintError` that holds. The data are in the clear: whoever can send
/// them chooses the salt, and the suite and the number of iterations among those that the caller
/// takes.
pub fn told_key(
    alloc: Global,
    client: &Client,
    secret: &Secret,
    limits: &Limits,
    suites: &[CipherSuite],
    octets: &[u8],
) -> Result<Key, HintError>
    ensures made { IfOk result (IsToldKey ⟦<Asn1SequenceOf<PaData> as DerEncode>⟧ ⟦<EtypeInfo2 as DerEncode>⟧
        client.now secret.now limits.now suites.now octets.now) }
    ensures rejected { IfErr result (λ e. (e ≡ errors.OutOfMemory)
        ⊎ IsNoToldKey ⟦<Asn1SequenceOf<PaData> as DerEncode>⟧ ⟦<EtypeInfo2 as DerEncode>⟧ secret.now limits.now
        suites.now octets.now e) }
{
    let Some(elements) = value_of::<Asn1SequenceOf<PaData>>(alloc, octets)? else {
        return Err(HintError::MethodData);
    };
    key_by_elements(alloc, client, secret, limits, suites, items(&elements))
}

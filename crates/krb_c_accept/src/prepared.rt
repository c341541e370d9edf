//! What a service asks, as the library takes it.

ghost use Rattle.std.specs.Prelude.{◌≡◌, ◌≢◌, ℕ, List, length, IfErr, IfOk, OnOk};
ghost use Rattle.krb_c_accept.specs.Inputs.{inputs_of};
ghost use Rattle.krb_c_accept.specs.Prepared.{AreKeys, AreOptionalKeys, AreTerms, HaveNoKeys, HaveNoOptionalKeys, IsAddress, IsArrival, IsHash, IsNotPrepared, IsPrepared, bindings_of, etypes_of, pac_of, settings_of, whole_since_of};
ghost use Rattle.krb_c_accept.specs.Names.{AreRealms, AreServers};
ghost use Rattle.krb_c_accept.specs.Options.{AreOptions};
ghost use Rattle.krb_c_calls.specs.declared.call_error.CallError.TheVariants as refusals;

use crate::names::{realms_of, servers_of};
use crate::options::{
    ADDRESSES_REQUIRED, ANONYMOUS, BARE_REQUEST, OTHER_CHECKSUM, PAC_IGNORED, PAC_REQUIRED,
    TRIPLE_DES, UNCHECKED_PATH, WHOLE_EVER, are_options, has_option,
};
use crate::records::AcceptorRecord;
use krb_accept::{Arrival, PacCheck, ServerName, ServiceKey, Settings, Terms, keys_of_keytab};
use krb_c_calls::CallError;
use krb_der::{IntegerAsn1, OctetStringAsn1};
use krb_files::keytab::KeytabView;
use krb_types::data_types::{HostAddress, Realm};
use std::alloc::{AllocError, Global};

/// How many random octets a call has.
const RANDOM_SIZE: usize = 48;

/// How many octets the hash of channel bindings has (RFC 4121, 4.1.1.2).
const HASH_SIZE: usize = 16;

/// What a call is asked.
#[derive(Clone, Copy)]
pub struct Asked<'a> {
    /// What the service asks of tokens.
    pub acceptor: AcceptorRecord,
    /// The keytab with the service's keys.
    pub keytab: &'a [u8],
    /// A keytab with the keys of its own ticket-granting tickets, or no octets.
    pub session_keys: &'a [u8],
    /// The server for which clients are let in, as text (RFC 1964, 2.1.1); no octets: any of which the
    /// keytab has a key.
    pub servers: &'a [u8],
    /// The realm whose clients are let in; no octets: any.
    pub realms: &'a [u8],
    /// The hash of its channel bindings, 16 octets, or no octets.
    pub bindings: &'a [u8],
    /// The client's address, or no octets.
    pub address: &'a [u8],
    /// 48 random octets.
    pub random: &'a [u8],
    /// What the client sent.
    pub token: &'a [u8],
}

/// What a service asks, as the library takes it.
#[derive(Drop)]
pub(crate) struct Prepared {
    pub keys: Vec<ServiceKey>,
    pub session_keys: Vec<ServiceKey>,
    pub terms: Terms,
    pub arrival: Arrival,
    pub settings: Settings,
}

/// The keys of the keytab that octets are.
pub(crate) fn keys_of(alloc: Global, keytab: &[u8]) -> Result<Vec<ServiceKey>, CallError>
    ensures found { IfOk result (λ keys. AreKeys keytab.now keys.items) }
    ensures refused { IfErr result (HaveNoKeys keytab.now) }
{
    match KeytabView::new(keytab) {
        Ok(view) => Ok(keys_of_keytab(alloc, &view)?),
        Err(_) => Err(CallError::Keytab),
    }
}

/// The keys of the keytab that octets are; none of no octets.
fn optional_keys_of(alloc: Global, keytab: &[u8]) -> Result<Vec<ServiceKey>, CallError>
    ensures found { IfOk result (λ keys. AreOptionalKeys keytab.now keys.items) }
    ensures refused { IfErr result (HaveNoOptionalKeys keytab.now) }
{
    if keytab.is_empty() {
        return Ok(Vec::new(alloc));
    }
    keys_of(alloc, keytab)
}

/// The encryption types that a session key and a subkey may have.
fn etypes_of(alloc: Global, options: u32) -> Result<Vec<u32>, AllocError>
    ensures { IfOk result (λ etypes. etypes.items ≡ etypes_of options) }
{
    if has_option(options, TRIPLE_DES) {
        Ok(vec![in alloc; 16, 17, 18, 19, 20]?)
    } else {
        Ok(vec![in alloc; 17, 18, 19, 20]?)
    }
}

/// Since when the replay cache is whole.
fn whole_since_of(acceptor: &AcceptorRecord) -> Option<i64>
    ensures { result ≡ whole_since_of acceptor.now }
{
    if has_option(acceptor.options, WHOLE_EVER) {
        None
    } else {
        Some(acceptor.whole_since)
    }
}

/// The terms on which clients are let in.
fn terms_of(
    alloc: Global,
    acceptor: &AcceptorRecord,
    servers: Vec<ServerName>,
    realms: Vec<Realm>,
) -> Result<Terms, AllocError>
    ensures { IfOk result (λ terms. (asked : List ℕ) (others : List ℕ) → AreServers asked servers.items → AreRealms others realms.items
        → AreTerms acceptor.now asked others terms) }
{
    let etypes = etypes_of(alloc, acceptor.options)?;
    let known_data = vec![in alloc; 8, 128]?;
    Ok(Terms {
        skew: acceptor.skew,
        addresses_required: has_option(acceptor.options, ADDRESSES_REQUIRED),
        etypes,
        known_data,
        unchecked_path: has_option(acceptor.options, UNCHECKED_PATH),
        servers,
        anonymous: has_option(acceptor.options, ANONYMOUS),
        realms,
        whole_since: whole_since_of(acceptor),
    })
}

/// The client's address; none of no octets.
fn address_of(
    alloc: Global,
    address_type: u32,
    address: &[u8],
) -> Result<Option<HostAddress>, AllocError>
    ensures { IfOk result (IsAddress address_type address.now) }
{
    if address.is_empty() {
        return Ok(None);
    }
    let octets = Vec::from_slice(alloc, address)?;
    Ok(Some(HostAddress {
        addr_type: IntegerAsn1::from_u32(alloc, address_type).into(),
        address: OctetStringAsn1(octets).into(),
    }))
}

/// What a service does with PACs.
fn pac_of(options: u32) -> PacCheck
    ensures { result ≡ pac_of options }
{
    if has_option(options, PAC_IGNORED) {
        PacCheck::Ignored
    } else if has_option(options, PAC_REQUIRED) {
        PacCheck::Required
    } else {
        PacCheck::Checked
    }
}

/// The hash of channel bindings; none of no octets.
fn bindings_of(bindings: &[u8]) -> Result<Option<[u8; HASH_SIZE]>, CallError>
    ensures found { IfOk result (λ found. found ≡ bindings_of bindings.now) }
    ensures right { OnOk result (IsHash bindings.now) }
    ensures refused { IfErr result (λ e. (e ≡ refusals.SeedSize) × (IsHash bindings.now → ⊥)) }
{
    if bindings.is_empty() {
        return Ok(None);
    }
    if bindings.len() != HASH_SIZE {
        return Err(CallError::SeedSize);
    }
    let mut hash = [0; HASH_SIZE];
    hash.copy_from_slice(bindings);
    Ok(Some(hash))
}

/// What a service asks of tokens.
fn settings_of(options: u32, bindings: Option<[u8; HASH_SIZE]>) -> Settings
    ensures { result ≡ settings_of options bindings }
{
    Settings {
        bindings,
        bare_request: has_option(options, BARE_REQUEST),
        other_checksum: has_option(options, OTHER_CHECKSUM),
        pac: pac_of(options),
    }
}

/// Whether there are as many random octets as a call has.
fn check_random(random: &[u8]) -> Result<(), CallError>
    ensures right { OnOk result (length random.now ≡ 48) }
    ensures refused { IfErr result (λ e. (e ≡ refusals.SeedSize) × (length random.now ≢ 48)) }
{
    if random.len() != RANDOM_SIZE {
        return Err(CallError::SeedSize);
    }
    Ok(())
}

/// Whether the options are such, with these bindings and this address.
fn check_options(
    acceptor: &AcceptorRecord,
    bindings: &[u8],
    address: &[u8],
) -> Result<(), CallError>
    ensures right { OnOk result (AreOptions acceptor.now bindings.now address.now) }
    ensures refused { IfErr result (λ e. (e ≡ refusals.Number) × (AreOptions acceptor.now bindings.now address.now → ⊥)) }
{
    if are_options(acceptor, bindings, address) {
        Ok(())
    } else {
        Err(CallError::Number)
    }
}

/// What is known of a request besides its octets.
fn arrival_of(
    alloc: Global,
    acceptor: &AcceptorRecord,
    address: &[u8],
) -> Result<Arrival, AllocError>
    ensures { IfOk result (IsArrival acceptor.now address.now) }
{
    let address = address_of(alloc, acceptor.address_type, address)?;
    Ok(Arrival {
        clock: acceptor.clock,
        address,
    })
}

/// What a service asks, as the library takes it. Else the first of these: `SeedSize` where there are not 48 random octets, and where there are neither 0 nor 16 of the
/// hash; `Number` where the options are not such; `Keytab` where the keytab is none, and where that of the session keys is; `Invalid` where a text among the servers is
/// that of none, and where one among the realms is no realm. Or `Memory`.
pub(crate) fn prepared_of(alloc: Global, asked: &Asked) -> Result<Prepared, CallError>
    ensures made { IfOk result (IsPrepared (inputs_of asked.now)) }
    ensures refused { IfErr result (IsNotPrepared (inputs_of asked.now)) }
{
    check_random(asked.random)?;
    let bindings = bindings_of(asked.bindings)?;
    check_options(&asked.acceptor, asked.bindings, asked.address)?;
    let keys = keys_of(alloc, asked.keytab)?;
    let session_keys = optional_keys_of(alloc, asked.session_keys)?;
    let servers = servers_of(alloc, asked.servers)?;
    let realms = realms_of(alloc, asked.realms)?;
    let terms = terms_of(alloc, &asked.acceptor, servers, realms)?;
    let arrival = arrival_of(alloc, &asked.acceptor, asked.address)?;
    Ok(Prepared {
        keys,
        session_keys,
        terms,
        arrival,
        settings: settings_of(asked.acceptor.options, bindings),
    })
}

//! The keys of a service, and those that a ticket is for.

ghost use Rattle.std.specs.Prelude.{◌≡◌, MatchBool, MatchOption, pos};
ghost use Rattle.krb_accept_rules.specs.Firsts.{IsFirst, NoneIs};
ghost use Rattle.krb_types.specs.Flags.{is_set};
ghost use Rattle.krb_accept_rules.specs.Keys.{Fits, IsOfItsVersion, IsOfServer, IsOfType, IsOfVersion, ShowsVersion, keys_for};

use crate::fields::RequestFields;
use crate::names::{is_same_name, is_same_realm};
use krb_der::OctetStringAsn1;
use krb_types::data_types::{PrincipalName, Realm};
use krb_types::view::{Present, is_set};

/// The number of use-session-key in ap-options (RFC 4120, 5.5.1).
const USE_SESSION_KEY: usize = 1;

/// A key of a service, as a keytab holds it.
#[derive(Drop)]
pub struct ServiceKey {
    /// The realm of the service.
    pub realm: Realm,
    /// Its name.
    pub name: PrincipalName,
    /// The version of the key.
    pub kvno: u32,
    /// The number of the encryption type.
    pub etype: u32,
    /// The octets of the key.
    pub octets: OctetStringAsn1,
}

/// By what a key is sought.
#[derive(Clone, Copy)]
pub(crate) enum Sought {
    /// By the server.
    Server,
    /// And by the encryption type.
    Etype,
    /// And by the version, where the ticket names one.
    Kvno,
}

/// Whether the ticket is sealed under a session key (RFC 4120, 5.5.1).
pub(crate) fn uses_session_key(request: &RequestFields) -> bool
    ensures { result ≡ is_set request.now.options.octets 1 }
{
    is_set(&request.options, USE_SESSION_KEY)
}

/// The keys among which the ticket's is.
pub(crate) fn keys_for<'k>(
    keys: &'k [ServiceKey],
    session_keys: &'k [ServiceKey],
    request: &RequestFields,
) -> &'k [ServiceKey]
    ensures { result.now ≡ keys_for request.now keys.now session_keys.now }
{
    if uses_session_key(request) {
        session_keys
    } else {
        keys
    }
}

/// Whether a key is of the server that a ticket names.
fn is_of_server(request: &RequestFields, key: &ServiceKey) -> bool
    ensures { MatchBool result (IsOfServer request.now key.now) (IsOfServer request.now key.now → ⊥) }
{
    is_same_realm(&key.realm, &request.realm)
        && is_same_name(&key.name.name_string.0, &request.server.name_string.0)
}

/// Whether a key is of the encryption type of a ticket.
fn is_of_type(request: &RequestFields, key: &ServiceKey) -> bool
    ensures { MatchBool result (IsOfType request.now key.now) (IsOfType request.now key.now → ⊥) }
{
    request.ticket.etype.0.is_number(key.etype)
}

/// Whether a key is of the version that a ticket names, where it names one.
fn is_of_version(request: &RequestFields, key: &ServiceKey) -> bool
    ensures { MatchBool result (IsOfVersion request.now.ticket.kvno.0 key.now.kvno)
        (IsOfVersion request.now.ticket.kvno.0 key.now.kvno → ⊥) }
{
    match request.ticket.kvno.get() {
        Some(kvno) => kvno.is_number(key.kvno),
        None => true,
    }
}

/// Whether a key is of the version that a ticket names; a session key has none.
fn is_of_its_version(request: &RequestFields, key: &ServiceKey) -> bool
    ensures { MatchBool result (IsOfItsVersion request.now key.now) (IsOfItsVersion request.now key.now → ⊥) }
{
    uses_session_key(request) || is_of_version(request, key)
}

/// Whether a key is one that is sought.
pub(crate) fn fits(request: &RequestFields, sought: Sought, key: &ServiceKey) -> bool
    ensures { MatchBool result (Fits request.now sought key.now) (Fits request.now sought key.now → ⊥) }
{
    match sought {
        Sought::Server => is_of_server(request, key),
        Sought::Etype => is_of_server(request, key) && is_of_type(request, key),
        Sought::Kvno => {
            is_of_server(request, key)
                && is_of_type(request, key)
                && is_of_its_version(request, key)
        }
    }
}

/// The first key that is sought.
pub(crate) fn first_key<'k>(
    keys: &'k [ServiceKey],
    request: &RequestFields,
    sought: Sought,
) -> Option<&'k ServiceKey>
    ensures { MatchOption result (NoneIs (Fits request.now sought) keys.now)
        (λ k. IsFirst (Fits request.now sought) keys.now k.now) }
{
    for key in keys {
        if fits(request, sought, key) {
            return Some(key);
        }
    }
    None
}

/// The version that a ticket names, where it names one that fits 64 bits.
pub(crate) fn version_seen(request: &RequestFields) -> Option<i64>
    ensures { ShowsVersion request.now.ticket.kvno.0 result }
{
    match request.ticket.kvno.get() {
        Some(kvno) => kvno.to_i64(),
        None => None,
    }
}

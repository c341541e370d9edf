//! The keys at hand for a ticket.

ghost use Rattle.std.specs.Prelude.{◌≡◌, ◌++◌, ◌∷◌, [], pos, MatchBool, IfOk, OnOk};
ghost use Rattle.krb_accept_rules.specs.Firsts.{OneIs};
ghost use Rattle.krb_accept_rules.specs.Keys.{IsOfServer, IsOfServerAndType, IsOfType};
ghost use Rattle.krb_accept_report.specs.Requests.{AddsKvno, AreKvnos};

use krb_accept_rules::{RequestFields, ServiceKey};
use krb_der::{Asn1SequenceOf, IntegerAsn1};
use krb_types::data_types::{KerberosStringAsn1, Realm};
use std::alloc::{AllocError, Global};

/// Whether two realms are the same, letter by letter (RFC 4120, 6.1).
fn is_same_realm(first: &Realm, second: &Realm) -> bool
    ensures { MatchBool result (first.now ≡ second.now) (first.now ≡ second.now → ⊥) }
{
    first.as_str().as_bytes() == second.as_str().as_bytes()
}

/// Whether two names have the same components (RFC 4120, 6.2).
fn is_same_name(
    first: &Asn1SequenceOf<KerberosStringAsn1>,
    second: &Asn1SequenceOf<KerberosStringAsn1>,
) -> bool
    ensures { MatchBool result (first.now ≡ second.now) (first.now ≡ second.now → ⊥) }
{
    *first == *second
}

/// Whether a key is of the server that a ticket names.
fn is_of_server(request: &RequestFields, key: &ServiceKey) -> bool
    ensures { MatchBool result (IsOfServer request.now key.now) (IsOfServer request.now key.now → ⊥) }
{
    is_same_realm(&key.realm, &request.realm)
        && is_same_name(&key.name.name_string.0, &request.server.name_string.0)
}

/// Whether one of the keys is of the server that a ticket names.
pub(crate) fn has_key_of(request: &RequestFields, keys: &[ServiceKey]) -> bool
    ensures { MatchBool result (OneIs (IsOfServer request.now) keys.now) (OneIs (IsOfServer request.now) keys.now → ⊥) }
{
    for key in keys {
        if is_of_server(request, key) {
            return true;
        }
    }
    false
}

/// Whether a key is, and of the encryption type of the ticket.
fn is_of_server_and_type(request: &RequestFields, key: &ServiceKey) -> bool
    ensures { MatchBool result (IsOfServerAndType request.now key.now) (IsOfServerAndType request.now key.now → ⊥) }
{
    is_of_server(request, key) && request.ticket.etype.0.is_number(key.etype)
}

/// Appends the kvno of a key, if the key is of the server that a ticket names and of its encryption type.
fn push_kvno(
    kvnos: &mut Vec<u32>,
    request: &RequestFields,
    key: &ServiceKey,
) -> Result<(), AllocError>
    ensures { OnOk result (AddsKvno request.now key.now kvnos.old.items kvnos.new.items) }
{
    if is_of_server_and_type(request, key) {
        kvnos.push(key.kvno)?;
    }
    Ok(())
}

/// The kvnos of the keys that are of the server that a ticket names and of its encryption type.
pub(crate) fn kvnos_for(
    alloc: Global,
    request: &RequestFields,
    keys: &[ServiceKey],
) -> Result<Vec<u32>, AllocError>
    ensures { IfOk result (λ kvnos. AreKvnos request.now keys.now kvnos.items) }
{
    let mut kvnos = Vec::new(alloc);
    'keys: for key in keys {
        push_kvno(&mut kvnos, request, key)?;
    }
    Ok(kvnos)
}

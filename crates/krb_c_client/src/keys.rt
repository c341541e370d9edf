//! The client's keys, among those of a keytab.

ghost use Rattle.std.specs.Prelude.{◌≡◌, MatchBool, MatchOption, IfErr, IfOk, OnOk};
ghost use Rattle.krb_c_accept.specs.Prepared.{HaveNoKeys};
ghost use Rattle.krb_crypto.specs.Suites.{NoSuite, etype};
ghost use Rattle.krb_c_client.specs.Keys.{AreClientKeys, AreKeysOf, IsKeyOf, IsNotKeyOf, IsOfClient, IsPushed, IsSuiteKey};

use krb_accept::keys_of_keytab;
use krb_accept_rules::ServiceKey;
use krb_c_calls::CallError;
use krb_client::{Asked, Key};
use krb_client_rules::{is_same_name, is_same_realm};
use krb_crypto::CipherSuite;
use krb_files::keytab::KeytabView;
use std::alloc::{AllocError, Global};

/// Whether a key is the client's.
fn is_of_client(key: &ServiceKey, asked: &Asked) -> bool
    ensures { MatchBool result (IsOfClient asked.now key.now) (IsOfClient asked.now key.now → ⊥) }
{
    is_same_realm(&key.realm, &asked.crealm) && is_same_name(&key.name, &asked.cname)
}

/// The key, where its encryption type has a suite.
fn suite_key(alloc: Global, key: &ServiceKey) -> Result<Option<Key>, AllocError>
    ensures { IfOk result (λ found. MatchOption found (NoSuite etype key.now.etype) (IsSuiteKey key.now)) }
{
    match CipherSuite::try_from(key.etype as usize) {
        Ok(suite) => {
            let octets = Vec::from_slice(alloc, key.octets.0.as_slice())?;
            Ok(Some(Key { suite, octets }))
        }
        Err(_) => Ok(None),
    }
}

/// The key, where it is the client's and its encryption type has a suite.
fn key_of(alloc: Global, key: &ServiceKey, asked: &Asked) -> Result<Option<Key>, AllocError>
    ensures { IfOk result (λ found. MatchOption found (IsNotKeyOf asked.now key.now) (IsKeyOf asked.now key.now)) }
{
    if !is_of_client(key, asked) {
        return Ok(None);
    }
    suite_key(alloc, key)
}

/// Appends the key, where it is the client's and its encryption type has a suite.
fn push_key(
    alloc: Global,
    key: &ServiceKey,
    asked: &Asked,
    keys: &mut Vec<Key>,
) -> Result<(), AllocError>
    ensures { OnOk result (IsPushed asked.now key.now keys.old.items keys.new.items) }
{
    if let Some(key) = key_of(alloc, key, asked)? {
        keys.push(key)?;
    }
    Ok(())
}

/// The client's keys among these, in their order.
fn keys_of(alloc: Global, keys: &[ServiceKey], asked: &Asked) -> Result<Vec<Key>, AllocError>
    ensures { IfOk result (λ found. AreKeysOf asked.now keys.now found.items) }
{
    let mut found = Vec::new(alloc);
    for key in keys {
        push_key(alloc, key, asked, &mut found)?;
    }
    Ok(found)
}

/// The client's keys in a keytab, the last ones first: those that were added last are the newest.
pub(crate) fn client_keys(
    alloc: Global,
    keytab: &[u8],
    asked: &Asked,
) -> Result<Vec<Key>, CallError>
    ensures found { IfOk result (λ keys. AreClientKeys keytab.now asked.now keys.items) }
    ensures refused { IfErr result (HaveNoKeys keytab.now) }
{
    match KeytabView::new(keytab) {
        Ok(view) => {
            let all = keys_of_keytab(alloc, &view)?;
            let mut keys = keys_of(alloc, all.as_slice(), asked)?;
            keys.reverse();
            Ok(keys)
        }
        Err(_) => Err(CallError::Keytab),
    }
}

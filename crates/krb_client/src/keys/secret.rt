//! Who a client is, and what it knows.

ghost use Rattle.std.specs.Prelude.{◌≡◌, ◌⊎◌, ◌++◌, MatchBool, MatchOption, IfErr, IfOk, OnOk};
ghost use Rattle.std.specs.List.{flat_map};
ghost use Rattle.std.specs.Option.{option_copied};
ghost use Rattle.krb_client.specs.Firsts.{IsFirst, NoneIs};
ghost use Rattle.krb_client.specs.PasswordKeys.{IsKeyOfPassword, IsNoKeyOfPassword};
ghost use Rattle.krb_client.specs.declared.keys.hint.HintError.TheVariants as errors;
ghost use Rattle.krb_client.specs.declared.keys.password.PasswordError.{PasswordError};
ghost use Rattle.krb_client_rules.specs.declared.key.Key.{Key};
ghost use Rattle.krb_client.specs.KeyHints.{IsClientKey, IsNoClientKey, IsOfSuite, default_salt, salt_or};

use crate::keys::hint::HintError;
use crate::keys::limits::Limits;
use crate::keys::password::key_of_password;
use krb_client_rules::Key;
use krb_crypto::{Cipher, CipherSuite};
use krb_types::data_types::{KerberosStringAsn1, PrincipalName, Realm};
use std::alloc::{AllocError, Global};

/// A client by its name.
#[derive(Drop, Clone, Copy)]
pub struct Client<'a> {
    /// The client's realm.
    pub realm: &'a Realm,
    /// The client's name within it.
    pub name: &'a PrincipalName,
}

/// What a client knows.
#[derive(Drop, Clone, Copy)]
pub enum Secret<'a> {
    /// The octets of its password.
    Password(&'a [u8]),
    /// Its keys, as a keytab has them.
    Keys(&'a [Key]),
}

/// Whether a key is of this suite.
fn is_of_suite(key: &Key, suite: &CipherSuite) -> bool
    ensures { MatchBool result (IsOfSuite suite.now key.now) (IsOfSuite suite.now key.now → ⊥) }
{
    key.suite == *suite
}

/// The first key of this suite.
fn key_among<'a>(keys: &'a [Key], suite: &CipherSuite) -> Option<&'a Key>
    ensures { MatchOption result (NoneIs (IsOfSuite suite.now) keys.now) (λ k. IsFirst
        (IsOfSuite suite.now) keys.now k.now) }
{
    for key in keys {
        if is_of_suite(key, suite) {
            return Some(key);
        }
    }
    None
}

/// Appends the components, one behind another.
fn push_components(salt: &mut Vec<u8>, components: &[KerberosStringAsn1]) -> Result<(), AllocError>
    ensures { OnOk result (salt.new.items ≡ salt.old.items ++ flat_map (λ part. part) components.now) }
{
    for component in components {
        salt.extend_from_slice(component.as_str().as_bytes())?;
    }
    Ok(())
}

/// The default salt of a client's password: its realm and the components of its name, one behind
/// another (RFC 4120, 4).
fn default_salt(alloc: Global, client: &Client) -> Result<Vec<u8>, AllocError>
    ensures { IfOk result (λ salt. salt.items ≡ default_salt client.now) }
{
    let mut salt = Vec::from_slice(alloc, client.realm.as_str().as_bytes())?;
    let name = client.name;
    push_components(&mut salt, name.name_string.0.0.as_slice())?;
    Ok(salt)
}

/// This salt, or the default one.
fn salt_or(alloc: Global, salt: Option<&[u8]>, client: &Client) -> Result<Vec<u8>, AllocError>
    ensures { IfOk result (λ octets. octets.items ≡ salt_or (option_copied salt.entry) client.now) }
{
    match salt {
        Some(salt) => Vec::from_slice(alloc, salt),
        None => default_salt(alloc, client),
    }
}

/// The key of a client's password.
fn password_key(
    alloc: Global,
    client: &Client,
    password: &[u8],
    limits: &Limits,
    suite: &CipherSuite,
    salt: Option<&[u8]>,
    parameters: Option<&[u8]>,
) -> Result<Key, HintError>
    ensures made { IfOk result (λ key. (key.suite ≡ suite.now) × IsKeyOfPassword suite.now password.now
        (salt_or (option_copied salt.entry) client.now) (option_copied parameters.entry) limits.now key.octets.items) }
    ensures rejected { IfErr result (λ e. (e ≡ errors.OutOfMemory)
        ⊎ ((why : PasswordError) × (e ≡ errors.Password why) × IsNoKeyOfPassword suite.now
        (option_copied parameters.entry) limits.now why)) }
{
    let salt = salt_or(alloc, salt, client)?;
    match key_of_password(alloc, suite, password, salt.as_slice(), parameters, limits) {
        Ok(octets) => Ok(Key {
            suite: suite.cipher_type(),
            octets,
        }),
        Err(why) => Err(HintError::Password(why)),
    }
}

/// A copy of the first key of this suite.
fn kept_key(alloc: Global, keys: &[Key], suite: &CipherSuite) -> Result<Key, HintError>
    ensures made { IfOk result (λ key. (key.suite ≡ suite.now)
        × ((k : Key) × IsFirst (IsOfSuite suite.now) keys.now k × (key.octets.items ≡ k.octets.items))) }
    ensures rejected { IfErr result (λ e. (e ≡ errors.OutOfMemory) ⊎ ((e ≡ errors.NoKey) × NoneIs
        (IsOfSuite suite.now) keys.now)) }
{
    let Some(key) = key_among(keys, suite) else {
        return Err(HintError::NoKey);
    };
    Ok(Key {
        suite: suite.cipher_type(),
        octets: Vec::from_slice(alloc, key.octets.as_slice())?,
    })
}

/// The client's key of a suite, for this salt, or the default one, and these parameters of
/// string-to-key, or the default ones.
///
/// `NoKey` where none of its keys is of the suite; `Password` where its password has none.
pub fn client_key(
    alloc: Global,
    client: &Client,
    secret: &Secret,
    limits: &Limits,
    suite: &CipherSuite,
    salt: Option<&[u8]>,
    parameters: Option<&[u8]>,
) -> Result<Key, HintError>
    ensures made { IfOk result (IsClientKey client.now secret.now limits.now suite.now (option_copied salt.entry)
        (option_copied parameters.entry)) }
    ensures rejected { IfErr result (λ e. (e ≡ errors.OutOfMemory)
        ⊎ IsNoClientKey secret.now limits.now suite.now (option_copied parameters.entry) e) }
{
    match secret {
        Secret::Password(password) => {
            password_key(alloc, client, password, limits, suite, salt, parameters)
        }
        Secret::Keys(keys) => kept_key(alloc, keys, suite),
    }
}

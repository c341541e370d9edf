//! For which servers clients are let in, and of which realms, by their texts, an octet 0 between each and the next.

ghost use Rattle.std.specs.Prelude.{◌≡◌, ◌==◌, ◌++◌, ◌∷◌, [], map, IfErr, IfOk, OnOk};
ghost use Rattle.std.specs.List.{slice_split};
ghost use Rattle.krb_accept_rules.specs.Texts.{IsRealm, IsServer};
ghost use Rattle.krb_c_accept.specs.Names.{AreEach, AreNoRealms, AreNoServers, AreRealms, AreServers, HasOne, IsNotRealm, IsNotServer};
ghost use Rattle.krb_c_accept.specs.Refusing.{IsMemoryOrInvalid};

use krb_accept::ServerName;
use krb_accept_rules::{realm_of_text, server_of_text};
use krb_c_calls::CallError;
use krb_types::data_types::Realm;
use std::alloc::{AllocError, Global};
use std::str;

/// The texts between the octets 0.
fn texts_in(alloc: Global, octets: &[u8]) -> Result<Vec<&[u8]>, AllocError>
    ensures { IfOk result (λ texts. map (λ text. text.now) texts.items ≡ slice_split (λ octet. octet == 0) octets.now) }
{
    octets.split(|octet| *octet == 0).collect(alloc)
}

/// The name of the server that a text is of. `Invalid` where it is that of none.
fn server_of(alloc: Global, text: &[u8]) -> Result<ServerName, CallError>
    ensures found { IfOk result (λ name. IsServer text.now name) }
    ensures refused { IfErr result (IsMemoryOrInvalid (IsNotServer text.now)) }
{
    let Ok(text) = str::from_utf8(text) else {
        return Err(CallError::Invalid);
    };
    match server_of_text(alloc, text)? {
        Some(name) => Ok(name),
        None => Err(CallError::Invalid),
    }
}

/// The realm that a text is. `Invalid` where it has no octets, or is not of ASCII.
fn realm_of(alloc: Global, text: &[u8]) -> Result<Realm, CallError>
    ensures found { IfOk result (λ realm. IsRealm text.now realm) }
    ensures refused { IfErr result (IsMemoryOrInvalid (IsNotRealm text.now)) }
{
    let Ok(text) = str::from_utf8(text) else {
        return Err(CallError::Invalid);
    };
    match realm_of_text(alloc, text)? {
        Some(realm) => Ok(realm),
        None => Err(CallError::Invalid),
    }
}

/// Appends one more.
fn put<T: Drop>(list: &mut Vec<T>, item: T) -> Result<(), AllocError>
    ensures { OnOk result (list.new.items ≡ list.old.items ++ item ∷ []) }
{
    Ok(list.push(item)?)
}

/// The names of the servers that texts are of, in their order.
fn servers_of_each(alloc: Global, texts: &[&[u8]]) -> Result<Vec<ServerName>, CallError>
    ensures found { IfOk result (λ names. AreEach IsServer (map (λ text. text.now) texts.now) names.items) }
    ensures refused { IfErr result (IsMemoryOrInvalid (HasOne IsNotServer (map (λ text. text.now) texts.now))) }
{
    let mut names = Vec::new(alloc);
    'texts: for text in texts {
        put(&mut names, server_of(alloc, text)?)?;
    }
    Ok(names)
}

/// The realms that texts are, in their order.
fn realms_of_each(alloc: Global, texts: &[&[u8]]) -> Result<Vec<Realm>, CallError>
    ensures found { IfOk result (λ realms. AreEach IsRealm (map (λ text. text.now) texts.now) realms.items) }
    ensures refused { IfErr result (IsMemoryOrInvalid (HasOne IsNotRealm (map (λ text. text.now) texts.now))) }
{
    let mut realms = Vec::new(alloc);
    'texts: for text in texts {
        put(&mut realms, realm_of(alloc, text)?)?;
    }
    Ok(realms)
}

/// The servers whose texts stand in octets, an octet 0 between each and the next; none of no octets. `Invalid` where one is the text of no
/// principal, or has no octets.
pub(crate) fn servers_of(alloc: Global, octets: &[u8]) -> Result<Vec<ServerName>, CallError>
    ensures found { IfOk result (λ names. AreServers octets.now names.items) }
    ensures refused { IfErr result (IsMemoryOrInvalid (AreNoServers octets.now)) }
{
    if octets.is_empty() {
        return Ok(Vec::new(alloc));
    }
    let texts = texts_in(alloc, octets)?;
    servers_of_each(alloc, &texts)
}

/// The realms that stand in octets, an octet 0 between each and the next; none of no octets. `Invalid` where one is not of ASCII, or has no
/// octets.
pub(crate) fn realms_of(alloc: Global, octets: &[u8]) -> Result<Vec<Realm>, CallError>
    ensures found { IfOk result (λ realms. AreRealms octets.now realms.items) }
    ensures refused { IfErr result (IsMemoryOrInvalid (AreNoRealms octets.now)) }
{
    if octets.is_empty() {
        return Ok(Vec::new(alloc));
    }
    let texts = texts_in(alloc, octets)?;
    realms_of_each(alloc, &texts)
}

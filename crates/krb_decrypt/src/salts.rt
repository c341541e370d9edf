//! The salts of a page.

ghost use Rattle.std.specs.Prelude.{◌≡◌, ◌++◌, map, option_map, IfOk, OnOk};
ghost use Rattle.std.specs.Option.{option_copied};
ghost use Rattle.krb_decrypt.specs.Salts.{default_salt, fifth, in_list, is_client_name, is_client_realm, is_salt, is_server_name, is_server_realm, is_struct, is_text};
ghost use Rattle.krb_decrypt.specs.Salts.{name_and_realm, name_at, realm_and_name, salt_at, salt_if, salts_of, told_salt};

use krb_show::{Form, Role, Token};
use std::alloc::{AllocError, Global};

/// How many salts of a page are taken: each costs the derivation of a key for each suite.
pub const MOST_SALTS: usize = 16;

/// Whether it is a salt (RFC 4120, 5.2.7.5).
fn is_salt(role: Role) -> bool
    ensures { result ≡ is_salt role }
{
    matches!(role, Role::Salt)
}

/// Whether it is the realm of a client.
fn is_client_realm(role: Role) -> bool
    ensures { result ≡ is_client_realm role }
{
    matches!(role, Role::ClientRealm)
}

/// Whether it is the realm of a server.
fn is_server_realm(role: Role) -> bool
    ensures { result ≡ is_server_realm role }
{
    matches!(role, Role::ServerRealm)
}

/// Whether it is the name of a client.
fn is_client_name(role: Role) -> bool
    ensures { result ≡ is_client_name role }
{
    matches!(role, Role::ClientName)
}

/// Whether it is the name of a server.
fn is_server_name(role: Role) -> bool
    ensures { result ≡ is_server_name role }
{
    matches!(role, Role::ServerName)
}

/// Whether it is a text.
fn is_text(form: Form) -> bool
    ensures { result ≡ is_text form }
{
    matches!(form, Form::Text)
}

/// Whether a struct begins there.
fn is_struct(form: Form) -> bool
    ensures { result ≡ is_struct form }
{
    matches!(form, Form::Struct)
}

/// The default salt of a principal (RFC 4120, 4): its realm, and behind it the components of its name.
fn default_salt(alloc: Global, realm: &[u8], components: &[Vec<u8>]) -> Result<Vec<u8>, AllocError>
    ensures { IfOk result (λ salt. salt.items ≡ default_salt realm.now (map (λ c. c.items) components.now)) }
{
    let mut salt = Vec::from_slice(alloc, realm)?;
    for component in components {
        salt.extend_from_slice(component)?;
    }
    Ok(salt)
}

/// The components of the client's name whose struct tokens begin with.
fn client_at(tokens: &[Token]) -> Option<&[Vec<u8>]>
    ensures { option_map (λ v. map (λ c. c.items) v.now) result ≡ name_at is_client_name tokens.now }
{
    let (first, behind) = tokens.split_first()?;
    let (_second, behind) = behind.split_first()?;
    let (third, _behind) = behind.split_first()?;
    if is_struct(first.form()) && is_client_name(first.role()) && is_text(third.form()) {
        Some(third.components())
    } else {
        None
    }
}

/// The components of the server's name whose struct tokens begin with.
fn server_at(tokens: &[Token]) -> Option<&[Vec<u8>]>
    ensures { option_map (λ v. map (λ c. c.items) v.now) result ≡ name_at is_server_name tokens.now }
{
    let (first, behind) = tokens.split_first()?;
    let (_second, behind) = behind.split_first()?;
    let (third, _behind) = behind.split_first()?;
    if is_struct(first.form()) && is_server_name(first.role()) && is_text(third.form()) {
        Some(third.components())
    } else {
        None
    }
}

/// The default salt of a realm and a name, if there is one.
fn salt_if(
    alloc: Global,
    realm: &[u8],
    components: Option<&[Vec<u8>]>,
) -> Result<Option<Vec<u8>>, AllocError>
    ensures { IfOk result (λ found. option_map (λ s. s.items) found ≡ salt_if realm.now (option_map (λ v. map (λ c. c.items) v.now) components.entry)) }
{
    match components {
        Some(components) => Ok(Some(default_salt(alloc, realm, components)?)),
        None => Ok(None),
    }
}

/// The default salt of the realm and the name behind it that tokens begin with.
fn realm_and_name(alloc: Global, tokens: &[Token]) -> Result<Option<Vec<u8>>, AllocError>
    ensures { IfOk result (λ found. option_map (λ s. s.items) found ≡ realm_and_name tokens.now) }
{
    let Some((realm, behind)) = tokens.split_first() else {
        return Ok(None);
    };
    if is_client_realm(realm.role()) {
        salt_if(alloc, realm.octets(), client_at(behind))
    } else if is_server_realm(realm.role()) {
        salt_if(alloc, realm.octets(), server_at(behind))
    } else {
        Ok(None)
    }
}

/// The fifth token.
fn fifth(tokens: &[Token]) -> Option<&Token>
    ensures { option_copied result ≡ fifth tokens.now }
{
    let (_first, behind) = tokens.split_first()?;
    let (_second, behind) = behind.split_first()?;
    let (_third, behind) = behind.split_first()?;
    let (_fourth, behind) = behind.split_first()?;
    behind.first()
}

/// The default salt of the client's name and the realm behind it that tokens begin with.
fn name_and_realm(alloc: Global, tokens: &[Token]) -> Result<Option<Vec<u8>>, AllocError>
    ensures { IfOk result (λ found. option_map (λ s. s.items) found ≡ name_and_realm tokens.now) }
{
    let Some(realm) = fifth(tokens) else {
        return Ok(None);
    };
    if is_server_realm(realm.role()) {
        salt_if(alloc, realm.octets(), client_at(tokens))
    } else {
        Ok(None)
    }
}

/// The salt of an ETYPE-INFO2-ENTRY that tokens begin with.
fn told_salt(tokens: &[Token]) -> Option<&[u8]>
    ensures { option_copied result ≡ told_salt tokens.now }
{
    let (first, _behind) = tokens.split_first()?;
    if is_salt(first.role()) {
        Some(first.octets())
    } else {
        None
    }
}

/// The salt that tokens begin with.
fn salt_at(alloc: Global, tokens: &[Token]) -> Result<Option<Vec<u8>>, AllocError>
    ensures { IfOk result (λ found. option_map (λ s. s.items) found ≡ salt_at tokens.now) }
{
    if let Some(salt) = told_salt(tokens) {
        return Ok(Some(Vec::from_slice(alloc, salt)?));
    }
    if let Some(salt) = realm_and_name(alloc, tokens)? {
        return Ok(Some(salt));
    }
    name_and_realm(alloc, tokens)
}

/// Appends the salt that tokens begin with, if they do.
fn push_salt(alloc: Global, tokens: &[Token], salts: &mut Vec<Vec<u8>>) -> Result<(), AllocError>
    ensures { OnOk result (map (λ s. s.items) salts.new.items ≡ map (λ s. s.items) salts.old.items ++ in_list (salt_at tokens.now)) }
{
    if let Some(salt) = salt_at(alloc, tokens)? {
        salts.push(salt)?;
    }
    Ok(())
}

/// The salts of a page, in their order, the first `MOST_SALTS` of them: those of an ETYPE-INFO2 (RFC 4120, 5.2.7.5), and the default salts (RFC 4120, 4) of
/// the realms and names that stand beside one another, by their roles: a client's realm and name, a server's, and in a request a client's name and
/// the realm behind it. The only error is an allocation failure.
pub fn salts_of(alloc: Global, page: &[Token]) -> Result<Vec<Vec<u8>>, AllocError>
    ensures { IfOk result (λ salts. map (λ s. s.items) salts.items ≡ salts_of page.now) }
{
    let mut salts = Vec::new(alloc);
    let mut rest = page;
    'tokens: while salts.len() < MOST_SALTS {
        let Some((_first, behind)) = rest.split_first() else {
            return Ok(salts);
        };
        push_salt(alloc, rest, &mut salts)?;
        rest = behind;
    }
    Ok(salts)
}

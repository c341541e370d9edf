//! What stands before a token, and the keys among tokens.

ghost use Rattle.std.specs.Prelude.{◌≡◌, ◌++◌, ◌∷◌, [], None, Some, IfOk, MatchOption, OnOk};
ghost use Rattle.krb_decrypt.specs.Preceding.{are_types, behind, in_list, is_key, key_at, keys_in, name_behind, start};

use crate::key::{Key, suite_of};
use krb_registry::Kind;
use krb_schema::Role;
use krb_show::{Form, Token};
use std::alloc::{AllocError, Global};

/// What stands before a token.
#[derive(Clone, Copy)]
pub struct Preceding {
    /// The role of the struct that began last before it.
    pub role: Role,
    /// The encryption type that stands last before it (RFC 3961, 8).
    pub etype: Option<i64>,
}

/// What stands before the first token.
pub(crate) fn start() -> Preceding
    ensures { result ≡ start }
{
    Preceding {
        role: Role::None,
        etype: None,
    }
}

/// Whether numbers are encryption types.
fn are_types(kind: Option<Kind>) -> bool
    ensures { result ≡ are_types kind }
{
    match kind {
        Some(Kind::EncryptionType) => true,
        _ => false,
    }
}

/// What stands before the token behind one.
pub(crate) fn behind(token: &Token, preceding: Preceding) -> Preceding
    ensures { result ≡ behind token.now preceding }
{
    match token.form() {
        Form::Struct => Preceding {
            role: token.role(),
            etype: preceding.etype,
        },
        Form::Number => {
            if are_types(token.kind()) {
                Preceding {
                    role: preceding.role,
                    etype: token.number(),
                }
            } else {
                preceding
            }
        }
        _ => preceding,
    }
}

/// The name of the struct that began last before the token behind one.
fn name_behind<'p>(token: &'p Token, name: &'p [u8]) -> &'p [u8]
    ensures { result.now ≡ name_behind token.now name.now }
{
    match token.form() {
        Form::Struct => token.text(),
        _ => name,
    }
}

/// Whether a token is the octets of a key.
fn is_key(form: Form, role: Role) -> bool
    ensures { result ≡ is_key form role }
{
    match (form, role) {
        (Form::Secret, Role::Key) => true,
        _ => false,
    }
}

/// The name of a type, a blank and the name of a struct.
fn key_name(alloc: Global, type_name: &str, name: &[u8]) -> Result<Vec<u8>, AllocError>
    ensures { IfOk result (λ made. made.items ≡ type_name.now ++ 32 ∷ name.now) }
{
    let mut made = Vec::from_slice(alloc, type_name.as_bytes())?;
    made.push(b' ')?;
    made.extend_from_slice(name)?;
    Ok(made)
}

/// The key that a token of a type is, if its encryption type is that of a suite.
fn key_at(
    alloc: Global,
    type_name: &str,
    preceding: Preceding,
    name: &[u8],
    token: &Token,
) -> Result<Option<Key>, AllocError>
    ensures { IfOk result (λ found. MatchOption found (key_at type_name.now preceding name.now token.now ≡ None)
        (λ key. key_at type_name.now preceding name.now token.now ≡ Some key)) }
{
    if !is_key(token.form(), token.role()) {
        return Ok(None);
    }
    let Some(suite) = suite_of(preceding.etype) else {
        return Ok(None);
    };
    let name = key_name(alloc, type_name, name)?;
    let octets = Vec::from_slice(alloc, token.octets())?;
    Ok(Some(Key {
        suite,
        octets,
        name,
    }))
}

/// Appends the key that a token is.
fn push_key(
    alloc: Global,
    type_name: &str,
    preceding: Preceding,
    name: &[u8],
    token: &Token,
    keys: &mut Vec<Key>,
) -> Result<(), AllocError>
    ensures { OnOk result (keys.new.items ≡ keys.old.items ++ in_list (key_at type_name.now preceding name.now token.now)) }
{
    if let Some(key) = key_at(alloc, type_name, preceding, name, token)? {
        keys.push(key)?;
    }
    Ok(())
}

/// Appends the keys among the tokens of a type.
fn push_keys(
    alloc: Global,
    type_name: &str,
    tokens: &[Token],
    keys: &mut Vec<Key>,
) -> Result<(), AllocError>
    ensures { OnOk result (keys.new.items ≡ keys.old.items ++ keys_in type_name.now start [] tokens.now) }
{
    let mut rest = tokens;
    let mut preceding = start();
    let mut name: &[u8] = &[];
    'tokens: while let Some((token, others)) = rest.split_first() {
        push_key(alloc, type_name, preceding, name, token, keys)?;
        preceding = behind(token, preceding);
        name = name_behind(token, name);
        rest = others;
    }
    Ok(())
}

/// The keys among the tokens of a type, in their order, each under the name of the type and of its struct. Those of encryption types that are
/// not supported are left out.
pub(crate) fn keys_in(
    alloc: Global,
    type_name: &str,
    tokens: &[Token],
) -> Result<Vec<Key>, AllocError>
    ensures { IfOk result (λ keys. keys.items ≡ keys_in type_name.now start [] tokens.now) }
{
    let mut keys = Vec::new(alloc);
    push_keys(alloc, type_name, tokens, &mut keys)?;
    Ok(keys)
}

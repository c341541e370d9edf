//! What stands before an item, and the keys among items.

ghost use Rattle.std.specs.Prelude.{◌≡◌, ◌++◌, ◌∷◌, [], None, Some, IfOk, MatchOption, OnOk};
ghost use Rattle.krb_c_pages.specs.Found.{are_types, behind, is_key, key_at, keys_in, name_behind, type_in};
ghost use Rattle.krb_decrypt.specs.Preceding.{in_list, start};

use krb_crypto::CipherSuite;
use krb_decrypt::{Key, Part, Preceding, suite_of};
use krb_registry::Kind;
use krb_schema::{Form, Item, Leaf, Node, Role, content_of};
use std::alloc::{AllocError, Global};

/// What stands before the first item.
pub(crate) fn start() -> Preceding
    ensures { result ≡ start }
{
    Preceding {
        role: Role::None,
        etype: None,
    }
}

/// Whether numbers are encryption types.
fn are_types(registry: Option<Kind>) -> bool
    ensures { result ≡ are_types registry }
{
    match registry {
        Some(Kind::EncryptionType) => true,
        _ => false,
    }
}

/// The number whose INTEGER has this content, if it is one from 0 to 127.
fn type_in(content: &[u8]) -> Option<i64>
    ensures { result ≡ type_in content.now }
{
    if let [number] = content {
        if *number < 128 {
            return Some(i64::from(*number));
        }
    }
    None
}

/// What stands before the item behind one of these octets.
pub(crate) fn behind(octets: &[u8], item: Item, preceding: Preceding) -> Preceding
    ensures { result ≡ behind octets.now item preceding }
{
    match item.form {
        Form::Begin(Node::Struct) => Preceding {
            role: item.name.role,
            etype: preceding.etype,
        },
        Form::Leaf(_) => {
            if are_types(item.name.registry) {
                Preceding {
                    role: preceding.role,
                    etype: type_in(content_of(octets, item)),
                }
            } else {
                preceding
            }
        }
        _ => preceding,
    }
}

/// The name of the struct that began last before the item behind one.
fn name_behind(item: Item, name: &[u8]) -> &[u8]
    ensures { result.now ≡ name_behind item name.now }
{
    match item.form {
        Form::Begin(Node::Struct) => item.name.text.as_bytes(),
        _ => name,
    }
}

/// Whether an item is the octets of a key (RFC 4120, 5.2.9).
fn is_key(form: Form, role: Role) -> bool
    ensures { result ≡ is_key form role }
{
    match (form, role) {
        (Form::Leaf(Leaf::Secret), Role::Key) => true,
        _ => false,
    }
}

/// The name of a type, a blank and the name of a struct.
fn key_name(alloc: Global, type_name: &str, name: &[u8]) -> Result<Vec<u8>, AllocError>
    ensures { IfOk result (λ made. made.items ≡ type_name.now ++ 32 ∷ name.now) }
{
    let mut made = Vec::from_slice(alloc, type_name.as_bytes())?;
    made.push(b' ')?;
    made.extend_from_slice(name)?;
    Ok(made)
}

/// The key that an item of octets of a type is, if its encryption type is that of a suite.
fn key_at(
    alloc: Global,
    type_name: &str,
    octets: &[u8],
    preceding: Preceding,
    name: &[u8],
    item: Item,
) -> Result<Option<Key>, AllocError>
    ensures { IfOk result (λ found. let key = key_at type_name.now octets.now preceding name.now item in
        MatchOption found (key ≡ None) (λ found. key ≡ Some found)) }
{
    if !is_key(item.form, item.name.role) {
        return Ok(None);
    }
    let Some(suite) = suite_of(preceding.etype) else {
        return Ok(None);
    };
    let name = key_name(alloc, type_name, name)?;
    let octets = Vec::from_slice(alloc, content_of(octets, item))?;
    Ok(Some(Key {
        suite,
        octets,
        name,
    }))
}

/// Appends the key that an item is.
fn push_key(
    alloc: Global,
    type_name: &str,
    octets: &[u8],
    preceding: Preceding,
    name: &[u8],
    item: Item,
    keys: &mut Vec<Key>,
) -> Result<(), AllocError>
    ensures { OnOk result (keys.new.items
        ≡ keys.old.items ++ in_list (key_at type_name.now octets.now preceding name.now item)) }
{
    if let Some(key) = key_at(alloc, type_name, octets, preceding, name, item)? {
        keys.push(key)?;
    }
    Ok(())
}

/// Appends the keys among the items of octets of a type.
fn push_keys(
    alloc: Global,
    type_name: &str,
    octets: &[u8],
    items: &[Item],
    keys: &mut Vec<Key>,
) -> Result<(), AllocError>
    ensures { OnOk result (keys.new.items ≡ keys.old.items ++ keys_in type_name.now octets.now start [] items.now) }
{
    let mut rest = items;
    let mut preceding = start();
    let mut name: &[u8] = &[];
    'items: while let Some((item, others)) = rest.split_first() {
        push_key(alloc, type_name, octets, preceding, name, *item, keys)?;
        preceding = behind(octets, *item, preceding);
        name = name_behind(*item, name);
        rest = others;
    }
    Ok(())
}

/// The keys in a part, in their order, each under the name of the part's type and of its struct. Those of encryption types that are not supported are left
/// out.
pub(crate) fn keys_in(alloc: Global, part: &Part) -> Result<Vec<Key>, AllocError>
    ensures { IfOk result (λ keys. keys.items
        ≡ keys_in part.now.type_name.now part.now.octets.items start [] part.now.items.items) }
{
    let mut keys = Vec::new(alloc);
    push_keys(alloc, part.type_name, &part.octets, &part.items, &mut keys)?;
    Ok(keys)
}

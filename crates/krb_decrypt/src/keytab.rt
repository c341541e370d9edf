//! The keys of a keytab.

ghost use Rattle.std.specs.Prelude.{◌≡◌, ◌++◌, ◌∷◌, List, map, IfOk, IfErr, OnOk};
ghost use Rattle.std.specs.List.{flat_map};
ghost use Rattle.krb_files.specs.Entry.{Entry};
ghost use Rattle.krb_files.specs.Keytab.{KeytabIs};
ghost use Rattle.krb_decrypt.specs.KeytabKeys.{IsNoKeytab, components_text, entry_name, keys_of_entry};
ghost use Rattle.krb_decrypt.specs.declared.keytab.KeytabKeysError.TheVariants as errors;

use crate::key::Key;
use crate::suites::suite_of_number;
use krb_files::fields::ComponentsView;
use krb_files::keytab::{EntryView, KeytabError, KeytabView};
use std::alloc::{AllocError, Global};
use thiserror::Error;

/// Why octets give no keys.
#[derive(Debug, Clone, Copy, PartialEq, Eq, Error)]
pub enum KeytabKeysError {
    /// They are no keytab: their first error from the left.
    #[error("{0}")]
    Keytab(KeytabError),
    /// They are a keytab, and an allocation failed.
    #[error("out of memory")]
    OutOfMemory,
}

impl From<KeytabError> for KeytabKeysError {
    ghost from_gives = { λ why e. e ≡ errors.Keytab why };

    fn from(error: KeytabError) -> KeytabKeysError {
        KeytabKeysError::Keytab(error)
    }
}

impl From<AllocError> for KeytabKeysError {
    ghost from_gives = { λ _ e. e ≡ errors.OutOfMemory };

    fn from(_error: AllocError) -> KeytabKeysError {
        KeytabKeysError::OutOfMemory
    }
}

/// The components of a name, in their order.
fn parts_of<'a>(alloc: Global, components: ComponentsView<'a>) -> Result<Vec<&'a [u8]>, AllocError>
    ensures { IfOk result (λ v. map (λ x. x.now) v.items ≡ components.entry) }
{
    components.collect(alloc)
}

/// Appends components, a `/` before each.
fn push_each(components: &[&[u8]], name: &mut Vec<u8>) -> Result<(), AllocError>
    ensures { OnOk result (name.new.items ≡ name.old.items ++ flat_map (λ c. 47 ∷ c) (map (λ p. p.now) components.now)) }
{
    'components: for component in components {
        name.push(b'/')?;
        name.extend_from_slice(component)?;
    }
    Ok(())
}

/// Appends components, a `/` before each but the first.
fn push_components(components: &[&[u8]], name: &mut Vec<u8>) -> Result<(), AllocError>
    ensures { OnOk result (name.new.items ≡ name.old.items ++ components_text (map (λ p. p.now) components.now)) }
{
    let Some((first, rest)) = components.split_first() else {
        return Ok(());
    };
    name.extend_from_slice(first)?;
    push_each(rest, name)
}

/// The name of an entry's key: the principal, and the version of the key.
fn name_of(alloc: Global, entry: &EntryView) -> Result<Vec<u8>, AllocError>
    ensures { IfOk result (λ name. name.items ≡ entry_name entry.now) }
{
    let version = format!(in alloc; "{}", entry.kvno())?;
    let parts = parts_of(alloc, entry.components())?;
    let mut name = Vec::new(alloc);
    push_components(&parts, &mut name)?;
    name.push(b'@')?;
    name.extend_from_slice(entry.realm())?;
    name.extend_from_slice(b" kvno ")?;
    name.extend_from_slice(version.as_bytes())?;
    Ok(name)
}

/// Appends the key of an entry, where its encryption type is that of a suite.
fn push_key(alloc: Global, entry: &EntryView, keys: &mut Vec<Key>) -> Result<(), AllocError>
    ensures { OnOk result (keys.new.items ≡ keys.old.items ++ keys_of_entry entry.now) }
{
    let Some(suite) = suite_of_number(entry.etype()) else {
        return Ok(());
    };
    let mut octets = Vec::with_capacity(alloc, entry.key().len())?;
    octets.extend_from_slice(entry.key())?;
    let name = name_of(alloc, entry)?;
    keys.push(Key {
        suite,
        octets,
        name,
    })?;
    Ok(())
}

/// The keys of the keytab of version 2 that the octets are (MIT Kerberos, "Keytab file format"), in the order of its entries, but for those of
/// an encryption type without a suite. The name of each is its principal and its version, as `host/www.example.org@EXAMPLE.ORG kvno 3`. Other
/// octets are refused with their first error, as by `KeytabView::new`. An allocation failure is `OutOfMemory`, and comes only where they are a
/// keytab.
pub fn keys_of_keytab(alloc: Global, octets: &[u8]) -> Result<Vec<Key>, KeytabKeysError>
    ensures found { IfOk result (λ keys. (entries : List Entry) × KeytabIs octets.now entries × (keys.items ≡ flat_map keys_of_entry entries)) }
    ensures rejected { IfErr result (IsNoKeytab octets.now) }
{
    let keytab = KeytabView::new(octets)?;
    let mut keys = Vec::new(alloc);
    'entries: for entry in keytab.entries() {
        push_key(alloc, &entry, &mut keys)?;
    }
    Ok(keys)
}

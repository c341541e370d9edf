//! The keys that the options name.

ghost use Rattle.std.specs.Prelude.{◌≡◌, ◌⊎◌, ◌++◌, ◌∷◌, ◌<◌, [], IfOk, IfErr, OnOk};
ghost use Rattle.krb_decrypt.specs.KeytabKeys.{key_in as key_of_octets};
ghost use Rattle.jolmurig.specs.Keys.{AreKeys, HasNoKeys, IsKeytabOf, IsNoKeyFile, IsNoKeyIn, IsNoKeytab, IsNoKeytabOf, IsNoSource};
ghost use Rattle.jolmurig.specs.Keys.{adds, gives_keys, key_file_gives, key_name, keytab_gives, text_gives};
ghost use Rattle.jolmurig.specs.declared.failure.Failure.TheVariants as failure;

use crate::failure::Failure;
use crate::files::{Files, Purpose, octets_of_file};
use jolmurig_command::{Source, SourceKind};
use krb_decrypt::{Key, KeytabKeysError, key_of_text, keys_of_keytab};
use krb_input::without_blanks;
use std::alloc::{AllocError, Global};

/// The name of the key of an option `--key`, by its number among the options that name keys.
fn key_name(alloc: Global, number: usize) -> Result<Vec<u8>, AllocError>
    ensures { IfOk result (λ name. name.items ≡ key_name number) }
{
    let digits = format!(in alloc; "{number}")?;
    let mut name = Vec::from_slice(alloc, b"--key ")?;
    name.extend_from_slice(digits.as_bytes())?;
    Ok(name)
}

/// One key alone.
fn alone(alloc: Global, key: Key) -> Result<Vec<Key>, AllocError>
    ensures { IfOk result (λ keys. keys.items ≡ key ∷ []) }
{
    let mut keys = Vec::with_capacity(alloc, 1)?;
    keys.push(key)?;
    Ok(keys)
}

/// The one key that a text is, under a name.
fn keys_in<'a>(
    alloc: Global,
    text: &[u8],
    name: Vec<u8>,
    no_key: Failure<'a>,
) -> Result<Vec<Key>, Failure<'a>>
    ensures found { IfOk result (λ keys. text_gives text.now name.items keys.items) }
    ensures rejected { IfErr result (λ e. (e ≡ failure.Memory) ⊎ IsNoKeyIn text.now name.items no_key.entry e) }
{
    let Some(key) = key_of_text(alloc, text, name)? else {
        return Err(no_key);
    };
    Ok(alone(alloc, key)?)
}

/// The key of an option `--key` with this number.
fn keys_of_text(alloc: Global, number: usize, text: &str) -> Result<Vec<Key>, Failure<'static>>
    ensures found { IfOk result (λ keys. text_gives text.now (key_name number) keys.items) }
    ensures rejected { IfErr result (λ e. (e ≡ failure.Memory) ⊎ IsNoKeyIn text.now (key_name number) failure.Key e) }
{
    let name = key_name(alloc, number)?;
    keys_in(alloc, text.as_bytes(), name, Failure::Key)
}

/// The key of a file that holds one as a text.
fn keys_of_key_file<'a, F: Files>(
    alloc: Global,
    files: &F,
    name: &'a str,
) -> Result<Vec<Key>, Failure<'a>>
    ensures found { IfOk result (λ keys. key_file_gives (F.gives files.now) name.now keys.items) }
    ensures rejected { IfErr result (λ e. (e ≡ failure.Memory) ⊎ IsNoKeyFile (F.gives files.now) name.now e) }
{
    let octets = octets_of_file(alloc, files, Purpose::KeyFile, name)?;
    let text = without_blanks(alloc, &octets)?;
    let name = Vec::from_slice(alloc, name.as_bytes())?;
    keys_in(alloc, &text, name, Failure::KeyInFile)
}

/// The keys of a keytab's octets.
fn keys_of_octets(alloc: Global, octets: &[u8]) -> Result<Vec<Key>, Failure<'static>>
    ensures found { IfOk result (λ keys. IsKeytabOf octets.now keys.items) }
    ensures rejected { IfErr result (λ e. (e ≡ failure.Memory) ⊎ IsNoKeytabOf octets.now e) }
{
    match keys_of_keytab(alloc, octets) {
        Ok(keys) => Ok(keys),
        Err(KeytabKeysError::OutOfMemory) => Err(Failure::Memory),
        Err(KeytabKeysError::Keytab(why)) => Err(Failure::Keytab(why)),
    }
}

/// The keys of a file that is a keytab.
fn keys_of_file<'a, F: Files>(
    alloc: Global,
    files: &F,
    name: &'a str,
) -> Result<Vec<Key>, Failure<'a>>
    ensures found { IfOk result (λ keys. keytab_gives (F.gives files.now) name.now keys.items) }
    ensures rejected { IfErr result (λ e. (e ≡ failure.Memory) ⊎ IsNoKeytab (F.gives files.now) name.now e) }
{
    let octets = octets_of_file(alloc, files, Purpose::Keytab, name)?;
    keys_of_octets(alloc, &octets)
}

/// The keys of an option with this number.
fn keys_of_source<'a, F: Files>(
    alloc: Global,
    files: &F,
    number: usize,
    source: &Source<'a>,
) -> Result<Vec<Key>, Failure<'a>>
    ensures found { IfOk result (λ keys. gives_keys (F.gives files.now) number source.now keys.items) }
    ensures rejected { IfErr result (λ e. (e ≡ failure.Memory) ⊎ IsNoSource (F.gives files.now) number source.now e) }
{
    match source.kind {
        SourceKind::Key => keys_of_text(alloc, number, source.text),
        SourceKind::KeyFile => keys_of_key_file(alloc, files, source.text),
        SourceKind::Keytab => keys_of_file(alloc, files, source.text),
    }
}

/// Appends the keys of an option.
fn push_source<'a, F: Files>(
    alloc: Global,
    files: &F,
    number: usize,
    source: &Source<'a>,
    keys: &mut Vec<Key>,
) -> Result<(), Failure<'a>>
    ensures found { OnOk result (adds (gives_keys (F.gives files.now) number source.now) keys.old.items keys.new.items) }
    ensures rejected { IfErr result (λ e. (e ≡ failure.Memory) ⊎ IsNoSource (F.gives files.now) number source.now e) }
{
    let mut more = keys_of_source(alloc, files, number, source)?;
    keys.append(&mut more)?;
    Ok(())
}

/// The keys of the options, in their order.
pub fn keys_of_sources<'a, F: Files>(
    alloc: Global,
    files: &F,
    sources: &[Source<'a>],
) -> Result<Vec<Key>, Failure<'a>>
    ensures found { IfOk result (λ keys. AreKeys (F.gives files.now) 1 sources.now keys.items) }
    ensures rejected { IfErr result (λ e. (e ≡ failure.Memory) ⊎ HasNoKeys (F.gives files.now) 1 sources.now e) }
{
    let mut keys = Vec::new(alloc);
    let mut number = 1;
    'sources: for source in sources {
        push_source(alloc, files, number, source, &mut keys)?;
        number += 1;
    }
    Ok(keys)
}

//! The keys of a keytab (MIT Kerberos, "Keytab file format").

ghost use Rattle.std.specs.Prelude.{◌≡◌, pos, map, true, false, [], ◌∷◌, ◌++◌, IfOk, MatchOption, OnOk};
ghost use Rattle.std.specs.List.{flat_map};
ghost use Rattle.krb_accept.specs.Keytab.{are_texts, is_text, keys_of_entry};

use krb_accept_rules::ServiceKey;
use krb_der::{Asn1SequenceOf, GeneralStringAsn1, IntegerAsn1, OctetStringAsn1};
use krb_files::fields::ComponentsView;
use krb_files::keytab::{EntryView, KeytabView};
use krb_types::data_types::{KerberosStringAsn1, PrincipalName};
use std::alloc::{AllocError, Global};
use std::str;

/// Whether no octet is past 127.
fn is_text(octets: &[u8]) -> bool
    ensures { result ≡ is_text octets.now }
{
    octets.iter().all(|octet| *octet < 128)
}

/// The text of these octets, where none is past 127.
fn text_of(alloc: Global, octets: &[u8]) -> Result<Option<KerberosStringAsn1>, AllocError>
    ensures { IfOk result (λ found. MatchOption found (is_text octets.now ≡ false) (λ t. (is_text octets.now ≡ true) × (t ≡ octets.now))) }
{
    if !is_text(octets) {
        return Ok(None);
    }
    let Ok(text) = str::from_utf8(octets) else {
        return Ok(None);
    };
    match GeneralStringAsn1::from_string(String::from_str(alloc, text)?) {
        Ok(text) => Ok(Some(text)),
        Err(_) => Ok(None),
    }
}

/// The octets of components, in their order.
fn parts_of<'a>(alloc: Global, components: ComponentsView<'a>) -> Result<Vec<&'a [u8]>, AllocError>
    ensures { IfOk result (λ parts. map (λ x. x.now) parts.items ≡ components.entry) }
{
    components.collect(alloc)
}

/// The texts of these components, where no octet is past 127.
fn texts_of(
    alloc: Global,
    components: &[&[u8]],
) -> Result<Option<Vec<KerberosStringAsn1>>, AllocError>
    ensures { IfOk result (λ found. MatchOption found (are_texts (map (λ x. x.now) components.now) ≡ false)
        (λ texts. (are_texts (map (λ x. x.now) components.now) ≡ true) × (texts.items ≡ map (λ x. x.now) components.now))) }
{
    let mut texts = Vec::new(alloc);
    'components: for component in components {
        let Some(text) = text_of(alloc, component)? else {
            return Ok(None);
        };
        texts.push(text)?;
    }
    Ok(Some(texts))
}

/// The key of an entry, where its realm and the components of its name are texts.
fn key_of(alloc: Global, entry: &EntryView) -> Result<Option<ServiceKey>, AllocError>
    ensures { IfOk result
        (λ found. MatchOption found (keys_of_entry entry.now ≡ []) (λ key. keys_of_entry entry.now ≡ key ∷ [])) }
{
    let Some(realm) = text_of(alloc, entry.realm())? else {
        return Ok(None);
    };
    let parts = parts_of(alloc, entry.components())?;
    let Some(components) = texts_of(alloc, &parts)? else {
        return Ok(None);
    };
    let octets = Vec::from_slice(alloc, entry.key())?;
    Ok(Some(ServiceKey {
        realm,
        name: PrincipalName {
            name_type: IntegerAsn1::from_u32(alloc, entry.name_type()).into(),
            name_string: Asn1SequenceOf(components).into(),
        },
        kvno: entry.kvno(),
        etype: u32::from(entry.etype()),
        octets: OctetStringAsn1(octets),
    }))
}

/// Appends the key of an entry, where its realm and its name are texts.
fn push_key(alloc: Global, entry: &EntryView, keys: &mut Vec<ServiceKey>) -> Result<(), AllocError>
    ensures { OnOk result (keys.new.items ≡ keys.old.items ++ keys_of_entry entry.now) }
{
    if let Some(key) = key_of(alloc, entry)? {
        keys.push(key)?;
    }
    Ok(())
}

/// The keys of a keytab, in the order of its entries. An entry whose realm or name has an octet past 127 is left out: no ticket names it
/// (RFC 4120, 5.2.1). Keys of encryption types that are not supported are among them, and open no ticket.
pub fn keys_of_keytab(alloc: Global, keytab: &KeytabView) -> Result<Vec<ServiceKey>, AllocError>
    ensures { IfOk result (λ keys. keys.items ≡ flat_map keys_of_entry keytab.now) }
{
    let mut keys = Vec::new(alloc);
    'entries: for entry in keytab.entries() {
        push_key(alloc, &entry, &mut keys)?;
    }
    Ok(keys)
}

//! Entries of a replay cache as octets, for a cache that a service keeps elsewhere.

ghost use Rattle.std.specs.Prelude.{◌≡◌, ◌++◌, IfOk, OnOk};
ghost use Rattle.std.specs.List.{flat_map};
ghost use Rattle.krb_accept.specs.Entries.{entry_octets, text_octets, texts_octets};

use krb_accept_rules::Entry;
use krb_types::data_types::KerberosStringAsn1;
use krb_types::view::items;
use std::alloc::{AllocError, Global};

/// The octet after a text, which is none of ASCII.
const TEXT_END: u8 = 0xff;

/// The octet after a list of texts.
const LIST_END: u8 = 0xfe;

/// Appends a text and its end.
fn push_text(text: &KerberosStringAsn1, out: &mut Vec<u8>) -> Result<(), AllocError>
    ensures { OnOk result (out.new.items ≡ out.old.items ++ text_octets text.now) }
{
    out.extend_from_slice(text.as_str().as_bytes())?;
    out.push(TEXT_END)?;
    Ok(())
}

/// Appends texts, each with its end.
fn push_each(texts: &[KerberosStringAsn1], out: &mut Vec<u8>) -> Result<(), AllocError>
    ensures { OnOk result (out.new.items ≡ out.old.items ++ flat_map text_octets texts.now) }
{
    'texts: for text in texts {
        push_text(text, out)?;
    }
    Ok(())
}

/// Appends a list of texts and its end.
fn push_texts(texts: &[KerberosStringAsn1], out: &mut Vec<u8>) -> Result<(), AllocError>
    ensures { OnOk result (out.new.items ≡ out.old.items ++ texts_octets texts.now) }
{
    push_each(texts, out)?;
    out.push(LIST_END)?;
    Ok(())
}

/// Octets of an entry of the replay cache, which are equal exactly where the entries are (`laws::entries_apart`): the client's seconds and
/// microseconds, most significant octet first (8 and 4 octets); the server's realm, the components of its name, the client's realm
/// and the components of its name. `ff` stands after each text, and `fe` after each list of components: neither is an octet of ASCII.
pub fn entry_octets(alloc: Global, entry: &Entry) -> Result<Vec<u8>, AllocError>
    ensures { IfOk result (λ octets. octets.items ≡ entry_octets entry.now) }
{
    let mut out = Vec::new(alloc);
    out.extend_from_slice(&entry.seconds.to_be_bytes())?;
    out.extend_from_slice(&entry.microseconds.to_be_bytes())?;
    push_text(&entry.server_realm, &mut out)?;
    push_texts(items(&entry.server), &mut out)?;
    push_text(&entry.client_realm, &mut out)?;
    push_texts(items(&entry.client), &mut out)?;
    Ok(out)
}

//! The leaves that only tokens of the GSS-API have.

ghost use Rattle.std.specs.Prelude.{◌≡◌, ◌<◌, ◌≤◌, ◌++◌, ◌∷◌, [], List, ℕ, IfOk, OnErr, OnOk};
ghost use Rattle.krb_registry.specs.declared.kind.Kind.TheVariants.{TokenFlag};
ghost use Rattle.krb_show.specs.Leaves.{IsFlagName, unsigned_of};
ghost use Rattle.krb_show.specs.Tokens.{Begins};
ghost use Rattle.krb_show_tokens.specs.Leaves.{AreTokenFlags, adds_token_flag, has_bit, identifier_of};
ghost use Rattle.krb_show_tokens.specs.Leaves.{token_flags_of, token_id_note, token_id_of};

use krb_der_x509::ObjectIdentifierAsn1;
use krb_registry::{Kind, name};
use krb_show::{Form, Label, Page, Show, push_hex, push_token, show_identifier as show_dotted};
use std::alloc::{AllocError, Global};

/// How many flags an octet has.
const FLAGS: u8 = 8;

/// Appends an object identifier: its dotted numbers, and the name of the mechanism, if it is that of one.
pub fn show_identifier(
    alloc: Global,
    label: &Label,
    identifier: &ObjectIdentifierAsn1,
    page: &mut Page,
) -> Result<(), AllocError>
    ensures ok { OnOk result (identifier_of label.now identifier.now page.old.items page.new.items) }
    ensures kept { OnOk result (Begins page.old.items page.new.items) }
    ensures err { OnErr result (page.new.items ≡ page.old.items) }
{
    match identifier.to_text(alloc) {
        Ok(text) => show_dotted(alloc, label, text.as_str(), page),
        Err(_) => Err(AllocError),
    }
}

/// The note of a token id: a blank and its name, or nothing.
fn note_of_token_id(id: [u8; 2]) -> &'static str
    ensures { result.now ≡ token_id_note id }
{
    match (id[0], id[1]) {
        (0x01, 0x00) => " KRB_AP_REQ",
        (0x02, 0x00) => " KRB_AP_REP",
        (0x03, 0x00) => " KRB_ERROR",
        (0x04, 0x00) => " KRB_TGT_REQ",
        (0x04, 0x01) => " KRB_TGT_REP",
        (0x04, 0x04) => " MIC",
        (0x05, 0x00) => " KRB_AS_REQ",
        (0x05, 0x01) => " IAKERB_PROXY",
        (0x05, 0x04) => " Wrap",
        (0x06, 0x00) => " KRB_AS_REP",
        _ => "",
    }
}

/// Appends a token id (RFC 4121, 4.1): the digits of its two octets, and its name, if it has one.
pub fn show_token_id(
    alloc: Global,
    label: &Label,
    id: [u8; 2],
    page: &mut Page,
) -> Result<(), AllocError>
    ensures ok { OnOk result (token_id_of label.now id page.old.items page.new.items) }
    ensures kept { OnOk result (Begins page.old.items page.new.items) }
    ensures err { OnErr result (page.new.items ≡ page.old.items) }
{
    let mut digits = Vec::new(alloc);
    push_hex(&mut digits, &id)?;
    let mut note = Vec::new(alloc);
    note.extend_from_slice(note_of_token_id(id).as_bytes())?;
    push_token(alloc, Form::Identifier, label, digits, note, page)
}

/// Whether a bit of an octet is set; the least significant is 0.
fn has_bit(octet: u8, bit: u8) -> bool
    requires { bit < 8 }
    ensures { result ≡ has_bit octet bit }
{
    (octet >> bit) % 2 == 1
}

/// The name of a flag of a MIC or Wrap token, or its number.
fn flag_name(alloc: Global, bit: u8) -> Result<Vec<u8>, AllocError>
    ensures { IfOk result (λ found. IsFlagName TokenFlag bit found.items) }
{
    match name(Kind::TokenFlag, i64::from(bit)) {
        Some(known) => {
            let mut found = Vec::new(alloc);
            found.extend_from_slice(known.as_bytes())?;
            Ok(found)
        }
        None => {
            let number = format!(in alloc; "{bit}")?;
            Ok(number.into_bytes())
        }
    }
}

/// Appends a blank and the name of a flag.
fn push_flag(note: &mut Vec<u8>, alloc: Global, bit: u8) -> Result<(), AllocError>
    ensures { OnOk result ((name : List ℕ) × IsFlagName TokenFlag bit name × (note.new.items ≡ note.old.items ++ 32 ∷ name)) }
{
    let name = flag_name(alloc, bit)?;
    note.push(b' ')?;
    note.extend_from_slice(name.as_slice())
}

/// Appends a blank and the name of a flag, if it is set.
fn push_if_set(note: &mut Vec<u8>, alloc: Global, flags: u8, bit: u8) -> Result<(), AllocError>
    requires { bit < 8 }
    ensures { OnOk result (adds_token_flag flags bit note.old.items note.new.items) }
{
    if !has_bit(flags, bit) {
        return Ok(());
    }
    push_flag(note, alloc, bit)
}

/// Appends the names of the flags that are set among so many.
#[tactic(auto, unfolding(crate::specs::Leaves::AreTokenFlags))]
fn push_flags(note: &mut Vec<u8>, alloc: Global, flags: u8, count: u8) -> Result<(), AllocError>
    requires { count ≤ 8 }
    ensures { note.old.items ≡ [] → OnOk result (AreTokenFlags flags count note.new.items) }
{
    for bit in 0..count {
        push_if_set(note, alloc, flags, bit)?;
    }
    Ok(())
}

/// Appends the flags of a MIC or Wrap token (RFC 4121, 4.2.2): the octet, and the names of those that are set.
pub fn show_token_flags(
    alloc: Global,
    label: &Label,
    flags: u8,
    page: &mut Page,
) -> Result<(), AllocError>
    ensures ok { OnOk result (token_flags_of label.now flags page.old.items page.new.items) }
    ensures kept { OnOk result (Begins page.old.items page.new.items) }
    ensures err { OnErr result (page.new.items ≡ page.old.items) }
{
    let mut note = Vec::new(alloc);
    push_flags(&mut note, alloc, flags, FLAGS)?;
    let mut word = Vec::new(alloc);
    word.extend_from_slice(b"0x")?;
    push_hex(&mut word, &[flags])?;
    push_token(alloc, Form::Flags, label, word, note, page)
}

/// Appends a number without a sign, in decimal.
pub fn show_unsigned(
    alloc: Global,
    label: &Label,
    number: u64,
    page: &mut Page,
) -> Result<(), AllocError>
    ensures ok { OnOk result (unsigned_of label.now number page.old.items page.new.items) }
    ensures kept { OnOk result (Begins page.old.items page.new.items) }
    ensures err { OnErr result (page.new.items ≡ page.old.items) }
{
    Show::<crate::GssToken>::show(&number, alloc, label, page)
}

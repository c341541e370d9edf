//! The leaves.

ghost use Rattle.std.specs.Prelude.{◌≡◌, ◌<◌, ◌+◌, ◌%◌, ◌/◌, ℕ, pos, List, [], ◌∷◌, ◌++◌, IfOk, OnOk, OnErr, codes};
ghost use Rattle.krb_show.specs.Tokens.{Begins, adds, leaf};
ghost use Rattle.krb_show.specs.Leaves.{cipher_of, flags_of, flags_word, identifier_of, number_of, octets_of, secret_octets_of, text_of, time_of, time_word, truth_of, two, unsigned_of, word_of};
ghost use Rattle.krb_show.specs.declared.token.Form.TheVariants as form;

use crate::digits::{push_hex, push_two};
use crate::notes::{note_of_flags, note_of_identifier, note_of_number};
use crate::show::Show;
use crate::token::{Form, Label, Page, push_number, push_token};
use krb_der::{
    BitStringAsn1, GeneralStringAsn1, GeneralizedTimeAsn1, IntegerAsn1, OctetStringAsn1,
    Utf8StringAsn1,
};
use std::alloc::{AllocError, Global};

/// Appends a leaf without a note.
fn push_leaf(
    alloc: Global,
    form: Form,
    label: &Label,
    octets: &[u8],
    page: &mut Page,
) -> Result<(), AllocError>
    ensures ok { OnOk result (adds (leaf form label.now octets.now) page.old.items page.new.items) }
    ensures kept { OnOk result (Begins page.old.items page.new.items) }
    ensures err { OnErr result (page.new.items ≡ page.old.items) }
{
    let mut copy = Vec::with_capacity(alloc, octets.len())?;
    copy.extend_from_slice(octets)?;
    push_token(alloc, form, label, copy, Vec::new(alloc), page)
}

/// Appends a text of the input.
pub fn show_text(
    alloc: Global,
    label: &Label,
    octets: &[u8],
    page: &mut Page,
) -> Result<(), AllocError>
    ensures ok { OnOk result (text_of label.now octets.now page.old.items page.new.items) }
    ensures kept { OnOk result (Begins page.old.items page.new.items) }
    ensures err { OnErr result (page.new.items ≡ page.old.items) }
{
    push_leaf(alloc, Form::Text, label, octets, page)
}

/// Appends octets of the input.
pub fn show_octets(
    alloc: Global,
    label: &Label,
    octets: &[u8],
    page: &mut Page,
) -> Result<(), AllocError>
    ensures ok { OnOk result (octets_of label.now octets.now page.old.items page.new.items) }
    ensures kept { OnOk result (Begins page.old.items page.new.items) }
    ensures err { OnErr result (page.new.items ≡ page.old.items) }
{
    push_leaf(alloc, Form::Octets, label, octets, page)
}

/// Appends octets of the input that are a key, a password or a PIN.
pub fn show_secret(
    alloc: Global,
    label: &Label,
    octets: &[u8],
    page: &mut Page,
) -> Result<(), AllocError>
    ensures ok { OnOk result (secret_octets_of label.now octets.now page.old.items page.new.items) }
    ensures kept { OnOk result (Begins page.old.items page.new.items) }
    ensures err { OnErr result (page.new.items ≡ page.old.items) }
{
    push_leaf(alloc, Form::Secret, label, octets, page)
}

/// Appends octets of the input that are encrypted (RFC 4120, 5.2.9).
pub fn show_cipher(
    alloc: Global,
    label: &Label,
    octets: &[u8],
    page: &mut Page,
) -> Result<(), AllocError>
    ensures ok { OnOk result (cipher_of label.now octets.now page.old.items page.new.items) }
    ensures kept { OnOk result (Begins page.old.items page.new.items) }
    ensures err { OnErr result (page.new.items ≡ page.old.items) }
{
    push_leaf(alloc, Form::Cipher, label, octets, page)
}

/// Appends a word that has no blanks.
pub fn show_word(
    alloc: Global,
    label: &Label,
    word: &[u8],
    page: &mut Page,
) -> Result<(), AllocError>
    ensures ok { OnOk result (word_of label.now word.now page.old.items page.new.items) }
    ensures kept { OnOk result (Begins page.old.items page.new.items) }
    ensures err { OnErr result (page.new.items ≡ page.old.items) }
{
    push_leaf(alloc, Form::Word, label, word, page)
}

/// Appends a number of 64 bits.
pub fn show_number(
    alloc: Global,
    label: &Label,
    number: i64,
    page: &mut Page,
) -> Result<(), AllocError>
    ensures ok { OnOk result (number_of label.now number page.old.items page.new.items) }
    ensures kept { OnOk result (Begins page.old.items page.new.items) }
    ensures err { OnErr result (page.new.items ≡ page.old.items) }
{
    let note = note_of_number(alloc, label.kind, number)?;
    let digits = format!(in alloc; "{number}")?;
    push_number(alloc, label, number, digits.into_bytes(), note, page)
}

/// Appends an object identifier, which is given in dotted numbers, as `1.2.840.113554.1.2.2`, and the name of the mechanism that has it.
pub fn show_identifier(
    alloc: Global,
    label: &Label,
    dotted: &str,
    page: &mut Page,
) -> Result<(), AllocError>
    ensures ok { OnOk result (identifier_of label.now dotted.now page.old.items page.new.items) }
    ensures kept { OnOk result (Begins page.old.items page.new.items) }
    ensures err { OnErr result (page.new.items ≡ page.old.items) }
{
    let note = note_of_identifier(alloc, dotted)?;
    let mut word = Vec::with_capacity(alloc, dotted.len())?;
    word.extend_from_slice(dotted.as_bytes())?;
    push_token(alloc, Form::Identifier, label, word, note, page)
}

impl<K> Show<K> for IntegerAsn1 {
    ghost shows = { number_of };

    fn show(&self, alloc: Global, label: &Label, page: &mut Page) -> Result<(), AllocError> {
        match self.to_i64() {
            Some(number) => show_number(alloc, label, number, page),
            None => show_octets(alloc, label, self.as_signed_bytes_be(), page),
        }
    }
}

/// An error code, and other numbers of 32 bits.
impl<K> Show<K> for u32 {
    ghost shows = { λ label n. number_of label (pos n) };

    fn show(&self, alloc: Global, label: &Label, page: &mut Page) -> Result<(), AllocError> {
        show_number(alloc, label, i64::from(*self), page)
    }
}

/// An unsigned number of 64 bits, which has no name.
impl<K> Show<K> for u64 {
    ghost shows = { unsigned_of };

    fn show(&self, alloc: Global, label: &Label, page: &mut Page) -> Result<(), AllocError> {
        let number = *self;
        let digits = format!(in alloc; "{number}")?;
        push_leaf(alloc, Form::Number, label, digits.as_bytes(), page)
    }
}

impl<K> Show<K> for bool {
    ghost shows = { truth_of };

    fn show(&self, alloc: Global, label: &Label, page: &mut Page) -> Result<(), AllocError> {
        if *self {
            push_leaf(alloc, Form::Number, label, b"true", page)
        } else {
            push_leaf(alloc, Form::Number, label, b"false", page)
        }
    }
}

impl<K> Show<K> for OctetStringAsn1 {
    ghost shows = { octets_of };

    fn show(&self, alloc: Global, label: &Label, page: &mut Page) -> Result<(), AllocError> {
        show_octets(alloc, label, self.0.as_slice(), page)
    }
}

impl<K> Show<K> for GeneralStringAsn1 {
    ghost shows = { text_of };

    fn show(&self, alloc: Global, label: &Label, page: &mut Page) -> Result<(), AllocError> {
        show_text(alloc, label, self.as_str().as_bytes(), page)
    }
}

impl<K> Show<K> for Utf8StringAsn1 {
    ghost shows = { text_of };

    fn show(&self, alloc: Global, label: &Label, page: &mut Page) -> Result<(), AllocError> {
        show_text(alloc, label, self.0.as_bytes(), page)
    }
}

/// The octets of flags in hexadecimal, and how many bits are spare.
fn flags_word(alloc: Global, flags: &BitStringAsn1) -> Result<Vec<u8>, AllocError>
    ensures { IfOk result (λ word. word.items ≡ flags_word flags.now) }
{
    let mut word = Vec::new(alloc);
    word.extend_from_slice(b"0x")?;
    push_hex(&mut word, flags.octets())?;
    let spare = flags.spare_bits();
    if spare != 0 {
        let number = format!(in alloc; "{spare}")?;
        word.push(b'/')?;
        word.extend_from_slice(number.as_bytes())?;
    }
    Ok(word)
}

impl<K> Show<K> for BitStringAsn1 {
    ghost shows = { flags_of };

    fn show(&self, alloc: Global, label: &Label, page: &mut Page) -> Result<(), AllocError> {
        let note = note_of_flags(alloc, label.kind, self)?;
        let word = flags_word(alloc, self)?;
        push_token(alloc, Form::Flags, label, word, note, page)
    }
}

/// Appends a mark and the two digits of a number below 100.
fn push_marked(out: &mut Vec<u8>, mark: u8, number: u8) -> Result<(), AllocError>
    requires { number < 100 }
    ensures { OnOk result (out.new.items ≡ out.old.items ++ mark ∷ two number) }
{
    out.push(mark)?;
    push_two(out, number)
}

/// A time in ISO 8601.
fn time_word(alloc: Global, time: &GeneralizedTimeAsn1) -> Result<Vec<u8>, AllocError>
    ensures { IfOk result (λ word. word.items ≡ time_word time.now) }
{
    time.is_real();
    let mut word = Vec::with_capacity(alloc, 20)?;
    push_two(&mut word, (time.year() / 100) as u8)?;
    push_two(&mut word, (time.year() % 100) as u8)?;
    push_marked(&mut word, b'-', time.month())?;
    push_marked(&mut word, b'-', time.day())?;
    push_marked(&mut word, b'T', time.hour())?;
    push_marked(&mut word, b':', time.minute())?;
    push_marked(&mut word, b':', time.second())?;
    word.push(b'Z')?;
    Ok(word)
}

impl<K> Show<K> for GeneralizedTimeAsn1 {
    ghost shows = { time_of };

    fn show(&self, alloc: Global, label: &Label, page: &mut Page) -> Result<(), AllocError> {
        let word = time_word(alloc, self)?;
        push_token(alloc, Form::Word, label, word, Vec::new(alloc), page)
    }
}

//! What keys make of each ciphertext among items.

ghost use Rattle.std.specs.Prelude.{◌≡◌, ◌++◌, IfOk, OnOk, map};
ghost use Rattle.krb_c_calls.specs.Items.{record_of};
ghost use Rattle.krb_c_pages.specs.Decoding.{IsLearned, IsTold, IsToldCipher, begun, decoded, gone_on, is_cipher};
ghost use Rattle.krb_c_pages.specs.Decoding.{learned_behind, left_out_behind, step_by};

use crate::decoded::found::{behind, keys_in, start};
use crate::decoded::outcome::{items_in, octets_in, opener_of, outcome_number, usage_number};
use crate::decoded::record::PartRecord;
use krb_c_calls::items::{ItemRecord, record_of};
use krb_decrypt::{Key, Outcome, Part, Preceding, outcome_of};
use krb_schema::{Form, Item, Leaf, content_of};
use std::alloc::{AllocError, Global};
use std::marker::Model;

/// What is handed out of items up to one of them: records, parts and octets. As a value it is these, the keys that are known there, and what stands before it.
#[derive(Drop)]
pub struct Decoding {
    keys: Vec<Key>,
    preceding: Preceding,
    items: Vec<ItemRecord>,
    parts: Vec<PartRecord>,
    octets: Vec<u8>,
}

impl Model for Decoding {
    ghost use Rattle.krb_c_pages.specs.Decoding.{Decoding};

    ghost Value = { Decoding };

    ghost view = { λ d. record {
      keys = d.keys.items;
      preceding = d.preceding;
      items = d.items.items;
      parts = d.parts.items;
      octets = d.octets.items;
    } };
}

impl Decoding {
    /// The items.
    pub(crate) fn items(&self) -> &[ItemRecord]
        ensures { result.now ≡ self.now.items }
    {
        self.items.as_slice()
    }

    /// The parts.
    pub(crate) fn parts(&self) -> &[PartRecord]
        ensures { result.now ≡ self.now.parts }
    {
        self.parts.as_slice()
    }

    /// The octets.
    pub(crate) fn octets(&self) -> &[u8]
        ensures { result.now ≡ self.now.octets }
    {
        self.octets.as_slice()
    }
}

/// Appends the records of items.
fn push_records(items: &[Item], records: &mut Vec<ItemRecord>) -> Result<(), AllocError>
    ensures { OnOk result (records.new.items ≡ records.old.items ++ map record_of items.now) }
{
    'items: for item in items {
        records.push(record_of(*item))?;
    }
    Ok(())
}

/// Appends the keys in a part, up to so many keys. Returned is how many are left out.
fn learn_from(
    alloc: Global,
    most: usize,
    part: &Part,
    keys: &mut Vec<Key>,
) -> Result<usize, AllocError>
    ensures { IfOk result (λ count. IsLearned most part.now keys.old.items keys.new.items count) }
{
    let mut found = keys_in(alloc, part)?;
    let room = most.saturating_sub(keys.len());
    let count = found.len().saturating_sub(room);
    found.truncate(room);
    keys.append(&mut found)?;
    Ok(count)
}

/// Appends the keys in what is decrypted. Returned is how many are left out.
fn learn_behind(
    alloc: Global,
    most: usize,
    outcome: &Outcome,
    keys: &mut Vec<Key>,
) -> Result<usize, AllocError>
    ensures { IfOk result (λ count. (count ≡ left_out_behind most outcome.now keys.old.items)
        × (keys.new.items ≡ learned_behind most outcome.now keys.old.items)) }
{
    if let Outcome::Decrypted { part, .. } = outcome {
        if let Some(part) = part {
            return learn_from(alloc, most, part, keys);
        }
    }
    Ok(0)
}

/// Appends what is handed out of an outcome of the ciphertext behind so many items.
fn tell(
    alloc: Global,
    most: usize,
    index: usize,
    outcome: &Outcome,
    decoding: &mut Decoding,
) -> Result<(), AllocError>
    ensures { OnOk result (IsTold most index outcome.now decoding.old decoding.new) }
{
    let opener = opener_of(decoding.keys.as_slice(), outcome);
    let opener_size = opener.len();
    let opener_offset = decoding.octets.len();
    decoding.octets.extend_from_slice(opener)?;
    let octets = octets_in(outcome);
    let offset = decoding.octets.len();
    decoding.octets.extend_from_slice(octets)?;
    let items = items_in(outcome);
    let first = decoding.items.len();
    push_records(items, &mut decoding.items)?;
    let keys_left_out = learn_behind(alloc, most, outcome, &mut decoding.keys)?;
    decoding.parts.push(PartRecord {
        item: index,
        first,
        count: items.len(),
        offset,
        size: octets.len(),
        opener_offset,
        opener_size,
        keys_left_out,
        outcome: outcome_number(outcome),
        usage: usage_number(outcome),
    })?;
    Ok(())
}

/// Whether an item is a ciphertext.
fn is_cipher(form: Form) -> bool
    ensures { result ≡ is_cipher form }
{
    match form {
        Form::Leaf(Leaf::Cipher) => true,
        _ => false,
    }
}

/// Appends what the keys make of this ciphertext.
fn tell_cipher(
    alloc: Global,
    most: usize,
    index: usize,
    cipher: &[u8],
    decoding: &mut Decoding,
) -> Result<(), AllocError>
    ensures { OnOk result (IsToldCipher most index cipher.now decoding.old decoding.new) }
{
    let outcome = outcome_of(alloc, decoding.preceding, cipher, decoding.keys.as_slice())?;
    tell(alloc, most, index, &outcome, decoding)?;
    Ok(())
}

/// Appends what the keys make of an item of these octets, if it is a ciphertext.
fn tell_at(
    alloc: Global,
    most: usize,
    octets: &[u8],
    index: usize,
    item: Item,
    decoding: &mut Decoding,
) -> Result<(), AllocError>
    ensures { OnOk result (step_by (is_cipher item.form) most octets.now index item decoding.old decoding.new) }
{
    if is_cipher(item.form) {
        tell_cipher(alloc, most, index, content_of(octets, item), decoding)
    } else {
        Ok(())
    }
}

/// Goes on behind an item of these octets.
fn go_on(octets: &[u8], item: Item, decoding: &mut Decoding)
    ensures { decoding.new ≡ gone_on octets.now item decoding.old }
{
    decoding.preceding = behind(octets, item, decoding.preceding);
}

/// Appends what the keys make of each ciphertext among the items of these octets.
fn tell_each(
    alloc: Global,
    most: usize,
    octets: &[u8],
    items: &[Item],
    decoding: &mut Decoding,
) -> Result<(), AllocError>
    ensures { OnOk result (decoded most octets.now 0 items.now decoding.old decoding.new) }
{
    let mut rest = items;
    let mut index = 0;
    'items: while let Some((item, others)) = rest.split_first() {
        tell_at(alloc, most, octets, index, *item, decoding)?;
        go_on(octets, *item, decoding);
        index += 1;
        rest = others;
    }
    Ok(())
}

/// What is handed out of the items of these octets, with what the keys make of each ciphertext among them, until there are `most` keys.
pub(crate) fn decoding_of(
    alloc: Global,
    most: usize,
    keys: Vec<Key>,
    octets: &[u8],
    items: &[Item],
) -> Result<Decoding, AllocError>
    ensures { IfOk result (decoded most octets.now 0 items.now (begun keys.items items.now)) }
{
    let mut records = Vec::new(alloc);
    push_records(items, &mut records)?;
    let mut decoding = Decoding {
        keys,
        preceding: start(),
        items: records,
        parts: Vec::new(alloc),
        octets: Vec::new(alloc),
    };
    tell_each(alloc, most, octets, items, &mut decoding)?;
    Ok(decoding)
}

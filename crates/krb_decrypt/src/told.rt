//! What is said of an encrypted part.

ghost use Rattle.std.specs.Prelude.{◌≡◌, IfOk, OnOk};
ghost use Rattle.std.specs.List.{slice_get};
ghost use Rattle.krb_decrypt.specs.Told.{IsLearnedFrom, IsToldPart, learned, left_out, left_out_of, no_encoding_text, not_decrypted, opener_of, part_of, reason_text};
ghost use Rattle.krb_decrypt.specs.Told.{told_held, told_of, told_under};
ghost use Rattle.krb_show.specs.Tokens.{Begins};

use crate::behind::TellsBehind;
use crate::key::Key;
use crate::outcome::{Outcome, Part, Reason};
use crate::preceding::keys_in;
use crate::usage::Usage;
use krb_show::{
    Label, Page, Row, Secrets, Show, ShowsFormats, push_items_with_places, show_number, show_text,
};
use std::alloc::{AllocError, Global};

/// Why a part is not decrypted, in words.
fn reason_text(why: Reason) -> &'static str
    ensures { result.now ≡ reason_text why }
{
    match why {
        Reason::TypeNotSupported => "the encryption type is not supported",
        Reason::NoKeyOfType => "no key of this encryption type",
        Reason::NoKeyFits => "no key of this encryption type opens it",
    }
}

/// That what a part decrypts to is no encoding of what is encrypted for the usage.
fn no_encoding_text(alloc: Global, usage: Usage) -> Result<Vec<u8>, AllocError>
    ensures { IfOk result (λ text. text.items ≡ no_encoding_text usage) }
{
    let mut text = Vec::from_slice(alloc, b"a key opens it, and the octets are no encoding of ")?;
    text.extend_from_slice(usage.type_name().as_bytes())?;
    Ok(text)
}

/// Says why a part is not decrypted.
fn tell_reason(alloc: Global, text: &[u8], page: &mut Page) -> Result<(), AllocError>
    ensures ok { OnOk result (not_decrypted text.now page.old.items page.new.items) }
    ensures kept { OnOk result (Begins page.old.items page.new.items) }
{
    let label = Label::new("not-opened");
    show_text(alloc, &label, text, page)
}

/// Says which key decrypted a part, and for which usage.
#[tactic(auto, using(crate::proofs::Growing::begins_more))]
fn tell_opener(alloc: Global, name: &[u8], usage: Usage, page: &mut Page) -> Result<(), AllocError>
    ensures ok { OnOk result (opener_of name.now usage page.old.items page.new.items) }
    ensures kept { OnOk result (Begins page.old.items page.new.items) }
{
    let opened_by = Label::new("opened-by");
    let key_usage = Label::new("key-usage");
    show_text(alloc, &opened_by, name, page)?;
    show_number(alloc, &key_usage, i64::from(usage.number()), page)
}

/// Appends the items of a part, with their places in what is decrypted.
fn push_part<F: ShowsFormats>(alloc: Global, part: &Part, page: &mut Page) -> Result<(), AllocError>
    ensures ok { OnOk result (part_of F.tells F.places part.now page.old.items page.new.items) }
    ensures kept { OnOk result (Begins page.old.items page.new.items) }
{
    push_items_with_places::<F>(alloc, Secrets::Shown, &part.octets, &part.items, page)
}

/// Says how many keys are left out, if any are.
fn tell_left_out(alloc: Global, count: usize, page: &mut Page) -> Result<(), AllocError>
    ensures ok { OnOk result (left_out_of count page.old.items page.new.items) }
    ensures kept { OnOk result (Begins page.old.items page.new.items) }
{
    if count == 0 {
        return Ok(());
    }
    let label = Label::new("keys-not-tried");
    let number = count as u64;
    Show::<Row>::show(&number, alloc, &label, page)
}

/// Appends keys that were found, up to so many keys. Returned is how many are left out.
fn learn(most: usize, mut found: Vec<Key>, keys: &mut Vec<Key>) -> Result<usize, AllocError>
    ensures { IfOk result (λ count. (count ≡ left_out most found.items keys.old.items) × (keys.new.items ≡ learned most found.items keys.old.items)) }
{
    let room = most.saturating_sub(keys.len());
    let count = found.len().saturating_sub(room);
    found.truncate(room);
    keys.append(&mut found)?;
    Ok(count)
}

/// Appends the items of a part, learns the keys in it, and says how many of these are left out.
#[tactic(auto, using(crate::proofs::Growing::begins_more))]
fn push_and_learn<F: ShowsFormats>(
    alloc: Global,
    most: usize,
    part: &Part,
    keys: &mut Vec<Key>,
    page: &mut Page,
) -> Result<(), AllocError>
    ensures ok { OnOk result (IsLearnedFrom F.tells F.places most part.now keys.old.items page.old.items keys.new.items page.new.items) }
    ensures kept { OnOk result (Begins page.old.items page.new.items) }
{
    let start = page.len();
    push_part::<F>(alloc, part, page)?;
    let (_before, tokens) = page.split_at(start);
    let found = keys_in(alloc, part.type_name, tokens)?;
    let count = learn(most, found, keys)?;
    tell_left_out(alloc, count, page)
}

/// Appends a decrypted part, and what is told behind it.
#[tactic(auto, using(crate::proofs::Growing::begins_more))]
fn push_decrypted<F: ShowsFormats, B: TellsBehind>(
    alloc: Global,
    most: usize,
    behind: &B,
    key: &Key,
    usage: Usage,
    part: &Part,
    keys: &mut Vec<Key>,
    page: &mut Page,
) -> Result<(), AllocError>
    ensures ok { OnOk result (IsToldPart F.tells F.places (B.tells behind.now) most key.now usage part.now keys.old.items page.old.items keys.new.items page.new.items) }
    ensures kept { OnOk result (Begins page.old.items page.new.items) }
{
    tell_opener(alloc, &key.name, usage, page)?;
    push_and_learn::<F>(alloc, most, part, keys, page)?;
    behind.tell(alloc, key, usage, &part.octets, page)
}

/// The key at a place.
fn key_at(alloc: Global, keys: &[Key], index: usize) -> Result<Option<Key>, AllocError>
    ensures { IfOk result (λ found. found ≡ slice_get keys.now index) }
{
    match keys.get(index) {
        Some(key) => Ok(Some(key.copy(alloc)?)),
        None => Ok(None),
    }
}

/// Appends what is said of a part that the key at a place decrypts.
fn push_under<F: ShowsFormats, B: TellsBehind>(
    alloc: Global,
    most: usize,
    behind: &B,
    index: usize,
    usage: Usage,
    part: &Part,
    keys: &mut Vec<Key>,
    page: &mut Page,
) -> Result<(), AllocError>
    ensures ok { OnOk result (told_under F.tells F.places (B.tells behind.now) most (slice_get keys.old.items index) usage part.now keys.old.items page.old.items keys.new.items page.new.items) }
    ensures kept { OnOk result (Begins page.old.items page.new.items) }
{
    match key_at(alloc, keys, index)? {
        Some(key) => push_decrypted::<F, B>(alloc, most, behind, &key, usage, part, keys, page),
        None => Ok(()),
    }
}

/// Appends what is said of what a part decrypts to.
fn push_held<F: ShowsFormats, B: TellsBehind>(
    alloc: Global,
    most: usize,
    behind: &B,
    index: usize,
    usage: Usage,
    held: &Option<Part>,
    keys: &mut Vec<Key>,
    page: &mut Page,
) -> Result<(), AllocError>
    ensures ok { OnOk result (told_held F.tells F.places (B.tells behind.now) most index usage held.now keys.old.items page.old.items keys.new.items page.new.items) }
    ensures kept { OnOk result (Begins page.old.items page.new.items) }
{
    match held {
        Some(part) => { push_under::<F, B>(alloc, most, behind, index, usage, part, keys, page) }
        None => {
            let text = no_encoding_text(alloc, usage)?;
            tell_reason(alloc, &text, page)
        }
    }
}

/// Appends what is said of an outcome under these keys. The keys in what is decrypted are appended to the keys, until there are `most`; those in what
/// stands in the clear are not: whoever sends many such parts would have each of the other parts tried under as many keys.
pub(crate) fn push_outcome<F: ShowsFormats, B: TellsBehind>(
    alloc: Global,
    most: usize,
    behind: &B,
    outcome: &Outcome,
    keys: &mut Vec<Key>,
    page: &mut Page,
) -> Result<(), AllocError>
    ensures ok { OnOk result (told_of F.tells F.places (B.tells behind.now) most outcome.now keys.old.items page.old.items keys.new.items page.new.items) }
    ensures kept { OnOk result (Begins page.old.items page.new.items) }
{
    match outcome {
        Outcome::NotTried => Ok(()),
        Outcome::InClear(part) => push_part::<F>(alloc, part, page),
        Outcome::NotDecrypted(why) => tell_reason(alloc, reason_text(*why).as_bytes(), page),
        Outcome::Decrypted { key, usage, part } => {
            push_held::<F, B>(alloc, most, behind, *key, *usage, part, keys, page)
        }
    }
}

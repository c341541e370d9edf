//! Pages with what keys make of their encrypted parts.

ghost use Rattle.std.specs.Prelude.{◌≡◌, Some, IfOk, OnOk};
ghost use Rattle.std.specs.Option.{option_copied};
ghost use Rattle.krb_decrypt.specs.Pages.{Decrypting, cipher_at, inserted_before, is_decrypted_page, told_at};
ghost use Rattle.krb_decrypt.specs.Preceding.{start};
ghost use Rattle.krb_show.specs.Tokens.{Begins};

use crate::behind::TellsBehind;
use crate::key::Key;
use crate::parts::outcome_of;
use crate::preceding::{Preceding, behind, start};
use crate::told::push_outcome;
use krb_show::{Form, Insert, Page, ShowsFormats, Token, page_with};
use std::alloc::{AllocError, Global};
use std::marker::{Model, PhantomData};

/// What says behind each ciphertext of a page what keys make of it. As a value it is the keys, to which those are appended that are found on the way, how many
/// keys there may be, where the next token stands, and what is told behind decrypted parts.
#[derive(Drop)]
pub struct Decrypting<F, B> {
    keys: Vec<Key>,
    most: usize,
    preceding: Preceding,
    behind: B,
    formats: PhantomData<F>,
}

impl<F, B> Model for Decrypting<F, B> {
    ghost use Rattle.krb_decrypt.specs.Pages.{Decrypting};

    ghost Value = { Decrypting B };

    ghost view = { λ d. record { keys = d.keys.items; most = d.most; preceding = d.preceding; behind = d.behind } };
}

/// The ciphertext that a page ends with.
fn cipher_at(page: &[Token]) -> Option<&[u8]>
    ensures { option_copied result ≡ cipher_at page.now }
{
    let last = page.last()?;
    match last.form() {
        Form::Cipher => Some(last.octets()),
        _ => None,
    }
}

/// Says what the keys make of this ciphertext.
fn tell_at<F: ShowsFormats, B: TellsBehind>(
    alloc: Global,
    most: usize,
    behind: &B,
    preceding: Preceding,
    cipher: &[u8],
    keys: &mut Vec<Key>,
    page: &mut Page,
) -> Result<(), AllocError>
    ensures ok { OnOk result (told_at F.tells F.places (B.tells behind.now) most preceding (Some cipher.now) keys.old.items page.old.items keys.new.items page.new.items) }
    ensures kept { OnOk result (Begins page.old.items page.new.items) }
{
    let outcome = outcome_of(alloc, preceding, cipher, keys.as_slice())?;
    push_outcome::<F, B>(alloc, most, behind, &outcome, keys, page)
}

/// Says it of the ciphertext that the page ends with, if it does.
fn tell_at_end<F: ShowsFormats, B: TellsBehind>(
    alloc: Global,
    most: usize,
    behind: &B,
    preceding: Preceding,
    keys: &mut Vec<Key>,
    page: &mut Page,
) -> Result<(), AllocError>
    ensures ok { OnOk result (told_at F.tells F.places (B.tells behind.now) most preceding (cipher_at page.old.items) keys.old.items page.old.items keys.new.items page.new.items) }
    ensures kept { OnOk result (Begins page.old.items page.new.items) }
{
    let Some(cipher) = cipher_at(page) else {
        return Ok(());
    };
    let cipher = Vec::from_slice(alloc, cipher)?;
    tell_at::<F, B>(alloc, most, behind, preceding, &cipher, keys, page)
}

/// Says it before a token, and goes on behind that.
fn insert_before<F: ShowsFormats, B: TellsBehind>(
    alloc: Global,
    next: &Token,
    decrypting: &mut Decrypting<F, B>,
    page: &mut Page,
) -> Result<(), AllocError>
    ensures ok { OnOk result (inserted_before F.tells F.places B.tells decrypting.old next.now page.old.items decrypting.new page.new.items) }
    ensures kept { OnOk result (Begins page.old.items page.new.items) }
{
    tell_at_end::<F, B>(
        alloc,
        decrypting.most,
        &decrypting.behind,
        decrypting.preceding,
        &mut decrypting.keys,
        page,
    )?;
    decrypting.preceding = behind(next, decrypting.preceding);
    Ok(())
}

impl<F: ShowsFormats, B: TellsBehind> Insert for Decrypting<F, B> {
    ghost inserts = { inserted_before F.tells F.places B.tells };

    fn insert(&mut self, alloc: Global, next: &Token, page: &mut Page) -> Result<(), AllocError> {
        insert_before::<F, B>(alloc, next, self, page)
    }
}

/// The page, and behind each of its ciphertexts what the keys make of it: `opened-by`, `key-usage` and what is encrypted, behind which stands what `behind` tells
/// of it; or `not-opened` and why; nothing without any key. All other tokens stay, in their order.
///
/// A part is tried under the keys that are known there: those given, and behind them those that were found in parts before it, until there are `most` keys.
/// `MOST_FOUND` more than the given ones is a limit that an input by others cannot make costly; how many keys of a part are left out stands behind it as
/// `keys-not-tried`. What is decrypted is not decrypted further. The only error is an allocation failure.
pub fn page_with_decrypted<F: ShowsFormats, B: TellsBehind + Drop>(
    alloc: Global,
    most: usize,
    keys: Vec<Key>,
    behind: B,
    page: Page,
) -> Result<Page, AllocError>
    ensures { IfOk result (λ made. is_decrypted_page F.tells F.places B.tells most behind keys.items page.items made.items) }
{
    let mut decrypting = Decrypting::<F, B> {
        keys,
        most,
        preceding: start(),
        behind,
        formats: PhantomData,
    };
    page_with(alloc, &mut decrypting, page)
}

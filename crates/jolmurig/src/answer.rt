//! What is written for an input.

ghost use Rattle.std.specs.Prelude.{◌≡◌, ◌⊎◌, ◌-◌, ◌++◌, ◌∷◌, [], length, take, IfOk, IfErr};
ghost use Rattle.std.specs.String.{string_bytes};
ghost use Rattle.jolmurig.specs.Answers.{AreKeysFor, ArePrintableLines, chosen, is_placed_for, IsRefused, IsWarned, IsWritten, IsWrittenAs, IsWrittenOf, most_of, output_text, shown_keys, type_line};
ghost use Rattle.jolmurig_command.specs.declared.command.Output.TheVariants as output;
ghost use Rattle.jolmurig.specs.declared.failure.Failure.TheVariants as failure;

use crate::calls::Calls;
use crate::failure::Failure;
use crate::openers::Openers;
use crate::unknown::{is_text, unknown_of};
use jolmurig_command::Output;
use krb_decrypt::{Key, MOST_FOUND, keys_of_passwords, without_keys};
use krb_show::{Page, Token};
use krb_show_any::{
    Kind, PageError, Pages, json_with_places, kind_of_octets, page_with_places,
    page_with_unchecked, page_with_warnings,
};
use krb_show_pac::page_with_contents;
use krb_show_text::{json_of_page, text_of_page, text_of_page_with_places};
use std::alloc::{AllocError, Global};

/// The octets of a text.
fn octets_of(text: String) -> Vec<u8>
    ensures { result.items ≡ string_bytes text }
{
    text.into_bytes()
}

/// The first token of a page, if there is one.
fn first_of(page: &[Token]) -> &[Token]
    ensures { result.now ≡ take 1 page.now }
{
    &page[..page.len().min(1)]
}

/// A text without its last two octets, and a line feed.
fn cut(text: String) -> Result<Vec<u8>, AllocError>
    ensures { IfOk result (λ made. made.items ≡ take (length (string_bytes text) - 2) (string_bytes text) ++ 10 ∷ []) }
{
    let mut line = octets_of(text);
    line.truncate(line.len().saturating_sub(2));
    line.push(b'\n')?;
    Ok(line)
}

/// The first line of a page's text, without the colon at its end.
fn type_line(alloc: Global, page: &[Token]) -> Result<Vec<u8>, AllocError>
    ensures line { IfOk result (λ made. made.items ≡ type_line page.now) }
    ensures printable { IfOk result (λ made. ArePrintableLines made.items) }
{
    let text = text_of_page(alloc, first_of(page))?;
    Ok(cut(text)?)
}

/// The text of a page, in lines.
fn text(alloc: Global, page: &[Token]) -> Result<Vec<u8>, AllocError>
    ensures text { IfOk result (λ made. made.items ≡ output_text output.Text page.now) }
    ensures printable { IfOk result (λ made. ArePrintableLines made.items) }
{
    Ok(octets_of(text_of_page(alloc, page)?))
}

/// A page as JSON, in a line.
fn json(alloc: Global, page: &[Token]) -> Result<Vec<u8>, AllocError>
    ensures json { IfOk result (λ made. made.items ≡ output_text output.Json page.now) }
    ensures printable { IfOk result (λ made. ArePrintableLines made.items) }
{
    Ok(octets_of(json_of_page(alloc, page)?))
}

/// The text of a page with places, in lines.
fn text_with_places(alloc: Global, page: &[Token]) -> Result<Vec<u8>, AllocError>
    ensures text { IfOk result (λ made. made.items ≡ output_text output.TextWithPlaces page.now) }
    ensures printable { IfOk result (λ made. ArePrintableLines made.items) }
{
    Ok(octets_of(text_of_page_with_places(alloc, page)?))
}

/// A page with places as JSON, in a line.
fn placed_json(alloc: Global, page: &[Token]) -> Result<Vec<u8>, AllocError>
    ensures json { IfOk result (λ made. made.items ≡ output_text output.JsonWithPlaces page.now) }
    ensures printable { IfOk result (λ made. ArePrintableLines made.items) }
{
    Ok(octets_of(json_with_places(alloc, page)?))
}

/// What is written of a page.
fn written(alloc: Global, output: Output, page: &[Token]) -> Result<Vec<u8>, AllocError>
    ensures made { IfOk result (λ made. made.items ≡ output_text output page.now) }
    ensures printable { IfOk result (λ made. ArePrintableLines made.items) }
{
    match output {
        Output::Text => text(alloc, page),
        Output::Json => json(alloc, page),
        Output::Type => type_line(alloc, page),
        Output::TextWithPlaces => text_with_places(alloc, page),
        Output::JsonWithPlaces => placed_json(alloc, page),
    }
}

/// The kind of octets: the one that is asked for, or that which they begin as, where they are not text.
fn chosen(kind: Option<Kind>, octets: &[u8]) -> Option<Kind>
    ensures { result ≡ chosen kind octets.now }
{
    if kind.is_none() && is_text(octets) {
        return None;
    }
    match kind {
        Some(kind) => Some(kind),
        None => kind_of_octets(octets),
    }
}

/// A page with the octets of its keys, or without.
fn kept(alloc: Global, shows_keys: bool, page: Page) -> Result<Page, AllocError>
    ensures { IfOk result (λ made. made.items ≡ shown_keys shows_keys page.items) }
{
    if shows_keys {
        Ok(page)
    } else {
        without_keys(alloc, page)
    }
}

/// The keys, and behind them those that the passwords give with the salts of a page.
fn keys_for(alloc: Global, openers: Openers, page: &[Token]) -> Result<Vec<Key>, AllocError>
    ensures { IfOk result (λ keys. AreKeysFor openers page.now keys.items) }
{
    let Openers {
        keys,
        passwords,
        tries_all: _,
    } = openers;
    let mut all = keys;
    let mut more = keys_of_passwords(alloc, &passwords, page)?;
    all.append(&mut more)?;
    Ok(all)
}

/// How many keys there may be, with those that are found in what is opened.
fn most_of(tries_all: bool, keys: &[Key]) -> usize
    ensures { result ≡ most_of tries_all keys.now }
{
    if tries_all {
        usize::MAX
    } else {
        keys.len() + MOST_FOUND
    }
}

/// What is written of a page: what the keys open in it is shown in its place, so is what the buffers of PACs hold, and of a PAC that
/// nobody checks it is said that nobody does.
fn written_opened<C: Calls>(
    alloc: Global,
    output: Output,
    shows_keys: bool,
    openers: Openers,
    page: Page,
) -> Result<Vec<u8>, AllocError>
    ensures made { IfOk result (λ made. IsWrittenOf C.opens openers page.items output shows_keys made.items) }
    ensures printable { IfOk result (λ made. ArePrintableLines made.items) }
{
    let tries_all = openers.tries_all;
    let keys = keys_for(alloc, openers, &page)?;
    let opened = C::opened(alloc, most_of(tries_all, &keys), keys, page)?;
    let told = page_with_unchecked(alloc, opened)?;
    let detailed = page_with_contents(alloc, told)?;
    let page = kept(alloc, shows_keys, detailed)?;
    written(alloc, output, &page)
}

/// The page of octets of a kind, with the places of its elements where they are written.
fn placed_for(
    alloc: Global,
    output: Output,
    kind: Kind,
    octets: &[u8],
    page: Page,
) -> Result<Page, AllocError>
    ensures { IfOk result (λ made. is_placed_for output kind octets.now page.items made.items) }
{
    match output {
        Output::TextWithPlaces | Output::JsonWithPlaces => {
            page_with_places(alloc, kind, octets, page)
        }
        Output::Text | Output::Json | Output::Type => Ok(page),
    }
}

/// The page of octets of a kind, and behind it a warning for each item in the octets that breaks a rule of its standard.
fn warned<C: Calls>(
    alloc: Global,
    kind: Kind,
    octets: &[u8],
    page: Page,
) -> Result<Page, AllocError>
    ensures { IfOk result (λ made. IsWarned C.breaks kind octets.now page.items made.items) }
{
    let broken = C::broken(alloc, kind, octets)?;
    page_with_warnings(alloc, &broken, page)
}

/// What is written of the page of octets of a kind.
fn written_as<C: Calls>(
    alloc: Global,
    kind: Kind,
    output: Output,
    shows_keys: bool,
    openers: Openers,
    octets: &[u8],
    page: Page,
) -> Result<Vec<u8>, AllocError>
    ensures made { IfOk result (λ made. IsWrittenAs C.breaks C.opens openers kind octets.now page.items output shows_keys made.items) }
    ensures printable { IfOk result (λ made. ArePrintableLines made.items) }
{
    let placed = placed_for(alloc, output, kind, octets, page)?;
    let warned = warned::<C>(alloc, kind, octets, placed)?;
    written_opened::<C>(alloc, output, shows_keys, openers, warned)
}

/// What is written for octets.
pub fn shown<S: Pages<Kind, PageError>, C: Calls>(
    alloc: Global,
    kind: Option<Kind>,
    output: Output,
    shows_keys: bool,
    openers: Openers,
    octets: &[u8],
) -> Result<Vec<u8>, Failure<'static>>
    ensures found { IfOk result (λ made. IsWritten S.tells C.opens C.breaks kind output shows_keys openers octets.now made.items) }
    ensures printable { IfOk result (λ made. ArePrintableLines made.items) }
    ensures rejected { IfErr result (λ e. (e ≡ failure.Memory) ⊎ IsRefused S.tells C.opens C.places kind octets.now e) }
{
    let Some(kind) = chosen(kind, octets) else {
        return Err(Failure::UnknownKind(unknown_of(octets)));
    };
    match S::page_of(alloc, kind, octets) {
        Ok(page) => Ok(written_as::<C>(alloc, kind, output, shows_keys, openers, octets, page)?),
        Err(PageError::OutOfMemory) => Err(Failure::Memory),
        Err(why) => {
            let place = C::place_of(alloc, kind, &why, octets)?;
            Err(Failure::Octets { kind, why, place })
        }
    }
}

//! Octets as text and as JSON, by the types of the standards.

ghost use Rattle.std.specs.Prelude.{◌≡◌, IfOk, MatchResult, OnOk};
ghost use Rattle.krb_c_calls.specs.Handing.{IsAnswered};
ghost use Rattle.krb_c_calls.specs.Shown.{AreTokensOf, ArePrintable, IsShown, IsShownAs, RefusesShowing, secrets_of, written_of};
ghost use Rattle.krb_c_calls.specs.Statuses.{refusal_status};

use crate::call_error::CallError;
use crate::handing::hand_out;
use crate::items::walks::walked;
use krb_schema::Item;
use krb_show::{NoFormats, Page, Secrets, Token, push_items};
use krb_show_text::{json_of_page, text_of_page};
use std::alloc::{AllocError, Global};

/// Whether the octets of keys and of passwords are shown.
fn secrets_of(shows_secrets: bool) -> Secrets
    ensures { result ≡ secrets_of shows_secrets }
{
    if shows_secrets {
        Secrets::Shown
    } else {
        Secrets::Hidden
    }
}

/// The text of a page, or its JSON and a line feed.
fn written(alloc: Global, is_json: bool, page: &[Token]) -> Result<Vec<u8>, AllocError>
    ensures text { IfOk result (λ text. text.items ≡ written_of is_json page.now) }
    ensures printable { OnOk result (ArePrintable is_json page.now) }
{
    let text = if is_json {
        json_of_page(alloc, page)?
    } else {
        text_of_page(alloc, page)?
    };
    Ok(text.into_bytes())
}

/// The page of items of these octets.
fn page_of(
    alloc: Global,
    secrets: Secrets,
    octets: &[u8],
    items: &[Item],
) -> Result<Page, AllocError>
    ensures { IfOk result (λ page. AreTokensOf secrets octets.now items.now page.items) }
{
    let mut page = Vec::new(alloc);
    push_items::<NoFormats>(alloc, secrets, octets, items, &mut page)?;
    Ok(page)
}

/// The text of items of these octets.
fn text_of(
    alloc: Global,
    is_json: bool,
    secrets: Secrets,
    octets: &[u8],
    items: &[Item],
) -> Result<Vec<u8>, AllocError>
    ensures { IfOk result (λ text. IsShownAs is_json secrets octets.now items.now text.items) }
{
    let page = page_of(alloc, secrets, octets, items)?;
    written(alloc, is_json, &page)
}

/// What `show` hands out, or why it refuses.
fn shown(
    alloc: Global,
    type_name: &[u8],
    octets: &[u8],
    is_json: bool,
    secrets: Secrets,
) -> Result<Vec<u8>, CallError>
    ensures { MatchResult result (λ text. IsShown is_json secrets type_name.now octets.now text.items)
        (λ e. RefusesShowing type_name.now octets.now (refusal_status e)) }
{
    let items = match walked(alloc, type_name, octets) {
        Ok(items) => items,
        Err(refused) => return Err(refused.refusal),
    };
    Ok(text_of(alloc, is_json, secrets, octets, &items)?)
}

/// Octets that `items` takes as text: a line for each value, two blanks further in for each struct and list that it stands in; or as JSON on one line. All of
/// it is printable ASCII. Octets that hold no element of DER stay octets, as a PAC. Where secrets are not shown, the word `hidden` stands in their place.
///
/// Status 0 where the text is handed out, 1 where it has more octets than `out`; else what `items` answers to such octets.
pub fn show(
    alloc: Global,
    type_name: &[u8],
    octets: &[u8],
    is_json: bool,
    shows_secrets: bool,
    out: &mut [u8],
    size: &mut usize,
) -> u32
    ensures { IsAnswered (IsShown is_json (secrets_of shows_secrets) type_name.now octets.now) (RefusesShowing type_name.now octets.now)
        out.old out.new size.new result }
{
    let secrets = secrets_of(shows_secrets);
    hand_out(
        &shown(alloc, type_name, octets, is_json, secrets),
        out,
        size,
    )
}

//! The page of octets of any kind, with what keys open in it, as text and as JSON.

ghost use Rattle.std.specs.Prelude.{◌≡◌, IfOk, MatchResult};
ghost use Rattle.krb_c_calls.specs.Handing.{IsAnswered};
ghost use Rattle.krb_c_calls.specs.Statuses.{refusal_status};
ghost use Rattle.krb_c_pages.specs.Pages.{IsPageText, RefusesPage, written_in};

use crate::opened::Opens;
use crate::shown::page_shown;
use krb_c_calls::CallError;
use krb_c_calls::handing::hand_out;
use krb_show::Token;
use krb_show_any::{Kind, PageError, Pages, json_with_places};
use krb_show_text::{json_of_page, text_of_page, text_of_page_with_places};
use std::alloc::{AllocError, Global};

/// How a page is written: as text or as JSON, with the places of its values or without.
#[derive(Clone, Copy, PartialEq, Eq)]
pub struct Style {
    /// As JSON, and not as text.
    pub is_json: bool,
    /// With the places of its values.
    pub has_places: bool,
}

/// The text of a page, or its JSON and a line feed.
fn written(alloc: Global, style: Style, page: &[Token]) -> Result<Vec<u8>, AllocError>
    ensures { IfOk result (λ text. text.items ≡ written_in style page.now) }
{
    let text = match (style.has_places, style.is_json) {
        (false, false) => text_of_page(alloc, page)?,
        (false, true) => json_of_page(alloc, page)?,
        (true, false) => text_of_page_with_places(alloc, page)?,
        (true, true) => json_with_places(alloc, page)?,
    };
    Ok(text.into_bytes())
}

/// What `show_page` hands out, or why it refuses.
fn text_shown<S: Pages<Kind, PageError>, O: Opens>(
    alloc: Global,
    name: &[u8],
    octets: &[u8],
    keytab: &[u8],
    style: Style,
    shows_keys: bool,
) -> Result<Vec<u8>, CallError>
    ensures { MatchResult result (λ text. IsPageText S.tells O.opens style shows_keys name.now octets.now keytab.now text.items)
        (λ e. RefusesPage S.tells name.now octets.now keytab.now (refusal_status e)) }
{
    let page = page_shown::<S, O>(alloc, name, octets, keytab, style.has_places, shows_keys)?;
    Ok(written(alloc, style, &page)?)
}

/// What `jolmurig show` writes of octets of the kind of this name (a type, or `token`, `PAC`, `NEGOEX`, `password-frame`, `keytab`, `ccache`, `tree`; without a name
/// the kind that they begin as): the page, with what the keys of the keytab open in it, what is known of the checksums of PACs and what their buffers hold. Keys and
/// passwords are hidden, unless they are shown. The style says whether it is text or JSON, and whether the places of values stand in it.
///
/// Status 0 where the text is handed out, 1 where it has more octets than `out`; 3 where no kind has the name, or without one where they begin as none;
/// 23 where the keytab is none; else why they are of the kind none; 2 where an allocation failed.
pub fn show_page<S: Pages<Kind, PageError>, O: Opens>(
    alloc: Global,
    name: &[u8],
    octets: &[u8],
    keytab: &[u8],
    style: Style,
    shows_keys: bool,
    out: &mut [u8],
    size: &mut usize,
) -> u32
    ensures { IsAnswered (IsPageText S.tells O.opens style shows_keys name.now octets.now keytab.now) (RefusesPage S.tells name.now octets.now keytab.now)
        out.old out.new size.new result }
{
    hand_out(
        &text_shown::<S, O>(alloc, name, octets, keytab, style, shows_keys),
        out,
        size,
    )
}

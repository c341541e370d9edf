//! The page of octets of any kind, with what keys open in it, as it is handed out.

ghost use Rattle.std.specs.Prelude.{◌≡◌, IfOk, MatchOption, MatchResult};
ghost use Rattle.krb_c_calls.specs.Statuses.{refusal_status};
ghost use Rattle.krb_c_pages.specs.Pages.{IsKind, IsNoKind, IsPage, IsPageOfKind, IsShownPage, RefusesPage, is_placed_for, shown_keys};

use crate::keys::keys_of;
use crate::opened::Opens;
use crate::refusal::page_refusal;
use krb_c_calls::CallError;
use krb_decrypt::{Key, MOST_FOUND, without_keys};
use krb_show::Page;
use krb_show_any::{Kind, PageError, Pages, kind_of_name, kind_of_octets, page_with_places};
use krb_show_pac::page_with_contents;
use std::alloc::{AllocError, Global};

/// The kind of this name; without a name, the one that the octets begin as.
fn kind_of(name: &[u8], octets: &[u8]) -> Option<Kind>
    ensures { MatchOption result (IsNoKind name.now octets.now) (IsKind name.now octets.now) }
{
    if name.is_empty() {
        return kind_of_octets(octets);
    }
    match str::from_utf8(name) {
        Ok(name) => kind_of_name(name),
        Err(_) => None,
    }
}

/// The page of octets of a kind, with the places of its values where they are wanted.
fn placed(
    alloc: Global,
    has_places: bool,
    kind: Kind,
    octets: &[u8],
    page: Page,
) -> Result<Page, AllocError>
    ensures { IfOk result (λ made. is_placed_for has_places kind octets.now page.items made.items) }
{
    if has_places {
        page_with_places(alloc, kind, octets, page)
    } else {
        Ok(page)
    }
}

/// A page with the octets of its keys, or without.
fn kept(alloc: Global, shows_keys: bool, page: Page) -> Result<Page, AllocError>
    ensures { IfOk result (λ made. made.items ≡ shown_keys shows_keys page.items) }
{
    if shows_keys {
        Ok(page)
    } else {
        without_keys(alloc, page)
    }
}

/// A page with what the keys open in it, and with what the buffers of PACs hold.
fn opened<O: Opens>(
    alloc: Global,
    shows_keys: bool,
    keys: Vec<Key>,
    page: Page,
) -> Result<Page, AllocError>
    ensures { IfOk result (λ made. IsShownPage O.opens shows_keys keys.items page.items made.items) }
{
    let most = keys.len() + MOST_FOUND;
    let opened = O::opened(alloc, most, keys, page)?;
    let detailed = page_with_contents(alloc, opened)?;
    kept(alloc, shows_keys, detailed)
}

/// What is handed out of the page of octets of a kind.
fn page_of_kind<O: Opens>(
    alloc: Global,
    has_places: bool,
    shows_keys: bool,
    keys: Vec<Key>,
    kind: Kind,
    octets: &[u8],
    page: Page,
) -> Result<Page, AllocError>
    ensures { IfOk result (λ made. IsPageOfKind O.opens has_places shows_keys keys.items kind octets.now page.items made.items) }
{
    let placed = placed(alloc, has_places, kind, octets, page)?;
    opened::<O>(alloc, shows_keys, keys, placed)
}

/// The page of octets of the kind of this name, or of the one that they begin as, with what the keys
/// of the keytab open in it and what the buffers of PACs hold; or why there is none.
pub(crate) fn page_shown<S: Pages<Kind, PageError>, O: Opens>(
    alloc: Global,
    name: &[u8],
    octets: &[u8],
    keytab: &[u8],
    has_places: bool,
    shows_keys: bool,
) -> Result<Page, CallError>
    ensures { MatchResult result (λ page. IsPage S.tells O.opens has_places shows_keys name.now octets.now keytab.now page.items)
        (λ e. RefusesPage S.tells name.now octets.now keytab.now (refusal_status e)) }
{
    let Some(kind) = kind_of(name, octets) else {
        return Err(CallError::Number);
    };
    let keys = keys_of(alloc, keytab)?;
    match S::page_of(alloc, kind, octets) {
        Ok(page) => Ok(page_of_kind::<O>(alloc, has_places, shows_keys, keys, kind, octets, page)?),
        Err(error) => Err(page_refusal(&error)),
    }
}

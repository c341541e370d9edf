//! The call.

ghost use Rattle.std.specs.Prelude.{◌≡◌, ◌≤◌, ◌++◌, MatchResult, length, drop};
ghost use Rattle.krb_c_calls.specs.Statuses.{refusal_status};
ghost use Rattle.krb_c_pages.specs.Listed.{ArePut, IsListed, IsListedAnswer, counts_of, room};
ghost use Rattle.krb_c_pages.specs.Pages.{RefusesPage};

use crate::listed::listing::{Listing, listing_of};
use crate::listed::record::{ListedCounts, PageItemRecord};
use crate::opened::Opens;
use crate::put::fill;
use crate::shown::page_shown;
use krb_c_calls::{CallError, DONE, ROOM};
use krb_show_any::{Kind, PageError, Pages};
use std::alloc::Global;

/// What `list_page` hands out, or why it refuses.
fn listed<S: Pages<Kind, PageError>, O: Opens>(
    alloc: Global,
    name: &[u8],
    octets: &[u8],
    keytab: &[u8],
    shows_keys: bool,
) -> Result<Listing, CallError>
    ensures { MatchResult result (IsListed S.tells O.opens shows_keys name.now octets.now keytab.now)
        (λ e. RefusesPage S.tells name.now octets.now keytab.now (refusal_status e)) }
{
    let page = page_shown::<S, O>(alloc, name, octets, keytab, true, shows_keys)?;
    Ok(listing_of(alloc, &page)?)
}

/// How much is handed out.
fn counts_of(listing: &Listing) -> ListedCounts
    ensures { result ≡ counts_of listing.now }
{
    ListedCounts {
        items: listing.items().len(),
        octets: listing.octets().len(),
    }
}

/// Puts what is handed out to the front of the caller's arrays, if there is room in both.
fn put_listing(
    listing: &Listing,
    items: &mut [PageItemRecord],
    out: &mut [u8],
    told: &mut ListedCounts,
) -> u32
    ensures { ArePut listing.now (room items.old out.old) (room items.new out.new) told.new result }
{
    let counts = counts_of(listing);
    *told = counts;
    if counts.items > items.len() || counts.octets > out.len() {
        return ROOM;
    }
    fill(listing.items(), items);
    fill(listing.octets(), out);
    DONE
}

/// What `show_page` writes of octets with the places of their values, as records: one for each value, and for each begin and end of a struct and of a list, in
/// their order. The names, the values and the names of their numbers stand in `out`.
///
/// Status 0 where all is at the front of `items` and `out`, and `told` says how many they are; 1 where one of these has too little room: then both are
/// as they were, and `told` says how many they would be. Else they are as they were, and all in `told` is 0: 3 where no kind has the name, or without one where
/// they begin as none; 23 where the keytab is none; else why they are of the kind none; 2 where an allocation failed.
pub fn list_page<S: Pages<Kind, PageError>, O: Opens>(
    alloc: Global,
    name: &[u8],
    octets: &[u8],
    keytab: &[u8],
    shows_keys: bool,
    items: &mut [PageItemRecord],
    out: &mut [u8],
    told: &mut ListedCounts,
) -> u32
    ensures { IsListedAnswer S.tells O.opens shows_keys name.now octets.now keytab.now (room items.old out.old)
        (room items.new out.new) told.new result }
{
    match listed::<S, O>(alloc, name, octets, keytab, shows_keys) {
        Ok(listing) => put_listing(&listing, items, out, told),
        Err(refusal) => {
            *told = ListedCounts {
                items: 0,
                octets: 0,
            };
            refusal.status()
        }
    }
}

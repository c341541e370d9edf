//! The records of a page.

ghost use Rattle.std.specs.Prelude.{◌≡◌, ◌+◌, ◌++◌, [], ◌∷◌, IfOk, OnOk, length};
ghost use Rattle.krb_c_pages.specs.Listed.{Listing, listing_of, octets_of, record_at};

use crate::listed::record::{PageItemRecord, flag, form_number, number_of, place_of};
use krb_c_calls::items::{registry_number, role_number};
use krb_show::Token;
use std::alloc::{AllocError, Global};
use std::marker::Model;

/// What is handed out of a page: records, and the octets that they tell of. As a value it is these.
#[derive(Drop)]
pub(crate) struct Listing {
    items: Vec<PageItemRecord>,
    octets: Vec<u8>,
}

impl Model for Listing {
    ghost use Rattle.krb_c_pages.specs.Listed.{Listing};

    ghost Value = { Listing };

    ghost view = { λ l. record { items = l.items.items; octets = l.octets.items } };
}

impl Listing {
    /// The records.
    pub(crate) fn items(&self) -> &[PageItemRecord]
        ensures { result.now ≡ self.now.items }
    {
        self.items.as_slice()
    }

    /// The octets.
    pub(crate) fn octets(&self) -> &[u8]
        ensures { result.now ≡ self.now.octets }
    {
        self.octets.as_slice()
    }
}

/// The record of a token whose name, value and note stand behind so many octets.
fn record_of(
    name_offset: usize,
    value_offset: usize,
    note_offset: usize,
    token: &Token,
) -> PageItemRecord
    requires value { value_offset ≡ name_offset + length token.now.label.text }
    requires note { note_offset ≡ value_offset + length token.now.octets }
    ensures { result ≡ record_at name_offset token.now }
{
    let (has_place, place) = place_of(token.place());
    let (has_number, number) = number_of(token.number());
    PageItemRecord {
        offset: place.offset,
        size: place.size,
        name_offset,
        name_size: token.text().len(),
        value_offset,
        value_size: token.octets().len(),
        note_offset,
        note_size: token.note().len(),
        number,
        form: form_number(token.form()),
        is_item: flag(token.is_item()),
        has_place,
        has_number,
        registry: registry_number(token.kind()),
        role: role_number(token.role()),
    }
}

/// Appends the record of a token, and its octets.
fn push_token(token: &Token, listing: &mut Listing) -> Result<(), AllocError>
    ensures items { OnOk result (listing.new.items ≡ listing.old.items ++ record_at (length listing.old.octets) token.now ∷ []) }
    ensures octets { OnOk result (listing.new.octets ≡ listing.old.octets ++ octets_of token.now) }
{
    let name_offset = listing.octets.len();
    listing.octets.extend_from_slice(token.text())?;
    let value_offset = listing.octets.len();
    listing.octets.extend_from_slice(token.octets())?;
    let note_offset = listing.octets.len();
    listing.octets.extend_from_slice(token.note())?;
    listing
        .items
        .push(record_of(name_offset, value_offset, note_offset, token))?;
    Ok(())
}

/// What is handed out of a page.
pub(crate) fn listing_of(alloc: Global, page: &[Token]) -> Result<Listing, AllocError>
    ensures { IfOk result (λ listing. listing ≡ listing_of page.now) }
{
    let mut listing = Listing {
        items: Vec::with_capacity(alloc, page.len())?,
        octets: Vec::new(alloc),
    };
    let mut rest = page;
    'tokens: while let Some((token, others)) = rest.split_first() {
        push_token(token, &mut listing)?;
        rest = others;
    }
    Ok(listing)
}

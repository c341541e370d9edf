//! A message behind its length (MS-KKDCP, 2.2.2; RFC 4120, 7.2.2).

ghost use Rattle.std.specs.Prelude.{◌≡◌, ◌-◌, ◌≤◌, None, Some, codes, length, drop, MatchBool, MatchOption, OnErr, OnOk};
ghost use Rattle.krb_schema.specs.declared.item.Item.{Item};
ghost use Rattle.krb_show.specs.Leaves.{number_of};
ghost use Rattle.krb_show.specs.Pages.{struct_of};
ghost use Rattle.krb_show.specs.Tokens.{Begins, plain};
ghost use Rattle.krb_show_messages.specs.Formats.{no_formats};
ghost use Rattle.krb_show_messages.specs.Prefixed.{IsPrefixed, by_message_row, length_and_items, message_row, prefixed_of};
ghost use Rattle.krb_show.specs.Items.{shown, start};
ghost use Rattle.krb_show.specs.declared.rows.stand.Secrets.TheVariants as secrets;

mod places;

pub(crate) use crate::prefixed::places::places_of_prefixed;
use byteorder::{BigEndian, ByteOrder};
use krb_schema::Item;
use krb_show::{
    Label, NoFormats, Page, Secrets, ShowFields, Walk, push_items, show_number, show_octets,
    show_struct, walk_named,
};
use std::alloc::{AllocError, Global};

/// Whether the first four octets are the number of those behind them.
fn is_prefixed(octets: &[u8]) -> bool
    ensures { MatchBool result (IsPrefixed octets.now) (IsPrefixed octets.now → ⊥) }
{
    octets.len() >= 4 && BigEndian::read_u32(octets) as usize == octets.len() - 4
}

/// What stands behind the length.
fn behind_length(octets: &[u8]) -> &[u8]
    requires { 4 ≤ length octets.now }
    ensures { result.now ≡ drop 4 octets.now }
{
    &octets[4..]
}

/// The row of a message to a KDC or of one, by its first octet (RFC 4120, 5.10).
fn message_row(message: &[u8]) -> Option<&'static str>
    ensures { MatchOption result (message_row message.now ≡ None) (λ row. message_row message.now ≡ Some row.now) }
{
    match message {
        [0x6a, ..] => Some("AS-REQ"),
        [0x6b, ..] => Some("AS-REP"),
        [0x6c, ..] => Some("TGS-REQ"),
        [0x6d, ..] => Some("TGS-REP"),
        [0x7e, ..] => Some("KRB-ERROR"),
        _ => None,
    }
}

/// The length of a message, lent for showing.
#[derive(Drop)]
struct Length {
    octets: i64,
}

impl ShowFields for Length {
    ghost shows = { λ f. number_of (plain (codes "length")) f.octets };

    fn show_fields(&self, alloc: Global, page: &mut Page) -> Result<(), AllocError> {
        show_number(alloc, &Label::new("length"), self.octets, page)
    }
}

/// The items of a message, lent for showing.
#[derive(Drop)]
struct Items<'a> {
    message: &'a [u8],
    items: &'a [Item],
}

impl<'a> ShowFields for Items<'a> {
    ghost shows = { λ f. shown no_formats f.message.now f.items.now (start secrets.Shown) };

    fn show_fields(&self, alloc: Global, page: &mut Page) -> Result<(), AllocError> {
        push_items::<NoFormats>(alloc, Secrets::Shown, self.message, self.items, page)
    }
}

/// Appends a message of so many octets and of these items, behind its length.
fn show_items(
    alloc: Global,
    label: &Label,
    count: u32,
    message: &[u8],
    items: &[Item],
    page: &mut Page,
) -> Result<(), AllocError>
    requires { count ≡ length message.now }
    ensures ok { OnOk result (struct_of label.now (length_and_items no_formats message.now items.now) page.old.items page.new.items) }
    ensures kept { OnOk result (Begins page.old.items page.new.items) }
    ensures err { OnErr result (page.new.items ≡ page.old.items) }
{
    let length = Length {
        octets: i64::from(count),
    };
    show_struct(alloc, label, &(length, Items { message, items }), page)
}

/// Appends octets behind whose length a message of this row stands, if one does.
fn show_by_message_row(
    alloc: Global,
    row: &'static str,
    label: &Label,
    octets: &[u8],
    page: &mut Page,
) -> Result<(), AllocError>
    requires { IsPrefixed octets.now }
    ensures ok { OnOk result (by_message_row no_formats (Some row.now) label.now octets.now page.old.items page.new.items) }
    ensures kept { OnOk result (Begins page.old.items page.new.items) }
    ensures err { OnErr result (page.new.items ≡ page.old.items) }
{
    let message = behind_length(octets);
    match walk_named(alloc, row, row, message)? {
        Walk::Items(items) => {
            let count = BigEndian::read_u32(octets);
            show_items(alloc, label, count, message, &items, page)
        }
        Walk::NoRow | Walk::Fault(_) => show_octets(alloc, label, octets, page),
    }
}

/// Appends octets behind whose length octets stand, by the row that the first of these tells.
fn show_behind_length(
    alloc: Global,
    label: &Label,
    octets: &[u8],
    page: &mut Page,
) -> Result<(), AllocError>
    requires { IsPrefixed octets.now }
    ensures ok { OnOk result (by_message_row no_formats (message_row (drop 4 octets.now)) label.now octets.now page.old.items page.new.items) }
    ensures kept { OnOk result (Begins page.old.items page.new.items) }
    ensures err { OnErr result (page.new.items ≡ page.old.items) }
{
    match message_row(behind_length(octets)) {
        Some(row) => show_by_message_row(alloc, row, label, octets, page),
        None => show_octets(alloc, label, octets, page),
    }
}

/// Appends octets: behind their length a message of a KDC or to it (AS-REQ, AS-REP, TGS-REQ, TGS-REP, KRB-ERROR) by its row, and others as
/// octets.
pub(crate) fn show_prefixed(
    alloc: Global,
    label: &Label,
    octets: &[u8],
    page: &mut Page,
) -> Result<(), AllocError>
    ensures ok { OnOk result (prefixed_of no_formats label.now octets.now page.old.items page.new.items) }
    ensures kept { OnOk result (Begins page.old.items page.new.items) }
    ensures err { OnErr result (page.new.items ≡ page.old.items) }
{
    if is_prefixed(octets) {
        return show_behind_length(alloc, label, octets, page);
    }
    show_octets(alloc, label, octets, page)
}

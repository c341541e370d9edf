//! Items of octets, and octets for people, for C. `krb.h` declares these calls.

ghost use Rattle.std.specs.Prelude.{true, false};
ghost use Rattle.krb_c_calls.specs.Handing.{IsAnswered};
ghost use Rattle.krb_c_calls.specs.Items.{IsItemAnswer, IsItemNumber, IsItemsAnswer, IsNameOf, IsNumberName, RefusesName, RefusesNumberName};
ghost use Rattle.krb_c_calls.specs.Shown.{IsShown, RefusesShowing, secrets_of};
ghost use Rattle.krb_c_pages.specs.Decoded.{IsDecodedAnswer, arrays};
ghost use Rattle.krb_c_pages.specs.Listed.{IsListedAnswer, room};
ghost use Rattle.krb_c_pages.specs.Pages.{IsPageText, RefusesPage, style_of};

use krb_c_calls::items::ItemRecord;
use krb_c_pages::{
    DecodedCounts, ListedCounts, Opened, Opens, PageItemRecord, PartRecord, Style, decode,
    list_page, show_page,
};
use krb_show_any::{Everything, Kind, PageError, Pages};
use std::alloc::Global;

/// `krb_items` of `krb.h`: all items of octets that are an element of a type (RFC 4120 and others).
#[unsafe(no_mangle)]
pub extern "C" fn krb_items(
    alloc: Global,
    type_name: &[u8],
    octets: &[u8],
    items: &mut [ItemRecord],
    count: &mut usize,
    offset: &mut usize,
) -> u32
    ensures { IsItemsAnswer type_name.now octets.now items.old items.new count.new offset.new result }
{
    krb_c_calls::items::items(alloc, type_name, octets, items, count, offset)
}

/// `krb_decode` of `krb.h`: these items, with what the keys of a keytab open in them.
#[unsafe(no_mangle)]
pub extern "C" fn krb_decode(
    alloc: Global,
    type_name: &[u8],
    octets: &[u8],
    keytab: &[u8],
    items: &mut [ItemRecord],
    parts: &mut [PartRecord],
    out: &mut [u8],
    decoded: &mut DecodedCounts,
) -> u32
    ensures { IsDecodedAnswer type_name.now octets.now keytab.now (arrays items.old parts.old out.old)
        (arrays items.new parts.new out.new) decoded.new result }
{
    decode(alloc, type_name, octets, keytab, items, parts, out, decoded)
}

/// `krb_item_name` of `krb.h`: the name that items of this number have.
#[unsafe(no_mangle)]
pub extern "C" fn krb_item_name(number: u32, out: &mut [u8], size: &mut usize) -> u32
    ensures { IsAnswered (IsNameOf number) (RefusesName number) out.old out.new size.new result }
{
    krb_c_calls::items::item_name(number, out, size)
}

/// `krb_number_name` of `krb.h`: the name of a number, or of a flag, of a registry.
#[unsafe(no_mangle)]
pub extern "C" fn krb_number_name(
    registry: i32,
    number: i64,
    out: &mut [u8],
    size: &mut usize,
) -> u32
    ensures { IsAnswered (IsNumberName registry number) (RefusesNumberName registry number) out.old out.new size.new result }
{
    krb_c_calls::items::number_name(registry, number, out, size)
}

/// `krb_find` of `krb.h`: the item of octets that a path leads to.
#[unsafe(no_mangle)]
pub extern "C" fn krb_find(
    alloc: Global,
    type_name: &[u8],
    path: &[u8],
    octets: &[u8],
    item: &mut ItemRecord,
) -> u32
    ensures { IsItemAnswer type_name.now path.now octets.now item.new result }
{
    krb_c_calls::items::find(alloc, type_name, path, octets, item)
}

/// `krb_find_number` of `krb.h`: the number of the item of octets that a path leads to.
#[unsafe(no_mangle)]
pub extern "C" fn krb_find_number(
    alloc: Global,
    type_name: &[u8],
    path: &[u8],
    octets: &[u8],
    number: &mut i64,
) -> u32
    ensures { IsItemNumber type_name.now path.now octets.now number.new result }
{
    krb_c_calls::items::find_number(alloc, type_name, path, octets, number)
}

/// `krb_show` of `krb.h`: what octets are as text or as JSON.
#[unsafe(no_mangle)]
pub extern "C" fn krb_show(
    alloc: Global,
    type_name: &[u8],
    octets: &[u8],
    is_json: bool,
    shows_secrets: bool,
    out: &mut [u8],
    size: &mut usize,
) -> u32
    ensures { IsAnswered (IsShown is_json (secrets_of shows_secrets) type_name.now octets.now) (RefusesShowing type_name.now octets.now)
        out.old out.new size.new result }
{
    krb_c_calls::items::show(alloc, type_name, octets, is_json, shows_secrets, out, size)
}

/// `krb_show_page` of `krb.h`: what `jolmurig show` writes of octets of any kind.
#[unsafe(no_mangle)]
pub extern "C" fn krb_show_page(
    alloc: Global,
    name: &[u8],
    octets: &[u8],
    keytab: &[u8],
    is_json: bool,
    shows_keys: bool,
    out: &mut [u8],
    size: &mut usize,
) -> u32
    ensures { IsAnswered (IsPageText ⟦<Everything as Pages<Kind, PageError>>⟧.tells ⟦<Opened as Opens>⟧.opens (style_of is_json false) shows_keys
        name.now octets.now keytab.now)
        (RefusesPage ⟦<Everything as Pages<Kind, PageError>>⟧.tells name.now octets.now keytab.now) out.old out.new size.new result }
{
    let style = Style {
        is_json,
        has_places: false,
    };
    show_page::<Everything, Opened>(alloc, name, octets, keytab, style, shows_keys, out, size)
}

/// `krb_show_placed_page` of `krb.h`: what `jolmurig show --places` writes of octets of any kind.
#[unsafe(no_mangle)]
pub extern "C" fn krb_show_placed_page(
    alloc: Global,
    name: &[u8],
    octets: &[u8],
    keytab: &[u8],
    is_json: bool,
    shows_keys: bool,
    out: &mut [u8],
    size: &mut usize,
) -> u32
    ensures { IsAnswered (IsPageText ⟦<Everything as Pages<Kind, PageError>>⟧.tells ⟦<Opened as Opens>⟧.opens (style_of is_json true) shows_keys
        name.now octets.now keytab.now)
        (RefusesPage ⟦<Everything as Pages<Kind, PageError>>⟧.tells name.now octets.now keytab.now) out.old out.new size.new result }
{
    let style = Style {
        is_json,
        has_places: true,
    };
    show_page::<Everything, Opened>(alloc, name, octets, keytab, style, shows_keys, out, size)
}

/// `krb_page_items` of `krb.h`: what `krb_show_placed_page` writes, as records.
#[unsafe(no_mangle)]
pub extern "C" fn krb_page_items(
    alloc: Global,
    name: &[u8],
    octets: &[u8],
    keytab: &[u8],
    shows_keys: bool,
    items: &mut [PageItemRecord],
    out: &mut [u8],
    counts: &mut ListedCounts,
) -> u32
    ensures { IsListedAnswer ⟦<Everything as Pages<Kind, PageError>>⟧.tells ⟦<Opened as Opens>⟧.opens shows_keys name.now octets.now keytab.now
        (room items.old out.old) (room items.new out.new) counts.new result }
{
    list_page::<Everything, Opened>(alloc, name, octets, keytab, shows_keys, items, out, counts)
}

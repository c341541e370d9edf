//! Where what the page of a keytab tells stands (MIT Kerberos, "Keytab file format").

ghost use Rattle.std.specs.Prelude.{◌≡◌, ◌+◌, ◌<◌, ◌≤◌, ◌^◌, ℕ, List, ◌++◌, None, Some, length, map, IfOk, MatchOption, OnErr, OnOk};
ghost use Rattle.std.specs.List.{AllByRecursion, flat_map};
ghost use Rattle.std.specs.Option.{option_copied};
ghost use Rattle.krb_files.specs.FieldWritten.{counted_octets, principal_octets};
ghost use Rattle.krb_files.specs.Entry.{Entry};
ghost use Rattle.krb_files.specs.Keytab.{Fields, FitsFields, FitsRecord, IsEnd, KeytabIs, Record, fields_octets, record_octets};
ghost use Rattle.krb_show_pages.specs.KeytabPlaces.{AreKeytabPlaces, adds_content, adds_entry, component_places, keytab_places, parts_places, records_places, version_place};
ghost use Rattle.krb_show_pages.specs.KeytabParts.{FitsParts, FitsRecordPart, IsPart, IsPartAt, IsPartsOf, record_size, told_of};

use byteorder::{BigEndian, ByteOrder};
use krb_files::fields::{ComponentsView, LengthSize, counted_at, principal_at, u32_at};
use krb_files::keytab::KeytabView;
use krb_show::{Place, place_at};
use std::alloc::{AllocError, Global};

/// How many octets the type of the name, the timestamp, the version of 8 bits and the encryption type have.
const NUMBERS: usize = 11;

/// Where the version of a key is: the 32 bits behind the key, if there are so many and they are not 0,
/// else the 8 bits before it.
fn version_place(short: usize, long: usize, rest: &[u8]) -> Option<Place>
    ensures { result ≡ version_place short long rest.now }
{
    if rest.len() < 4 {
        return place_at(short, 1);
    }
    if BigEndian::read_u32(rest) == 0 {
        return place_at(short, 1);
    }
    place_at(long, 4)
}

/// The components of a name, in their order.
fn components_of<'a>(
    alloc: Global,
    components: ComponentsView<'a>,
) -> Result<Vec<&'a [u8]>, AllocError>
    ensures { IfOk result (λ found. map (λ c. c.now) found.items ≡ components.entry) }
{
    components.collect(alloc)
}

/// Appends the places of components, the first of them with its length behind so many octets.
fn push_components(
    at: usize,
    components: &[&[u8]],
    places: &mut Vec<Option<Place>>,
) -> Result<(), AllocError>
    requires { at + length (flat_map (counted_octets 2) (map (λ c. c.now) components.now)) < 2 ^ 64 }
    ensures { OnOk result (places.new.items ≡ places.old.items ++ component_places at (map (λ c. c.now) components.now)) }
{
    let mut at = at;
    'components: for component in components {
        let start = at + 2;
        places.push(place_at(start, component.len()))?;
        at = start + component.len();
    }
    Ok(())
}

/// What an entry's record has: how many octets its principal has, the realm and the components of that, the
/// key, and the octets behind the key.
#[derive(Drop)]
struct EntryParts<'a> {
    principal_size: usize,
    realm: &'a [u8],
    components: ComponentsView<'a>,
    key: &'a [u8],
    rest: &'a [u8],
}

/// The parts of an entry's record, if it has all of them.
fn parts_of(body: &[u8]) -> Option<EntryParts<'_>>
    ensures found { (f : Fields) (rest : List ℕ) → FitsFields f → body.now ≡ fields_octets f ++ rest
        → MatchOption result ⊥ (λ parts. IsPartsOf parts f rest) }
    ensures fits { MatchOption result (Unit {0}) (λ parts. FitsParts parts (length body.now)) }
{
    let Ok((principal, numbers)) = principal_at(LengthSize::Two, body) else {
        return None;
    };
    if numbers.len() < NUMBERS {
        return None;
    }
    let (_, behind) = numbers.split_at(NUMBERS);
    let Ok((key, rest)) = counted_at(LengthSize::Two, behind) else {
        return None;
    };
    Some(EntryParts {
        principal_size: body.len() - numbers.len(),
        realm: principal.realm(),
        components: principal.components(),
        key,
        rest,
    })
}

/// Appends the places of an entry's record, which begins without its length behind so many octets.
fn push_parts(
    alloc: Global,
    at: usize,
    parts: EntryParts,
    places: &mut Vec<Option<Place>>,
) -> Result<(), AllocError>
    requires room { at + (parts.principal_size + 13 + length parts.key.now + length parts.rest.now) < 2 ^ 64 }
    requires principal { 4 + length parts.realm.now + length (flat_map (counted_octets 2) parts.components) ≡ parts.principal_size }
    ensures { OnOk result (places.new.items ≡ places.old.items
        ++ parts_places at parts.entry.principal_size parts.entry.realm.now parts.entry.components parts.entry.key.now parts.entry.rest.now) }
{
    let size = parts.principal_size;
    let behind = at + size;
    let whole = place_at(at, size + 13 + parts.key.len() + parts.rest.len());
    let realm = place_at(at + 4, parts.realm.len());
    let first = at + 4 + parts.realm.len();
    let list = place_at(first, size - (4 + parts.realm.len()));
    let version = version_place(behind + 8, behind + 13 + parts.key.len(), parts.rest);
    let key = place_at(behind + 13, parts.key.len());
    let components = components_of(alloc, parts.components)?;
    places.extend_from_slice(&[whole, place_at(behind, 4), realm, list])?;
    push_components(first, &components, places)?;
    places.extend_from_slice(&[
        list,
        place_at(behind + 4, 4),
        version,
        place_at(behind + 9, 2),
        key,
        whole,
    ])
}

/// Appends the places of an entry's record, which begins without its length behind so many octets; of
/// octets that are none nothing.
fn push_entry(
    alloc: Global,
    at: usize,
    body: &[u8],
    places: &mut Vec<Option<Place>>,
) -> Result<(), AllocError>
    requires { at + length body.now < 2 ^ 64 }
    ensures { OnOk result (adds_entry at body.now places.old.items places.new.items) }
{
    match parts_of(body) {
        Some(parts) => push_parts(alloc, at, parts, places),
        None => Ok(()),
    }
}

/// A record of a keytab: what an entry holds, and the octets behind the record.
#[derive(Drop)]
struct RecordPart<'a> {
    content: Option<&'a [u8]>,
    behind: &'a [u8],
}

/// How many octets a record has by its length, which is negative for a hole.
fn record_size(count: u32) -> usize
    ensures { result ≡ record_size count }
{
    if count < 0x8000_0000 {
        count as usize
    } else {
        count.wrapping_neg() as usize
    }
}

/// What is told of a record's octets: nothing of a hole.
fn told_of(count: u32, body: &[u8]) -> Option<&[u8]>
    ensures { option_copied result ≡ told_of count body.now }
{
    if count < 0x8000_0000 {
        Some(body)
    } else {
        None
    }
}

/// The record behind its length, if it is whole.
fn record_behind(count: u32, octets: &[u8]) -> Option<RecordPart<'_>>
    ensures { MatchOption result (length octets.now < record_size count) (IsPartAt count octets.now) }
{
    let size = record_size(count);
    if octets.len() < size {
        return None;
    }
    let (body, behind) = octets.split_at(size);
    Some(RecordPart {
        content: told_of(count, body),
        behind,
    })
}

/// The record at the start of octets; none at the end of the keytab, which a length of 0 is, and where
/// no record is whole.
fn record_of(octets: &[u8]) -> Option<RecordPart<'_>>
    ensures end { IsEnd octets.now → MatchOption result (Unit {0}) (λ part. ⊥) }
    ensures found { (r : Record) (tail : List ℕ) → FitsRecord r → octets.now ≡ record_octets r ++ tail
        → MatchOption result ⊥ (λ part. IsPart part r tail) }
    ensures fits { MatchOption result (Unit {0}) (λ part. FitsRecordPart part (length octets.now)) }
{
    let Ok((count, behind)) = u32_at(octets) else {
        return None;
    };
    if count == 0 {
        return None;
    }
    record_behind(count, behind)
}

/// Appends the places of what a record holds that begins behind so many octets.
fn push_content(
    alloc: Global,
    at: usize,
    content: Option<&[u8]>,
    places: &mut Vec<Option<Place>>,
) -> Result<(), AllocError>
    requires { MatchOption content (Unit {0}) (λ body. at + 4 + length body.now < 2 ^ 64) }
    ensures { OnOk result (adds_content (at + 4) (option_copied content.entry) places.old.items places.new.items) }
{
    match content {
        Some(body) => push_entry(alloc, at + 4, body, places),
        None => Ok(()),
    }
}

/// Appends the places of records, the first of which begins behind so many octets.
fn push_records(
    alloc: Global,
    at: usize,
    records: &[u8],
    places: &mut Vec<Option<Place>>,
) -> Result<(), AllocError>
    requires { at + length records.now < 2 ^ 64 }
    ensures { OnOk result ((rs : List Record) (end : List ℕ) → AllByRecursion FitsRecord rs → IsEnd end → records.now ≡ flat_map record_octets rs ++ end
        → places.new.items ≡ places.old.items ++ records_places at rs) }
{
    let mut at = at;
    let mut rest = records;
    'records: while let Some(part) = record_of(rest) {
        push_content(alloc, at, part.content, places)?;
        at += rest.len() - part.behind.len();
        rest = part.behind;
    }
    Ok(())
}

/// The places of the page of a keytab.
fn keytab_places(alloc: Global, octets: &[u8]) -> Result<Vec<Option<Place>>, AllocError>
    ensures { IfOk result (λ places. keytab_places octets.now places.items) }
{
    let mut places = Vec::new(alloc);
    let Some(records) = octets.get(2..) else {
        return Ok(places);
    };
    let list = place_at(2, records.len());
    places.push(list)?;
    push_records(alloc, 2, records, &mut places)?;
    places.push(list)?;
    Ok(places)
}

/// Where in a keytab what each token of `page_of_keytab` tells stands, in the order of the tokens
/// (MIT Kerberos, "Keytab file format"): the list has the octets behind the version of the file, a
/// struct its record without the length, and `vno` the 32 bits behind the key, if they are shown,
/// else the octet before it. For `place_tokens`. Octets that are no keytab have no places. The only
/// error is an allocation failure, and only of octets that are a keytab.
pub fn places_of_keytab(alloc: Global, octets: &[u8]) -> Result<Vec<Option<Place>>, AllocError>
    ensures places { IfOk result (λ places. AreKeytabPlaces octets.now places.items) }
    ensures refused { OnErr result ((entries : List Entry) × KeytabIs octets.now entries) }
{
    match KeytabView::new(octets) {
        Ok(_) => keytab_places(alloc, octets),
        Err(_) => Ok(Vec::new(alloc)),
    }
}

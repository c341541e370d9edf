//! A keytab over the octets that the caller holds.

ghost use Rattle.std.specs.Prelude.{◌≡◌, List, Ok, [], ◌∷◌, IfOk, MatchOption};
ghost use Rattle.std.specs.Iterator.{YieldsFirst, item_count};
ghost use Rattle.krb_files.specs.FieldReading.{Gives};
ghost use Rattle.krb_files.specs.Entry.{Entry};
ghost use Rattle.krb_files.specs.Keytab.{KeytabIs};
ghost use Rattle.krb_files.specs.KeytabReading.{keytab_of, records_of, shown_entries, shown_records};

use crate::fields::u16_at;
use crate::keytab::entry::EntryView;
use crate::keytab::error::KeytabError;
use crate::keytab::record::{is_end, record_at};
use std::marker::Model;

/// The number of the first two octets of a keytab of version 2: 05 02.
const VERSION_2: u16 = 0x0502;

/// A keytab over the octets that the caller holds: what its entries hold are slices of these. It takes no memory.
///
/// A contract sees the list of its entries, in their order.
#[derive(Drop)]
pub struct KeytabView<'a> {
    records: &'a [u8],
}

impl<'a> Model for KeytabView<'a> {
    ghost use Rattle.std.specs.Prelude.{List};
    ghost use Rattle.krb_files.specs.Entry.{Entry};

    ghost Value = { List Entry };

    ghost use Rattle.krb_files.specs.KeytabReading.{shown_entries};

    ghost view = { λ k. shown_entries k.records.now };
}

impl<'a> KeytabView<'a> {
    /// The keytab that the octets are.
    ///
    /// All records are looked at, in order: the first error is returned. `InvalidVersion` where the first two octets are not 05 02;
    /// `Truncated` where the octets end inside these, inside the length of a record, or before so many octets as a length says,
    /// which is negative for a hole; `InvalidRecord` where a field of an entry runs past its record. A length of 0 ends the keytab:
    /// what is behind it is not looked at, as are not the octets of a hole, and in a record those behind the version of 32 bits.
    pub fn new(octets: &'a [u8]) -> Result<Self, KeytabError>
        ensures found { IfOk result (KeytabIs octets.now) }
        ensures only { (entries : List Entry) → KeytabIs octets.now entries → Gives (λ k. k) result (Ok entries) }
        ensures exact { Gives (λ k. k) result (keytab_of octets.now) }
    {
        keytab_at(octets)
    }

    /// The entries, in their order.
    pub fn entries(&self) -> EntriesView<'a>
        ensures { result ≡ self.now }
    {
        EntriesView {
            records: self.records,
        }
    }
}

/// The keytab that the octets are, or the first error.
#[tactic(auto, unfolding(crate::specs::KeytabReading::keytab_of, crate::specs::KeytabReading::shown_entries))]
fn keytab_at(octets: &[u8]) -> Result<KeytabView<'_>, KeytabError>
    ensures { Gives (λ k. k) result (keytab_of octets.now) }
{
    let Ok((version, records)) = u16_at(octets) else {
        return Err(KeytabError::Truncated);
    };
    if version != VERSION_2 {
        return Err(KeytabError::InvalidVersion(version));
    }
    check_records(records)?;
    Ok(KeytabView { records })
}

/// Whether all records up to the end are such, or the first error.
fn check_records(octets: &[u8]) -> Result<(), KeytabError>
    ensures { Gives (λ _. shown_records octets.now) result (records_of octets.now) }
{
    let mut rest = octets;
    'records: while !is_end(rest) {
        let (_, after) = record_at(rest)?;
        rest = after;
    }
    Ok(())
}

/// An iterator over the entries of a keytab. A contract sees the list of those that are left.
#[derive(Drop)]
pub struct EntriesView<'a> {
    records: &'a [u8],
}

impl<'a> Model for EntriesView<'a> {
    ghost use Rattle.std.specs.Prelude.{List};
    ghost use Rattle.krb_files.specs.Entry.{Entry};

    ghost Value = { List Entry };

    ghost use Rattle.krb_files.specs.KeytabReading.{shown_entries};

    ghost view = { λ k. shown_entries k.records.now };
}

impl<'a> Iterator for EntriesView<'a> {
    type Item = EntryView<'a>;

    ghost next_gives = { YieldsFirst (λ left. left) };

    ghost remaining = { item_count (λ left. left) };

    /// The next entry.
    fn next(&mut self) -> Option<EntryView<'a>> {
        match next_entry(self.records) {
            Some((entry, after)) => {
                self.records = after;
                Some(entry)
            }
            None => None,
        }
    }
}

/// The first entry of the records, holes passed over, and the octets after its record.
fn next_entry(octets: &[u8]) -> Option<(EntryView<'_>, &[u8])>
    ensures { MatchOption result (shown_entries octets.now ≡ []) (λ x. shown_entries octets.now ≡ x.0 ∷ shown_entries x.1.now) }
{
    let mut rest = octets;
    'records: while !is_end(rest) {
        let Ok((entry, after)) = record_at(rest) else {
            return None;
        };
        if let Some(entry) = entry {
            return Some((entry, after));
        }
        rest = after;
    }
    None
}

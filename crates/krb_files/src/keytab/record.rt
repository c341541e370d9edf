//! The records of a keytab: entries and holes.

ghost use Rattle.std.specs.Prelude.{◌≡◌};
ghost use Rattle.krb_files.specs.FieldReading.{Gives, seen_at};
ghost use Rattle.krb_files.specs.KeytabReading.{is_end, live_entry, octets_at, record_at as record_fields_at};

use crate::fields::u32_at;
use crate::keytab::entry::{EntryView, entry_of};
use crate::keytab::error::KeytabError;

/// Whether no record is to come: the octets are at their end, or at a length of 0.
pub(crate) fn is_end(octets: &[u8]) -> bool
    ensures { result ≡ is_end octets.now }
{
    if octets.is_empty() {
        return true;
    }
    match u32_at(octets) {
        Ok((len, _)) => len == 0,
        Err(_) => false,
    }
}

/// So many octets, and those after them.
fn octets_at(len: u32, octets: &[u8]) -> Result<(&[u8], &[u8]), KeytabError>
    ensures { Gives (λ x. (x.0.now, x.1.now)) result (octets_at len octets.now) }
{
    let len = len as usize;
    if octets.len() < len {
        return Err(KeytabError::Truncated);
    }
    Ok(octets.split_at(len))
}

/// The entry of the record at the front, `None` for a hole, and the octets after the record.
#[tactic(auto, unfolding(crate::specs::KeytabReading::record_at))]
pub(crate) fn record_at(octets: &[u8]) -> Result<(Option<EntryView<'_>>, &[u8]), KeytabError>
    ensures { Gives (λ x. (x.0, x.1.now)) result (seen_at live_entry record_fields_at octets.now) }
{
    let Ok((len, rest)) = u32_at(octets) else {
        return Err(KeytabError::Truncated);
    };
    if len >= 0x8000_0000 {
        let (_, after) = octets_at(len.wrapping_neg(), rest)?;
        return Ok((None, after));
    }
    let (record, after) = octets_at(len, rest)?;
    match entry_of(record) {
        Ok(entry) => Ok((Some(entry), after)),
        Err(error) => Err(KeytabError::InvalidRecord(error)),
    }
}

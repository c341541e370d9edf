//! Writing a keytab.

ghost use Rattle.std.specs.Prelude.{◌≡◌, ◌⊎◌, ◌++◌, ◌<◌, ◌^◌, length, map, IfOk, IfErr, OnOk};
ghost use Rattle.std.specs.List.{AllByRecursion};
ghost use Rattle.byteorder.specs.Endian.{big_bytes};
ghost use Rattle.krb_files.specs.FieldWritten.{FitsCounted, FitsPrincipal};
ghost use Rattle.krb_files.specs.Principals.{principal_of};
ghost use Rattle.krb_files.specs.Keytab.{FitsFields, KeytabIs, fields_octets};
ghost use Rattle.krb_files.specs.KeytabWritten.{FitsEntry, entry_from, entry_octets, keytab_octets, written_fields};

use crate::fields::{
    LengthSize, PrincipalParts, fits, fits_principal, push_counted, push_number, push_octet,
    push_principal,
};
use crate::keytab::error::KeytabWriteError;
use std::alloc::{AllocError, Global};

/// An entry to be written: a principal's key.
#[derive(Clone, Copy)]
pub struct NewEntry<'a> {
    /// The principal.
    pub principal: PrincipalParts<'a>,
    /// The type of the principal's name (RFC 4120, 6.2).
    pub name_type: u32,
    /// When the key was made, in seconds since 1970.
    pub timestamp: u32,
    /// The version of the key.
    pub kvno: u32,
    /// The encryption type of the key.
    pub etype: u16,
    /// The octets of the key.
    pub key: &'a [u8],
}

/// The octets of a record of this entry, without its length.
fn body_of(alloc: Global, entry: &NewEntry) -> Result<Vec<u8>, AllocError>
    requires principal { FitsPrincipal 2 (principal_of entry.now.principal) }
    requires key { FitsCounted 2 entry.now.key.now }
    ensures octets { IfOk result (λ v. v.items ≡ fields_octets (written_fields (entry_from entry.now)) ++ big_bytes 4 entry.now.kvno) }
    ensures fits { IfOk result (λ _. FitsFields (written_fields (entry_from entry.now)) × (entry.now.kvno < 2 ^ 32)) }
{
    let mut body = Vec::new(alloc);
    push_principal(&mut body, LengthSize::Two, &entry.principal)?;
    push_number(&mut body, LengthSize::Four, entry.name_type)?;
    push_number(&mut body, LengthSize::Four, entry.timestamp)?;
    push_octet(&mut body, (entry.kvno % 256) as u8)?;
    push_number(&mut body, LengthSize::Two, entry.etype as u32)?;
    push_counted(&mut body, LengthSize::Two, entry.key)?;
    push_number(&mut body, LengthSize::Four, entry.kvno)?;
    Ok(body)
}

/// The octets of a record of this entry.
fn record_of(alloc: Global, entry: &NewEntry) -> Result<Vec<u8>, KeytabWriteError>
    ensures ok { IfOk result (λ v. (v.items ≡ entry_octets (entry_from entry.now)) × FitsEntry (entry_from entry.now)) }
    ensures err { IfErr result (λ e. (e ≡ KeytabWriteError.OutOfMemory) ⊎ ((e ≡ KeytabWriteError.TooLong) × (FitsEntry (entry_from entry.now) → ⊥))) }
{
    if !fits_principal(LengthSize::Two, &entry.principal)
        || !fits(LengthSize::Two, entry.key.len())
    {
        return Err(KeytabWriteError::TooLong);
    }
    let body = body_of(alloc, entry)?;
    if body.len() >= 0x8000_0000 {
        return Err(KeytabWriteError::TooLong);
    }
    let mut record = Vec::new(alloc);
    push_counted(&mut record, LengthSize::Four, &body)?;
    Ok(record)
}

/// Appends an entry to a keytab: its record, with the version of the key in 8 bits, its low octet, and in 32 bits, as MIT Kerberos
/// writes it. The vector holds the keytab's octets so far, 05 02 and records.
///
/// `TooLong` where the realm, a component, their number or the key does not fit the 16 bits of its length, or the record has 2^31
/// octets or more; `OutOfMemory` where memory cannot grow. The vector is then as it was.
pub fn push_entry(
    alloc: Global,
    out: &mut Vec<u8>,
    entry: &NewEntry,
) -> Result<(), KeytabWriteError>
    ensures ok { OnOk result ((out.new.items ≡ out.old.items ++ entry_octets (entry_from entry.now)) × FitsEntry (entry_from entry.now)) }
    ensures kept { IfErr result (λ _. out.new.items ≡ out.old.items) }
    ensures err { IfErr result (λ e. (e ≡ KeytabWriteError.OutOfMemory) ⊎ ((e ≡ KeytabWriteError.TooLong) × (FitsEntry (entry_from entry.now) → ⊥))) }
{
    let record = record_of(alloc, entry)?;
    out.extend_from_slice(&record)?;
    Ok(())
}

/// The keytab of these entries, as `push_entry` writes them behind 05 02.
///
/// `TooLong` where an entry does not fit, and `OutOfMemory` where memory cannot grow.
pub fn write(alloc: Global, entries: &[NewEntry]) -> Result<Vec<u8>, KeytabWriteError>
    ensures ok { IfOk result (λ v. v.items ≡ keytab_octets (map entry_from entries.now)) }
    ensures read_back { IfOk result (λ v. KeytabIs v.items (map entry_from entries.now)) }
    ensures err { IfErr result (λ e. (e ≡ KeytabWriteError.OutOfMemory)
        ⊎ ((e ≡ KeytabWriteError.TooLong) × (AllByRecursion FitsEntry (map entry_from entries.now) → ⊥))) }
{
    let mut out = Vec::new(alloc);
    out.extend_from_slice(&[5, 2])?;
    'entries: for entry in entries {
        push_entry(alloc, &mut out, entry)?;
    }
    Ok(out)
}

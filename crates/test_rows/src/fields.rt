//! Keytabs and credential caches that come from outside this library, read and written again.
//!
//! A row is an origin, `keytab` or `ccache`, and octets. For each row it prints a line of the origin and the kind, and what the
//! library writes of the entries or credentials that it reads, in hexadecimal digits, or the error. What is read of them is asked
//! in tests/pages.rows.

use crate::rows::{Columns, RowError};
use krb_files::ccache::{CcacheView, CcacheWriteError, NewCcache, push_credential};
use krb_files::fields::{PrincipalParts, TypedOctets};
use krb_files::keytab::{KeytabView, KeytabWriteError, NewEntry, push_entry};
use std::alloc::{AllocError, Global};
use std::fmt::Debug;

/// A keytab of the same entries.
fn written_keytab(alloc: Global, keytab: &KeytabView) -> Result<Vec<u8>, KeytabWriteError> {
    let mut out = krb_files::keytab::write(alloc, &[])?;
    for entry in keytab.entries() {
        let components: Vec<&[u8]> = entry.components().collect(alloc)?;
        let entry = NewEntry {
            principal: PrincipalParts {
                realm: entry.realm(),
                components: &components,
            },
            name_type: entry.name_type(),
            timestamp: entry.timestamp(),
            kvno: entry.kvno(),
            etype: entry.etype(),
            key: entry.key(),
        };
        push_entry(alloc, &mut out, &entry)?;
    }
    Ok(out)
}

/// A credential cache of the same header and client, without credentials.
fn written_head(alloc: Global, cache: &CcacheView) -> Result<Vec<u8>, CcacheWriteError> {
    let header: Vec<TypedOctets> = cache.header().collect(alloc)?;
    let principal = cache.principal().collect(alloc)?;
    krb_files::ccache::write(
        alloc,
        &NewCcache {
            version: cache.version(),
            header: &header,
            principal: principal.parts(),
            credentials: &[],
        },
    )
}

/// Appends the credentials of a cache.
fn push_credentials(
    alloc: Global,
    out: &mut Vec<u8>,
    cache: &CcacheView,
) -> Result<(), CcacheWriteError> {
    for credential in cache.credentials() {
        let credential = credential.collect(alloc)?;
        let pushed = push_credential(alloc, out, cache.version(), &credential.parts());
        drop(credential);
        pushed?;
    }
    Ok(())
}

/// The same credential cache.
fn written_ccache(alloc: Global, cache: &CcacheView) -> Result<Vec<u8>, CcacheWriteError> {
    let mut out = written_head(alloc, cache)?;
    push_credentials(alloc, &mut out, cache)?;
    Ok(out)
}

/// What is printed of octets that were written, or of the error.
fn written_text<E: Debug + Drop>(
    alloc: Global,
    written: Result<Vec<u8>, E>,
) -> Result<String, AllocError> {
    match written {
        Ok(octets) => {
            let digits = hex::encode(alloc, &octets)?;
            format!(in alloc; "written {digits}")
        }
        Err(error) => format!(in alloc; "{error:?}"),
    }
}

/// What is printed of a keytab or a credential cache.
fn text_of(alloc: Global, kind: &str, octets: &[u8]) -> Result<String, AllocError> {
    if kind == "keytab" {
        return match KeytabView::new(octets) {
            Ok(keytab) => written_text(alloc, written_keytab(alloc, &keytab)),
            Err(error) => format!(in alloc; "{error:?}"),
        };
    }
    match CcacheView::new(octets) {
        Ok(cache) => written_text(alloc, written_ccache(alloc, &cache)),
        Err(error) => format!(in alloc; "{error:?}"),
    }
}

/// What is printed of a row.
pub(crate) fn answer(alloc: Global, mut columns: Columns<'_>) -> Result<String, RowError> {
    let (origin, kind) = (columns.text()?, columns.text()?);
    let octets = columns.octets(alloc)?;
    let text = text_of(alloc, kind, &octets)?;
    Ok(format!(in alloc; "{origin} {kind}\n{text}\n")?)
}

//! Verifies the checksums of real PACs.
//!
//! A row is an origin, a key, a PAC and what its ticket's checksum is to be over. For each row it prints the origin, what is known of
//! the checksums of the server, of the KDC and of the whole PAC under this key, each by its own call; then by the call for all the
//! types of the four checksums, and what is known of the ticket's over these octets and over others. Each bit of PACs is flipped in
//! tests/checksums.rows.

use crate::rows::{Columns, RowError};
use krb_pac_signatures::{
    PacSignatures, full_verdict, kdc_verdict, server_verdict, ticket_verdict, verdicts,
};
use std::alloc::{AllocError, Global};

/// What is printed of a PAC.
fn text_of(alloc: Global, key: &[u8], octets: &[u8], message: &[u8]) -> Result<String, AllocError> {
    let Ok(signatures) = PacSignatures::new(octets) else {
        return String::from_str(alloc, "no signatures\n");
    };
    let server = server_verdict(alloc, &signatures, key)?;
    let kdc = kdc_verdict(&signatures, key);
    let full = full_verdict(alloc, &signatures, key)?;
    let found = verdicts(alloc, &signatures, key, Some(key), Some(message))?;
    format!(in alloc;
        "server {server:?}, KDC {kdc:?}, full {full:?}\n\
        types: server {:?}, KDC {:?}, ticket {:?}, full {:?}; over the message the ticket's {:?}, over another {:?}\n",
        found.server.signature_type,
        found.kdc.signature_type,
        found.ticket.signature_type,
        found.full.signature_type,
        found.ticket.verdict,
        ticket_verdict(&signatures, key, key)
    )
}

/// What is printed of a row.
pub(crate) fn answer(alloc: Global, mut columns: Columns<'_>) -> Result<String, RowError> {
    let origin = columns.text()?;
    let key = columns.octets(alloc)?;
    let octets = columns.octets(alloc)?;
    let text = text_of(alloc, &key, &octets, &columns.octets(alloc)?)?;
    Ok(format!(in alloc; "{origin}\n{text}")?)
}

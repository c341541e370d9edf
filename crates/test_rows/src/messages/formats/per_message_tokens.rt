//! MIC and Wrap tokens (RFC 4121, 4.2.6).

use crate::messages::row::{Attempt, Row};
use crate::messages::trials::{Format, made, tried_slowly};
use krb_gss_tokens::{GssApiMessageError, MicToken, WrapToken};
use std::alloc::Global;
use std::io::{Read, Write};

/// The octets that a token has as its payload, so that a clone copies them.
const PAYLOAD: &[u8] = b"a payload";

/// The flag of a token that an acceptor sent.
const SENT_BY_ACCEPTOR: u8 = 1;

impl Format for MicToken {
    type Value = MicToken;

    type Error = GssApiMessageError;

    fn read_from<R: Read>(
        alloc: Global,
        _octets: &[u8],
        reader: &mut R,
    ) -> Result<MicToken, GssApiMessageError> {
        let mut token = MicToken::decode(alloc, reader)?;
        token.set_payload(Vec::from_slice(alloc, PAYLOAD)?);
        token.clone(alloc)
    }

    fn write_to<W: Write>(
        _alloc: Global,
        value: &MicToken,
        writer: &mut W,
    ) -> Result<(), GssApiMessageError> {
        value.encode(writer)
    }
}

impl Format for WrapToken {
    type Value = WrapToken;

    type Error = GssApiMessageError;

    fn read_from<R: Read>(
        alloc: Global,
        _octets: &[u8],
        reader: &mut R,
    ) -> Result<WrapToken, GssApiMessageError> {
        let mut token = WrapToken::decode(alloc, reader)?;
        token.payload = Some(Vec::from_slice(alloc, PAYLOAD)?);
        token.clone(alloc)
    }

    fn write_to<W: Write>(
        _alloc: Global,
        value: &WrapToken,
        writer: &mut W,
    ) -> Result<(), GssApiMessageError> {
        value.encode(writer)
    }
}

/// The octets of a MIC token that is made of the parts of the test vector's, after those of its header alone.
fn mic_again(row: &Row<'_>) -> Result<Vec<u8>, GssApiMessageError> {
    let read = MicToken::from_slice(row.alloc, row.octets)?;
    let token = if read.flags & SENT_BY_ACCEPTOR == 0 {
        MicToken::with_initiator_flags(row.alloc)
    } else {
        MicToken::with_acceptor_flags(row.alloc)
    };
    let mut token = token.with_seq_number(read.seq_num);
    let mut octets = Vec::from_slice(row.alloc, &token.header())?;
    token.set_checksum(read.checksum);
    octets.extend_from_slice(&token.to_vec(row.alloc)?)?;
    Ok(octets)
}

/// The octets of a Wrap token that is made of the parts of the test vector's, after those of its header alone.
fn wrap_again(row: &Row<'_>) -> Result<Vec<u8>, GssApiMessageError> {
    let read = WrapToken::from_slice(row.alloc, row.octets)?;
    let mut token = WrapToken::with_seq_number(row.alloc, read.seq_num);
    let mut octets = Vec::from_slice(row.alloc, &token.header())?;
    token.flags = read.flags;
    token.ec = read.ec;
    token.set_rrc(read.rrc);
    token.set_checksum(read.checksum);
    octets.extend_from_slice(&token.to_vec(row.alloc)?)?;
    Ok(octets)
}

/// The findings of a per-message token, by the name of its type or of the call that makes it.
pub fn try_per_message(row: &Row<'_>) -> Attempt {
    Some(match row.name {
        "MicToken" => tried_slowly::<MicToken>(row),
        "MicToken::with_seq_number" => made(row, mic_again(row), row.written),
        "WrapToken" => tried_slowly::<WrapToken>(row),
        "WrapToken::with_seq_number" => made(row, wrap_again(row), row.written),
        _ => return None,
    })
}

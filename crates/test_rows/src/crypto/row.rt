//! A row of the table.

use crate::rows::{Columns, RowError};
use krb_crypto::KerberosCryptoResult;
use krb_crypto_suite_types::aes::AesSize;
use std::alloc::{AllocError, Global};

/// What a call is given.
#[derive(Drop)]
pub struct Row<'a> {
    pub call: &'a str,
    /// A suite by its name or its number, or a size.
    pub suite: &'a str,
    /// A key usage, or a number of rounds, bits or octets.
    pub number: i32,
    /// A key or a password.
    pub key: Vec<u8>,
    /// A confounder, a salt or a constant.
    pub beside: Vec<u8>,
    pub input: Vec<u8>,
}

impl<'a> Row<'a> {
    /// The row of these columns.
    pub fn of(alloc: Global, mut columns: Columns<'a>) -> Result<Row<'a>, RowError> {
        Ok(Row {
            call: columns.text()?,
            suite: columns.text()?,
            number: columns.number()?,
            key: columns.octets(alloc)?,
            beside: columns.octets(alloc)?,
            input: columns.octets(alloc)?,
        })
    }
}

/// What a call returns, as text. `None` where there is no such call, or none of such arguments.
pub type Answer = Option<KerberosCryptoResult<String>>;

/// The answer of a call that returns a text.
pub fn text_of(text: Result<String, AllocError>) -> Answer {
    match text {
        Ok(text) => Some(Ok(text)),
        Err(error) => Some(Err(error.into())),
    }
}

/// The answer of a call that returns octets, in hexadecimal digits.
pub fn answer_of(alloc: Global, octets: KerberosCryptoResult<Vec<u8>>) -> Answer {
    match octets {
        Ok(octets) => text_of(hex::encode(alloc, &octets)),
        Err(rejection) => Some(Err(rejection)),
    }
}

/// A copy of octets.
pub fn copied(alloc: Global, octets: &[u8]) -> KerberosCryptoResult<Vec<u8>> {
    Ok(Vec::from_slice(alloc, octets)?)
}

/// The size of AES of a suite of this name.
pub fn size_of(name: &str) -> Option<AesSize> {
    match name {
        "aes128" | "aes128-sha2" => Some(AesSize::Aes128),
        "aes256" | "aes256-sha2" => Some(AesSize::Aes256),
        _ => None,
    }
}

/// The octets as a block.
pub fn block_of<const SIZE: usize>(octets: &[u8]) -> Option<[u8; SIZE]> {
    <[u8; SIZE]>::try_from(octets).ok()
}

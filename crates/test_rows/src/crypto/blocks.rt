//! Blocks, and their modes.

use crate::crypto::row::{Answer, Row, answer_of, block_of, copied, size_of, text_of};
use krb_crypto_aes_tables::{AesTableKey, agree};
use krb_crypto_block::KerberosCryptoResult;
use krb_crypto_suite_types::aes::{
    AesKey, AesSize, decrypt_aes_cbc, decrypt_aes_cts, encrypt_aes_cbc, encrypt_aes_cts,
    swap_two_last_blocks,
};
use krb_crypto_suite_types::des::{DesKey, decrypt_des, encrypt_des};
use std::alloc::Global;

/// What AES by vector permutes makes of a block; `None` where AES by word tables makes another of it in either direction.
fn by_aes(
    alloc: Global,
    row: &Row,
    size: &AesSize,
    block: [u8; 16],
) -> KerberosCryptoResult<Option<Vec<u8>>> {
    let permutes = AesKey::new(&row.key, size)?;
    let tables = AesTableKey::new(&row.key, size)?;
    if !agree(&tables, &permutes, block) {
        return Ok(None);
    }
    let made = if row.call == "encrypt_block" {
        permutes.encrypt_block(block)
    } else {
        permutes.decrypt_block(block)
    };
    Ok(Some(copied(alloc, &made)?))
}

/// What triple DES makes of a block.
fn by_des(alloc: Global, row: &Row, block: [u8; 8]) -> KerberosCryptoResult<Option<Vec<u8>>> {
    let key = DesKey::new(&row.key)?;
    let made = if row.call == "encrypt_block" {
        key.encrypt_block(block)
    } else {
        key.decrypt_block(block)
    };
    Ok(Some(copied(alloc, &made)?))
}

/// Calls of a block (FIPS 197, FIPS 46-3), or of a mode.
pub fn try_block(alloc: Global, row: &Row) -> Answer {
    if row.call != "encrypt_block" && row.call != "decrypt_block" {
        return try_mode(alloc, row);
    }
    let made = if row.suite == "des3" {
        by_des(alloc, row, block_of(&row.input)?)
    } else {
        by_aes(alloc, row, &size_of(row.suite)?, block_of(&row.input)?)
    };
    match made {
        Ok(Some(block)) => answer_of(alloc, Ok(block)),
        Ok(None) => text_of(String::from_str(alloc, "another by word tables")),
        Err(rejection) => Some(Err(rejection)),
    }
}

/// The octets with their last two blocks in each other's place.
fn swapped(alloc: Global, octets: &[u8]) -> KerberosCryptoResult<Vec<u8>> {
    let mut octets = copied(alloc, octets)?;
    swap_two_last_blocks(&mut octets)?;
    Ok(octets)
}

/// Calls of a mode (RFC 3962, 5 and 6; RFC 3961, 6.3).
fn try_mode(alloc: Global, row: &Row) -> Answer {
    let (key, input) = (&row.key, &row.input);
    let octets = match row.call {
        "encrypt_des" => encrypt_des(alloc, key, input),
        "decrypt_des" => decrypt_des(alloc, key, input),
        "encrypt_aes_cbc" => encrypt_aes_cbc(alloc, key, input, &size_of(row.suite)?),
        "decrypt_aes_cbc" => decrypt_aes_cbc(alloc, key, input, &size_of(row.suite)?),
        "encrypt_aes_cts" => encrypt_aes_cts(alloc, key, input, &size_of(row.suite)?),
        "decrypt_aes_cts" => decrypt_aes_cts(alloc, key, input, &size_of(row.suite)?),
        "swap_two_last_blocks" => swapped(alloc, input),
        _ => return None,
    };
    answer_of(alloc, octets)
}

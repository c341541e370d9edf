//! What ties the word tables to the vector permutes.

ghost use Rattle.std.specs.Prelude.{◌≡◌, true};

use crate::key::AesTableKey;
use krb_crypto_block::{AES_BLOCK_SIZE, AesKey};

/// Whether both forms of AES encrypt and decrypt the block alike. Under keys of the same octets they do, whatever the block: both are
/// the cipher of FIPS 197.
pub fn agree(tables: &AesTableKey, permutes: &AesKey, block: [u8; AES_BLOCK_SIZE]) -> bool
    ensures { tables.now ≡ permutes.now → result ≡ true }
{
    tables.encrypt_block(block) == permutes.encrypt_block(block)
        && tables.decrypt_block(block) == permutes.decrypt_block(block)
}

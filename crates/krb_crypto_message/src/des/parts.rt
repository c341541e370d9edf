//! The three parts of eight octets that keys of triple DES and their seeds are made of.

ghost use Rattle.std.specs.Prelude.{◌≡◌, ◌++◌};

use krb_crypto_block::{DES3_BLOCK_SIZE, DES3_KEY_SIZE};

/// The three parts, concatenated. It allocates nothing.
pub(crate) fn concatenated(
    first: &[u8; DES3_BLOCK_SIZE],
    second: &[u8; DES3_BLOCK_SIZE],
    third: &[u8; DES3_BLOCK_SIZE],
) -> [u8; DES3_KEY_SIZE]
    ensures { result ≡ first.now ++ second.now ++ third.now }
{
    let mut parts = [0; DES3_KEY_SIZE];
    parts[..8].copy_from_slice(first);
    parts[8..16].copy_from_slice(second);
    parts[16..24].copy_from_slice(third);
    parts
}

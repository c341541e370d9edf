//! PBKDF2 (RFC 8018, 5.2) with HMAC.

ghost use Rattle.std.specs.Prelude.{ℕ, List, ◌-◌, ◌*◌, ◌^◌, ◌<◌, ◌≤◌, length};
ghost use Rattle.krb_crypto_hash.specs.Pbkdf2.{IsBlockOf, IsPbkdf2Over, IsPbkdf2, IsPbkdf2_256, IsPbkdf2_384};
ghost use Rattle.krb_crypto_hash.specs.Hmac.{AreSizes, hmac_over, IsReady};

use crate::hash::HashFunction;
use crate::hmac::{keyed, mac};
use crate::xor::xored_with;
use sha1::Sha1;
use sha2::{Sha256, Sha384};

/// Fills `out` with the octets that PBKDF2 (RFC 8018, 5.2) with HMAC-SHA1 derives from a password and a salt.
///
/// There is at least one round, and `out` has at most 20 * (2^32 - 1) octets. It allocates nothing, and each round is two
/// blocks of SHA-1.
pub fn pbkdf2_hmac_sha1(password: &[u8], salt: &[u8], rounds: u32, out: &mut [u8])
    requires some { 0 < rounds }
    requires blocks { length out.old ≤ 20 * (2 ^ 32 - 1) }
    ensures { IsPbkdf2 password.now salt.now rounds out.new }
{
    derive::<64, 20, Sha1>(password, salt, rounds, out);
}

/// Fills `out` with the octets that PBKDF2 (RFC 8018, 5.2) with HMAC-SHA256 derives from a password and a salt.
///
/// There is at least one round, and `out` has at most 32 * (2^32 - 1) octets. It allocates nothing, and each round is two
/// blocks of SHA-256.
pub fn pbkdf2_hmac_sha256(password: &[u8], salt: &[u8], rounds: u32, out: &mut [u8])
    requires some { 0 < rounds }
    requires blocks { length out.old ≤ 32 * (2 ^ 32 - 1) }
    ensures { IsPbkdf2_256 password.now salt.now rounds out.new }
{
    derive::<64, 32, Sha256>(password, salt, rounds, out);
}

/// Fills `out` with the octets that PBKDF2 (RFC 8018, 5.2) with HMAC-SHA384 derives from a password and a salt.
///
/// There is at least one round, and `out` has at most 48 * (2^32 - 1) octets. It allocates nothing, and each round is two
/// blocks of SHA-384.
pub fn pbkdf2_hmac_sha384(password: &[u8], salt: &[u8], rounds: u32, out: &mut [u8])
    requires some { 0 < rounds }
    requires blocks { length out.old ≤ 48 * (2 ^ 32 - 1) }
    ensures { IsPbkdf2_384 password.now salt.now rounds out.new }
{
    derive::<128, 48, Sha384>(password, salt, rounds, out);
}

/// Fills `out` with the blocks T_1, T_2, .., the last of which is cut (RFC 8018, 5.2).
fn derive<const BLOCK: usize, const SIZE: usize, H: HashFunction<BLOCK, SIZE>>(
    password: &[u8],
    salt: &[u8],
    rounds: u32,
    out: &mut [u8],
)
    requires sizes { AreSizes BLOCK SIZE }
    requires some { 0 < rounds }
    requires blocks { length out.old ≤ SIZE * (2 ^ 32 - 1) }
    ensures { IsPbkdf2Over (hmac_over H.hash BLOCK) SIZE password.now salt.now rounds out.new }
{
    let (inner, outer) = keyed::<BLOCK, SIZE, H>(password);
    let count = out.len().div_ceil(SIZE);
    for i in 0..count {
        let block = derived_block(&inner, &outer, salt, rounds, i as u32 + 1);
        let start = SIZE * i;
        let end = start + SIZE.min(out.len() - start);
        out[start..end].copy_from_slice(&block[..end - start]);
    }
}

/// T_i, the block of this index, from 1 on: the exclusive or of U_1, U_2, .., as many as there are rounds (RFC 8018, 5.2),
/// under the password that the hashes have absorbed.
fn derived_block<const BLOCK: usize, const SIZE: usize, H: HashFunction<BLOCK, SIZE>>(
    inner: &H,
    outer: &H,
    salt: &[u8],
    rounds: u32,
    index: u32,
) -> [u8; SIZE]
    requires sizes { AreSizes BLOCK SIZE }
    requires some { 0 < rounds }
    ensures { (password : List ℕ) → IsReady (H.holds inner.now) (H.holds outer.now) H.hash BLOCK password
        → IsBlockOf (hmac_over H.hash BLOCK) password salt.now index rounds result }
{
    let mut last = mac(inner, outer, salt, &index.to_be_bytes());
    let mut sum = last;
    for r in 1..rounds {
        last = mac(inner, outer, &last, &[]);
        sum = xored_with(&sum, &last);
    }
    sum
}

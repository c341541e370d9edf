//! Ciphertext stealing (RFC 3962, 5) over any block cipher of 16 octets, in place.

ghost use Rattle.std.specs.Prelude.{◌≡◌, ℕ, ◌+◌, ◌-◌, ◌*◌, ◌/◌, ◌%◌, ◌<◌, ◌≤◌, List, ◌++◌, length, take, drop};
ghost use Rattle.krb_crypto_block.specs.Modes.{IsOctets, AreInverse, Cts, padded};
ghost use Rattle.krb_crypto_hash.specs.Xor.{xor_lists};

use crate::block_cipher::{BlockDecrypt, BlockEncrypt};
use crate::cbc::{chain, unchain};
use krb_crypto_hash::xor::xored_with;

/// The octets of a block.
const BLOCK_SIZE: usize = 16;

/// Encrypts the octets in place: the last two blocks are written in reversed order, and the stolen one is cut.
pub(crate) fn encrypt_cts<C: BlockEncrypt<BLOCK_SIZE>>(cipher: &C, octets: &mut [u8])
    requires long { 16 ≤ length octets.old }
    requires inverse { AreInverse 16 (C.encrypts cipher.now) (C.decrypts cipher.now) }
    ensures { Cts (C.encrypts cipher.now) octets.old octets.new }
{
    if octets.len() == BLOCK_SIZE {
        chain(cipher, &[0; BLOCK_SIZE], octets);
        return;
    }
    let start = prefix_size(octets.len());
    let before = chain(cipher, &[0; BLOCK_SIZE], &mut octets[..start]);
    encrypt_last_two(cipher, &before, &mut octets[start..]);
}

/// Decrypts the octets in place: they become the one list of octets that is encrypted to them.
pub(crate) fn decrypt_cts<C: BlockDecrypt<BLOCK_SIZE>>(cipher: &C, octets: &mut [u8])
    requires long { 16 ≤ length octets.old }
    requires inverse { AreInverse 16 (C.encrypts cipher.now) (C.decrypts cipher.now) }
    ensures plain { Cts (C.encrypts cipher.now) octets.new octets.old }
    ensures only { (q : List ℕ) → IsOctets q → Cts (C.encrypts cipher.now) q octets.old → q ≡ octets.new }
{
    if octets.len() == BLOCK_SIZE {
        unchain(cipher, &[0; BLOCK_SIZE], octets);
        return;
    }
    let start = prefix_size(octets.len());
    let before = unchain(cipher, &[0; BLOCK_SIZE], &mut octets[..start]);
    decrypt_last_two(cipher, &before, &mut octets[start..]);
}

/// How many of these octets are before the last two blocks, the last of which may be incomplete.
fn prefix_size(size: usize) -> usize
    requires { 16 < size }
    ensures blocks { result ≡ 16 * ((size - 1) / 16 - 1) }
    ensures prefix { result + 16 < size }
    ensures rest { size ≤ result + 32 }
{
    BLOCK_SIZE * ((size - 1) / BLOCK_SIZE - 1)
}

/// Encrypts a whole block and one to 16 octets after it: the block of the last octets comes first, and after it as many octets
/// as they are of the block that their padding is stolen from.
fn encrypt_last_two<C: BlockEncrypt<BLOCK_SIZE>>(
    cipher: &C,
    before: &[u8; BLOCK_SIZE],
    rest: &mut [u8],
)
    requires block { 16 ≤ length rest.old }
    requires last { length rest.old ≤ 32 }
    ensures { let stolen = C.encrypts cipher.now (xor_lists (take 16 rest.old) before.now) in
        rest.new ≡ C.encrypts cipher.now (xor_lists (padded (drop 16 rest.old)) stolen) ++ take (length rest.old - 16) stolen }
{
    let stolen = cipher.encrypt_block(&xored_with(before, &rest[..BLOCK_SIZE]));
    let last = cipher.encrypt_block(&xored_with(&stolen, &rest[BLOCK_SIZE..]));
    let count = rest.len() - BLOCK_SIZE;
    rest[..BLOCK_SIZE].copy_from_slice(&last);
    rest[BLOCK_SIZE..].copy_from_slice(&stolen[..count]);
}

/// Decrypts a block and one to 16 octets of the stolen one after it.
fn decrypt_last_two<C: BlockDecrypt<BLOCK_SIZE>>(
    cipher: &C,
    before: &[u8; BLOCK_SIZE],
    rest: &mut [u8],
)
    requires block { 16 ≤ length rest.old }
    requires last { length rest.old ≤ 32 }
    ensures { let last = C.decrypts cipher.now (take 16 rest.old) in
        let stolen = drop 16 rest.old ++ drop (length rest.old - 16) last in
        rest.new ≡ xor_lists (C.decrypts cipher.now stolen) before.now ++ take (length rest.old - 16) (xor_lists last stolen) }
{
    let count = rest.len() - BLOCK_SIZE;
    let mut block = [0u8; BLOCK_SIZE];
    block.copy_from_slice(&rest[..BLOCK_SIZE]);
    let last = cipher.decrypt_block(&block);
    let mut stolen = last;
    stolen[..count].copy_from_slice(&rest[BLOCK_SIZE..]);
    let first = xored_with(before, &cipher.decrypt_block(&stolen));
    let second = xored_with(&stolen, &last);
    rest[..BLOCK_SIZE].copy_from_slice(&first);
    rest[BLOCK_SIZE..].copy_from_slice(&second[..count]);
}

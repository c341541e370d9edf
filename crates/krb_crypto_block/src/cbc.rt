//! Cipher block chaining over any block cipher, in place.

ghost use Rattle.std.specs.Prelude.{◌≡◌, ℕ, ◌+◌, ◌-◌, ◌*◌, ◌/◌, ◌%◌, ◌<◌, ◌≤◌, ◌^◌, List, ◌++◌, length, take, drop};
ghost use Rattle.krb_crypto_block.specs.Linked.{linked, last_linked, unlinked, last_block};
ghost use Rattle.krb_crypto_block.specs.Modes.{IsOctets, AreInverse, IsCbc};
ghost use Rattle.krb_crypto_hash.specs.Xor.{xor_lists};

use crate::block_cipher::{BlockDecrypt, BlockEncrypt};
use krb_crypto_hash::xor::xored_with;

/// Makes of the octets, which are whole blocks, what they are chained to from a zero block on.
pub(crate) fn encrypt_cbc<const SIZE: usize, C: BlockEncrypt<SIZE>>(cipher: &C, octets: &mut [u8])
    requires size { 0 < SIZE }
    requires room { SIZE < 2 ^ 63 }
    requires whole { length octets.old % SIZE ≡ 0 }
    ensures { IsCbc SIZE (C.encrypts cipher.now) octets.old octets.new }
{
    chain(cipher, &[0; SIZE], octets);
}

/// Makes of the octets, which are whole blocks, the one list of octets that is chained to them.
pub(crate) fn decrypt_cbc<const SIZE: usize, C: BlockDecrypt<SIZE>>(cipher: &C, octets: &mut [u8])
    requires size { 0 < SIZE }
    requires room { SIZE < 2 ^ 62 }
    requires whole { length octets.old % SIZE ≡ 0 }
    requires inverse { AreInverse SIZE (C.encrypts cipher.now) (C.decrypts cipher.now) }
    ensures plain { IsCbc SIZE (C.encrypts cipher.now) octets.new octets.old }
    ensures only { (q : List ℕ) → IsOctets q → IsCbc SIZE (C.encrypts cipher.now) q octets.old → q ≡ octets.new }
{
    unchain(cipher, &[0; SIZE], octets);
}

/// Combines each whole block with the encrypted block before it, encrypts it, and returns the last one.
pub(crate) fn chain<const SIZE: usize, C: BlockEncrypt<SIZE>>(
    cipher: &C,
    first: &[u8; SIZE],
    octets: &mut [u8],
) -> [u8; SIZE]
    requires size { 0 < SIZE }
    requires room { SIZE < 2 ^ 63 }
    requires whole { length octets.old % SIZE ≡ 0 }
    ensures chained { octets.new ≡ linked SIZE (C.encrypts cipher.now) (length octets.old / SIZE) first.now octets.old }
    ensures last { result ≡ last_linked SIZE (C.encrypts cipher.now) (length octets.old / SIZE) first.now octets.old }
{
    let mut before = *first;
    for i in 0..octets.len() / SIZE {
        let block = &mut octets[SIZE * i..SIZE * i + SIZE];
        let mixed = xored_with(&before, block);
        before = cipher.encrypt_block(&mixed);
        block.copy_from_slice(&before);
    }
    before
}

/// Decrypts each whole block, two at a time, combines it with the encrypted block before it, and returns the last encrypted one.
pub(crate) fn unchain<const SIZE: usize, C: BlockDecrypt<SIZE>>(
    cipher: &C,
    first: &[u8; SIZE],
    octets: &mut [u8],
) -> [u8; SIZE]
    requires size { 0 < SIZE }
    requires room { SIZE < 2 ^ 62 }
    requires whole { length octets.old % SIZE ≡ 0 }
    ensures plain { octets.new ≡ unlinked SIZE (C.decrypts cipher.now) (length octets.old / SIZE) first.now octets.old }
    ensures last { result ≡ last_block SIZE (length octets.old / SIZE) first.now octets.old }
{
    let pair = 2 * SIZE;
    let pairs = octets.len() / pair;
    let mut before = *first;
    for i in 0..pairs {
        before = unchain_two(cipher, &before, &mut octets[pair * i..pair * i + pair]);
    }
    let start = pair * pairs;
    if start < octets.len() {
        before = unchain_one(cipher, &before, &mut octets[start..]);
    }
    before
}

/// Decrypts two whole blocks, combines each with the encrypted block before it, and returns the second encrypted one.
fn unchain_two<const SIZE: usize, C: BlockDecrypt<SIZE>>(
    cipher: &C,
    before: &[u8; SIZE],
    place: &mut [u8],
) -> [u8; SIZE]
    requires { length place.old ≡ 2 * SIZE }
    ensures plain { place.new ≡ xor_lists (C.decrypts cipher.now (take SIZE place.old)) before.now
        ++ xor_lists (C.decrypts cipher.now (drop SIZE place.old)) (take SIZE place.old) }
    ensures last { result ≡ drop SIZE place.old }
{
    let mut first = [0; SIZE];
    first.copy_from_slice(&place[..SIZE]);
    let mut second = [0; SIZE];
    second.copy_from_slice(&place[SIZE..]);
    let (one, two) = cipher.decrypt_two(&first, &second);
    place[..SIZE].copy_from_slice(&xored_with(before, &one));
    place[SIZE..].copy_from_slice(&xored_with(&first, &two));
    second
}

/// Decrypts a whole block, combines it with the encrypted block before it, and returns the encrypted one.
fn unchain_one<const SIZE: usize, C: BlockDecrypt<SIZE>>(
    cipher: &C,
    before: &[u8; SIZE],
    place: &mut [u8],
) -> [u8; SIZE]
    requires { length place.old ≡ SIZE }
    ensures plain { place.new ≡ xor_lists (C.decrypts cipher.now place.old) before.now }
    ensures last { result ≡ place.old }
{
    let mut block = [0; SIZE];
    block.copy_from_slice(place);
    let plain = cipher.decrypt_block(&block);
    place.copy_from_slice(&xored_with(before, &plain));
    block
}

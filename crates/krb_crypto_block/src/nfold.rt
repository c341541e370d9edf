//! n-fold (RFC 3961, 5.1).

ghost use Rattle.std.specs.Prelude.{◌≡◌, ℕ, ◌+◌, ◌-◌, ◌*◌, ◌/◌, ◌%◌, ◌^◌, ◌<◌, ◌≤◌, length, IfOk, IfErr};
ghost use Rattle.krb_crypto_block.specs.Fold.{number, gcd, rot, folded_number, fold};
ghost use Rattle.krb_crypto_hash.specs.declared.error.KerberosCryptoError.TheVariants.{OutOfMemory};

use crate::octets::are_octets;
use krb_crypto_hash::KerberosCryptoResult;
use std::alloc::Global;

/// The octets of a word, in which short inputs are folded.
const WORD_SIZE: usize = 16;

/// The octets folded to `n` bits (RFC 3961, 5.1): the copies of the input, each turned right by 13 bits more than the one
/// before, as many as fill a common multiple of both lengths, are cut into pieces of `n` bits and added in
/// ones'-complement arithmetic.
///
/// The input is not empty, and `n` is a positive multiple of 8. `OutOfMemory` is the only error.
pub fn n_fold(alloc: Global, input: &[u8], n: usize) -> KerberosCryptoResult<Vec<u8>>
    requires padded { 0 < length input.now }
    requires whole { n % 8 ≡ 0 }
    requires some { 0 < n }
    ensures size { IfOk result (λ v. length v.items ≡ n / 8) }
    ensures value { IfOk result (λ v. v.items ≡ fold input.now n) }
    ensures rejected { IfErr result (λ e. e ≡ OutOfMemory) }
{
    let mut folded = vec![in alloc; 0u8; n / 8]?;
    n_fold_into(input, &mut folded);
    Ok(folded)
}

/// The octets folded to as many bits as the caller's octets have (RFC 3961, 5.1), which are written over and may have held
/// anything. Neither is empty. It allocates nothing.
pub fn n_fold_into(input: &[u8], out: &mut [u8])
    requires padded { 0 < length input.now }
    requires some { 0 < length out.old }
    ensures { out.new ≡ fold input.now (8 * length out.old) }
{
    if out.len() == WORD_SIZE && 2 <= input.len() && input.len() <= 8 {
        out.copy_from_slice(&word_of(input).to_be_bytes());
        return;
    }
    out.fill(0);
    fold_into(out, input);
    are_octets(out);
}

/// Two to eight octets folded to a word. With the five octets of a usage's constant the compiler knows by how much each turn is moved.
fn word_of(input: &[u8]) -> u128
    requires two { 2 ≤ length input.now }
    requires eight { length input.now ≤ 8 }
    ensures { result ≡ folded_number (number input.now) (8 * length input.now) 128 }
{
    if input.len() == 5 {
        return fold_to_word(input, 5, 16);
    }
    let turns = WORD_SIZE / greatest_common_divisor(WORD_SIZE, input.len());
    fold_to_word(input, input.len(), turns)
}

/// Octets folded to a word, with the number of their turns: before each turn is added, the sum is multiplied by two to the power of a
/// turn's bits, modulo 2^128 - 1.
#[inline(always)]
fn fold_to_word(input: &[u8], size: usize, count: usize) -> u128
    requires all { size ≡ length input.now }
    requires two { 2 ≤ size }
    requires eight { size ≤ 8 }
    requires turns { count ≡ 16 / gcd 16 size }
    ensures { result ≡ folded_number (number input.now) (8 * length input.now) 128 }
{
    let bits = 8 * size;
    let whole = number_of(input) as u128;
    let twice = (whole << bits) + whole;
    let mut sum = 0;
    let mut shift = 0;
    'turns: for turn in 0..count {
        let turned = low_bits(twice >> shift, bits);
        sum = add_with_carry(turn_left(sum, bits), turned);
        shift += 13;
        if shift >= bits {
            shift -= bits;
        }
    }
    sum
}

/// The number whose octets these are, highest first.
fn number_of(octets: &[u8]) -> u64
    requires { length octets.now ≤ 8 }
    ensures { result ≡ number octets.now }
{
    let mut n = 0;
    for octet in octets {
        n = n * 256 + *octet as u64;
    }
    n
}

/// The lowest bits of a word.
fn low_bits(word: u128, bits: usize) -> u128
    requires { bits < 128 }
    ensures { result ≡ word % 2 ^ bits }
{
    word & ((1 << bits) - 1)
}

/// The word turned left: multiplied by two to the power of the bits, modulo 2^128 - 1.
fn turn_left(word: u128, bits: usize) -> u128
    requires some { 0 < bits }
    requires few { bits < 128 }
    ensures value { word * 2 ^ bits ≡ result + word / 2 ^ (128 - bits) * (2 ^ 128 - 1) }
    ensures above { word / 2 ^ (128 - bits) ≤ result }
{
    (word << bits) + (word >> (128 - bits))
}

/// The sum, with the carry added to it.
fn add_with_carry(a: u128, b: u128) -> u128
    ensures small { a + b < 2 ^ 128 → result ≡ a + b }
    ensures large { 2 ^ 128 ≤ a + b → result + (2 ^ 128 - 1) ≡ a + b }
{
    let sum = a.wrapping_add(b);
    sum + u128::from(sum < a)
}

/// Adds the turns of the input to the sum, octet by octet from the right, round and round, with end-around carry.
fn fold_into(sum: &mut [u8], input: &[u8])
    requires padded { 0 < length input.now }
    requires some { 0 < length sum.old }
    requires zero { number sum.old ≡ 0 }
    ensures { number sum.new ≡ folded_number (number input.now) (8 * length input.now) (8 * length sum.old) }
{
    let size = sum.len();
    let count = size / greatest_common_divisor(size, input.len());
    let mut place = 0;
    let mut carry = 0;
    'turns: for back in 0..count {
        let turn = count - 1 - back;
        let shift = 5 * (turn % 8) % 8;
        let mut from = (turn + turn / 8 * 5 + turn % 8 * 5 / 8) % input.len();
        'octets: for e in 0..input.len() {
            let octet = turned_octet(input, from, shift);
            carry = add_octet(sum, place, octet, carry);
            from += 1;
            if from == input.len() {
                from = 0;
            }
            place += 1;
            if place == size {
                place = 0;
            }
        }
    }
    'last: for i in 0..size {
        carry = add_octet(sum, i, 0, carry);
    }
}

/// The eight bits of the input that begin this many bits above the lowest bit of the octet at a place from the right, where
/// the last octet comes again above the first. With 13 `j` bits being `j + 5 j / 8` octets and `5 j % 8` bits, they are octet
/// `e` from the right of the input turned right by 13 `j` bits.
fn turned_octet(input: &[u8], place: usize, shift: usize) -> u8
    requires inside { place < length input.now }
    requires few { shift < 8 }
    ensures { (j e : ℕ) → e < length input.now → place ≡ ((j + 5 * j / 8) % length input.now + e) % length input.now → shift ≡ 5 * j % 8
        → result ≡ rot (number input.now) (8 * length input.now) j / 256 ^ e % 256 }
{
    let last = input.len() - 1;
    let low = input[last - place];
    let high = input[if place == last {
        last
    } else {
        last - place - 1
    }];
    let pair = high as u16 * 256 + low as u16;
    ((pair >> shift) % 256) as u8
}

/// Adds an octet and a carry at a place from the right, and returns the carry.
fn add_octet(sum: &mut [u8], place: usize, octet: u8, carry: u8) -> u8
    requires inside { place < length sum.old }
    requires one { carry ≤ 1 }
    ensures carry { result ≤ 1 }
    ensures value { number sum.new + result * 256 ^ (place + 1) ≡ number sum.old + (octet + carry) * 256 ^ place }
{
    let at = sum.len() - 1 - place;
    let total = sum[at] as u16 + octet as u16 + carry as u16;
    sum[at] = (total % 256) as u8;
    (total / 256) as u8
}

/// By Euclid's algorithm, for a positive first number.
fn greatest_common_divisor(mut a: usize, mut b: usize) -> usize
    requires { 0 < a }
    ensures { result ≡ gcd a b }
{
    while b != 0 {
        let rest = a % b;
        a = b;
        b = rest;
    }
    a
}

//! INTEGER.

ghost use Rattle.std.specs.Prelude.{◌≡◌, ◌==◌, ℕ, ◌^◌, ◌<◌, ◌≤◌, ℤ, pos, length, drop, slice_index, FitsSigned, MatchBool, MatchOption, SomeIff, IsOkAnd, IfOk, IfErr, OnErr};
ghost use Rattle.std.specs.Int.{w64};
ghost use Rattle.std.specs.Int.Digits.{number_from_digits};
ghost use Rattle.std.specs.Cmp.Lexicographic.{pointwise};
ghost use Rattle.std.specs.Cmp.Rules.{comparing};
ghost use Rattle.std.proofs.Common.{rules};
ghost use Rattle.krb_der_core.specs.Tlv.{tlv};
ghost use Rattle.krb_der_core.specs.TlvLaws.{tagged_element, tagged_one_value};
ghost use Rattle.krb_der_core.specs.Integer.{inverted, shortest, whole_number, octets_held, IsHeld, IsShortest};
ghost use Rattle.krb_der_core.specs.IntegerLaws.{integer_one_content};
ghost use Rattle.krb_der_core.specs.declared.error.Asn1DerError.TheVariants.{OutOfMemory};
ghost use Rattle.krb_der_core.specs.Errors.{PrimitiveError};
ghost use Rattle.krb_der_core.specs.ErrorLaws.{primitive_error_laws};

use crate::content::{Content, read_tagged};
use crate::der::{Der, DerEncode};
use crate::error::Asn1DerError;
use crate::octet_string::known_octets;
use crate::tlv::{number_of, write_tlv};
use std::alloc::{AllocError, Global};
use std::fmt;
use std::fmt::{Debug, Formatter, Write};
use std::marker::Model;

/// The tag of an INTEGER: universal 2 (X.690, 8.3).
pub(crate) const INTEGER: u8 = 0x02;

/// The largest number of octets of a number that fits 64 bits.
const I64_OCTETS: usize = 8;

/// The largest number of octets that stand in a value without memory of its own.
const FEW: usize = 7;

/// INTEGER (X.690, 8.3): a whole number of any size. The content is its shortest two's complement, highest octet first.
///
/// A number of at most seven octets that is read takes no memory. A contract sees the number.
#[derive(Drop)]
pub struct IntegerAsn1 {
    /// How many octets of `few` are the number's.
    count: u8,
    few: [u8; FEW],
    /// The octets of the number, where `few` has none.
    more: Vec<u8>,
}

impl Model for IntegerAsn1 {
    ghost Value = { ℤ };

    ghost view = { λ s. whole_number (octets_held s.count s.few s.more.items) };

    ghost invariant = { λ s. IsHeld s.count s.few s.more.items };
}

/// Whether octets are the content of an INTEGER: there is one, and the first is not redundant (X.690, 8.3.2).
pub fn is_shortest(octets: &[u8]) -> bool
    ensures { MatchBool result (IsShortest octets.now) (IsShortest octets.now → ⊥) }
{
    match octets {
        [] => false,
        [_] => true,
        [first, second, ..] => *first != if *second < 128 { 0x00 } else { 0xff },
    }
}

/// The number of redundant leading octets.
fn needless(octets: &[u8]) -> usize
    requires { 0 < length octets.now }
    ensures within { result < length octets.now }
    ensures same { whole_number (drop result octets.now) ≡ whole_number octets.now }
    ensures short { IsShortest (drop result octets.now) }
{
    let mut n = 0;
    while !is_shortest(&octets[n..]) {
        n += 1;
    }
    n
}

/// The number that the complements of the octets represent in base 256, highest octet first.
fn number_of_inverted(octets: &[u8]) -> usize
    requires { length octets.now ≤ 8 }
    ensures { result ≡ number_from_digits 256 (inverted octets.now) }
{
    let mut n = 0usize;
    for octet in octets {
        n = n * 256 + !*octet as usize;
    }
    n
}

/// The octets of a number, where they stand.
fn octets_held<'a>(count: u8, few: &'a [u8; FEW], more: &'a [u8]) -> &'a [u8]
    requires { IsHeld count few.now more.now }
    ensures { result.now ≡ octets_held count few.now more.now }
{
    if count == 0 {
        return more;
    }
    &few[..count as usize]
}

impl IntegerAsn1 {
    /// The number of a vector's octets, which are its shortest.
    fn from_vector(octets: Vec<u8>) -> IntegerAsn1
        requires { IsShortest octets.items }
        ensures { result ≡ whole_number octets.items }
    {
        IntegerAsn1 {
            count: 0,
            few: [0; FEW],
            more: octets,
        }
    }

    /// The number of at most seven octets, which are its shortest.
    fn from_few(alloc: Global, octets: &[u8]) -> IntegerAsn1
        requires few { length octets.now ≤ 7 }
        requires short { IsShortest octets.now }
        ensures { result ≡ whole_number octets.now }
    {
        let mut few = [0; FEW];
        few[..octets.len()].copy_from_slice(octets);
        IntegerAsn1 {
            count: octets.len() as u8,
            few,
            more: Vec::new(alloc),
        }
    }

    /// The number of octets, which are its shortest.
    fn from_shortest(alloc: Global, octets: &[u8]) -> Result<IntegerAsn1, AllocError>
        requires { IsShortest octets.now }
        ensures { IfOk result (λ v. v ≡ whole_number octets.now) }
    {
        if octets.len() > FEW {
            return Ok(IntegerAsn1::from_vector(Vec::from_slice(alloc, octets)?));
        }
        Ok(IntegerAsn1::from_few(alloc, octets))
    }

    /// The number that the octets represent in two's complement, highest octet first; none represent zero.
    ///
    /// No error comes: zero stands in the value, and other numbers in the vector.
    pub fn from_bytes_be_signed(alloc: Global, octets: Vec<u8>) -> Result<Self, Asn1DerError>
        ensures { IsOkAnd result (λ v. v ≡ whole_number octets.items) }
    {
        if octets.is_empty() {
            return Ok(IntegerAsn1::from_few(alloc, &[0]));
        }
        let mut octets = octets;
        let prefix = needless(&octets);
        let kept = octets.len() - prefix;
        octets.rotate_left(prefix);
        octets.truncate(kept);
        Ok(IntegerAsn1::from_vector(octets))
    }

    /// The number that the octets represent, highest octet first, which is not negative; none represent zero.
    ///
    /// The only error is `OutOfMemory`: an octet is added where the first is 128 or more.
    pub fn from_bytes_be_unsigned(alloc: Global, octets: Vec<u8>) -> Result<Self, Asn1DerError>
        ensures value { IfOk result (λ v. v ≡ pos (number_from_digits 256 octets.items)) }
        ensures err { IfErr result (λ e. e ≡ OutOfMemory) }
        ensures needed { OnErr result ((0 < length octets.items) × (128 ≤ slice_index octets.items 0)) }
    {
        let mut octets = octets;
        if octets.first().is_some_and(|first| *first >= 128) {
            octets.insert(0, 0)?;
        }
        IntegerAsn1::from_bytes_be_signed(alloc, octets)
    }

    /// The number. It takes no memory, so no error comes.
    pub fn from_u32(alloc: Global, number: u32) -> Self
        ensures { result ≡ pos number }
    {
        let [first, second, third, fourth] = number.to_be_bytes();
        let octets = [0, first, second, third, fourth];
        IntegerAsn1::from_few(alloc, &octets[needless(&octets)..])
    }

    /// The shortest two's complement of the number, highest octet first.
    pub fn as_signed_bytes_be(&self) -> &[u8]
        ensures { result.now ≡ shortest self.now }
    {
        let octets = octets_held(self.count, &self.few, &self.more);
        known_octets(octets);
        octets
    }

    /// The number, where it fits 64 bits; `None` where it does not.
    pub fn to_i64(&self) -> Option<i64>
        ensures { SomeIff result (FitsSigned w64 self.now) self.now }
    {
        let octets = self.as_signed_bytes_be();
        if octets.len() > I64_OCTETS {
            return None;
        }
        if octets[0] < 128 {
            Some(number_of(octets) as i64)
        } else {
            Some(-1 - number_of_inverted(octets) as i64)
        }
    }

    /// The number, where it fits 32 bits and is not negative; `None` where it does not.
    pub fn to_u32(&self) -> Option<u32>
        ensures { MatchOption result ((n : ℕ) → n < 2 ^ 32 → self.now ≡ pos n → ⊥) (λ n. self.now ≡ pos n) }
    {
        u32::try_from(self.to_i64()?).ok()
    }

    /// Whether it is this number.
    pub fn is_number(&self, number: u32) -> bool
        ensures { MatchBool result (self.now ≡ pos number) (self.now ≡ pos number → ⊥) }
    {
        self.to_u32() == Some(number)
    }
}

impl Debug for IntegerAsn1 {
    fn fmt<W: Write>(&self, f: &mut Formatter<W>) -> fmt::Result {
        f.debug_tuple("IntegerAsn1")
            .field(&self.as_signed_bytes_be())
            .finish()
    }
}

impl PartialEq for IntegerAsn1 {
    ghost eq = { λ a b. pointwise ◌==◌ (shortest a) (shortest b) };

    ghost laws = { Prim.search (comparing, rules) };

    fn eq(&self, other: &Self) -> bool {
        self.as_signed_bytes_be() == other.as_signed_bytes_be()
    }
}

impl Eq for IntegerAsn1 {
    ghost laws = { Prim.search (comparing, rules) };
}

impl Content for IntegerAsn1 {
    ghost octets = { shortest };

    ghost has_content = { λ v. Unit {0} };

    ghost one_content = { integer_one_content };

    fn read_content(alloc: Global, content: &[u8]) -> Result<Self, Asn1DerError> {
        if !is_shortest(content) {
            return Err(Asn1DerError::InvalidData);
        }
        Ok(IntegerAsn1::from_shortest(alloc, content)?)
    }
}

impl DerEncode for IntegerAsn1 {
    ghost enc = { λ v. tlv 2 (shortest v) };

    ghost is_value = { λ v. Unit {0} };

    ghost first = { λ t. t == 2 };

    ghost is_element = { λ v h. tagged_element 2 (shortest v) };

    ghost one_value = { tagged_one_value 2 (λ v. Unit {0}) shortest integer_one_content };

    ghost error = { PrimitiveError 2 (λ v. Unit {0}) shortest };

    ghost error_laws = { primitive_error_laws 2 (λ v. Unit {0}) shortest };

    fn starts(octet: u8) -> bool {
        octet == INTEGER
    }

    fn write(&self, _alloc: Global, out: &mut Vec<u8>) -> Result<(), AllocError> {
        write_tlv(INTEGER, self.as_signed_bytes_be(), out)
    }
}

impl Der for IntegerAsn1 {
    fn read_element(alloc: Global, tag: u8, content: &[u8]) -> Result<Self, Asn1DerError> {
        read_tagged(alloc, INTEGER, tag, content)
    }
}

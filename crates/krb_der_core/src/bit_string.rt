//! BIT STRING.

ghost use Rattle.std.specs.Prelude.{◌≡◌, ◌==◌, ◌&&◌, ◌≤◌, ◌^◌, ◌∷◌, ◌++◌, List, ℕ, length, take, MatchBool, IfOk, IfErr, OnOk, OnErr};
ghost use Rattle.std.specs.Cmp.Lexicographic.{pointwise};
ghost use Rattle.std.specs.Cmp.Rules.{comparing};
ghost use Rattle.std.proofs.Common.{rules};
ghost use Rattle.krb_der_core.specs.Tlv.{tlv};
ghost use Rattle.krb_der_core.specs.TlvLaws.{tagged_element, tagged_one_value};
ghost use Rattle.krb_der_core.specs.BitString.{Bits, IsBits, bits_content};
ghost use Rattle.krb_der_core.specs.BitStringLaws.{bits_one_content};
ghost use Rattle.krb_der_core.specs.declared.error.Asn1DerError.TheVariants.{InvalidData};
ghost use Rattle.krb_der_core.specs.Errors.{PrimitiveError};
ghost use Rattle.krb_der_core.specs.ErrorLaws.{primitive_error_laws};

use crate::content::{Content, read_tagged};
use crate::der::{Der, DerEncode};
use crate::error::Asn1DerError;
use crate::tlv::{begin_tlv, end_tlv};
use std::alloc::{AllocError, Global};
use std::marker::Model;

/// The tag of a BIT STRING: universal 3 (X.690, 8.6).
const BIT_STRING: u8 = 0x03;

/// BIT STRING (X.690, 8.6 and 11.2): octets, and the number of unused bits in the last one, 0 to 7.
///
/// The content is the number of unused bits in one octet, and the octets. Unused bits are zeros, and there are none
/// without octets. A contract sees the octets and the number of unused bits.
#[derive(Debug, Drop)]
pub struct BitStringAsn1 {
    octets: Vec<u8>,
    spare: u8,
}

impl Model for BitStringAsn1 {
    ghost Value = { Bits };

    ghost view = { λ s. record { octets = s.octets.items; spare = s.spare } };

    ghost invariant = { λ s. IsBits (record { octets = s.octets.items; spare = s.spare }) };
}

/// Two to the power of n.
fn power_of_two(n: u8) -> u8
    requires { n ≤ 7 }
    ensures { result ≡ 2 ^ n }
{
    1u8 << n
}

/// Whether octets and the number of unused bits in the last one are those of a BIT STRING: the unused bits are at most
/// seven and zeros, and none without octets (X.690, 8.6.2 and 11.2.1).
pub fn are_bits(octets: &[u8], spare: u8) -> bool
    ensures { MatchBool result (IsBits (record { octets = octets.now; spare = spare })) (IsBits (record { octets = octets.now; spare = spare }) → ⊥) }
{
    if spare > 7 {
        return false;
    }
    if octets.is_empty() {
        return spare == 0;
    }
    octets[octets.len() - 1] % power_of_two(spare) == 0
}

impl BitStringAsn1 {
    /// The bits of the octets but for the last one's `spare` low bits, without a copy.
    ///
    /// `InvalidData` where `spare` is more than 7, an unused bit is set, or there are unused bits and no octets.
    pub fn new(octets: Vec<u8>, spare: u8) -> Result<Self, Asn1DerError>
        ensures value { IfOk result (λ v. (v ≡ record { octets = octets.items; spare = spare }) × IsBits v) }
        ensures rejected { IfErr result (λ e. (e ≡ InvalidData) × (IsBits (record { octets = octets.items; spare = spare }) → ⊥)) }
    {
        if !are_bits(&octets, spare) {
            return Err(Asn1DerError::InvalidData);
        }
        Ok(BitStringAsn1 { octets, spare })
    }

    /// All bits of the octets, without a copy.
    pub fn with_bytes(octets: Vec<u8>) -> Self
        ensures { result ≡ record { octets = octets.items; spare = 0 } }
    {
        BitStringAsn1 { octets, spare: 0 }
    }

    /// The octets. The last one's unused bits are zeros.
    pub fn octets(&self) -> &[u8]
        ensures { result.now ≡ self.now.octets }
    {
        self.octets.as_slice()
    }

    /// The number of unused low bits in the last octet: 0 to 7.
    pub fn spare_bits(&self) -> u8
        ensures { result ≡ self.now.spare }
    {
        self.spare
    }
}

impl PartialEq for BitStringAsn1 {
    ghost eq = { λ a b. a.spare == b.spare && pointwise ◌==◌ a.octets b.octets };

    ghost laws = { Prim.search (comparing, rules) };

    fn eq(&self, other: &Self) -> bool {
        self.spare == other.spare && self.octets.as_slice() == other.octets.as_slice()
    }
}

impl Eq for BitStringAsn1 {
    ghost laws = { Prim.search (comparing, rules) };
}

impl Content for BitStringAsn1 {
    ghost octets = { bits_content };

    ghost has_content = { IsBits };

    ghost one_content = { bits_one_content };

    fn read_content(alloc: Global, content: &[u8]) -> Result<Self, Asn1DerError> {
        if content.is_empty() {
            return Err(Asn1DerError::InvalidData);
        }
        let spare = content[0];
        let octets = &content[1..];
        if !are_bits(octets, spare) {
            return Err(Asn1DerError::InvalidData);
        }
        Ok(BitStringAsn1 {
            octets: Vec::from_slice(alloc, octets)?,
            spare,
        })
    }
}

/// Appends the number of spare bits and the octets. Where an allocation fails, the number may have been appended.
fn push_content(spare: u8, octets: &[u8], out: &mut Vec<u8>) -> Result<(), AllocError>
    ensures ok { OnOk result (out.new.items ≡ out.old.items ++ spare ∷ octets.now) }
    ensures err { OnErr result (take (length out.old.items) out.new.items ≡ out.old.items) }
{
    out.push(spare)?;
    out.extend_from_slice(octets)
}

impl DerEncode for BitStringAsn1 {
    ghost enc = { λ v. tlv 3 (bits_content v) };

    ghost is_value = { IsBits };

    ghost first = { λ t. t == 3 };

    ghost is_element = { λ v h. tagged_element 3 (bits_content v) };

    ghost one_value = { tagged_one_value 3 IsBits bits_content bits_one_content };

    ghost error = { PrimitiveError 3 IsBits bits_content };

    ghost error_laws = { primitive_error_laws 3 IsBits bits_content };

    fn starts(octet: u8) -> bool {
        octet == BIT_STRING
    }

    fn write(&self, _alloc: Global, out: &mut Vec<u8>) -> Result<(), AllocError> {
        let start = begin_tlv(out)?;
        if let Err(error) = push_content(self.spare, &self.octets, out) {
            out.truncate(start);
            return Err(error);
        }
        end_tlv(BIT_STRING, start, out)
    }
}

impl Der for BitStringAsn1 {
    fn read_element(alloc: Global, tag: u8, content: &[u8]) -> Result<Self, Asn1DerError> {
        read_tagged(alloc, BIT_STRING, tag, content)
    }
}

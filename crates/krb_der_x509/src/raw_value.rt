//! One value of any type.

ghost use Rattle.std.specs.Prelude.{◌≡◌, ◌==◌, ◌%◌, ◌&&◌, ◌++◌, not, true, List, ℕ, Bool, IfOk, IfErr, OnOk, OnErr, MatchBool, MatchResult};
ghost use Rattle.std.specs.Cmp.Lexicographic.{pointwise};
ghost use Rattle.std.specs.Cmp.Rules.{comparing};
ghost use Rattle.std.proofs.Common.{rules};
ghost use Rattle.krb_der_core.specs.Tlv.{tlv};
ghost use Rattle.krb_der_x509.specs.RawValue.{RawError, is_raw_first, raw_laws};
ghost use Rattle.krb_der_core.specs.Encoding.{IsElement};
ghost use Rattle.krb_der_core.specs.declared.error.Asn1DerError.TheVariants as errors;

use krb_der_core::{Asn1DerError, Der, DerEncode, read_tlv, write_tlv};
use std::alloc::{AllocError, Global};
use std::marker::Model;

/// One value of any type, whose content is not read further.
///
/// Its first octet is not `00`, and its tag is in one octet (X.690, 8.1.2.4). A contract sees the list of all
/// its octets.
#[derive(Debug, Drop)]
pub struct Asn1RawDer(Vec<u8>);

impl Model for Asn1RawDer {
    ghost Value = { List ℕ };

    ghost view = { λ s. s.0.items };

    ghost invariant = { λ s. IsElement is_raw_first s.0.items };
}

/// Whether a value may begin with this octet.
fn begins_value(octet: u8) -> bool
    ensures { result ≡ is_raw_first octet }
{
    octet != 0 && octet % 32 != 31
}

/// Whether the octets are one value.
fn is_one_value(octets: &[u8]) -> bool
    ensures { MatchBool result (IsElement is_raw_first octets.now) (IsElement is_raw_first octets.now → ⊥) }
{
    if octets.is_empty() {
        return false;
    }
    let tag = octets[0];
    if !begins_value(tag) {
        return false;
    }
    match read_tlv(tag, octets) {
        Ok((_, taken)) => taken == octets.len(),
        Err(_) => false,
    }
}

impl Asn1RawDer {
    /// The value whose encoding is these octets. `InvalidData` where they are not exactly one value.
    pub fn new(octets: Vec<u8>) -> Result<Self, Asn1DerError>
        ensures { MatchResult result (λ v. v ≡ octets.items) (λ e. (e ≡ errors.InvalidData) × (IsElement is_raw_first octets.items → ⊥)) }
    {
        if !is_one_value(&octets) {
            return Err(Asn1DerError::InvalidData);
        }
        Ok(Asn1RawDer(octets))
    }

    /// The octets of the value: tag, length and content.
    pub fn as_bytes(&self) -> &[u8]
        ensures { result.now ≡ self.now }
    {
        self.0.as_slice()
    }
}

impl PartialEq for Asn1RawDer {
    ghost eq = { pointwise ◌==◌ };

    ghost laws = { Prim.search (comparing, rules) };

    fn eq(&self, other: &Self) -> bool {
        self.0.as_slice() == other.0.as_slice()
    }
}

impl Eq for Asn1RawDer {
    ghost laws = { Prim.search (comparing, rules) };
}

impl DerEncode for Asn1RawDer {
    ghost enc = { λ v. v };

    ghost is_value = { IsElement is_raw_first };

    ghost first = { is_raw_first };

    ghost is_element = { λ v h. h };

    ghost one_value = { λ v w hv hw e. e };

    ghost error = { RawError };

    ghost error_laws = { raw_laws };

    fn starts(octet: u8) -> bool {
        begins_value(octet)
    }

    fn write(&self, _alloc: Global, out: &mut Vec<u8>) -> Result<(), AllocError> {
        out.extend_from_slice(self.0.as_slice())
    }
}

impl Der for Asn1RawDer {
    fn read_element(alloc: Global, tag: u8, content: &[u8]) -> Result<Self, Asn1DerError> {
        if !begins_value(tag) {
            return Err(Asn1DerError::InvalidData);
        }
        let mut octets = Vec::new(alloc);
        write_tlv(tag, content, &mut octets)?;
        Ok(Asn1RawDer(octets))
    }
}

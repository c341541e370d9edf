//! OCTET STRING.

ghost use Rattle.std.specs.Prelude.{◌≡◌, ◌==◌, List, ℕ};
ghost use Rattle.std.specs.Cmp.Lexicographic.{pointwise};
ghost use Rattle.std.specs.Cmp.Rules.{comparing};
ghost use Rattle.std.proofs.Common.{rules};
ghost use Rattle.krb_der_core.specs.Tlv.{tlv};
ghost use Rattle.krb_der_core.specs.TlvLaws.{tagged_element, tagged_one_value};
ghost use Rattle.krb_der_core.specs.Encoding.{IsOctets};
ghost use Rattle.krb_der_core.specs.PrimitiveLaws.{same_one_content};
ghost use Rattle.krb_der_core.specs.Errors.{PrimitiveError};
ghost use Rattle.krb_der_core.specs.ErrorLaws.{primitive_error_laws};

use crate::content::{Content, read_tagged};
use crate::der::{Der, DerEncode};
use crate::error::Asn1DerError;
use crate::tlv::write_tlv;
use std::alloc::{AllocError, Global};
use std::marker::Model;

/// The tag of an OCTET STRING: universal 4 (X.690, 8.7).
const OCTET_STRING: u8 = 0x04;

/// OCTET STRING (X.690, 8.7 and 10.2): the content is the octets themselves.
///
/// It is made from a vector and returns it, at `.0`, without a copy. A contract sees the list of its octets.
#[derive(Debug, Drop)]
pub struct OctetStringAsn1(pub Vec<u8>);

impl Model for OctetStringAsn1 {
    ghost Value = { List ℕ };

    ghost view = { λ s. s.0.items };
}

impl PartialEq for OctetStringAsn1 {
    ghost eq = { pointwise ◌==◌ };

    ghost laws = { Prim.search (comparing, rules) };

    fn eq(&self, other: &Self) -> bool {
        self.0.as_slice() == other.0.as_slice()
    }
}

impl Eq for OctetStringAsn1 {
    ghost laws = { Prim.search (comparing, rules) };
}

/// Lemma: what a slice holds are octets.
pub(crate) fn known_octets(octets: &[u8])
    ensures { IsOctets octets.now }
{}

impl Content for OctetStringAsn1 {
    ghost octets = { λ v. v };

    ghost has_content = { IsOctets };

    ghost one_content = { same_one_content IsOctets };

    fn read_content(alloc: Global, content: &[u8]) -> Result<Self, Asn1DerError> {
        Ok(OctetStringAsn1(Vec::from_slice(alloc, content)?))
    }
}

impl DerEncode for OctetStringAsn1 {
    ghost enc = { λ v. tlv 4 v };

    ghost is_value = { IsOctets };

    ghost first = { λ t. t == 4 };

    ghost is_element = { λ v h. tagged_element 4 v };

    ghost one_value = { tagged_one_value 4 IsOctets (λ v. v) (same_one_content IsOctets) };

    ghost error = { PrimitiveError 4 IsOctets (λ v. v) };

    ghost error_laws = { primitive_error_laws 4 IsOctets (λ v. v) };

    fn starts(octet: u8) -> bool {
        octet == OCTET_STRING
    }

    fn write(&self, _alloc: Global, out: &mut Vec<u8>) -> Result<(), AllocError> {
        known_octets(&self.0);
        write_tlv(OCTET_STRING, &self.0, out)
    }
}

impl Der for OctetStringAsn1 {
    fn read_element(alloc: Global, tag: u8, content: &[u8]) -> Result<Self, Asn1DerError> {
        read_tagged(alloc, OCTET_STRING, tag, content)
    }
}

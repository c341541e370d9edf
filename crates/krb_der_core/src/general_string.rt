//! GeneralString.

ghost use Rattle.std.specs.Prelude.{◌≡◌, ◌==◌, List, ℕ, IfOk, IfErr};
ghost use Rattle.std.specs.String.{string_bytes};
ghost use Rattle.std.specs.Str.{IsAscii, IsNotAscii};
ghost use Rattle.std.specs.Cmp.Lexicographic.{pointwise};
ghost use Rattle.std.specs.Cmp.Rules.{comparing};
ghost use Rattle.std.proofs.Common.{rules};
ghost use Rattle.krb_der_core.specs.Tlv.{tlv};
ghost use Rattle.krb_der_core.specs.TlvLaws.{tagged_element, tagged_one_value};
ghost use Rattle.krb_der_core.specs.PrimitiveLaws.{same_one_content};
ghost use Rattle.krb_der_core.specs.declared.error.Asn1DerError.TheVariants.{InvalidData};
ghost use Rattle.krb_der_core.specs.Errors.{PrimitiveError};
ghost use Rattle.krb_der_core.specs.ErrorLaws.{primitive_error_laws};

use crate::content::{Content, read_tagged};
use crate::der::{Der, DerEncode};
use crate::error::Asn1DerError;
use crate::tlv::write_tlv;
use std::alloc::{AllocError, Global};
use std::marker::Model;
use std::str;

/// The tag of a GeneralString: universal 27 (X.690, 8.23).
const GENERAL_STRING: u8 = 0x1b;

/// GeneralString (X.690, 8.23) as Kerberos uses it (RFC 4120, 5.2.1): the content is the text, of octets 0 to 127.
///
/// A contract sees the list of its octets.
#[derive(Debug, Drop)]
pub struct GeneralStringAsn1(String);

impl Model for GeneralStringAsn1 {
    ghost Value = { List ℕ };

    ghost view = { λ s. string_bytes s.0 };

    ghost invariant = { λ s. IsAscii (string_bytes s.0) };
}

impl GeneralStringAsn1 {
    /// The text, without a copy. `InvalidData` where one of its octets is more than 127.
    pub fn from_string(text: String) -> Result<Self, Asn1DerError>
        ensures value { IfOk result (λ v. (v ≡ string_bytes text) × IsAscii v) }
        ensures rejected { IfErr result (λ e. (e ≡ InvalidData) × IsNotAscii (string_bytes text)) }
    {
        if !text.as_str().is_ascii() {
            return Err(Asn1DerError::InvalidData);
        }
        Ok(GeneralStringAsn1(text))
    }

    /// The text.
    pub fn as_str(&self) -> &str
        ensures { result.now ≡ self.now }
    {
        self.0.as_str()
    }

    /// A lemma: each octet of a value is one of ASCII.
    pub fn is_ascii(&self)
        ensures { IsAscii self.now }
    {
        // A field in use shows the proof what holds of all of them.
        let _ = &self.0;
    }
}

impl PartialEq for GeneralStringAsn1 {
    ghost eq = { pointwise ◌==◌ };

    ghost laws = { Prim.search (comparing, rules) };

    fn eq(&self, other: &Self) -> bool {
        self.as_str().as_bytes() == other.as_str().as_bytes()
    }
}

impl Eq for GeneralStringAsn1 {
    ghost laws = { Prim.search (comparing, rules) };
}

impl Content for GeneralStringAsn1 {
    ghost octets = { λ v. v };

    ghost has_content = { IsAscii };

    ghost one_content = { same_one_content IsAscii };

    fn read_content(alloc: Global, content: &[u8]) -> Result<Self, Asn1DerError> {
        match str::from_utf8(content) {
            Ok(text) if text.is_ascii() => { Ok(GeneralStringAsn1(String::from_str(alloc, text)?)) }
            _ => Err(Asn1DerError::InvalidData),
        }
    }
}

impl DerEncode for GeneralStringAsn1 {
    ghost enc = { λ v. tlv 27 v };

    ghost is_value = { IsAscii };

    ghost first = { λ t. t == 27 };

    ghost is_element = { λ v h. tagged_element 27 v };

    ghost one_value = { tagged_one_value 27 IsAscii (λ v. v) (same_one_content IsAscii) };

    ghost error = { PrimitiveError 27 IsAscii (λ v. v) };

    ghost error_laws = { primitive_error_laws 27 IsAscii (λ v. v) };

    fn starts(octet: u8) -> bool {
        octet == GENERAL_STRING
    }

    fn write(&self, _alloc: Global, out: &mut Vec<u8>) -> Result<(), AllocError> {
        write_tlv(GENERAL_STRING, self.0.as_str().as_bytes(), out)
    }
}

impl Der for GeneralStringAsn1 {
    fn read_element(alloc: Global, tag: u8, content: &[u8]) -> Result<Self, Asn1DerError> {
        read_tagged(alloc, GENERAL_STRING, tag, content)
    }
}

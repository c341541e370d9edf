//! UTF8String.

ghost use Rattle.std.specs.Prelude.{◌≡◌, ◌==◌, List, ℕ};
ghost use Rattle.std.specs.String.{string_bytes};
ghost use Rattle.std.specs.Str.{IsUtf8};
ghost use Rattle.std.specs.Cmp.Lexicographic.{pointwise};
ghost use Rattle.std.specs.Cmp.Rules.{comparing};
ghost use Rattle.std.proofs.Common.{rules};
ghost use Rattle.krb_der_core.specs.Tlv.{tlv};
ghost use Rattle.krb_der_core.specs.TlvLaws.{tagged_element, tagged_one_value};
ghost use Rattle.krb_der_core.specs.PrimitiveLaws.{same_one_content};
ghost use Rattle.krb_der_core.specs.Errors.{PrimitiveError};
ghost use Rattle.krb_der_core.specs.ErrorLaws.{primitive_error_laws};

use crate::content::{Content, read_tagged};
use crate::der::{Der, DerEncode};
use crate::error::Asn1DerError;
use crate::tlv::write_tlv;
use std::alloc::{AllocError, Global};
use std::marker::Model;
use std::str;

/// The tag of a UTF8String: universal 12 (X.690, 8.23).
const UTF8_STRING: u8 = 0x0c;

/// UTF8String (X.690, 8.23): the content is the text in UTF-8 (RFC 3629).
///
/// Any text is allowed, and `.0` is the text. A contract sees the list of its octets, whatever the text's capacity.
#[derive(Debug, Drop)]
pub struct Utf8StringAsn1(pub String);

impl Model for Utf8StringAsn1 {
    ghost Value = { List ℕ };

    ghost view = { λ s. string_bytes s.0 };
}

/// Lemma: a text is valid UTF-8.
fn known_text(text: &str)
    ensures { IsUtf8 text.now }
{}

impl PartialEq for Utf8StringAsn1 {
    ghost eq = { pointwise ◌==◌ };

    ghost laws = { Prim.search (comparing, rules) };

    fn eq(&self, other: &Self) -> bool {
        self.0.as_str().as_bytes() == other.0.as_str().as_bytes()
    }
}

impl Eq for Utf8StringAsn1 {
    ghost laws = { Prim.search (comparing, rules) };
}

impl Content for Utf8StringAsn1 {
    ghost octets = { λ v. v };

    ghost has_content = { IsUtf8 };

    ghost one_content = { same_one_content IsUtf8 };

    fn read_content(alloc: Global, content: &[u8]) -> Result<Self, Asn1DerError> {
        match str::from_utf8(content) {
            Ok(text) => Ok(Utf8StringAsn1(String::from_str(alloc, text)?)),
            Err(_) => Err(Asn1DerError::InvalidData),
        }
    }
}

impl DerEncode for Utf8StringAsn1 {
    ghost enc = { λ v. tlv 12 v };

    ghost is_value = { IsUtf8 };

    ghost first = { λ t. t == 12 };

    ghost is_element = { λ v h. tagged_element 12 v };

    ghost one_value = { tagged_one_value 12 IsUtf8 (λ v. v) (same_one_content IsUtf8) };

    ghost error = { PrimitiveError 12 IsUtf8 (λ v. v) };

    ghost error_laws = { primitive_error_laws 12 IsUtf8 (λ v. v) };

    fn starts(octet: u8) -> bool {
        octet == UTF8_STRING
    }

    fn write(&self, _alloc: Global, out: &mut Vec<u8>) -> Result<(), AllocError> {
        known_text(self.0.as_str());
        write_tlv(UTF8_STRING, self.0.as_str().as_bytes(), out)
    }
}

impl Der for Utf8StringAsn1 {
    fn read_element(alloc: Global, tag: u8, content: &[u8]) -> Result<Self, Asn1DerError> {
        read_tagged(alloc, UTF8_STRING, tag, content)
    }
}

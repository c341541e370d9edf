//! Lemmas about identifiers and raw values.

ghost use Rattle.std.specs.Prelude.{◌≡◌, ◌↔◌, ◌⊎◌, ◌==◌, ◌&&◌, not, ◌%◌, List, ℕ};
ghost use Rattle.krb_der_core.specs.Tlv.{tlv};
ghost use Rattle.krb_der_core.specs.Errors.{TaggedError};
ghost use Rattle.krb_der_core.specs.declared.error.Asn1DerError.{Asn1DerError};
ghost use Rattle.krb_der_core.specs.declared.error.Asn1DerError.TheVariants.{InvalidData};
ghost use Rattle.krb_der_x509.specs.ObjectIdentifier.{arcs_content};
ghost use Rattle.krb_der_x509.specs.ObjectIdentifierErrors.{ArcsError};

use crate::object_identifier::ObjectIdentifierAsn1;
use crate::primitive::DerPrimitive;
use crate::raw_value::Asn1RawDer;
use krb_der_core::DerEncode;

/// The tag and the content of an object identifier (X.690, 8.19), and a raw value, which is its own encoding.
pub fn encodings()
    ensures object_identifier { (v : List ℕ) → ⟦<ObjectIdentifierAsn1 as DerEncode>⟧.enc v ≡ tlv 6 (arcs_content v) }
    ensures raw_value { (v : List ℕ) → ⟦<Asn1RawDer as DerEncode>⟧.enc v ≡ v }
{}

/// The first error of an object identifier (X.690, 8.19): another tag, or that of its content, from the left. A raw
/// value has one alone: its first octet is `00`, or that of a tag of more than one octet (X.690, 8.1.2.4). An object
/// identifier begins with its tag, a raw value with any octet but these.
pub fn errors()
    ensures object_identifier { (t : ℕ) (content : List ℕ) (e : Asn1DerError) → ⟦<ObjectIdentifierAsn1 as DerEncode>⟧.error t content e
        ↔ TaggedError 6 ArcsError t content e }
    ensures raw_value { (t : ℕ) (content : List ℕ) (e : Asn1DerError) → ⟦<Asn1RawDer as DerEncode>⟧.error t content e
        ↔ (e ≡ InvalidData) × ((t ≡ 0) ⊎ (t % 32 ≡ 31)) }
    ensures object_identifier_tag { (t : ℕ) → ⟦<ObjectIdentifierAsn1 as DerEncode>⟧.first t ≡ (t == 6) }
    ensures raw_value_tag { (t : ℕ) → ⟦<Asn1RawDer as DerEncode>⟧.first t ≡ (not (t == 0) && not (t % 32 == 31)) }
{}

/// The encoding of a primitive type that may have an implicit tag is its own tag and its content (X.690, 8.14).
pub fn primitive_encoding<T: DerPrimitive>()
    ensures { (v : T) → T.enc v ≡ tlv T.tag (T.inner v) }
{}

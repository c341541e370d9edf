//! Primitive types whose tag an implicit tag replaces.

ghost use Rattle.std.specs.Prelude.{◌≡◌, ℕ, List, refl, pos};
ghost use Rattle.krb_der_core.specs.BitString.{bits_content};
ghost use Rattle.krb_der_core.specs.GeneralizedTime.{time_content};
ghost use Rattle.krb_der_core.specs.Integer.{shortest};
ghost use Rattle.krb_der_core.specs.Primitive.{bool_content};
ghost use Rattle.krb_der_core.specs.Tlv.{tlv};
ghost use Rattle.krb_der_x509.specs.ObjectIdentifier.{arcs_content};

use crate::object_identifier::ObjectIdentifierAsn1;
use krb_der_core::{
    BitStringAsn1, Der, GeneralStringAsn1, GeneralizedTimeAsn1, IntegerAsn1, OctetStringAsn1,
    Utf8StringAsn1,
};

/// A primitive type all of whose encodings have one tag, which an implicit tag replaces (X.690, 8.14).
pub trait DerPrimitive: Der {
    /// The tag.
    ghost tag: { ℕ };

    /// The content of a value's encoding.
    ghost inner: { Self → List ℕ };

    /// The tag.
    fn tag() -> u8
        ensures { result ≡ tag };

    /// The encoding has this tag and this content.
    ghost is_primitive: { (v : Self) → Self.enc v ≡ tlv tag (inner v) };
}

/// BOOLEAN: universal 1 (X.690, 8.2).
impl DerPrimitive for bool {
    ghost tag = { 1 };

    ghost inner = { bool_content };

    ghost is_primitive = { λ v. refl };

    fn tag() -> u8 {
        1
    }
}

/// INTEGER: universal 2 (X.690, 8.3).
impl DerPrimitive for u32 {
    ghost tag = { 2 };

    ghost inner = { λ v. shortest (pos v) };

    ghost is_primitive = { λ v. refl };

    fn tag() -> u8 {
        2
    }
}

/// INTEGER: universal 2 (X.690, 8.3).
impl DerPrimitive for IntegerAsn1 {
    ghost tag = { 2 };

    ghost inner = { shortest };

    ghost is_primitive = { λ v. refl };

    fn tag() -> u8 {
        2
    }
}

/// BIT STRING: universal 3 (X.690, 8.6).
impl DerPrimitive for BitStringAsn1 {
    ghost tag = { 3 };

    ghost inner = { bits_content };

    ghost is_primitive = { λ v. refl };

    fn tag() -> u8 {
        3
    }
}

/// OCTET STRING: universal 4 (X.690, 8.7).
impl DerPrimitive for OctetStringAsn1 {
    ghost tag = { 4 };

    ghost inner = { λ v. v };

    ghost is_primitive = { λ v. refl };

    fn tag() -> u8 {
        4
    }
}

/// OBJECT IDENTIFIER: universal 6 (X.690, 8.19).
impl DerPrimitive for ObjectIdentifierAsn1 {
    ghost tag = { 6 };

    ghost inner = { arcs_content };

    ghost is_primitive = { λ v. refl };

    fn tag() -> u8 {
        6
    }
}

/// UTF8String: universal 12 (X.690, 8.23).
impl DerPrimitive for Utf8StringAsn1 {
    ghost tag = { 12 };

    ghost inner = { λ v. v };

    ghost is_primitive = { λ v. refl };

    fn tag() -> u8 {
        12
    }
}

/// GeneralizedTime: universal 24 (X.690, 8.25).
impl DerPrimitive for GeneralizedTimeAsn1 {
    ghost tag = { 24 };

    ghost inner = { time_content };

    ghost is_primitive = { λ v. refl };

    fn tag() -> u8 {
        24
    }
}

/// GeneralString: universal 27 (X.690, 8.23).
impl DerPrimitive for GeneralStringAsn1 {
    ghost tag = { 27 };

    ghost inner = { λ v. v };

    ghost is_primitive = { λ v. refl };

    fn tag() -> u8 {
        27
    }
}

//! Contents of INTEGERs, BIT STRINGs, BOOLEANs, GeneralStrings and OBJECT IDENTIFIERs.

ghost use Rattle.std.specs.Prelude.{◌≡◌, ◌<◌, ◌^◌, ℤ, pos, Bool, IfErr, MatchBool, OnOk};
ghost use Rattle.std.specs.Str.{IsAscii};
ghost use Rattle.krb_der_core.specs.BitString.{IsBits, bits_content};
ghost use Rattle.krb_der_core.specs.Integer.{shortest};
ghost use Rattle.krb_der_core.specs.Primitive.{bool_content};
ghost use Rattle.krb_der_x509.specs.ObjectIdentifier.{IsArcs, arcs_content};
ghost use Rattle.krb_der_x509.specs.ObjectIdentifierErrors.{ArcsError};
ghost use Rattle.krb_encoding_check.specs.Contents.{Has, HasNone};

use krb_der_core::{Asn1DerError, are_bits, is_shortest, number_of};
use krb_der_x509::read_sub_identifier;
use std::str;

/// The largest number of octets of a number that fits 64 bits.
const U64_OCTETS: usize = 8;

/// The largest number of 32 bits.
const MOST: usize = 0xffff_ffff;

/// Whether a content is that of an INTEGER.
pub(crate) fn is_integer(content: &[u8]) -> bool
    ensures { MatchBool result (Has {A = ℤ} (λ v. Unit {0}) shortest content.now) (HasNone {A = ℤ} (λ v. Unit {0}) shortest content.now) }
{
    is_shortest(content)
}

/// Whether a content is that of an INTEGER from 0 to 2^32 - 1.
pub(crate) fn is_unsigned(content: &[u8]) -> bool
    ensures { MatchBool result (Has (λ v. v < 2 ^ 32) (λ v. shortest (pos v)) content.now) (HasNone (λ v. v < 2 ^ 32) (λ v. shortest (pos v)) content.now) }
{
    if !is_shortest(content) {
        return false;
    }
    if content.len() > U64_OCTETS {
        return false;
    }
    if content[0] >= 128 {
        return false;
    }
    let number = number_of(content);
    if number > MOST {
        return false;
    }
    true
}

/// Whether a content is that of a BIT STRING.
pub(crate) fn is_bit_string(content: &[u8]) -> bool
    ensures { MatchBool result (Has IsBits bits_content content.now) (HasNone IsBits bits_content content.now) }
{
    match content {
        [] => false,
        [spare, octets @ ..] => are_bits(octets, *spare),
    }
}

/// Whether a content is that of a GeneralString of octets 0 to 127.
pub(crate) fn is_text(content: &[u8]) -> bool
    ensures { MatchBool result (Has IsAscii (λ v. v) content.now) (HasNone IsAscii (λ v. v) content.now) }
{
    match str::from_utf8(content) {
        Ok(text) => text.is_ascii(),
        Err(_error) => false,
    }
}

/// Whether a content is that of a BOOLEAN.
pub(crate) fn is_truth(content: &[u8]) -> bool
    ensures { MatchBool result (Has {A = Bool} (λ v. Unit {0}) bool_content content.now) (HasNone {A = Bool} (λ v. Unit {0}) bool_content content.now) }
{
    match content {
        [octet] => *octet == 0 || *octet == 0xff,
        _ => false,
    }
}

/// Refuses a content that is not that of an OBJECT IDENTIFIER, by its first error.
pub(crate) fn check_arcs(content: &[u8]) -> Result<(), Asn1DerError>
    ensures right { OnOk result (Has IsArcs arcs_content content.now) }
    ensures refused { IfErr result (ArcsError content.now) }
{
    if content.is_empty() {
        return Err(Asn1DerError::InvalidData);
    }
    let mut rest = content;
    while !rest.is_empty() {
        let (_number, taken) = read_sub_identifier(rest)?;
        rest = &rest[taken..];
    }
    Ok(())
}

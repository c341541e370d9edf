//! The element at the start of octets, by what a row says of it: its tag, its fields, and what it may hold.

ghost use Rattle.std.specs.Prelude.{◌≡◌, ◌≤◌, ◌<◌, ◌+◌, ◌++◌, [], true, None, Some, length, drop, IfErr, IfOk, MatchBool, MatchOption, OnOk};
ghost use Rattle.std.specs.List.{slice_get};
ghost use Rattle.krb_der_core.specs.Tlv.{header, tlv};
ghost use Rattle.krb_der_core.specs.declared.error.Asn1DerError.TheVariants as errors;
ghost use Rattle.krb_schema.specs.Faults.{HasElement, IsHeaderFault};
ghost use Rattle.krb_schema.specs.declared.item.Fault.TheVariants as faults;
ghost use Rattle.krb_schema.specs.Shapes.{Applies, Begins, IsRange, called, is_first, number_octets, part, tag_of};

use crate::item::Fault;
use crate::shape::{Case, Field, Name, Schema, Shape};
use krb_der_core::{Asn1DerError, read_tlv};

/// The shape of a row; `None` where the schema has no such row.
pub fn shape_of(schema: &Schema, is: usize) -> Option<Shape>
    ensures { MatchOption result (slice_get schema.now.shapes.now is ≡ None) (λ shape. slice_get schema.now.shapes.now is ≡ Some shape) }
{
    if is < schema.shapes.len() {
        Some(schema.shapes[is])
    } else {
        None
    }
}

/// So many rows of a table, from one on; none where there are not so many.
pub fn part_of<T>(all: &[T], start: usize, count: usize) -> Option<&[T]>
    ensures { MatchOption result (IsRange start count all.now → ⊥) (λ rows. IsRange start count all.now × (rows.now ≡ part start count all.now)) }
{
    if start <= all.len() && count <= all.len() - start {
        let behind = &all[start..];
        Some(&behind[..count])
    } else {
        None
    }
}

/// The tag of elements of a shape; `None` for any.
pub fn tag_of(shape: Shape) -> Option<u8>
    ensures { result ≡ tag_of shape }
{
    match shape {
        Shape::Leaf(tag, _)
        | Shape::Tagged(tag, _)
        | Shape::Sequence(tag, _, _)
        | Shape::SequenceOf(tag, _, _) => Some(tag),
        Shape::Holding(_, _) => Some(4),
        Shape::Any => None,
    }
}

/// Whether an element under this tag begins with this octet.
fn is_first(tag: Option<u8>, octet: u8) -> bool
    ensures { result ≡ is_first tag octet }
{
    match tag {
        Some(tag) => octet == tag,
        None => octet != 0 && octet % 32 != 31,
    }
}

/// Whether octets begin as an element under this tag.
#[tactic(auto, using(crate::proofs::Beginnings::begins, crate::proofs::Beginnings::begins_not, crate::proofs::Beginnings::empty_begins_not))]
fn begins(tag: Option<u8>, octets: &[u8]) -> bool
    ensures { MatchBool result (Begins tag octets.now) (Begins tag octets.now → ⊥) }
{
    !octets.is_empty() && is_first(tag, octets[0])
}

/// Whether a field is absent where these octets are left.
pub fn is_absent(field: Field, octets: &[u8]) -> bool
    ensures { MatchBool result ((field.optional ≡ true) × (Begins field.tag octets.now → ⊥)) (field.optional ≡ true → Begins field.tag octets.now) }
{
    field.optional && !begins(field.tag, octets)
}

/// The element at the start of octets (X.690, 8.1.1).
#[derive(Drop)]
pub struct Element<'a> {
    /// The octet of its tag.
    pub tag: u8,
    /// How many octets its tag and its length have.
    pub header: usize,
    /// Its content.
    pub content: &'a [u8],
    /// The octets behind it.
    pub rest: &'a [u8],
}

/// The octets from a place on.
#[tactic(auto, using(crate::proofs::Walking::all_behind))]
fn from_place(octets: &[u8], place: usize) -> &[u8]
    requires { place ≤ length octets.now }
    ensures { result.now ≡ drop place octets.now }
{
    &octets[place..]
}

/// A lemma: how many octets an element has before its content.
#[tactic(auto, using(crate::proofs::Walking::header_size))]
fn has_header(tag: u8, content: &[u8], taken: usize)
    ensures size { taken ≡ length (tlv tag content.now) → taken ≡ length (header tag (length content.now)) + length content.now }
    ensures begins { 0 < length (header tag (length content.now)) }
{}

/// The element at the start of octets, under this tag; with `None` under any. `Fault::Refused` where none is, by
/// the first error of its tag or its length; these octets begin after so many.
#[tactic(auto, using(crate::proofs::Headers::empty_fault, crate::proofs::Headers::other_fault, crate::proofs::Headers::same_fault))]
pub fn first(tag: Option<u8>, at: usize, octets: &[u8]) -> Result<Element<'_>, Fault>
    ensures tagged { IfOk result (λ e. is_first tag e.tag ≡ true) }
    ensures found { IfOk result (λ e. octets.now ≡ tlv e.tag e.content.now ++ e.rest.now) }
    ensures size { IfOk result (λ e. e.header ≡ length (header e.tag (length e.content.now))) }
    ensures parts { IfOk result (λ e. e.header + length e.content.now + length e.rest.now ≡ length octets.now) }
    ensures begins { IfOk result (λ e. 0 < e.header) }
    ensures starts { OnOk result (HasElement tag octets.now) }
    ensures refused { IfErr result (IsHeaderFault tag at octets.now) }
{
    if octets.is_empty() {
        return Err(Fault::Refused {
            why: Asn1DerError::TruncatedData,
            offset: at,
        });
    }
    let octet = octets[0];
    if !is_first(tag, octet) {
        return Err(Fault::Refused {
            why: Asn1DerError::InvalidData,
            offset: at,
        });
    }
    match read_tlv(octet, octets) {
        Err(why) => Err(Fault::Refused { why, offset: at }),
        Ok((content, taken)) => {
            has_header(octet, content, taken);
            Ok(Element {
                tag: octet,
                header: taken - content.len(),
                content,
                rest: from_place(octets, taken),
            })
        }
    }
}

/// Whether these octets are the INTEGER of this number.
fn is_number(number: u8, octets: &[u8]) -> bool
    ensures { MatchBool result (octets.now ≡ number_octets number) (octets.now ≡ number_octets number → ⊥) }
{
    if number < 128 {
        octets == [2, 1, number].as_slice()
    } else {
        octets == [2, 2, 0, number].as_slice()
    }
}

/// Whether a case is one behind a field of this encoding.
pub fn applies(case: Case, before: &[u8]) -> bool
    ensures { MatchBool result (Applies case before.now) (Applies case before.now → ⊥) }
{
    match case.behind {
        None => true,
        Some(number) => is_number(number, before),
    }
}

/// What a case of an OCTET STRING of this name holds is called: as the case says, or else as the OCTET STRING.
pub fn called(case: Case, name: Name) -> Name
    ensures { result ≡ called case name }
{
    case.name.unwrap_or(name)
}

/// Refuses octets where nothing is left to read.
pub fn all_read(at: usize, octets: &[u8]) -> Result<(), Fault>
    ensures all { OnOk result (octets.now ≡ []) }
    ensures some { IfErr result (λ fault. octets.now ≡ [] → ⊥) }
    ensures refused { IfErr result (λ fault. fault ≡ faults.Refused errors.InvalidData at) }
{
    if octets.is_empty() {
        Ok(())
    } else {
        Err(Fault::Refused {
            why: Asn1DerError::InvalidData,
            offset: at,
        })
    }
}

//! The check: the walk of `krb_schema`, which appends no items.

ghost use Rattle.std.specs.Prelude.{◌≡◌, ◌<◌, ◌+◌, ◌^◌, [], ◌∷◌, ◌++◌, true, false, length, IfErr, IfOk, MatchBool, OnOk};
ghost use Rattle.krb_der_core.specs.Tlv.{header, tlv};
ghost use Rattle.krb_schema.specs.Faults.{HasElement, IsContentFault, IsFault, IsFieldsFault, IsRowFault, IsWholeFault};
ghost use Rattle.krb_schema.specs.Shapes.{AreElements, AreFields, IsElement, IsHeld, IsShaped, is_first, tag_of};
ghost use Rattle.krb_encoding_check.specs.Encodings.{Encodes, EncodesFront, IsEncoding};

use crate::leaf::check_leaf;
use krb_schema::elements::{
    all_read, applies, called, first, is_absent, part_of, shape_of, tag_of,
};
use krb_schema::{Case, Fault, Field, LEVELS, Name, Schema, Shape};

/// The octets behind the element at the start, which is of this row.
#[cycle(walk)]
fn check_element<'o>(
    schema: &Schema,
    is: usize,
    name: Name,
    before: &[u8],
    levels: u8,
    at: usize,
    octets: &'o [u8],
) -> Result<&'o [u8], Fault>
    requires room { at + length octets.now < 2 ^ 64 }
    ensures shrinks { IfOk result (λ rest. length rest.now < length octets.now) }
    ensures refused { IfErr result (IsFault levels schema.now is name before.now at octets.now) }
    ensures found { IfOk result (λ rest. EncodesFront (IsElement levels schema.now is name before.now) octets.now rest.now) }
{
    if levels == 0 {
        return Err(Fault::TooDeep { offset: at });
    }
    let Some(shape) = shape_of(schema, is) else {
        return Err(Fault::NoRow);
    };
    let found = first(tag_of(shape), at, octets)?;
    let content = found.content;
    let place = at + found.header;
    check_content(
        schema,
        shape,
        name,
        before,
        levels - 1,
        place,
        found.tag,
        content,
    )?;
    Ok(found.rest)
}

/// Refuses a content that is not that of an element of this shape.
#[cycle(walk)]
fn check_content(
    schema: &Schema,
    shape: Shape,
    name: Name,
    before: &[u8],
    levels: u8,
    at: usize,
    tag: u8,
    content: &[u8],
) -> Result<(), Fault>
    requires tagged { is_first (tag_of shape) tag ≡ true }
    requires room { at + length content.now < 2 ^ 64 }
    ensures refused { IfErr result (IsContentFault (IsElement levels schema.now) (IsFault levels schema.now) schema.now shape name before.now at content.now) }
    ensures found { OnOk result (Encodes (IsShaped (IsElement levels schema.now) schema.now shape name before.now) (tlv tag content.now)) }
{
    match shape {
        Shape::Leaf(_, leaf) => check_leaf(leaf, at, content),
        Shape::Any => Ok(()),
        Shape::Tagged(_, inner) => check_whole(schema, inner, name, before, levels, at, content),
        Shape::Sequence(_, start, count) => {
            let Some(fields) = part_of(schema.fields, start, count) else {
                return Err(Fault::NoRow);
            };
            check_fields(schema, fields, &[], levels, at, content)
        }
        Shape::SequenceOf(_, inner, _) => check_row(schema, inner, name, levels, at, content),
        Shape::Holding(start, count) => {
            let Some(cases) = part_of(schema.cases, start, count) else {
                return Err(Fault::NoRow);
            };
            check_held(schema, cases, name, before, levels, at, content);
            Ok(())
        }
    }
}

/// Refuses octets that are not one element of this row.
#[cycle(walk)]
fn check_whole(
    schema: &Schema,
    is: usize,
    name: Name,
    before: &[u8],
    levels: u8,
    at: usize,
    octets: &[u8],
) -> Result<(), Fault>
    requires room { at + length octets.now < 2 ^ 64 }
    ensures refused { IfErr result (IsWholeFault (IsElement levels schema.now is name before.now) (IsFault levels schema.now is name before.now) at octets.now) }
    ensures found { OnOk result (Encodes (IsElement levels schema.now is name before.now) octets.now) }
{
    let rest = check_element(schema, is, name, before, levels, at, octets)?;
    all_read(at + (octets.len() - rest.len()), rest)
}

/// Refuses octets that are not these fields, in order.
#[cycle(walk)]
fn check_fields(
    schema: &Schema,
    fields: &[Field],
    before: &[u8],
    levels: u8,
    at: usize,
    octets: &[u8],
) -> Result<(), Fault>
    requires room { at + length octets.now < 2 ^ 64 }
    ensures refused { IfErr result (IsFieldsFault (IsElement levels schema.now) (IsFault levels schema.now) fields.now before.now at octets.now) }
    ensures found { OnOk result (Encodes (AreFields (IsElement levels schema.now) fields.now before.now) octets.now) }
{
    let Some((field, more)) = fields.split_first() else {
        return all_read(at, octets);
    };
    let field = *field;
    if is_absent(field, octets) {
        return check_fields(schema, more, before, levels, at, octets);
    }
    let found = first(field.tag, at, octets)?;
    let content = found.content;
    let rest = found.rest;
    if !field.wrapped {
        return check_bare(schema, field, more, before, levels, at, octets);
    }
    check_wrapped(
        schema,
        field,
        more,
        before,
        levels,
        at,
        found.tag,
        found.header,
        content,
        rest,
    )
}

/// Refuses octets that are not a field in its tag, and those behind it.
#[cycle(walk)]
fn check_wrapped(
    schema: &Schema,
    field: Field,
    more: &[Field],
    before: &[u8],
    levels: u8,
    at: usize,
    tag: u8,
    size: usize,
    content: &[u8],
    rest: &[u8],
) -> Result<(), Fault>
    requires wrapped { field.wrapped ≡ true }
    requires tagged { is_first field.tag tag ≡ true }
    requires headed { size ≡ length (header tag (length content.now)) }
    requires room { at + size + length content.now + length rest.now < 2 ^ 64 }
    ensures refused { IfErr result (IsFieldsFault (IsElement levels schema.now) (IsFault levels schema.now) (field ∷ more.now) before.now at (tlv tag content.now ++ rest.now)) }
    ensures found { OnOk result (Encodes (AreFields (IsElement levels schema.now) (field ∷ more.now) before.now) (tlv tag content.now ++ rest.now)) }
{
    let place = at + size;
    check_whole(schema, field.is, field.name, before, levels, place, content)?;
    let behind = place + content.len();
    check_fields(schema, more, content, levels, behind, rest)
}

/// Refuses octets that are not a field that stands by itself, and those behind it.
#[cycle(walk)]
fn check_bare(
    schema: &Schema,
    field: Field,
    more: &[Field],
    before: &[u8],
    levels: u8,
    at: usize,
    octets: &[u8],
) -> Result<(), Fault>
    requires bare { field.wrapped ≡ false }
    requires begins { HasElement field.tag octets.now }
    requires room { at + length octets.now < 2 ^ 64 }
    ensures refused { IfErr result (IsFieldsFault (IsElement levels schema.now) (IsFault levels schema.now) (field ∷ more.now) before.now at octets.now) }
    ensures found { OnOk result (Encodes (AreFields (IsElement levels schema.now) (field ∷ more.now) before.now) octets.now) }
{
    let rest = check_element(schema, field.is, field.name, before, levels, at, octets)?;
    let taken = octets.len() - rest.len();
    let element = &octets[..taken];
    check_fields(schema, more, element, levels, at + taken, rest)
}

/// Refuses octets that are not elements of this row, one after another.
#[cycle(walk)]
fn check_row(
    schema: &Schema,
    is: usize,
    name: Name,
    levels: u8,
    at: usize,
    octets: &[u8],
) -> Result<(), Fault>
    requires room { at + length octets.now < 2 ^ 64 }
    ensures refused { IfErr result (IsRowFault (IsElement levels schema.now is name []) (IsFault levels schema.now is name []) at octets.now) }
    ensures found { OnOk result (Encodes (AreElements (IsElement levels schema.now is name [])) octets.now) }
{
    let mut rest = octets;
    let mut place = at;
    'elements: while !rest.is_empty() {
        let behind = check_element(schema, is, name, &[], levels, place, rest)?;
        place += rest.len() - behind.len();
        rest = behind;
    }
    Ok(())
}

/// What an OCTET STRING of this content holds refuses nothing: where it is none of the cases, it is plain octets. Which
/// case it is, the walk decides, and no definition; so it is gone through.
#[cycle(walk)]
fn check_held(
    schema: &Schema,
    cases: &[Case],
    name: Name,
    before: &[u8],
    levels: u8,
    at: usize,
    content: &[u8],
)
    requires room { at + length content.now < 2 ^ 64 }
    ensures { Encodes (IsHeld (IsElement levels schema.now) name before.now content.now cases.now) (tlv 4 content.now) }
{
    let Some((case, more)) = cases.split_first() else {
        return;
    };
    let case = *case;
    if !applies(case, before) {
        return check_held(schema, more, name, before, levels, at, content);
    }
    match check_whole(
        schema,
        case.is,
        called(case, name),
        &[],
        levels,
        at,
        content,
    ) {
        Ok(()) => {}
        Err(_fault) => check_held(schema, more, name, before, levels, at, content),
    }
}

/// Refuses octets that are not one element of this row of the schema, by the first fault from the left.
///
/// Nothing is allocated, so the fault is never `OutOfMemory`. `NoRow` where the schema lacks what it names, `TooDeep`
/// where elements stand in one another more than 64 levels deep, and not within an OCTET STRING, which is then plain
/// octets. What the row is called changes no answer.
pub fn check_encoding(schema: &Schema, is: usize, name: Name, octets: &[u8]) -> Result<(), Fault>
    ensures encoded { OnOk result (IsEncoding schema.now is name octets.now) }
    ensures first_fault { IfErr result (IsWholeFault (IsElement 64 schema.now is name []) (IsFault 64 schema.now is name []) 0 octets.now) }
    ensures refused { IfErr result (λ fault. IsEncoding schema.now is name octets.now → ⊥) }
{
    check_whole(schema, is, name, &[], LEVELS, 0, octets)
}

/// Whether octets are one element of this row of the schema, all of them (X.690, 10). Nothing is allocated: of a row of
/// a type, this is whether they are the one encoding of a value of the type.
pub fn is_encoding(schema: &Schema, is: usize, name: Name, octets: &[u8]) -> bool
    ensures { MatchBool result (IsEncoding schema.now is name octets.now) (IsEncoding schema.now is name octets.now → ⊥) }
{
    match check_encoding(schema, is, name, octets) {
        Ok(()) => true,
        Err(_fault) => false,
    }
}

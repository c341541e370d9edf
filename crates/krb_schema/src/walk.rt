//! The walk.

ghost use Rattle.std.specs.Prelude.{◌≡◌, ◌≤◌, ◌<◌, ◌+◌, ◌*◌, ◌^◌, ℕ, List, [], ◌∷◌, ◌++◌, true, false, length, IfErr, IfOk, OnOk};
ghost use Rattle.krb_der_core.specs.Tlv.{header, tlv};
ghost use Rattle.krb_schema.specs.Faults.{HasElement, IsContentFault, IsFault, IsFieldsFault, IsLeafFault, IsRowFault, IsWholeFault, OrMemory};
ghost use Rattle.krb_schema.specs.Forests.{item};
ghost use Rattle.krb_schema.specs.Leaves.{IsLeaf};
ghost use Rattle.krb_schema.specs.declared.item.Fault.TheVariants as faults;
ghost use Rattle.krb_schema.specs.declared.item.Form.TheVariants as form;
ghost use Rattle.krb_schema.specs.Shapes.{AreElements, AreFields, IsElement, IsHeld, IsNone, IsShaped, is_first, list_node, tag_of};
ghost use Rattle.krb_schema.specs.Walks.{IsHead, Walked, WalkedFront};

use crate::elements::{all_read, applies, called, first, is_absent, part_of, shape_of, tag_of};
use crate::item::{Fault, Form, Item, Node};
use crate::leaf::check_leaf;
use crate::shape::{Case, Field, Leaf, Name, Schema, Shape};
use std::alloc::{AllocError, Global};

/// How many levels deep elements may stand in one another, fields' tags not counted: more than in any message of Kerberos.
pub const LEVELS: u8 = 64;

/// What stands before the content of an element.
#[derive(Clone, Copy)]
pub(crate) struct Head {
    pub name: Name,
    /// How many elements it stands in.
    pub depth: u8,
    pub tag: u8,
    /// How many octets stand before it.
    pub at: usize,
    /// How many octets its tag and its length have.
    pub header: usize,
    /// How many octets its content has.
    pub size: usize,
}

/// A list, which its standard may want to have an element.
fn list_node(filled: bool) -> Node
    ensures { result ≡ list_node filled }
{
    if filled { Node::FilledList } else { Node::List }
}

/// Appends an item.
fn push_item(form: Form, head: Head, items: &mut Vec<Item>) -> Result<(), AllocError>
    requires sized { head.header ≡ length (header head.tag head.size) }
    requires room { head.at + head.header < 2 ^ 64 }
    ensures { OnOk result (items.new.items ≡ items.old.items ++ item form head.name head.depth head.tag head.at head.size ∷ []) }
{
    items.push(Item {
        form,
        name: head.name,
        depth: head.depth,
        tag: head.tag,
        offset: head.at + head.header,
        size: head.size,
    })?;
    Ok(())
}

/// Appends items.
fn push_items(more: &[Item], items: &mut Vec<Item>) -> Result<(), AllocError>
    ensures { OnOk result (items.new.items ≡ items.old.items ++ more.now) }
{
    items.extend_from_slice(more)?;
    Ok(())
}

/// Appends the item of a leaf.
fn push_leaf(
    alloc: Global,
    leaf: Leaf,
    head: Head,
    content: &[u8],
    items: &mut Vec<Item>,
) -> Result<(), Fault>
    requires { IsHead head content.now }
    ensures right { OnOk result (IsLeaf leaf content.now) }
    ensures refused { IfErr result (OrMemory (IsLeafFault leaf (head.at + head.header) content.now)) }
    ensures told { OnOk result (items.new.items ≡ items.old.items ++ item (form.Leaf leaf) head.name head.depth head.tag head.at (length content.now) ∷ []) }
{
    check_leaf(alloc, leaf, head.at + head.header, content)?;
    Ok(push_item(Form::Leaf(leaf), head, items)?)
}

/// Appends the items of the element at the start, which is of this row, and answers the octets behind it.
#[cycle(walk)]
fn push_element<'o>(
    alloc: Global,
    schema: &Schema,
    is: usize,
    name: Name,
    before: &[u8],
    levels: u8,
    depth: u8,
    at: usize,
    octets: &'o [u8],
    items: &mut Vec<Item>,
) -> Result<&'o [u8], Fault>
    requires shallow { depth + 2 * levels ≤ 200 }
    requires room { at + length octets.now < 2 ^ 64 }
    ensures shrinks { IfOk result (λ rest. length rest.now < length octets.now) }
    ensures refused { IfErr result (OrMemory (IsFault levels schema.now is name before.now at octets.now)) }
    ensures walked { IfOk result (λ rest. WalkedFront (IsElement levels schema.now is name before.now) octets.now rest.now depth at items.old.items items.new.items) }
{
    if levels == 0 {
        return Err(Fault::TooDeep { offset: at });
    }
    let Some(shape) = shape_of(schema, is) else {
        return Err(Fault::NoRow);
    };
    let found = first(tag_of(shape), at, octets)?;
    let content = found.content;
    let head = Head {
        name,
        depth,
        tag: found.tag,
        at,
        header: found.header,
        size: content.len(),
    };
    push_content(
        alloc,
        schema,
        shape,
        before,
        levels - 1,
        head,
        content,
        items,
    )?;
    Ok(found.rest)
}

/// Appends the items of an element of this shape and content.
#[cycle(walk)]
fn push_content(
    alloc: Global,
    schema: &Schema,
    shape: Shape,
    before: &[u8],
    levels: u8,
    head: Head,
    content: &[u8],
    items: &mut Vec<Item>,
) -> Result<(), Fault>
    requires shallow { head.depth + 2 * levels ≤ 198 }
    requires tagged { is_first (tag_of shape) head.tag ≡ true }
    requires headed { IsHead head content.now }
    ensures refused { IfErr result (OrMemory (IsContentFault (IsElement levels schema.now) (IsFault levels schema.now) schema.now shape head.name before.now (head.at + head.header) content.now)) }
    ensures walked { OnOk result (Walked (IsShaped (IsElement levels schema.now) schema.now shape head.name before.now) (tlv head.tag content.now) head.depth head.at items.old.items items.new.items) }
{
    let depth = head.depth + 1;
    let place = head.at + head.header;
    let name = head.name;
    match shape {
        Shape::Leaf(_, leaf) => push_leaf(alloc, leaf, head, content, items),
        Shape::Any => push_leaf(alloc, Leaf::Any, head, content, items),
        Shape::Tagged(_, inner) => {
            push_item(Form::Begin(Node::Wrap), head, items)?;
            push_whole(
                alloc, schema, inner, name, before, levels, depth, place, content, items,
            )?;
            Ok(push_item(Form::End(Node::Wrap), head, items)?)
        }
        Shape::Sequence(_, start, count) => {
            let Some(fields) = part_of(schema.fields, start, count) else {
                return Err(Fault::NoRow);
            };
            push_item(Form::Begin(Node::Struct), head, items)?;
            push_fields(
                alloc,
                schema,
                fields,
                &[],
                levels,
                depth,
                place,
                content,
                items,
            )?;
            Ok(push_item(Form::End(Node::Struct), head, items)?)
        }
        Shape::SequenceOf(_, inner, filled) => {
            let list = list_node(filled);
            push_item(Form::Begin(list), head, items)?;
            push_row(
                alloc, schema, inner, name, levels, depth, place, content, items,
            )?;
            Ok(push_item(Form::End(list), head, items)?)
        }
        Shape::Holding(start, count) => {
            let Some(cases) = part_of(schema.cases, start, count) else {
                return Err(Fault::NoRow);
            };
            push_held(alloc, schema, cases, before, levels, head, content, items)
        }
    }
}

/// Appends the items of octets that are one element of this row.
#[cycle(walk)]
fn push_whole(
    alloc: Global,
    schema: &Schema,
    is: usize,
    name: Name,
    before: &[u8],
    levels: u8,
    depth: u8,
    at: usize,
    octets: &[u8],
    items: &mut Vec<Item>,
) -> Result<(), Fault>
    requires shallow { depth + 2 * levels ≤ 200 }
    requires room { at + length octets.now < 2 ^ 64 }
    ensures refused { IfErr result (OrMemory (IsWholeFault (IsElement levels schema.now is name before.now) (IsFault levels schema.now is name before.now) at octets.now)) }
    ensures walked { OnOk result (Walked (IsElement levels schema.now is name before.now) octets.now depth at items.old.items items.new.items) }
{
    let rest = push_element(
        alloc, schema, is, name, before, levels, depth, at, octets, items,
    )?;
    all_read(at + (octets.len() - rest.len()), rest)
}

/// Appends the items of octets that are these fields, in order.
#[cycle(walk)]
fn push_fields(
    alloc: Global,
    schema: &Schema,
    fields: &[Field],
    before: &[u8],
    levels: u8,
    depth: u8,
    at: usize,
    octets: &[u8],
    items: &mut Vec<Item>,
) -> Result<(), Fault>
    requires shallow { depth + 2 * levels ≤ 199 }
    requires room { at + length octets.now < 2 ^ 64 }
    ensures refused { IfErr result (OrMemory (IsFieldsFault (IsElement levels schema.now) (IsFault levels schema.now) fields.now before.now at octets.now)) }
    ensures walked { OnOk result (Walked (AreFields (IsElement levels schema.now) fields.now before.now) octets.now depth at items.old.items items.new.items) }
{
    let Some((field, more)) = fields.split_first() else {
        return all_read(at, octets);
    };
    let field = *field;
    if is_absent(field, octets) {
        return push_fields(
            alloc, schema, more, before, levels, depth, at, octets, items,
        );
    }
    let found = first(field.tag, at, octets)?;
    let content = found.content;
    let rest = found.rest;
    if !field.wrapped {
        return push_bare(
            alloc, schema, field, more, before, levels, depth, at, octets, items,
        );
    }
    let head = Head {
        name: field.name,
        depth,
        tag: found.tag,
        at,
        header: found.header,
        size: content.len(),
    };
    push_wrapped(
        alloc, schema, field, more, before, levels, head, content, rest, items,
    )
}

/// Appends the items of a field in its tag, and of those behind it.
#[cycle(walk)]
fn push_wrapped(
    alloc: Global,
    schema: &Schema,
    field: Field,
    more: &[Field],
    before: &[u8],
    levels: u8,
    head: Head,
    content: &[u8],
    rest: &[u8],
    items: &mut Vec<Item>,
) -> Result<(), Fault>
    requires shallow { head.depth + 2 * levels ≤ 199 }
    requires wrapped { field.wrapped ≡ true }
    requires tagged { is_first field.tag head.tag ≡ true }
    requires named { head.name ≡ field.name }
    requires headed { IsHead head content.now }
    requires room { head.at + head.header + length content.now + length rest.now < 2 ^ 64 }
    ensures refused { IfErr result (OrMemory (IsFieldsFault (IsElement levels schema.now) (IsFault levels schema.now) (field ∷ more.now) before.now head.at (tlv head.tag content.now ++ rest.now))) }
    ensures walked { OnOk result (Walked (AreFields (IsElement levels schema.now) (field ∷ more.now) before.now) (tlv head.tag content.now ++ rest.now) head.depth head.at items.old.items items.new.items) }
{
    let place = head.at + head.header;
    push_item(Form::Begin(Node::Wrap), head, items)?;
    push_whole(
        alloc,
        schema,
        field.is,
        field.name,
        before,
        levels,
        head.depth + 1,
        place,
        content,
        items,
    )?;
    push_item(Form::End(Node::Wrap), head, items)?;
    let behind = place + content.len();
    push_fields(
        alloc, schema, more, content, levels, head.depth, behind, rest, items,
    )
}

/// Appends the items of a field that stands by itself, and of those behind it.
#[cycle(walk)]
fn push_bare(
    alloc: Global,
    schema: &Schema,
    field: Field,
    more: &[Field],
    before: &[u8],
    levels: u8,
    depth: u8,
    at: usize,
    octets: &[u8],
    items: &mut Vec<Item>,
) -> Result<(), Fault>
    requires shallow { depth + 2 * levels ≤ 199 }
    requires bare { field.wrapped ≡ false }
    requires begins { HasElement field.tag octets.now }
    requires room { at + length octets.now < 2 ^ 64 }
    ensures refused { IfErr result (OrMemory (IsFieldsFault (IsElement levels schema.now) (IsFault levels schema.now) (field ∷ more.now) before.now at octets.now)) }
    ensures walked { OnOk result (Walked (AreFields (IsElement levels schema.now) (field ∷ more.now) before.now) octets.now depth at items.old.items items.new.items) }
{
    let rest = push_element(
        alloc, schema, field.is, field.name, before, levels, depth, at, octets, items,
    )?;
    let taken = octets.len() - rest.len();
    let element = &octets[..taken];
    push_fields(
        alloc,
        schema,
        more,
        element,
        levels,
        depth,
        at + taken,
        rest,
        items,
    )
}

/// Appends the items of octets that are elements of this row, one after another.
#[cycle(walk)]
fn push_row(
    alloc: Global,
    schema: &Schema,
    is: usize,
    name: Name,
    levels: u8,
    depth: u8,
    at: usize,
    octets: &[u8],
    items: &mut Vec<Item>,
) -> Result<(), Fault>
    requires shallow { depth + 2 * levels ≤ 199 }
    requires room { at + length octets.now < 2 ^ 64 }
    ensures refused { IfErr result (OrMemory (IsRowFault (IsElement levels schema.now is name []) (IsFault levels schema.now is name []) at octets.now)) }
    ensures walked { OnOk result (Walked (AreElements (IsElement levels schema.now is name [])) octets.now depth at items.old.items items.new.items) }
{
    let mut rest = octets;
    let mut place = at;
    'elements: while !rest.is_empty() {
        let behind = push_element(
            alloc,
            schema,
            is,
            name,
            &[],
            levels,
            depth,
            place,
            rest,
            items,
        )?;
        place += rest.len() - behind.len();
        rest = behind;
    }
    Ok(())
}

/// Appends the items of an OCTET STRING of this content: those of the first case that it can be, else those of plain octets.
#[cycle(walk)]
fn push_held(
    alloc: Global,
    schema: &Schema,
    cases: &[Case],
    before: &[u8],
    levels: u8,
    head: Head,
    content: &[u8],
    items: &mut Vec<Item>,
) -> Result<(), Fault>
    requires shallow { head.depth + 2 * levels ≤ 198 }
    requires tagged { head.tag ≡ 4 }
    requires headed { IsHead head content.now }
    ensures refused { IfErr result (λ fault. fault ≡ faults.OutOfMemory) }
    ensures walked { OnOk result (Walked (IsHeld (IsElement levels schema.now) head.name before.now content.now cases.now) (tlv head.tag content.now) head.depth head.at items.old.items items.new.items) }
{
    let Some((case, more)) = cases.split_first() else {
        return Ok(push_item(Form::Leaf(Leaf::Octets), head, items)?);
    };
    let case = *case;
    if !applies(case, before) {
        return push_held(alloc, schema, more, before, levels, head, content, items);
    }
    let mut inside = Vec::new(alloc);
    match push_whole(
        alloc,
        schema,
        case.is,
        called(case, head.name),
        &[],
        levels,
        head.depth + 1,
        head.at + head.header,
        content,
        &mut inside,
    ) {
        Err(fault) => {
            if fault.is_out_of_memory() {
                return Err(Fault::OutOfMemory);
            }
            push_held(alloc, schema, more, before, levels, head, content, items)
        }
        Ok(()) => {
            push_item(Form::Begin(Node::Wrap), head, items)?;
            push_items(&inside, items)?;
            Ok(push_item(Form::End(Node::Wrap), head, items)?)
        }
    }
}

/// The items of octets that are one element of this row of the schema, which is called so.
///
/// A fault is the first of the octets, from the left, and where it is: octets that are refused are no element of the row. `OutOfMemory` where
/// an allocation fails, `NoRow` where the schema lacks what it names, `TooDeep` where elements stand in one another more than 64 levels deep,
/// and not within an OCTET STRING, which is then plain octets.
pub fn items_of(
    alloc: Global,
    schema: &Schema,
    is: usize,
    name: Name,
    octets: &[u8],
) -> Result<Vec<Item>, Fault>
    ensures walked { IfOk result (λ items. Walked (IsElement 64 schema.now is name []) octets.now 0 0 [] items.items) }
    ensures first_fault { IfErr result (OrMemory (IsWholeFault (IsElement 64 schema.now is name []) (IsFault 64 schema.now is name []) 0 octets.now)) }
    ensures refused { IfErr result (λ fault. (fault ≡ faults.OutOfMemory → ⊥) → IsNone (IsElement 64 schema.now is name []) octets.now) }
{
    let mut items = Vec::new(alloc);
    push_whole(
        alloc,
        schema,
        is,
        name,
        &[],
        LEVELS,
        0,
        0,
        octets,
        &mut items,
    )?;
    Ok(items)
}

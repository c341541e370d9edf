//! Items as tokens.

ghost use Rattle.std.specs.Prelude.{◌≡◌, ℕ, List, suc, take, drop, OnErr, OnOk};
ghost use Rattle.krb_schema.specs.Rules.{content_of};
ghost use Rattle.krb_show.specs.Tokens.{Begins};
ghost use Rattle.krb_show.specs.Items.{Stand, begin_step, begins_name, elements, end_step, is_begun, is_component, is_in, leaf_step, list_end, list_step, plain_leaf, shown, start, step};
ghost use Rattle.krb_show.specs.declared.rows.stand.Inside.TheVariants as inside;

use crate::leaves::{show_octets, show_word};
use crate::rows::formats::ShowsFormats;
use crate::rows::leaves::show_leaf;
use crate::rows::names::show_name;
use crate::rows::stand::{Inside, Secrets, Stand};
use crate::token::{Form as TokenForm, Label, Page, push_mark, push_token};
use krb_schema::{Form, Item, Leaf, Node, Role, content_of};
use std::alloc::{AllocError, Global};

/// Whether an item begins an element.
fn is_begun(form: Form) -> bool
    ensures { result ≡ is_begun form }
{
    match form {
        Form::Leaf(_) | Form::Begin(_) => true,
        Form::End(_) => false,
    }
}

/// How many elements stand so deep among the items, up to the first item that is less deep.
fn elements(depth: u16, items: &[Item]) -> usize
    ensures { result ≡ elements depth items.now }
{
    let mut found = 0;
    let mut rest = items;
    'items: while let Some((item, behind)) = rest.split_first() {
        let at = u16::from(item.depth);
        if at < depth {
            return found;
        }
        if at == depth && is_begun(item.form) {
            found += 1;
        }
        rest = behind;
    }
    found
}

/// Whether the first item is a component of a name.
fn begins_name(items: &[Item]) -> bool
    ensures { result ≡ begins_name items.now }
{
    match items {
        [first, ..] => matches!(first.form, Form::Leaf(Leaf::Component)),
        [] => false,
    }
}

/// Appends a leaf that stands by itself.
fn show_plain<F: ShowsFormats>(
    alloc: Global,
    leaf: Leaf,
    item: Item,
    content: &[u8],
    stand: &Stand,
    page: &mut Page,
) -> Result<(), AllocError>
    ensures ok { OnOk result (plain_leaf F.tells leaf item content.now stand.now page.old.items page.new.items) }
    ensures kept { OnOk result (Begins page.old.items page.new.items) }
    ensures err { OnErr result (page.new.items ≡ page.old.items) }
{
    let label = stand.label(item);
    if leaf == Leaf::Secret && stand.secrets() == Secrets::Hidden {
        return show_word(alloc, &label, b"hidden", page);
    }
    if leaf != Leaf::Octets {
        return show_leaf(alloc, leaf, item.tag, &label, content, page);
    }
    if item.name.role == Role::None {
        return show_octets(alloc, &label, content, page);
    }
    F::show_format(alloc, item.name.role, stand.number(), &label, content, page)
}

/// Appends a leaf.
#[tactic(auto, using(crate::proofs::Growing::begins_self, crate::proofs::Growing::begins_more))]
fn push_leaf<'o, F: ShowsFormats>(
    alloc: Global,
    leaf: Leaf,
    item: Item,
    content: &'o [u8],
    stand: &mut Stand<'o>,
    page: &mut Page,
) -> Result<(), AllocError>
    ensures ok { OnOk result (leaf_step F.tells (is_in inside.Names stand.old.inside) leaf item content.now stand.old page.old.items stand.new page.new.items) }
    ensures kept { Begins page.old.items page.new.items }
{
    if stand.is_in(Inside::Names) {
        return stand.push_name(content);
    }
    show_plain::<F>(alloc, leaf, item, content, stand, page)?;
    if leaf == Leaf::Integer {
        stand.set_number(content);
    }
    Ok(())
}

/// Appends the begin of a list, before these items.
#[tactic(auto, using(crate::proofs::Growing::begins_self, crate::proofs::Growing::begins_more))]
fn begin_list<F: ShowsFormats>(
    alloc: Global,
    item: Item,
    rest: &[Item],
    stand: &mut Stand,
    page: &mut Page,
) -> Result<(), AllocError>
    ensures ok { OnOk result (list_step F.tells (begins_name rest.now) item rest.now stand.old page.old.items stand.new page.new.items) }
    ensures kept { Begins page.old.items page.new.items }
{
    if begins_name(rest) {
        return stand.push(Inside::Names);
    }
    let label = stand.label(item);
    let count = elements(u16::from(item.depth) + 1, rest);
    let digits = format!(in alloc; "{count}")?;
    push_token(
        alloc,
        TokenForm::List,
        &label,
        digits.into_bytes(),
        Vec::new(alloc),
        page,
    )?;
    stand.push(Inside::List)
}

/// Appends the begin of an element that has elements, before these items.
#[tactic(auto, using(crate::proofs::Growing::begins_self, crate::proofs::Growing::begins_more))]
fn push_begin<F: ShowsFormats>(
    alloc: Global,
    node: Node,
    item: Item,
    rest: &[Item],
    stand: &mut Stand,
    page: &mut Page,
) -> Result<(), AllocError>
    ensures ok { OnOk result (begin_step F.tells node item rest.now stand.old page.old.items stand.new page.new.items) }
    ensures kept { Begins page.old.items page.new.items }
{
    match node {
        Node::Wrap => Ok(()),
        Node::Struct => {
            let label = stand.label(item);
            push_mark(alloc, TokenForm::Struct, &label, page)?;
            stand.push(Inside::Struct)
        }
        Node::List | Node::FilledList => begin_list::<F>(alloc, item, rest, stand, page),
    }
}

/// Appends the end of a list.
#[tactic(auto, using(crate::proofs::Growing::begins_self, crate::proofs::Growing::begins_more))]
fn end_list<F: ShowsFormats>(
    alloc: Global,
    item: Item,
    stand: &mut Stand,
    page: &mut Page,
) -> Result<(), AllocError>
    ensures ok { OnOk result (list_end F.tells (is_in inside.Names stand.old.inside) item stand.old page.old.items stand.new page.new.items) }
    ensures kept { Begins page.old.items page.new.items }
{
    let is_name = stand.is_in(Inside::Names);
    stand.pop();
    let label = stand.label(item);
    if is_name {
        show_name(alloc, &label, stand.names(), page)?;
        stand.clear_names();
        return Ok(());
    }
    push_mark(alloc, TokenForm::ListEnd, &label, page)
}

/// Appends the end of an element that has elements.
#[tactic(auto, using(crate::proofs::Growing::begins_self, crate::proofs::Growing::begins_more))]
fn push_end<F: ShowsFormats>(
    alloc: Global,
    node: Node,
    item: Item,
    stand: &mut Stand,
    page: &mut Page,
) -> Result<(), AllocError>
    ensures ok { OnOk result (end_step F.tells node item stand.old page.old.items stand.new page.new.items) }
    ensures kept { Begins page.old.items page.new.items }
{
    match node {
        Node::Wrap => Ok(()),
        Node::Struct => {
            stand.pop();
            let label = stand.label(item);
            push_mark(alloc, TokenForm::StructEnd, &label, page)
        }
        Node::List | Node::FilledList => end_list::<F>(alloc, item, stand, page),
    }
}

/// Appends the token of an item of these octets, which stands so and before these items, and says where the next one stands. Where an allocation fails
/// the page may have grown.
#[tactic(auto, using(crate::proofs::Growing::begins_self, crate::proofs::Growing::begins_more))]
pub fn push_item<'o, F: ShowsFormats>(
    alloc: Global,
    octets: &'o [u8],
    item: Item,
    rest: &[Item],
    stand: &mut Stand<'o>,
    page: &mut Page,
) -> Result<(), AllocError>
    ensures ok { OnOk result (step F.tells octets.now item rest.now stand.old page.old.items stand.new page.new.items) }
    ensures kept { Begins page.old.items page.new.items }
{
    match item.form {
        Form::Leaf(leaf) => {
            let content = content_of(octets, item);
            push_leaf::<F>(alloc, leaf, item, content, stand, page)
        }
        Form::Begin(node) => push_begin::<F>(alloc, node, item, rest, stand, page),
        Form::End(node) => push_end::<F>(alloc, node, item, stand, page),
    }
}

/// Appends the items of these octets, one after another.
#[tactic(auto, using(crate::proofs::Growing::begins_self, crate::proofs::Growing::begins_more))]
fn push_each<'o, F: ShowsFormats>(
    alloc: Global,
    octets: &'o [u8],
    items: &[Item],
    stand: &mut Stand<'o>,
    page: &mut Page,
) -> Result<(), AllocError>
    ensures ok { OnOk result (shown F.tells octets.now items.now stand.old page.old.items page.new.items) }
    ensures kept { Begins page.old.items page.new.items }
{
    let mut rest = items;
    'items: while let Some((item, behind)) = rest.split_first() {
        push_item::<F>(alloc, octets, *item, behind, stand, page)?;
        rest = behind;
    }
    Ok(())
}

/// Appends the tokens of items of these octets to the page, which is as before where an allocation fails.
pub fn push_items<F: ShowsFormats>(
    alloc: Global,
    secrets: Secrets,
    octets: &[u8],
    items: &[Item],
    page: &mut Page,
) -> Result<(), AllocError>
    ensures ok { OnOk result (shown F.tells octets.now items.now (start secrets) page.old.items page.new.items) }
    ensures kept { OnOk result (Begins page.old.items page.new.items) }
    ensures err { OnErr result (page.new.items ≡ page.old.items) }
{
    let before = page.len();
    let mut stand = Stand::new(alloc, secrets);
    let pushed = push_each::<F>(alloc, octets, items, &mut stand, page);
    if pushed.is_err() {
        page.truncate(before);
    }
    pushed
}

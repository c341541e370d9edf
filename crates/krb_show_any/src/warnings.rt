//! Pages with warnings: what in their octets is legal DER and breaks a rule of its standard.

ghost use Rattle.std.specs.Prelude.{◌≡◌, ◌++◌, IfOk, OnOk, map};
ghost use Rattle.krb_show_any.specs.Warnings.{broken_rule, fixed_number, named_at, warning_list, warning_text, warning_token, whole_list};

use krb_schema::{Form, Item, Leaf, Node};
use krb_show::{Form as TokenForm, Label, Page, push_token, show_text};
use std::alloc::{AllocError, Global};

/// Appends that the standard fixes this number.
fn push_number(alloc: Global, number: u8, text: &mut Vec<u8>) -> Result<(), AllocError>
    ensures { OnOk result (text.new.items ≡ text.old.items ++ fixed_number number) }
{
    let digits = format!(in alloc; "{number}")?;
    text.extend_from_slice(b" is not ")?;
    text.extend_from_slice(digits.as_bytes())?;
    text.extend_from_slice(b", the number that the standard fixes")
}

/// Appends the rule that an item of this form breaks.
fn push_rule(alloc: Global, form: Form, text: &mut Vec<u8>) -> Result<(), AllocError>
    ensures { OnOk result (text.new.items ≡ text.old.items ++ broken_rule form) }
{
    match form {
        Form::Leaf(Leaf::Number(number)) => push_number(alloc, number, text),
        Form::Leaf(Leaf::Microseconds) => text.extend_from_slice(b" is not from 0 to 999999"),
        Form::Begin(Node::FilledList) => {
            text.extend_from_slice(b" is empty, and the standard wants an element")
        }
        _ => Ok(()),
    }
}

/// Appends what an item is called, and how many octets stand before its content.
fn push_placed(alloc: Global, name: &str, at: usize, text: &mut Vec<u8>) -> Result<(), AllocError>
    ensures { OnOk result (text.new.items ≡ text.old.items ++ named_at name.now at) }
{
    let digits = format!(in alloc; "{at}")?;
    text.extend_from_slice(name.as_bytes())?;
    text.extend_from_slice(b" at octet ")?;
    text.extend_from_slice(digits.as_bytes())
}

/// What is said of an item that breaks a rule of its standard, as `broken_rules_of` returns it: what it is called, how many octets
/// stand before its content, and the rule, as in `pvno at octet 9 is not 5, the number that the standard fixes`.
pub fn warning_of(alloc: Global, item: Item) -> Result<Vec<u8>, AllocError>
    ensures { IfOk result (λ text. text.items ≡ warning_text item) }
{
    let mut text = Vec::new(alloc);
    push_placed(alloc, item.name.text, item.offset, &mut text)?;
    push_rule(alloc, item.form, &mut text)?;
    Ok(text)
}

/// A text for each item.
fn warnings_of(alloc: Global, items: &[Item]) -> Result<Page, AllocError>
    ensures { IfOk result (λ made. made.items ≡ map warning_token items.now) }
{
    let list = Label::new("warning");
    let label = list.item();
    let mut made = Vec::new(alloc);
    'items: for item in items {
        let text = warning_of(alloc, *item)?;
        show_text(alloc, &label, &text, &mut made)?;
    }
    Ok(made)
}

/// Appends a list of the warnings.
fn push_warnings(
    alloc: Global,
    broken: &[Item],
    warnings: Page,
    page: &mut Page,
) -> Result<(), AllocError>
    requires { warnings.items ≡ map warning_token broken.now }
    ensures { OnOk result (page.new.items ≡ page.old.items ++ whole_list broken.now) }
{
    let label = Label::new("warnings");
    let count = format!(in alloc; "{}", broken.len())?;
    push_token(
        alloc,
        TokenForm::List,
        &label,
        count.into_bytes(),
        Vec::new(alloc),
        page,
    )?;
    let mut warnings = warnings;
    page.append(&mut warnings)?;
    push_token(
        alloc,
        TokenForm::ListEnd,
        &label,
        Vec::new(alloc),
        Vec::new(alloc),
        page,
    )
}

/// A page, and behind it, if its octets have items that break a rule of their standard, a list `warnings` of a text for each, in order, as
/// `warning_of` makes it. The items are those that `broken_rules_of` returns. The only error is an allocation failure.
pub fn page_with_warnings(alloc: Global, broken: &[Item], page: Page) -> Result<Page, AllocError>
    ensures { IfOk result (λ made. made.items ≡ page.items ++ warning_list broken.now) }
{
    match broken {
        [] => Ok(page),
        [_, ..] => {
            let warnings = warnings_of(alloc, broken)?;
            let mut made = page;
            push_warnings(alloc, broken, warnings, &mut made)?;
            Ok(made)
        }
    }
}

//! Tags, options and lists.

ghost use Rattle.std.specs.Prelude.{◌≡◌, length, OnOk, OnErr};
ghost use Rattle.krb_show.specs.Tokens.{Begins, item_of};
ghost use Rattle.krb_show.specs.Pages.{◌then◌, each_of, ends_list, list_of, optional_of};

use crate::show::Show;
use crate::token::{Form, Label, Page, push_mark, push_token};
use krb_der::{ApplicationTag, Asn1SequenceOf, ExplicitContextTag, Optional};
use std::alloc::{AllocError, Global};

/// A tag adds nothing.
impl<K, T: Show<K>, N> Show<K> for ExplicitContextTag<T, N> {
    ghost shows = { T.shows };

    fn show(&self, alloc: Global, label: &Label, page: &mut Page) -> Result<(), AllocError> {
        let value = &self.0;
        value.show(alloc, label, page)
    }
}

/// A tag adds nothing.
impl<K, T: Show<K>, const N: u8> Show<K> for ApplicationTag<T, N> {
    ghost shows = { T.shows };

    fn show(&self, alloc: Global, label: &Label, page: &mut Page) -> Result<(), AllocError> {
        let value = &self.0;
        value.show(alloc, label, page)
    }
}

/// What is absent adds nothing.
impl<K, T: Show<K>> Show<K> for Optional<Option<T>> {
    ghost shows = { λ label v. optional_of (T.shows label) v.0 };

    fn show(&self, alloc: Global, label: &Label, page: &mut Page) -> Result<(), AllocError> {
        match &self.0 {
            Some(value) => value.show(alloc, label, page),
            None => Ok(()),
        }
    }
}

/// Appends the tokens of the items, in order.
#[tactic(auto, using(crate::proofs::Growing::begins_self, crate::proofs::Growing::begins_more, crate::proofs::Growing::each_more))]
fn show_items<K, T: Show<K>>(
    alloc: Global,
    label: &Label,
    items: &[T],
    page: &mut Page,
) -> Result<(), AllocError>
    ensures ok { OnOk result (each_of (T.shows label.now) items.now page.old.items page.new.items) }
    ensures kept { OnOk result (Begins page.old.items page.new.items) }
    ensures err { OnErr result (page.new.items ≡ page.old.items) }
{
    let start = page.len();
    for item in items {
        if let Err(error) = item.show(alloc, label, page) {
            page.truncate(start);
            return Err(error);
        }
    }
    Ok(())
}

/// Appends the tokens of the items, and the end of their list.
fn show_to_end<K, T: Show<K>>(
    alloc: Global,
    label: &Label,
    items: &[T],
    page: &mut Page,
) -> Result<(), AllocError>
    ensures ok { OnOk result ((each_of (T.shows (item_of label.now)) items.now then ends_list label.now) page.old.items page.new.items) }
    ensures kept { OnOk result (Begins page.old.items page.new.items) }
    ensures err { OnErr result (page.new.items ≡ page.old.items) }
{
    let start = page.len();
    show_items(alloc, &label.item(), items, page)?;
    let shown = push_mark(alloc, Form::ListEnd, label, page);
    if shown.is_err() {
        page.truncate(start);
    }
    shown
}

/// Appends the tokens of a list.
pub fn show_list<K, T: Show<K>>(
    alloc: Global,
    label: &Label,
    items: &[T],
    page: &mut Page,
) -> Result<(), AllocError>
    ensures ok { OnOk result (list_of (λ l. T.shows l) label.now items.now page.old.items page.new.items) }
    ensures kept { OnOk result (Begins page.old.items page.new.items) }
    ensures err { OnErr result (page.new.items ≡ page.old.items) }
{
    let start = page.len();
    let count = format!(in alloc; "{}", items.len())?;
    push_token(
        alloc,
        Form::List,
        label,
        count.into_bytes(),
        Vec::new(alloc),
        page,
    )?;
    let shown = show_to_end(alloc, label, items, page);
    if shown.is_err() {
        page.truncate(start);
    }
    shown
}

/// How many items there are, and each of them.
impl<K, T: Show<K>> Show<K> for Asn1SequenceOf<T> {
    ghost shows = { list_of T.shows };

    fn show(&self, alloc: Global, label: &Label, page: &mut Page) -> Result<(), AllocError> {
        show_list(alloc, label, self.0.as_slice(), page)
    }
}

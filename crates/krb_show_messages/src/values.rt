//! Octets of types that have a row, read and shown by it; values of such types, shown by it.

ghost use Rattle.std.specs.Prelude.{◌≡◌, IfErr, IfOk, OnErr, OnOk};
ghost use Rattle.krb_der.specs.Whole.{NoDevice};
ghost use Rattle.krb_show.specs.RowWalk.{IsWalkBy};
ghost use Rattle.krb_show.specs.Tokens.{Begins, plain};
ghost use Rattle.krb_show.specs.declared.rows.walk.Walk.TheVariants as walks;
ghost use Rattle.krb_show_messages.specs.Shown.{IsPageByRow, IsRefusedBy, reason_of, shows_of};

use crate::formats::KerberosFormats;
use crate::rows::HasRow;
use krb_der::{Asn1DerError, DerEncode, encoding};
use krb_schema::{Fault, Item};
use krb_show::{Page, Secrets, ShowFields, Walk, push_items, show_by_row, walk_named};
use std::alloc::{AllocError, Global};

/// Appends a value, called `text`, by its type's row. The page is as before where an allocation fails.
pub fn show_value<T: DerEncode + HasRow>(
    alloc: Global,
    text: &'static str,
    value: &T,
    page: &mut Page,
) -> Result<(), AllocError>
    ensures ok { OnOk result (shows_of T.row_name T.enc (plain text.now) value.now page.old.items page.new.items) }
    ensures kept { OnOk result (Begins page.old.items page.new.items) }
    ensures err { OnErr result (page.new.items ≡ page.old.items) }
{
    let octets = encoding(alloc, value)?;
    show_by_row::<KerberosFormats>(alloc, T::row(), text, &octets, page)
}

/// A value of a type that has a row, and what it is called, lent for showing.
#[derive(Drop)]
pub struct RowField<'a, T> {
    /// What it is called.
    pub text: &'static str,
    /// The value.
    pub value: &'a T,
}

impl<'a, T: DerEncode + HasRow> ShowFields for RowField<'a, T> {
    ghost shows = { λ f. shows_of T.row_name T.enc (plain f.text.now) f.value.now };

    fn show_fields(&self, alloc: Global, page: &mut Page) -> Result<(), AllocError> {
        show_value(alloc, self.text, self.value, page)
    }
}

/// The error of DER that a fault is. A table that lacks a row, and elements that stand too deep in one another, are `InvalidData`; of the table of
/// `krb_schema` there is neither.
fn reason_of(fault: Fault) -> Asn1DerError
    ensures { result ≡ reason_of fault }
{
    match fault {
        Fault::Refused { why, .. } => why,
        Fault::OutOfMemory => Asn1DerError::OutOfMemory,
        Fault::NoRow | Fault::TooDeep { .. } => Asn1DerError::InvalidData,
    }
}

/// The items of the one element, called `text`, that octets are by the row of this name in the table of `krb_schema`. Other octets are refused with the reason
/// of their first fault, from the left; a name that no row has is `InvalidData`. `Io` is never returned.
pub fn items_by_row(
    alloc: Global,
    row: &'static str,
    text: &'static str,
    octets: &[u8],
) -> Result<Vec<Item>, Asn1DerError>
    ensures found { IfOk result (λ items. IsWalkBy row.now text.now octets.now (walks.Items items)) }
    ensures refused { IfErr result (IsRefusedBy row.now text.now octets.now) }
    ensures no_device { IfErr result NoDevice }
{
    match walk_named(alloc, row, text, octets)? {
        Walk::Items(items) => Ok(items),
        Walk::Fault(fault) => Err(reason_of(fault)),
        Walk::NoRow => Err(Asn1DerError::InvalidData),
    }
}

/// The page of the one element, called `text`, that octets are by the row of this name in the table of `krb_schema`, secrets shown. Other octets are refused
/// as by `items_by_row`.
pub fn page_by_row(
    alloc: Global,
    row: &'static str,
    text: &'static str,
    octets: &[u8],
) -> Result<Page, Asn1DerError>
    ensures { IsPageByRow row.now text.now (λ p. p.items) octets.now result }
{
    let items = items_by_row(alloc, row, text, octets)?;
    let mut page = Vec::new(alloc);
    push_items::<KerberosFormats>(alloc, Secrets::Shown, octets, &items, &mut page)?;
    Ok(page)
}

//! Octets by the row of a type, found by its name.

ghost use Rattle.std.specs.Prelude.{◌≡◌, IfOk, OnErr, OnOk, Some};
ghost use Rattle.krb_schema.specs.Named.{row_in};
ghost use Rattle.krb_schema.specs.Types.{types};
ghost use Rattle.krb_show.specs.Tokens.{Begins};
ghost use Rattle.krb_show.specs.RowWalk.{IsShownByRow, IsWalkBy};

use crate::rows::formats::ShowsFormats;
use crate::rows::items::push_items;
use crate::rows::stand::Secrets;
use crate::{Label, Page, show_octets};
use krb_schema::kerberos::kerberos;
use krb_schema::{Fault, Item, Name, Role, items_of, row_named};
use std::alloc::{AllocError, Global};

/// What a walk of octets comes to.
#[derive(Drop)]
pub enum Walk {
    /// There is no row of the name.
    NoRow,
    /// They are one element of the row, of these items.
    Items(Vec<Item>),
    /// They are none, and this is their first fault.
    Fault(Fault),
}

/// Walks octets by a row, with this text as the name of the outermost element.
fn walk_by_row(
    alloc: Global,
    row_name: &'static str,
    text: &'static str,
    row: usize,
    octets: &[u8],
) -> Result<Walk, AllocError>
    requires { row_in types row_name.now ≡ Some row }
    ensures { IfOk result (IsWalkBy row_name.now text.now octets.now) }
{
    let name = Name {
        text,
        registry: None,
        role: Role::None,
    };
    match items_of(alloc, &kerberos(), row, name, octets) {
        Ok(items) => Ok(Walk::Items(items)),
        Err(Fault::OutOfMemory) => Err(AllocError),
        Err(fault) => Ok(Walk::Fault(fault)),
    }
}

/// Walks octets by the row of this name in the table of `krb_schema`, if there is one, with this text as the name of the outermost
/// element. The only error is an allocation failure.
pub fn walk_named(
    alloc: Global,
    row_name: &'static str,
    text: &'static str,
    octets: &[u8],
) -> Result<Walk, AllocError>
    ensures { IfOk result (IsWalkBy row_name.now text.now octets.now) }
{
    match row_named(row_name) {
        Some(row) => walk_by_row(alloc, row_name, text, row, octets),
        None => Ok(Walk::NoRow),
    }
}

/// Appends octets by the row of this name, called `text`, secrets shown: the tokens of their items if they are one element of the row,
/// and else octets. The page is as before where an allocation fails.
pub fn show_by_row<F: ShowsFormats>(
    alloc: Global,
    row_name: &'static str,
    text: &'static str,
    octets: &[u8],
    page: &mut Page,
) -> Result<(), AllocError>
    ensures ok { OnOk result (IsShownByRow F.tells row_name.now text.now octets.now page.old.items page.new.items) }
    ensures kept { OnOk result (Begins page.old.items page.new.items) }
    ensures err { OnErr result (page.new.items ≡ page.old.items) }
{
    match walk_named(alloc, row_name, text, octets)? {
        Walk::Items(items) => push_items::<F>(alloc, Secrets::Shown, octets, &items, page),
        Walk::NoRow | Walk::Fault(_) => show_octets(alloc, &Label::new(text), octets, page),
    }
}

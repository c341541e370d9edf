//! Octets of a type as items.

ghost use Rattle.std.specs.Prelude.{◌≡◌, Some, IfOk, MatchBool, MatchOption};
ghost use Rattle.krb_decrypt.specs.Types.{AreItemsOf, IsNoElement, IsOfNo};
ghost use Rattle.krb_schema.specs.Named.{row_in};
ghost use Rattle.krb_schema.specs.declared.item.Fault.TheVariants as faults;
ghost use Rattle.krb_schema.specs.Types.{types};

use krb_schema::kerberos::kerberos;
use krb_schema::{Fault, Item, Name, Role, items_of, row_named};
use std::alloc::{AllocError, Global};

/// The items of octets by the row of their type, if they are one element of it.
fn walked_by(
    alloc: Global,
    type_name: &'static str,
    row: usize,
    octets: &[u8],
) -> Result<Option<Vec<Item>>, AllocError>
    requires { row_in types type_name.now ≡ Some row }
    ensures { IfOk result (λ found. MatchOption found (IsNoElement row type_name.now octets.now) (λ items. AreItemsOf type_name.now octets.now items.items)) }
{
    let name = Name {
        text: type_name,
        registry: None,
        role: Role::None,
    };
    match items_of(alloc, &kerberos(), row, name, octets) {
        Ok(items) => Ok(Some(items)),
        Err(fault) => {
            if fault.is_out_of_memory() {
                return Err(AllocError);
            }
            Ok(None)
        }
    }
}

/// The items of octets that are one element of the type that its standard calls so; `None` if they are none.
pub(crate) fn walked(
    alloc: Global,
    type_name: &'static str,
    octets: &[u8],
) -> Result<Option<Vec<Item>>, AllocError>
    ensures { IfOk result (λ found. MatchOption found (IsOfNo type_name.now octets.now) (λ items. AreItemsOf type_name.now octets.now items.items)) }
{
    match row_named(type_name) {
        Some(row) => walked_by(alloc, type_name, row, octets),
        None => Ok(None),
    }
}

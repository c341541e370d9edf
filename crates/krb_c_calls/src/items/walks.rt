//! The items of octets.

ghost use Rattle.std.specs.Prelude.{◌≡◌, MatchResult};
ghost use Rattle.krb_c_calls.specs.Items.{AreItems, LeadsTo, RefusesFinding, RefusesItems, fault_offset, fault_refusal};
ghost use Rattle.krb_c_calls.specs.Statuses.{refusal_status};

use crate::call_error::CallError;
use krb_schema::kerberos::kerberos;
use krb_schema::{Fault, Item, Name, PathError, Role, items_of, type_named};
use std::alloc::Global;

/// Why octets have no items, and how many octets stand before the first error.
#[derive(Clone, Copy)]
pub struct WalkRefusal {
    /// Why.
    pub refusal: CallError,
    /// How many octets stand before it.
    pub offset: usize,
}

impl From<Fault> for WalkRefusal {
    ghost from_gives = { λ fault refused. (refused.refusal ≡ fault_refusal fault)
        × (refused.offset ≡ fault_offset fault) };

    fn from(fault: Fault) -> WalkRefusal {
        match fault {
            Fault::OutOfMemory => WalkRefusal {
                refusal: CallError::Memory,
                offset: 0,
            },
            Fault::NoRow => WalkRefusal {
                refusal: CallError::Never,
                offset: 0,
            },
            Fault::TooDeep { offset } => WalkRefusal {
                refusal: CallError::TooDeep,
                offset,
            },
            Fault::Refused { why, offset } => WalkRefusal {
                refusal: CallError::from(why),
                offset,
            },
        }
    }
}

/// The items of octets as an element of the type of this name. Refused: `Number` where no type has the name; else the first error of the octets from the
/// left, with its place; `Memory` where an allocation failed.
pub fn walked(alloc: Global, type_name: &[u8], octets: &[u8]) -> Result<Vec<Item>, WalkRefusal>
    ensures { MatchResult result
        (λ items. AreItems type_name.now octets.now items.items)
        (λ refused. RefusesItems type_name.now octets.now (refusal_status refused.refusal) refused.offset) }
{
    let Some((text, row)) = type_named(type_name) else {
        return Err(WalkRefusal {
            refusal: CallError::Number,
            offset: 0,
        });
    };
    let name = Name {
        text,
        registry: None,
        role: Role::None,
    };
    match items_of(alloc, &kerberos(), row, name, octets) {
        Ok(items) => Ok(items),
        Err(fault) => Err(WalkRefusal::from(fault)),
    }
}

/// The item of the octets that a path leads to; else why there is none.
pub(crate) fn found(
    alloc: Global,
    type_name: &[u8],
    path: &[u8],
    octets: &[u8],
) -> Result<Item, CallError>
    ensures { MatchResult result
        (λ item. LeadsTo type_name.now path.now octets.now item)
        (λ e. RefusesFinding type_name.now path.now octets.now (refusal_status e)) }
{
    let items = match walked(alloc, type_name, octets) {
        Ok(items) => items,
        Err(refused) => return Err(refused.refusal),
    };
    match krb_schema::find(&items, path) {
        Ok(item) => Ok(item),
        Err(PathError::NoPath) => Err(CallError::Number),
        Err(PathError::Absent) => Err(CallError::Absent),
    }
}

//! Octets that are checked: whether they are of a type.

ghost use Rattle.std.specs.Prelude.{◌≡◌, ◌⊎◌, IfErr, IfOk};
ghost use Rattle.jolmurig.specs.Checks.{HasPage, IsUnchecked};
ghost use Rattle.jolmurig.specs.Warnings.{AreWarnings};
ghost use Rattle.jolmurig.specs.declared.failure.Failure.TheVariants as failure;

use crate::calls::Calls;
use crate::failure::Failure;
use crate::warning::warnings_of;
use krb_show_any::{Kind, PageError, Pages};
use std::alloc::Global;

/// The warnings of octets that are of a kind: those of a type of DER are if they are the one encoding of a value.
pub fn check_octets<S: Pages<Kind, PageError>, C: Calls>(
    alloc: Global,
    kind: Kind,
    octets: &[u8],
) -> Result<Vec<u8>, Failure<'static>>
    ensures found { IfOk result (λ notes. HasPage S.tells kind octets.now) }
    ensures warned { IfOk result (λ notes. AreWarnings C.breaks kind octets.now notes.items) }
    ensures rejected { IfErr result (λ e. (e ≡ failure.Memory) ⊎ IsUnchecked S.tells C.places kind octets.now e) }
{
    match S::page_of(alloc, kind, octets) {
        Ok(_page) => Ok(warnings_of::<C>(alloc, kind, octets)?),
        Err(PageError::OutOfMemory) => Err(Failure::Memory),
        Err(why) => {
            let place = C::place_of(alloc, kind, &why, octets)?;
            Err(Failure::Octets { kind, why, place })
        }
    }
}

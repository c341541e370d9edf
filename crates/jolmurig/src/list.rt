//! The lists of files of entries.

ghost use Rattle.std.specs.Prelude.{◌≡◌, ◌⊎◌, IfOk, IfErr};
ghost use Rattle.jolmurig.specs.Lists.{IsListed, IsUnlisted, entries_of, failure_of_list};
ghost use Rattle.jolmurig.specs.declared.failure.Failure.TheVariants as failure;

use crate::calls::{Calls, Entries};
use crate::failure::Failure;
use krb_file_tools::list::ListError;
use krb_show_any::{Kind, PageError, kind_of_octets};
use std::alloc::Global;

/// Which file of entries octets begin as.
fn entries_of(octets: &[u8]) -> Option<Entries>
    ensures { result ≡ entries_of octets.now }
{
    match kind_of_octets(octets) {
        Some(Kind::Keytab) => Some(Entries::Keytab),
        Some(Kind::Ccache) => Some(Entries::Ccache),
        _ => None,
    }
}

/// The failure that an error of a list is.
fn failure_of_list(error: ListError) -> Failure<'static>
    ensures { result ≡ failure_of_list error }
{
    match error {
        ListError::Keytab(why) => Failure::Octets {
            kind: Kind::Keytab,
            why: PageError::Keytab(why),
            place: None,
        },
        ListError::Ccache(why) => Failure::Octets {
            kind: Kind::Ccache,
            why: PageError::Ccache(why),
            place: None,
        },
        ListError::OutOfMemory => Failure::Memory,
    }
}

/// The list of the entries that octets are.
pub fn list_of<C: Calls>(alloc: Global, octets: &[u8]) -> Result<Vec<u8>, Failure<'static>>
    ensures found { IfOk result (λ text. IsListed C.lists octets.now text.items) }
    ensures rejected { IfErr result (IsUnlisted octets.now) }
{
    let Some(entries) = entries_of(octets) else {
        return Err(Failure::NoEntries);
    };
    match C::listed(alloc, entries, octets) {
        Ok(text) => Ok(text),
        Err(error) => Err(failure_of_list(error)),
    }
}

//! Which entry of a keytab a program takes.

ghost use Rattle.std.specs.Prelude.{◌≡◌, Some};
ghost use Rattle.krb_files.specs.Principals.{principal_of};
ghost use Rattle.krb_files.specs.Find.{better, found_entry, is_asked};

use crate::fields::PrincipalParts;
use crate::keytab::entry::EntryView;
use crate::keytab::view::KeytabView;

impl<'a> KeytabView<'a> {
    /// The entry of a principal's key: of the entries with this realm and these components, with this encryption type where one is
    /// given, and with this version where it is not 0, the first of those of the highest version. `None` where there is no such entry.
    ///
    /// The type of the name does not count. MIT Kerberos takes a lower version for higher where it is below 128 and the other one
    /// above 240, since versions of 8 bits begin again at 0: this call does not.
    pub fn find(
        &self,
        principal: &PrincipalParts,
        etype: Option<u16>,
        kvno: u32,
    ) -> Option<EntryView<'a>>
        ensures { result ≡ found_entry (principal_of principal.now) etype kvno self.now }
    {
        let mut best = None;
        'entries: for entry in self.entries() {
            if is_match(&entry, principal, etype, kvno) {
                best = better_of(best, entry);
            }
        }
        best
    }
}

/// Whether an entry is of this principal, encryption type and version.
fn is_match(entry: &EntryView, principal: &PrincipalParts, etype: Option<u16>, kvno: u32) -> bool
    ensures { result ≡ is_asked (principal_of principal.now) etype kvno entry.now }
{
    if !entry.principal().is_same(principal) {
        return false;
    }
    if let Some(etype) = etype {
        if entry.etype() != etype {
            return false;
        }
    }
    kvno == 0 || entry.kvno() == kvno
}

/// The best entry so far, or this one, if its version is higher.
fn better_of<'a>(best: Option<EntryView<'a>>, entry: EntryView<'a>) -> Option<EntryView<'a>>
    ensures { result ≡ better best.entry (Some entry.entry) }
{
    match best {
        None => Some(entry),
        Some(best) => {
            if best.kvno() < entry.kvno() {
                Some(entry)
            } else {
                Some(best)
            }
        }
    }
}

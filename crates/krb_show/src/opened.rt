//! Octet strings that hold encodings.

ghost use Rattle.std.specs.Prelude.{◌≡◌, IfOk, MatchOption, OnOk, OnErr};
ghost use Rattle.krb_show.specs.Opened.{IsNone, IsOf, opened_by};
ghost use Rattle.krb_show.specs.Tokens.{Begins};

use crate::leaves::show_octets;
use crate::show::Show;
use crate::token::{Label, Page};
use krb_der::{Asn1DerError, Der, from_bytes};
use std::alloc::{AllocError, Global};

/// The value whose encoding these octets are; `None` where they are the encoding of none. The only error is an allocation failure.
pub fn open<T: Der + Drop>(alloc: Global, octets: &[u8]) -> Result<Option<T>, AllocError>
    ensures { IfOk result (λ found. MatchOption found (IsNone T.is_value T.enc octets.now) (λ v. IsOf T.is_value T.enc octets.now v)) }
{
    match from_bytes::<T>(alloc, octets) {
        Ok(value) => Ok(Some(value)),
        Err(Asn1DerError::OutOfMemory) => Err(AllocError),
        Err(_) => Ok(None),
    }
}

/// Appends the tokens of the value of `T` whose encoding these octets are, and octets where they are the encoding of none.
pub fn show_opened<K, T: Der + Show<K> + Drop>(
    alloc: Global,
    label: &Label,
    octets: &[u8],
    page: &mut Page,
) -> Result<(), AllocError>
    ensures ok { OnOk result (opened_by T.is_value T.enc T.shows label.now octets.now page.old.items page.new.items) }
    ensures kept { OnOk result (Begins page.old.items page.new.items) }
    ensures err { OnErr result (page.new.items ≡ page.old.items) }
{
    match open::<T>(alloc, octets)? {
        Some(value) => value.show(alloc, label, page),
        None => show_octets(alloc, label, octets, page),
    }
}

//! Octets, as the page of the value that they encode.

ghost use Rattle.krb_show.specs.Told.{IsTold};

use crate::show::Show;
use crate::token::{Label, Page};
use krb_der::{Asn1DerError, Der, from_bytes};
use std::alloc::Global;

/// The page of the value whose encoding the octets are, under a name. What is no encoding is refused as by `from_bytes`; `Io` is never
/// returned.
pub fn page_of_octets<K, T: Der + Show<K> + Drop>(
    alloc: Global,
    label: &Label,
    octets: &[u8],
) -> Result<Page, Asn1DerError>
    ensures told { IsTold T.is_value T.enc T.first T.error (T.shows label.now) (λ page. page.items) octets.now result }
{
    let value: T = from_bytes(alloc, octets)?;
    let mut page = Vec::new(alloc);
    value.show(alloc, label, &mut page)?;
    Ok(page)
}

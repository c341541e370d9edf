//! What is read is written again the same.

ghost use Rattle.std.specs.Prelude.{◌≡◌, IfOk};

use krb_der::{Asn1DerError, Der, from_bytes, to_vec};
use std::alloc::Global;

/// The encoding of the value that the octets are: the octets again, since a value has one encoding.
pub fn written_again<T: Der + Drop>(alloc: Global, octets: &[u8]) -> Result<Vec<u8>, Asn1DerError>
    ensures { IfOk result (λ made. made.items ≡ octets.now) }
{
    let value: T = from_bytes(alloc, octets)?;
    Ok(to_vec(alloc, &value)?)
}

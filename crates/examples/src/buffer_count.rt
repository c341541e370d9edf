//! How many buffers a PAC has.

ghost use Rattle.std.specs.Prelude.{◌≡◌, List, length, IfOk};
ghost use Rattle.krb_pac.specs.Layout.{Buffer, PacIs};

use krb_pac::{Pac, PacError};
use std::alloc::Global;

/// The number of buffers of the PAC that the octets are.
pub fn buffer_count(alloc: Global, octets: &[u8]) -> Result<usize, PacError>
    ensures { IfOk result (λ n. (pac : List Buffer) × PacIs octets.now pac × (n ≡ length pac)) }
{
    let pac = Pac::deserialize(alloc, octets)?;
    Ok(pac.buffers().len())
}

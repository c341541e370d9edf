//! The octets of a fixed part.

ghost use Rattle.std.specs.Prelude.{◌≡◌, take, drop, Some, IfOk, IfErr, IfSome};
ghost use Rattle.krb_negoex.specs.Devices.{GatherRejected};

use krb_io::read_up_to;
use std::alloc::Global;
use std::io;
use std::io::Read;

/// The next octets of a reader, fewer where it ends before.
pub(crate) fn read_prefix<R: Read>(alloc: Global, from: &mut R, count: usize) -> io::Result<Vec<u8>>
    ensures ok { IfOk result (λ v. IfSome (R.remaining from.old) (λ f. (v.items ≡ take count f) × (R.remaining from.new ≡ Some (drop count f)))) }
    ensures rejected { IfErr result (GatherRejected count (R.remaining from.old) (R.remaining from.new)) }
{
    Ok(read_up_to(alloc, from, count)?)
}

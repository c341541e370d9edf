//! Octets handed to the caller, who owns the memory that they stand in.

ghost use Rattle.std.specs.Prelude.{MatchResult};
ghost use Rattle.krb_c_calls.specs.Handing.{IsPut, IsRefused};

use crate::call_error::{CallError, DONE, ROOM};

/// `size` becomes the number of the octets. If they fit, they are copied to the front of `out`, and the
/// status is `DONE`; if they do not, it is `ROOM`, and `out` is as it was.
pub fn put(octets: &[u8], out: &mut [u8], size: &mut usize) -> u32
    ensures { IsPut octets.now out.old out.new size.new result }
{
    *size = octets.len();
    if octets.len() > out.len() {
        return ROOM;
    }
    out[..octets.len()].copy_from_slice(octets);
    DONE
}

/// Hands out what was made, as `put` does. If nothing was made, the status is the refusal's, `size`
/// becomes 0, and `out` is as it was.
pub fn hand_out(made: &Result<Vec<u8>, CallError>, out: &mut [u8], size: &mut usize) -> u32
    ensures { MatchResult made.now
        (λ octets. IsPut octets.items out.old out.new size.new result)
        (λ refusal. IsRefused refusal out.old out.new size.new result) }
{
    match made {
        Ok(octets) => put(octets, out, size),
        Err(refusal) => {
            *size = 0;
            refusal.status()
        }
    }
}

//! Octets in one vector.

ghost use Rattle.std.specs.Prelude.{◌≡◌, ◌++◌, IfOk, IfErr};

use crate::error::ProtectionError;
use std::alloc::Global;

/// These octets and then those. `OutOfMemory` is the only error.
pub(crate) fn joined(alloc: Global, front: &[u8], back: &[u8]) -> Result<Vec<u8>, ProtectionError>
    ensures joined { IfOk result (λ octets. octets.items ≡ front.now ++ back.now) }
    ensures memory { IfErr result (λ e. e ≡ ProtectionError.OutOfMemory) }
{
    let mut octets = Vec::with_capacity(alloc, front.len().saturating_add(back.len()))?;
    octets.extend_from_slice(front)?;
    octets.extend_from_slice(back)?;
    Ok(octets)
}

//! The hash of channel bindings.

ghost use Rattle.std.specs.Prelude.{◌≡◌, IfErr, IfOk, MatchResult};
ghost use Rattle.krb_c_accept.specs.Bindings.{IsBindingsHash, RefusesBindings, sides_of};
ghost use Rattle.krb_c_calls.specs.Handing.{IsAnswered};
ghost use Rattle.krb_c_calls.specs.Statuses.{refusal_status};

use krb_accept::ChannelBindings;
use krb_c_calls::CallError;
use krb_c_calls::handing::hand_out;
use std::alloc::Global;

/// The hash, or why there is none.
fn hash_of(alloc: Global, bindings: &ChannelBindings) -> Result<Vec<u8>, CallError>
    ensures { MatchResult result (λ hash. IsBindingsHash (sides_of bindings.now) hash.items) (λ e. RefusesBindings (sides_of bindings.now) (refusal_status e)) }
{
    match krb_accept::channel_bindings(bindings) {
        Some(hash) => Ok(Vec::from_slice(alloc, &hash)?),
        None => Err(CallError::TooLarge),
    }
}

/// The hash of channel bindings (RFC 4121, 4.1.1.2), 16 octets.
///
/// Status 21 where an address or the data have 2^32 octets or more; 2 where an allocation failed.
pub fn channel_bindings(
    alloc: Global,
    bindings: &ChannelBindings,
    out: &mut [u8],
    size: &mut usize,
) -> u32
    ensures { IsAnswered (IsBindingsHash (sides_of bindings.now)) (RefusesBindings (sides_of bindings.now)) out.old out.new size.new result }
{
    hand_out(&hash_of(alloc, bindings), out, size)
}

//! Why nothing follows.

ghost use Rattle.std.specs.Prelude.{◌≡◌};
ghost use Rattle.krb_c_calls.specs.declared.call_error.CallError.TheVariants as calls;
ghost use Rattle.krb_c_client.specs.Refusals.{refusal_of};
ghost use Rattle.krb_c_client.specs.declared.refusal.Refusal.TheVariants as refusals;

use krb_c_calls::CallError;
use std::alloc::AllocError;

/// Why nothing follows.
#[derive(Clone, Copy)]
pub(crate) enum Refusal {
    /// A rule is broken, of this number, with this code of the KDC's error.
    Rule(u32, u32),
    /// Nothing is decided.
    Failed(CallError),
}

impl From<CallError> for Refusal {
    ghost from_gives = { λ e r. r ≡ refusals.Failed e };

    fn from(error: CallError) -> Refusal {
        Refusal::Failed(error)
    }
}

impl From<AllocError> for Refusal {
    ghost from_gives = { λ _ r. r ≡ refusals.Failed calls.Memory };

    fn from(_error: AllocError) -> Refusal {
        Refusal::Failed(CallError::Memory)
    }
}

/// The rule is broken; where there is none, an allocation failed.
pub(crate) fn refusal_of(rule: Option<u32>, code: u32) -> Refusal
    ensures { result ≡ refusal_of rule code }
{
    match rule {
        Some(rule) => Refusal::Rule(rule, code),
        None => Refusal::Failed(CallError::Memory),
    }
}

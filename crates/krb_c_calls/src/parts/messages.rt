//! Messages, checked.

ghost use Rattle.std.specs.Prelude.{MatchResult};
ghost use Rattle.krb_c_calls.specs.Statuses.{refusal_status};
ghost use Rattle.krb_c_calls.specs.MessageRules.{IsEncoding, RefusesReading};

use crate::call_error::CallError;
use krb_der::{Der, DerEncode, from_bytes};
use std::alloc::Global;

/// Whether the octets are the encoding of a value; else why they are not.
pub fn checked<T: Der + Drop>(alloc: Global, octets: &[u8]) -> Result<(), CallError>
    ensures { MatchResult result (λ _. IsEncoding ⟦<T as DerEncode>⟧ octets.now) (λ e. RefusesReading ⟦<T as DerEncode>⟧ octets.now (refusal_status e)) }
{
    let _value: T = from_bytes(alloc, octets)?;
    Ok(())
}

//! Fields of messages.

ghost use Rattle.std.specs.Prelude.{◌≡◌, ◌≤◌, Any, IfErr, IfOk, MatchResult};
ghost use Rattle.krb_build.specs.Flags.{AreFlags};
ghost use Rattle.krb_build.specs.Times.{IsNoTime, IsTime, IsTimeAt};
ghost use Rattle.krb_client.specs.Bodies.{IsNoTimeOption, IsTimeOption};
ghost use Rattle.krb_client.specs.Errors.{IsMemoryOr, IsTimeError};
ghost use Rattle.krb_client.specs.declared.requests.error.RequestError.TheVariants as errors;

use crate::requests::error::RequestError;
use krb_build::{BuildError, bits_of};
use krb_der::{
    BitStringAsn1, Der, DerEncode, ExplicitContextTag, IntegerAsn1, Optional, copy, to_vec,
};
use krb_types::data_types::{KerberosTime, Microseconds};
use krb_types::view::time_of_unix_seconds;
use std::alloc::Global;

/// The most microseconds (RFC 4120, 5.2.4).
const MOST: u32 = 999_999;

/// A field that may be absent, under its tag.
pub(crate) fn field<T, N>(value: Option<T>) -> Optional<Option<ExplicitContextTag<T, N>>>
    ensures { result.0 ≡ value }
{
    match value {
        Some(value) => Optional(Some(ExplicitContextTag::from(value))),
        None => Optional(None),
    }
}

/// An equal value.
pub(crate) fn copy_of<T: Der + Drop>(alloc: Global, value: &T) -> Result<T, RequestError>
    ensures { MatchResult result (λ v. v ≡ value.now) (λ e. e ≡ errors.OutOfMemory) }
{
    match copy(alloc, value) {
        Ok(value) => Ok(value),
        Err(_error) => Err(RequestError::OutOfMemory),
    }
}

/// Values equal to these two.
pub(crate) fn copies_of<A: Der + Drop, B: Der + Drop>(
    alloc: Global,
    first: &A,
    second: &B,
) -> Result<(A, B), RequestError>
    ensures { MatchResult result (λ r. (r.0 ≡ first.now) × (r.1 ≡ second.now)) (λ e. e ≡ errors.OutOfMemory) }
{
    let first = copy_of(alloc, first)?;
    match copy_of(alloc, second) {
        Ok(second) => Ok((first, second)),
        Err(error) => {
            drop(first);
            Err(error)
        }
    }
}

/// The encoding of a value.
pub(crate) fn encoding<T: DerEncode>(alloc: Global, value: &T) -> Result<Vec<u8>, RequestError>
    ensures valid { IfOk result (λ _. T.is_value value.now) }
    ensures octets { MatchResult result (λ octets. octets.items ≡ T.enc value.now) (λ e. e ≡ errors.OutOfMemory) }
{
    match to_vec(alloc, value) {
        Ok(octets) => Ok(octets),
        Err(_error) => Err(RequestError::OutOfMemory),
    }
}

/// The encoding of a value, which is let go.
pub(crate) fn encoded<T: DerEncode + Drop>(alloc: Global, value: T) -> Result<Vec<u8>, RequestError>
    ensures valid { IfOk result (λ _. T.is_value value) }
    ensures octets { MatchResult result (λ octets. octets.items ≡ T.enc value) (λ e. e ≡ errors.OutOfMemory) }
{
    encoding(alloc, &value)
}

/// 32 flags, of which those of these numbers are set and no others (RFC 4120, 5.2.8).
pub(crate) fn flags_of(alloc: Global, numbers: &[usize]) -> Result<BitStringAsn1, RequestError>
    ensures flags { IfOk result (AreFlags numbers.now) }
    ensures rejected { IfErr result (λ e. IsMemoryOr e ((e ≡ errors.OptionNumber) × Any (λ n. 32 ≤ n) numbers.now)) }
{
    match bits_of(alloc, numbers) {
        Ok(flags) => Ok(flags),
        Err(BuildError::FlagNumber) => Err(RequestError::OptionNumber),
        Err(_error) => Err(RequestError::OutOfMemory),
    }
}

/// The time of these seconds since 1 January 1970.
pub(crate) fn time_of(seconds: i64) -> Result<KerberosTime, RequestError>
    ensures { MatchResult result (IsTime seconds) (λ e. (e ≡ errors.Time) × IsNoTime seconds) }
{
    match time_of_unix_seconds(seconds) {
        Ok(time) => Ok(time),
        Err(_error) => Err(RequestError::Time),
    }
}

/// The time of these seconds, where there are any.
pub(crate) fn time_option_of(seconds: Option<i64>) -> Result<Option<KerberosTime>, RequestError>
    ensures { MatchResult result (IsTimeOption seconds) (λ e. (e ≡ errors.Time) × IsNoTimeOption seconds) }
{
    match seconds {
        Some(seconds) => Ok(Some(time_of(seconds)?)),
        None => Ok(None),
    }
}

/// The time of these seconds since 1 January 1970, and the microseconds after it.
pub(crate) fn time_at(
    alloc: Global,
    seconds: i64,
    microseconds: u32,
) -> Result<(KerberosTime, Microseconds), RequestError>
    ensures time { IfOk result (λ r. IsTimeAt seconds microseconds r.0 r.1) }
    ensures rejected { IfErr result (IsTimeError seconds microseconds) }
{
    if microseconds > MOST {
        return Err(RequestError::Microseconds);
    }
    let time = time_of(seconds)?;
    Ok((time, IntegerAsn1::from_u32(alloc, microseconds)))
}

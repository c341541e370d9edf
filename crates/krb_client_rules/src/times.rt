//! Times in seconds, compared.

ghost use Rattle.std.specs.Prelude.{◌≡◌, MatchBool};
ghost use Rattle.krb_client_rules.specs.Times.{IsInTime, IsInTimeOf, IsOrdered, IsWithin, begin_of};

use crate::asked::{Asked, Clock};
use krb_types::data_types::KerberosTime;
use krb_types::view::unix_seconds;

/// From when on the ticket is to be valid: now, or later where a later time was asked for.
pub(crate) fn begin_of(asked: &Asked, clock: &Clock) -> i64
    ensures { result ≡ begin_of asked.now.from clock.now.seconds }
{
    match asked.from {
        Some(from) => {
            if from <= clock.seconds {
                clock.seconds
            } else {
                from
            }
        }
        None => clock.seconds,
    }
}

/// Whether two times are at most so many seconds apart.
pub(crate) fn is_within(skew: u32, first: i64, second: i64) -> bool
    ensures { MatchBool result (IsWithin skew first second) (IsWithin skew first second → ⊥) }
{
    first.abs_diff(second) <= u64::from(skew)
}

/// Whether a time is at most the one that was asked for.
pub(crate) fn is_in_time(limit: i64, time: &KerberosTime) -> bool
    ensures { MatchBool result (IsInTime limit time.now) (IsInTime limit time.now → ⊥) }
{
    limit == 0 || unix_seconds(time) <= limit
}

/// Whether a time is at most the one that was asked for, where one was.
pub(crate) fn is_in_time_of(limit: &Option<i64>, time: &KerberosTime) -> bool
    ensures { MatchBool result (IsInTimeOf limit.now time.now) (IsInTimeOf limit.now time.now → ⊥) }
{
    match limit {
        Some(limit) => is_in_time(*limit, time),
        None => true,
    }
}

/// Whether the first of two times is not after the second.
pub(crate) fn is_ordered(first: &KerberosTime, second: &KerberosTime) -> bool
    ensures { MatchBool result (IsOrdered first.now second.now) (IsOrdered first.now second.now → ⊥) }
{
    unix_seconds(first) <= unix_seconds(second)
}

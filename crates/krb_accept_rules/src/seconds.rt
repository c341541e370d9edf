//! Times, compared with a skew.

ghost use Rattle.std.specs.Prelude.{◌≡◌, pos, ◌+ℤ◌, ◌≤ℤ◌, int_le, MatchBool};
ghost use Rattle.krb_accept_rules.specs.Times.{IsOfWhole, IsWithin};

/// Whether a time is no more than so many seconds after another.
pub(crate) fn is_no_later(time: i64, other: i64, skew: u32) -> bool
    ensures value { result ≡ int_le time (other +ℤ pos skew) }
    ensures cases { MatchBool result (time ≤ℤ (other +ℤ pos skew)) ((time ≤ℤ (other +ℤ pos skew)) → ⊥) }
{
    i128::from(time) <= i128::from(other) + i128::from(skew)
}

/// Whether a time differs from the clock by no more than the skew.
pub(crate) fn is_within(time: i64, clock: i64, skew: u32) -> bool
    ensures { MatchBool result (IsWithin clock skew time) (IsWithin clock skew time → ⊥) }
{
    is_no_later(time, clock, skew) && is_no_later(clock, time, skew)
}

/// Whether a time is no less than so many seconds after another.
fn is_no_sooner(time: i64, other: i64, skew: u32) -> bool
    ensures { MatchBool result ((other +ℤ pos skew) ≤ℤ time) (((other +ℤ pos skew) ≤ℤ time) → ⊥) }
{
    i128::from(other) + i128::from(skew) <= i128::from(time)
}

/// Whether an authenticator of this time cannot have been accepted before the cache was whole.
pub(crate) fn is_of_whole(whole_since: Option<i64>, skew: u32, time: i64) -> bool
    ensures { MatchBool result (IsOfWhole whole_since skew time) (IsOfWhole whole_since skew time → ⊥) }
{
    match whole_since {
        Some(since) => is_no_sooner(time, since, skew),
        None => true,
    }
}

//! Times to the microsecond (RFC 4120, 5.2.3 and 5.2.4).

ghost use Rattle.std.specs.Prelude.{◌≡◌, ◌≤◌, pos, IfOk, IfErr};
ghost use Rattle.krb_types.specs.Times.{unix_seconds};
ghost use Rattle.krb_build.specs.Times.{IsMicroseconds, IsNoTime, IsTime, IsTimeAt, IsTimeError};
ghost use Rattle.krb_build.specs.declared.error.BuildError.TheVariants.{Microseconds, Time};

use crate::error::BuildError;
use krb_der::IntegerAsn1;
use krb_types::data_types::{KerberosTime, Microseconds};
use krb_types::view::{time_of_unix_seconds, unix_seconds};
use std::alloc::Global;

/// The most microseconds (RFC 4120, 5.2.4).
const MOST: u32 = 999_999;

/// The time of these seconds since 1 January 1970. `Time` where its year is not of 0 to 9999.
pub(crate) fn time_of_seconds(seconds: i64) -> Result<KerberosTime, BuildError>
    ensures time { IfOk result (IsTime seconds) }
    ensures rejected { IfErr result (λ e. (e ≡ Time) × IsNoTime seconds) }
{
    match time_of_unix_seconds(seconds) {
        Ok(time) => Ok(time),
        Err(_) => Err(BuildError::Time),
    }
}

/// The time of these seconds since 1 January 1970, 00:00:00 UTC, each day having 86,400 (POSIX.1-2017, 4.16), and the microseconds after
/// it. `Microseconds` where there are more than 999999; else `Time` where the year is not of 0 to 9999.
pub fn time_of_unix_microseconds(
    alloc: Global,
    seconds: i64,
    microseconds: u32,
) -> Result<(KerberosTime, Microseconds), BuildError>
    ensures time { IfOk result (λ r. IsTimeAt seconds microseconds r.0 r.1) }
    ensures rejected { IfErr result (IsTimeError seconds microseconds) }
{
    if microseconds > MOST {
        return Err(BuildError::Microseconds);
    }
    let time = time_of_seconds(seconds)?;
    Ok((time, IntegerAsn1::from_u32(alloc, microseconds)))
}

/// The seconds of a time since 1 January 1970, 00:00:00 UTC, each day having 86,400 (POSIX.1-2017, 4.16), and its microseconds.
/// `Microseconds` where these are not of 0 to 999999.
pub fn unix_microseconds(
    time: &KerberosTime,
    microseconds: &Microseconds,
) -> Result<(i64, u32), BuildError>
    ensures seconds { IfOk result (λ r. r.0 ≡ unix_seconds time.now) }
    ensures microseconds { IfOk result (λ r. (microseconds.now ≡ pos r.1) × (r.1 ≤ 999999)) }
    ensures rejected { IfErr result (λ e. (e ≡ Microseconds) × ¬ IsMicroseconds microseconds.now) }
{
    match microseconds.to_u32() {
        Some(number) if number <= MOST => Ok((unix_seconds(time), number)),
        _ => Err(BuildError::Microseconds),
    }
}

//! Times as seconds.

ghost use Rattle.std.specs.Prelude.{◌≡◌, ◌≢◌, ◌<◌, ◌≤◌, pos, neg_ℤ, ◌≤ℤ◌, IfOk, IfErr};
ghost use Rattle.jiff_core.specs.Date.{epoch_day};
ghost use Rattle.krb_der_core.specs.GeneralizedTime.{Time, IsRealTime};
ghost use Rattle.krb_der_core.specs.declared.error.Asn1DerError.TheVariants.{InvalidData};
ghost use Rattle.krb_types.specs.Times.{second_of_day, unix_day, unix_seconds};

use jiff_core::civil::Date;
use krb_der::{Asn1DerError, GeneralizedTimeAsn1};

/// The seconds of a day.
const DAY: i64 = 86_400;

/// The days since 1 January 1970.
fn unix_day(time: &GeneralizedTimeAsn1) -> i32
    ensures day { result ≡ unix_day time.now }
    ensures low { neg_ℤ (pos 4_371_587) ≤ℤ result }
    ensures high { result ≤ℤ pos 2_932_896 }
{
    time.is_real();
    let date = Date {
        year: time.year() as i16,
        month: time.month(),
        day: time.day(),
    };
    date.to_unix_epoch_day()
}

/// The seconds since midnight.
fn second_of_day(time: &GeneralizedTimeAsn1) -> u32
    ensures second { result ≡ second_of_day time.now }
    ensures small { result < 86400 }
{
    time.is_real();
    3600 * u32::from(time.hour()) + 60 * u32::from(time.minute()) + u32::from(time.second())
}

/// The seconds since 1 January 1970, 00:00:00 UTC, where each day has 86,400 (POSIX.1-2017, 4.16); negative for a time before it.
pub fn unix_seconds(time: &GeneralizedTimeAsn1) -> i64
    ensures { result ≡ unix_seconds time.now }
{
    DAY * i64::from(unix_day(time)) + i64::from(second_of_day(time))
}

/// The time of this day, at this second of it. `InvalidData` where its year is negative.
fn time_at(date: Date, second: u32) -> Result<GeneralizedTimeAsn1, Asn1DerError>
    requires { second < 86400 }
    ensures real { IfOk result IsRealTime }
    ensures day { IfOk result (λ t. unix_day t ≡ epoch_day date) }
    ensures second { IfOk result (λ t. second_of_day t ≡ second) }
    ensures rejected { IfErr result (λ e. (e ≡ InvalidData) × ((t : Time) → IsRealTime t → unix_day t ≢ epoch_day date)) }
{
    if date.year < 0 {
        return Err(Asn1DerError::InvalidData);
    }
    GeneralizedTimeAsn1::new(
        date.year as u16,
        date.month,
        date.day,
        (second / 3600) as u8,
        (second / 60 % 60) as u8,
        (second % 60) as u8,
    )
}

/// The time of these seconds since 1 January 1970, 00:00:00 UTC, each day having 86,400 (POSIX.1-2017, 4.16). `InvalidData` where its year
/// is not of 0 to 9999.
#[tactic(auto, using(crate::proofs::Seconds::real_day, crate::proofs::Seconds::day_of_seconds, crate::proofs::Seconds::seconds_of_parts))]
pub fn time_of_unix_seconds(seconds: i64) -> Result<GeneralizedTimeAsn1, Asn1DerError>
    ensures value { IfOk result (λ t. IsRealTime t × (unix_seconds t ≡ seconds)) }
    ensures rejected { IfErr result (λ e. (e ≡ InvalidData) × ((t : Time) → IsRealTime t → unix_seconds t ≢ seconds)) }
{
    let Ok(date) = Date::from_unix_epoch_day(seconds.div_euclid(DAY)) else {
        return Err(Asn1DerError::InvalidData);
    };
    time_at(date, seconds.rem_euclid(DAY) as u32)
}

//! Times as Windows counts them.

ghost use Rattle.std.specs.Prelude.{◌≡◌, ◌/◌, pos, ◌-ℤ◌};
ghost use Rattle.krb_pac_contents.specs.Times.{FileTimeIs};

use krb_der::GeneralizedTimeAsn1;
use krb_types::view::time_of_unix_seconds;

/// The seconds from 1 January 1601 to 1 January 1970, 00:00:00 UTC.
const FROM_1601_TO_1970: i64 = 11_644_473_600;

/// A time of a PAC (MS-DTYP 2.3.3, FILETIME).
#[derive(Drop)]
pub enum FileTime {
    /// The time never comes, as LogoffTime and KickOffTime have it (MS-PAC 2.5).
    Never,
    /// This second, and what is past it.
    Time {
        /// The second.
        time: GeneralizedTimeAsn1,
        /// The units of 100 nanoseconds past the second, fewer than 10,000,000.
        hundred_nanoseconds: u32,
    },
    /// The time's year is past 9999.
    Unrepresentable,
}

/// The whole seconds of a FILETIME, since 1970.
fn unix_seconds_of(filetime: u64) -> i64
    ensures { result ≡ pos (filetime / 10_000_000) -ℤ pos 11_644_473_600 }
{
    (filetime / 10_000_000) as i64 - FROM_1601_TO_1970
}

/// The time of a FILETIME, the number of units of 100 nanoseconds since 1 January 1601, 00:00:00 UTC (MS-DTYP 2.3.3), each day having 86,400
/// seconds.
///
/// 0x7fffffffffffffff is `Never` (MS-PAC 2.5). `Unrepresentable` where no time with a year of 0 to 9999 is that one, which is so from
/// 10000-01-01 on.
pub fn time_of_filetime(filetime: u64) -> FileTime
    ensures { FileTimeIs filetime result }
{
    if filetime == 0x7fff_ffff_ffff_ffff {
        return FileTime::Never;
    }
    match time_of_unix_seconds(unix_seconds_of(filetime)) {
        Ok(time) => FileTime::Time {
            time,
            hundred_nanoseconds: (filetime % 10_000_000) as u32,
        },
        Err(_) => FileTime::Unrepresentable,
    }
}

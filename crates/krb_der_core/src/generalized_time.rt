//! GeneralizedTime.

ghost use Rattle.std.specs.Prelude.{◌==◌, ◌≡◌, ◌↔◌, ◌+◌, ◌<◌, length, IsTrue, IsOk, IfOk, IfErr};
ghost use Rattle.krb_der_core.specs.Tlv.{tlv};
ghost use Rattle.krb_der_core.specs.TlvLaws.{tagged_element, tagged_one_value};
ghost use Rattle.krb_der_core.specs.declared.error.Asn1DerError.TheVariants as errors;
ghost use Rattle.krb_der_core.specs.GeneralizedTime.{Time, time, IsRealDate, IsTimeOfDay, IsRealTime, last_digit, time_content, number_at, time_read};
ghost use Rattle.krb_der_core.specs.GeneralizedTimeLaws.{time_one_content};
ghost use Rattle.krb_der_core.specs.Errors.{PrimitiveError};
ghost use Rattle.krb_der_core.specs.ErrorLaws.{primitive_error_laws};

use crate::content::{Content, read_tagged};
use crate::der::{Der, DerEncode};
use crate::error::Asn1DerError;
use crate::tlv::write_tlv;
use jiff::civil::Date;
use std::alloc::{AllocError, Global};
use std::marker::Model;

/// The tag of a GeneralizedTime: universal 24 (X.690, 8.25).
const GENERALIZED_TIME: u8 = 0x18;

/// The length of the content in octets: that of `YYYYMMDDHHMMSSZ`.
const CONTENT_LENGTH: usize = 15;

/// GeneralizedTime (X.690, 8.25 and 11.7), in the one form of a KerberosTime (RFC 4120, 5.2.3): a time in UTC, to the
/// second.
///
/// A value is a time of the Gregorian calendar, from the year 0 to the year 9999, and never a leap second. The content is
/// `YYYYMMDDHHMMSSZ` in ASCII, with no fraction of a second; any other is `InvalidData`.
#[derive(Debug, Drop, Clone, PartialEq, Eq)]
pub struct GeneralizedTimeAsn1 {
    year: u16,
    month: u8,
    day: u8,
    hour: u8,
    minute: u8,
    second: u8,
}

impl Model for GeneralizedTimeAsn1 {
    ghost Value = { Time };

    ghost view = { λ t. time t.year t.month t.day t.hour t.minute t.second };

    ghost invariant = { λ t. IsRealTime (time t.year t.month t.day t.hour t.minute t.second) };

    ghost inverse = { λ v. record { year = v.year; month = v.month; day = v.day; hour = v.hour; minute = v.minute; second = v.second } };
}

impl GeneralizedTimeAsn1 {
    /// The time with these numbers.
    ///
    /// `InvalidData` unless they are a date of the Gregorian calendar (year 0 to 9999, month 1 to 12, day 1 to the last of
    /// that month), an hour to 23, a minute to 59 and a second to 59.
    pub fn new(
        year: u16,
        month: u8,
        day: u8,
        hour: u8,
        minute: u8,
        second: u8,
    ) -> Result<Self, Asn1DerError>
        ensures real { IsOk result ↔ IsRealTime (time year month day hour minute second) }
        ensures value { IfOk result (λ t. t ≡ time year month day hour minute second) }
        ensures rejected { IfErr result (λ e. e ≡ errors.InvalidData) }
    {
        if !is_real_date(year, month, day) || !is_time_of_day(hour, minute, second) {
            return Err(Asn1DerError::InvalidData);
        }
        Ok(GeneralizedTimeAsn1 {
            year,
            month,
            day,
            hour,
            minute,
            second,
        })
    }

    /// The year, 0 to 9999.
    pub fn year(&self) -> u16
        ensures { result ≡ self.now.year }
    {
        self.year
    }

    /// The month, 1 to 12.
    pub fn month(&self) -> u8
        ensures { result ≡ self.now.month }
    {
        self.month
    }

    /// The day of the month, 1 to 28, 29, 30 or 31.
    pub fn day(&self) -> u8
        ensures { result ≡ self.now.day }
    {
        self.day
    }

    /// The hour, 0 to 23.
    pub fn hour(&self) -> u8
        ensures { result ≡ self.now.hour }
    {
        self.hour
    }

    /// The minute, 0 to 59.
    pub fn minute(&self) -> u8
        ensures { result ≡ self.now.minute }
    {
        self.minute
    }

    /// The second, 0 to 59.
    pub fn second(&self) -> u8
        ensures { result ≡ self.now.second }
    {
        self.second
    }

    /// A lemma: the numbers of a value are those of a real time.
    pub fn is_real(&self)
        ensures { IsRealTime self.now }
    {
        // A field in use shows the proof what holds of all of them.
        let _ = &self.year;
    }

    /// The content.
    fn octets(&self) -> [u8; CONTENT_LENGTH]
        ensures { result ≡ time_content self.now }
    {
        [
            last_digit(self.year / 1000),
            last_digit(self.year / 100),
            last_digit(self.year / 10),
            last_digit(self.year),
            last_digit(u16::from(self.month / 10)),
            last_digit(u16::from(self.month)),
            last_digit(u16::from(self.day / 10)),
            last_digit(u16::from(self.day)),
            last_digit(u16::from(self.hour / 10)),
            last_digit(u16::from(self.hour)),
            last_digit(u16::from(self.minute / 10)),
            last_digit(u16::from(self.minute)),
            last_digit(u16::from(self.second / 10)),
            last_digit(u16::from(self.second)),
            b'Z',
        ]
    }
}

/// Whether the Gregorian calendar has this day, in a year of at most four digits.
fn is_real_date(year: u16, month: u8, day: u8) -> bool
    ensures { IsTrue result ↔ IsRealDate year month day }
{
    // The calendar takes signed numbers, and up to these bounds none is lost in a cast.
    year <= 9999
        && month <= 12
        && day <= 31
        && Date::new(year as i16, month as i8, day as i8).is_ok()
}

/// Whether a day has this second, leap seconds aside.
fn is_time_of_day(hour: u8, minute: u8, second: u8) -> bool
    ensures { IsTrue result ↔ IsTimeOfDay hour minute second }
{
    hour <= 23 && minute <= 59 && second <= 59
}

/// The last decimal digit of a number, in ASCII.
fn last_digit(number: u16) -> u8
    ensures { result ≡ last_digit number }
{
    b'0' + (number % 10) as u8
}

/// The number that the two digits at an index represent.
fn number_at(content: &[u8], index: usize) -> u8
    requires { index + 1 < length content.now }
    ensures { result ≡ number_at content.now index }
{
    10 * (content[index] % 16) + content[index + 1] % 16
}

/// The time whose digits are at their places in octets, or `InvalidData` where the calendar has no such time. An octet
/// that is no digit counts as some number too.
fn time_read(content: &[u8]) -> Result<GeneralizedTimeAsn1, Asn1DerError>
    requires { length content.now ≡ 15 }
    ensures real { IsOk result ↔ IsRealTime (time_read content.now) }
    ensures value { IfOk result (λ t. t ≡ time_read content.now) }
    ensures rejected { IfErr result (λ e. e ≡ errors.InvalidData) }
{
    GeneralizedTimeAsn1::new(
        100 * u16::from(number_at(content, 0)) + u16::from(number_at(content, 2)),
        number_at(content, 4),
        number_at(content, 6),
        number_at(content, 8),
        number_at(content, 10),
        number_at(content, 12),
    )
}

/// The time that has this content, `YYYYMMDDHHMMSSZ` in ASCII (RFC 4120, 5.2.3), or `InvalidData`. It takes no memory.
pub fn time_of_content(content: &[u8]) -> Result<GeneralizedTimeAsn1, Asn1DerError>
    ensures valid { IfOk result IsRealTime }
    ensures found { IfOk result (λ t. content.now ≡ time_content t) }
    ensures rejected { IfErr result (λ e. (t : Time) → IsRealTime t → content.now ≡ time_content t → ⊥) }
    ensures error { IfErr result (λ e. e ≡ errors.InvalidData) }
{
    if content.len() != CONTENT_LENGTH {
        return Err(Asn1DerError::InvalidData);
    }
    let time = time_read(content)?;
    // The time's content equals these octets only where each is the digit or the `Z` of its place.
    if time.octets().as_slice() != content {
        return Err(Asn1DerError::InvalidData);
    }
    Ok(time)
}

impl Content for GeneralizedTimeAsn1 {
    ghost octets = { time_content };

    ghost has_content = { IsRealTime };

    ghost one_content = { time_one_content };

    fn read_content(_alloc: Global, content: &[u8]) -> Result<Self, Asn1DerError> {
        time_of_content(content)
    }
}

impl DerEncode for GeneralizedTimeAsn1 {
    ghost enc = { λ v. tlv 24 (time_content v) };

    ghost is_value = { IsRealTime };

    ghost first = { λ t. t == 24 };

    ghost is_element = { λ v h. tagged_element 24 (time_content v) };

    ghost one_value = { tagged_one_value 24 IsRealTime time_content time_one_content };

    ghost error = { PrimitiveError 24 IsRealTime time_content };

    ghost error_laws = { primitive_error_laws 24 IsRealTime time_content };

    fn starts(octet: u8) -> bool {
        octet == GENERALIZED_TIME
    }

    fn write(&self, _alloc: Global, out: &mut Vec<u8>) -> Result<(), AllocError> {
        // A field in use shows the proof what holds of all of them.
        let _ = &self.year;
        write_tlv(GENERALIZED_TIME, &self.octets(), out)
    }
}

impl Der for GeneralizedTimeAsn1 {
    fn read_element(alloc: Global, tag: u8, content: &[u8]) -> Result<Self, Asn1DerError> {
        read_tagged(alloc, GENERALIZED_TIME, tag, content)
    }
}

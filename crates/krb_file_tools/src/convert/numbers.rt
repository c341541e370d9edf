//! Numbers, flags and times of RFC 4120 in the fields of a credential cache.

ghost use Rattle.std.specs.Prelude.{◌≡◌, ◌==◌, ◌≤◌, drop, not, slice_index};
ghost use Rattle.std.specs.List.{list_any};
ghost use Rattle.byteorder.specs.Endian.{big_number};
ghost use Rattle.krb_files.specs.FieldReading.{Gives};
ghost use Rattle.krb_file_tools.specs.Fields.{has_long_flags, has_other_length, is_first_second};
ghost use Rattle.krb_file_tools.specs.Kirbi.{complement_of, flags_number, seconds_of};

use crate::convert::error::ConvertError;
use byteorder::{BigEndian, ByteOrder};
use krb_der::{BitStringAsn1, ExplicitContextTag, IntegerAsn1, Optional};
use krb_types::data_types::{KerberosFlags, KerberosTime};
use krb_types::view::unix_seconds;

/// An Int32 (RFC 4120, 5.2.4) in a field of twice `half` numbers, as their two's complement; `None` where it does not fit.
pub(crate) fn complement_of(integer: &IntegerAsn1, half: u32) -> Option<u32>
    requires { half ≤ 2147483648 }
    ensures { result ≡ complement_of half integer.now }
{
    let number = integer.to_i64()?;
    let half = i64::from(half);
    if number < -half || number >= half {
        return None;
    }
    if number < 0 {
        Some((2 * half + number) as u32)
    } else {
        Some(number as u32)
    }
}

/// The octet at this place, 0 past the last.
fn octet_at(octets: &[u8], index: usize) -> u8
    ensures { result ≡ slice_index octets.now index }
{
    if index < octets.len() {
        octets[index]
    } else {
        0
    }
}

/// The first 32 flags as a number, flag 0 its highest bit (RFC 4120, 5.2.8).
fn first_flags(flags: &BitStringAsn1) -> u32
    ensures { result ≡ big_number 4 flags.now.octets }
{
    let octets = flags.octets();
    BigEndian::read_u32(&[
        octet_at(octets, 0),
        octet_at(octets, 1),
        octet_at(octets, 2),
        octet_at(octets, 3),
    ])
}

/// The first 32 flags as a number; 0 where there are none.
pub(crate) fn flags_number<N>(flags: &Optional<Option<ExplicitContextTag<KerberosFlags, N>>>) -> u32
    ensures { result ≡ flags_number flags.now.0 }
{
    match &flags.0 {
        Some(flags) => first_flags(&flags.0),
        None => 0,
    }
}

/// Whether an octet past the fourth is not 0.
fn has_long_octets(octets: &[u8]) -> bool
    ensures { result ≡ list_any (λ o. not (o == 0)) (drop 4 octets.now) }
{
    octets.iter().skip(4).any(|octet| *octet != 0)
}

/// Whether a flag past bit 31 is set.
pub(crate) fn has_long_flags<N>(
    flags: &Optional<Option<ExplicitContextTag<KerberosFlags, N>>>,
) -> bool
    ensures { result ≡ has_long_flags flags.now.0 }
{
    match &flags.0 {
        Some(flags) => has_long_octets(flags.0.octets()),
        None => false,
    }
}

/// Whether flags are there, and not 32 bits.
pub(crate) fn has_other_length<N>(
    flags: &Optional<Option<ExplicitContextTag<KerberosFlags, N>>>,
) -> bool
    ensures { result ≡ has_other_length flags.now.0 }
{
    match &flags.0 {
        Some(flags) => !(flags.0.octets().len() == 4 && flags.0.spare_bits() == 0),
        None => false,
    }
}

/// Whether a time is there, and the first second of 1970.
pub(crate) fn is_first_second<N>(
    time: &Optional<Option<ExplicitContextTag<KerberosTime, N>>>,
) -> bool
    ensures { result ≡ is_first_second time.now.0 }
{
    match &time.0 {
        Some(time) => unix_seconds(&time.0) == 0,
        None => false,
    }
}

/// A time in seconds since 1970, 0 where there is none. `Time` where it does not fit 32 bits.
pub(crate) fn seconds_of<N>(
    time: &Optional<Option<ExplicitContextTag<KerberosTime, N>>>,
) -> Result<u32, ConvertError>
    ensures { Gives (λ s. s) result (seconds_of time.now.0) }
{
    match &time.0 {
        Some(time) => match u32::try_from(unix_seconds(&time.0)) {
            Ok(seconds) => Ok(seconds),
            Err(_) => Err(ConvertError::Time),
        },
        None => Ok(0),
    }
}

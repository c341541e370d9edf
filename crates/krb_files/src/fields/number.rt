//! Numbers and counted octets.

ghost use Rattle.krb_files.specs.FieldReading.{Gives, number_at, counted_at as counted_octets_at, size_of, twice_at as repeated_at};

use crate::fields::error::FieldError;
use byteorder::{BigEndian, ByteOrder};

/// How many octets a length or a count has.
#[derive(Clone, Copy, PartialEq, Eq)]
pub enum LengthSize {
    /// 16 bits.
    Two,
    /// 32 bits.
    Four,
}

/// The number in the first octet, and the octets after it. `Truncated` where there is none.
pub fn u8_at(octets: &[u8]) -> Result<(u8, &[u8]), FieldError>
    ensures { Gives (λ x. (x.0, x.1.now)) result (number_at 1 octets.now) }
{
    if octets.is_empty() {
        return Err(FieldError::Truncated);
    }
    let (front, rest) = octets.split_at(1);
    Ok((front[0], rest))
}

/// The number in the first two octets, and the octets after them. `Truncated` where there are fewer.
pub fn u16_at(octets: &[u8]) -> Result<(u16, &[u8]), FieldError>
    ensures { Gives (λ x. (x.0, x.1.now)) result (number_at 2 octets.now) }
{
    if octets.len() < 2 {
        return Err(FieldError::Truncated);
    }
    let (_, rest) = octets.split_at(2);
    Ok((BigEndian::read_u16(octets), rest))
}

/// The number in the first four octets, and the octets after them. `Truncated` where there are fewer.
pub fn u32_at(octets: &[u8]) -> Result<(u32, &[u8]), FieldError>
    ensures { Gives (λ x. (x.0, x.1.now)) result (number_at 4 octets.now) }
{
    if octets.len() < 4 {
        return Err(FieldError::Truncated);
    }
    let (_, rest) = octets.split_at(4);
    Ok((BigEndian::read_u32(octets), rest))
}

/// The number in as many octets as a length has, and the octets after them. `Truncated` where there are fewer.
pub fn length_at(size: LengthSize, octets: &[u8]) -> Result<(u32, &[u8]), FieldError>
    ensures { Gives (λ x. (x.0, x.1.now)) result (number_at (size_of size) octets.now) }
{
    match size {
        LengthSize::Two => {
            let (number, rest) = u16_at(octets)?;
            Ok((u32::from(number), rest))
        }
        LengthSize::Four => u32_at(octets),
    }
}

/// The octets behind a length, as many as it says, and the octets after them. `Truncated` where the length is not whole,
/// `LengthPastEnd` where it says more octets than there are after it.
#[tactic(auto, unfolding(crate::specs::FieldReading::counted_at))]
pub fn counted_at(size: LengthSize, octets: &[u8]) -> Result<(&[u8], &[u8]), FieldError>
    ensures { Gives (λ x. (x.0.now, x.1.now)) result (counted_octets_at (size_of size) octets.now) }
{
    let (len, rest) = length_at(size, octets)?;
    let len = len as usize;
    if rest.len() < len {
        return Err(FieldError::LengthPastEnd);
    }
    Ok(rest.split_at(len))
}

/// A number of 16 bits that stands twice, and the octets after it. `Truncated` where one of them is not whole, `RepetitionDiffers` where
/// they are two numbers.
#[tactic(auto, unfolding(crate::specs::FieldReading::twice_at))]
pub fn twice_at(octets: &[u8]) -> Result<(u16, &[u8]), FieldError>
    ensures { Gives (λ x. (x.0, x.1.now)) result (repeated_at octets.now) }
{
    let (first, rest) = u16_at(octets)?;
    let (second, rest) = u16_at(rest)?;
    if second != first {
        return Err(FieldError::RepetitionDiffers);
    }
    Ok((first, rest))
}

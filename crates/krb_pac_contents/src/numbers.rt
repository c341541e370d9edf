//! Numbers at a place among octets, in little-endian order.

ghost use Rattle.std.specs.Prelude.{◌≡◌, ◌+◌, ◌≤◌, length, drop};
ghost use Rattle.byteorder.specs.Endian.{little_number};

use byteorder::{ByteOrder, LittleEndian};

/// The number in the two octets from `at` on.
pub(crate) fn u16_at(octets: &[u8], at: usize) -> u16
    requires { at + 2 ≤ length octets.now }
    ensures { result ≡ little_number 2 (drop at octets.now) }
{
    LittleEndian::read_u16(&octets[at..])
}

/// The number in the four octets from `at` on.
pub(crate) fn u32_at(octets: &[u8], at: usize) -> u32
    requires { at + 4 ≤ length octets.now }
    ensures { result ≡ little_number 4 (drop at octets.now) }
{
    LittleEndian::read_u32(&octets[at..])
}

/// The number in the eight octets from `at` on.
pub(crate) fn u64_at(octets: &[u8], at: usize) -> u64
    requires { at + 8 ≤ length octets.now }
    ensures { result ≡ little_number 8 (drop at octets.now) }
{
    LittleEndian::read_u64(&octets[at..])
}

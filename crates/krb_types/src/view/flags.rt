//! Flags by their numbers (RFC 4120, 5.2.8).

ghost use Rattle.std.specs.Prelude.{◌≡◌, ◌<◌, ◌≤◌, ℕ, length, IfOk, IfErr};
ghost use Rattle.krb_der_core.specs.BitString.{Bits};
ghost use Rattle.krb_types.specs.Flags.{is_set};

use krb_der::BitStringAsn1;

/// Whether the flag of this number is set. Flags are numbered from 0, the highest bit of the first octet; one past the last bit is not
/// set.
pub fn is_set(flags: &BitStringAsn1, number: usize) -> bool
    ensures { result ≡ is_set flags.now.octets number }
{
    let octets = flags.octets();
    let index = number / 8;
    index < octets.len() && octets[index] >> (7 - number % 8) & 1 == 1
}

//! How many octets a session key has, and how many flags a ticket.

ghost use Rattle.std.specs.Prelude.{MatchBool};
ghost use Rattle.krb_client_rules.specs.Sizes.{HasFlags, HasKeySize};

use krb_crypto::{Cipher, CipherSuite};
use krb_der::{BitStringAsn1, IntegerAsn1};

/// How many bits flags have at least (RFC 4120, 5.2.8).
const FLAGS: usize = 32;

/// Whether a key has as many octets as one of its encryption type has (RFC 3961, 5.3).
pub(crate) fn has_key_size(number: &IntegerAsn1, octets: &[u8]) -> bool
    ensures { MatchBool result (HasKeySize number.now octets.now) (HasKeySize number.now octets.now → ⊥) }
{
    match CipherSuite::of_number(number) {
        Some(suite) => octets.len() == suite.key_size(),
        None => false,
    }
}

/// Whether flags have at least 32 bits (RFC 4120, 5.2.8).
pub(crate) fn has_flags(flags: &BitStringAsn1) -> bool
    ensures { MatchBool result (HasFlags flags.now) (HasFlags flags.now → ⊥) }
{
    let bits = FLAGS + usize::from(flags.spare_bits());
    (bits + 7) / 8 <= flags.octets().len()
}

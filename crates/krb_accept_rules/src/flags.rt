//! How many flags there are.

ghost use Rattle.std.specs.Prelude.{MatchBool};
ghost use Rattle.krb_accept_rules.specs.Flags.{HasFlags};

use krb_types::data_types::KerberosFlags;

/// How many bits flags have at least (RFC 4120, 5.2.8).
const FLAGS: usize = 32;

/// Whether flags have at least 32 bits.
pub(crate) fn has_flags(flags: &KerberosFlags) -> bool
    ensures { MatchBool result (HasFlags flags.now) (HasFlags flags.now → ⊥) }
{
    let bits = FLAGS + usize::from(flags.spare_bits());
    (bits + 7) / 8 <= flags.octets().len()
}

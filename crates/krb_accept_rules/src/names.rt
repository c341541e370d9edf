//! Names, compared.

ghost use Rattle.std.specs.Prelude.{◌≡◌, MatchBool};
ghost use Rattle.krb_accept_rules.specs.Names.{IsAmong};

use krb_der::Asn1SequenceOf;
use krb_types::data_types::{HostAddress, KerberosStringAsn1, Realm};
use krb_types::laws::equality;

/// Whether two realms are the same (RFC 4120, 6.1: letters of either case differ).
pub(crate) fn is_same_realm(first: &Realm, second: &Realm) -> bool
    ensures { MatchBool result (first.now ≡ second.now) (first.now ≡ second.now → ⊥) }
{
    first.as_str().as_bytes() == second.as_str().as_bytes()
}

/// Whether two names have the same components (RFC 4120, 6.2: the name type is a hint and is not
/// compared).
pub(crate) fn is_same_name(
    first: &Asn1SequenceOf<KerberosStringAsn1>,
    second: &Asn1SequenceOf<KerberosStringAsn1>,
) -> bool
    ensures { MatchBool result (first.now ≡ second.now) (first.now ≡ second.now → ⊥) }
{
    *first == *second
}

/// Whether two addresses are the same.
fn is_same_address(first: &HostAddress, second: &HostAddress) -> bool
    ensures { MatchBool result (first.now ≡ second.now) (first.now ≡ second.now → ⊥) }
{
    equality();
    *first == *second
}

/// Whether an address is among others.
pub(crate) fn is_among(addresses: &[HostAddress], address: &HostAddress) -> bool
    ensures { MatchBool result (IsAmong addresses.now address.now) (IsAmong addresses.now address.now → ⊥) }
{
    for other in addresses {
        if is_same_address(other, address) {
            return true;
        }
    }
    false
}

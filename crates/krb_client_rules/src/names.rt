//! Realms and names, compared (RFC 4120, 6.1 and 6.2).

ghost use Rattle.std.specs.Prelude.{◌≡◌, MatchBool};
ghost use Rattle.krb_client_rules.specs.Names.{IsServer, IsSameName};

use crate::asked::Asked;
use krb_der::Asn1SequenceOf;
use krb_types::data_types::{KerberosStringAsn1, PrincipalName, Realm};

/// Whether two realms are the same (RFC 4120, 6.1: letters of either case differ).
pub fn is_same_realm(first: &Realm, second: &Realm) -> bool
    ensures { MatchBool result (first.now ≡ second.now) (first.now ≡ second.now → ⊥) }
{
    first.as_str().as_bytes() == second.as_str().as_bytes()
}

/// Whether two lists of components are the same.
fn are_same(
    first: &Asn1SequenceOf<KerberosStringAsn1>,
    second: &Asn1SequenceOf<KerberosStringAsn1>,
) -> bool
    ensures { MatchBool result (first.now ≡ second.now) (first.now ≡ second.now → ⊥) }
{
    *first == *second
}

/// Whether two names have the same components (RFC 4120, 6.2: the name type is a hint and is not
/// compared).
pub fn is_same_name(first: &PrincipalName, second: &PrincipalName) -> bool
    ensures { MatchBool result (IsSameName first.now second.now) (IsSameName first.now second.now → ⊥) }
{
    are_same(&first.name_string.0, &second.name_string.0)
}

/// Whether these are the realm and the name of the server that was asked for.
pub(crate) fn is_server(realm: &Realm, name: &PrincipalName, asked: &Asked) -> bool
    ensures { MatchBool result (IsServer asked.now realm.now name.now) (IsServer asked.now realm.now name.now → ⊥) }
{
    is_same_realm(realm, &asked.realm) && is_same_name(name, &asked.sname)
}

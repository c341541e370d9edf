//! For which servers a service lets clients in, and of which realms.

ghost use Rattle.std.specs.Prelude.{◌≡◌, [], MatchBool};
ghost use Rattle.krb_accept_rules.specs.Firsts.{OneIs};
ghost use Rattle.krb_accept_rules.specs.Servers.{IsAtHost, IsOfRealm, IsRealmOf, IsServed, NamesServer, NamesService};

use crate::fields::RequestFields;
use crate::names::{is_same_name, is_same_realm};
use crate::terms::Terms;
use krb_der::Asn1SequenceOf;
use krb_types::data_types::{KerberosStringAsn1, Realm};
use krb_types::view::items;

/// A name of a service, as it is written in RFC 1964, 2.1.1: `HTTP/www.home.test@HOME.TEST`. What is
/// left out is open: the realm, as in `HTTP/www.home.test`, and the host, as in `HTTP@HOME.TEST` or
/// `HTTP`.
#[derive(Drop)]
pub struct ServerName {
    /// The components of the name. One alone also stands for this service at whatever host: a name
    /// of two components, the first of which it is (RFC 2743, 4.1).
    pub components: Asn1SequenceOf<KerberosStringAsn1>,
    /// The realm of the server; `None`: any.
    pub realm: Option<Realm>,
}

/// Whether the one component of a name is the first of two.
fn is_at_host(named: &[KerberosStringAsn1], components: &[KerberosStringAsn1]) -> bool
    ensures { MatchBool result (IsAtHost named.now components.now) (IsAtHost named.now components.now → ⊥) }
{
    if named.len() != 1 || components.len() != 2 {
        return false;
    }
    is_same_realm(&named[0], &components[0])
}

/// Whether a name's components are those of a server, or stand for them.
fn names_service(
    named: &Asn1SequenceOf<KerberosStringAsn1>,
    components: &Asn1SequenceOf<KerberosStringAsn1>,
) -> bool
    ensures { MatchBool result (NamesService named.now components.now) (NamesService named.now components.now → ⊥) }
{
    is_same_name(named, components) || is_at_host(items(named), items(components))
}

/// Whether a realm is this one, where there is one.
fn is_of_realm(named: &Option<Realm>, realm: &Realm) -> bool
    ensures { MatchBool result (IsOfRealm named.now realm.now) (IsOfRealm named.now realm.now → ⊥) }
{
    match named {
        Some(named) => is_same_realm(named, realm),
        None => true,
    }
}

/// Whether a name stands for the server of a request.
fn names_server(name: &ServerName, request: &RequestFields) -> bool
    ensures { MatchBool result (NamesServer request.now name.now) (NamesServer request.now name.now → ⊥) }
{
    is_of_realm(&name.realm, &request.realm)
        && names_service(&name.components, &request.server.name_string.0)
}

/// Whether one of the names stands for the server of a request.
fn is_named(names: &[ServerName], request: &RequestFields) -> bool
    ensures { MatchBool result (OneIs (NamesServer request.now) names.now)
        (OneIs (NamesServer request.now) names.now → ⊥) }
{
    for name in names {
        if names_server(name, request) {
            return true;
        }
    }
    false
}

/// Whether clients are let in for the server of a request.
pub(crate) fn is_served(terms: &Terms, request: &RequestFields) -> bool
    ensures { MatchBool result (IsServed terms.now request.now) (IsServed terms.now request.now → ⊥) }
{
    terms.servers.is_empty() || is_named(&terms.servers, request)
}

/// Whether a realm is one of these.
fn is_among_realms(realms: &[Realm], realm: &Realm) -> bool
    ensures { MatchBool result (OneIs (λ x. x ≡ realm.now) realms.now) (OneIs (λ x. x ≡ realm.now) realms.now → ⊥) }
{
    for other in realms {
        if is_same_realm(other, realm) {
            return true;
        }
    }
    false
}

/// Whether clients of a realm are let in.
pub(crate) fn is_realm_of(terms: &Terms, realm: &Realm) -> bool
    ensures { MatchBool result (IsRealmOf terms.now realm.now) (IsRealmOf terms.now realm.now → ⊥) }
{
    terms.realms.is_empty() || is_among_realms(&terms.realms, realm)
}

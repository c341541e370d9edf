//! Servers and realms by their texts (RFC 1964, 2.1.1).

ghost use Rattle.std.specs.Prelude.{IfOk, MatchOption};
ghost use Rattle.krb_accept_rules.specs.Texts.{IsNoRealm, IsNoServer, IsRealm, IsServer};

use crate::servers::ServerName;
use krb_der::{Asn1SequenceOf, GeneralStringAsn1};
use krb_types::data_types::Realm;
use krb_types::view::{PrincipalError, TextPrincipal, principal_of_text};
use std::alloc::{AllocError, Global};

/// The name of the server that a text is of (RFC 1964, 2.1.1), as `HTTP/www.home.test@HOME.TEST`: the realm may be left out, and so may the
/// host, as in `HTTP@HOME.TEST` or `HTTP`. `None` where it is of none, or has no octets.
pub fn server_of_text(alloc: Global, text: &str) -> Result<Option<ServerName>, AllocError>
    ensures { IfOk result (λ found. MatchOption found (IsNoServer text.now) (IsServer text.now)) }
{
    if text.is_empty() {
        return Ok(None);
    }
    match principal_of_text(alloc, text) {
        Ok(found) => {
            let TextPrincipal { components, realm } = found;
            Ok(Some(ServerName {
                components: Asn1SequenceOf(components),
                realm,
            }))
        }
        Err(PrincipalError::OutOfMemory) => Err(AllocError),
        Err(PrincipalError::InvalidText) => Ok(None),
    }
}

/// The realm that a text is; `None` where an octet of it is past 127, or it has none.
pub fn realm_of_text(alloc: Global, text: &str) -> Result<Option<Realm>, AllocError>
    ensures { IfOk result (λ found. MatchOption found (IsNoRealm text.now) (IsRealm text.now)) }
{
    if text.is_empty() {
        return Ok(None);
    }
    match GeneralStringAsn1::from_string(String::from_str(alloc, text)?) {
        Ok(realm) => Ok(Some(realm)),
        Err(_) => Ok(None),
    }
}

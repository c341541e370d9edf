//! The terms of a service that names servers and realms.

ghost use Rattle.std.specs.Prelude.{IfOk};
ghost use Rattle.krb_accept_report.specs.Asked.{AreTermsFor};

use krb_accept_rules::{ServerName, Terms};
use krb_types::data_types::Realm;
use std::alloc::{AllocError, Global};

/// The usual terms with this skew, for clients of these realms who come to these servers; where there are none, of any realm, and to any
/// server of which there is a key. No replay cache is asked.
pub fn terms_for(
    alloc: Global,
    skew: u32,
    servers: Vec<ServerName>,
    realms: Vec<Realm>,
) -> Result<Terms, AllocError>
    ensures { IfOk result (AreTermsFor skew servers.items realms.items) }
{
    let usual = Terms::new(alloc, skew, None)?;
    Ok(Terms {
        servers,
        realms,
        ..usual
    })
}

//! On which terms clients are let in, and what is known of a request besides its octets.

ghost use Rattle.std.specs.Prelude.{IfOk};
ghost use Rattle.krb_accept_rules.specs.UsualTerms.{AreUsual};

use crate::servers::ServerName;
use krb_types::data_types::{HostAddress, Realm};
use std::alloc::{AllocError, Global};

/// On which terms a service lets clients in.
#[derive(Drop)]
pub struct Terms {
    /// By how many seconds clocks may differ, on both sides. The usual value is 300 (RFC 4120,
    /// 8.2).
    pub skew: u32,
    /// Whether a ticket has to name addresses, where the client's address is known.
    pub addresses_required: bool,
    /// The encryption types that a session key and a subkey may have.
    pub etypes: Vec<u32>,
    /// The types of authorization data that the service understands, beside AD-IF-RELEVANT.
    pub known_data: Vec<u32>,
    /// Whether a path of realms is taken that no KDC has checked (RFC 4120, 2.7).
    pub unchecked_path: bool,
    /// For which servers clients are let in: tickets that name another one are refused, whatever
    /// keys the service has. Where there are none, for each of which the service has a key.
    pub servers: Vec<ServerName>,
    /// Whether clients without a name are let in (RFC 8062): those whose ticket has the flag
    /// ANONYMOUS.
    pub anonymous: bool,
    /// The realms whose clients are let in. Where there are none, those of each realm, foreign ones
    /// too, for whose clients a KDC of the service's realm issues tickets.
    pub realms: Vec<Realm>,
    /// Since when the replay cache is whole, in seconds since 1 January 1970, 00:00:00 UTC: it has
    /// each entry that was accepted at this time or later. `None` where it is whole since ever.
    pub whole_since: Option<i64>,
}

impl Terms {
    /// The usual terms.
    ///
    /// - No addresses are required: tickets with none are allowed (RFC 4120, 8.2), and most name
    ///   none.
    /// - `etypes` are 17 to 20, the suites of AES (RFC 3962, RFC 8009); triple DES is deprecated
    ///   (RFC 8429).
    /// - `known_data` are 8, AD-MANDATORY-FOR-KDC, which is for the KDC alone (RFC 4120, 5.2.6.4),
    ///   and 128, the PAC (RFC 4120, 7.5.4; MS-PAC).
    /// - A path of realms has to be checked by a KDC (RFC 4120, 2.7).
    /// - Each server of which the service has a key is meant, clients of each realm are let in, and
    ///   those without a name are not (RFC 8062).
    ///
    /// `whole_since` says since when the replay cache is whole, in seconds since 1 January 1970,
    /// 00:00:00 UTC: with a cache that begins empty it is the time at which it begins. `None`, whole
    /// since ever, is right for a service that let in nobody before, as one with a new key: else
    /// what was let in before is let in again.
    pub fn new(alloc: Global, skew: u32, whole_since: Option<i64>) -> Result<Terms, AllocError>
        ensures { IfOk result (AreUsual skew whole_since) }
    {
        let etypes = vec![in alloc; 17, 18, 19, 20]?;
        let known_data = vec![in alloc; 8, 128]?;
        Ok(Terms {
            skew,
            addresses_required: false,
            etypes,
            known_data,
            unchecked_path: false,
            servers: Vec::new(alloc),
            anonymous: false,
            realms: Vec::new(alloc),
            whole_since,
        })
    }
}

/// What is known of a request besides its octets.
#[derive(Drop)]
pub struct Arrival {
    /// The service's time, in seconds since 1 January 1970, 00:00:00 UTC.
    pub clock: i64,
    /// The address that the client has; where absent, addresses are not compared.
    pub address: Option<HostAddress>,
}

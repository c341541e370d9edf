//! What a client asks a KDC for, and when.

use krb_crypto::CipherSuite;
use krb_types::data_types::{PrincipalName, Realm};

/// What a client asked a KDC for, as the reply has to answer it (RFC 4120, 3.1.5 and 3.3.4). It
/// asks for a ticket with no addresses.
#[derive(Drop)]
pub struct Asked {
    /// The realm of the client whom the ticket is to name.
    pub crealm: Realm,
    /// The name of this client.
    pub cname: PrincipalName,
    /// The realm of the server.
    pub realm: Realm,
    /// The name of the server.
    pub sname: PrincipalName,
    /// From when on a postdated ticket is to be valid (`from`; RFC 4120, 5.4.1), in seconds since 1
    /// January 1970, 00:00:00 UTC; `None` where from now on.
    pub from: Option<i64>,
    /// Until when the ticket is to be valid, in seconds since 1 January 1970, 00:00:00 UTC; 0 where
    /// as long as the KDC allows (RFC 4120, 5.4.1).
    pub till: i64,
    /// Until when the ticket is to be renewable (`rtime`; RFC 4120, 5.4.1), in seconds since 1
    /// January 1970, 00:00:00 UTC; 0 and `None` where as long as the KDC allows. Where RENEWABLE-OK
    /// alone is asked for, this is `till`; where a ticket is renewed, the renew-till of that
    /// ticket.
    pub rtime: Option<i64>,
    /// The number that the reply repeats.
    pub nonce: u32,
    /// Which of the flags 1 to 8 the ticket may have, by their numbers (RFC 4120, 2 and 5.3): those
    /// that its options ask for, 8 also where they ask for RENEWABLE-OK, 7 where they ask for a
    /// postdated ticket, and those that a ticket-granting ticket passes on.
    pub flags: Vec<usize>,
    /// The suites of the encryption types that were asked for, the one that is liked best first
    /// (`etype`; RFC 4120, 5.4.1).
    pub etypes: Vec<CipherSuite>,
}

/// The client's clock.
#[derive(Clone, Copy, PartialEq, Eq)]
pub struct Clock {
    /// The time, in seconds since 1 January 1970, 00:00:00 UTC.
    pub seconds: i64,
    /// By how many seconds the clocks of client and KDC may differ. The usual value is 300 (RFC
    /// 4120, 8.2).
    pub skew: u32,
}

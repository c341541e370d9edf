//! How a client asks.

use crate::keys::Limits;
use crate::requests::LentKey;
use krb_types::data_types::Ticket;

/// How a client asks, beside what it asks for.
#[derive(Drop, Clone, Copy)]
pub struct Terms<'a> {
    /// The options of its requests, by their numbers (RFC 4120, 5.4.1: KDCOptions), 0 to 31.
    pub options: &'a [usize],
    /// By how many seconds the clocks of client and KDC may differ. The usual value is 300 (RFC
    /// 4120, 8.2).
    pub skew: u32,
    /// How many iterations are taken for the key of a password, in an exchange for a first ticket.
    pub limits: Limits,
    /// Whether an AS-REQ asks that the reply have its checksum (PA-REQ-ENC-PA-REP; RFC 6806, 11), by
    /// which a reply may rename the client and the server: `InitialExchange::renamed`. That the KDC
    /// may rename them is an option, 15 (canonicalize), and is among `options`.
    pub canonicalize: bool,
    /// Whether the transport may deliver replies to other requests, as datagrams may. A reply that
    /// opens and has another nonce is then passed over, else refused.
    pub datagrams: bool,
}

/// By what a client asks for a further ticket (RFC 4120, 3.3).
#[derive(Drop, Clone, Copy)]
pub struct ByTicket<'a> {
    /// The ticket for the KDC.
    pub ticket: &'a Ticket,
    /// Its session key.
    pub session: LentKey<'a>,
}

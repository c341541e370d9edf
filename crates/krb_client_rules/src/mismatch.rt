//! The rule that a reply breaks.

use thiserror::Error;

/// A rule that a reply breaks. They are checked in the order of the variants, and the first that is
/// broken is told; `EncryptionType` and `Time` are the rules of an AP-REP.
#[derive(Debug, Clone, Copy, PartialEq, Eq, Error)]
pub enum Mismatch {
    /// crealm or cname is not the client's (RFC 4120, 3.1.5 and 3.3.4).
    #[error("crealm or cname is not the client's")]
    Client,
    /// The version of the ticket is not 5 (RFC 4120, 5.3).
    #[error("tkt-vno is not 5")]
    TicketVersion,
    /// The realm or the name of the ticket is not that of the server that was asked for (RFC 4120,
    /// 3.1.5 and 3.3.4).
    #[error("the ticket is for another server")]
    Ticket,
    /// The part of an AS-REP is under an encryption type that was not asked for (RFC 4120, 3.1.3
    /// and 5.4.1).
    #[error("the encryption type of the part was not asked for")]
    Unasked,
    /// The part is under another encryption type than the key's (RFC 4120, 5.2.9).
    #[error("the encryption type of the part is not the key's")]
    EncryptionType,
    /// The nonce is not that of the request (RFC 4120, 3.1.5 and 3.3.4).
    #[error("the nonce is not that of the request")]
    Nonce,
    /// srealm or sname is not that of the request (RFC 4120, 3.1.5 and 3.3.4).
    #[error("srealm or sname is not that of the request")]
    Server,
    /// The session key is of an encryption type that was not asked for (RFC 4120, 3.1.3 and 3.3.3).
    #[error("the encryption type of the session key was not asked for")]
    SessionKey,
    /// The session key has more or fewer octets than a key of its encryption type (RFC 3961, 5.3).
    #[error("the session key has another size than its encryption type's")]
    SessionKeySize,
    /// The ticket has fewer than 32 flags (RFC 4120, 5.2.8).
    #[error("the ticket has fewer than 32 flags")]
    FlagsSize,
    /// The ticket is not valid from the time that was asked for, as far as the clocks may differ:
    /// starttime, or authtime where it is absent (RFC 4120, 3.1.3 and 5.3).
    #[error("the ticket is not valid from the time that was asked for")]
    Start,
    /// endtime is after the time that was asked for, or before the ticket's start (RFC 4120,
    /// 3.1.3).
    #[error("the ticket is not valid until a time that was asked for")]
    End,
    /// renew-till is there and RENEWABLE is not set, or it is after the time that was asked for
    /// (RFC 4120, 3.1.3 and 5.3).
    #[error("the ticket is renewable until a time that was not asked for")]
    RenewTill,
    /// One of the flags 1 to 8 is set that was not asked for (RFC 4120, 2).
    #[error("the ticket has a flag that was not asked for")]
    Flags,
    /// The ticket is for addresses (RFC 4120, 3.1.5 and 3.3.4): none were asked for.
    #[error("the ticket is for addresses that were not asked for")]
    Addresses,
    /// ctime or cusec is not that of the authenticator (RFC 4120, 3.2.5).
    #[error("the time is not that of the authenticator")]
    Time,
}

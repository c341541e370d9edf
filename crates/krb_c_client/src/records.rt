//! The structs of `krb.h` that the calls are passed and fill.

ghost use Rattle.std.specs.Prelude.{◌≡◌};
ghost use Rattle.krb_c_client.specs.Records.{broken, grants, nothing, sends, waits, without_ticket};

use krb_c_accept::OutPlace;

/// `krb_client_terms` of `krb.h`: how a client asks, when, and what it asks for in numbers.
#[repr(C)]
#[derive(Clone, Copy)]
pub struct TermsRecord {
    /// The client's time, in seconds since 1 January 1970, 00:00:00 UTC.
    pub seconds: i64,
    /// From when on a postdated ticket is to be valid, where the setting 1 is there.
    pub from: i64,
    /// Until when the ticket is to be valid; 0 for as long as the KDC allows.
    pub till: i64,
    /// Until when it is to be renewable, where the setting 2 is there.
    pub rtime: i64,
    /// The microseconds after `seconds`, 0 to 999999.
    pub microseconds: u32,
    /// A random number below 2^31, fresh for each call.
    pub nonce: u32,
    /// By how many seconds clocks may differ.
    pub skew: u32,
    /// How many iterations are taken for the key of a password, at least.
    pub least: u32,
    /// And at most.
    pub most: u32,
    /// The type of the client's name (RFC 4120, 6.2).
    pub client_type: u32,
    /// The type of the server's name.
    pub server_type: u32,
    /// The settings, added.
    pub settings: u32,
}

/// `krb_exchange` of `krb.h`: what an exchange keeps between two messages.
#[repr(C)]
#[derive(Clone, Copy)]
pub struct ExchangeRecord {
    /// By how many seconds the KDC's time is ahead of the client's, where `has_offset` is not 0.
    pub offset: i64,
    /// 1 where the KDC's time was taken, and else 0.
    pub has_offset: u32,
    /// The nonce of the last request.
    pub nonce: u32,
    /// The encryption type of the key under which the last AS-REQ has the time; 0 where it has
    /// none.
    pub etype: i32,
    /// 1 once a request was made, and else 0.
    pub begun: u32,
    /// The octets of this key, and zeros.
    pub key: [u8; 32],
}

/// `krb_followed` of `krb.h`: what follows on a message.
#[repr(C)]
#[derive(Clone, Copy)]
pub struct FollowedRecord {
    /// The encoding of the ticket.
    pub ticket: OutPlace,
    /// That of the part that came with it.
    pub part: OutPlace,
    /// What follows: 0 nothing, 1 a request, 2 the next message, 3 a ticket.
    pub follows: u32,
    /// The number of the rule that is broken; 0 where none is.
    pub rule: u32,
    /// The code of the KDC's error (RFC 4120, 7.5.9); else 0.
    pub code: u32,
}

/// `krb_ap_terms` of `krb.h`: how a client asks a service.
#[repr(C)]
#[derive(Clone, Copy)]
pub struct ApTermsRecord {
    /// The client's time, in seconds since 1 January 1970, 00:00:00 UTC.
    pub seconds: i64,
    /// The microseconds after it, 0 to 999999.
    pub microseconds: u32,
    /// The type of the client's name (RFC 4120, 6.2).
    pub client_type: u32,
    /// The number of the client's first message, where the setting 1 is there.
    pub sequence_number: u32,
    /// The flags of the context (RFC 4121, 4.1.1.1), where the setting 2 is there.
    pub gss_flags: u32,
    /// The settings, added.
    pub settings: u32,
    /// The encryption type of the session key.
    pub session_etype: i32,
}

/// No octets.
const NOWHERE: OutPlace = OutPlace { offset: 0, size: 0 };

/// What follows, with no ticket.
fn without_ticket(follows: u32, rule: u32, code: u32) -> FollowedRecord
    ensures { result ≡ without_ticket follows rule code }
{
    FollowedRecord {
        ticket: NOWHERE,
        part: NOWHERE,
        follows,
        rule,
        code,
    }
}

/// All zeros.
pub(crate) fn nothing() -> FollowedRecord
    ensures { result ≡ nothing }
{
    without_ticket(0, 0, 0)
}

/// A request follows.
pub(crate) fn sends() -> FollowedRecord
    ensures { result ≡ sends }
{
    without_ticket(1, 0, 0)
}

/// The exchange waits for the next message.
pub(crate) fn waits() -> FollowedRecord
    ensures { result ≡ waits }
{
    without_ticket(2, 0, 0)
}

/// A rule is broken.
pub(crate) fn broken(rule: u32, code: u32) -> FollowedRecord
    ensures { result ≡ broken rule code }
{
    without_ticket(0, rule, code)
}

/// A ticket is granted, whose encoding stands before that of its part.
pub(crate) fn grants(ticket_size: usize, part_size: usize) -> FollowedRecord
    ensures { result ≡ grants ticket_size part_size }
{
    FollowedRecord {
        ticket: OutPlace {
            offset: 0,
            size: ticket_size,
        },
        part: OutPlace {
            offset: ticket_size,
            size: part_size,
        },
        follows: 3,
        rule: 0,
        code: 0,
    }
}

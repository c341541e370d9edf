//! The structs of `krb.h`. They have no pointers in them.

/// `krb_acceptor` of `krb.h`: what a service asks of tokens.
#[repr(C)]
#[derive(Clone, Copy)]
pub struct AcceptorRecord {
    /// The service's time, in seconds since 1 January 1970, 00:00:00 UTC.
    pub clock: i64,
    /// Since when the replay cache is whole, in these seconds; 0 with the option 128, since ever.
    pub whole_since: i64,
    /// By how many seconds clocks may differ.
    pub skew: u32,
    /// The options, added.
    pub options: u32,
    /// The type of the client's address (RFC 4120, 7.5.3).
    pub address_type: u32,
    /// The number of the service's first message.
    pub sequence_number: u32,
}

/// `krb_place` of `krb.h`: octets of those that are handed out.
#[repr(C)]
#[derive(Clone, Copy)]
pub struct OutPlace {
    /// How many octets stand before them.
    pub offset: usize,
    /// How many they are.
    pub size: usize,
}

/// `krb_accepted` of `krb.h`: a client that is let in, or the rule by which it is refused.
#[repr(C)]
#[derive(Clone, Copy)]
pub struct AcceptedRecord {
    /// The entry for the replay cache.
    pub entry: OutPlace,
    /// The octets of the session key.
    pub session_key: OutPlace,
    /// Those of the client's subkey.
    pub subkey: OutPlace,
    /// Those of the service's subkey.
    pub own_subkey: OutPlace,
    /// The ticket's PAC, which was verified.
    pub pac: OutPlace,
    /// The contents of the ticket's transited.
    pub transited: OutPlace,
    /// The encoding of the ticket's authorization data, without elements in which a PAC stands.
    pub authorization_data: OutPlace,
    /// The encoding of the authenticator's.
    pub restrictions: OutPlace,
    /// The delegated KRB-CRED.
    pub delegated: OutPlace,
    /// What is sent to the client.
    pub reply: OutPlace,
    /// When the client was authenticated, in seconds since 1 January 1970, 00:00:00 UTC.
    pub auth_time: i64,
    /// From when on the ticket is valid.
    pub start_time: i64,
    /// Until when it is valid.
    pub end_time: i64,
    /// The number of the client's first message; -1 where there is none.
    pub sequence_number: i64,
    /// What was seen of the rule that is broken, where `has_seen` is 1.
    pub seen: i64,
    /// The flags of the context (RFC 4121, 4.1.1.1).
    pub flags: u32,
    /// The flags of the ticket (RFC 4120, 5.3), flag 0 highest.
    pub ticket_flags: u32,
    /// The encryption type of the session key.
    pub session_etype: u32,
    /// That of the client's subkey; 0 where there is none.
    pub subkey_etype: u32,
    /// The type of the ticket's transited; 0 where 32 bits do not hold it.
    pub transited_type: u32,
    /// The number of the rule that is broken; 0 where none is.
    pub rule: u32,
    /// The number of the error in a KRB-ERROR (RFC 4120, 7.5.9); 0 where no rule is broken.
    pub code: u32,
    /// 1 where something was seen of the rule, and else 0.
    pub has_seen: u32,
}

/// No octets.
const NOWHERE: OutPlace = OutPlace { offset: 0, size: 0 };

/// All zeros.
pub(crate) const NOTHING: AcceptedRecord = AcceptedRecord {
    entry: NOWHERE,
    session_key: NOWHERE,
    subkey: NOWHERE,
    own_subkey: NOWHERE,
    pac: NOWHERE,
    transited: NOWHERE,
    authorization_data: NOWHERE,
    restrictions: NOWHERE,
    delegated: NOWHERE,
    reply: NOWHERE,
    auth_time: 0,
    start_time: 0,
    end_time: 0,
    sequence_number: 0,
    seen: 0,
    flags: 0,
    ticket_flags: 0,
    session_etype: 0,
    subkey_etype: 0,
    transited_type: 0,
    rule: 0,
    code: 0,
    has_seen: 0,
};

//! What a call answers: that it is done, that the octets do not fit, or why it refuses.

ghost use Rattle.std.specs.Prelude.{◌≡◌, ◌<◌};
ghost use Rattle.krb_c_calls.specs.Statuses.{refusal_status};

/// The answer is given; what was asked is so.
pub const DONE: u32 = 0;

/// The answer has more octets, or more items, than there is room for.
pub const ROOM: u32 = 1;

/// Why a call refuses: the names and the numbers that `krb_status` of `krb.h` has from 2 on.
/// Lengths are in octets.
#[derive(Clone, Copy, PartialEq, Eq)]
pub enum CallError {
    /// An allocation failed.
    Memory = 2,
    /// The number of an encryption type, a checksum type or a message that the library does not
    /// have; the name of no type; no path; an item that is no number.
    Number = 3,
    /// The confounder has another length than the suite's.
    ConfounderSize = 4,
    /// The key has another length than the suite's.
    KeySize = 5,
    /// Fewer octets than a confounder and a checksum have.
    SealedSize = 6,
    /// The checksum is not that of these octets under this key.
    Integrity = 7,
    /// The encrypted octets are not whole blocks.
    Padding = 8,
    /// The octets are not the one DER encoding of a value of the type.
    Invalid = 9,
    /// The octets end too early, or a field is missing.
    Truncated = 10,
    /// A length of the indefinite form, or one of more than eight octets.
    Unsupported = 11,
    /// An error that no call meets.
    Never = 12,
    /// The seed has another length than the suite's.
    SeedSize = 13,
    /// Nothing to fold, or nothing to fold it into (RFC 3961, 5.1).
    Empty = 14,
    /// The other side sent the token (RFC 4121, 4.2.2).
    Direction = 15,
    /// The octets begin with no header of such a token (RFC 4121, 4.2.6).
    Token = 16,
    /// The token is under another key (RFC 4121, 4.2.2).
    Subkey = 17,
    /// A MIC token that is marked as sealed (RFC 4121, 4.2.2).
    SealedMic = 18,
    /// What the token seals does not end in its own header (RFC 4121, 4.2.4).
    SealedHeader = 19,
    /// There is no such field or element, or no buffer of this index.
    Absent = 20,
    /// 64 bits do not hold the number.
    TooLarge = 21,
    /// More than 64 elements stand in one another.
    TooDeep = 22,
    /// The octets that keys are to be taken of are no keytab.
    Keytab = 23,
    /// The version of the format is another.
    OtherVersion = 25,
    /// A buffer of a PAC is of a number that no type has (MS-PAC 2.4).
    PacType = 26,
    /// A buffer of a PAC names octets that are not there (MS-PAC 2.4).
    PacRange = 27,
    /// A frame has more than 65535 octets (RFC 3244, 2).
    FrameSize = 28,
    /// A message has more octets than a proxy takes.
    ProxyTooLarge = 30,
    /// There are not the four octets of a length in front of the message (RFC 4120, 7.2.2).
    ProxyNoLength = 31,
    /// The length in front of the message is another.
    ProxyOtherLength = 32,
    /// There is no target-domain (MS-KKDCP, 2.2.2).
    ProxyNoDomain = 33,
    /// The message begins as none that goes this way.
    ProxyOtherKind = 34,
    /// A frame in which a password is changed ends in its first message (RFC 3244, 2).
    ProxyFrameLength = 35,
    /// The message that goes through a proxy is not the one DER encoding of its type.
    ProxyInvalid = 36,
    /// This message ends too early, or a field is missing.
    ProxyTruncated = 37,
    /// This message has a length of a form that is not supported.
    ProxyUnsupported = 38,
    /// pvno is not 5.
    ProxyPvno = 39,
    /// msg-type is that of another message.
    ProxyMsgType = 40,
    /// A rule of the acceptor's refuses the token (RFC 4120, 3.2.3; RFC 4121, 4.1).
    NotAccepted = 41,
}

impl CallError {
    /// The status that C is told.
    pub fn status(self) -> u32
        ensures number { result ≡ refusal_status self }
        ensures refusal { 1 < result }
    {
        self as u32
    }
}

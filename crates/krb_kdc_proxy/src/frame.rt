//! Frames in which passwords are changed (RFC 3244, 2).
//!
//! ```text
//! message length:       2 octets, of the whole frame
//! version:              2 octets: 1, or ff80 in a request
//! first message length: 2 octets, of the first message alone
//! first message:        a KRB-AP-REQ; in a reply a KRB-AP-REP, or none
//! second message:       a KRB-PRIV; in a reply with no first message a KRB-ERROR
//! ```

ghost use Rattle.std.specs.Prelude.{MatchBool, MatchOption};
ghost use Rattle.krb_kdc_proxy.specs.Frames.{BeginsAsFrame, IsFrame, IsNoFrame, IsVersion};

/// Where a frame goes: to the server that changes passwords, or back.
#[derive(Clone, Copy, PartialEq, Eq)]
pub enum Direction {
    /// To the server.
    Request,
    /// Back to the client.
    Reply,
}

/// The number of the octets before the messages.
const HEADER_LENGTH: usize = 6;

/// Whether the first octets are a frame's: the length of the whole, and a version.
pub(crate) fn begins_as_frame(direction: Direction, octets: &[u8]) -> bool
    ensures { MatchBool result (BeginsAsFrame direction octets.now) (BeginsAsFrame direction octets.now → ⊥) }
{
    if octets.len() < 4 {
        return false;
    }
    let length = u16::from_be_bytes([octets[0], octets[1]]);
    length as usize == octets.len() && is_version(direction, [octets[2], octets[3]])
}

/// Whether frames that go this way have this version.
fn is_version(direction: Direction, version: [u8; 2]) -> bool
    ensures { MatchBool result (IsVersion direction version) (IsVersion direction version → ⊥) }
{
    match direction {
        Direction::Request => version == [0x00, 0x01] || version == [0xff, 0x80],
        Direction::Reply => version == [0x00, 0x01],
    }
}

/// The two messages of a frame; `None` where the first does not end within it.
pub(crate) fn messages_of(direction: Direction, octets: &[u8]) -> Option<(&[u8], &[u8])>
    requires { BeginsAsFrame direction octets.now }
    ensures { MatchOption result (IsNoFrame direction octets.now) (λ p. IsFrame direction octets.now p.0.now p.1.now) }
{
    if octets.len() < HEADER_LENGTH {
        return None;
    }
    let length = u16::from_be_bytes([octets[4], octets[5]]) as usize;
    let messages = &octets[HEADER_LENGTH..];
    if length > messages.len() {
        return None;
    }
    Some((&messages[..length], &messages[length..]))
}

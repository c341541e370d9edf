//! Replies as they come over a stream (RFC 4120, 7.2.2).

ghost use Rattle.krb_kdc_proxy.specs.Streams.{HasArrived};

use crate::prefixed::LENGTH;

/// Whether a message that comes over a stream is there with all its octets.
#[derive(Clone, Copy, PartialEq, Eq)]
pub enum Whole {
    /// It is there, and nothing behind it.
    Yes,
    /// Octets are missing, of its length or behind it.
    NotYet,
    /// It is too large, or more octets are there than its length says. No further octets mend that.
    Never,
}

/// Whether octets that a KDC sent over a stream are a message behind its length in four octets, the highest first, where a message has at most `limit`
/// octets, and fewer than 2147483648. What the message is `write_reply` says.
pub fn is_whole(octets: &[u8], limit: usize) -> Whole
    ensures { HasArrived octets.now limit result }
{
    if octets.len() < LENGTH {
        return Whole::NotYet;
    }
    let size = u32::from_be_bytes([octets[0], octets[1], octets[2], octets[3]]) as usize;
    let behind = octets.len() - LENGTH;
    if size >= 0x8000_0000 || size > limit || size < behind {
        Whole::Never
    } else if behind < size {
        Whole::NotYet
    } else {
        Whole::Yes
    }
}

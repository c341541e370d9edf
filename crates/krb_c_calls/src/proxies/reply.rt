//! Replies that go back to a client.

ghost use Rattle.std.specs.Prelude.{MatchResult};
ghost use Rattle.krb_c_calls.specs.Handing.{IsAnswered};
ghost use Rattle.krb_kdc_proxy.specs.Replies.{reply_types};
ghost use Rattle.krb_kdc_proxy.specs.Streams.{IsNoDatagramReply, IsNoStreamReply};
ghost use Rattle.krb_c_calls.specs.Replies.{IsArrivalTold, IsDatagramReplyMade, IsReplyMade};
ghost use Rattle.krb_c_calls.specs.ProxyStatuses.{Refuses};
ghost use Rattle.krb_c_calls.specs.Statuses.{refusal_status};

use crate::call_error::{CallError, DONE};
use crate::handing::hand_out;
use krb_der::DerEncode;
use krb_kdc_proxy::{Whole, is_whole, write_reply, write_reply_datagram};
use krb_messages::messages::{ApRep, AsRep, KdcProxyMessage, KrbError, KrbPriv, TgsRep};
use std::alloc::Global;

/// What `proxy_reply` hands out, or why it refuses.
fn reply_made(alloc: Global, octets: &[u8]) -> Result<Vec<u8>, CallError>
    ensures { MatchResult result
        (λ made. IsReplyMade ⟦<KdcProxyMessage as DerEncode>⟧
        (reply_types ⟦<AsRep as DerEncode>⟧ ⟦<TgsRep as DerEncode>⟧
        ⟦<KrbError as DerEncode>⟧ ⟦<ApRep as DerEncode>⟧ ⟦<KrbPriv as DerEncode>⟧) octets.now made.items)
        (λ e. Refuses (IsNoStreamReply (reply_types ⟦<AsRep as DerEncode>⟧ ⟦<TgsRep as DerEncode>⟧
        ⟦<KrbError as DerEncode>⟧ ⟦<ApRep as DerEncode>⟧ ⟦<KrbPriv as DerEncode>⟧) octets.now) (refusal_status e)) }
{
    Ok(write_reply(alloc, octets)?)
}

/// What `proxy_reply_datagram` hands out, or why it refuses.
fn datagram_reply_made(alloc: Global, octets: &[u8]) -> Result<Vec<u8>, CallError>
    ensures { MatchResult result
        (λ made. IsDatagramReplyMade ⟦<KdcProxyMessage as DerEncode>⟧
        (reply_types ⟦<AsRep as DerEncode>⟧ ⟦<TgsRep as DerEncode>⟧
        ⟦<KrbError as DerEncode>⟧ ⟦<ApRep as DerEncode>⟧ ⟦<KrbPriv as DerEncode>⟧) octets.now made.items)
        (λ e. Refuses (IsNoDatagramReply (reply_types ⟦<AsRep as DerEncode>⟧ ⟦<TgsRep as DerEncode>⟧
        ⟦<KrbError as DerEncode>⟧ ⟦<ApRep as DerEncode>⟧ ⟦<KrbPriv as DerEncode>⟧) octets.now) (refusal_status e)) }
{
    Ok(write_reply_datagram(alloc, octets)?)
}

/// What a KDC or the server that changes passwords sent over a stream, with its length in front of it, as the KDC-PROXY-MESSAGE that goes back to the client,
/// as `krb_kdc_proxy::write_reply` writes it.
///
/// Else the status of the first rule that the octets break, or 2. On a refusal `out` is as it was.
pub fn proxy_reply(alloc: Global, octets: &[u8], out: &mut [u8], size: &mut usize) -> u32
    ensures { IsAnswered
        (IsReplyMade ⟦<KdcProxyMessage as DerEncode>⟧ (reply_types ⟦<AsRep as DerEncode>⟧ ⟦<TgsRep as DerEncode>⟧
        ⟦<KrbError as DerEncode>⟧ ⟦<ApRep as DerEncode>⟧ ⟦<KrbPriv as DerEncode>⟧) octets.now)
        (Refuses (IsNoStreamReply (reply_types ⟦<AsRep as DerEncode>⟧ ⟦<TgsRep as DerEncode>⟧
        ⟦<KrbError as DerEncode>⟧ ⟦<ApRep as DerEncode>⟧ ⟦<KrbPriv as DerEncode>⟧) octets.now))
        out.old out.new size.new result }
{
    hand_out(&reply_made(alloc, octets), out, size)
}

/// The same of what was sent in a datagram, which has no length in front of it.
pub fn proxy_reply_datagram(alloc: Global, octets: &[u8], out: &mut [u8], size: &mut usize) -> u32
    ensures { IsAnswered
        (IsDatagramReplyMade ⟦<KdcProxyMessage as DerEncode>⟧ (reply_types ⟦<AsRep as DerEncode>⟧ ⟦<TgsRep as DerEncode>⟧
        ⟦<KrbError as DerEncode>⟧ ⟦<ApRep as DerEncode>⟧ ⟦<KrbPriv as DerEncode>⟧) octets.now)
        (Refuses (IsNoDatagramReply (reply_types ⟦<AsRep as DerEncode>⟧ ⟦<TgsRep as DerEncode>⟧
        ⟦<KrbError as DerEncode>⟧ ⟦<ApRep as DerEncode>⟧ ⟦<KrbPriv as DerEncode>⟧) octets.now))
        out.old out.new size.new result }
{
    hand_out(&datagram_reply_made(alloc, octets), out, size)
}

/// Whether what a KDC sent over a stream is whole, where a message has at most `limit` octets: 0; 10 where octets are missing yet; 30 where it never will be, since
/// its length is past the limit, or 2147483648 or more, or there are more octets than it says.
pub fn proxy_is_whole(octets: &[u8], limit: usize) -> u32
    ensures { IsArrivalTold octets.now limit result }
{
    match is_whole(octets, limit) {
        Whole::Yes => DONE,
        Whole::NotYet => CallError::Truncated.status(),
        Whole::Never => CallError::ProxyTooLarge.status(),
    }
}

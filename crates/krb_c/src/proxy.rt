//! A proxy in front of a KDC, and its clients.

ghost use Rattle.krb_c_calls.specs.Handing.{IsAnswered};
ghost use Rattle.krb_kdc_proxy.specs.Replies.{reply_types};
ghost use Rattle.krb_kdc_proxy.specs.Requests.{types};
ghost use Rattle.krb_kdc_proxy.specs.Streams.{IsNoDatagramReply, IsNoStreamReply};
ghost use Rattle.krb_c_calls.specs.Clients.{IsReplyTold, IsRequestMade, RefusesRequest};
ghost use Rattle.krb_c_calls.specs.Replies.{IsArrivalTold, IsDatagramReplyMade, IsReplyMade};
ghost use Rattle.krb_c_calls.specs.Requests.{IsLenientTold, IsRequestTold};
ghost use Rattle.krb_c_calls.specs.ProxyStatuses.{Refuses};
ghost use Rattle.krb_c.specs.RequestItems.{IsRequestItemsTold};

use crate::proxy_items::proxy_request_items;
use krb_c_calls::items::ItemRecord;
use krb_c_calls::proxies::PostedRecord;
use krb_der::DerEncode;
use krb_messages::messages::{
    ApRep, ApReq, AsRep, AsReq, KdcProxyMessage, KrbError, KrbPriv, TgsRep, TgsReq,
};
use std::alloc::Global;

/// `krb_proxy_request` of `krb.h`: a request that a client posts to a proxy (MS-KKDCP, 2.2.2 and 3.2.5.1).
#[unsafe(no_mangle)]
pub extern "C" fn krb_proxy_request(alloc: Global, octets: &[u8], posted: &mut PostedRecord) -> u32
    ensures { IsRequestTold ⟦<KdcProxyMessage as DerEncode>⟧
        (types ⟦<AsReq as DerEncode>⟧ ⟦<TgsReq as DerEncode>⟧ ⟦<ApReq as DerEncode>⟧ ⟦<KrbPriv as DerEncode>⟧)
        octets.now posted.new result }
{
    krb_c_calls::proxies::proxy_request(alloc, octets, posted)
}

/// `krb_proxy_request_items` of `krb.h`: this, and the items of the message, as `krb_items` has them.
#[unsafe(no_mangle)]
pub extern "C" fn krb_proxy_request_items(
    alloc: Global,
    octets: &[u8],
    posted: &mut PostedRecord,
    items: &mut [ItemRecord],
    count: &mut usize,
) -> u32
    ensures { IsRequestItemsTold ⟦<KdcProxyMessage as DerEncode>⟧
        (types ⟦<AsReq as DerEncode>⟧ ⟦<TgsReq as DerEncode>⟧ ⟦<ApReq as DerEncode>⟧ ⟦<KrbPriv as DerEncode>⟧)
        octets.now posted.new items.old items.new count.new result }
{
    proxy_request_items(alloc, octets, posted, items, count)
}

/// `krb_proxy_request_lenient` of `krb.h`: the same, where the first octets of the message alone are looked at.
#[unsafe(no_mangle)]
pub extern "C" fn krb_proxy_request_lenient(
    alloc: Global,
    octets: &[u8],
    posted: &mut PostedRecord,
) -> u32
    ensures { IsLenientTold ⟦<KdcProxyMessage as DerEncode>⟧ octets.now posted.new result }
{
    krb_c_calls::proxies::proxy_request_lenient(alloc, octets, posted)
}

/// `krb_proxy_reply` of `krb.h`: what goes back for a reply that came over a stream (MS-KKDCP, 3.2.5.2).
#[unsafe(no_mangle)]
pub extern "C" fn krb_proxy_reply(
    alloc: Global,
    octets: &[u8],
    out: &mut [u8],
    size: &mut usize,
) -> u32
    ensures { IsAnswered
        (IsReplyMade ⟦<KdcProxyMessage as DerEncode>⟧ (reply_types ⟦<AsRep as DerEncode>⟧ ⟦<TgsRep as DerEncode>⟧
        ⟦<KrbError as DerEncode>⟧ ⟦<ApRep as DerEncode>⟧ ⟦<KrbPriv as DerEncode>⟧) octets.now)
        (Refuses (IsNoStreamReply (reply_types ⟦<AsRep as DerEncode>⟧ ⟦<TgsRep as DerEncode>⟧
        ⟦<KrbError as DerEncode>⟧ ⟦<ApRep as DerEncode>⟧ ⟦<KrbPriv as DerEncode>⟧) octets.now))
        out.old out.new size.new result }
{
    krb_c_calls::proxies::proxy_reply(alloc, octets, out, size)
}

/// `krb_proxy_reply_datagram` of `krb.h`: the same for a reply that came in a datagram.
#[unsafe(no_mangle)]
pub extern "C" fn krb_proxy_reply_datagram(
    alloc: Global,
    octets: &[u8],
    out: &mut [u8],
    size: &mut usize,
) -> u32
    ensures { IsAnswered
        (IsDatagramReplyMade ⟦<KdcProxyMessage as DerEncode>⟧ (reply_types ⟦<AsRep as DerEncode>⟧ ⟦<TgsRep as DerEncode>⟧
        ⟦<KrbError as DerEncode>⟧ ⟦<ApRep as DerEncode>⟧ ⟦<KrbPriv as DerEncode>⟧) octets.now)
        (Refuses (IsNoDatagramReply (reply_types ⟦<AsRep as DerEncode>⟧ ⟦<TgsRep as DerEncode>⟧
        ⟦<KrbError as DerEncode>⟧ ⟦<ApRep as DerEncode>⟧ ⟦<KrbPriv as DerEncode>⟧) octets.now))
        out.old out.new size.new result }
{
    krb_c_calls::proxies::proxy_reply_datagram(alloc, octets, out, size)
}

/// `krb_proxy_is_whole` of `krb.h`: whether a reply over a stream has all its octets (RFC 4120, 7.2.2).
#[unsafe(no_mangle)]
pub extern "C" fn krb_proxy_is_whole(octets: &[u8], limit: usize) -> u32
    ensures { IsArrivalTold octets.now limit result }
{
    krb_c_calls::proxies::proxy_is_whole(octets, limit)
}

/// `krb_make_proxy_request` of `krb.h`: what a client posts to a proxy (MS-KKDCP, 2.2.2).
#[unsafe(no_mangle)]
pub extern "C" fn krb_make_proxy_request(
    alloc: Global,
    message: &[u8],
    domain: &[u8],
    out: &mut [u8],
    size: &mut usize,
) -> u32
    ensures { IsAnswered
        (IsRequestMade ⟦<KdcProxyMessage as DerEncode>⟧
        (types ⟦<AsReq as DerEncode>⟧ ⟦<TgsReq as DerEncode>⟧ ⟦<ApReq as DerEncode>⟧ ⟦<KrbPriv as DerEncode>⟧) message.now domain.now)
        (RefusesRequest ⟦<KdcProxyMessage as DerEncode>⟧
        (types ⟦<AsReq as DerEncode>⟧ ⟦<TgsReq as DerEncode>⟧ ⟦<ApReq as DerEncode>⟧ ⟦<KrbPriv as DerEncode>⟧) message.now domain.now)
        out.old out.new size.new result }
{
    krb_c_calls::proxies::make_proxy_request(alloc, message, domain, out, size)
}

/// `krb_read_proxy_reply` of `krb.h`: the reply that a proxy answered (MS-KKDCP, 3.2.5.2).
#[unsafe(no_mangle)]
pub extern "C" fn krb_read_proxy_reply(
    alloc: Global,
    octets: &[u8],
    message_offset: &mut usize,
    message_size: &mut usize,
) -> u32
    ensures { IsReplyTold ⟦<KdcProxyMessage as DerEncode>⟧ (reply_types ⟦<AsRep as DerEncode>⟧ ⟦<TgsRep as DerEncode>⟧
        ⟦<KrbError as DerEncode>⟧ ⟦<ApRep as DerEncode>⟧ ⟦<KrbPriv as DerEncode>⟧) octets.now message_offset.new message_size.new result }
{
    krb_c_calls::proxies::read_proxy_reply(alloc, octets, message_offset, message_size)
}

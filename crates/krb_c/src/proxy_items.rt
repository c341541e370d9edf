//! What a client posts to a proxy, with the items of the message in it.

ghost use Rattle.std.specs.Prelude.{◌≡◌, ℕ, ◌+◌, ◌≤◌, List, length, take, drop};
ghost use Rattle.krb_c.specs.RequestItems.{IsKdcType, IsRequestItemsTold};
ghost use Rattle.krb_kdc_proxy.specs.Frames.{IsFrame};
ghost use Rattle.krb_kdc_proxy.specs.Requests.{types};
ghost use Rattle.krb_kdc_proxy.specs.declared.frame.Direction.TheVariants as direction;

use krb_c_calls::DONE;
use krb_c_calls::items::ItemRecord;
use krb_c_calls::proxies::{PostedRecord, proxy_request};
use krb_der::DerEncode;
use krb_messages::messages::{ApReq, AsReq, KdcProxyMessage, KrbPriv, TgsReq};
use krb_show_row_laws::laws::rows_of_messages;
use std::alloc::Global;

/// The first octet of an AS-REQ: application 10 (X.690, 8.1.2).
const AS_REQ: u8 = 0x6a;

/// The number of the octets before the messages of a frame (RFC 3244, 2).
const HEADER_LENGTH: usize = 6;

/// The number of a KDC in `service` of a `PostedRecord`.
const KDC: u32 = 1;

/// The type of a request to a KDC (RFC 4120, 5.4.1), by its first octet.
fn kdc_type(message: &[u8]) -> &'static [u8]
    ensures { IsKdcType message.now result.now }
{
    match message.first() {
        Some(&AS_REQ) => b"AS-REQ",
        _ => b"TGS-REQ",
    }
}

/// The first message of a frame (RFC 3244, 2), an AP-REQ.
fn first_message(frame: &[u8]) -> &[u8]
    requires { (first : List ℕ) × (second : List ℕ) × IsFrame direction.Request frame.now first second }
    ensures { (second : List ℕ) × IsFrame direction.Request frame.now result.now second }
{
    let length = u16::from_be_bytes([frame[4], frame[5]]) as usize;
    &frame[HEADER_LENGTH..][..length]
}

/// The message that stands where was told.
fn message_at<'a>(octets: &'a [u8], posted: &PostedRecord) -> &'a [u8]
    requires { posted.now.message_offset + posted.now.message_size ≤ length octets.now }
    ensures { result.now ≡ take posted.now.message_size (drop posted.now.message_offset octets.now) }
{
    &octets[posted.message_offset..][..posted.message_size]
}

/// Tells of a request, where the octets are one, as `krb_c_calls::proxies::proxy_request` does, and
/// then of the items of its message, as `krb_c_calls::items::items` does: of an AS-REQ or a TGS-REQ
/// by its first octet; of a frame (RFC 3244, 2) those of its AP-REQ. The places of the items count
/// from the first octet of this message.
///
/// The status of `proxy_request` where it refuses: then nothing is told, `count` is 0, and `items`
/// is as it was. Else the request is told of, and the status is 0, or 1 where the items do not fit,
/// or 2 where an allocation failed.
pub(crate) fn proxy_request_items(
    alloc: Global,
    octets: &[u8],
    posted: &mut PostedRecord,
    items: &mut [ItemRecord],
    count: &mut usize,
) -> u32
    ensures { IsRequestItemsTold ⟦<KdcProxyMessage as DerEncode>⟧
        (types ⟦<AsReq as DerEncode>⟧ ⟦<TgsReq as DerEncode>⟧ ⟦<ApReq as DerEncode>⟧ ⟦<KrbPriv as DerEncode>⟧)
        octets.now posted.new items.old items.new count.new result }
{
    *count = 0;
    let status = proxy_request(alloc, octets, posted);
    if status != DONE {
        return status;
    }
    let message = message_at(octets, posted);
    rows_of_messages();
    let mut offset = 0;
    if posted.service == KDC {
        krb_c_calls::items::items(alloc, kdc_type(message), message, items, count, &mut offset)
    } else {
        krb_c_calls::items::items(
            alloc,
            b"AP-REQ",
            first_message(message),
            items,
            count,
            &mut offset,
        )
    }
}

//! The client's half.

ghost use Rattle.std.specs.Prelude.{◌≡◌, ◌⊎◌, MatchResult};
ghost use Rattle.std.specs.Str.{IsAscii};
ghost use Rattle.krb_c_calls.specs.Handing.{IsAnswered};
ghost use Rattle.krb_kdc_proxy.specs.Replies.{reply_types};
ghost use Rattle.krb_kdc_proxy.specs.Requests.{types};
ghost use Rattle.krb_c_calls.specs.Clients.{IsReplyTold, IsRequestMade, RefusesRequest};
ghost use Rattle.krb_c_calls.specs.Statuses.{refusal_status};
ghost use Rattle.krb_c_calls.specs.declared.call_error.CallError.TheVariants as refusals;

use crate::call_error::{CallError, DONE};
use crate::handing::hand_out;
use krb_der::DerEncode;
use krb_kdc_proxy::{read_reply, write_request};
use krb_messages::messages::{
    ApRep, ApReq, AsRep, AsReq, KdcProxyMessage, KrbError, KrbPriv, TgsRep, TgsReq,
};
use krb_types::data_types::KerberosStringAsn1;
use std::alloc::Global;
use std::str;

/// The realm of these octets; `Invalid` where one of them is past 127.
fn realm_of(alloc: Global, octets: &[u8]) -> Result<KerberosStringAsn1, CallError>
    ensures { MatchResult result (λ realm. (realm ≡ octets.now) × IsAscii octets.now)
        (λ e. (e ≡ refusals.Memory) ⊎ ((e ≡ refusals.Invalid) × (IsAscii octets.now → ⊥))) }
{
    let Ok(text) = str::from_utf8(octets) else {
        return Err(CallError::Invalid);
    };
    match KerberosStringAsn1::from_string(String::from_str(alloc, text)?) {
        Ok(realm) => Ok(realm),
        Err(_) => Err(CallError::Invalid),
    }
}

/// What `make_proxy_request` hands out, or why it refuses.
fn request_made(alloc: Global, message: &[u8], domain: &[u8]) -> Result<Vec<u8>, CallError>
    ensures { MatchResult result
        (λ made. IsRequestMade ⟦<KdcProxyMessage as DerEncode>⟧
        (types ⟦<AsReq as DerEncode>⟧ ⟦<TgsReq as DerEncode>⟧ ⟦<ApReq as DerEncode>⟧ ⟦<KrbPriv as DerEncode>⟧)
        message.now domain.now made.items)
        (λ e. RefusesRequest ⟦<KdcProxyMessage as DerEncode>⟧
        (types ⟦<AsReq as DerEncode>⟧ ⟦<TgsReq as DerEncode>⟧ ⟦<ApReq as DerEncode>⟧ ⟦<KrbPriv as DerEncode>⟧)
        message.now domain.now (refusal_status e)) }
{
    let realm = realm_of(alloc, domain)?;
    Ok(write_request(alloc, message, realm, None)?)
}

/// What a client posts to a proxy: the KDC-PROXY-MESSAGE of this message, which has no length in front of it, for this realm, with no dclocator-hint, as
/// `krb_kdc_proxy::write_request` writes it.
///
/// 9 where the realm is not of ASCII; else the status of the first rule that `proxy_request` would find broken, or 2. On a refusal `out` is as it was.
pub fn make_proxy_request(
    alloc: Global,
    message: &[u8],
    domain: &[u8],
    out: &mut [u8],
    size: &mut usize,
) -> u32
    ensures { IsAnswered
        (IsRequestMade ⟦<KdcProxyMessage as DerEncode>⟧
        (types ⟦<AsReq as DerEncode>⟧ ⟦<TgsReq as DerEncode>⟧ ⟦<ApReq as DerEncode>⟧ ⟦<KrbPriv as DerEncode>⟧) message.now domain.now)
        (RefusesRequest ⟦<KdcProxyMessage as DerEncode>⟧
        (types ⟦<AsReq as DerEncode>⟧ ⟦<TgsReq as DerEncode>⟧ ⟦<ApReq as DerEncode>⟧ ⟦<KrbPriv as DerEncode>⟧) message.now domain.now)
        out.old out.new size.new result }
{
    hand_out(&request_made(alloc, message, domain), out, size)
}

/// Where the reply stands that a proxy answered, without its length, which is in the four octets before it, as `krb_kdc_proxy::read_reply` reads it.
///
/// 0 where the octets hold a reply. Else the status of the first rule that they break, or 2, and both numbers are 0.
pub fn read_proxy_reply(
    alloc: Global,
    octets: &[u8],
    message_offset: &mut usize,
    message_size: &mut usize,
) -> u32
    ensures { IsReplyTold ⟦<KdcProxyMessage as DerEncode>⟧ (reply_types ⟦<AsRep as DerEncode>⟧ ⟦<TgsRep as DerEncode>⟧
        ⟦<KrbError as DerEncode>⟧ ⟦<ApRep as DerEncode>⟧ ⟦<KrbPriv as DerEncode>⟧) octets.now message_offset.new message_size.new result }
{
    *message_offset = 0;
    *message_size = 0;
    match read_reply(alloc, octets) {
        Ok(reply) => {
            *message_offset = reply.offset;
            *message_size = reply.datagram.len();
            DONE
        }
        Err(error) => CallError::from(error).status(),
    }
}

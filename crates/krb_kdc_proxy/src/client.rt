//! The client's half: the requests that it posts to a proxy, and the replies that it reads (MS-KKDCP, 2.2.2, 3.1.5.1 and 3.2.5.2).

ghost use Rattle.std.specs.Prelude.{◌≡◌, ◌<◌, ◌^◌, ℕ, ℤ, List, Option, Some, length, IfErr, IfOk, OnOk};
ghost use Rattle.krb_kdc_proxy.specs.Client.{IsNoProxyReply, IsNotWritten, IsProxyReply, IsWritten, asking};
ghost use Rattle.krb_der.specs.Whole.{Encodes};
ghost use Rattle.krb_kdc_proxy.specs.Messages.{OrMemory};
ghost use Rattle.krb_kdc_proxy.specs.Replies.{reply_types};
ghost use Rattle.krb_kdc_proxy.specs.Requests.{IsNoRequest, IsRequest, types};
ghost use Rattle.krb_kdc_proxy.specs.declared.error.ProxyError.TheVariants as errors;
ghost use Rattle.krb_kdc_proxy.specs.declared.request.ProxyRequest.{ProxyRequest};

use crate::error::ProxyError;
use crate::prefixed::LENGTH;
use crate::replies::Reply;
use crate::reply::{behind, encoding, stream_reply};
use crate::request::{MAXIMUM_REQUEST, kerb_message, proxy_message, read_request};
use krb_der::{DerEncode, IntegerAsn1, OctetStringAsn1, Optional};
use krb_messages::messages::{
    ApRep, ApReq, AsRep, AsReq, KdcProxyMessage, KrbError, KrbPriv, TgsRep, TgsReq,
};
use krb_types::data_types::KerberosStringAsn1;
use std::alloc::Global;

/// A reply that comes back to a client.
#[derive(Drop)]
pub struct ProxyReply<'a> {
    /// What it is.
    pub reply: Reply,
    /// What the KDC sent over a stream, or would have sent: the reply behind its length in four octets.
    pub stream: &'a [u8],
    /// The reply alone.
    pub datagram: &'a [u8],
    /// How many octets stand before the reply.
    pub offset: usize,
}

/// The encoding of the message that holds this one behind its length, for this realm, with this hint.
fn asking(
    alloc: Global,
    message: &[u8],
    target_domain: KerberosStringAsn1,
    hint: Option<IntegerAsn1>,
) -> Result<Vec<u8>, ProxyError>
    requires { length message.now < 2 ^ 31 }
    ensures found { IfOk result (λ octets. Encodes ⟦<KdcProxyMessage as DerEncode>⟧ octets.items (asking message.now target_domain hint)) }
    ensures rejected { IfErr result (λ e. e ≡ errors.OutOfMemory) }
{
    let stream = behind(alloc, message)?;
    let message = KdcProxyMessage {
        kerb_message: OctetStringAsn1(stream).into(),
        target_domain: Optional(Some(target_domain.into())),
        dclocator_hint: Optional(match hint {
            Some(hint) => Some(hint.into()),
            None => None,
        }),
    };
    encoding(alloc, &message)
}

/// Whether a proxy takes the octets as a request.
fn is_taken(alloc: Global, octets: &[u8]) -> Result<(), ProxyError>
    ensures found { OnOk result ((request : ProxyRequest) × IsRequest ⟦<KdcProxyMessage as DerEncode>⟧
        (types ⟦<AsReq as DerEncode>⟧ ⟦<TgsReq as DerEncode>⟧ ⟦<ApReq as DerEncode>⟧ ⟦<KrbPriv as DerEncode>⟧) octets.now request) }
    ensures rejected { IfErr result (OrMemory (IsNoRequest ⟦<KdcProxyMessage as DerEncode>⟧
        (types ⟦<AsReq as DerEncode>⟧ ⟦<TgsReq as DerEncode>⟧ ⟦<ApReq as DerEncode>⟧ ⟦<KrbPriv as DerEncode>⟧) octets.now)) }
{
    match read_request(alloc, octets) {
        Ok(request) => {
            drop(request);
            Ok(())
        }
        Err(error) => Err(error),
    }
}

/// What a client posts to a proxy: the encoding of the KDC-PROXY-MESSAGE with this message, its length in front of it, with this target-domain and hint
/// (MS-KKDCP, 2.2.2). `read_request` reads it as a request for these.
///
/// `TooLarge` where the octets would be more than `MAXIMUM_REQUEST`; else the errors of `read_request` that are of the message alone: `OtherKind`,
/// `FrameLength`, `Message`, `Pvno` and `MsgType`. `OutOfMemory` may come in the place of any result.
pub fn write_request(
    alloc: Global,
    message: &[u8],
    target_domain: KerberosStringAsn1,
    hint: Option<IntegerAsn1>,
) -> Result<Vec<u8>, ProxyError>
    ensures found { IfOk result (λ octets. IsWritten ⟦<KdcProxyMessage as DerEncode>⟧
        (types ⟦<AsReq as DerEncode>⟧ ⟦<TgsReq as DerEncode>⟧ ⟦<ApReq as DerEncode>⟧ ⟦<KrbPriv as DerEncode>⟧) message.now target_domain hint octets.items) }
    ensures rejected { IfErr result (OrMemory (IsNotWritten ⟦<KdcProxyMessage as DerEncode>⟧
        (types ⟦<AsReq as DerEncode>⟧ ⟦<TgsReq as DerEncode>⟧ ⟦<ApReq as DerEncode>⟧ ⟦<KrbPriv as DerEncode>⟧) message.now target_domain hint)) }
{
    if message.len() > MAXIMUM_REQUEST {
        return Err(ProxyError::TooLarge);
    }
    let octets = asking(alloc, message, target_domain, hint)?;
    is_taken(alloc, &octets)?;
    Ok(octets)
}

/// The reply that a proxy answered (MS-KKDCP, 3.2.5.2).
///
/// The octets are the one encoding of a KDC-PROXY-MESSAGE, whose target-domain and dclocator-hint say nothing here. Its kerb-message is what `write_reply`
/// takes.
///
/// Else the error is that of the first rule that the octets break, in the order of `ProxyError`; `OutOfMemory` may come in the place of any result.
pub fn read_reply(alloc: Global, octets: &[u8]) -> Result<ProxyReply<'_>, ProxyError>
    ensures found { IfOk result (IsProxyReply ⟦<KdcProxyMessage as DerEncode>⟧
        (reply_types ⟦<AsRep as DerEncode>⟧ ⟦<TgsRep as DerEncode>⟧ ⟦<KrbError as DerEncode>⟧ ⟦<ApRep as DerEncode>⟧ ⟦<KrbPriv as DerEncode>⟧) octets.now) }
    ensures rejected { IfErr result (OrMemory (IsNoProxyReply ⟦<KdcProxyMessage as DerEncode>⟧
        (reply_types ⟦<AsRep as DerEncode>⟧ ⟦<TgsRep as DerEncode>⟧ ⟦<KrbError as DerEncode>⟧ ⟦<ApRep as DerEncode>⟧ ⟦<KrbPriv as DerEncode>⟧) octets.now)) }
{
    proxy_message(alloc, octets)?;
    let (start, stream) = kerb_message(octets);
    let (reply, datagram) = stream_reply(alloc, stream)?;
    Ok(ProxyReply {
        reply,
        stream,
        datagram,
        offset: start + LENGTH,
    })
}

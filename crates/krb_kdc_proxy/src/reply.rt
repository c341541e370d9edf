//! What a proxy answers a client (MS-KKDCP, 3.2.5.2).

ghost use Rattle.std.specs.Prelude.{◌≡◌, ◌++◌, ℕ, ◌<◌, ◌^◌, List, length, IfErr, IfOk};
ghost use Rattle.krb_der.specs.Whole.{Encodes};
ghost use Rattle.krb_kdc_proxy.specs.Messages.{OrMemory};
ghost use Rattle.krb_kdc_proxy.specs.Prefixed.{prefixed};
ghost use Rattle.krb_kdc_proxy.specs.Replies.{reply_types};
ghost use Rattle.krb_kdc_proxy.specs.Streams.{IsNoDatagramReply, IsNoStreamReply, IsPosting, IsStreamReply, holding};
ghost use Rattle.krb_kdc_proxy.specs.declared.error.ProxyError.TheVariants as errors;

use crate::error::ProxyError;
use crate::prefixed::{LENGTH, behind_length};
use crate::replies::{Reply, reply_of};
use krb_der::{DerEncode, OctetStringAsn1, Optional};
use krb_messages::messages::{ApRep, AsRep, KdcProxyMessage, KrbError, KrbPriv, TgsRep};
use std::alloc::{AllocError, Global};

/// The encoding of a message.
pub(crate) fn encoding(alloc: Global, message: &KdcProxyMessage) -> Result<Vec<u8>, ProxyError>
    ensures found { IfOk result (λ octets. Encodes ⟦<KdcProxyMessage as DerEncode>⟧ octets.items message.now) }
    ensures rejected { IfErr result (λ e. e ≡ errors.OutOfMemory) }
{
    match message.to_vec(alloc) {
        Ok(octets) => Ok(octets),
        Err(_) => Err(ProxyError::OutOfMemory),
    }
}

/// The message behind its length.
pub(crate) fn behind(alloc: Global, message: &[u8]) -> Result<Vec<u8>, AllocError>
    requires { length message.now < 2 ^ 31 }
    ensures { IfOk result (λ stream. stream.items ≡ prefixed message.now) }
{
    let length = (message.len() as u32).to_be_bytes();
    let mut stream = Vec::with_capacity(alloc, LENGTH + message.len())?;
    stream.extend_from_slice(&length)?;
    stream.extend_from_slice(message)?;
    Ok(stream)
}

/// What a reply over a stream is, and the reply behind its length.
pub(crate) fn stream_reply(alloc: Global, octets: &[u8]) -> Result<(Reply, &[u8]), ProxyError>
    ensures found { IfOk result (λ p. IsStreamReply
        (reply_types ⟦<AsRep as DerEncode>⟧ ⟦<TgsRep as DerEncode>⟧ ⟦<KrbError as DerEncode>⟧ ⟦<ApRep as DerEncode>⟧ ⟦<KrbPriv as DerEncode>⟧)
        octets.now p.1.now p.0) }
    ensures rejected { IfErr result (OrMemory (IsNoStreamReply
        (reply_types ⟦<AsRep as DerEncode>⟧ ⟦<TgsRep as DerEncode>⟧ ⟦<KrbError as DerEncode>⟧ ⟦<ApRep as DerEncode>⟧ ⟦<KrbPriv as DerEncode>⟧) octets.now)) }
{
    let datagram = behind_length(octets)?;
    let reply = reply_of(alloc, datagram)?;
    Ok((reply, datagram))
}

/// The encoding of the message that holds these octets.
fn posting(alloc: Global, stream: Vec<u8>) -> Result<Vec<u8>, ProxyError>
    ensures found { IfOk result (λ octets. Encodes ⟦<KdcProxyMessage as DerEncode>⟧ octets.items (holding stream.items)) }
    ensures rejected { IfErr result (λ e. e ≡ errors.OutOfMemory) }
{
    let message = KdcProxyMessage {
        kerb_message: OctetStringAsn1(stream).into(),
        target_domain: Optional(None),
        dclocator_hint: Optional(None),
    };
    encoding(alloc, &message)
}

/// What a KDC, or the server that changes passwords, sent over a stream, as the KDC-PROXY-MESSAGE that goes back to the client (MS-KKDCP, 3.2.5.2): its
/// encoding, whose kerb-message is these octets, with neither target-domain nor dclocator-hint.
///
/// The octets are the length of a message in four octets, and so many octets. These are the one encoding of an AS-REP, of a TGS-REP or of a KRB-ERROR; or
/// a frame in which a password is changed (RFC 3244, 2), of version 1, whose two parts are the one encodings of an AP-REP and of a KRB-PRIV, or of
/// which the first is absent and the second that of a KRB-ERROR. pvno is 5 and msg-type what the tag says in each.
///
/// Else the error is that of the first rule that the octets break, in the order of `ProxyError`; `OutOfMemory` may come in the place of any result.
pub fn write_reply(alloc: Global, octets: &[u8]) -> Result<Vec<u8>, ProxyError>
    ensures found { IfOk result (λ written. (datagram : List ℕ) × IsPosting ⟦<KdcProxyMessage as DerEncode>⟧
        (reply_types ⟦<AsRep as DerEncode>⟧ ⟦<TgsRep as DerEncode>⟧ ⟦<KrbError as DerEncode>⟧ ⟦<ApRep as DerEncode>⟧ ⟦<KrbPriv as DerEncode>⟧)
        octets.now datagram written.items) }
    ensures rejected { IfErr result (OrMemory (IsNoStreamReply
        (reply_types ⟦<AsRep as DerEncode>⟧ ⟦<TgsRep as DerEncode>⟧ ⟦<KrbError as DerEncode>⟧ ⟦<ApRep as DerEncode>⟧ ⟦<KrbPriv as DerEncode>⟧) octets.now)) }
{
    stream_reply(alloc, octets)?;
    posting(alloc, Vec::from_slice(alloc, octets)?)
}

/// What a KDC, or the server that changes passwords, sent in a datagram, as the KDC-PROXY-MESSAGE that goes back to the client: kerb-message is its length
/// in four octets, the highest first, and the datagram.
///
/// `TooLarge` where it has 2147483648 octets or more; else the errors of `write_reply`, but those of a length.
pub fn write_reply_datagram(alloc: Global, octets: &[u8]) -> Result<Vec<u8>, ProxyError>
    ensures found { IfOk result (λ written. IsPosting ⟦<KdcProxyMessage as DerEncode>⟧
        (reply_types ⟦<AsRep as DerEncode>⟧ ⟦<TgsRep as DerEncode>⟧ ⟦<KrbError as DerEncode>⟧ ⟦<ApRep as DerEncode>⟧ ⟦<KrbPriv as DerEncode>⟧)
        (prefixed octets.now) octets.now written.items) }
    ensures rejected { IfErr result (OrMemory (IsNoDatagramReply
        (reply_types ⟦<AsRep as DerEncode>⟧ ⟦<TgsRep as DerEncode>⟧ ⟦<KrbError as DerEncode>⟧ ⟦<ApRep as DerEncode>⟧ ⟦<KrbPriv as DerEncode>⟧) octets.now)) }
{
    if octets.len() >= 0x8000_0000 {
        return Err(ProxyError::TooLarge);
    }
    reply_of(alloc, octets)?;
    posting(alloc, behind(alloc, octets)?)
}

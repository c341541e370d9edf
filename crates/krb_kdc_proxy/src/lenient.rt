//! Requests of which the first octets alone are looked at.

ghost use Rattle.std.specs.Prelude.{◌<◌, length, IfErr, IfOk, IsErrOf, MatchOption};
ghost use Rattle.krb_kdc_proxy.specs.Lenient.{IsLenientRequest, IsLookedAt, IsNoLenientRequest, IsNotLookedAt, LooksLike, LooksLikeNone};
ghost use Rattle.krb_kdc_proxy.specs.Messages.{OrMemory};
ghost use Rattle.krb_kdc_proxy.specs.declared.error.ProxyError.TheVariants as errors;

use crate::asked::{Service, untagged};
use crate::error::ProxyError;
use crate::frame::{Direction, begins_as_frame};
use crate::kdc::{AS_REQ, TGS_REQ};
use crate::prefixed::{LENGTH, behind_length};
use crate::request::{kerb_message, posted};
use krb_der::{DerEncode, IntegerAsn1};
use krb_messages::messages::KdcProxyMessage;
use krb_types::data_types::KerberosStringAsn1;
use std::alloc::Global;

/// A request whose message was looked at by its first octets alone.
#[derive(Drop)]
pub struct LenientRequest<'a> {
    /// Whom it is for, as the first octets say.
    pub service: Service,
    /// The realm that the client names to the proxy.
    pub target_domain: KerberosStringAsn1,
    /// How the proxy is to look for a KDC (dclocator-hint).
    pub hint: Option<IntegerAsn1>,
    /// What goes over a stream: the message behind its length in four octets.
    pub stream: &'a [u8],
    /// What goes in a datagram: the message alone.
    pub datagram: &'a [u8],
    /// How many of the posted octets stand before the datagram.
    pub offset: usize,
}

/// Whom a message is for, as its first octets say; `None` where they say nothing.
fn looks_like(octets: &[u8]) -> Option<Service>
    ensures { MatchOption result (LooksLikeNone octets.now) (LooksLike octets.now) }
{
    if begins_as_frame(Direction::Request, octets) {
        return Some(Service::PasswordChange);
    }
    match octets.first() {
        Some(&AS_REQ) | Some(&TGS_REQ) => Some(Service::Kdc),
        _ => None,
    }
}

/// The request of a KDC-PROXY-MESSAGE, whose message stands behind so many of its octets.
fn lenient_of<'a>(
    message: KdcProxyMessage,
    stream: &'a [u8],
    datagram: &'a [u8],
    offset: usize,
) -> Result<LenientRequest<'a>, ProxyError>
    ensures found { IfOk result (IsLookedAt message stream.now datagram.now offset) }
    ensures rejected { IfErr result (IsNotLookedAt message datagram.now) }
{
    let KdcProxyMessage {
        kerb_message: _,
        target_domain,
        dclocator_hint,
    } = message;
    let Some(domain) = target_domain.0 else {
        return Err(ProxyError::NoTargetDomain);
    };
    let Some(service) = looks_like(datagram) else {
        return Err(ProxyError::OtherKind);
    };
    Ok(LenientRequest {
        service,
        target_domain: domain.0,
        hint: untagged(dclocator_hint.0),
        stream,
        datagram,
        offset,
    })
}

/// The request that a client posts, as `read_request` reads it, but of the message the first octets alone are looked at: it begins as a frame in which a
/// password is changed (RFC 3244, 2), whose length is its own and whose version is 1 or ff80; or with the first octet of an AS-REQ or of a TGS-REQ, 6a or 6c.
///
/// This lets messages through that are no encoding, and whatever stands in them. It is for clients whose messages `read_request` refuses.
///
/// Else the error is that of the first rule that the octets break, in the order of `ProxyError`; `OutOfMemory` may come in the place of any result but
/// `TooLarge`.
pub fn read_request_lenient(alloc: Global, octets: &[u8]) -> Result<LenientRequest<'_>, ProxyError>
    ensures found { IfOk result (IsLenientRequest ⟦<KdcProxyMessage as DerEncode>⟧ octets.now) }
    ensures rejected { IfErr result (OrMemory (IsNoLenientRequest ⟦<KdcProxyMessage as DerEncode>⟧ octets.now)) }
    ensures too_large { 131072 < length octets.now → IsErrOf result errors.TooLarge }
{
    let message = posted(alloc, octets)?;
    let (start, stream) = kerb_message(octets);
    let datagram = behind_length(stream)?;
    lenient_of(message, stream, datagram, start + LENGTH)
}

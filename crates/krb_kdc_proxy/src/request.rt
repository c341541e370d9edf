//! What a client posts to a proxy (MS-KKDCP, 2.2.2 and 3.2.5.1).

ghost use Rattle.std.specs.Prelude.{◌≡◌, ◌+◌, ◌<◌, ◌≤◌, ℕ, List, length, take, drop, map, Some, MatchBool, IfOk, IfErr, IsErrOf};
ghost use Rattle.std.specs.Char.{to_ascii_lowercase};
ghost use Rattle.krb_der.specs.Whole.{Encodes};
ghost use Rattle.krb_kdc_proxy.specs.Messages.{IsNoEncoding, OrMemory};
ghost use Rattle.krb_kdc_proxy.specs.Requests.{Asks, AsksNothing, IsCarried, IsNoRequest, IsNotCarried, IsNotPosted, IsPosted, IsRequest, types};
ghost use Rattle.krb_kdc_proxy.specs.Standing.{IsKerbMessage};
ghost use Rattle.krb_kdc_proxy.specs.declared.error.ProxyError.TheVariants as errors;
ghost use Rattle.krb_messages.specs.declared.kpasswd.error.MessageError.{MessageError};

use crate::asked::{Asked, Service, untagged};
use crate::change::change;
use crate::error::{ProxyError, proxy_message_error};
use crate::frame::{Direction, begins_as_frame};
use crate::kdc::kdc_request;
use crate::prefixed::{LENGTH, behind_length};
use krb_der::{DerEncode, IntegerAsn1, from_bytes};
use krb_message_fields::places::{Step, place_of};
use krb_messages::messages::{ApReq, AsReq, KdcProxyMessage, KrbPriv, TgsReq};
use krb_types::data_types::{KerberosStringAsn1, PrincipalName, Realm};
use std::alloc::Global;

/// The most octets that a request has which a client posts, 128 KiB: as many as other proxies take.
pub const MAXIMUM_REQUEST: usize = 131_072;

/// A request that goes through.
#[derive(Drop)]
pub struct ProxyRequest<'a> {
    /// Whom it is for.
    pub service: Service,
    /// The realm that the client names to the proxy.
    pub target_domain: KerberosStringAsn1,
    /// The realm that the message names: that of its body, or of the ticket with which a password is changed.
    pub realm: Realm,
    /// The client's name, where it stands in the clear: in an AS-REQ. For a log.
    pub client: Option<PrincipalName>,
    /// The server's name. For a log.
    pub server: Option<PrincipalName>,
    /// How the proxy is to look for a KDC (dclocator-hint).
    pub hint: Option<IntegerAsn1>,
    /// What goes over a stream: the message behind its length in four octets.
    pub stream: &'a [u8],
    /// What goes in a datagram: the message alone.
    pub datagram: &'a [u8],
    /// How many of the posted octets stand before the datagram.
    pub offset: usize,
}

impl ProxyRequest<'_> {
    /// Whether target-domain is the realm that the message names, ASCII letters of either case alike.
    pub fn names_one_realm(&self) -> bool
        ensures { MatchBool result (map to_ascii_lowercase self.now.target_domain ≡ map to_ascii_lowercase self.now.realm)
            (map to_ascii_lowercase self.now.target_domain ≡ map to_ascii_lowercase self.now.realm → ⊥) }
    {
        is_same(
            self.target_domain.as_str().as_bytes(),
            self.realm.as_str().as_bytes(),
        )
    }
}

/// Whether two texts are the same, ASCII letters of either case alike.
fn is_same(first: &[u8], second: &[u8]) -> bool
    ensures { MatchBool result (map to_ascii_lowercase first.now ≡ map to_ascii_lowercase second.now)
        (map to_ascii_lowercase first.now ≡ map to_ascii_lowercase second.now → ⊥) }
{
    if first.len() != second.len() {
        return false;
    }
    for i in 0..first.len() {
        if first[i].to_ascii_lowercase() != second[i].to_ascii_lowercase() {
            return false;
        }
    }
    true
}

/// The KDC-PROXY-MESSAGE whose one encoding the octets are.
pub(crate) fn proxy_message(alloc: Global, octets: &[u8]) -> Result<KdcProxyMessage, ProxyError>
    ensures found { IfOk result (Encodes ⟦<KdcProxyMessage as DerEncode>⟧ octets.now) }
    ensures rejected { IfErr result (OrMemory
        (λ e. (why : MessageError) × (e ≡ errors.ProxyMessage why) × IsNoEncoding ⟦<KdcProxyMessage as DerEncode>⟧ octets.now why)) }
{
    match from_bytes(alloc, octets) {
        Ok(message) => Ok(message),
        Err(error) => Err(proxy_message_error(error)),
    }
}

/// The same, which is not too large.
pub(crate) fn posted(alloc: Global, octets: &[u8]) -> Result<KdcProxyMessage, ProxyError>
    ensures found { IfOk result (IsPosted ⟦<KdcProxyMessage as DerEncode>⟧ octets.now) }
    ensures rejected { IfErr result (OrMemory (IsNotPosted ⟦<KdcProxyMessage as DerEncode>⟧ octets.now)) }
    ensures too_large { 131072 < length octets.now → IsErrOf result errors.TooLarge }
{
    if octets.len() > MAXIMUM_REQUEST {
        return Err(ProxyError::TooLarge);
    }
    proxy_message(alloc, octets)
}

/// The octets of kerb-message, and how many stand before them.
pub(crate) fn kerb_message(octets: &[u8]) -> (usize, &[u8])
    ensures { (v : KdcProxyMessage) → octets.now ≡ ⟦<KdcProxyMessage as DerEncode>⟧.enc v
        → (result.1.now ≡ v.kerb_message) × IsKerbMessage result.1.now result.0 octets.now }
{
    let path = [Step::Tag(0x30), Step::Tag(0xa0), Step::Tag(0x04)];
    match place_of(&path, octets) {
        Some(place) => (
            place.offset,
            &octets[place.offset..place.offset + place.size],
        ),
        None => (0, &octets[..0]),
    }
}

/// What a message asks for.
pub(crate) fn asked(alloc: Global, octets: &[u8]) -> Result<Asked, ProxyError>
    ensures found { IfOk result (Asks
        (types ⟦<AsReq as DerEncode>⟧ ⟦<TgsReq as DerEncode>⟧ ⟦<ApReq as DerEncode>⟧ ⟦<KrbPriv as DerEncode>⟧) octets.now) }
    ensures rejected { IfErr result (OrMemory (AsksNothing
        (types ⟦<AsReq as DerEncode>⟧ ⟦<TgsReq as DerEncode>⟧ ⟦<ApReq as DerEncode>⟧ ⟦<KrbPriv as DerEncode>⟧) octets.now)) }
{
    if begins_as_frame(Direction::Request, octets) {
        change(alloc, octets)
    } else {
        kdc_request(alloc, octets)
    }
}

/// The request of a KDC-PROXY-MESSAGE, whose message stands behind so many of its octets.
fn request_of<'a>(
    alloc: Global,
    message: KdcProxyMessage,
    stream: &'a [u8],
    datagram: &'a [u8],
    offset: usize,
) -> Result<ProxyRequest<'a>, ProxyError>
    ensures found { IfOk result (IsCarried
        (types ⟦<AsReq as DerEncode>⟧ ⟦<TgsReq as DerEncode>⟧ ⟦<ApReq as DerEncode>⟧ ⟦<KrbPriv as DerEncode>⟧)
        message stream.now datagram.now offset) }
    ensures rejected { IfErr result (OrMemory (IsNotCarried
        (types ⟦<AsReq as DerEncode>⟧ ⟦<TgsReq as DerEncode>⟧ ⟦<ApReq as DerEncode>⟧ ⟦<KrbPriv as DerEncode>⟧) message datagram.now)) }
{
    let KdcProxyMessage {
        kerb_message: _,
        target_domain,
        dclocator_hint,
    } = message;
    let Some(domain) = target_domain.0 else {
        return Err(ProxyError::NoTargetDomain);
    };
    let asked = asked(alloc, datagram)?;
    Ok(ProxyRequest {
        service: asked.service,
        target_domain: domain.0,
        realm: asked.realm,
        client: asked.client,
        server: asked.server,
        hint: untagged(dclocator_hint.0),
        stream,
        datagram,
        offset,
    })
}

/// The request that a client posts, which the proxy passes on to a KDC or to the server that changes passwords, where it is one.
///
/// The octets are the one encoding of a KDC-PROXY-MESSAGE, of at most `MAXIMUM_REQUEST` octets, with a target-domain. Its kerb-message is the length of a
/// message in four octets, and so many octets. These are the one encoding of an AS-REQ or of a TGS-REQ; or a frame in which a password is changed
/// (RFC 3244, 2), of version 1 or ff80, whose two parts are the one encodings of an AP-REQ and of a KRB-PRIV. pvno is 5 and msg-type what the tag says in each.
///
/// Else the error is that of the first rule that the octets break, in the order of `ProxyError`; `OutOfMemory` may come in the place of any result but
/// `TooLarge`.
pub fn read_request(alloc: Global, octets: &[u8]) -> Result<ProxyRequest<'_>, ProxyError>
    ensures found { IfOk result (IsRequest ⟦<KdcProxyMessage as DerEncode>⟧
        (types ⟦<AsReq as DerEncode>⟧ ⟦<TgsReq as DerEncode>⟧ ⟦<ApReq as DerEncode>⟧ ⟦<KrbPriv as DerEncode>⟧) octets.now) }
    ensures rejected { IfErr result (OrMemory (IsNoRequest ⟦<KdcProxyMessage as DerEncode>⟧
        (types ⟦<AsReq as DerEncode>⟧ ⟦<TgsReq as DerEncode>⟧ ⟦<ApReq as DerEncode>⟧ ⟦<KrbPriv as DerEncode>⟧) octets.now)) }
    ensures too_large { 131072 < length octets.now → IsErrOf result errors.TooLarge }
{
    let message = posted(alloc, octets)?;
    let (start, stream) = kerb_message(octets);
    let datagram = behind_length(stream)?;
    request_of(alloc, message, stream, datagram, start + LENGTH)
}

//! What is told of a request.

ghost use Rattle.std.specs.Prelude.{◌≡◌, List, ℕ, Some};
ghost use Rattle.krb_c_calls.specs.Posted.{IsDomainAt, IsHintOf, IsNamesNumber, TellsLenient, TellsRequest, service_number};
ghost use Rattle.krb_messages.specs.declared.messages.proxy.KdcProxyMessage.{KdcProxyMessage};

use crate::call_error::{CallError, DONE};
use krb_der::{DerEncode, IntegerAsn1};
use krb_kdc_proxy::{LenientRequest, ProxyRequest, Service};
use krb_message_fields::places::{Place, Step, place_of};
use krb_messages::messages::KdcProxyMessage;

/// `krb_proxy_posted` of `krb.h`: what a client posts to a proxy. It has no pointer in it.
#[repr(C)]
#[derive(Clone, Copy)]
pub struct PostedRecord {
    /// How many of the posted octets stand before the message, without its length, which is in the four octets before it.
    pub message_offset: usize,
    /// How many octets the message has.
    pub message_size: usize,
    /// How many of the posted octets stand before target-domain.
    pub domain_offset: usize,
    /// How many octets target-domain has.
    pub domain_size: usize,
    /// dclocator-hint, where `hint_status` is 0.
    pub hint: i64,
    /// 0 where there is a dclocator-hint, 20 where there is none, 21 where 64 bits do not hold it.
    pub hint_status: u32,
    /// 1 a KDC, 2 the server that changes passwords.
    pub service: u32,
    /// 1 where target-domain is the realm that the message names, and else 0.
    pub names_one_realm: u32,
}

/// All zeros.
pub(crate) const NOTHING: PostedRecord = PostedRecord {
    message_offset: 0,
    message_size: 0,
    domain_offset: 0,
    domain_size: 0,
    hint: 0,
    hint_status: 0,
    service: 0,
    names_one_realm: 0,
};

/// The number of a service.
fn service_number(service: Service) -> u32
    ensures { result ≡ service_number service }
{
    match service {
        Service::Kdc => 1,
        Service::PasswordChange => 2,
    }
}

/// dclocator-hint, and the status of it.
fn hint_of(hint: &Option<IntegerAsn1>) -> (i64, u32)
    ensures { IsHintOf hint.now result.0 result.1 }
{
    match hint {
        Some(number) => match number.to_i64() {
            Some(small) => (small, DONE),
            None => (0, CallError::TooLarge.status()),
        },
        None => (0, CallError::Absent.status()),
    }
}

/// Where target-domain stands in a KDC-PROXY-MESSAGE: the SEQUENCE (30), its element [1] (a1), the GeneralString (1b) in it.
fn domain_place(octets: &[u8]) -> Place
    ensures { (v : KdcProxyMessage) (domain : List ℕ) → octets.now ≡ ⟦<KdcProxyMessage as DerEncode>⟧.enc v → v.target_domain.0 ≡ Some domain
        → IsDomainAt domain octets.now result.offset result.size }
{
    let path = [Step::Tag(0x30), Step::Tag(0xa1), Step::Tag(0x1b)];
    match place_of(&path, octets) {
        Some(place) => place,
        None => Place { offset: 0, size: 0 },
    }
}

fn names_number(request: &ProxyRequest<'_>) -> u32
    ensures { IsNamesNumber request.now result }
{
    if request.names_one_realm() { 1 } else { 0 }
}

/// What is told of a request that the octets are.
pub(crate) fn told_request(octets: &[u8], request: &ProxyRequest<'_>) -> PostedRecord
    ensures tells { TellsRequest request.now result }
    ensures domain { (v : KdcProxyMessage) (domain : List ℕ) → octets.now ≡ ⟦<KdcProxyMessage as DerEncode>⟧.enc v → v.target_domain.0 ≡ Some domain
        → IsDomainAt domain octets.now result.domain_offset result.domain_size }
{
    let domain = domain_place(octets);
    let (hint, hint_status) = hint_of(&request.hint);
    PostedRecord {
        message_offset: request.offset,
        message_size: request.datagram.len(),
        domain_offset: domain.offset,
        domain_size: domain.size,
        hint,
        hint_status,
        service: service_number(request.service),
        names_one_realm: names_number(request),
    }
}

/// The same, where the first octets of the message alone were looked at.
pub(crate) fn told_lenient(octets: &[u8], request: &LenientRequest<'_>) -> PostedRecord
    ensures tells { TellsLenient request.now result }
    ensures domain { (v : KdcProxyMessage) (domain : List ℕ) → octets.now ≡ ⟦<KdcProxyMessage as DerEncode>⟧.enc v → v.target_domain.0 ≡ Some domain
        → IsDomainAt domain octets.now result.domain_offset result.domain_size }
{
    let domain = domain_place(octets);
    let (hint, hint_status) = hint_of(&request.hint);
    PostedRecord {
        message_offset: request.offset,
        message_size: request.datagram.len(),
        domain_offset: domain.offset,
        domain_size: domain.size,
        hint,
        hint_status,
        service: service_number(request.service),
        names_one_realm: 0,
    }
}

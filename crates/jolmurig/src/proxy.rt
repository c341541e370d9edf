//! What a proxy in front of a KDC passes on.

ghost use Rattle.std.specs.Prelude.{◌≡◌, ◌⊎◌, ◌++◌, OnOk, IfOk, IfErr};
ghost use Rattle.jolmurig.specs.Calls.{blocked, passed_on};
ghost use Rattle.jolmurig.specs.Passages.{IsBlocked, IsProxyFailure};
ghost use Rattle.jolmurig.specs.Requests.{IsLineOf, destination, other_realm, service_name};
ghost use Rattle.jolmurig_command.specs.declared.command.Direction.TheVariants as direction;
ghost use Rattle.jolmurig.specs.declared.failure.Failure.TheVariants as failure;
ghost use Rattle.krb_messages.specs.Rejected.{der_error};
ghost use Rattle.krb_kdc_proxy.specs.Messages.{OrMemory};
ghost use Rattle.krb_kdc_proxy.specs.Replies.{reply_types};
ghost use Rattle.krb_kdc_proxy.specs.Requests.{types};

use crate::calls::Calls;
use crate::failure::{Failure, kind_of_message};
use jolmurig_command::Direction;
use krb_der::{Asn1DerError, DerEncode};
use krb_kdc_proxy::{MessageError, ProxyError, ProxyRequest, Service, read_request, write_reply};
use krb_messages::messages::{
    ApRep, ApReq, AsRep, AsReq, KdcProxyMessage, KrbError, KrbPriv, TgsRep, TgsReq,
};
use krb_show_any::{Kind, PageError};
use krb_show_text::{Style, push_escaped};
use std::alloc::{AllocError, Global};

/// Octets that are passed on, and the line that says for whom, where they are a request.
#[derive(Drop)]
pub struct Passed {
    /// The octets.
    pub octets: Vec<u8>,
    /// The line, or nothing.
    pub line: Vec<u8>,
}

/// The name of a service.
fn service_name(service: Service) -> &'static str
    ensures { result.now ≡ service_name service }
{
    match service {
        Service::Kdc => "kdc",
        Service::PasswordChange => "kpasswd",
    }
}

/// Appends the service and the realm that the client names.
fn push_destination(line: &mut Vec<u8>, request: &ProxyRequest) -> Result<(), AllocError>
    ensures { OnOk result (line.new.items ≡ line.old.items ++ destination request.now) }
{
    line.extend_from_slice(service_name(request.service).as_bytes())?;
    line.push(b' ')?;
    push_escaped(line, Style::Name, request.target_domain.as_str().as_bytes())
}

/// Appends the realm that the message names.
fn push_other_realm(line: &mut Vec<u8>, request: &ProxyRequest) -> Result<(), AllocError>
    ensures { OnOk result (line.new.items ≡ line.old.items ++ other_realm request.now) }
{
    line.extend_from_slice(b" (the message names ")?;
    push_escaped(line, Style::Name, request.realm.as_str().as_bytes())?;
    line.push(b')')?;
    Ok(())
}

/// The line that says for whom a request is.
fn line_of(alloc: Global, request: &ProxyRequest) -> Result<Vec<u8>, AllocError>
    ensures { IfOk result (λ line. IsLineOf request.now line.items) }
{
    let mut line = Vec::new(alloc);
    push_destination(&mut line, request)?;
    if !request.names_one_realm() {
        push_other_realm(&mut line, request)?;
    }
    line.push(b'\n')?;
    Ok(line)
}

/// What goes to a KDC of the octets that a client posts.
pub fn request_passed(alloc: Global, octets: &[u8]) -> Result<Passed, ProxyError>
    ensures found { IfOk result (λ p. passed_on ⟦<KdcProxyMessage as DerEncode>⟧
        (types ⟦<AsReq as DerEncode>⟧ ⟦<TgsReq as DerEncode>⟧ ⟦<ApReq as DerEncode>⟧ ⟦<KrbPriv as DerEncode>⟧)
        (reply_types ⟦<AsRep as DerEncode>⟧ ⟦<TgsRep as DerEncode>⟧ ⟦<KrbError as DerEncode>⟧ ⟦<ApRep as DerEncode>⟧ ⟦<KrbPriv as DerEncode>⟧)
        direction.Request octets.now p.octets.items p.line.items) }
    ensures rejected { IfErr result (OrMemory (blocked ⟦<KdcProxyMessage as DerEncode>⟧
        (types ⟦<AsReq as DerEncode>⟧ ⟦<TgsReq as DerEncode>⟧ ⟦<ApReq as DerEncode>⟧ ⟦<KrbPriv as DerEncode>⟧)
        (reply_types ⟦<AsRep as DerEncode>⟧ ⟦<TgsRep as DerEncode>⟧ ⟦<KrbError as DerEncode>⟧ ⟦<ApRep as DerEncode>⟧ ⟦<KrbPriv as DerEncode>⟧)
        direction.Request octets.now)) }
{
    let request = read_request(alloc, octets)?;
    let line = line_of(alloc, &request)?;
    let octets = Vec::from_slice(alloc, request.stream)?;
    Ok(Passed { octets, line })
}

/// What goes back to the client of the octets that a KDC sent over a stream.
pub fn reply_passed(alloc: Global, octets: &[u8]) -> Result<Passed, ProxyError>
    ensures found { IfOk result (λ p. passed_on ⟦<KdcProxyMessage as DerEncode>⟧
        (types ⟦<AsReq as DerEncode>⟧ ⟦<TgsReq as DerEncode>⟧ ⟦<ApReq as DerEncode>⟧ ⟦<KrbPriv as DerEncode>⟧)
        (reply_types ⟦<AsRep as DerEncode>⟧ ⟦<TgsRep as DerEncode>⟧ ⟦<KrbError as DerEncode>⟧ ⟦<ApRep as DerEncode>⟧ ⟦<KrbPriv as DerEncode>⟧)
        direction.Reply octets.now p.octets.items p.line.items) }
    ensures rejected { IfErr result (OrMemory (blocked ⟦<KdcProxyMessage as DerEncode>⟧
        (types ⟦<AsReq as DerEncode>⟧ ⟦<TgsReq as DerEncode>⟧ ⟦<ApReq as DerEncode>⟧ ⟦<KrbPriv as DerEncode>⟧)
        (reply_types ⟦<AsRep as DerEncode>⟧ ⟦<TgsRep as DerEncode>⟧ ⟦<KrbError as DerEncode>⟧ ⟦<ApRep as DerEncode>⟧ ⟦<KrbPriv as DerEncode>⟧)
        direction.Reply octets.now)) }
{
    let octets = write_reply(alloc, octets)?;
    Ok(Passed {
        octets,
        line: Vec::new(alloc),
    })
}

/// The error of DER that an error of octets is.
fn der_error(error: MessageError) -> Asn1DerError
    ensures { result ≡ der_error error }
{
    match error {
        MessageError::InvalidData => Asn1DerError::InvalidData,
        MessageError::TruncatedData => Asn1DerError::TruncatedData,
        MessageError::UnsupportedValue => Asn1DerError::UnsupportedValue,
    }
}

/// The failure that an error of a proxy is.
fn failure_of_proxy(error: ProxyError) -> Failure<'static>
    ensures { IsProxyFailure error result }
{
    match error {
        ProxyError::ProxyMessage(why) => Failure::Octets {
            kind: Kind::Type("KDC-PROXY-MESSAGE"),
            why: PageError::Der(der_error(why)),
            place: None,
        },
        ProxyError::Message(kind, why) => Failure::Octets {
            kind: kind_of_message(kind),
            why: PageError::Der(der_error(why)),
            place: None,
        },
        ProxyError::OutOfMemory => Failure::Memory,
        rule => Failure::Proxy(rule),
    }
}

/// What a proxy passes on of the octets.
pub fn passed_of<C: Calls>(
    alloc: Global,
    way: Direction,
    octets: &[u8],
) -> Result<Passed, Failure<'static>>
    ensures found { IfOk result (λ p. C.passes way octets.now p.octets.items p.line.items) }
    ensures rejected { IfErr result (λ e. (e ≡ failure.Memory) ⊎ IsBlocked C.blocks way octets.now e) }
{
    match C::passed(alloc, way, octets) {
        Ok(passed) => Ok(passed),
        Err(error) => Err(failure_of_proxy(error)),
    }
}

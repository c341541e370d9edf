//! What a request asks for.

ghost use Rattle.std.specs.Prelude.{◌≡◌};
ghost use Rattle.krb_kdc_proxy.specs.Asking.{change_asked, kdc_asked};

use krb_der::ExplicitContextTag;
use krb_messages::messages::{ApReqInner, KdcReq, KdcReqBody};
use krb_types::data_types::{PrincipalName, Realm, TicketInner};

/// Whom a request is for.
#[derive(Clone, Copy, PartialEq, Eq)]
pub enum Service {
    /// A KDC (RFC 4120, 7.2; port 88).
    Kdc,
    /// The server that changes passwords (RFC 3244, 2; port 464).
    PasswordChange,
}

/// What a request asks for.
#[derive(Drop)]
pub struct Asked {
    /// Whom it is for.
    pub service: Service,
    /// The realm that it names.
    pub realm: Realm,
    /// The client's name, where it has one in the clear.
    pub client: Option<PrincipalName>,
    /// The server's name, where it has one.
    pub server: Option<PrincipalName>,
}

/// What a field holds behind its tag.
pub(crate) fn untagged<T, N>(field: Option<ExplicitContextTag<T, N>>) -> Option<T>
    ensures { result ≡ field }
{
    match field {
        Some(tagged) => Some(tagged.0),
        None => None,
    }
}

/// What a request to a KDC asks for.
pub(crate) fn kdc_asked(request: KdcReq) -> Asked
    ensures { result ≡ kdc_asked request }
{
    let KdcReq {
        padata,
        req_body,
        ..
    } = request;
    drop(padata);
    let KdcReqBody {
        cname,
        realm,
        sname,
        from,
        rtime,
        etype,
        addresses,
        enc_authorization_data,
        additional_tickets,
        ..
    } = req_body.0;
    drop(from);
    drop(rtime);
    drop(etype);
    drop(addresses);
    drop(enc_authorization_data);
    drop(additional_tickets);
    Asked {
        service: Service::Kdc,
        realm: realm.0,
        client: untagged(cname.0),
        server: untagged(sname.0),
    }
}

/// What the AP-REQ of a password's change asks for: its ticket is for the server.
pub(crate) fn change_asked(request: ApReqInner) -> Asked
    ensures { result ≡ change_asked request }
{
    let ApReqInner {
        ticket,
        authenticator,
        ..
    } = request;
    drop(authenticator);
    let TicketInner {
        realm,
        sname,
        enc_part,
        ..
    } = ticket.0.0;
    drop(enc_part);
    Asked {
        service: Service::PasswordChange,
        realm: realm.0,
        client: None,
        server: Some(sname.0),
    }
}

//! The fields of what was read and opened, without tags and wrappers.

ghost use Rattle.std.specs.Prelude.{◌≡◌};
ghost use Rattle.krb_accept.specs.Fields.{authenticator_of, request_of, ticket_of};

use krb_accept_rules::{AuthenticatorFields, RequestFields, TicketFields};
use krb_der::ExplicitContextTag;
use krb_enc_parts::data_types::{AuthenticatorInner, EncTicketPartInner};
use krb_messages::messages::ApReqInner;
use krb_types::data_types::TicketInner;

/// What a field holds behind its tag.
fn untagged<T, N>(field: Option<ExplicitContextTag<T, N>>) -> Option<T>
    ensures { result ≡ field }
{
    match field {
        Some(tagged) => Some(tagged.0),
        None => None,
    }
}

/// The fields of an AP-REQ.
pub(crate) fn request_of(request: ApReqInner) -> RequestFields
    ensures { result ≡ request_of request }
{
    let ApReqInner {
        pvno,
        msg_type,
        ap_options,
        ticket,
        authenticator,
    } = request;
    let TicketInner {
        tkt_vno,
        realm,
        sname,
        enc_part,
    } = ticket.0.0;
    RequestFields {
        version: pvno.0,
        message_type: msg_type.0,
        options: ap_options.0,
        ticket_version: tkt_vno.0,
        realm: realm.0,
        server: sname.0,
        ticket: enc_part.0,
        authenticator: authenticator.0,
    }
}

/// The fields of the sealed part of a ticket.
pub(crate) fn ticket_of(part: EncTicketPartInner) -> TicketFields
    ensures { result ≡ ticket_of part }
{
    let EncTicketPartInner {
        flags,
        key,
        crealm,
        cname,
        transited,
        auth_time,
        starttime,
        endtime,
        renew_till: _,
        caddr,
        authorization_data,
    } = part;
    TicketFields {
        flags: flags.0,
        key: key.0,
        realm: crealm.0,
        client: cname.0,
        transited: transited.0,
        auth_time: auth_time.0,
        start_time: untagged(starttime.0),
        end_time: endtime.0,
        addresses: untagged(caddr.0),
        authorization_data: untagged(authorization_data.0),
    }
}

/// The fields of an authenticator.
pub(crate) fn authenticator_of(authenticator: AuthenticatorInner) -> AuthenticatorFields
    ensures { result ≡ authenticator_of authenticator }
{
    let AuthenticatorInner {
        authenticator_vno,
        crealm,
        cname,
        cksum,
        cusec,
        ctime,
        subkey,
        seq_number,
        authorization_data,
    } = authenticator;
    AuthenticatorFields {
        version: authenticator_vno.0,
        realm: crealm.0,
        client: cname.0,
        checksum: untagged(cksum.0),
        cusec: cusec.0,
        ctime: ctime.0,
        subkey: untagged(subkey.0),
        sequence_number: untagged(seq_number.0),
        authorization_data: untagged(authorization_data.0),
    }
}

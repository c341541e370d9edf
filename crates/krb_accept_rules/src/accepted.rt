//! What is told of a client that is let in.

ghost use Rattle.std.specs.Prelude.{◌≡◌, IfOk};
ghost use Rattle.krb_accept_rules.specs.Accepted.{accepted_of, entry_of};

use crate::cache::Entry;
use crate::fields::{AuthenticatorFields, RequestFields, TicketFields};
use crate::key::ServiceKey;
use krb_der::{Asn1SequenceOf, IntegerAsn1, copied};
use krb_types::data_types::{
    ApOptions, AuthorizationData, Checksum, EncryptionKey, KerberosStringAsn1, KerberosTime,
    Microseconds, PrincipalName, Realm,
};
use krb_types::view::unix_seconds;
use std::alloc::{AllocError, Global};

/// A client that is let in, and what it sent.
#[derive(Drop)]
pub struct Accepted {
    /// What the ticket says: the client, the session key, the flags, the times, the authorization
    /// data.
    pub ticket: TicketFields,
    /// The server's realm, as the ticket names it.
    pub server_realm: Realm,
    /// The server's name, as the ticket names it.
    pub server: PrincipalName,
    /// ap-options: bit 2, mutual-required, says that the client waits for an AP-REP (RFC 4120,
    /// 5.5.1).
    pub options: ApOptions,
    /// The checksum of what goes along with the request.
    pub checksum: Option<Checksum>,
    /// The client's time.
    pub ctime: KerberosTime,
    /// Its microseconds.
    pub cusec: Microseconds,
    /// The key that the client chose.
    pub subkey: Option<EncryptionKey>,
    /// The number of the client's first message.
    pub sequence_number: Option<IntegerAsn1>,
    /// What restricts the client further.
    pub authorization_data: Option<AuthorizationData>,
}

/// What a client presented: what is to be remembered of it, what is told where it is let in, and
/// the key of the service that opened the ticket.
#[derive(Drop)]
pub struct Presented<'k> {
    /// What is to be remembered.
    pub entry: Entry,
    /// What is told.
    pub accepted: Accepted,
    /// The key that opened the ticket.
    pub key: &'k ServiceKey,
}

/// What is remembered of the server, and the microseconds of the authenticator.
#[derive(Drop)]
pub(crate) struct Remembered {
    /// The server's realm.
    pub(crate) server_realm: Realm,
    /// The components of its name.
    pub(crate) server: Asn1SequenceOf<KerberosStringAsn1>,
    /// The microseconds of the client's time.
    pub(crate) microseconds: u32,
}

/// What is remembered of the server that a request is for.
pub(crate) fn remembered_of(
    alloc: Global,
    request: &RequestFields,
    microseconds: u32,
) -> Result<Remembered, AllocError>
    ensures realm { IfOk result (λ r. r.server_realm ≡ request.now.realm) }
    ensures server { IfOk result (λ r. r.server ≡ request.now.server.name_string) }
    ensures microseconds { IfOk result (λ r. r.microseconds ≡ microseconds) }
{
    let server_realm = copied(alloc, &request.realm)?;
    let server = copied(alloc, &request.server.name_string.0)?;
    Ok(Remembered {
        server_realm,
        server,
        microseconds,
    })
}

/// What is remembered of an authenticator, and what is told of it.
pub(crate) fn presented_of<'k>(
    key: &'k ServiceKey,
    request: RequestFields,
    ticket: TicketFields,
    authenticator: AuthenticatorFields,
    remembered: Remembered,
) -> Presented<'k>
    requires realm { remembered.server_realm ≡ request.realm }
    requires server { remembered.server ≡ request.server.name_string }
    ensures entry { result.entry ≡ entry_of request authenticator remembered.microseconds }
    ensures accepted { result.accepted ≡ accepted_of request ticket authenticator }
    ensures key { result.key.now ≡ key.now }
{
    let RequestFields {
        version: _,
        message_type: _,
        options,
        ticket_version: _,
        realm,
        server,
        ticket: sealed_ticket,
        authenticator: sealed_authenticator,
    } = request;
    drop(sealed_ticket);
    drop(sealed_authenticator);
    let AuthenticatorFields {
        version: _,
        realm: client_realm,
        client,
        checksum,
        cusec,
        ctime,
        subkey,
        sequence_number,
        authorization_data,
    } = authenticator;
    let Remembered {
        server_realm,
        server: components,
        microseconds,
    } = remembered;
    let entry = Entry {
        server_realm,
        server: components,
        client_realm,
        client: client.name_string.0,
        seconds: unix_seconds(&ctime),
        microseconds,
    };
    let accepted = Accepted {
        ticket,
        server_realm: realm,
        server,
        options,
        checksum,
        ctime,
        cusec,
        subkey,
        sequence_number,
        authorization_data,
    };
    Presented {
        entry,
        accepted,
        key,
    }
}

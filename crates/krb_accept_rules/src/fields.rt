//! The fields that rules read, without tags and wrappers.

use krb_der::IntegerAsn1;
use krb_types::data_types::{
    ApOptions, AuthorizationData, Checksum, EncryptedData, EncryptionKey, HostAddresses,
    KerberosFlags, KerberosTime, Microseconds, PrincipalName, Realm, TransitedEncoding,
};

/// What the rules read of an AP-REQ (RFC 4120, 5.5.1) and of the ticket in it (5.3).
#[derive(Drop)]
pub struct RequestFields {
    /// pvno.
    pub version: IntegerAsn1,
    /// msg-type.
    pub message_type: IntegerAsn1,
    /// ap-options.
    pub options: ApOptions,
    /// tkt-vno.
    pub ticket_version: IntegerAsn1,
    /// The server's realm.
    pub realm: Realm,
    /// The server's name.
    pub server: PrincipalName,
    /// The sealed part of the ticket.
    pub ticket: EncryptedData,
    /// The sealed authenticator.
    pub authenticator: EncryptedData,
}

/// What the sealed part of a ticket holds (RFC 4120, 5.3), but for renew-till.
#[derive(Drop)]
pub struct TicketFields {
    /// The flags of the ticket.
    pub flags: KerberosFlags,
    /// The session key.
    pub key: EncryptionKey,
    /// The client's realm.
    pub realm: Realm,
    /// The client's name.
    pub client: PrincipalName,
    /// The realms that took part in authenticating the client.
    pub transited: TransitedEncoding,
    /// When the client was authenticated.
    pub auth_time: KerberosTime,
    /// From when on the ticket is valid; where absent, from `auth_time` on.
    pub start_time: Option<KerberosTime>,
    /// Until when it is valid.
    pub end_time: KerberosTime,
    /// From which addresses it may be used.
    pub addresses: Option<HostAddresses>,
    /// What restricts or describes the client.
    pub authorization_data: Option<AuthorizationData>,
}

/// What an authenticator holds (RFC 4120, 5.5.1).
#[derive(Drop)]
pub struct AuthenticatorFields {
    /// authenticator-vno.
    pub version: IntegerAsn1,
    /// The client's realm.
    pub realm: Realm,
    /// The client's name.
    pub client: PrincipalName,
    /// The checksum of what goes along with the request.
    pub checksum: Option<Checksum>,
    /// The microseconds of the client's time.
    pub cusec: Microseconds,
    /// The client's time.
    pub ctime: KerberosTime,
    /// The key that the client chose.
    pub subkey: Option<EncryptionKey>,
    /// The number of the client's first message.
    pub sequence_number: Option<IntegerAsn1>,
    /// What restricts the client further.
    pub authorization_data: Option<AuthorizationData>,
}

//! Data types (RFC 4120, 5.2 to 5.8), and the record of a caller's integrity level (MS-KILE, 2.2.5).

pub use krb_messages::data_types::{
    ApOptions, Authenticator, AuthenticatorInner, AuthorizationData, AuthorizationDataInner,
    ChangePasswdData, Checksum, EncApRepPart, EncApRepPartInner, EncKrbCredPart,
    EncKrbCredPartInner, EncKrbPrivPart, EncKrbPrivPartInner, EncTicketPart, EncTicketPartInner,
    EncryptedData, EncryptionKey, EtypeInfo2, EtypeInfo2Entry, HostAddress, HostAddresses,
    KerbAdRestrictionEntry, KerbErrorData, KerbPaPacRequest, KerberosFlags, KerberosStringAsn1,
    KerberosTime, KrbCredInfo, KrbResult, LastReq, LastReqInner, Microseconds, PaData,
    PaEncTimestamp, PaEncTsEnc, PaPacOptions, PrincipalName, Realm, ResultExt, Ticket, TicketInner,
    TransitedEncoding,
};
pub use krb_types::lsap::{LsapTokenInfoIntegrity, MACHINE_ID_LENGTH};

//! Data types (RFC 4120, 5.2 to 5.8): those that messages share, those of pre-authentication, and the parts of messages that
//! are encrypted.

mod results;

pub use krb_enc_parts::data_types::{
    Authenticator, AuthenticatorInner, EncApRepPart, EncApRepPartInner, EncKrbCredPart,
    EncKrbCredPartInner, EncKrbPrivPart, EncKrbPrivPartInner, EncTicketPart, EncTicketPartInner,
    KrbCredInfo,
};
pub use krb_types::data_types::{
    ApOptions, AuthorizationData, AuthorizationDataInner, ChangePasswdData, Checksum,
    EncryptedData, EncryptionKey, EtypeInfo2, EtypeInfo2Entry, HostAddress, HostAddresses,
    KerbAdRestrictionEntry, KerbErrorData, KerbPaPacRequest, KerberosFlags, KerberosStringAsn1,
    KerberosTime, LastReq, LastReqInner, Microseconds, PaData, PaEncTimestamp, PaEncTsEnc,
    PaPacOptions, PrincipalName, Realm, Ticket, TicketInner, TransitedEncoding,
};
pub use results::{KrbResult, ResultExt};

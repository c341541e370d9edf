//! The types that messages and their parts share, by their names.

use crate::messages::row::{Attempt, Row};
use crate::messages::types::encoded::findings_of;
use krb_types::data_types::{
    ApOptions, AuthorizationData, AuthorizationDataInner, ChangePasswdData, Checksum,
    EncryptedData, EncryptionKey, HostAddress, HostAddresses, KerbAdRestrictionEntry,
    KerberosFlags, KerberosStringAsn1, KerberosTime, LastReq, LastReqInner, Microseconds,
    PrincipalName, Realm, Ticket, TicketInner, TransitedEncoding,
};

/// Reads the octets as a primitive type, a list or a sequence that holds one, or a sequence of primitive types, of this name, and returns the findings. `None` where no type
/// has the name.
pub fn try_shared(row: &Row<'_>) -> Attempt {
    Some(match row.name {
        "ApOptions" => findings_of::<ApOptions>(row),
        "KerberosFlags" => findings_of::<KerberosFlags>(row),
        "KerberosStringAsn1" => findings_of::<KerberosStringAsn1>(row),
        "KerberosTime" => findings_of::<KerberosTime>(row),
        "Microseconds" => findings_of::<Microseconds>(row),
        "Realm" => findings_of::<Realm>(row),
        "AuthorizationData" => findings_of::<AuthorizationData>(row),
        "ChangePasswdData" => findings_of::<ChangePasswdData>(row),
        "HostAddresses" => findings_of::<HostAddresses>(row),
        "LastReq" => findings_of::<LastReq>(row),
        "Ticket" => findings_of::<Ticket>(row),
        "TicketInner" => findings_of::<TicketInner>(row),
        _ => return try_sequence(row),
    })
}

/// Reads the octets as a sequence of these, of this name, and returns the findings.
fn try_sequence(row: &Row<'_>) -> Attempt {
    Some(match row.name {
        "AuthorizationDataInner" => findings_of::<AuthorizationDataInner>(row),
        "Checksum" => findings_of::<Checksum>(row),
        "EncryptedData" => findings_of::<EncryptedData>(row),
        "EncryptionKey" => findings_of::<EncryptionKey>(row),
        "HostAddress" => findings_of::<HostAddress>(row),
        "KerbAdRestrictionEntry" => findings_of::<KerbAdRestrictionEntry>(row),
        "LastReqInner" => findings_of::<LastReqInner>(row),
        "PrincipalName" => findings_of::<PrincipalName>(row),
        "TransitedEncoding" => findings_of::<TransitedEncoding>(row),
        _ => return None,
    })
}

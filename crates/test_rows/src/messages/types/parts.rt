//! The encrypted parts of tickets and messages, by their names.

use crate::messages::row::{Attempt, Row};
use crate::messages::types::encoded::findings_of;
use krb_enc_parts::data_types::{
    Authenticator, AuthenticatorInner, EncApRepPart, EncApRepPartInner, EncKrbCredPart,
    EncKrbCredPartInner, EncKrbPrivPart, EncKrbPrivPartInner, EncTicketPart, EncTicketPartInner,
    KrbCredInfo,
};

/// Reads the octets as a part, or as credentials in one, of this name, and returns the findings. `None` where no type has the name.
pub fn try_part(row: &Row<'_>) -> Attempt {
    Some(match row.name {
        "Authenticator" => findings_of::<Authenticator>(row),
        "AuthenticatorInner" => findings_of::<AuthenticatorInner>(row),
        "EncApRepPart" => findings_of::<EncApRepPart>(row),
        "EncApRepPartInner" => findings_of::<EncApRepPartInner>(row),
        "EncKrbPrivPart" => findings_of::<EncKrbPrivPart>(row),
        "EncKrbPrivPartInner" => findings_of::<EncKrbPrivPartInner>(row),
        "EncTicketPart" => findings_of::<EncTicketPart>(row),
        "EncTicketPartInner" => findings_of::<EncTicketPartInner>(row),
        "EncKrbCredPart" => findings_of::<EncKrbCredPart>(row),
        "EncKrbCredPartInner" => findings_of::<EncKrbCredPartInner>(row),
        "KrbCredInfo" => findings_of::<KrbCredInfo>(row),
        _ => return None,
    })
}

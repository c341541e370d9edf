//! Tokens of the GSS-API, by their names.

use crate::messages::row::{Attempt, Row};
use crate::messages::types::encoded::findings_of;
use krb_der::ExplicitContextTag0;
use krb_gss_tokens::gss_api::{
    ApplicationTag0, GssApiNegInit, KrbMessage, MechType, MechTypeList, NegTokenInit, NegTokenTarg,
    NegTokenTarg1,
};
use krb_messages::messages::{ApRep, ApReq, TgtReq};
use krb_types::data_types::{KerbPaPacRequest, PrincipalName};

/// Reads the octets as a message of SPNEGO, or a token with a message of Kerberos, of this name, and returns the findings. `None` where
/// no type has the name.
pub fn try_negotiation(row: &Row<'_>) -> Attempt {
    Some(match row.name {
        "ApplicationTag0<GssApiNegInit>" => findings_of::<ApplicationTag0<GssApiNegInit>>(row),
        "ExplicitContextTag0<NegTokenInit>" => findings_of::<ExplicitContextTag0<NegTokenInit>>(
            row,
        ),
        "GssApiNegInit" => findings_of::<GssApiNegInit>(row),
        "MechType" => findings_of::<MechType>(row),
        "MechTypeList" => findings_of::<MechTypeList>(row),
        "NegTokenInit" => findings_of::<NegTokenInit>(row),
        "NegTokenTarg" => findings_of::<NegTokenTarg>(row),
        "NegTokenTarg1" => findings_of::<NegTokenTarg1>(row),
        "ApplicationTag0<KrbMessage<ApRep>>" => findings_of::<ApplicationTag0<KrbMessage<ApRep>>>(
            row,
        ),
        "ApplicationTag0<KrbMessage<ApReq>>" => findings_of::<ApplicationTag0<KrbMessage<ApReq>>>(
            row,
        ),
        "ApplicationTag0<KrbMessage<TgtReq>>" => findings_of::<ApplicationTag0<KrbMessage<TgtReq>>>(
            row,
        ),
        "ApplicationTag0<PrincipalName>" => findings_of::<ApplicationTag0<PrincipalName>>(row),
        "KrbMessage<ApReq>" => findings_of::<KrbMessage<ApReq>>(row),
        "KrbMessage<KerbPaPacRequest>" => findings_of::<KrbMessage<KerbPaPacRequest>>(row),
        _ => return None,
    })
}

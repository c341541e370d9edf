//! Messages, by their names.

use crate::messages::row::{Attempt, Row};
use crate::messages::types::encoded::findings_of;
use krb_messages::messages::{
    ApMessage, ApRep, ApRepInner, ApReq, ApReqInner, AsRep, AsReq, EncAsRepPart, EncKdcRepPart,
    EncTgsRepPart, KdcProxyMessage, KdcRep, KdcReq, KdcReqBody, KrbCred, KrbCredInner, KrbError,
    KrbErrorInner, KrbPriv, KrbPrivInner, TgsRep, TgsReq, TgtRep, TgtReq,
};

/// Reads the octets as a message of this name, and returns the findings. `None` where no type has the name.
pub fn try_message(row: &Row<'_>) -> Attempt {
    Some(match row.name {
        "ApMessage" => findings_of::<ApMessage>(row),
        "ApRep" => findings_of::<ApRep>(row),
        "ApRepInner" => findings_of::<ApRepInner>(row),
        "ApReq" => findings_of::<ApReq>(row),
        "ApReqInner" => findings_of::<ApReqInner>(row),
        "KdcProxyMessage" => findings_of::<KdcProxyMessage>(row),
        "KrbCred" => findings_of::<KrbCred>(row),
        "KrbCredInner" => findings_of::<KrbCredInner>(row),
        "KrbError" => findings_of::<KrbError>(row),
        "KrbErrorInner" => findings_of::<KrbErrorInner>(row),
        "KrbPriv" => findings_of::<KrbPriv>(row),
        "KrbPrivInner" => findings_of::<KrbPrivInner>(row),
        "TgtRep" => findings_of::<TgtRep>(row),
        "TgtReq" => findings_of::<TgtReq>(row),
        _ => return try_request(row),
    })
}

/// Reads the octets as a request to a KDC, its reply, or the encrypted part of one, of this name, and returns the findings.
fn try_request(row: &Row<'_>) -> Attempt {
    Some(match row.name {
        "AsReq" => findings_of::<AsReq>(row),
        "KdcReq" => findings_of::<KdcReq>(row),
        "KdcReqBody" => findings_of::<KdcReqBody>(row),
        "TgsReq" => findings_of::<TgsReq>(row),
        "AsRep" => findings_of::<AsRep>(row),
        "EncAsRepPart" => findings_of::<EncAsRepPart>(row),
        "EncKdcRepPart" => findings_of::<EncKdcRepPart>(row),
        "EncTgsRepPart" => findings_of::<EncTgsRepPart>(row),
        "KdcRep" => findings_of::<KdcRep>(row),
        "TgsRep" => findings_of::<TgsRep>(row),
        _ => return None,
    })
}

//! The types of pre-authentication, by their names.

use crate::messages::row::{Attempt, Row};
use crate::messages::types::encoded::findings_of;
use krb_der::Asn1SequenceOf;
use krb_types::data_types::{
    EtypeInfo2, EtypeInfo2Entry, KerbErrorData, KerbPaPacRequest, PaData, PaEncTimestamp,
    PaEncTsEnc, PaPacOptions,
};

/// Reads the octets as a type of pre-authentication of this name, and returns the findings. `None` where no type has the name.
pub fn try_pre_authentication(row: &Row<'_>) -> Attempt {
    Some(match row.name {
        "EtypeInfo2" => findings_of::<EtypeInfo2>(row),
        "EtypeInfo2Entry" => findings_of::<EtypeInfo2Entry>(row),
        "KerbErrorData" => findings_of::<KerbErrorData>(row),
        "KerbPaPacRequest" => findings_of::<KerbPaPacRequest>(row),
        "PaData" => findings_of::<PaData>(row),
        "Asn1SequenceOf<PaData>" => findings_of::<Asn1SequenceOf<PaData>>(row),
        "PaEncTimestamp" => findings_of::<PaEncTimestamp>(row),
        "PaEncTsEnc" => findings_of::<PaEncTsEnc>(row),
        "PaPacOptions" => findings_of::<PaPacOptions>(row),
        _ => return None,
    })
}

//! The types of pre-authentication with certificates, by their names.

use crate::messages::row::{Attempt, Row};
use crate::messages::types::encoded::findings_of;
use krb_credssp::credssp::{
    TsCredentials, TsCspDataDetail, TsPasswordCreds, TsRemoteGuardCreds, TsRemoteGuardPackageCred,
    TsSmartCardCreds,
};
use krb_der::Asn1SequenceOf;
use krb_der_x509::{AlgorithmIdentifier, SubjectPublicKeyInfo};
use krb_pkinit::pkinit::{
    DhAuthPack, DhDomainParameters, DhNonce, DhRepInfo, DhReqInfo, DhReqKeyInfo, EcAuthPack,
    ExternalPrincipalIdentifier, KdcDhKeyInfo, KrbFinished, PaPkAsRep, PaPkAsReq, PkAuthenticator,
    Pku2uNegoBody, Pku2uNegoRep, Pku2uNegoReq, Pku2uNegoReqMetadata, ValidationParams,
};

/// Reads the octets as a client's type of PKINIT, an algorithm or a public key of this name, and returns the findings. `None` where no
/// type has the name.
pub fn try_certificate(row: &Row<'_>) -> Attempt {
    Some(match row.name {
        "DhAuthPack" => findings_of::<DhAuthPack>(row),
        "DhNonce" => findings_of::<DhNonce>(row),
        "EcAuthPack" => findings_of::<EcAuthPack>(row),
        "ExternalPrincipalIdentifier" => findings_of::<ExternalPrincipalIdentifier>(row),
        "PaPkAsReq" => findings_of::<PaPkAsReq>(row),
        "PkAuthenticator" => findings_of::<PkAuthenticator>(row),
        "AlgorithmIdentifier" => findings_of::<AlgorithmIdentifier>(row),
        "Asn1SequenceOf<AlgorithmIdentifier>" => findings_of::<Asn1SequenceOf<AlgorithmIdentifier>>(
            row,
        ),
        "DhDomainParameters" => findings_of::<DhDomainParameters>(row),
        "DhReqInfo" => findings_of::<DhReqInfo>(row),
        "DhReqKeyInfo" => findings_of::<DhReqKeyInfo>(row),
        "SubjectPublicKeyInfo" => findings_of::<SubjectPublicKeyInfo>(row),
        "ValidationParams" => findings_of::<ValidationParams>(row),
        _ => return try_pku2u(row),
    })
}

/// Reads the octets as a message of PKU2U, or a KDC's type of PKINIT, of this name, and returns the findings.
fn try_pku2u(row: &Row<'_>) -> Attempt {
    Some(match row.name {
        "KrbFinished" => findings_of::<KrbFinished>(row),
        "Pku2uNegoBody" => findings_of::<Pku2uNegoBody>(row),
        "Pku2uNegoRep" => findings_of::<Pku2uNegoRep>(row),
        "Pku2uNegoReq" => findings_of::<Pku2uNegoReq>(row),
        "Pku2uNegoReqMetadata" => findings_of::<Pku2uNegoReqMetadata>(row),
        "DhRepInfo" => findings_of::<DhRepInfo>(row),
        "KdcDhKeyInfo" => findings_of::<KdcDhKeyInfo>(row),
        "PaPkAsRep" => findings_of::<PaPkAsRep>(row),
        "TsCredentials" => findings_of::<TsCredentials>(row),
        "TsCspDataDetail" => findings_of::<TsCspDataDetail>(row),
        "TsPasswordCreds" => findings_of::<TsPasswordCreds>(row),
        "TsRemoteGuardCreds" => findings_of::<TsRemoteGuardCreds>(row),
        "TsRemoteGuardPackageCred" => findings_of::<TsRemoteGuardPackageCred>(row),
        "TsSmartCardCreds" => findings_of::<TsSmartCardCreds>(row),
        _ => return None,
    })
}

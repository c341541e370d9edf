//! The types of DER that this library reads (RFC 4120 and others), a row each. `docs/schema --write` writes this file from `kerberos.txt`.

ghost use Rattle.std.specs.Prelude.{◌≡◌, map};
ghost use Rattle.krb_schema.specs.Named.{IsKerberos};
ghost use Rattle.krb_schema.specs.Types.{types};

use crate::shape::{Case, Field, Leaf, Name, Role, Schema, Shape};
use krb_registry::Kind;

/// A field: its first octet, whether this is an explicit tag, whether it is optional, its name, its registry, its role and its row.
macro_rules! field {
    ($tag:expr, $wrapped:expr, $optional:expr, $text:expr, $registry:expr, $role:expr, $is:expr) => {
        Field {
            tag: $tag,
            wrapped: $wrapped,
            optional: $optional,
            name: Name {
                text: $text,
                registry: $registry,
                role: $role,
            },
            is: $is,
        }
    };
}

/// A field in an explicit tag.
macro_rules! tagged {
    ($tag:expr, $text:expr, $is:expr) => {
        field!(Some($tag), true, false, $text, None, Role::None, $is)
    };
    ($tag:expr, $text:expr, $is:expr, of $registry:expr) => {
        field!(
            Some($tag),
            true,
            false,
            $text,
            Some($registry),
            Role::None,
            $is
        )
    };
    ($tag:expr, $text:expr, $is:expr, as $role:expr) => {
        field!(Some($tag), true, false, $text, None, $role, $is)
    };
}

/// An optional field in an explicit tag.
macro_rules! tagged_optional {
    ($tag:expr, $text:expr, $is:expr) => {
        field!(Some($tag), true, true, $text, None, Role::None, $is)
    };
    ($tag:expr, $text:expr, $is:expr, of $registry:expr) => {
        field!(
            Some($tag),
            true,
            true,
            $text,
            Some($registry),
            Role::None,
            $is
        )
    };
    ($tag:expr, $text:expr, $is:expr, as $role:expr) => {
        field!(Some($tag), true, true, $text, None, $role, $is)
    };
}

/// A field that begins with the tag of its element.
macro_rules! bare {
    ($tag:expr, $text:expr, $is:expr) => {
        field!($tag, false, false, $text, None, Role::None, $is)
    };
}

/// An optional field that begins with the tag of its element.
macro_rules! bare_optional {
    ($tag:expr, $text:expr, $is:expr) => {
        field!($tag, false, true, $text, None, Role::None, $is)
    };
}

/// A case of an OCTET STRING: the number that the field before has to be, the row, and what it is called if not as the OCTET STRING.
macro_rules! case {
    ($is:expr) => {
        Case {
            behind: None,
            name: None,
            is: $is,
        }
    };
    ($number:expr, $is:expr) => {
        Case {
            behind: Some($number),
            name: None,
            is: $is,
        }
    };
    ($number:expr, $is:expr, called $text:expr) => {
        Case {
            behind: Some($number),
            name: Some(Name {
                text: $text,
                registry: None,
                role: Role::None,
            }),
            is: $is,
        }
    };
}

/// BOOLEAN (X.690, 8.2).
pub const BOOLEAN: usize = 0;
/// INTEGER (X.690, 8.3).
pub const INTEGER: usize = 1;
/// UInt32 (RFC 4120, 5.2.4).
pub const UINT32: usize = 2;
/// Microseconds: 0 to 999999 (RFC 4120, 5.2.4).
pub const MICROSECONDS: usize = 3;
/// BIT STRING (X.690, 8.6).
pub const BIT_STRING: usize = 4;
/// KerberosFlags (RFC 4120, 5.2.8).
pub const KERBEROS_FLAGS: usize = 5;
/// OCTET STRING (X.690, 8.7).
pub const OCTET_STRING: usize = 6;
/// OCTET STRING (secret): the octets of a key or a password, or those that KRB-PRIV keeps private (RFC 4120, 5.2.9 and 5.7).
pub const OCTET_STRING_SECRET: usize = 7;
/// OCTET STRING (cipher): a ciphertext (RFC 4120, 5.2.9).
pub const OCTET_STRING_CIPHER: usize = 8;
/// OBJECT IDENTIFIER (X.690, 8.19).
pub const OBJECT_IDENTIFIER: usize = 9;
/// KerberosTime (RFC 4120, 5.2.3).
pub const KERBEROS_TIME: usize = 10;
/// KerberosString (RFC 4120, 5.2.1).
pub const KERBEROS_STRING: usize = 11;
/// KerberosString (component): a component of a name (RFC 4120, 5.2.2).
pub const KERBEROS_STRING_COMPONENT: usize = 12;
/// ANY (X.690, 8.1).
pub const ANY: usize = 13;
/// Realm (RFC 4120, 5.2.2).
pub const REALM: usize = KERBEROS_STRING;
/// PrincipalName (RFC 4120, 5.2.2).
pub const PRINCIPAL_NAME: usize = 15;
/// HostAddress (RFC 4120, 5.2.5).
pub const HOST_ADDRESS: usize = 16;
/// HostAddresses: it should not be empty (RFC 4120, 5.2.5).
pub const HOST_ADDRESSES: usize = 17;
/// AuthorizationData: it should not be empty (RFC 4120, 5.2.6).
pub const AUTHORIZATION_DATA: usize = 20;
/// AD-IF-RELEVANT (inner): within another element; data of its own elements stay octets (RFC 4120, 5.2.6.1).
pub const AD_IF_RELEVANT_INNER: usize = 22;
/// EncryptedData (RFC 4120, 5.2.9).
pub const ENCRYPTED_DATA: usize = 23;
/// EncryptionKey (RFC 4120, 5.2.9).
pub const ENCRYPTION_KEY: usize = 24;
/// Checksum (RFC 4120, 5.2.9).
pub const CHECKSUM: usize = 25;
/// Ticket (RFC 4120, 5.3).
pub const TICKET: usize = 28;
/// EncTicketPart (RFC 4120, 5.3).
pub const ENC_TICKET_PART: usize = 30;
/// TransitedEncoding (RFC 4120, 5.3).
pub const TRANSITED_ENCODING: usize = 31;
/// PA-DATA (RFC 4120, 5.2.7; RFC 4556, 3.2; MS-KILE, 2.2.3 and 2.2.10 to 2.2.12).
pub const PA_DATA: usize = 33;
/// METHOD-DATA (RFC 4120, 5.9.1).
pub const METHOD_DATA: usize = 34;
/// PA-ENC-TS-ENC (RFC 4120, 5.2.7.2).
pub const PA_ENC_TS_ENC: usize = 35;
/// ETYPE-INFO2-ENTRY (RFC 4120, 5.2.7.5).
pub const ETYPE_INFO2_ENTRY: usize = 36;
/// ETYPE-INFO2 (RFC 4120, 5.2.7.5).
pub const ETYPE_INFO2: usize = 37;
/// KERB-PA-PAC-REQUEST (MS-KILE, 2.2.3).
pub const KERB_PA_PAC_REQUEST: usize = 38;
/// PA-PAC-OPTIONS (MS-KILE, 2.2.10).
pub const PA_PAC_OPTIONS: usize = 39;
/// KERB-KEY-LIST-REQ: encryption types of the keys that are asked for (MS-KILE, 2.2.11).
pub const KERB_KEY_LIST_REQ: usize = 40;
/// KERB-KEY-LIST-REP: keys of the client (MS-KILE, 2.2.12).
pub const KERB_KEY_LIST_REP: usize = 41;
/// AS-REQ (RFC 4120, 5.4.1).
pub const AS_REQ: usize = 42;
/// TGS-REQ (RFC 4120, 5.4.1).
pub const TGS_REQ: usize = 43;
/// KDC-REQ (AS): the request of an AS exchange (RFC 4120, 5.4.1).
pub const KDC_REQ_AS: usize = 46;
/// KDC-REQ (TGS): the request of a TGS exchange (RFC 4120, 5.4.1).
pub const KDC_REQ_TGS: usize = 48;
/// KDC-REQ-BODY (RFC 4120, 5.4.1).
pub const KDC_REQ_BODY: usize = 51;
/// AS-REP (RFC 4120, 5.4.2).
pub const AS_REP: usize = 52;
/// TGS-REP (RFC 4120, 5.4.2).
pub const TGS_REP: usize = 53;
/// KDC-REP (AS): the reply of an AS exchange (RFC 4120, 5.4.2).
pub const KDC_REP_AS: usize = 55;
/// KDC-REP (TGS): the reply of a TGS exchange (RFC 4120, 5.4.2).
pub const KDC_REP_TGS: usize = 57;
/// EncASRepPart (RFC 4120, 5.4.2).
pub const ENC_AS_REP_PART: usize = 58;
/// EncTGSRepPart (RFC 4120, 5.4.2).
pub const ENC_TGS_REP_PART: usize = 59;
/// EncKDCRepPart (RFC 4120, 5.4.2; RFC 6806, 11).
pub const ENC_KDC_REP_PART: usize = 60;
/// LastReq (RFC 4120, 5.4.2).
pub const LAST_REQ: usize = 62;
/// AP-REQ (RFC 4120, 5.5.1).
pub const AP_REQ: usize = 65;
/// Authenticator (RFC 4120, 5.5.1).
pub const AUTHENTICATOR: usize = 67;
/// AP-REP (RFC 4120, 5.5.2).
pub const AP_REP: usize = 70;
/// EncAPRepPart (RFC 4120, 5.5.2).
pub const ENC_AP_REP_PART: usize = 72;
/// KRB-PRIV (RFC 4120, 5.7.1).
pub const KRB_PRIV: usize = 75;
/// EncKrbPrivPart (RFC 4120, 5.7.1).
pub const ENC_KRB_PRIV_PART: usize = 77;
/// KRB-CRED (RFC 4120, 5.8.1).
pub const KRB_CRED: usize = 80;
/// EncKrbCredPart (RFC 4120, 5.8.1).
pub const ENC_KRB_CRED_PART: usize = 83;
/// KrbCredInfo (RFC 4120, 5.8.1).
pub const KRB_CRED_INFO: usize = 84;
/// KRB-ERROR (RFC 4120, 5.9.1; MS-KILE, 2.2.1).
pub const KRB_ERROR: usize = 88;
/// KERB-ERROR-DATA (MS-KILE, 2.2.2).
pub const KERB_ERROR_DATA: usize = 89;
/// KERB-AD-RESTRICTION-ENTRY (MS-KILE, 2.2.6).
pub const KERB_AD_RESTRICTION_ENTRY: usize = 90;
/// ChangePasswdData (RFC 3244, 2).
pub const CHANGE_PASSWD_DATA: usize = 91;
/// TGT-REQ (draft-swift-win2k-krb-user2user-03, 6).
pub const TGT_REQ: usize = 93;
/// TGT-REP (draft-swift-win2k-krb-user2user-03, 6).
pub const TGT_REP: usize = 95;
/// KDC-PROXY-MESSAGE (MS-KKDCP, 2.2.2).
pub const KDC_PROXY_MESSAGE: usize = 96;
/// PKU2U-NEGO-REQ-METADATA (no published standard).
pub const PKU2U_NEGO_REQ_METADATA: usize = 98;
/// PKU2U-NEGO-BODY (no published standard).
pub const PKU2U_NEGO_BODY: usize = 99;
/// PKU2U-NEGO-REQ (no published standard).
pub const PKU2U_NEGO_REQ: usize = 101;
/// PKU2U-NEGO-REP (no published standard).
pub const PKU2U_NEGO_REP: usize = 102;
/// KRB-FINISHED (draft-zhu-pku2u-04, 6).
pub const KRB_FINISHED: usize = 103;
/// PA-PK-AS-REQ (RFC 4556, 3.2.1).
pub const PA_PK_AS_REQ: usize = 106;
/// ExternalPrincipalIdentifier (RFC 4556, 3.2.1).
pub const EXTERNAL_PRINCIPAL_IDENTIFIER: usize = 108;
/// DHAuthPack: AuthPack with a Diffie-Hellman key (RFC 4556, 3.2.1).
pub const DH_AUTH_PACK: usize = 110;
/// ECAuthPack: AuthPack with a public key of any algorithm (RFC 5349, 4).
pub const EC_AUTH_PACK: usize = 111;
/// PKAuthenticator (RFC 4556, 3.2.1).
pub const PK_AUTHENTICATOR: usize = 112;
/// PA-PK-AS-REP (dhInfo): the first alternative of the CHOICE (RFC 4556, 3.2.3).
pub const PA_PK_AS_REP_DH_INFO: usize = 113;
/// PA-PK-AS-REP (encKeyPack): the second alternative of the CHOICE (RFC 4556, 3.2.3).
pub const PA_PK_AS_REP_ENC_KEY_PACK: usize = 114;
/// DHRepInfo (RFC 4556, 3.2.3).
pub const DH_REP_INFO: usize = 115;
/// KDCDHKeyInfo (RFC 4556, 3.2.3).
pub const KDC_DH_KEY_INFO: usize = 116;
/// AlgorithmIdentifier (RFC 5280, 4.1.1.2).
pub const ALGORITHM_IDENTIFIER: usize = 117;
/// SubjectPublicKeyInfo (RFC 5280, 4.1.2.7).
pub const SUBJECT_PUBLIC_KEY_INFO: usize = 118;
/// DHSubjectPublicKeyInfo (RFC 4556, 3.2.1; RFC 3279, 2.3.3).
pub const DH_SUBJECT_PUBLIC_KEY_INFO: usize = 120;
/// DomainParameters (RFC 3279, 2.3.3).
pub const DOMAIN_PARAMETERS: usize = 121;
/// ValidationParms (RFC 3279, 2.3.3).
pub const VALIDATION_PARMS: usize = 122;
/// TSCredentials (MS-CSSP, 2.2.1.2).
pub const TS_CREDENTIALS: usize = 124;
/// TSPasswordCreds (MS-CSSP, 2.2.1.2.1).
pub const TS_PASSWORD_CREDS: usize = 125;
/// TSSmartCardCreds (MS-CSSP, 2.2.1.2.2).
pub const TS_SMART_CARD_CREDS: usize = 126;
/// TSCspDataDetail (MS-CSSP, 2.2.1.2.2.1).
pub const TS_CSP_DATA_DETAIL: usize = 127;
/// TSRemoteGuardCreds (MS-CSSP, 2.2.1.2.3).
pub const TS_REMOTE_GUARD_CREDS: usize = 129;
/// TSRemoteGuardPackageCred (MS-CSSP, 2.2.1.2.3.1).
pub const TS_REMOTE_GUARD_PACKAGE_CRED: usize = 130;
/// NegotiationToken (negTokenInit): the first alternative of the CHOICE (RFC 4178, 4.2).
pub const NEGOTIATION_TOKEN_NEG_TOKEN_INIT: usize = 131;
/// NegotiationToken (negTokenResp): the second alternative of the CHOICE (RFC 4178, 4.2).
pub const NEGOTIATION_TOKEN_NEG_TOKEN_RESP: usize = 132;
/// NegTokenInit (RFC 4178, 4.2.1).
pub const NEG_TOKEN_INIT: usize = 135;
/// ContextFlags (RFC 4178, 4.2.1).
pub const CONTEXT_FLAGS: usize = 136;
/// NegTokenResp (RFC 4178, 4.2.2).
pub const NEG_TOKEN_RESP: usize = 138;
/// AD-IF-RELEVANT: also AD-MANDATORY-FOR-KDC, and what an AD-KDCIssued, an AD-AND-OR and an AD-CAMMAC hold (RFC 4120, 5.2.6.1 and 5.2.6.4).
pub const AD_IF_RELEVANT: usize = 141;
/// AD-KDCIssued (RFC 4120, 5.2.6.2).
pub const AD_KDC_ISSUED: usize = 142;
/// AD-AND-OR (RFC 4120, 5.2.6.3).
pub const AD_AND_OR: usize = 143;
/// AD-CAMMAC: a Verifier is not read (RFC 7751, 3).
pub const AD_CAMMAC: usize = 145;
/// Verifier-MAC (RFC 7751, 3).
pub const VERIFIER_MAC: usize = 146;
/// AD-KDCIssued (inner): within another element (RFC 4120, 5.2.6.2).
pub const AD_KDC_ISSUED_INNER: usize = 147;
/// AD-AND-OR (inner): within another element (RFC 4120, 5.2.6.3).
pub const AD_AND_OR_INNER: usize = 148;
/// AD-CAMMAC (inner): within another element (RFC 7751, 3).
pub const AD_CAMMAC_INNER: usize = 149;
/// SEQUENCE OF KerberosString (component).
const SEQUENCE_OF_KERBEROS_STRING_COMPONENT: usize = 14;
/// Within AuthorizationData.
const AUTHORIZATION_DATA_ELEMENT_AD_DATA: usize = 18;
/// Within AuthorizationData.
const AUTHORIZATION_DATA_ELEMENT: usize = 19;
/// Within AD-IF-RELEVANT (inner).
const AD_IF_RELEVANT_INNER_ELEMENT: usize = 21;
/// INTEGER (5).
const INTEGER_5: usize = 26;
/// Within Ticket.
const TICKET_CONTENT: usize = 27;
/// Within EncTicketPart.
const ENC_TICKET_PART_CONTENT: usize = 29;
/// Within PA-DATA.
const PA_DATA_PADATA_VALUE: usize = 32;
/// INTEGER (10).
const INTEGER_10: usize = 44;
/// SEQUENCE OF PA-DATA.
const SEQUENCE_OF_PA_DATA: usize = 45;
/// INTEGER (12).
const INTEGER_12: usize = 47;
/// SEQUENCE OF INTEGER.
const SEQUENCE_OF_INTEGER: usize = 49;
/// SEQUENCE OF Ticket.
const SEQUENCE_OF_TICKET: usize = 50;
/// INTEGER (11).
const INTEGER_11: usize = 54;
/// INTEGER (13).
const INTEGER_13: usize = 56;
/// Within LastReq.
const LAST_REQ_ELEMENT: usize = 61;
/// INTEGER (14).
const INTEGER_14: usize = 63;
/// Within AP-REQ.
const AP_REQ_CONTENT: usize = 64;
/// Within Authenticator.
const AUTHENTICATOR_CONTENT: usize = 66;
/// INTEGER (15).
const INTEGER_15: usize = 68;
/// Within AP-REP.
const AP_REP_CONTENT: usize = 69;
/// Within EncAPRepPart.
const ENC_AP_REP_PART_CONTENT: usize = 71;
/// INTEGER (21).
const INTEGER_21: usize = 73;
/// Within KRB-PRIV.
const KRB_PRIV_CONTENT: usize = 74;
/// Within EncKrbPrivPart.
const ENC_KRB_PRIV_PART_CONTENT: usize = 76;
/// INTEGER (22).
const INTEGER_22: usize = 78;
/// Within KRB-CRED.
const KRB_CRED_CONTENT: usize = 79;
/// SEQUENCE OF KrbCredInfo.
const SEQUENCE_OF_KRB_CRED_INFO: usize = 81;
/// Within EncKrbCredPart.
const ENC_KRB_CRED_PART_CONTENT: usize = 82;
/// INTEGER (30).
const INTEGER_30: usize = 85;
/// Within KRB-ERROR.
const KRB_ERROR_CONTENT_E_DATA: usize = 86;
/// Within KRB-ERROR.
const KRB_ERROR_CONTENT: usize = 87;
/// INTEGER (16).
const INTEGER_16: usize = 92;
/// INTEGER (17).
const INTEGER_17: usize = 94;
/// [0] IMPLICIT OCTET STRING.
const IMPLICIT_0_OCTET_STRING: usize = 97;
/// SEQUENCE OF PKU2U-NEGO-REQ-METADATA.
const SEQUENCE_OF_PKU2U_NEGO_REQ_METADATA: usize = 100;
/// SEQUENCE OF ExternalPrincipalIdentifier.
const SEQUENCE_OF_EXTERNAL_PRINCIPAL_IDENTIFIER: usize = 104;
/// [2] IMPLICIT OCTET STRING.
const IMPLICIT_2_OCTET_STRING: usize = 105;
/// [1] IMPLICIT OCTET STRING.
const IMPLICIT_1_OCTET_STRING: usize = 107;
/// SEQUENCE OF AlgorithmIdentifier.
const SEQUENCE_OF_ALGORITHM_IDENTIFIER: usize = 109;
/// Within DHSubjectPublicKeyInfo.
const DH_SUBJECT_PUBLIC_KEY_INFO_ALGORITHM: usize = 119;
/// Within TSCredentials.
const TS_CREDENTIALS_CREDENTIALS: usize = 123;
/// SEQUENCE OF TSRemoteGuardPackageCred.
const SEQUENCE_OF_TS_REMOTE_GUARD_PACKAGE_CRED: usize = 128;
/// SEQUENCE OF OBJECT IDENTIFIER.
const SEQUENCE_OF_OBJECT_IDENTIFIER: usize = 133;
/// Within NegTokenInit.
const NEG_TOKEN_INIT_MECH_TOKEN: usize = 134;
/// Within NegTokenResp.
const NEG_TOKEN_RESP_RESPONSE_TOKEN: usize = 137;
/// Within AD-IF-RELEVANT.
const AD_IF_RELEVANT_ELEMENT_AD_DATA: usize = 139;
/// Within AD-IF-RELEVANT.
const AD_IF_RELEVANT_ELEMENT: usize = 140;
/// SEQUENCE OF ANY.
const SEQUENCE_OF_ANY: usize = 144;

static FIELDS: [Field; 267] = [
    // PRINCIPAL_NAME
    tagged!(0xa0, "name-type", INTEGER, of Kind::NameType),
    tagged!(0xa1, "name-string", SEQUENCE_OF_KERBEROS_STRING_COMPONENT),
    // HOST_ADDRESS
    tagged!(0xa0, "addr-type", INTEGER, of Kind::AddressType),
    tagged!(0xa1, "address", OCTET_STRING),
    // AUTHORIZATION_DATA_ELEMENT
    tagged!(0xa0, "ad-type", INTEGER, of Kind::AuthorizationDataType),
    tagged!(
        0xa1,
        "ad-data",
        AUTHORIZATION_DATA_ELEMENT_AD_DATA,
        as Role::AuthorizationData
    ),
    // AD_IF_RELEVANT_INNER_ELEMENT
    tagged!(0xa0, "ad-type", INTEGER, of Kind::AuthorizationDataType),
    tagged!(0xa1, "ad-data", OCTET_STRING, as Role::AuthorizationData),
    // ENCRYPTED_DATA
    tagged!(0xa0, "etype", INTEGER, of Kind::EncryptionType),
    tagged_optional!(0xa1, "kvno", INTEGER),
    tagged!(0xa2, "cipher", OCTET_STRING_CIPHER),
    // ENCRYPTION_KEY
    tagged!(0xa0, "keytype", INTEGER, of Kind::EncryptionType),
    tagged!(0xa1, "keyvalue", OCTET_STRING_SECRET, as Role::Key),
    // CHECKSUM
    tagged!(0xa0, "cksumtype", INTEGER, of Kind::ChecksumType),
    tagged!(0xa1, "checksum", OCTET_STRING, as Role::Checksum),
    // TICKET_CONTENT
    tagged!(0xa0, "tkt-vno", INTEGER_5),
    tagged!(0xa1, "realm", REALM, as Role::ServerRealm),
    tagged!(0xa2, "sname", PRINCIPAL_NAME, as Role::ServerName),
    tagged!(0xa3, "enc-part", ENCRYPTED_DATA, as Role::EncTicketPart),
    // ENC_TICKET_PART_CONTENT
    tagged!(0xa0, "flags", KERBEROS_FLAGS, of Kind::TicketFlag),
    tagged!(0xa1, "key", ENCRYPTION_KEY),
    tagged!(0xa2, "crealm", REALM, as Role::ClientRealm),
    tagged!(0xa3, "cname", PRINCIPAL_NAME, as Role::ClientName),
    tagged!(0xa4, "transited", TRANSITED_ENCODING),
    tagged!(0xa5, "authtime", KERBEROS_TIME),
    tagged_optional!(0xa6, "starttime", KERBEROS_TIME),
    tagged!(0xa7, "endtime", KERBEROS_TIME),
    tagged_optional!(0xa8, "renew-till", KERBEROS_TIME),
    tagged_optional!(0xa9, "caddr", HOST_ADDRESSES),
    tagged_optional!(0xaa, "authorization-data", AUTHORIZATION_DATA),
    // TRANSITED_ENCODING
    tagged!(0xa0, "tr-type", INTEGER, of Kind::TransitedEncodingType),
    tagged!(0xa1, "contents", OCTET_STRING),
    // PA_DATA
    tagged!(0xa1, "padata-type", INTEGER, of Kind::PaDataType),
    tagged!(
        0xa2,
        "padata-value",
        PA_DATA_PADATA_VALUE,
        as Role::PaEncTsEnc
    ),
    // PA_ENC_TS_ENC
    tagged!(0xa0, "patimestamp", KERBEROS_TIME),
    tagged_optional!(0xa1, "pausec", MICROSECONDS),
    // ETYPE_INFO2_ENTRY
    tagged!(0xa0, "etype", INTEGER, of Kind::EncryptionType),
    tagged_optional!(0xa1, "salt", KERBEROS_STRING, as Role::Salt),
    tagged_optional!(0xa2, "s2kparams", OCTET_STRING),
    // KERB_PA_PAC_REQUEST
    tagged!(0xa0, "include-pac", BOOLEAN),
    // PA_PAC_OPTIONS
    tagged!(0xa0, "flags", KERBEROS_FLAGS),
    // KDC_REQ_AS
    tagged!(0xa1, "pvno", INTEGER_5),
    tagged!(0xa2, "msg-type", INTEGER_10, of Kind::MessageType),
    tagged_optional!(0xa3, "padata", SEQUENCE_OF_PA_DATA),
    tagged!(0xa4, "req-body", KDC_REQ_BODY),
    // KDC_REQ_TGS
    tagged!(0xa1, "pvno", INTEGER_5),
    tagged!(0xa2, "msg-type", INTEGER_12, of Kind::MessageType),
    tagged_optional!(0xa3, "padata", SEQUENCE_OF_PA_DATA),
    tagged!(0xa4, "req-body", KDC_REQ_BODY),
    // KDC_REQ_BODY
    tagged!(0xa0, "kdc-options", KERBEROS_FLAGS, of Kind::KdcOption),
    tagged_optional!(0xa1, "cname", PRINCIPAL_NAME, as Role::ClientName),
    tagged!(0xa2, "realm", REALM, as Role::ServerRealm),
    tagged_optional!(0xa3, "sname", PRINCIPAL_NAME, as Role::ServerName),
    tagged_optional!(0xa4, "from", KERBEROS_TIME),
    tagged!(0xa5, "till", KERBEROS_TIME),
    tagged_optional!(0xa6, "rtime", KERBEROS_TIME),
    tagged!(0xa7, "nonce", INTEGER),
    tagged!(0xa8, "etype", SEQUENCE_OF_INTEGER, of Kind::EncryptionType),
    tagged_optional!(0xa9, "addresses", HOST_ADDRESSES),
    tagged_optional!(
        0xaa,
        "enc-authorization-data",
        ENCRYPTED_DATA,
        as Role::RequestAuthorizationData
    ),
    tagged_optional!(0xab, "additional-tickets", SEQUENCE_OF_TICKET),
    // KDC_REP_AS
    tagged!(0xa0, "pvno", INTEGER_5),
    tagged!(0xa1, "msg-type", INTEGER_11, of Kind::MessageType),
    tagged_optional!(0xa2, "padata", SEQUENCE_OF_PA_DATA),
    tagged!(0xa3, "crealm", REALM, as Role::ClientRealm),
    tagged!(0xa4, "cname", PRINCIPAL_NAME, as Role::ClientName),
    tagged!(0xa5, "ticket", TICKET),
    tagged!(0xa6, "enc-part", ENCRYPTED_DATA, as Role::EncAsRepPart),
    // KDC_REP_TGS
    tagged!(0xa0, "pvno", INTEGER_5),
    tagged!(0xa1, "msg-type", INTEGER_13, of Kind::MessageType),
    tagged_optional!(0xa2, "padata", SEQUENCE_OF_PA_DATA),
    tagged!(0xa3, "crealm", REALM, as Role::ClientRealm),
    tagged!(0xa4, "cname", PRINCIPAL_NAME, as Role::ClientName),
    tagged!(0xa5, "ticket", TICKET),
    tagged!(0xa6, "enc-part", ENCRYPTED_DATA, as Role::EncTgsRepPart),
    // ENC_KDC_REP_PART
    tagged!(0xa0, "key", ENCRYPTION_KEY),
    tagged!(0xa1, "last-req", LAST_REQ),
    tagged!(0xa2, "nonce", INTEGER),
    tagged_optional!(0xa3, "key-expiration", KERBEROS_TIME),
    tagged!(0xa4, "flags", KERBEROS_FLAGS, of Kind::TicketFlag),
    tagged!(0xa5, "authtime", KERBEROS_TIME),
    tagged_optional!(0xa6, "starttime", KERBEROS_TIME),
    tagged!(0xa7, "endtime", KERBEROS_TIME),
    tagged_optional!(0xa8, "renew-till", KERBEROS_TIME),
    tagged!(0xa9, "srealm", REALM),
    tagged!(0xaa, "sname", PRINCIPAL_NAME),
    tagged_optional!(0xab, "caddr", HOST_ADDRESSES),
    tagged_optional!(0xac, "encrypted-pa-data", SEQUENCE_OF_PA_DATA),
    // LAST_REQ_ELEMENT
    tagged!(0xa0, "lr-type", INTEGER, of Kind::LastRequestType),
    tagged!(0xa1, "lr-value", KERBEROS_TIME),
    // AP_REQ_CONTENT
    tagged!(0xa0, "pvno", INTEGER_5),
    tagged!(0xa1, "msg-type", INTEGER_14, of Kind::MessageType),
    tagged!(0xa2, "ap-options", KERBEROS_FLAGS, of Kind::ApOption),
    tagged!(0xa3, "ticket", TICKET),
    tagged!(
        0xa4,
        "authenticator",
        ENCRYPTED_DATA,
        as Role::Authenticator
    ),
    // AUTHENTICATOR_CONTENT
    tagged!(0xa0, "authenticator-vno", INTEGER_5),
    tagged!(0xa1, "crealm", REALM, as Role::ClientRealm),
    tagged!(0xa2, "cname", PRINCIPAL_NAME, as Role::ClientName),
    tagged_optional!(0xa3, "cksum", CHECKSUM),
    tagged!(0xa4, "cusec", MICROSECONDS),
    tagged!(0xa5, "ctime", KERBEROS_TIME),
    tagged_optional!(0xa6, "subkey", ENCRYPTION_KEY),
    tagged_optional!(0xa7, "seq-number", INTEGER),
    tagged_optional!(0xa8, "authorization-data", AUTHORIZATION_DATA),
    // AP_REP_CONTENT
    tagged!(0xa0, "pvno", INTEGER_5),
    tagged!(0xa1, "msg-type", INTEGER_15, of Kind::MessageType),
    tagged!(0xa2, "enc-part", ENCRYPTED_DATA, as Role::EncApRepPart),
    // ENC_AP_REP_PART_CONTENT
    tagged!(0xa0, "ctime", KERBEROS_TIME),
    tagged!(0xa1, "cusec", MICROSECONDS),
    tagged_optional!(0xa2, "subkey", ENCRYPTION_KEY),
    tagged_optional!(0xa3, "seq-number", INTEGER),
    // KRB_PRIV_CONTENT
    tagged!(0xa0, "pvno", INTEGER_5),
    tagged!(0xa1, "msg-type", INTEGER_21, of Kind::MessageType),
    tagged!(0xa3, "enc-part", ENCRYPTED_DATA, as Role::EncKrbPrivPart),
    // ENC_KRB_PRIV_PART_CONTENT
    tagged!(0xa0, "user-data", OCTET_STRING_SECRET),
    tagged_optional!(0xa1, "timestamp", KERBEROS_TIME),
    tagged_optional!(0xa2, "usec", MICROSECONDS),
    tagged_optional!(0xa3, "seq-number", INTEGER),
    tagged!(0xa4, "s-address", HOST_ADDRESS),
    tagged_optional!(0xa5, "r-address", HOST_ADDRESS),
    // KRB_CRED_CONTENT
    tagged!(0xa0, "pvno", INTEGER_5),
    tagged!(0xa1, "msg-type", INTEGER_22, of Kind::MessageType),
    tagged!(0xa2, "tickets", SEQUENCE_OF_TICKET),
    tagged!(0xa3, "enc-part", ENCRYPTED_DATA, as Role::EncKrbCredPart),
    // ENC_KRB_CRED_PART_CONTENT
    tagged!(0xa0, "ticket-info", SEQUENCE_OF_KRB_CRED_INFO),
    tagged_optional!(0xa1, "nonce", INTEGER),
    tagged_optional!(0xa2, "timestamp", KERBEROS_TIME),
    tagged_optional!(0xa3, "usec", MICROSECONDS),
    tagged_optional!(0xa4, "s-address", HOST_ADDRESS),
    tagged_optional!(0xa5, "r-address", HOST_ADDRESS),
    // KRB_CRED_INFO
    tagged!(0xa0, "key", ENCRYPTION_KEY),
    tagged_optional!(0xa1, "prealm", REALM),
    tagged_optional!(0xa2, "pname", PRINCIPAL_NAME),
    tagged_optional!(0xa3, "flags", KERBEROS_FLAGS, of Kind::TicketFlag),
    tagged_optional!(0xa4, "authtime", KERBEROS_TIME),
    tagged_optional!(0xa5, "starttime", KERBEROS_TIME),
    tagged_optional!(0xa6, "endtime", KERBEROS_TIME),
    tagged_optional!(0xa7, "renew-till", KERBEROS_TIME),
    tagged_optional!(0xa8, "srealm", REALM),
    tagged_optional!(0xa9, "sname", PRINCIPAL_NAME),
    tagged_optional!(0xaa, "caddr", HOST_ADDRESSES),
    // KRB_ERROR_CONTENT
    tagged!(0xa0, "pvno", INTEGER_5),
    tagged!(0xa1, "msg-type", INTEGER_30, of Kind::MessageType),
    tagged_optional!(0xa2, "ctime", KERBEROS_TIME),
    tagged_optional!(0xa3, "cusec", MICROSECONDS),
    tagged!(0xa4, "stime", KERBEROS_TIME),
    tagged!(0xa5, "susec", MICROSECONDS),
    tagged!(0xa6, "error-code", UINT32, of Kind::ErrorCode),
    tagged_optional!(0xa7, "crealm", REALM, as Role::ClientRealm),
    tagged_optional!(0xa8, "cname", PRINCIPAL_NAME, as Role::ClientName),
    tagged!(0xa9, "realm", REALM, as Role::ServerRealm),
    tagged!(0xaa, "sname", PRINCIPAL_NAME, as Role::ServerName),
    tagged_optional!(0xab, "e-text", KERBEROS_STRING),
    tagged_optional!(0xac, "e-data", KRB_ERROR_CONTENT_E_DATA),
    // KERB_ERROR_DATA
    tagged!(0xa1, "data-type", INTEGER),
    tagged_optional!(0xa2, "data-value", OCTET_STRING),
    // KERB_AD_RESTRICTION_ENTRY
    tagged!(0xa0, "restriction-type", INTEGER),
    tagged!(0xa1, "restriction", OCTET_STRING),
    // CHANGE_PASSWD_DATA
    tagged!(0xa0, "newpasswd", OCTET_STRING_SECRET),
    tagged_optional!(0xa1, "targname", PRINCIPAL_NAME),
    tagged_optional!(0xa2, "targrealm", REALM),
    // TGT_REQ
    tagged!(0xa0, "pvno", INTEGER_5),
    tagged!(0xa1, "msg-type", INTEGER_16, of Kind::MessageType),
    tagged!(0xa2, "server-name", PRINCIPAL_NAME),
    // TGT_REP
    tagged!(0xa0, "pvno", INTEGER_5),
    tagged!(0xa1, "msg-type", INTEGER_17, of Kind::MessageType),
    tagged!(0xa2, "ticket", TICKET),
    // KDC_PROXY_MESSAGE
    tagged!(0xa0, "kerb-message", OCTET_STRING, as Role::PrefixedMessage),
    tagged_optional!(0xa1, "target-domain", KERBEROS_STRING),
    tagged_optional!(0xa2, "dclocator-hint", INTEGER),
    // PKU2U_NEGO_REQ_METADATA
    bare!(Some(0x80), "inner", IMPLICIT_0_OCTET_STRING),
    // PKU2U_NEGO_BODY
    tagged!(0xa0, "realm", REALM, as Role::ServerRealm),
    tagged!(0xa1, "sname", PRINCIPAL_NAME, as Role::ServerName),
    // PKU2U_NEGO_REQ
    tagged!(0xa0, "metadata", SEQUENCE_OF_PKU2U_NEGO_REQ_METADATA),
    tagged!(0xa1, "body", PKU2U_NEGO_BODY),
    // PKU2U_NEGO_REP
    tagged!(0xa0, "metadata", SEQUENCE_OF_PKU2U_NEGO_REQ_METADATA),
    // KRB_FINISHED
    tagged!(0xa1, "gss-mic", CHECKSUM),
    // PA_PK_AS_REQ
    bare!(Some(0x80), "signedAuthPack", IMPLICIT_0_OCTET_STRING),
    tagged_optional!(
        0xa1,
        "trustedCertifiers",
        SEQUENCE_OF_EXTERNAL_PRINCIPAL_IDENTIFIER
    ),
    bare_optional!(Some(0x82), "kdcPkId", IMPLICIT_2_OCTET_STRING),
    // EXTERNAL_PRINCIPAL_IDENTIFIER
    bare_optional!(Some(0x80), "subjectName", IMPLICIT_0_OCTET_STRING),
    bare_optional!(Some(0x81), "issuerAndSerialNumber", IMPLICIT_1_OCTET_STRING),
    bare_optional!(Some(0x82), "subjectKeyIdentifier", IMPLICIT_2_OCTET_STRING),
    // DH_AUTH_PACK
    tagged!(0xa0, "pkAuthenticator", PK_AUTHENTICATOR),
    tagged_optional!(0xa1, "clientPublicValue", DH_SUBJECT_PUBLIC_KEY_INFO),
    tagged_optional!(0xa2, "supportedCMSTypes", SEQUENCE_OF_ALGORITHM_IDENTIFIER),
    tagged_optional!(0xa3, "clientDHNonce", OCTET_STRING),
    // EC_AUTH_PACK
    tagged!(0xa0, "pkAuthenticator", PK_AUTHENTICATOR),
    tagged_optional!(0xa1, "clientPublicValue", SUBJECT_PUBLIC_KEY_INFO),
    tagged_optional!(0xa2, "supportedCMSTypes", SEQUENCE_OF_ALGORITHM_IDENTIFIER),
    tagged_optional!(0xa3, "clientDHNonce", OCTET_STRING),
    // PK_AUTHENTICATOR
    tagged!(0xa0, "cusec", MICROSECONDS),
    tagged!(0xa1, "ctime", KERBEROS_TIME),
    tagged!(0xa2, "nonce", INTEGER),
    tagged_optional!(0xa3, "paChecksum", OCTET_STRING),
    // DH_REP_INFO
    bare!(Some(0x80), "dhSignedData", IMPLICIT_0_OCTET_STRING),
    tagged_optional!(0xa1, "serverDHNonce", OCTET_STRING),
    // KDC_DH_KEY_INFO
    tagged!(0xa0, "subjectPublicKey", BIT_STRING),
    tagged!(0xa1, "nonce", INTEGER),
    tagged_optional!(0xa2, "dhKeyExpiration", KERBEROS_TIME),
    // ALGORITHM_IDENTIFIER
    bare!(Some(0x06), "algorithm", OBJECT_IDENTIFIER),
    bare_optional!(None, "parameters", ANY),
    // SUBJECT_PUBLIC_KEY_INFO
    bare!(Some(0x30), "algorithm", ALGORITHM_IDENTIFIER),
    bare!(Some(0x03), "subjectPublicKey", BIT_STRING),
    // DH_SUBJECT_PUBLIC_KEY_INFO_ALGORITHM
    bare!(Some(0x06), "algorithm", OBJECT_IDENTIFIER),
    bare!(Some(0x30), "parameters", DOMAIN_PARAMETERS),
    // DH_SUBJECT_PUBLIC_KEY_INFO
    bare!(
        Some(0x30),
        "algorithm",
        DH_SUBJECT_PUBLIC_KEY_INFO_ALGORITHM
    ),
    bare!(Some(0x03), "subjectPublicKey", BIT_STRING),
    // DOMAIN_PARAMETERS
    bare!(Some(0x02), "p", INTEGER),
    bare!(Some(0x02), "g", INTEGER),
    bare!(Some(0x02), "q", INTEGER),
    bare_optional!(Some(0x02), "j", INTEGER),
    bare_optional!(Some(0x30), "validationParms", VALIDATION_PARMS),
    // VALIDATION_PARMS
    bare!(Some(0x03), "seed", BIT_STRING),
    bare!(Some(0x02), "pgenCounter", INTEGER),
    // TS_CREDENTIALS
    tagged!(0xa0, "credType", INTEGER),
    tagged!(0xa1, "credentials", TS_CREDENTIALS_CREDENTIALS),
    // TS_PASSWORD_CREDS
    tagged!(0xa0, "domainName", OCTET_STRING),
    tagged!(0xa1, "userName", OCTET_STRING),
    tagged!(0xa2, "password", OCTET_STRING_SECRET),
    // TS_SMART_CARD_CREDS
    tagged!(0xa0, "pin", OCTET_STRING_SECRET),
    tagged!(0xa1, "cspData", TS_CSP_DATA_DETAIL),
    tagged_optional!(0xa2, "userHint", OCTET_STRING),
    tagged_optional!(0xa3, "domainHint", OCTET_STRING),
    // TS_CSP_DATA_DETAIL
    tagged!(0xa0, "keySpec", INTEGER),
    tagged_optional!(0xa1, "cardName", OCTET_STRING),
    tagged_optional!(0xa2, "readerName", OCTET_STRING),
    tagged_optional!(0xa3, "containerName", OCTET_STRING),
    tagged_optional!(0xa4, "cspName", OCTET_STRING),
    // TS_REMOTE_GUARD_CREDS
    tagged!(0xa0, "logonCred", TS_REMOTE_GUARD_PACKAGE_CRED),
    tagged_optional!(
        0xa1,
        "supplementalCreds",
        SEQUENCE_OF_TS_REMOTE_GUARD_PACKAGE_CRED
    ),
    // TS_REMOTE_GUARD_PACKAGE_CRED
    tagged!(0xa0, "packageName", OCTET_STRING),
    tagged!(0xa1, "credBuffer", OCTET_STRING),
    // NEG_TOKEN_INIT
    tagged_optional!(0xa0, "mechTypes", SEQUENCE_OF_OBJECT_IDENTIFIER),
    tagged_optional!(0xa1, "reqFlags", CONTEXT_FLAGS, of Kind::ContextFlag),
    tagged_optional!(
        0xa2,
        "mechToken",
        NEG_TOKEN_INIT_MECH_TOKEN,
        as Role::MechanismToken
    ),
    tagged_optional!(0xa3, "mechListMIC", OCTET_STRING, as Role::MechanismListMic),
    // NEG_TOKEN_RESP
    tagged_optional!(0xa0, "negState", ANY, of Kind::NegotiationState),
    tagged_optional!(0xa1, "supportedMech", OBJECT_IDENTIFIER),
    tagged_optional!(
        0xa2,
        "responseToken",
        NEG_TOKEN_RESP_RESPONSE_TOKEN,
        as Role::MechanismToken
    ),
    tagged_optional!(0xa3, "mechListMIC", OCTET_STRING, as Role::MechanismListMic),
    // AD_IF_RELEVANT_ELEMENT
    tagged!(0xa0, "ad-type", INTEGER, of Kind::AuthorizationDataType),
    tagged!(
        0xa1,
        "ad-data",
        AD_IF_RELEVANT_ELEMENT_AD_DATA,
        as Role::AuthorizationData
    ),
    // AD_KDC_ISSUED
    tagged!(0xa0, "ad-checksum", CHECKSUM),
    tagged_optional!(0xa1, "i-realm", REALM),
    tagged_optional!(0xa2, "i-sname", PRINCIPAL_NAME),
    tagged!(0xa3, "elements", AD_IF_RELEVANT),
    // AD_AND_OR
    tagged!(0xa0, "condition-count", INTEGER),
    tagged!(0xa1, "elements", AD_IF_RELEVANT),
    // AD_CAMMAC
    tagged!(0xa0, "elements", AD_IF_RELEVANT),
    tagged_optional!(0xa1, "kdc-verifier", VERIFIER_MAC),
    tagged_optional!(0xa2, "svc-verifier", VERIFIER_MAC),
    tagged_optional!(0xa3, "other-verifiers", SEQUENCE_OF_ANY),
    // VERIFIER_MAC
    tagged_optional!(0xa0, "identifier", PRINCIPAL_NAME),
    tagged_optional!(0xa1, "kvno", INTEGER),
    tagged_optional!(0xa2, "enctype", INTEGER, of Kind::EncryptionType),
    tagged!(0xa3, "mac", CHECKSUM),
    // AD_KDC_ISSUED_INNER
    tagged!(0xa0, "ad-checksum", CHECKSUM),
    tagged_optional!(0xa1, "i-realm", REALM),
    tagged_optional!(0xa2, "i-sname", PRINCIPAL_NAME),
    tagged!(0xa3, "elements", AD_IF_RELEVANT_INNER),
    // AD_AND_OR_INNER
    tagged!(0xa0, "condition-count", INTEGER),
    tagged!(0xa1, "elements", AD_IF_RELEVANT_INNER),
    // AD_CAMMAC_INNER
    tagged!(0xa0, "elements", AD_IF_RELEVANT_INNER),
    tagged_optional!(0xa1, "kdc-verifier", VERIFIER_MAC),
    tagged_optional!(0xa2, "svc-verifier", VERIFIER_MAC),
    tagged_optional!(0xa3, "other-verifiers", SEQUENCE_OF_ANY),
];

static CASES: [Case; 31] = [
    // AUTHORIZATION_DATA_ELEMENT_AD_DATA
    case!(1, AD_IF_RELEVANT),
    case!(4, AD_KDC_ISSUED),
    case!(5, AD_AND_OR),
    case!(8, AD_IF_RELEVANT),
    case!(96, AD_CAMMAC),
    // PA_DATA_PADATA_VALUE
    case!(1, AP_REQ),
    case!(2, ENCRYPTED_DATA),
    case!(16, PA_PK_AS_REQ),
    case!(17, PA_PK_AS_REP_DH_INFO, called "dhInfo"),
    case!(17, PA_PK_AS_REP_ENC_KEY_PACK, called "encKeyPack"),
    case!(19, ETYPE_INFO2),
    case!(128, KERB_PA_PAC_REQUEST),
    case!(161, KERB_KEY_LIST_REQ),
    case!(162, KERB_KEY_LIST_REP),
    case!(167, PA_PAC_OPTIONS),
    // KRB_ERROR_CONTENT_E_DATA
    case!(METHOD_DATA),
    case!(KERB_ERROR_DATA),
    // TS_CREDENTIALS_CREDENTIALS
    case!(1, TS_PASSWORD_CREDS),
    case!(2, TS_SMART_CARD_CREDS),
    case!(6, TS_REMOTE_GUARD_CREDS),
    // NEG_TOKEN_INIT_MECH_TOKEN
    case!(AP_REQ),
    case!(AP_REP),
    case!(KRB_ERROR),
    // NEG_TOKEN_RESP_RESPONSE_TOKEN
    case!(AP_REQ),
    case!(AP_REP),
    case!(KRB_ERROR),
    // AD_IF_RELEVANT_ELEMENT_AD_DATA
    case!(1, AD_IF_RELEVANT_INNER),
    case!(4, AD_KDC_ISSUED_INNER),
    case!(5, AD_AND_OR_INNER),
    case!(8, AD_IF_RELEVANT_INNER),
    case!(96, AD_CAMMAC_INNER),
];

static SHAPES: [Shape; 150] = [
    Shape::Leaf(0x01, Leaf::Truth),
    Shape::Leaf(0x02, Leaf::Integer),
    Shape::Leaf(0x02, Leaf::Unsigned),
    Shape::Leaf(0x02, Leaf::Microseconds),
    Shape::Leaf(0x03, Leaf::Bits),
    Shape::Leaf(0x03, Leaf::Flags),
    Shape::Leaf(0x04, Leaf::Octets),
    Shape::Leaf(0x04, Leaf::Secret),
    Shape::Leaf(0x04, Leaf::Cipher),
    Shape::Leaf(0x06, Leaf::Identifier),
    Shape::Leaf(0x18, Leaf::Time),
    Shape::Leaf(0x1b, Leaf::Text),
    Shape::Leaf(0x1b, Leaf::Component),
    Shape::Any,
    Shape::SequenceOf(0x30, KERBEROS_STRING_COMPONENT, false),
    Shape::Sequence(0x30, 0, 2),
    Shape::Sequence(0x30, 2, 2),
    Shape::SequenceOf(0x30, HOST_ADDRESS, true),
    Shape::Holding(0, 5),
    Shape::Sequence(0x30, 4, 2),
    Shape::SequenceOf(0x30, AUTHORIZATION_DATA_ELEMENT, true),
    Shape::Sequence(0x30, 6, 2),
    Shape::SequenceOf(0x30, AD_IF_RELEVANT_INNER_ELEMENT, true),
    Shape::Sequence(0x30, 8, 3),
    Shape::Sequence(0x30, 11, 2),
    Shape::Sequence(0x30, 13, 2),
    Shape::Leaf(0x02, Leaf::Number(5)),
    Shape::Sequence(0x30, 15, 4),
    Shape::Tagged(0x61, TICKET_CONTENT),
    Shape::Sequence(0x30, 19, 11),
    Shape::Tagged(0x63, ENC_TICKET_PART_CONTENT),
    Shape::Sequence(0x30, 30, 2),
    Shape::Holding(5, 10),
    Shape::Sequence(0x30, 32, 2),
    Shape::SequenceOf(0x30, PA_DATA, false),
    Shape::Sequence(0x30, 34, 2),
    Shape::Sequence(0x30, 36, 3),
    Shape::SequenceOf(0x30, ETYPE_INFO2_ENTRY, true),
    Shape::Sequence(0x30, 39, 1),
    Shape::Sequence(0x30, 40, 1),
    Shape::SequenceOf(0x30, INTEGER, false),
    Shape::SequenceOf(0x30, ENCRYPTION_KEY, false),
    Shape::Tagged(0x6a, KDC_REQ_AS),
    Shape::Tagged(0x6c, KDC_REQ_TGS),
    Shape::Leaf(0x02, Leaf::Number(10)),
    Shape::SequenceOf(0x30, PA_DATA, false),
    Shape::Sequence(0x30, 41, 4),
    Shape::Leaf(0x02, Leaf::Number(12)),
    Shape::Sequence(0x30, 45, 4),
    Shape::SequenceOf(0x30, INTEGER, false),
    Shape::SequenceOf(0x30, TICKET, false),
    Shape::Sequence(0x30, 49, 12),
    Shape::Tagged(0x6b, KDC_REP_AS),
    Shape::Tagged(0x6d, KDC_REP_TGS),
    Shape::Leaf(0x02, Leaf::Number(11)),
    Shape::Sequence(0x30, 61, 7),
    Shape::Leaf(0x02, Leaf::Number(13)),
    Shape::Sequence(0x30, 68, 7),
    Shape::Tagged(0x79, ENC_KDC_REP_PART),
    Shape::Tagged(0x7a, ENC_KDC_REP_PART),
    Shape::Sequence(0x30, 75, 13),
    Shape::Sequence(0x30, 88, 2),
    Shape::SequenceOf(0x30, LAST_REQ_ELEMENT, false),
    Shape::Leaf(0x02, Leaf::Number(14)),
    Shape::Sequence(0x30, 90, 5),
    Shape::Tagged(0x6e, AP_REQ_CONTENT),
    Shape::Sequence(0x30, 95, 9),
    Shape::Tagged(0x62, AUTHENTICATOR_CONTENT),
    Shape::Leaf(0x02, Leaf::Number(15)),
    Shape::Sequence(0x30, 104, 3),
    Shape::Tagged(0x6f, AP_REP_CONTENT),
    Shape::Sequence(0x30, 107, 4),
    Shape::Tagged(0x7b, ENC_AP_REP_PART_CONTENT),
    Shape::Leaf(0x02, Leaf::Number(21)),
    Shape::Sequence(0x30, 111, 3),
    Shape::Tagged(0x75, KRB_PRIV_CONTENT),
    Shape::Sequence(0x30, 114, 6),
    Shape::Tagged(0x7c, ENC_KRB_PRIV_PART_CONTENT),
    Shape::Leaf(0x02, Leaf::Number(22)),
    Shape::Sequence(0x30, 120, 4),
    Shape::Tagged(0x76, KRB_CRED_CONTENT),
    Shape::SequenceOf(0x30, KRB_CRED_INFO, false),
    Shape::Sequence(0x30, 124, 6),
    Shape::Tagged(0x7d, ENC_KRB_CRED_PART_CONTENT),
    Shape::Sequence(0x30, 130, 11),
    Shape::Leaf(0x02, Leaf::Number(30)),
    Shape::Holding(15, 2),
    Shape::Sequence(0x30, 141, 13),
    Shape::Tagged(0x7e, KRB_ERROR_CONTENT),
    Shape::Sequence(0x30, 154, 2),
    Shape::Sequence(0x30, 156, 2),
    Shape::Sequence(0x30, 158, 3),
    Shape::Leaf(0x02, Leaf::Number(16)),
    Shape::Sequence(0x30, 161, 3),
    Shape::Leaf(0x02, Leaf::Number(17)),
    Shape::Sequence(0x30, 164, 3),
    Shape::Sequence(0x30, 167, 3),
    Shape::Leaf(0x80, Leaf::Octets),
    Shape::Sequence(0x30, 170, 1),
    Shape::Sequence(0x30, 171, 2),
    Shape::SequenceOf(0x30, PKU2U_NEGO_REQ_METADATA, false),
    Shape::Sequence(0x30, 173, 2),
    Shape::Sequence(0x30, 175, 1),
    Shape::Sequence(0x30, 176, 1),
    Shape::SequenceOf(0x30, EXTERNAL_PRINCIPAL_IDENTIFIER, false),
    Shape::Leaf(0x82, Leaf::Octets),
    Shape::Sequence(0x30, 177, 3),
    Shape::Leaf(0x81, Leaf::Octets),
    Shape::Sequence(0x30, 180, 3),
    Shape::SequenceOf(0x30, ALGORITHM_IDENTIFIER, false),
    Shape::Sequence(0x30, 183, 4),
    Shape::Sequence(0x30, 187, 4),
    Shape::Sequence(0x30, 191, 4),
    Shape::Tagged(0xa0, DH_REP_INFO),
    Shape::Leaf(0x81, Leaf::Octets),
    Shape::Sequence(0x30, 195, 2),
    Shape::Sequence(0x30, 197, 3),
    Shape::Sequence(0x30, 200, 2),
    Shape::Sequence(0x30, 202, 2),
    Shape::Sequence(0x30, 204, 2),
    Shape::Sequence(0x30, 206, 2),
    Shape::Sequence(0x30, 208, 5),
    Shape::Sequence(0x30, 213, 2),
    Shape::Holding(17, 3),
    Shape::Sequence(0x30, 215, 2),
    Shape::Sequence(0x30, 217, 3),
    Shape::Sequence(0x30, 220, 4),
    Shape::Sequence(0x30, 224, 5),
    Shape::SequenceOf(0x30, TS_REMOTE_GUARD_PACKAGE_CRED, false),
    Shape::Sequence(0x30, 229, 2),
    Shape::Sequence(0x30, 231, 2),
    Shape::Tagged(0xa0, NEG_TOKEN_INIT),
    Shape::Tagged(0xa1, NEG_TOKEN_RESP),
    Shape::SequenceOf(0x30, OBJECT_IDENTIFIER, false),
    Shape::Holding(20, 3),
    Shape::Sequence(0x30, 233, 4),
    Shape::Leaf(0x03, Leaf::Flags),
    Shape::Holding(23, 3),
    Shape::Sequence(0x30, 237, 4),
    Shape::Holding(26, 5),
    Shape::Sequence(0x30, 241, 2),
    Shape::SequenceOf(0x30, AD_IF_RELEVANT_ELEMENT, true),
    Shape::Sequence(0x30, 243, 4),
    Shape::Sequence(0x30, 247, 2),
    Shape::SequenceOf(0x30, ANY, true),
    Shape::Sequence(0x30, 249, 4),
    Shape::Sequence(0x30, 253, 4),
    Shape::Sequence(0x30, 257, 4),
    Shape::Sequence(0x30, 261, 2),
    Shape::Sequence(0x30, 263, 4),
];

static TYPES: [(&str, usize); 102] = [
    ("BOOLEAN", BOOLEAN),
    ("INTEGER", INTEGER),
    ("UInt32", UINT32),
    ("Microseconds", MICROSECONDS),
    ("BIT STRING", BIT_STRING),
    ("KerberosFlags", KERBEROS_FLAGS),
    ("OCTET STRING", OCTET_STRING),
    ("OCTET STRING (secret)", OCTET_STRING_SECRET),
    ("OCTET STRING (cipher)", OCTET_STRING_CIPHER),
    ("OBJECT IDENTIFIER", OBJECT_IDENTIFIER),
    ("KerberosTime", KERBEROS_TIME),
    ("KerberosString", KERBEROS_STRING),
    ("KerberosString (component)", KERBEROS_STRING_COMPONENT),
    ("ANY", ANY),
    ("Realm", REALM),
    ("PrincipalName", PRINCIPAL_NAME),
    ("HostAddress", HOST_ADDRESS),
    ("HostAddresses", HOST_ADDRESSES),
    ("AuthorizationData", AUTHORIZATION_DATA),
    ("AD-IF-RELEVANT (inner)", AD_IF_RELEVANT_INNER),
    ("EncryptedData", ENCRYPTED_DATA),
    ("EncryptionKey", ENCRYPTION_KEY),
    ("Checksum", CHECKSUM),
    ("Ticket", TICKET),
    ("EncTicketPart", ENC_TICKET_PART),
    ("TransitedEncoding", TRANSITED_ENCODING),
    ("PA-DATA", PA_DATA),
    ("METHOD-DATA", METHOD_DATA),
    ("PA-ENC-TS-ENC", PA_ENC_TS_ENC),
    ("ETYPE-INFO2-ENTRY", ETYPE_INFO2_ENTRY),
    ("ETYPE-INFO2", ETYPE_INFO2),
    ("KERB-PA-PAC-REQUEST", KERB_PA_PAC_REQUEST),
    ("PA-PAC-OPTIONS", PA_PAC_OPTIONS),
    ("KERB-KEY-LIST-REQ", KERB_KEY_LIST_REQ),
    ("KERB-KEY-LIST-REP", KERB_KEY_LIST_REP),
    ("AS-REQ", AS_REQ),
    ("TGS-REQ", TGS_REQ),
    ("KDC-REQ (AS)", KDC_REQ_AS),
    ("KDC-REQ (TGS)", KDC_REQ_TGS),
    ("KDC-REQ-BODY", KDC_REQ_BODY),
    ("AS-REP", AS_REP),
    ("TGS-REP", TGS_REP),
    ("KDC-REP (AS)", KDC_REP_AS),
    ("KDC-REP (TGS)", KDC_REP_TGS),
    ("EncASRepPart", ENC_AS_REP_PART),
    ("EncTGSRepPart", ENC_TGS_REP_PART),
    ("EncKDCRepPart", ENC_KDC_REP_PART),
    ("LastReq", LAST_REQ),
    ("AP-REQ", AP_REQ),
    ("Authenticator", AUTHENTICATOR),
    ("AP-REP", AP_REP),
    ("EncAPRepPart", ENC_AP_REP_PART),
    ("KRB-PRIV", KRB_PRIV),
    ("EncKrbPrivPart", ENC_KRB_PRIV_PART),
    ("KRB-CRED", KRB_CRED),
    ("EncKrbCredPart", ENC_KRB_CRED_PART),
    ("KrbCredInfo", KRB_CRED_INFO),
    ("KRB-ERROR", KRB_ERROR),
    ("KERB-ERROR-DATA", KERB_ERROR_DATA),
    ("KERB-AD-RESTRICTION-ENTRY", KERB_AD_RESTRICTION_ENTRY),
    ("ChangePasswdData", CHANGE_PASSWD_DATA),
    ("TGT-REQ", TGT_REQ),
    ("TGT-REP", TGT_REP),
    ("KDC-PROXY-MESSAGE", KDC_PROXY_MESSAGE),
    ("PKU2U-NEGO-REQ-METADATA", PKU2U_NEGO_REQ_METADATA),
    ("PKU2U-NEGO-BODY", PKU2U_NEGO_BODY),
    ("PKU2U-NEGO-REQ", PKU2U_NEGO_REQ),
    ("PKU2U-NEGO-REP", PKU2U_NEGO_REP),
    ("KRB-FINISHED", KRB_FINISHED),
    ("PA-PK-AS-REQ", PA_PK_AS_REQ),
    ("ExternalPrincipalIdentifier", EXTERNAL_PRINCIPAL_IDENTIFIER),
    ("DHAuthPack", DH_AUTH_PACK),
    ("ECAuthPack", EC_AUTH_PACK),
    ("PKAuthenticator", PK_AUTHENTICATOR),
    ("PA-PK-AS-REP (dhInfo)", PA_PK_AS_REP_DH_INFO),
    ("PA-PK-AS-REP (encKeyPack)", PA_PK_AS_REP_ENC_KEY_PACK),
    ("DHRepInfo", DH_REP_INFO),
    ("KDCDHKeyInfo", KDC_DH_KEY_INFO),
    ("AlgorithmIdentifier", ALGORITHM_IDENTIFIER),
    ("SubjectPublicKeyInfo", SUBJECT_PUBLIC_KEY_INFO),
    ("DHSubjectPublicKeyInfo", DH_SUBJECT_PUBLIC_KEY_INFO),
    ("DomainParameters", DOMAIN_PARAMETERS),
    ("ValidationParms", VALIDATION_PARMS),
    ("TSCredentials", TS_CREDENTIALS),
    ("TSPasswordCreds", TS_PASSWORD_CREDS),
    ("TSSmartCardCreds", TS_SMART_CARD_CREDS),
    ("TSCspDataDetail", TS_CSP_DATA_DETAIL),
    ("TSRemoteGuardCreds", TS_REMOTE_GUARD_CREDS),
    ("TSRemoteGuardPackageCred", TS_REMOTE_GUARD_PACKAGE_CRED),
    (
        "NegotiationToken (negTokenInit)",
        NEGOTIATION_TOKEN_NEG_TOKEN_INIT,
    ),
    (
        "NegotiationToken (negTokenResp)",
        NEGOTIATION_TOKEN_NEG_TOKEN_RESP,
    ),
    ("NegTokenInit", NEG_TOKEN_INIT),
    ("ContextFlags", CONTEXT_FLAGS),
    ("NegTokenResp", NEG_TOKEN_RESP),
    ("AD-IF-RELEVANT", AD_IF_RELEVANT),
    ("AD-KDCIssued", AD_KDC_ISSUED),
    ("AD-AND-OR", AD_AND_OR),
    ("AD-CAMMAC", AD_CAMMAC),
    ("Verifier-MAC", VERIFIER_MAC),
    ("AD-KDCIssued (inner)", AD_KDC_ISSUED_INNER),
    ("AD-AND-OR (inner)", AD_AND_OR_INNER),
    ("AD-CAMMAC (inner)", AD_CAMMAC_INNER),
];

/// The schema of the types of DER that this library reads.
#[tactic(auto, unfolding(crate::specs::Types::shapes, crate::specs::Types::fields, crate::specs::Types::cases))]
pub fn kerberos() -> Schema<'static>
    ensures { IsKerberos result }
{
    Schema {
        shapes: &SHAPES,
        fields: &FIELDS,
        cases: &CASES,
    }
}

/// The types: what their standards call them, and their rows.
#[tactic(auto, unfolding(crate::specs::Types::types))]
pub fn types() -> &'static [(&'static str, usize)]
    ensures { map (λ row. (row.0.now, row.1)) result.now ≡ types }
{
    &TYPES
}

//! The tables: a row is a number and its name. No number and no name stands twice in a table.

ghost use Rattle.std.specs.Prelude.{◌≡◌, map};
ghost use Rattle.krb_registry.specs.Names.{table, mechanisms};

use crate::kind::Kind;

/// RFC 3961, 8; RFC 3962, 7; RFC 4757; RFC 6803, 9; RFC 8009, 7; IANA, Kerberos Encryption Type Numbers.
static ENCRYPTION_TYPES: [(i64, &str); 22] = [
    (1, "des-cbc-crc"),
    (2, "des-cbc-md4"),
    (3, "des-cbc-md5"),
    (5, "des3-cbc-md5"),
    (7, "des3-cbc-sha1"),
    (9, "dsaWithSHA1-CmsOID"),
    (10, "md5WithRSAEncryption-CmsOID"),
    (11, "sha1WithRSAEncryption-CmsOID"),
    (12, "rc2CBC-EnvOID"),
    (13, "rsaEncryption-EnvOID"),
    (14, "rsaES-OAEP-ENV-OID"),
    (15, "des-ede3-cbc-Env-OID"),
    (16, "des3-cbc-sha1-kd"),
    (17, "aes128-cts-hmac-sha1-96"),
    (18, "aes256-cts-hmac-sha1-96"),
    (19, "aes128-cts-hmac-sha256-128"),
    (20, "aes256-cts-hmac-sha384-192"),
    (23, "rc4-hmac"),
    (24, "rc4-hmac-exp"),
    (25, "camellia128-cts-cmac"),
    (26, "camellia256-cts-cmac"),
    (65, "subkey-keymaterial"),
];

/// RFC 3961, 8; RFC 3962, 7; RFC 4757; RFC 6803, 9; RFC 8009, 7; IANA, Kerberos Checksum Type Numbers.
static CHECKSUM_TYPES: [(i64, &str); 19] = [
    (1, "CRC32"),
    (2, "rsa-md4"),
    (3, "rsa-md4-des"),
    (4, "des-mac"),
    (5, "des-mac-k"),
    (6, "rsa-md4-des-k"),
    (7, "rsa-md5"),
    (8, "rsa-md5-des"),
    (9, "rsa-md5-des3"),
    (12, "hmac-sha1-des3-kd"),
    (13, "hmac-sha1-des3"),
    (14, "sha1"),
    (15, "hmac-sha1-96-aes128"),
    (16, "hmac-sha1-96-aes256"),
    (17, "cmac-camellia128"),
    (18, "cmac-camellia256"),
    (19, "hmac-sha256-128-aes128"),
    (20, "hmac-sha384-192-aes256"),
    (-138, "KERB_CHECKSUM_HMAC_MD5"),
];

/// RFC 4120, 6.2; 11: RFC 6111; 12: RFC 5179; the negative ones: those of Windows, as krb5.h of MIT Kerberos has them.
static NAME_TYPES: [(i64, &str); 14] = [
    (0, "NT-UNKNOWN"),
    (1, "NT-PRINCIPAL"),
    (2, "NT-SRV-INST"),
    (3, "NT-SRV-HST"),
    (4, "NT-SRV-XHST"),
    (5, "NT-UID"),
    (6, "NT-X500-PRINCIPAL"),
    (7, "NT-SMTP-NAME"),
    (10, "NT-ENTERPRISE"),
    (11, "NT-WELLKNOWN"),
    (12, "NT-SRV-HST-DOMAIN"),
    (-128, "NT-MS-PRINCIPAL"),
    (-129, "NT-MS-PRINCIPAL-AND-ID"),
    (-130, "NT-ENT-PRINCIPAL-AND-ID"),
];

/// RFC 4120, 7.5.7; TGT-REQ and TGT-REP: draft-swift-win2k-krb-user2user-03.
static MESSAGE_TYPES: [(i64, &str); 12] = [
    (10, "AS-REQ"),
    (11, "AS-REP"),
    (12, "TGS-REQ"),
    (13, "TGS-REP"),
    (14, "AP-REQ"),
    (15, "AP-REP"),
    (16, "TGT-REQ"),
    (17, "TGT-REP"),
    (20, "KRB-SAFE"),
    (21, "KRB-PRIV"),
    (22, "KRB-CRED"),
    (30, "KRB-ERROR"),
];

/// RFC 4120, 7.5.9; 62 to 66, 70 to 81: RFC 4556, 3.1.3; 85, 86: draft-ietf-kitten-iakerb-03, 3; 90 to 93: RFC 6113; 100:
/// RFC 8636.
static ERROR_CODES: [(i64, &str); 80] = [
    (0, "KDC_ERR_NONE"),
    (1, "KDC_ERR_NAME_EXP"),
    (2, "KDC_ERR_SERVICE_EXP"),
    (3, "KDC_ERR_BAD_PVNO"),
    (4, "KDC_ERR_C_OLD_MAST_KVNO"),
    (5, "KDC_ERR_S_OLD_MAST_KVNO"),
    (6, "KDC_ERR_C_PRINCIPAL_UNKNOWN"),
    (7, "KDC_ERR_S_PRINCIPAL_UNKNOWN"),
    (8, "KDC_ERR_PRINCIPAL_NOT_UNIQUE"),
    (9, "KDC_ERR_NULL_KEY"),
    (10, "KDC_ERR_CANNOT_POSTDATE"),
    (11, "KDC_ERR_NEVER_VALID"),
    (12, "KDC_ERR_POLICY"),
    (13, "KDC_ERR_BADOPTION"),
    (14, "KDC_ERR_ETYPE_NOSUPP"),
    (15, "KDC_ERR_SUMTYPE_NOSUPP"),
    (16, "KDC_ERR_PADATA_TYPE_NOSUPP"),
    (17, "KDC_ERR_TRTYPE_NOSUPP"),
    (18, "KDC_ERR_CLIENT_REVOKED"),
    (19, "KDC_ERR_SERVICE_REVOKED"),
    (20, "KDC_ERR_TGT_REVOKED"),
    (21, "KDC_ERR_CLIENT_NOTYET"),
    (22, "KDC_ERR_SERVICE_NOTYET"),
    (23, "KDC_ERR_KEY_EXPIRED"),
    (24, "KDC_ERR_PREAUTH_FAILED"),
    (25, "KDC_ERR_PREAUTH_REQUIRED"),
    (26, "KDC_ERR_SERVER_NOMATCH"),
    (27, "KDC_ERR_MUST_USE_USER2USER"),
    (28, "KDC_ERR_PATH_NOT_ACCEPTED"),
    (29, "KDC_ERR_SVC_UNAVAILABLE"),
    (31, "KRB_AP_ERR_BAD_INTEGRITY"),
    (32, "KRB_AP_ERR_TKT_EXPIRED"),
    (33, "KRB_AP_ERR_TKT_NYV"),
    (34, "KRB_AP_ERR_REPEAT"),
    (35, "KRB_AP_ERR_NOT_US"),
    (36, "KRB_AP_ERR_BADMATCH"),
    (37, "KRB_AP_ERR_SKEW"),
    (38, "KRB_AP_ERR_BADADDR"),
    (39, "KRB_AP_ERR_BADVERSION"),
    (40, "KRB_AP_ERR_MSG_TYPE"),
    (41, "KRB_AP_ERR_MODIFIED"),
    (42, "KRB_AP_ERR_BADORDER"),
    (44, "KRB_AP_ERR_BADKEYVER"),
    (45, "KRB_AP_ERR_NOKEY"),
    (46, "KRB_AP_ERR_MUT_FAIL"),
    (47, "KRB_AP_ERR_BADDIRECTION"),
    (48, "KRB_AP_ERR_METHOD"),
    (49, "KRB_AP_ERR_BADSEQ"),
    (50, "KRB_AP_ERR_INAPP_CKSUM"),
    (51, "KRB_AP_PATH_NOT_ACCEPTED"),
    (52, "KRB_ERR_RESPONSE_TOO_BIG"),
    (60, "KRB_ERR_GENERIC"),
    (61, "KRB_ERR_FIELD_TOOLONG"),
    (62, "KDC_ERR_CLIENT_NOT_TRUSTED"),
    (63, "KDC_ERR_KDC_NOT_TRUSTED"),
    (64, "KDC_ERR_INVALID_SIG"),
    (65, "KDC_ERR_DH_KEY_PARAMETERS_NOT_ACCEPTED"),
    (66, "KDC_ERR_CERTIFICATE_MISMATCH"),
    (67, "KRB_AP_ERR_NO_TGT"),
    (68, "KDC_ERR_WRONG_REALM"),
    (69, "KRB_AP_ERR_USER_TO_USER_REQUIRED"),
    (70, "KDC_ERR_CANT_VERIFY_CERTIFICATE"),
    (71, "KDC_ERR_INVALID_CERTIFICATE"),
    (72, "KDC_ERR_REVOKED_CERTIFICATE"),
    (73, "KDC_ERR_REVOCATION_STATUS_UNKNOWN"),
    (74, "KDC_ERR_REVOCATION_STATUS_UNAVAILABLE"),
    (75, "KDC_ERR_CLIENT_NAME_MISMATCH"),
    (76, "KDC_ERR_KDC_NAME_MISMATCH"),
    (77, "KDC_ERR_INCONSISTENT_KEY_PURPOSE"),
    (78, "KDC_ERR_DIGEST_IN_CERT_NOT_ACCEPTED"),
    (79, "KDC_ERR_PA_CHECKSUM_MUST_BE_INCLUDED"),
    (80, "KDC_ERR_DIGEST_IN_SIGNED_DATA_NOT_ACCEPTED"),
    (81, "KDC_ERR_PUBLIC_KEY_ENCRYPTION_NOT_SUPPORTED"),
    (85, "KRB_AP_ERR_IAKERB_KDC_NOT_FOUND"),
    (86, "KRB_AP_ERR_IAKERB_KDC_NO_RESPONSE"),
    (90, "KDC_ERR_PREAUTH_EXPIRED"),
    (91, "KDC_ERR_MORE_PREAUTH_DATA_REQUIRED"),
    (92, "KDC_ERR_PREAUTH_BAD_AUTHENTICATION_SET"),
    (93, "KDC_ERR_UNKNOWN_CRITICAL_FAST_OPTIONS"),
    (100, "KDC_ERR_NO_ACCEPTABLE_KDF"),
];

/// RFC 4120, 7.5.2; RFC 4556, 3.1.3; RFC 6113; IANA, Pre-authentication and Typed Data, with a hyphen for each underscore;
/// 167: MS-KILE.
static PA_DATA_TYPES: [(i64, &str); 67] = [
    (1, "PA-TGS-REQ"),
    (2, "PA-ENC-TIMESTAMP"),
    (3, "PA-PW-SALT"),
    (5, "PA-ENC-UNIX-TIME"),
    (6, "PA-SANDIA-SECUREID"),
    (7, "PA-SESAME"),
    (8, "PA-OSF-DCE"),
    (9, "PA-CYBERSAFE-SECUREID"),
    (10, "PA-AFS3-SALT"),
    (11, "PA-ETYPE-INFO"),
    (12, "PA-SAM-CHALLENGE"),
    (13, "PA-SAM-RESPONSE"),
    (14, "PA-PK-AS-REQ-OLD"),
    (15, "PA-PK-AS-REP-OLD"),
    (16, "PA-PK-AS-REQ"),
    (17, "PA-PK-AS-REP"),
    (18, "PA-PK-OCSP-RESPONSE"),
    (19, "PA-ETYPE-INFO2"),
    (20, "PA-SVR-REFERRAL-INFO"),
    (21, "PA-SAM-REDIRECT"),
    (22, "TD-PADATA"),
    (23, "PA-SAM-ETYPE-INFO"),
    (24, "PA-ALT-PRINC"),
    (25, "PA-SERVER-REFERRAL"),
    (30, "PA-SAM-CHALLENGE2"),
    (31, "PA-SAM-RESPONSE2"),
    (41, "PA-EXTRA-TGT"),
    (101, "TD-PKINIT-CMS-CERTIFICATES"),
    (102, "TD-KRB-PRINCIPAL"),
    (103, "TD-KRB-REALM"),
    (104, "TD-TRUSTED-CERTIFIERS"),
    (105, "TD-CERTIFICATE-INDEX"),
    (106, "TD-APP-DEFINED-ERROR"),
    (107, "TD-REQ-NONCE"),
    (108, "TD-REQ-SEQ"),
    (109, "TD-DH-PARAMETERS"),
    (111, "TD-CMS-DIGEST-ALGORITHMS"),
    (112, "TD-CERT-DIGEST-ALGORITHMS"),
    (128, "PA-PAC-REQUEST"),
    (129, "PA-FOR-USER"),
    (130, "PA-FOR-X509-USER"),
    (131, "PA-FOR-CHECK-DUPS"),
    (132, "PA-AS-CHECKSUM"),
    (133, "PA-FX-COOKIE"),
    (134, "PA-AUTHENTICATION-SET"),
    (135, "PA-AUTH-SET-SELECTED"),
    (136, "PA-FX-FAST"),
    (137, "PA-FX-ERROR"),
    (138, "PA-ENCRYPTED-CHALLENGE"),
    (141, "PA-OTP-CHALLENGE"),
    (142, "PA-OTP-REQUEST"),
    (143, "PA-OTP-CONFIRM"),
    (144, "PA-OTP-PIN-CHANGE"),
    (145, "PA-EPAK-AS-REQ"),
    (146, "PA-EPAK-AS-REP"),
    (147, "PA-PKINIT-KX"),
    (148, "PA-PKU2U-NAME"),
    (149, "PA-REQ-ENC-PA-REP"),
    (150, "PA-AS-FRESHNESS"),
    (151, "PA-SPAKE"),
    (152, "PA-REDHAT-IDP-OAUTH2"),
    (153, "PA-REDHAT-PASSKEY"),
    (161, "KERB-KEY-LIST-REQ"),
    (162, "KERB-KEY-LIST-REP"),
    (165, "PA-SUPPORTED-ETYPES"),
    (166, "PA-EXTENDED-ERROR"),
    (167, "PA-PAC-OPTIONS"),
];

/// RFC 4120, 7.5.4; 9: RFC 4556, 3.1.3; 70 to 72: RFC 6113; 96: RFC 7751; 97: RFC 8129; 141 to 143: MS-KILE.
static AUTHORIZATION_DATA_TYPES: [(i64, &str); 22] = [
    (1, "AD-IF-RELEVANT"),
    (2, "AD-INTENDED-FOR-SERVER"),
    (3, "AD-INTENDED-FOR-APPLICATION-CLASS"),
    (4, "AD-KDC-ISSUED"),
    (5, "AD-AND-OR"),
    (6, "AD-MANDATORY-TICKET-EXTENSIONS"),
    (7, "AD-IN-TICKET-EXTENSIONS"),
    (8, "AD-MANDATORY-FOR-KDC"),
    (9, "AD-INITIAL-VERIFIED-CAS"),
    (64, "OSF-DCE"),
    (65, "SESAME"),
    (66, "AD-OSF-DCE-PKI-CERTID"),
    (70, "AD-authentication-strength"),
    (71, "AD-fx-fast-armor"),
    (72, "AD-fx-fast-used"),
    (96, "AD-CAMMAC"),
    (97, "AD-AUTHENTICATION-INDICATOR"),
    (128, "AD-WIN2K-PAC"),
    (129, "AD-ETYPE-NEGOTIATION"),
    (141, "KERB_AUTH_DATA_TOKEN_RESTRICTIONS"),
    (142, "KERB-LOCAL"),
    (143, "AD-AUTH-DATA-AP-OPTIONS"),
];

/// RFC 4120, 7.5.3.
static ADDRESS_TYPES: [(i64, &str); 9] = [
    (2, "IPv4"),
    (3, "Directional"),
    (5, "ChaosNet"),
    (6, "XNS"),
    (7, "ISO"),
    (12, "DECNET-Phase-IV"),
    (16, "AppleTalk-DDP"),
    (20, "NetBios"),
    (24, "IPv6"),
];

/// RFC 4120, 7.5.5.
static TRANSITED_ENCODING_TYPES: [(i64, &str); 1] = [(1, "DOMAIN-X500-COMPRESS")];

/// RFC 4120, 5.4.2, which gives the numbers; the names are those of Heimdal and Wireshark.
static LAST_REQUEST_TYPES: [(i64, &str); 8] = [
    (0, "LR-NONE"),
    (1, "LR-INITIAL-TGT"),
    (2, "LR-INITIAL"),
    (3, "LR-ISSUE-USE-TGT"),
    (4, "LR-RENEWAL"),
    (5, "LR-REQUEST"),
    (6, "LR-PW-EXPTIME"),
    (7, "LR-ACCT-EXPTIME"),
];

/// RFC 4120, 2.8 and 5.3; enc-pa-rep: RFC 6806, 11; anonymous: RFC 8062, 3.
static TICKET_FLAGS: [(i64, &str); 16] = [
    (0, "reserved"),
    (1, "forwardable"),
    (2, "forwarded"),
    (3, "proxiable"),
    (4, "proxy"),
    (5, "may-postdate"),
    (6, "postdated"),
    (7, "invalid"),
    (8, "renewable"),
    (9, "initial"),
    (10, "pre-authent"),
    (11, "hw-authent"),
    (12, "transited-policy-checked"),
    (13, "ok-as-delegate"),
    (15, "enc-pa-rep"),
    (16, "anonymous"),
];

/// RFC 4120, 5.4.1; canonicalize: RFC 6806, 3; request-anonymous: RFC 8062, 3; cname-in-addl-tkt: MS-SFU, 2.2.3.
static KDC_OPTIONS: [(i64, &str); 22] = [
    (0, "reserved"),
    (1, "forwardable"),
    (2, "forwarded"),
    (3, "proxiable"),
    (4, "proxy"),
    (5, "allow-postdate"),
    (6, "postdated"),
    (7, "unused7"),
    (8, "renewable"),
    (9, "unused9"),
    (10, "unused10"),
    (11, "opt-hardware-auth"),
    (12, "unused12"),
    (13, "unused13"),
    (14, "cname-in-addl-tkt"),
    (15, "canonicalize"),
    (16, "request-anonymous"),
    (26, "disable-transited-check"),
    (27, "renewable-ok"),
    (28, "enc-tkt-in-skey"),
    (30, "renew"),
    (31, "validate"),
];

/// RFC 4120, 5.5.1.
static AP_OPTIONS: [(i64, &str); 3] = [
    (0, "reserved"),
    (1, "use-session-key"),
    (2, "mutual-required"),
];

/// 1 to 19: RFC 4120, 7.5.1; 22 to 25: RFC 4121, 2; 26, 27: MS-SFU; 41: draft-zhu-pku2u-04, 6; 42:
/// draft-ietf-kitten-iakerb; 44: RFC 6112; 45: RFC 6560; 50 to 56: RFC 6113; 64: RFC 7751; 65: RFC 9588; where these give
/// no name, that of krb5.h of MIT Kerberos.
static KEY_USAGES: [(i64, &str); 35] = [
    (1, "KRB5_KEYUSAGE_AS_REQ_PA_ENC_TS"),
    (2, "KRB5_KEYUSAGE_KDC_REP_TICKET"),
    (3, "KRB5_KEYUSAGE_AS_REP_ENCPART"),
    (4, "KRB5_KEYUSAGE_TGS_REQ_AD_SESSKEY"),
    (5, "KRB5_KEYUSAGE_TGS_REQ_AD_SUBKEY"),
    (6, "KRB5_KEYUSAGE_TGS_REQ_AUTH_CKSUM"),
    (7, "KRB5_KEYUSAGE_TGS_REQ_AUTH"),
    (8, "KRB5_KEYUSAGE_TGS_REP_ENCPART_SESSKEY"),
    (9, "KRB5_KEYUSAGE_TGS_REP_ENCPART_SUBKEY"),
    (10, "KRB5_KEYUSAGE_AP_REQ_AUTH_CKSUM"),
    (11, "KRB5_KEYUSAGE_AP_REQ_AUTH"),
    (12, "KRB5_KEYUSAGE_AP_REP_ENCPART"),
    (13, "KRB5_KEYUSAGE_KRB_PRIV_ENCPART"),
    (14, "KRB5_KEYUSAGE_KRB_CRED_ENCPART"),
    (15, "KRB5_KEYUSAGE_KRB_SAFE_CKSUM"),
    (19, "KRB5_KEYUSAGE_AD_KDCISSUED_CKSUM"),
    (22, "KG-USAGE-ACCEPTOR-SEAL"),
    (23, "KG-USAGE-ACCEPTOR-SIGN"),
    (24, "KG-USAGE-INITIATOR-SEAL"),
    (25, "KG-USAGE-INITIATOR-SIGN"),
    (26, "KRB5_KEYUSAGE_PA_S4U_X509_USER_REQUEST"),
    (27, "KRB5_KEYUSAGE_PA_S4U_X509_USER_REPLY"),
    (41, "KEY_USAGE_FINISHED"),
    (42, "KEY_USAGE_IAKERB_FINISHED"),
    (44, "KEY_USAGE_PA_PKINIT_KX"),
    (45, "KRB5_KEYUSAGE_PA_OTP_REQUEST"),
    (50, "KEY_USAGE_FAST_REQ_CHKSUM"),
    (51, "KEY_USAGE_FAST_ENC"),
    (52, "KEY_USAGE_FAST_REP"),
    (53, "KEY_USAGE_FAST_FINISHED"),
    (54, "KEY_USAGE_ENC_CHALLENGE_CLIENT"),
    (55, "KEY_USAGE_ENC_CHALLENGE_KDC"),
    (56, "KEY_USAGE_AS_REQ"),
    (64, "KRB5_KEYUSAGE_CAMMAC"),
    (65, "KEY_USAGE_SPAKE"),
];

/// MS-PAC, 2.4, which gives the numbers; the names are those of krb5.h of MIT Kerberos.
static PAC_BUFFER_TYPES: [(i64, &str); 14] = [
    (1, "KRB5_PAC_LOGON_INFO"),
    (2, "KRB5_PAC_CREDENTIALS_INFO"),
    (6, "KRB5_PAC_SERVER_CHECKSUM"),
    (7, "KRB5_PAC_PRIVSVR_CHECKSUM"),
    (10, "KRB5_PAC_CLIENT_INFO"),
    (11, "KRB5_PAC_DELEGATION_INFO"),
    (12, "KRB5_PAC_UPN_DNS_INFO"),
    (13, "KRB5_PAC_CLIENT_CLAIMS"),
    (14, "KRB5_PAC_DEVICE_INFO"),
    (15, "KRB5_PAC_DEVICE_CLAIMS"),
    (16, "KRB5_PAC_TICKET_CHECKSUM"),
    (17, "KRB5_PAC_ATTRIBUTES_INFO"),
    (18, "KRB5_PAC_REQUESTOR"),
    (19, "KRB5_PAC_FULL_CHECKSUM"),
];

/// RFC 4121, 4.1.1.1; 17 to 19: RFC 4757, 7.1.
static GSS_FLAGS: [(i64, &str); 9] = [
    (17, "GSS_C_EXTENDED_ERROR_FLAG"),
    (18, "GSS_C_IDENTIFY_FLAG"),
    (19, "GSS_C_DCE_STYLE"),
    (26, "GSS_C_INTEG_FLAG"),
    (27, "GSS_C_CONF_FLAG"),
    (28, "GSS_C_SEQUENCE_FLAG"),
    (29, "GSS_C_REPLAY_FLAG"),
    (30, "GSS_C_MUTUAL_FLAG"),
    (31, "GSS_C_DELEG_FLAG"),
];

/// RFC 4178, 4.2.2.
static NEGOTIATION_STATES: [(i64, &str); 4] = [
    (0, "accept-completed"),
    (1, "accept-incomplete"),
    (2, "reject"),
    (3, "request-mic"),
];

/// RFC 4178, 4.2.1.
static CONTEXT_FLAGS: [(i64, &str); 7] = [
    (0, "delegFlag"),
    (1, "mutualFlag"),
    (2, "replayFlag"),
    (3, "sequenceFlag"),
    (4, "anonFlag"),
    (5, "confFlag"),
    (6, "integFlag"),
];

/// RFC 4121, 4.2.2.
static TOKEN_FLAGS: [(i64, &str); 3] = [
    (0, "SentByAcceptor"),
    (1, "Sealed"),
    (2, "AcceptorSubkey"),
];

/// Mechanisms (RFC 4121; draft-swift-win2k-krb-user2user-03; MS-SPNG; MS-NLMP; MS-NEGOEX; draft-ietf-kitten-iakerb-03;
/// draft-zhu-pku2u-09; RFC 4178; the names are this library's).
static MECHANISMS: [(&str, &str); 8] = [
    ("1.2.840.113554.1.2.2", "KRB5"),
    ("1.2.840.113554.1.2.2.3", "KRB5-USER-TO-USER"),
    ("1.2.840.48018.1.2.2", "MS-KRB5"),
    ("1.3.6.1.4.1.311.2.2.10", "NTLMSSP"),
    ("1.3.6.1.4.1.311.2.2.30", "NEGOEX"),
    ("1.3.6.1.5.2.5", "IAKERB"),
    ("1.3.6.1.5.2.7", "PKU2U"),
    ("1.3.6.1.5.5.2", "SPNEGO"),
];

/// The table of this kind.
#[tactic(auto, unfolding(crate::specs::Names::table))]
pub(crate) fn rows(kind: Kind) -> &'static [(i64, &'static str)]
    ensures { map (λ row. (row.0, row.1.now)) result.now ≡ table kind }
{
    match kind {
        Kind::EncryptionType => &ENCRYPTION_TYPES,
        Kind::ChecksumType => &CHECKSUM_TYPES,
        Kind::NameType => &NAME_TYPES,
        Kind::MessageType => &MESSAGE_TYPES,
        Kind::ErrorCode => &ERROR_CODES,
        Kind::PaDataType => &PA_DATA_TYPES,
        Kind::AuthorizationDataType => &AUTHORIZATION_DATA_TYPES,
        Kind::AddressType => &ADDRESS_TYPES,
        Kind::TransitedEncodingType => &TRANSITED_ENCODING_TYPES,
        Kind::LastRequestType => &LAST_REQUEST_TYPES,
        Kind::TicketFlag => &TICKET_FLAGS,
        Kind::KdcOption => &KDC_OPTIONS,
        Kind::ApOption => &AP_OPTIONS,
        Kind::KeyUsage => &KEY_USAGES,
        Kind::PacBufferType => &PAC_BUFFER_TYPES,
        Kind::GssFlag => &GSS_FLAGS,
        Kind::NegotiationState => &NEGOTIATION_STATES,
        Kind::ContextFlag => &CONTEXT_FLAGS,
        Kind::TokenFlag => &TOKEN_FLAGS,
    }
}

/// The mechanisms.
#[tactic(auto, unfolding(crate::specs::Names::mechanisms))]
pub(crate) fn mechanism_rows() -> &'static [(&'static str, &'static str)]
    ensures { map (λ row. (row.0.now, row.1.now)) result.now ≡ mechanisms }
{
    &MECHANISMS
}

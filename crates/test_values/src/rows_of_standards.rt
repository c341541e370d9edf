//! Rows of the standards' tables, typed apart from the tables of `krb_registry`.

use krb_registry::{Kind, mechanism_identifier, mechanism_name, name, number};

/// One to three rows of each table.
const ROWS: [(Kind, i64, &str); 38] = [
    (Kind::EncryptionType, 18, "aes256-cts-hmac-sha1-96"),
    (Kind::EncryptionType, 23, "rc4-hmac"),
    (Kind::EncryptionType, 65, "subkey-keymaterial"),
    (Kind::ChecksumType, 16, "hmac-sha1-96-aes256"),
    (Kind::ChecksumType, -138, "KERB_CHECKSUM_HMAC_MD5"),
    (Kind::NameType, 1, "NT-PRINCIPAL"),
    (Kind::NameType, -130, "NT-ENT-PRINCIPAL-AND-ID"),
    (Kind::MessageType, 10, "AS-REQ"),
    (Kind::MessageType, 30, "KRB-ERROR"),
    (Kind::ErrorCode, 25, "KDC_ERR_PREAUTH_REQUIRED"),
    (Kind::ErrorCode, 37, "KRB_AP_ERR_SKEW"),
    (Kind::ErrorCode, 100, "KDC_ERR_NO_ACCEPTABLE_KDF"),
    (Kind::PaDataType, 2, "PA-ENC-TIMESTAMP"),
    (Kind::PaDataType, 167, "PA-PAC-OPTIONS"),
    (Kind::AuthorizationDataType, 1, "AD-IF-RELEVANT"),
    (Kind::AuthorizationDataType, 128, "AD-WIN2K-PAC"),
    (Kind::AddressType, 2, "IPv4"),
    (Kind::AddressType, 24, "IPv6"),
    (Kind::TransitedEncodingType, 1, "DOMAIN-X500-COMPRESS"),
    (Kind::LastRequestType, 7, "LR-ACCT-EXPTIME"),
    (Kind::TicketFlag, 1, "forwardable"),
    (Kind::TicketFlag, 16, "anonymous"),
    (Kind::KdcOption, 27, "renewable-ok"),
    (Kind::KdcOption, 31, "validate"),
    (Kind::ApOption, 2, "mutual-required"),
    (Kind::KeyUsage, 22, "KG-USAGE-ACCEPTOR-SEAL"),
    (Kind::KeyUsage, 51, "KEY_USAGE_FAST_ENC"),
    (Kind::KeyUsage, 65, "KEY_USAGE_SPAKE"),
    (Kind::PacBufferType, 1, "KRB5_PAC_LOGON_INFO"),
    (Kind::PacBufferType, 19, "KRB5_PAC_FULL_CHECKSUM"),
    (Kind::GssFlag, 31, "GSS_C_DELEG_FLAG"),
    (Kind::GssFlag, 17, "GSS_C_EXTENDED_ERROR_FLAG"),
    (Kind::NegotiationState, 0, "accept-completed"),
    (Kind::NegotiationState, 3, "request-mic"),
    (Kind::ContextFlag, 1, "mutualFlag"),
    (Kind::ContextFlag, 6, "integFlag"),
    (Kind::TokenFlag, 0, "SentByAcceptor"),
    (Kind::TokenFlag, 2, "AcceptorSubkey"),
];

#[test]
fn rows_of_standards(rt: HostRuntime) {
    for row in &ROWS {
        assert!(rt; name(row.0, row.1) == Some(row.2), "{}", row.2);
        assert!(rt; number(row.0, row.2) == Some(row.1), "{}", row.2);
    }
    assert!(rt; name(Kind::ErrorCode, 43) == None);
    assert!(rt; number(Kind::NameType, "nt-principal") == None);
}

/// Identifiers of mechanisms and their names.
const MECHANISMS: [(&str, &str); 4] = [
    ("1.2.840.113554.1.2.2", "KRB5"),
    ("1.2.840.48018.1.2.2", "MS-KRB5"),
    ("1.3.6.1.4.1.311.2.2.10", "NTLMSSP"),
    ("1.3.6.1.5.5.2", "SPNEGO"),
];

#[test]
fn mechanisms_of_standards(rt: HostRuntime) {
    for row in &MECHANISMS {
        assert!(rt; mechanism_name(row.0) == Some(row.1), "{}", row.1);
        assert!(rt; mechanism_identifier(row.1) == Some(row.0), "{}", row.1);
    }
    assert!(rt; mechanism_name("1.2.840") == None);
    assert!(rt; mechanism_identifier("krb5") == None);
}

//! Error codes, as a KRB-ERROR has them (RFC 4120, 7.5.9; draft-ietf-kitten-iakerb-03, 3).

/// No error.
pub const KDC_ERR_NONE: u32 = 0;

/// The client's entry in the database has expired.
pub const KDC_ERR_NAME_EXP: u32 = 1;

/// The server's entry in the database has expired.
pub const KDC_ERR_SERVICE_EXP: u32 = 2;

/// The version of the protocol is not supported.
pub const KDC_ERR_BAD_PVNO: u32 = 3;

/// The client's key is encrypted in an old master key.
pub const KDC_ERR_C_OLD_MAST_KVNO: u32 = 4;

/// The server's key is encrypted in an old master key.
pub const KDC_ERR_S_OLD_MAST_KVNO: u32 = 5;

/// The client is not found in the Kerberos database.
pub const KDC_ERR_C_PRINCIPAL_UNKNOWN: u32 = 6;

/// The server is not found in the Kerberos database.
pub const KDC_ERR_S_PRINCIPAL_UNKNOWN: u32 = 7;

/// The database has more than one entry of the principal.
pub const KDC_ERR_PRINCIPAL_NOT_UNIQUE: u32 = 8;

/// The client or the server has a null key.
pub const KDC_ERR_NULL_KEY: u32 = 9;

/// The ticket is not eligible for postdating.
pub const KDC_ERR_CANNOT_POSTDATE: u32 = 10;

/// The requested start time is later than the end time.
pub const KDC_ERR_NEVER_VALID: u32 = 11;

/// The policy of the KDC rejects the request.
pub const KDC_ERR_POLICY: u32 = 12;

/// The KDC cannot accommodate the requested option.
pub const KDC_ERR_BADOPTION: u32 = 13;

/// The KDC does not support the encryption type.
pub const KDC_ERR_ETYPE_NOSUPP: u32 = 14;

/// The KDC does not support the checksum type.
pub const KDC_ERR_SUMTYPE_NOSUPP: u32 = 15;

/// The KDC does not support the type of pre-authentication data.
pub const KDC_ERR_PADATA_TYPE_NOSUPP: u32 = 16;

/// The KDC does not support the transited type.
pub const KDC_ERR_TRTYPE_NOSUPP: u32 = 17;

/// The client's credentials have been revoked.
pub const KDC_ERR_CLIENT_REVOKED: u32 = 18;

/// The server's credentials have been revoked.
pub const KDC_ERR_SERVICE_REVOKED: u32 = 19;

/// The ticket-granting ticket has been revoked.
pub const KDC_ERR_TGT_REVOKED: u32 = 20;

/// The client is not yet valid; try again later.
pub const KDC_ERR_CLIENT_NOTYET: u32 = 21;

/// The server is not yet valid; try again later.
pub const KDC_ERR_SERVICE_NOTYET: u32 = 22;

/// The password has expired; change it to reset.
pub const KDC_ERR_KEY_EXPIRED: u32 = 23;

/// The pre-authentication information was invalid.
pub const KDC_ERR_PREAUTH_FAILED: u32 = 24;

/// More pre-authentication is required.
pub const KDC_ERR_PREAUTH_REQUIRED: u32 = 25;

/// The requested server and the ticket do not match.
pub const KDC_ERR_SERVER_NOMATCH: u32 = 26;

/// The server is valid for user-to-user authentication only.
pub const KDC_ERR_MUST_USE_USER2USER: u32 = 27;

/// The KDC's policy rejects the transited path.
pub const KDC_ERR_PATH_NOT_ACCEPTED: u32 = 28;

/// A service is not available.
pub const KDC_ERR_SVC_UNAVAILABLE: u32 = 29;

/// The integrity check on the decrypted field failed.
pub const KRB_AP_ERR_BAD_INTEGRITY: u32 = 31;

/// The ticket has expired.
pub const KRB_AP_ERR_TKT_EXPIRED: u32 = 32;

/// The ticket is not yet valid.
pub const KRB_AP_ERR_TKT_NYV: u32 = 33;

/// The request is a replay.
pub const KRB_AP_ERR_REPEAT: u32 = 34;

/// The ticket is not for us.
pub const KRB_AP_ERR_NOT_US: u32 = 35;

/// The ticket and the authenticator do not match.
pub const KRB_AP_ERR_BADMATCH: u32 = 36;

/// The skew of the clocks is too great.
pub const KRB_AP_ERR_SKEW: u32 = 37;

/// The network address is incorrect.
pub const KRB_AP_ERR_BADADDR: u32 = 38;

/// The protocol versions do not match.
pub const KRB_AP_ERR_BADVERSION: u32 = 39;

/// The message type is invalid.
pub const KRB_AP_ERR_MSG_TYPE: u32 = 40;

/// The message stream was modified.
pub const KRB_AP_ERR_MODIFIED: u32 = 41;

/// The message is out of order.
pub const KRB_AP_ERR_BADORDER: u32 = 42;

/// The specified version of the key is not available.
pub const KRB_AP_ERR_BADKEYVER: u32 = 44;

/// The service key is not available.
pub const KRB_AP_ERR_NOKEY: u32 = 45;

/// Mutual authentication failed.
pub const KRB_AP_ERR_MUT_FAIL: u32 = 46;

/// The direction of the message is incorrect.
pub const KRB_AP_ERR_BADDIRECTION: u32 = 47;

/// An alternative authentication method is required.
pub const KRB_AP_ERR_METHOD: u32 = 48;

/// The sequence number in the message is incorrect.
pub const KRB_AP_ERR_BADSEQ: u32 = 49;

/// The type of the checksum in the message is inappropriate.
pub const KRB_AP_ERR_INAPP_CKSUM: u32 = 50;

/// The policy rejects the transited path.
pub const KRB_AP_PATH_NOT_ACCEPTED: u32 = 51;

/// The response is too big for UDP; retry with TCP.
pub const KRB_ERR_RESPONSE_TOO_BIG: u32 = 52;

/// A generic error, whose description is in `e-text`.
pub const KRB_ERR_GENERIC: u32 = 60;

/// A field is too long for this implementation.
pub const KRB_ERR_FIELD_TOOLONG: u32 = 61;

/// The client is not trusted, in PKINIT.
pub const KDC_ERROR_CLIENT_NOT_TRUSTED: u32 = 62;

/// The KDC is not trusted, in PKINIT.
pub const KDC_ERROR_KDC_NOT_TRUSTED: u32 = 63;

/// The signature is invalid, in PKINIT.
pub const KDC_ERROR_INVALID_SIG: u32 = 64;

/// A stronger key is needed, in PKINIT.
pub const KDC_ERR_KEY_TOO_WEAK: u32 = 65;

/// The certificates do not match, in PKINIT.
pub const KDC_ERR_CERTIFICATE_MISMATCH: u32 = 66;

/// No ticket-granting ticket is available to validate user-to-user authentication.
pub const KRB_AP_ERR_NO_TGT: u32 = 67;

/// The request was sent to the wrong realm.
pub const KDC_ERR_WRONG_REALM: u32 = 68;

/// The ticket must be for user-to-user authentication.
pub const KRB_AP_ERR_USER_TO_USER_REQUIRED: u32 = 69;

/// The certificate cannot be verified, in PKINIT.
pub const KDC_ERR_CANT_VERIFY_CERTIFICATE: u32 = 70;

/// The certificate is invalid, in PKINIT.
pub const KDC_ERR_INVALID_CERTIFICATE: u32 = 71;

/// The certificate is revoked, in PKINIT.
pub const KDC_ERR_REVOKED_CERTIFICATE: u32 = 72;

/// Whether the certificate is revoked is not known, in PKINIT.
pub const KDC_ERR_REVOCATION_STATUS_UNKNOWN: u32 = 73;

/// Whether the certificate is revoked cannot be found out, in PKINIT.
pub const KDC_ERR_REVOCATION_STATUS_UNAVAILABLE: u32 = 74;

/// The client's name and its certificate do not match, in PKINIT.
pub const KDC_ERR_CLIENT_NAME_MISMATCH: u32 = 75;

/// The KDC's name and its certificate do not match, in PKINIT.
pub const KDC_ERR_KDC_NAME_MISMATCH: u32 = 76;

/// The IAKERB proxy could not find a KDC (draft-ietf-kitten-iakerb-03, 3).
pub const KRB_AP_ERR_IAKERB_KDC_NOT_FOUND: u32 = 85;

/// The KDC did not respond to the IAKERB proxy (draft-ietf-kitten-iakerb-03, 3).
pub const KRB_AP_ERR_IAKERB_KDC_NO_RESPONSE: u32 = 86;

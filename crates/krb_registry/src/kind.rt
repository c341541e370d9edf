//! The kinds of numbers that have names.

/// What a number is of. Each kind is one table of a standard, or of several that share their numbers.
#[derive(Clone, Copy, PartialEq, Eq)]
pub enum Kind {
    /// Encryption types, as `etype` of an EncryptedData and `keytype` of an EncryptionKey have them: `aes256-cts-hmac-sha1-96`
    /// (RFC 3961, 8; RFC 3962, 7; RFC 4757; RFC 6803, 9; RFC 8009, 7; IANA, Kerberos Encryption Type Numbers).
    EncryptionType,
    /// Checksum types, as `cksumtype` of a Checksum has them: `hmac-sha1-96-aes256` (RFC 3961, 8; RFC 3962, 7; RFC 4757;
    /// RFC 6803, 9; RFC 8009, 7; IANA, Kerberos Checksum Type Numbers).
    ChecksumType,
    /// Name types, as `name-type` of a PrincipalName has them: `NT-PRINCIPAL` (RFC 4120, 6.2; 11: RFC 6111; 12: RFC 5179; the
    /// negative ones: those of Windows, as krb5.h of MIT Kerberos has them).
    NameType,
    /// Message types, as `msg-type` of a message has them: `KRB-ERROR` (RFC 4120, 7.5.7; TGT-REQ and TGT-REP:
    /// draft-swift-win2k-krb-user2user-03).
    MessageType,
    /// Error codes, as `error-code` of a KRB-ERROR has them: `KDC_ERR_PREAUTH_REQUIRED` (RFC 4120, 7.5.9; 62 to 66, 70 to 81:
    /// RFC 4556, 3.1.3; 85, 86: draft-ietf-kitten-iakerb-03, 3; 90 to 93: RFC 6113; 100: RFC 8636).
    ErrorCode,
    /// Types of pre-authentication and of typed data, as `padata-type` of a PA-DATA has them: `PA-ENC-TIMESTAMP` (RFC 4120,
    /// 7.5.2; RFC 4556, 3.1.3; RFC 6113; IANA, Pre-authentication and Typed Data, with a hyphen for each underscore; 167:
    /// MS-KILE).
    PaDataType,
    /// Types of authorization data, as `ad-type` of an AuthorizationData has them: `AD-IF-RELEVANT` (RFC 4120, 7.5.4; 9:
    /// RFC 4556, 3.1.3; 70 to 72: RFC 6113; 96: RFC 7751; 97: RFC 8129; 141 to 143: MS-KILE).
    AuthorizationDataType,
    /// Address types, as `addr-type` of a HostAddress has them: `IPv4` (RFC 4120, 7.5.3).
    AddressType,
    /// Transited encoding types, as `tr-type` of a TransitedEncoding has them: `DOMAIN-X500-COMPRESS` (RFC 4120, 7.5.5).
    TransitedEncodingType,
    /// Last request types, as `lr-type` of a LastReq has them, of all servers: `LR-INITIAL-TGT`. A negative one, of this server
    /// alone, has no name (RFC 4120, 5.4.2, which gives the numbers; the names are those of Heimdal and Wireshark).
    LastRequestType,
    /// Flags of tickets, by the number of their bit in TicketFlags, counted from 0 at the left: `forwardable` (RFC 4120, 2.8
    /// and 5.3; enc-pa-rep: RFC 6806, 11; anonymous: RFC 8062, 3).
    TicketFlag,
    /// Options of a request to a KDC, by the number of their bit in KDCOptions, counted from 0 at the left: `renewable-ok`
    /// (RFC 4120, 5.4.1; canonicalize: RFC 6806, 3; request-anonymous: RFC 8062, 3; cname-in-addl-tkt: MS-SFU, 2.2.3).
    KdcOption,
    /// Options of an AP-REQ, by the number of their bit in APOptions, counted from 0 at the left: `mutual-required` (RFC 4120,
    /// 5.5.1).
    ApOption,
    /// Key usages, what a key is used for: `KEY_USAGE_FAST_ENC` (1 to 19: RFC 4120, 7.5.1; 22 to 25: RFC 4121, 2; 26, 27:
    /// MS-SFU; 41: draft-zhu-pku2u-04, 6; 42: draft-ietf-kitten-iakerb; 44: RFC 6112; 45: RFC 6560; 50 to 56: RFC 6113; 64:
    /// RFC 7751; 65: RFC 9588; where these give no name, that of krb5.h of MIT Kerberos).
    KeyUsage,
    /// Types of a PAC's buffers, as `ulType` of a PAC_INFO_BUFFER has them: `KRB5_PAC_LOGON_INFO` (MS-PAC, 2.4, which gives the
    /// numbers; the names are those of krb5.h of MIT Kerberos).
    PacBufferType,
    /// Flags of a context of the GSS-API, by the number of their bit in the 32 bits of Flags of an authenticator's checksum, the highest
    /// octet first, counted from 0 at the left, so that 31 is the flag of the value 1: `GSS_C_DELEG_FLAG` (RFC 4121, 4.1.1.1;
    /// GSS_C_DCE_STYLE, GSS_C_IDENTIFY_FLAG and GSS_C_EXTENDED_ERROR_FLAG: RFC 4757, 7.1).
    GssFlag,
    /// States of a negotiation, as `negState` of a NegTokenResp has them: `accept-completed` (RFC 4178, 4.2.2).
    NegotiationState,
    /// Flags that the initiator of a negotiation asks for, by the number of their bit in ContextFlags, counted from 0 at the left:
    /// `mutualFlag` (RFC 4178, 4.2.1).
    ContextFlag,
    /// Flags of a MIC or Wrap token, by the number of their bit in its octet, the least significant is 0: `Sealed` (RFC 4121,
    /// 4.2.2).
    TokenFlag,
}

//! Octets of GSS tokens (RFC 4121; RFC 4178, 4.2.2).

/// The token id of a KRB-AP-REQ (RFC 4121, 4.1).
pub const AP_REQ_TOKEN_ID: [u8; 2] = [0x01, 0x00];

/// The token id of a KRB-AP-REP (RFC 4121, 4.1).
pub const AP_REP_TOKEN_ID: [u8; 2] = [0x02, 0x00];

/// The token id of a KRB-TGT-REQ (draft-swift-win2k-krb-user2user-03, 7).
pub const TGT_REQ_TOKEN_ID: [u8; 2] = [0x04, 0x00];

/// The token id of a KRB-TGT-REP (draft-swift-win2k-krb-user2user-03, 7).
pub const TGT_REP_TOKEN_ID: [u8; 2] = [0x04, 0x01];

/// The token id of a KRB-AS-REQ (draft-zhu-pku2u-09, 6).
pub const AS_REQ_TOKEN_ID: [u8; 2] = [0x05, 0x00];

/// The token id of a KRB-AS-REP (draft-zhu-pku2u-09, 6).
pub const AS_REP_TOKEN_ID: [u8; 2] = [0x06, 0x00];

/// The token id of a MIC token (RFC 4121, 4.2.6.1).
pub const MIC_TOKEN_ID: [u8; 2] = [0x04, 0x04];

/// The token id of a Wrap token (RFC 4121, 4.2.6.2).
pub const WRAP_TOKEN_ID: [u8; 2] = [0x05, 0x04];

/// The token id of an IAKERB_PROXY message (draft-ietf-kitten-iakerb-03, 3).
pub const IAKERB_PROXY_TOKEN_ID: [u8; 2] = [0x05, 0x01];

/// The encoding of `accept-completed`, a state of a negotiation (RFC 4178, 4.2.2).
pub const ACCEPT_COMPLETE: [u8; 3] = [0x0a, 0x01, 0x00];

/// The encoding of `accept-incomplete`, a state of a negotiation (RFC 4178, 4.2.2).
pub const ACCEPT_INCOMPLETE: [u8; 3] = [0x0a, 0x01, 0x01];

/// What fills octets 3 to 7 of a MIC token (RFC 4121, 4.2.6.1).
pub const MIC_FILLER: [u8; 5] = [0xff, 0xff, 0xff, 0xff, 0xff];

/// What fills octet 3 of a Wrap token (RFC 4121, 4.2.6.2).
pub const WRAP_FILLER: u8 = 0xff;

/// The checksum type of the authenticator in a GSS token, 0x8003, as the octets of an INTEGER (RFC 4121, 4.1.1).
pub const AUTHENTICATOR_CHECKSUM_TYPE: [u8; 3] = [0x00, 0x80, 0x03];

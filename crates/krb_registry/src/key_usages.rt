//! Key usage numbers (RFC 4120, 7.5.1; RFC 4121, 2): what a key is used on.

/// The PA-ENC-TIMESTAMP of an AS-REQ, under the key of the client (RFC 4120, 7.5.1).
pub const AS_REQ_TIMESTAMP: i32 = 1;

/// The ticket in an AS-REP or TGS-REP, under the key of the service (RFC 4120, 7.5.1).
pub const TICKET_REP: i32 = 2;

/// The encrypted part of an AS-REP, under the key of the client (RFC 4120, 7.5.1).
pub const AS_REP_ENC: i32 = 3;

/// The authorization data of a TGS-REQ, under the session key (RFC 4120, 7.5.1).
pub const TGS_REQ_AUTH_DATA_SESSION_KEY: i32 = 4;

/// The authorization data of a TGS-REQ, under the subkey of its authenticator (RFC 4120, 7.5.1).
pub const TGS_REQ_AUTH_DATA_SUB_KEY: i32 = 5;

/// The checksum in the authenticator of a TGS-REQ, under the session key (RFC 4120, 7.5.1).
pub const TGS_REQ_PA_DATA_AP_REQ_AUTHENTICATOR_CKSUM: i32 = 6;

/// The authenticator of a TGS-REQ, under the session key (RFC 4120, 7.5.1).
pub const TGS_REQ_PA_DATA_AP_REQ_AUTHENTICATOR: i32 = 7;

/// The encrypted part of a TGS-REP, under the session key (RFC 4120, 7.5.1).
pub const TGS_REP_ENC_SESSION_KEY: i32 = 8;

/// The encrypted part of a TGS-REP, under the subkey of the authenticator (RFC 4120, 7.5.1).
pub const TGS_REP_ENC_SUB_KEY: i32 = 9;

/// The checksum in the authenticator of an AP-REQ, under the session key (RFC 4120, 7.5.1).
pub const AP_REQ_AUTHENTICATOR_CKSUM: i32 = 10;

/// The authenticator of an AP-REQ, under the session key (RFC 4120, 7.5.1).
pub const AP_REQ_AUTHENTICATOR: i32 = 11;

/// The encrypted part of an AP-REP, under the session key (RFC 4120, 7.5.1).
pub const AP_REP_ENC: i32 = 12;

/// The encrypted part of a KRB-PRIV (RFC 4120, 7.5.1).
pub const KRB_PRIV_ENC_PART: i32 = 13;

/// The encrypted part of a KRB-CRED (RFC 4120, 7.5.1).
pub const KRB_CRED_ENC_PART: i32 = 14;

/// A sealed token of the acceptor (RFC 4121, 2).
pub const ACCEPTOR_SEAL: i32 = 22;

/// A signed token of the acceptor (RFC 4121, 2).
pub const ACCEPTOR_SIGN: i32 = 23;

/// A sealed token of the initiator (RFC 4121, 2).
pub const INITIATOR_SEAL: i32 = 24;

/// A signed token of the initiator (RFC 4121, 2).
pub const INITIATOR_SIGN: i32 = 25;

/// The checksum of a KRB-FINISHED (draft-zhu-pku2u-04, 6).
pub const KEY_USAGE_FINISHED: i32 = 41;

//! Numbers of messages, names, pre-authentication data, application tags and addresses (RFC 4120, 5.10, 6.2 and 7.5).

/// The message type and application tag of a KRB-AS-REQ (RFC 4120, 5.10 and 7.5.7).
pub const AS_REQ_MSG_TYPE: u8 = 10;

/// The message type and application tag of a KRB-AS-REP (RFC 4120, 5.10 and 7.5.7).
pub const AS_REP_MSG_TYPE: u8 = 11;

/// The message type and application tag of a KRB-TGS-REQ (RFC 4120, 5.10 and 7.5.7).
pub const TGS_REQ_MSG_TYPE: u8 = 12;

/// The message type and application tag of a KRB-TGS-REP (RFC 4120, 5.10 and 7.5.7).
pub const TGS_REP_MSG_TYPE: u8 = 13;

/// The message type and application tag of a KRB-AP-REQ (RFC 4120, 5.10 and 7.5.7).
pub const AP_REQ_MSG_TYPE: u8 = 14;

/// The message type and application tag of a KRB-AP-REP (RFC 4120, 5.10 and 7.5.7).
pub const AP_REP_MSG_TYPE: u8 = 15;

/// The message type of a KRB-TGT-REQ (draft-swift-win2k-krb-user2user-03, 6; RFC 4120, 7.5.7, reserves it).
pub const TGT_REQ_MSG_TYPE: u8 = 16;

/// The message type of a KRB-TGT-REP (draft-swift-win2k-krb-user2user-03, 6; RFC 4120, 7.5.7, reserves it).
pub const TGT_REP_MSG_TYPE: u8 = 17;

/// The message type and application tag of a KRB-PRIV (RFC 4120, 5.10 and 7.5.7).
pub const KRB_PRIV: u8 = 21;

/// The application tag of an EncKrbPrivPart (RFC 4120, 5.7.1).
pub const KRB_PRIV_ENC_PART: u8 = 28;

/// The message type and application tag of a KRB-CRED (RFC 4120, 5.10 and 7.5.7).
pub const KRB_CRED_MSG_TYPE: u8 = 22;

/// The message type and application tag of a KRB-ERROR (RFC 4120, 5.10 and 7.5.7).
pub const KRB_ERROR_MSG_TYPE: u8 = 30;

/// A name of a type that is not known (RFC 4120, 6.2).
pub const NT_UNKNOWN: u8 = 0;

/// The name of a principal, as of a user (RFC 4120, 6.2).
pub const NT_PRINCIPAL: u8 = 1;

/// A service and another unique part, as `krbtgt` has (RFC 4120, 6.2).
pub const NT_SRV_INST: u8 = 2;

/// A service with the name of its host as instance (RFC 4120, 6.2).
pub const NT_SRV_HST: u8 = 3;

/// A service with its host as the remaining components (RFC 4120, 6.2).
pub const NT_SRV_XHST: u8 = 4;

/// A unique identifier (RFC 4120, 6.2).
pub const NT_UID: u8 = 5;

/// An encoded X.509 distinguished name (RFC 4120, 6.2).
pub const NT_X500_PRINCIPAL: u8 = 6;

/// A name in the form of an e-mail address (RFC 4120, 6.2).
pub const NT_SMTP_NAME: u8 = 7;

/// An enterprise name, which may be mapped to the name of a principal (RFC 4120, 6.2).
pub const NT_ENTERPRISE: u8 = 10;

/// The type of a PA-ENC-TIMESTAMP, 2, as the octets of an INTEGER (RFC 4120, 7.5.2).
pub const PA_ENC_TIMESTAMP: [u8; 1] = [0x02];

/// The key usage of a PA-ENC-TIMESTAMP (RFC 4120, 5.2.7.2).
pub const PA_ENC_TIMESTAMP_KEY_USAGE: i32 = 1;

/// The type of a KERB-PA-PAC-REQUEST, 128, as the octets of an INTEGER (MS-KILE, 2.2.3).
pub const PA_PAC_REQUEST_TYPE: [u8; 2] = [0x00, 0x80];

/// The type of a PA-ETYPE-INFO2, 19, as the octets of an INTEGER (RFC 4120, 7.5.2).
pub const PA_ETYPE_INFO2_TYPE: [u8; 1] = [0x13];

/// The type of a PA-TGS-REQ, 1, as the octets of an INTEGER (RFC 4120, 7.5.2).
pub const PA_TGS_REQ_TYPE: [u8; 1] = [0x01];

/// The type of a PA-PAC-OPTIONS, 167, as the octets of an INTEGER (MS-KILE, 2.2.10).
pub const PA_PAC_OPTIONS_TYPE: [u8; 2] = [0x00, 0xa7];

/// The type of a PA-PK-AS-REQ, 16, as the octets of an INTEGER (RFC 4556, 3.1.3).
pub const PA_PK_AS_REQ: [u8; 1] = [0x10];

/// The type of a PA-PK-AS-REP, 17, as the octets of an INTEGER (RFC 4556, 3.1.3).
pub const PA_PK_AS_REP: [u8; 1] = [0x11];

/// The application tag of a Ticket (RFC 4120, 5.3).
pub const TICKET_TYPE: u8 = 1;

/// The application tag of an Authenticator (RFC 4120, 5.5.1).
pub const AUTHENTICATOR_TYPE: u8 = 2;

/// The application tag of an EncTicketPart (RFC 4120, 5.3).
pub const ENC_TICKET_PART_TYPE: u8 = 3;

/// The application tag of an EncASRepPart (RFC 4120, 5.4.2).
pub const ENC_AS_REP_PART_TYPE: u8 = 25;

/// The application tag of an EncTGSRepPart (RFC 4120, 5.4.2).
pub const ENC_TGS_REP_PART_TYPE: u8 = 26;

/// The application tag of an EncAPRepPart (RFC 4120, 5.5.2).
pub const ENC_AP_REP_PART_TYPE: u8 = 27;

/// The application tag of an EncKrbCredPart (RFC 4120, 5.8.1).
pub const ENC_KRB_CRED_PART_TYPE: u8 = 29;

/// The type of an Internet address of version 4 (RFC 4120, 7.5.3).
pub const IP_V4_ADDR_TYPE: u8 = 2;

/// The type of a directional address (RFC 4120, 7.5.3).
pub const DIRECTIONAL_ADDR_TYPE: u8 = 3;

/// The type of a ChaosNet address (RFC 4120, 7.5.3).
pub const CHAOS_NET_ADDR_TYPE: u8 = 5;

/// The type of an address of Xerox Network Services (RFC 4120, 7.5.3).
pub const XNS_ADDR_TYPE: u8 = 6;

/// The type of an ISO address (RFC 4120, 7.5.3).
pub const ISO_ADDR_TYPE: u8 = 7;

/// The type of a DECnet Phase IV address (RFC 4120, 7.5.3).
pub const DECNET_PHASE_IV_ADDR_TYPE: u8 = 12;

/// The type of an AppleTalk DDP address (RFC 4120, 7.5.3).
pub const APPLETALK_DDP_ADDR_TYPE: u8 = 16;

/// The type of a NetBIOS address (RFC 4120, 7.5.3).
pub const NET_BIOS_ADDR_TYPE: u8 = 20;

/// The type of an Internet address of version 6 (RFC 4120, 7.5.3).
pub const IP_V6_ADDR_TYPE: u8 = 24;

/// The type of AD-AUTH-DATA-AP-OPTIONS, 143, as the octets of an INTEGER (MS-KILE, 3.2.5.8).
pub const AD_AUTH_DATA_AP_OPTION_TYPE: [u8; 2] = [0x00, 0x8f];

/// That channel bindings are sent, as in AD-AUTH-DATA-AP-OPTIONS (MS-KILE, 3.2.5.8).
pub const KERB_AP_OPTIONS_CBT: [u8; 2] = [0x40, 0x00];

//! The messages between clients, servers, KDCs and proxies (RFC 4120, 5.4 to 5.9), and the frames of the protocol that changes
//! passwords (RFC 3244).

pub use krb_gss_tokens::iakerb_header::messages::{IAKerbCookie, IAKerbHeader};
pub use krb_messages::kpasswd::KrbPrivMessage;
pub use krb_messages::messages::{
    ApMessage, ApRep, ApRepInner, ApReq, ApReqInner, AsRep, AsReq, EncAsRepPart, EncKdcRepPart,
    EncTgsRepPart, KdcProxyMessage, KdcRep, KdcReq, KdcReqBody, KrbCred, KrbCredInner, KrbError,
    KrbErrorInner, KrbPriv, KrbPrivInner, TgsRep, TgsReq, TgtRep, TgtReq,
};

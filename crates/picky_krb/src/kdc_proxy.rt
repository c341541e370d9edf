//! What a proxy in front of a KDC passes on and what it does not (MS-KKDCP), and the client's half. The original has no such module.

pub use krb_kdc_proxy::{
    LenientRequest, MAXIMUM_REQUEST, MessageError, MessageKind, ProxyError, ProxyReply,
    ProxyRequest, Reply, Service, Whole, is_whole, laws, read_reply, read_request,
    read_request_lenient, write_reply, write_reply_datagram, write_request,
};

//! What a client asks of a KDC and of a service, as octets, and whether a reply answers it (RFC 4120, 3.1 to 3.3; RFC 4121, 4.1.1); and the exchanges of these, from the
//! first request to a ticket. The original has no such module.

pub use krb_client::keys::{
    Client, HintError, Limits, PasswordError, Secret, client_key, key_of_password, told_key,
};
pub use krb_client::replies::{
    Granted, ReplyError, Reported, check_ap_rep, check_as_rep, check_tgs_rep, read_error,
};
pub use krb_client::requests::{
    ApRequest, GssChecksum, LentKey, RequestError, Sender, Want, ap_request, as_request, marked,
    pa_enc_timestamp, request_checksum, tgs_request,
};
pub use krb_client::{
    ByTicket, ClientError, InitialExchange, InitialStep, Moment, RenameError, ServiceExchange,
    ServiceStep, Terms,
};
pub use krb_client_rules::{
    Asked, Clock, KdcReply, Key, Mismatch, ReplyPart, Sent, answers, has_time, is_expected,
};

//! Whether a service lets in a client that sent an AP-REQ, alone or in an initial context token, and what it answers (RFC 4120, 3.2.3; RFC 4121, 4.1). The
//! original has no such module.

pub use krb_accept::{
    Accepted, Arrival, ChannelBindings, Context, ContextChecksum, Delegated, Entry, InnerToken,
    Kerberos, PacCheck, Presented, PresentedToken, Refusal, ReplayCache, ReplyError, Rule,
    ServerName, ServiceKey, Settings, Terms, ThirdLegError, TicketFields, TokenRefusal, accept,
    accept_token, admit, admit_token, channel_bindings, check_third_leg, checksum_of,
    confirm_by_key, confirm_third_leg, entry_octets, error_reply, error_reply_token,
    keys_of_keytab, laws, message_in, present, present_token, reply, reply_token, suite_of,
    token_key, token_of, wants_reply,
};
pub use krb_accept_rules::{
    AuthenticatorFields, Opening, RequestFields, check_request, check_session, judge,
    realm_of_text, server_of_text,
};

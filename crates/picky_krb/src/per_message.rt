//! MIC and Wrap tokens of a context of the GSS-API (RFC 4121, 4.2), and the order in which they come (RFC 2743, 1.2.3). The key is
//! `accept::token_key`.

pub use krb_gss_per_message::{
    Order, ProtectionError, Sender, SequenceWindow, TokenKey, Unwrapped, make_mic, unwrap,
    verify_mic, wrap, wrap_in_clear,
};

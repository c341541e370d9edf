//! Values of their parts: flags, numbers, times, mechanisms and messages. The original has no such module.

pub use krb_build::{
    AsReqParts, BuildError, ErrorParts, Mechanism, ap_req, as_req, bits_of, gss_api_neg_init,
    integer_of, krb_error, neg_token_init, time_of_unix_microseconds, unix_microseconds,
};

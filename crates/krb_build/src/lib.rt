//! Values that callers make most, each of its parts: flags, numbers, times, mechanisms and messages.
#![tactic(auto)]

mod error;
mod flags;
mod integers;
mod mechanisms;
mod messages;
mod times;

pub use error::BuildError;
pub use flags::bits_of;
pub use integers::integer_of;
pub use mechanisms::Mechanism;
pub use messages::{
    AsReqParts, ErrorParts, ap_req, as_req, gss_api_neg_init, krb_error, neg_token_init,
};
pub use times::{time_of_unix_microseconds, unix_microseconds};

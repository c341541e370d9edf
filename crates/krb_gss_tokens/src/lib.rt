//! Tokens of the GSS-API: MIC and Wrap tokens (RFC 4121), SPNEGO (RFC 4178), Kerberos and IAKERB, with the header of IAKERB.
#![tactic(auto)]

mod application_tag_0;
mod error;
mod iakerb;
pub mod iakerb_header;
mod krb_message;
pub mod laws;
mod mic_token;
mod octets;
pub mod per_message_laws;
mod spnego;
mod token;
pub mod token_id;
mod wrap_token;

/// The types and calls of this crate and of the one below it, as `picky_krb::gss_api` re-exports them.
pub mod gss_api {
    pub use crate::application_tag_0::ApplicationTag0;
    pub use crate::iakerb::IAKerbProxyMessage;
    pub use crate::krb_message::KrbMessage;
    pub use crate::spnego::{
        GssApiNegInit, MechType, MechTypeList, NegTokenInit, NegTokenTarg, NegTokenTarg1,
    };
    pub use crate::{GssApiMessageError, MicToken, WrapToken};
}

pub use error::GssApiMessageError;
pub use mic_token::MicToken;
pub use wrap_token::WrapToken;

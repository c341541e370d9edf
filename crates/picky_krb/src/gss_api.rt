//! Tokens of the GSS-API (RFC 2743), of Kerberos (RFC 4121), IAKERB and SPNEGO (RFC 4178).

pub use krb_gss_tokens::gss_api::{
    ApplicationTag0, GssApiMessageError, GssApiNegInit, IAKerbProxyMessage, KrbMessage, MechType,
    MechTypeList, MicToken, NegTokenInit, NegTokenTarg, NegTokenTarg1, WrapToken,
};

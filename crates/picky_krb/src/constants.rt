//! Numbers and octets that the Kerberos standards name.

pub use krb_registry::{
    cksum_types, cred_ssp, error_codes, etypes, gss_api, key_usages, krb_priv, types,
};

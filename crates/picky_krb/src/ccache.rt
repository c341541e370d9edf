//! Credential caches of versions 3 and 4 (MIT Kerberos, "Credential cache file format"): read over the octets that the caller holds, and written.
//! The original has no such module.

pub use krb_files::ccache::{
    CcacheError, CcachePrincipalParts, CcachePrincipalView, CcacheVersion, CcacheView,
    CcacheWriteError, CollectedCredential, CollectedPrincipal, CredentialView, CredentialsView,
    HeaderFieldsView, NewCcache, NewCredential, Times, push_credential, write,
};

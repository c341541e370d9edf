//! Credential caches of versions 3 and 4 (MIT Kerberos, "Credential cache file format"): read over the octets that the caller holds, and
//! written.
//!
//! A contract sees a cache as a value, `CcacheIs b cache` says that the octets `b` are this cache (`specs/Ccache.antt`). No file is
//! opened here.

mod collected;
mod credential;
mod error;
pub mod laws;
mod principal;
mod view;
mod writing;

pub use collected::{CollectedCredential, CollectedPrincipal};
pub use credential::{CredentialView, Times};
pub use error::{CcacheError, CcacheWriteError};
pub use principal::CcachePrincipalView;
pub use view::{CcacheVersion, CcacheView, CredentialsView, HeaderFieldsView};
pub use writing::{CcachePrincipalParts, NewCcache, NewCredential, push_credential, write};

//! A KRB-CRED in the clear (RFC 4120, 5.8.1) as a credential cache (MIT Kerberos, "Credential cache file format"), and back.

mod ccache;
mod credential;
mod error;
mod field;
mod form;
mod kirbi;
mod message;
mod names;
mod numbers;
mod vectors;

pub use ccache::kirbi_of_ccache;
pub use error::ConvertError;
pub use field::{Converted, Field};
pub use kirbi::ccache_of_kirbi;

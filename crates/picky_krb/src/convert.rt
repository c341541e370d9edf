//! A KRB-CRED in the clear (RFC 4120, 5.8.1), as a `.kirbi` is, as a credential cache (MIT Kerberos, "Credential cache file format"), and back. The
//! original has no such module.

pub use krb_file_tools::convert::{
    ConvertError, Converted, Field, ccache_of_kirbi, kirbi_of_ccache,
};

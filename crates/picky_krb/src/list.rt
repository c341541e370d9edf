//! Keytabs and credential caches of MIT Kerberos as lists, a line an entry, as `klist -kte` and `klist -f -e` have them. The original has no such
//! module.

pub use krb_file_tools::list::{ListError, list_of_ccache, list_of_keytab};

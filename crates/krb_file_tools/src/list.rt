//! Keytabs and credential caches of MIT Kerberos as lists, a line an entry, as `klist -kte` and `klist -f -e` have them, in printable ASCII.

mod ccache;
mod error;
mod etype;
mod flags;
mod keytab;
pub mod laws;
mod lines;
mod principal;
mod time;

pub use ccache::list_of_ccache;
pub use error::ListError;
pub use keytab::list_of_keytab;

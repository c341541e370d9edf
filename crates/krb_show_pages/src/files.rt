//! The files of MIT Kerberos as tokens: keytabs ("Keytab file format") and credential caches ("Credential cache file format").

mod ccache;
mod ccache_places;
mod error;
mod keytab;
mod keytab_places;
mod principal;
mod ticket;
mod values;

pub use ccache::page_of_ccache;
pub use ccache_places::places_of_ccache;
pub use error::FilePageError;
pub use keytab::page_of_keytab;
pub use keytab_places::places_of_keytab;

/// The way in which files are shown.
#[derive(Drop)]
pub struct File;

/// The way in which texts of files are shown, which are any octets.
#[derive(Drop)]
struct Text;

/// The way in which the fields of a cache's header are shown.
#[derive(Drop)]
struct HeaderField;

/// The way in which the addresses of a credential are shown.
#[derive(Drop)]
struct Address;

/// The way in which the authorization data of a credential are shown.
#[derive(Drop)]
struct AuthorizationElement;

//! Why octets have no page.

ghost use Rattle.std.specs.Prelude.{◌≡◌};
ghost use Rattle.krb_show_pages.specs.declared.files.error.FilePageError.TheVariants as errors;

use krb_files::ccache::CcacheError;
use krb_files::keytab::KeytabError;
use std::alloc::AllocError;
use thiserror::Error;

/// Why octets have no page as a keytab or as a credential cache (MIT Kerberos, "Keytab file format" and "Credential cache file format").
#[derive(Debug, Clone, Copy, PartialEq, Eq, Error)]
pub enum FilePageError {
    /// They are no keytab: their first error from the left.
    #[error("{0}")]
    Keytab(KeytabError),
    /// They are no credential cache: their first error from the left.
    #[error("{0}")]
    Ccache(CcacheError),
    /// They are a keytab or a credential cache, and an allocation failed.
    #[error("out of memory")]
    OutOfMemory,
}

impl From<KeytabError> for FilePageError {
    ghost from_gives = { λ why e. e ≡ errors.Keytab why };

    fn from(error: KeytabError) -> FilePageError {
        FilePageError::Keytab(error)
    }
}

impl From<CcacheError> for FilePageError {
    ghost from_gives = { λ why e. e ≡ errors.Ccache why };

    fn from(error: CcacheError) -> FilePageError {
        FilePageError::Ccache(error)
    }
}

impl From<AllocError> for FilePageError {
    ghost from_gives = { λ _ e. e ≡ errors.OutOfMemory };

    fn from(_error: AllocError) -> FilePageError {
        FilePageError::OutOfMemory
    }
}

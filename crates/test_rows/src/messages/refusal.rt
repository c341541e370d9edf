//! Why octets are not read, or a value is not written.

use krb_der::Asn1DerError;
use krb_gss_tokens::GssApiMessageError;
use krb_pac::PacError;
use std::alloc::{AllocError, AllocFailed, Global};
use std::fmt::Debug;
use std::io;
use std::io::ErrorKind;

/// An error of a call that reads or writes.
pub trait Rejection: Debug + Drop {
    /// The kind of the I/O error that it is, if it is one.
    fn io_kind(&self) -> Option<ErrorKind>;
}

impl Rejection for io::Error {
    fn io_kind(&self) -> Option<ErrorKind> {
        Some(self.kind())
    }
}

impl Rejection for Asn1DerError {
    fn io_kind(&self) -> Option<ErrorKind> {
        match self {
            Asn1DerError::Io(error) => Some(error.kind()),
            _ => None,
        }
    }
}

impl Rejection for GssApiMessageError {
    fn io_kind(&self) -> Option<ErrorKind> {
        match self {
            GssApiMessageError::IoError(error) => Some(error.kind()),
            _ => None,
        }
    }
}

impl Rejection for PacError {
    fn io_kind(&self) -> Option<ErrorKind> {
        match self {
            PacError::IoError(error) => Some(error.kind()),
            _ => None,
        }
    }
}

/// What `{:?}` writes of the error, or of an I/O error's kind. An allocation failure is returned as such.
pub fn name_of<E: Rejection>(alloc: Global, error: &E) -> Result<String, AllocError> {
    let name = match error.io_kind() {
        Some(kind) => format!(in alloc; "{kind:?}")?,
        None => format!(in alloc; "{error:?}")?,
    };
    if name.as_str() == "OutOfMemory" {
        return Err(AllocError);
    }
    Ok(name)
}

/// Why a test vector has no findings.
#[derive(Drop)]
pub enum Refusal {
    /// Reading its octets is an error of this name.
    Named(String),
    OutOfMemory,
}

impl From<AllocError> for Refusal {
    fn from(_error: AllocError) -> Refusal {
        Refusal::OutOfMemory
    }
}

impl<T: Drop> From<AllocFailed<T>> for Refusal {
    fn from(_failed: AllocFailed<T>) -> Refusal {
        Refusal::OutOfMemory
    }
}

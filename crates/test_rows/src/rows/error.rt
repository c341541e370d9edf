//! Why a line is no row.

use std::alloc::{AllocError, AllocFailed};
use thiserror::Error;

/// Why a line is no row of its table, or that an allocation failed.
#[derive(Debug, Drop, Error)]
pub enum RowError {
    /// The program has no table of the name that stands last before the row.
    #[error("no such table")]
    NoTable,
    /// A column is not there.
    #[error("no such column")]
    NoColumn,
    /// A column that is to be octets has no hexadecimal digits, or no number behind `*`.
    #[error("no hexadecimal digits")]
    NoDigits,
    /// A column that is to be a number is none, or none of the numbers that are meant.
    #[error("no such number")]
    NoNumber,
    /// An allocation failed.
    #[error("out of memory")]
    OutOfMemory,
}

impl From<AllocError> for RowError {
    fn from(_error: AllocError) -> RowError {
        RowError::OutOfMemory
    }
}

impl<T: Drop> From<AllocFailed<T>> for RowError {
    fn from(_failed: AllocFailed<T>) -> RowError {
        RowError::OutOfMemory
    }
}

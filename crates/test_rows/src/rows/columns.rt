//! The columns of a row.

use crate::rows::error::RowError;
use crate::rows::octets::octets_of;
use std::alloc::Global;
use std::str::FromStr;

/// The columns of a row that are not taken yet.
#[derive(Clone, Copy)]
pub struct Columns<'a> {
    /// All of a row at first: what stands between its tabs.
    pub(super) left: Option<&'a str>,
}

impl<'a> Columns<'a> {
    /// Takes the next column. `NoColumn` where none is left.
    pub fn text(&mut self) -> Result<&'a str, RowError> {
        let Some(left) = self.left else {
            return Err(RowError::NoColumn);
        };
        let Some((column, behind)) = left.split_once('\t') else {
            self.left = None;
            return Ok(left);
        };
        self.left = Some(behind);
        Ok(column)
    }

    /// Takes the next column, and returns its octets (`octets_of`).
    pub fn octets(&mut self, alloc: Global) -> Result<Vec<u8>, RowError> {
        octets_of(alloc, self.text()?)
    }

    /// Takes the next column, and returns its number. `NoNumber` where it is none of this type.
    pub fn number<N: FromStr>(&mut self) -> Result<N, RowError>
    where
        N::Err: Drop,
    {
        match self.text()?.parse::<N>() {
            Ok(number) => Ok(number),
            Err(_) => Err(RowError::NoNumber),
        }
    }
}

//! The program `test_rows`: what of the original's calls, of formats and of files no row of `tests/` can ask from outside.
//!
//! Its standard input is tables of rows (`rows`). The module of a table says what its rows are and what is printed of each.
#![tactic(auto)]

mod crypto;
mod fields;
mod messages;
mod pac_checksums;
mod pac_text;
mod rows;

use rows::{Columns, Report, RowError, report_rows};
use std::alloc::Global;
use std::io;
use std::process::ExitCode;

/// What the program prints of a row of the table of this name.
pub(crate) fn report_of(
    alloc: Global,
    table: &str,
    columns: Columns<'_>,
) -> Result<Report, RowError> {
    let text = match table {
        "types" | "messages" | "frames" | "tokens" | "negoex" | "pacs" => {
            return messages::report_of(alloc, table, columns);
        }
        "crypto" => crypto::answer(alloc, columns),
        "pac checksums" => pac_checksums::answer(alloc, columns),
        "fields" => fields::answer(alloc, columns),
        "pac text" => pac_text::answer(alloc, columns),
        _ => Err(RowError::NoTable),
    }?;
    Ok(Report { text, held: true })
}

fn main(rt: HostRuntime) -> io::Result<ExitCode> {
    report_rows(&rt)
}

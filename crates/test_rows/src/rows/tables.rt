//! What is printed of the rows on standard input.

use crate::report_of;
use crate::rows::columns::Columns;
use crate::rows::error::RowError;
use std::alloc::Global;
use std::io;
use std::io::{BufRead, BufReader, ErrorKind};
use std::process::ExitCode;

/// What the program prints of a row, and whether the row has what it should.
#[derive(Drop)]
pub struct Report {
    pub text: String,
    pub held: bool,
}

/// What the program prints of a line that is a row of the table, or that it is none.
fn report_of_line(alloc: Global, table: &str, row: &str) -> io::Result<Report> {
    match report_of(alloc, table, Columns { left: Some(row) }) {
        Ok(report) => Ok(report),
        Err(RowError::OutOfMemory) => Err(io::Error::from(ErrorKind::OutOfMemory)),
        Err(error) => {
            let text = format!(in alloc; "{error}: {row}\n")?;
            Ok(Report { text, held: false })
        }
    }
}

/// Prints what the program prints of each row on its standard input, in their order. The status is 0 where each row has what it
/// should. The error of an allocation, a read or a write ends the program, and of its row nothing is printed.
pub fn report_rows(rt: &HostRuntime) -> io::Result<ExitCode> {
    let alloc = rt.alloc();
    let mut status = ExitCode::SUCCESS;
    let mut table = String::new(alloc);
    for line in BufReader::new(alloc, rt.reader())?.lines(alloc) {
        let line = line?;
        if line.starts_with('#') {
            continue;
        }
        if let Some(name) = line.strip_prefix("== ") {
            table = String::from_str(alloc, name)?;
            continue;
        }
        let report = report_of_line(alloc, table.as_str(), line.as_str())?;
        print!(rt; "{}", report.text)?;
        if !report.held {
            status = ExitCode::FAILURE;
        }
    }
    Ok(status)
}

//! Tables of rows, as the program reads them on standard input, and what it prints of each row.
//!
//! A line that begins with `#` is a comment. A line `== NAME` begins the table of that name, and each other line is a row of it:
//! columns with tabs between. Octets are hexadecimal digits (`octets_of`).

mod columns;
mod error;
mod octets;
mod tables;

pub use columns::Columns;
pub use error::RowError;
pub use octets::octets_of;
pub use tables::{Report, report_rows};

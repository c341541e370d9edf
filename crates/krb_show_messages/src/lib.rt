//! Octets of types that have a row in `krb_schema`'s table, read and shown by that row, and the formats within messages of Kerberos that are no DER: the PAC
//! (MS-PAC, 2.3), the checksum of the GSS-API (RFC 4121, 4.1.1) and a message behind its length (MS-KKDCP, 2.2.2).
#![tactic(auto)]

mod formats;
mod gss_checksum;
mod header;
mod pac;
mod places;
mod prefixed;
mod rows;
mod values;

pub use formats::KerberosFormats;
pub use pac::{page_of_pac, places_of_pac, show_pac};
pub use rows::HasRow;
pub use values::{RowField, items_by_row, page_by_row, show_value};

/// The way in which this crate shows what has no row.
#[derive(Drop)]
pub struct Message;

/// The way in which a PAC is shown.
#[derive(Drop)]
pub struct Format;

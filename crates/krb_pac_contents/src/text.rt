//! What Windows writes in a PAC, as text that people read: security identifiers as `S-1-5-21-..` (MS-DTYP 2.4.2.1), names of UTF-16 as UTF-8
//! (MS-DTYP 2.3.10), times as dates (MS-DTYP 2.3.3).

mod names;
mod sids;
mod times;

pub use names::name_text;
pub use sids::sid_text;
pub use times::{FileTime, time_of_filetime};

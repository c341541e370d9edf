//! Messages of IAKERB (draft-ietf-kitten-iakerb-03, 3).

mod header;

pub use header::{IAKerbCookie, IAKerbHeader};

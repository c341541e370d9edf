//! The header of IAKERB (draft-ietf-kitten-iakerb-03, 3), which is read from more than one spelling: what follows its known
//! fields is ignored.

pub mod laws;
pub mod messages;
pub mod reading;

//! Elements (a tag, a length and a content) and the primitive types of the Distinguished Encoding Rules (ITU-T X.690), each
//! of whose values is one element.
//!
//! The lower part of module `der`: `krb_der` re-exports all of it.
#![tactic(auto)]

mod bit_string;
mod boolean;
mod content;
mod der;
mod error;
mod general_string;
mod generalized_time;
mod integer;
mod octet_string;
mod tlv;
mod unsigned;
mod utf8_string;

pub use bit_string::{BitStringAsn1, are_bits};
pub use der::{Der, DerEncode, DerSequence};
pub use error::Asn1DerError;
pub use general_string::GeneralStringAsn1;
pub use generalized_time::{GeneralizedTimeAsn1, time_of_content};
pub use integer::{IntegerAsn1, is_shortest};
pub use octet_string::OctetStringAsn1;
pub use tlv::{begin_tlv, close_tlv, end_tlv, number_of, read_length, read_tlv, write_tlv};
pub use utf8_string::Utf8StringAsn1;

//! Values in the Distinguished Encoding Rules (ITU-T X.690), as Kerberos uses them (RFC 4120, 5.1 and 5.2).
//!
//! `from_bytes` reads a value from its one encoding and returns an error for all other octets; `to_vec` writes that encoding, and
//! `copy` does both. `from_reader` and `to_writer` read and write streams. The primitive types are those of ASN.1, the
//! wrappers put tags around them, and `composite` has what a struct needs to be a SEQUENCE.
#![tactic(auto)]

mod application_tag;
pub mod composite;
mod context_tag;
mod fields;
pub mod laws;
mod optional;
mod sequence;
mod sequence_of;
mod stream;
mod whole;

pub use application_tag::ApplicationTag;
pub use context_tag::{
    ExplicitContextTag, ExplicitContextTag0, ExplicitContextTag1, ExplicitContextTag2,
    ExplicitContextTag3, ExplicitContextTag4, ExplicitContextTag5, ExplicitContextTag6,
    ExplicitContextTag7, ExplicitContextTag8, ExplicitContextTag9, ExplicitContextTag10,
    ExplicitContextTag11, ExplicitContextTag12,
};
pub use krb_der_core::{
    Asn1DerError, BitStringAsn1, Der, DerEncode, DerSequence, GeneralStringAsn1,
    GeneralizedTimeAsn1, IntegerAsn1, OctetStringAsn1, Utf8StringAsn1,
};
pub use optional::Optional;
pub use sequence_of::Asn1SequenceOf;
pub use stream::{from_reader, to_writer};
pub use whole::{copied, copy, encoding, from_bytes, to_vec};

//! Object identifiers and raw values (ITU-T X.690), implicit tags, fields with no tag of their own, and the algorithm
//! identifiers and public keys of X.509 that consist of them.
//!
//! The upper part of module `der`.
#![tactic(auto)]

mod implicit;
pub mod laws;
mod object_identifier;
mod primitive;
mod raw_value;
pub mod untagged;
mod x509;

pub use implicit::{
    ImplicitContextTag, ImplicitContextTag0, ImplicitContextTag1, ImplicitContextTag2,
};
pub use object_identifier::{ObjectIdentifierAsn1, read_sub_identifier};
pub use primitive::DerPrimitive;
pub use raw_value::Asn1RawDer;
pub use x509::{AlgorithmIdentifier, SubjectPublicKeyInfo};

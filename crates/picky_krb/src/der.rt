//! Values in the Distinguished Encoding Rules (ITU-T X.690).

pub use krb_der::{
    ApplicationTag, Asn1DerError, Asn1SequenceOf, BitStringAsn1, Der, DerEncode, DerSequence,
    ExplicitContextTag, ExplicitContextTag0, ExplicitContextTag1, ExplicitContextTag2,
    ExplicitContextTag3, ExplicitContextTag4, ExplicitContextTag5, ExplicitContextTag6,
    ExplicitContextTag7, ExplicitContextTag8, ExplicitContextTag9, ExplicitContextTag10,
    ExplicitContextTag11, ExplicitContextTag12, GeneralStringAsn1, GeneralizedTimeAsn1,
    IntegerAsn1, OctetStringAsn1, Optional, Utf8StringAsn1, composite, copy, from_bytes,
    from_reader, to_vec, to_writer,
};
pub use krb_der_x509::{
    AlgorithmIdentifier, Asn1RawDer, DerPrimitive, ImplicitContextTag, ImplicitContextTag0,
    ImplicitContextTag1, ImplicitContextTag2, ObjectIdentifierAsn1, SubjectPublicKeyInfo, untagged,
};

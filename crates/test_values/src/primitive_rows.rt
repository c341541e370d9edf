//! Constructors of the primitive types and their accessors, equality, and the texts of errors.

use krb_der::{
    Asn1DerError, BitStringAsn1, ExplicitContextTag0, GeneralStringAsn1, IntegerAsn1, Optional,
    from_bytes, to_vec,
};
use krb_der_x509::{Asn1RawDer, ObjectIdentifierAsn1};
use krb_types::data_types::KerbPaPacRequest;
use std::alloc::Global;
use std::io;
use std::test::Fail;

#[test]
fn texts_of_errors(rt: HostRuntime) -> Result<(), Fail> {
    let alloc = rt.alloc();
    let errors = [
        (
            Asn1DerError::InvalidData,
            "the octets are no encoding of the value's type",
        ),
        (Asn1DerError::TruncatedData, "the octets end too early"),
        (
            Asn1DerError::UnsupportedValue,
            "the encoding is of a form that is not supported",
        ),
        (Asn1DerError::OutOfMemory, "out of memory"),
    ];
    for row in &errors {
        assert!(rt; row.0.to_string(alloc)?.as_str() == row.1, "{}", row.1);
    }
    let device = io::Error::from(io::ErrorKind::UnexpectedEof);
    let text = format!(in alloc; "reading or writing failed: {device}")?;
    assert!(rt; Asn1DerError::Io(device).to_string(alloc)?.as_str() == text.as_str());
    Ok(())
}

/// Octets, whether they are a number in two's complement (else one with no sign), the fewest octets that are it in two's
/// complement, and its values, from the examples that the standards' guides give.
const NUMBERS: [(&[u8], bool, &[u8], Option<u32>, Option<i64>); 12] = [
    (&[], true, &[0], Some(0), Some(0)),
    (&[0], true, &[0], Some(0), Some(0)),
    (&[0x7f], true, &[0x7f], Some(127), Some(127)),
    (&[0, 0, 0x80], true, &[0, 0x80], Some(128), Some(128)),
    (&[1, 0], true, &[1, 0], Some(256), Some(256)),
    (&[0xff, 0x80], true, &[0x80], None, Some(-128)),
    (&[0xff, 0x7f], true, &[0xff, 0x7f], None, Some(-129)),
    (
        &[0x7f, 0xff, 0xff, 0xff, 0xff, 0xff, 0xff, 0xff],
        true,
        &[0x7f, 0xff, 0xff, 0xff, 0xff, 0xff, 0xff, 0xff],
        None,
        Some(i64::MAX),
    ),
    (
        &[0x80, 0, 0, 0, 0, 0, 0, 0],
        true,
        &[0x80, 0, 0, 0, 0, 0, 0, 0],
        None,
        Some(i64::MIN),
    ),
    (
        &[0xff; 4],
        false,
        &[0, 0xff, 0xff, 0xff, 0xff],
        Some(u32::MAX),
        Some(4_294_967_295),
    ),
    (
        &[0xff; 8],
        false,
        &[0, 0xff, 0xff, 0xff, 0xff, 0xff, 0xff, 0xff, 0xff],
        None,
        None,
    ),
    (
        &[0x0a, 0xa7, 0x54],
        false,
        &[0x0a, 0xa7, 0x54],
        Some(698_196),
        Some(698_196),
    ),
];

#[test]
fn integers(rt: HostRuntime) -> Result<(), Fail> {
    for row in &NUMBERS {
        let octets = Vec::from_slice(rt.alloc(), row.0)?;
        let number = if row.1 {
            IntegerAsn1::from_bytes_be_signed(rt.alloc(), octets)?
        } else {
            IntegerAsn1::from_bytes_be_unsigned(rt.alloc(), octets)?
        };
        assert!(rt; number.as_signed_bytes_be() == row.2);
        assert!(rt; number.to_u32() == row.3 && number.to_i64() == row.4);
    }
    Ok(())
}

/// Octets and numbers of unused bits that make no string of bits.
const NO_BITS: [(&[u8], u8); 3] = [(&[1], 1), (&[], 1), (&[0], 8)];

/// Octets that are no value of any type.
const NO_VALUES: [&[u8]; 6] = [
    b"",
    b"\x05",
    b"\x00\x00",
    b"\x1f\x00",
    b"\x05\x00\x00",
    b"\x05\x81\x00",
];

#[test]
fn constructors(rt: HostRuntime) -> Result<(), Fail> {
    let alloc = rt.alloc();
    let bits = BitStringAsn1::new(Vec::from_slice(alloc, &[0x6e, 0x5d, 0xc0])?, 6)?;
    assert!(rt; bits.octets() == [0x6e, 0x5d, 0xc0].as_slice() && bits.spare_bits() == 6);
    for row in &NO_BITS {
        assert!(rt; BitStringAsn1::new(Vec::from_slice(alloc, row.0)?, row.1).is_err());
    }
    let value = Asn1RawDer::new(Vec::from_slice(alloc, &[5, 0])?)?;
    assert!(rt; value.as_bytes() == [5, 0].as_slice());
    for octets in &NO_VALUES {
        assert!(rt; Asn1RawDer::new(Vec::from_slice(alloc, octets)?).is_err());
    }
    let text = GeneralStringAsn1::from_string(String::from_str(alloc, "test1")?)?;
    assert!(rt; text.as_str() == "test1");
    let text = String::from_str(alloc, "caf\u{e9}")?;
    assert!(rt; GeneralStringAsn1::from_string(text).is_err());
    Ok(())
}

#[test]
fn clones(rt: HostRuntime) -> Result<(), Fail> {
    let asking = KerbPaPacRequest {
        include_pac: ExplicitContextTag0::from(true),
    };
    let other = KerbPaPacRequest {
        include_pac: ExplicitContextTag0::from(false),
    };
    assert!(rt; asking.clone()? == asking && asking != other);
    let present = Optional(Some(ExplicitContextTag0::from(false)));
    let absent: Optional<Option<ExplicitContextTag0<bool>>> = Optional(None);
    assert!(rt; present.clone()? == present && absent.clone()? == absent && present != absent);
    Ok(())
}

/// X.690, 8.19.5; RFC 4121, 1; RFC 3279, 2.3.1; RFC 5480, 2.1.1. Two identifiers whose first octets are neighbours, the largest
/// numbers.
const IDENTIFIERS: [(&[u64], &str, &[u8]); 8] = [
    (&[2, 100, 3], "2.100.3", b"\x06\x03\x81\x34\x03"),
    (&[2, 999], "2.999", b"\x06\x02\x88\x37"),
    (
        &[1, 2, 840, 113554, 1, 2, 2],
        "1.2.840.113554.1.2.2",
        b"\x06\x09\x2a\x86\x48\x86\xf7\x12\x01\x02\x02",
    ),
    (
        &[1, 2, 840, 113549, 1, 1, 1],
        "1.2.840.113549.1.1.1",
        b"\x06\x09\x2a\x86\x48\x86\xf7\x0d\x01\x01\x01",
    ),
    (
        &[1, 2, 840, 10045, 3, 1, 7],
        "1.2.840.10045.3.1.7",
        b"\x06\x08\x2a\x86\x48\xce\x3d\x03\x01\x07",
    ),
    (&[2, 40], "2.40", b"\x06\x01\x78"),
    (&[1, 39], "1.39", b"\x06\x01\x4f"),
    (
        &[2, 18446744073709551535, 18446744073709551615],
        "2.18446744073709551535.18446744073709551615",
        b"\x06\x14\x81\xff\xff\xff\xff\xff\xff\xff\xff\x7f\x81\xff\xff\xff\xff\xff\xff\xff\xff\x7f",
    ),
];

/// Whether these arcs have this text and these octets, and are read from them.
fn is_identifier(alloc: Global, arcs: &[u64], text: &str, octets: &[u8]) -> Result<bool, Fail> {
    let value = ObjectIdentifierAsn1::from_arcs(alloc, arcs)?;
    let read: ObjectIdentifierAsn1 = from_bytes(alloc, octets)?;
    Ok(
        value.arcs() == arcs
            && value.to_text(alloc)?.as_str() == text
            && to_vec(alloc, &value)?.as_slice() == octets
            && read == value,
    )
}

/// Arcs of no identifier.
const NO_IDENTIFIERS: [&[u64]; 6] = [
    &[],
    &[1],
    &[3, 0],
    &[0, 40],
    &[1, 40],
    &[2, 18446744073709551536],
];

#[test]
fn identifiers(rt: HostRuntime) -> Result<(), Fail> {
    for row in &IDENTIFIERS {
        assert!(rt;
            is_identifier(rt.alloc(), row.0, row.1, row.2)?,
            "{}",
            row.1
        );
    }
    for arcs in &NO_IDENTIFIERS {
        assert!(rt; ObjectIdentifierAsn1::from_arcs(rt.alloc(), arcs).is_err());
    }
    Ok(())
}

//! Times as seconds, flags by their numbers, and principals as text. The seconds are those of `date -u +%s` of GNU.

use krb_der::{
    Asn1DerError, Asn1SequenceOf, BitStringAsn1, ExplicitContextTag0, ExplicitContextTag1,
    GeneralStringAsn1, GeneralizedTimeAsn1, IntegerAsn1,
};
use krb_types::data_types::PrincipalName;
use krb_types::view::{
    PrincipalError, is_set, principal_of_text, text_of_principal, time_of_unix_seconds,
    unix_seconds,
};
use std::alloc::Global;
use std::test::Fail;

/// Whether the time with these numbers returns them, and has so many seconds, and they give it.
fn is_time(
    (year, month, day): (u16, u8, u8),
    (hour, minute, second): (u8, u8, u8),
    seconds: i64,
) -> Result<bool, Asn1DerError> {
    let time = GeneralizedTimeAsn1::new(year, month, day, hour, minute, second)?;
    Ok(
        (time.year(), time.month(), time.day()) == (year, month, day)
            && (time.hour(), time.minute(), time.second()) == (hour, minute, second)
            && unix_seconds(&time) == seconds
            && time_of_unix_seconds(seconds)? == time,
    )
}

/// Dates, times of the day, and their seconds.
const TIMES: [((u16, u8, u8), (u8, u8, u8), i64); 8] = [
    ((0, 1, 1), (0, 0, 0), -62_167_219_200),
    ((1969, 12, 31), (23, 59, 59), -1),
    ((1970, 1, 1), (0, 0, 0), 0),
    ((2000, 2, 29), (12, 34, 56), 951_827_696),
    ((2024, 2, 29), (0, 0, 0), 1_709_164_800),
    ((2026, 11, 25), (8, 10, 0), 1_795_594_200),
    ((2038, 1, 19), (3, 14, 8), 2_147_483_648),
    ((9999, 12, 31), (23, 59, 59), 253_402_300_799),
];

/// Dates and times of the day of which one number is not real.
const NO_DATES: [(u16, u8, u8, u8, u8, u8); 10] = [
    (2021, 2, 29, 0, 0, 0),
    (1900, 2, 29, 0, 0, 0),
    (2021, 4, 31, 0, 0, 0),
    (2021, 0, 1, 0, 0, 0),
    (2021, 13, 1, 0, 0, 0),
    (2021, 1, 0, 0, 0, 0),
    (10000, 1, 1, 0, 0, 0),
    (2021, 1, 1, 24, 0, 0),
    (2021, 1, 1, 0, 60, 0),
    (2021, 1, 1, 0, 0, 60),
];

/// Seconds before the year 0, and after 9999.
const NO_TIMES: [i64; 4] = [-62_167_219_201, 253_402_300_800, i64::MIN, i64::MAX];

#[test]
fn times(rt: HostRuntime) -> Result<(), Fail> {
    for row in &TIMES {
        assert!(rt; is_time(row.0, row.1, row.2)?, "{}", row.2);
    }
    for row in &NO_DATES {
        let time = GeneralizedTimeAsn1::new(row.0, row.1, row.2, row.3, row.4, row.5);
        assert!(rt; time.is_err());
    }
    for seconds in &NO_TIMES {
        assert!(rt; time_of_unix_seconds(*seconds).is_err(), "{seconds}");
    }
    Ok(())
}

#[test]
fn flags(rt: HostRuntime) -> Result<(), Fail> {
    // forwardable (1), renewable (8), initial (9), pre-authent (10), enc-pa-rep (15): RFC 4120, 5.3; RFC 6806, 11
    let flags = BitStringAsn1::with_bytes(Vec::from_slice(rt.alloc(), &[0x40, 0xe1, 0, 0])?);
    for number in 0..40 {
        let named = [1, 8, 9, 10, 15].contains(&number);
        assert!(rt; is_set(&flags, number) == named, "{number}");
    }
    assert!(rt; !is_set(&flags, usize::MAX), "past the end");
    Ok(())
}

/// Whether the principal of these components and this realm has this text, and is read from it.
fn is_principal(alloc: Global, components: &[&str], realm: &str, text: &str) -> Result<bool, Fail> {
    let mut strings = Vec::new(alloc);
    for component in components {
        let component = String::from_str(alloc, component)?;
        strings.push(GeneralStringAsn1::from_string(component)?)?;
    }
    let realm = GeneralStringAsn1::from_string(String::from_str(alloc, realm)?)?;
    let read = principal_of_text(alloc, text)?;
    let is_read = read.components == strings && read.realm.as_ref() == Some(&realm);
    let name_type = IntegerAsn1::from_bytes_be_signed(alloc, Vec::from_slice(alloc, &[1])?)?;
    let name = PrincipalName {
        name_type: ExplicitContextTag0::from(name_type),
        name_string: ExplicitContextTag1::from(Asn1SequenceOf(strings)),
    };
    Ok(is_read && text_of_principal(alloc, &name, &realm)?.as_str() == text)
}

/// Components, a realm and their text.
const PRINCIPALS: [(&[&str], &str, &str); 5] = [
    (&["carol"], "SMB.TEST", "carol@SMB.TEST"),
    (&["krbtgt", "A.TEST"], "B.TEST", "krbtgt/A.TEST@B.TEST"),
    (&["a/b", "c@d", "e\\f"], "R/S", "a\\/b/c\\@d/e\\\\f@R\\/S"),
    (&["\n\t\u{8}\0"], "R", "\\n\\t\\b\\0@R"),
    (&["", ""], "", "/@"),
];

/// Texts of no principal.
const NO_PRINCIPALS: [&str; 8] = [
    "a@b@c",
    "a@b/c",
    "a\\",
    "a\\x",
    "a\nb",
    "a\tb@R",
    "caf\u{e9}",
    "a@\\",
];

#[test]
fn principals(rt: HostRuntime) -> Result<(), Fail> {
    for row in &PRINCIPALS {
        assert!(rt; is_principal(rt.alloc(), row.0, row.1, row.2)?, "{}", row.2);
    }
    let read = principal_of_text(rt.alloc(), "host/a.test")?;
    assert!(rt; read.components.len() == 2 && read.realm.is_none());
    for text in &NO_PRINCIPALS {
        let error = principal_of_text(rt.alloc(), text).err();
        assert!(rt; error == Some(PrincipalError::InvalidText), "{text}");
    }
    Ok(())
}

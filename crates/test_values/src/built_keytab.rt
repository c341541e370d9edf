//! Keytabs that are built entry by entry and written, entries that are added, and entries that are found.
//!
//! `KTUTIL` and `KADMIN` are files of MIT Kerberos 1.20.1, made by its `ktutil` and `kadmin` with a KDC of a made-up realm on 127.0.0.1:
//! the rows of these names. `BUILT` and `SMALL` were made by a writer in Python that shares nothing with this library: `struct.pack` of
//! each field in the order of MIT Kerberos's "Keytab file format", of the same values as here. `klist -k -t -e -K` of MIT Kerberos 1.20.1
//! shows these values of the first three entries of `BUILT`, and takes the fourth, which has no component, for the end. Of a name the
//! entry of the highest version is expected where a version of 0 is asked for, as `krb5_kt_get_entry` of MIT Kerberos has it.

use crate::built_ccache::repeated;
use krb_files::fields::PrincipalParts;
use krb_files::keytab::{KeytabView, KeytabWriteError, NewEntry, push_entry, write};
use std::alloc::{AllocError, Global};
use std::test::Fail;

/// Bob's key of version 300, and bob/admin's of version 7.
const KTUTIL: &str =
    "0502000000450001000b4c41422e4558414d504c450003626f62000000016b07355a2c001200208263408cd1e258176447fd\
    e99980842641cd885dd29c6d6bd45ea80a2a9aeba20000012c0000003c0002000b4c41422e4558414d504c450003626f6200\
    0561646d696e000000016b07355a0700110010c95040adb6196d5db7da8547dcf2f98700000007";

/// The keys of HTTP/web.lab.example: encryption types 18 and 17, each in versions 2 and 3.
const KADMIN: &str =
    "0502000000570002000b4c41422e4558414d504c45000448545450000f7765622e6c61622e6578616d706c65000000016b07\
    355a020012002088aaa5b9f2796ac6d91ff6c66660683a2bb71610f2ce0f917d6865a3ac44518e0000000200000047000200\
    0b4c41422e4558414d504c45000448545450000f7765622e6c61622e6578616d706c65000000016b07355a0200110010bd2c\
    d14606acb73d4003fe8f680c1c7900000002000000570002000b4c41422e4558414d504c45000448545450000f7765622e6c\
    61622e6578616d706c65000000016b07355a03001200205431f9437f6630e7da51349195eb84afd164a1db703f24f2bc12dd\
    13ce89668300000003000000470002000b4c41422e4558414d504c45000448545450000f7765622e6c61622e6578616d706c\
    65000000016b07355a030011001050ea25f5ea10bdfb5699d80a9a98877900000003";

/// Four entries: one whose numbers are as high as they can be, and the last one of zeros alone.
const BUILT: &str =
    "0502000000570002000b4c41422e4558414d504c45000448545450000f7765622e6c61622e6578616d706c65000000026553\
    f1012c00120020000102030405060708090a0b0c0d0e0f101112131415161718191a1b1c1d1e1f0000012c0000001d000200\
    01520001780001fffffffffffffffffefffffd000180ffffffff0000001a0001000152000161000000010000000200001700\
    016b0000010000000015000000000000000000000000000000000000000000";

/// What is in front of the entries.
const VERSION: &str = "0502";

/// The record of a small entry.
const SMALL: &str = "0000001a0001000152000161000000010000000203000400016b00000003";

/// A file of a small entry with a key of 65,535 octets, up to the key.
const TO_LONG_KEY: &str = "05020001001800010001520001610000000100000002030004ffff";

/// The key of the first entry of `BUILT`.
const KEY: [u8; 32] = [
    0, 1, 2, 3, 4, 5, 6, 7, 8, 9, 10, 11, 12, 13, 14, 15, 16, 17, 18, 19, 20, 21, 22, 23, 24, 25,
    26, 27, 28, 29, 30, 31,
];

/// The components of a web server's name.
const WEB: &[&[u8]] = &[b"HTTP", b"web.lab.example"];

/// The first entry of `BUILT`.
const FULL: NewEntry<'static> = NewEntry {
    principal: PrincipalParts {
        realm: b"LAB.EXAMPLE",
        components: WEB,
    },
    name_type: 2,
    timestamp: 1_700_000_001,
    kvno: 300,
    etype: 18,
    key: &KEY,
};

/// The second entry of `BUILT`.
const HIGHEST: NewEntry<'static> = NewEntry {
    principal: PrincipalParts {
        realm: b"R",
        components: &[b"x", b"\xff"],
    },
    name_type: 0xffff_ffff,
    timestamp: 0xffff_fffe,
    kvno: 0xffff_ffff,
    etype: 0xfffd,
    key: &[0x80],
};

/// A small entry; the third one of `BUILT` has other numbers.
const SMALL_ENTRY: NewEntry<'static> = NewEntry {
    principal: PrincipalParts {
        realm: b"R",
        components: &[b"a"],
    },
    name_type: 1,
    timestamp: 2,
    kvno: 3,
    etype: 4,
    key: b"k",
};

/// An entry of zeros alone.
const LEAST: NewEntry<'static> = NewEntry {
    principal: PrincipalParts {
        realm: b"",
        components: &[],
    },
    name_type: 0,
    timestamp: 0,
    kvno: 0,
    etype: 0,
    key: b"",
};

/// The second entry of `KTUTIL`.
const ADMIN: NewEntry<'static> = NewEntry {
    principal: PrincipalParts {
        realm: b"LAB.EXAMPLE",
        components: &[b"bob", b"admin"],
    },
    name_type: 1,
    timestamp: 1_795_634_522,
    kvno: 7,
    etype: 17,
    key: &[
        0xc9, 0x50, 0x40, 0xad, 0xb6, 0x19, 0x6d, 0x5d, 0xb7, 0xda, 0x85, 0x47, 0xdc, 0xf2, 0xf9,
        0x87,
    ],
};

/// What is built, and an entry that is added to a file of `ktutil`, cut before its second entry: the
/// file is then as `ktutil` wrote it.
#[test]
fn built(rt: HostRuntime) -> Result<(), Fail> {
    let third = NewEntry {
        kvno: 256,
        etype: 23,
        ..SMALL_ENTRY
    };
    let octets = write(rt.alloc(), &[FULL, HIGHEST, third, LEAST])?;
    assert!(rt; hex::encode(rt.alloc(), &octets)?.as_str() == BUILT);
    let mut octets = hex::decode(rt.alloc(), KTUTIL)?;
    octets.truncate(75);
    push_entry(rt.alloc(), &mut octets, &ADMIN)?;
    assert!(rt; hex::encode(rt.alloc(), &octets)?.as_str() == KTUTIL);
    Ok(())
}

/// Realms and components, encryption types and versions that are asked for, 0 for any, and the version, the
/// encryption type and the key of the entry of `KADMIN` that is found.
const ASKED: [(&[u8], &[&[u8]], Option<u16>, u32, &str); 10] = [
    (
        b"LAB.EXAMPLE",
        WEB,
        None,
        0,
        "3 18 5431f9437f6630e7da51349195eb84afd164a1db703f24f2bc12dd13ce896683",
    ),
    (
        b"LAB.EXAMPLE",
        WEB,
        Some(17),
        0,
        "3 17 50ea25f5ea10bdfb5699d80a9a988779",
    ),
    (
        b"LAB.EXAMPLE",
        WEB,
        Some(17),
        2,
        "2 17 bd2cd14606acb73d4003fe8f680c1c79",
    ),
    (
        b"LAB.EXAMPLE",
        WEB,
        None,
        2,
        "2 18 88aaa5b9f2796ac6d91ff6c66660683a2bb71610f2ce0f917d6865a3ac44518e",
    ),
    (b"LAB.EXAMPLE", WEB, Some(23), 0, "none"),
    (b"LAB.EXAMPLE", WEB, None, 4, "none"),
    (b"LAB.EXAMPL", WEB, None, 0, "none"),
    (b"LAB.EXAMPLE", &[b"HTTP"], None, 0, "none"),
    (
        b"LAB.EXAMPLE",
        &[b"HTTP", b"web.lab.example", b""],
        None,
        0,
        "none",
    ),
    (
        b"LAB.EXAMPLE",
        &[b"HTTP", b"web.lab.examplf"],
        None,
        0,
        "none",
    ),
];

/// The version, the encryption type and the key of the entry that is found, or `none`.
fn found(
    alloc: Global,
    keytab: &KeytabView<'_>,
    principal: &PrincipalParts<'_>,
    etype: Option<u16>,
    kvno: u32,
) -> Result<String, AllocError> {
    match keytab.find(principal, etype, kvno) {
        Some(entry) => {
            let key = hex::encode(alloc, entry.key())?;
            format!(in alloc; "{} {} {key}", entry.kvno(), entry.etype())
        }
        None => String::from_str(alloc, "none"),
    }
}

#[test]
fn entries_that_are_found(rt: HostRuntime) -> Result<(), Fail> {
    let octets = hex::decode(rt.alloc(), KADMIN)?;
    let keytab = KeytabView::new(&octets)?;
    for row in &ASKED {
        let principal = PrincipalParts {
            realm: row.0,
            components: row.1,
        };
        let line = found(rt.alloc(), &keytab, &principal, row.2, row.3)?;
        assert!(rt; line.as_str() == row.4, "{line}, not {}", row.4);
    }
    Ok(())
}

/// More than a thousand entries, of `write` and of `push_entry`.
#[test]
fn many_entries(rt: HostRuntime) -> Result<(), Fail> {
    let alloc = rt.alloc();
    let entries = Vec::from_elem(alloc, SMALL_ENTRY, 1500)?;
    let expected = repeated(alloc, VERSION, SMALL, 1500)?;
    assert!(rt; write(alloc, &entries)? == expected);
    let mut octets = hex::decode(alloc, VERSION)?;
    for entry in &entries {
        push_entry(alloc, &mut octets, entry)?;
    }
    assert!(rt; octets == expected);
    Ok(())
}

/// A key as long as it can be, and one that is longer: it is refused, and nothing is then appended.
#[test]
fn long_keys(rt: HostRuntime) -> Result<(), Fail> {
    let alloc = rt.alloc();
    let mut octets = hex::decode(alloc, VERSION)?;
    let key = Vec::from_elem(alloc, 0xa5, 65_536)?;
    let longer = NewEntry {
        key: &key,
        ..SMALL_ENTRY
    };
    assert!(rt; write(alloc, &[longer]).err() == Some(KeytabWriteError::TooLong));
    let refused = push_entry(alloc, &mut octets, &longer);
    assert!(rt; refused == Err(KeytabWriteError::TooLong));
    let key = Vec::from_elem(alloc, 0xa5, 65_535)?;
    let longest = NewEntry {
        key: &key,
        ..SMALL_ENTRY
    };
    push_entry(alloc, &mut octets, &longest)?;
    let mut expected = repeated(alloc, TO_LONG_KEY, "a5", 65_535)?;
    expected.extend_from_slice(&[0, 0, 0, 3])?;
    assert!(rt; octets == expected);
    Ok(())
}

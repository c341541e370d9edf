//! Credential caches that are built field by field and written.
//!
//! What is expected was made by a writer in Python that shares nothing with this library: `struct.pack` of each field in the order of MIT
//! Kerberos's "Credential cache file format" (sections "Header format", "Principal format" and "Credential format"), of the same values
//! as here. That writer makes the files of MIT Kerberos of what they hold. `klist -C -f -a -n -d` of MIT Kerberos 1.20.1 shows of `FOUR`
//! and `THREE` these principals, times, flags, addresses, types of authorization data, and the value of the configuration entry.

use hex::FromHexError;
use krb_files::ccache::{
    CcachePrincipalParts, CcacheVersion, CcacheWriteError, NewCcache, NewCredential, Times,
    push_credential, write,
};
use krb_files::fields::{PrincipalParts, TypedOctets};
use std::alloc::Global;
use std::test::Fail;

/// Version 4 with three fields of a header, a credential with a value in each field, and a configuration entry.
const FOUR: &str =
    "0504001700010008fffffffe0001e240fe0100000002000361626300000001000000010000000b4c41422e4558414d504c45\
    00000005616c69636500000001000000010000000b4c41422e4558414d504c4500000005616c696365000000020000000200\
    00000b4c41422e4558414d504c4500000004485454500000000f7765622e6c61622e6578616d706c65001200000020000102\
    030405060708090a0b0c0d0e0f101112131415161718191a1b1c1d1e1f6553f1016553f10265547da3655d2b840150e10000\
    00000002000200000004c0000207001800000010fd0000000000000000000000000000020000000300010000000230000080\
    00000000ffff00000001ff000000136112301003020105a109300702010ca202040000000005610302010500000001000000\
    010000000b4c41422e4558414d504c4500000005616c69636500000000000000030000000c582d4341434845434f4e463a00\
    0000156b7262355f6363616368655f636f6e665f646174610000000a666173745f617661696c0000001e6b72627467742f4c\
    41422e4558414d504c45404c41422e4558414d504c4500000000000000000000000000000000000000000000000000000000\
    000000000000000000000379657300000000";

/// The same credentials in version 3: each encryption type twice, and no header.
const THREE: &str =
    "050300000001000000010000000b4c41422e4558414d504c4500000005616c69636500000001000000010000000b4c41422e\
    4558414d504c4500000005616c69636500000002000000020000000b4c41422e4558414d504c450000000448545450000000\
    0f7765622e6c61622e6578616d706c650012001200000020000102030405060708090a0b0c0d0e0f10111213141516171819\
    1a1b1c1d1e1f6553f1016553f10265547da3655d2b840150e1000000000002000200000004c0000207001800000010fd0000\
    00000000000000000000000002000000030001000000023000008000000000ffff00000001ff000000136112301003020105\
    a109300702010ca202040000000005610302010500000001000000010000000b4c41422e4558414d504c4500000005616c69\
    636500000000000000030000000c582d4341434845434f4e463a000000156b7262355f6363616368655f636f6e665f646174\
    610000000a666173745f617661696c0000001e6b72627467742f4c41422e4558414d504c45404c41422e4558414d504c4500\
    0000000000000000000000000000000000000000000000000000000000000000000000000000000379657300000000";

/// Version 4: no field, no component, no realm, no credential.
const NOTHING: &str = "05040000000000000000000000000000";

/// Version 3: a credential of as little as there can be.
const LEAST: &str =
    "0503000000000000000000000000000000000000000000000000000000000000000000000000000000000000000000000000\
    000000000000000000000000000000000000000000000000000000000000000000";

/// What is in front of the credentials of a small cache.
const SMALL_HEAD: &str = "05040000000000010000000100000001520000000161";

/// A small credential in version 4.
const SMALL: &str =
    "0000000100000001000000015200000001610000000200000001000000015200000001620011000000016b00000001000000\
    020000000300000004000000000500000001000600000001370000000100080000000139000000017400000000";

/// The same in version 3.
const SMALL_IN_THREE: &str =
    "00000001000000010000000152000000016100000002000000010000000152000000016200110011000000016b0000000100\
    0000020000000300000004000000000500000001000600000001370000000100080000000139000000017400000000";

/// No octets.
const NONE: &[u8] = b"";

/// A principal.
fn principal<'a>(
    name_type: u32,
    realm: &'a [u8],
    components: &'a [&'a [u8]],
) -> CcachePrincipalParts<'a> {
    CcachePrincipalParts {
        name_type,
        principal: PrincipalParts { realm, components },
    }
}

/// A credential of as little as there can be.
fn least<'a>() -> NewCredential<'a> {
    NewCredential {
        client: principal(0, NONE, &[]),
        server: principal(0, NONE, &[]),
        etype: 0,
        key: NONE,
        times: Times {
            authtime: 0,
            starttime: 0,
            endtime: 0,
            renew_till: 0,
        },
        is_skey: 0,
        flags: 0,
        addresses: &[],
        authorization_data: &[],
        ticket: NONE,
        second_ticket: NONE,
    }
}

/// The address of a full credential of type 24, IPv6.
const ADDRESS: [u8; 16] = [0xfd, 0, 0, 0, 0, 0, 0, 0, 0, 0, 0, 0, 0, 0, 0, 2];

/// The key of a full credential.
const KEY: [u8; 32] = [
    0, 1, 2, 3, 4, 5, 6, 7, 8, 9, 10, 11, 12, 13, 14, 15, 16, 17, 18, 19, 20, 21, 22, 23, 24, 25,
    26, 27, 28, 29, 30, 31,
];

/// The ticket of a full credential.
const TICKET: [u8; 19] = [
    0x61, 0x12, 0x30, 0x10, 0x03, 0x02, 0x01, 0x05, 0xa1, 0x09, 0x30, 0x07, 0x02, 0x01, 0x0c, 0xa2,
    0x02, 0x04, 0x00,
];

/// Alice of the realm LAB.EXAMPLE.
fn alice<'a>() -> CcachePrincipalParts<'a> {
    principal(1, b"LAB.EXAMPLE", &[b"alice"])
}

/// Appends a credential with a value in each field.
fn push_full(
    alloc: Global,
    out: &mut Vec<u8>,
    version: CcacheVersion,
) -> Result<(), CcacheWriteError> {
    let addresses = [
        TypedOctets::new(2, &[192, 0, 2, 7]),
        TypedOctets::new(24, &ADDRESS),
    ];
    let authorization_data = [
        TypedOctets::new(1, &[0x30, 0]),
        TypedOctets::new(128, NONE),
        TypedOctets::new(65535, &[0xff]),
    ];
    let credential = NewCredential {
        client: alice(),
        server: principal(2, b"LAB.EXAMPLE", &[b"HTTP", b"web.lab.example"]),
        etype: 18,
        key: &KEY,
        times: Times {
            authtime: 1_700_000_001,
            starttime: 1_700_000_002,
            endtime: 1_700_036_003,
            renew_till: 1_700_604_804,
        },
        is_skey: 1,
        flags: 0x50e1_0000,
        addresses: &addresses,
        authorization_data: &authorization_data,
        ticket: &TICKET,
        second_ticket: &[0x61, 3, 2, 1, 5],
    };
    push_credential(alloc, out, version, &credential)
}

/// Appends a configuration entry.
fn push_config(
    alloc: Global,
    out: &mut Vec<u8>,
    version: CcacheVersion,
) -> Result<(), CcacheWriteError> {
    let config: [&[u8]; 3] = [
        b"krb5_ccache_conf_data",
        b"fast_avail",
        b"krbtgt/LAB.EXAMPLE@LAB.EXAMPLE",
    ];
    let entry = NewCredential {
        client: alice(),
        server: principal(0, b"X-CACHECONF:", &config),
        ticket: b"yes",
        ..least()
    };
    push_credential(alloc, out, version, &entry)
}

/// A cache with both credentials.
fn with_both(alloc: Global, cache: &NewCcache<'_>) -> Result<Vec<u8>, CcacheWriteError> {
    let mut octets = write(alloc, cache)?;
    push_full(alloc, &mut octets, cache.version)?;
    push_config(alloc, &mut octets, cache.version)?;
    Ok(octets)
}

/// A cache without a header and with this default principal, empty.
fn head<'a>(version: CcacheVersion, principal: CcachePrincipalParts<'a>) -> NewCcache<'a> {
    NewCcache {
        version,
        header: &[],
        principal,
        credentials: &[],
    }
}

#[test]
fn versions(rt: HostRuntime) -> Result<(), Fail> {
    let alloc = rt.alloc();
    let header = [
        TypedOctets::new(1, &[0xff, 0xff, 0xff, 0xfe, 0, 1, 0xe2, 0x40]),
        TypedOctets::new(0xfe01, NONE),
        TypedOctets::new(2, b"abc"),
    ];
    let cache = NewCcache {
        header: &header,
        ..head(CcacheVersion::Four, alice())
    };
    assert!(rt; hex::encode(alloc, with_both(alloc, &cache)?)?.as_str() == FOUR);
    let octets = with_both(alloc, &head(CcacheVersion::Three, alice()))?;
    assert!(rt; hex::encode(alloc, octets)?.as_str() == THREE);
    Ok(())
}

#[test]
fn nothing_and_least(rt: HostRuntime) -> Result<(), Fail> {
    let alloc = rt.alloc();
    let octets = write(alloc, &head(CcacheVersion::Four, principal(0, NONE, &[])))?;
    assert!(rt; hex::encode(alloc, octets)?.as_str() == NOTHING);
    let mut octets = write(alloc, &head(CcacheVersion::Three, principal(0, NONE, &[])))?;
    push_credential(alloc, &mut octets, CcacheVersion::Three, &least())?;
    assert!(rt; hex::encode(alloc, octets)?.as_str() == LEAST);
    Ok(())
}

/// A small credential with these addresses, data and ticket.
fn small<'a>(
    addresses: &'a [TypedOctets<'a>],
    authorization_data: &'a [TypedOctets<'a>],
    ticket: &'a [u8],
) -> NewCredential<'a> {
    NewCredential {
        client: principal(1, b"R", &[b"a"]),
        server: principal(2, b"R", &[b"b"]),
        etype: 17,
        key: b"k",
        times: Times {
            authtime: 1,
            starttime: 2,
            endtime: 3,
            renew_till: 4,
        },
        is_skey: 0,
        flags: 5,
        addresses,
        authorization_data,
        ticket,
        second_ticket: NONE,
    }
}

/// These octets in hexadecimal, and then others so many times.
pub(crate) fn repeated(
    alloc: Global,
    front: &str,
    unit: &str,
    count: usize,
) -> Result<Vec<u8>, FromHexError> {
    let mut octets = hex::decode(alloc, front)?;
    let unit = hex::decode(alloc, unit)?;
    octets.extend_from_slice(&unit.repeat(alloc, count)?)?;
    Ok(octets)
}

/// As many such credentials, of `push_credential`.
fn pushed(
    alloc: Global,
    version: CcacheVersion,
    credential: &NewCredential<'_>,
    count: usize,
) -> Result<Vec<u8>, CcacheWriteError> {
    let mut octets = Vec::new(alloc);
    for _ in 0..count {
        push_credential(alloc, &mut octets, version, credential)?;
    }
    Ok(octets)
}

/// More than a thousand credentials, of `write` and of `push_credential`.
#[test]
fn many_credentials(rt: HostRuntime) -> Result<(), Fail> {
    let alloc = rt.alloc();
    let (addresses, data) = ([TypedOctets::new(6, b"7")], [TypedOctets::new(8, b"9")]);
    let credential = small(&addresses, &data, b"t");
    let credentials = Vec::from_elem(alloc, credential, 1500)?;
    let cache = NewCcache {
        credentials: &credentials,
        ..head(CcacheVersion::Four, principal(1, b"R", &[b"a"]))
    };
    assert!(rt; write(alloc, &cache)? == repeated(alloc, SMALL_HEAD, SMALL, 1500)?);
    let expected = repeated(alloc, "", SMALL_IN_THREE, 1500)?;
    assert!(rt; pushed(alloc, CcacheVersion::Three, &credential, 1500)? == expected);
    Ok(())
}

/// A ticket past 64 KiB: the small credential up to its ticket's length of 32 bits, and then 70,000, so many octets and no second ticket.
#[test]
fn large_ticket(rt: HostRuntime) -> Result<(), Fail> {
    let alloc = rt.alloc();
    let large = Vec::from_elem(alloc, 0xa5, 70_000)?;
    let mut expected = hex::decode(alloc, SMALL)?;
    assert!(rt; expected.len() == 95);
    expected.truncate(86);
    expected.extend_from_slice(&[0, 1, 0x11, 0x70])?;
    expected.extend_from_slice(&large)?;
    expected.extend_from_slice(&[0, 0, 0, 0])?;
    let (addresses, data) = ([TypedOctets::new(6, b"7")], [TypedOctets::new(8, b"9")]);
    let credential = small(&addresses, &data, &large);
    assert!(rt; pushed(alloc, CcacheVersion::Four, &credential, 1)? == expected);
    Ok(())
}

/// A cache with a header of one field with these octets.
fn with_header(
    alloc: Global,
    version: CcacheVersion,
    field: &[u8],
) -> Result<Vec<u8>, CcacheWriteError> {
    let header = [TypedOctets::new(1, field)];
    let cache = NewCcache {
        header: &header,
        ..head(version, principal(0, NONE, &[]))
    };
    write(alloc, &cache)
}

/// What is refused: a header in version 3, and one that is too long by one octet, in the field or as a whole.
const REFUSALS: [(CcacheVersion, usize, CcacheWriteError); 3] = [
    (CcacheVersion::Three, 0, CcacheWriteError::HeaderInVersion3),
    (CcacheVersion::Four, 65_532, CcacheWriteError::TooLong),
    (CcacheVersion::Four, 65_536, CcacheWriteError::TooLong),
];

/// A header as long as it can be: 05 04, 65,535 octets, a field of tag 1 and 65,531 octets, and a principal of twelve zeros; and
/// headers that are refused.
#[test]
fn headers(rt: HostRuntime) -> Result<(), Fail> {
    let alloc = rt.alloc();
    let mut expected = repeated(alloc, "0504ffff0001fffb", "a5", 65_531)?;
    expected.extend_from_slice(&[0; 12])?;
    let field = Vec::from_elem(alloc, 0xa5, 65_531)?;
    assert!(rt; with_header(alloc, CcacheVersion::Four, &field)? == expected);
    for row in &REFUSALS {
        let field = Vec::from_elem(alloc, 0xa5, row.1)?;
        let refused = with_header(alloc, row.0, &field).err();
        assert!(rt; refused.as_ref() == Some(&row.2), "{}", row.1);
    }
    Ok(())
}

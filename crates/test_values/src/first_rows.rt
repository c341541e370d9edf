//! A ticket's part that is built field by field, as a user builds it, and its octets.

use krb_der::{
    ApplicationTag, Asn1DerError, Asn1SequenceOf, BitStringAsn1, Der, ExplicitContextTag0,
    ExplicitContextTag1, ExplicitContextTag2, ExplicitContextTag3, ExplicitContextTag4,
    ExplicitContextTag5, ExplicitContextTag6, ExplicitContextTag7, ExplicitContextTag8,
    ExplicitContextTag9, ExplicitContextTag10, IntegerAsn1, OctetStringAsn1, Optional, from_bytes,
    to_vec,
};
use krb_enc_parts::data_types::{EncTicketPart, EncTicketPartInner};
use krb_types::data_types::{
    AuthorizationDataInner, EncryptionKey, HostAddress, KerberosStringAsn1, KerberosTime,
    PrincipalName, TransitedEncoding,
};
use std::alloc::Global;
use std::process::Abort;

/// An EncTicketPart with no optional field.
const TICKET_PART: [u8; 128] =
    *b"\x63\x7e\x30\x7c\xa0\x07\x03\x05\x00\x00\x00\x00\x00\xa1\x1b\x30\x19\xa0\x03\x02\x01\x11\xa1\x12\x04\x10\x00\x01\x02\x03\x04\x05\x06\x07\x08\x09\x0a\x0b\x0c\x0d\x0e\x0f\xa2\x0d\x1b\x0bEXAMPLE.COM\xa3\x12\x30\x10\xa0\x03\x02\x01\x01\xa1\x09\x30\x07\x1b\x05test1\xa4\x0b\x30\x09\xa0\x03\x02\x01\x01\xa1\x02\x04\x00\xa5\x11\x18\x0f20211231000000Z\xa7\x11\x18\x0f20211231100000Z";

/// The same with all optional fields.
const FILLED: [u8; 204] =
    *b"\x63\x81\xc9\x30\x81\xc6\xa0\x07\x03\x05\x00\x00\x00\x00\x00\xa1\x1b\x30\x19\xa0\x03\x02\x01\x11\xa1\x12\x04\x10\x00\x01\x02\x03\x04\x05\x06\x07\x08\x09\x0a\x0b\x0c\x0d\x0e\x0f\xa2\x0d\x1b\x0bEXAMPLE.COM\xa3\x12\x30\x10\xa0\x03\x02\x01\x01\xa1\x09\x30\x07\x1b\x05test1\xa4\x0b\x30\x09\xa0\x03\x02\x01\x01\xa1\x02\x04\x00\xa5\x11\x18\x0f20211231000000Z\xa6\x11\x18\x0f20211231010000Z\xa7\x11\x18\x0f20211231100000Z\xa8\x11\x18\x0f20220107000000Z\xa9\x11\x30\x0f\x30\x0d\xa0\x03\x02\x01\x02\xa1\x06\x04\x04\xc0\x00\x02\x01\xaa\x0f\x30\x0d\x30\x0b\xa0\x03\x02\x01\x01\xa1\x04\x04\x02\xbe\xef";

fn number(rt: &(impl Abort + AllocGlobal), n: u8) -> IntegerAsn1 {
    let octets = Vec::from_slice(rt.alloc(), &[n]).expect(rt, "memory");
    IntegerAsn1::from_bytes_be_unsigned(rt.alloc(), octets).expect(rt, "a number")
}

fn text(rt: &(impl Abort + AllocGlobal), text: &str) -> KerberosStringAsn1 {
    let text = String::from_str(rt.alloc(), text).expect(rt, "memory");
    KerberosStringAsn1::from_string(text).expect(rt, "a text")
}

fn octets(rt: &(impl Abort + AllocGlobal), octets: &[u8]) -> OctetStringAsn1 {
    OctetStringAsn1(Vec::from_slice(rt.alloc(), octets).expect(rt, "memory"))
}

fn list_of<T: Drop>(rt: &(impl Abort + AllocGlobal), item: T) -> Asn1SequenceOf<T> {
    let mut items = Vec::new(rt.alloc());
    items.push(item).expect(rt, "memory");
    Asn1SequenceOf(items)
}

/// The part of `TICKET_PART`.
fn ticket_part(rt: &(impl Abort + AllocGlobal)) -> EncTicketPart {
    let key = [0, 1, 2, 3, 4, 5, 6, 7, 8, 9, 10, 11, 12, 13, 14, 15];
    let key = EncryptionKey {
        key_type: ExplicitContextTag0::from(number(rt, 17)),
        key_value: ExplicitContextTag1::from(octets(rt, &key)),
    };
    let client = PrincipalName {
        name_type: ExplicitContextTag0::from(number(rt, 1)),
        name_string: ExplicitContextTag1::from(list_of(rt, text(rt, "test1"))),
    };
    let transited = TransitedEncoding {
        tr_type: ExplicitContextTag0::from(number(rt, 1)),
        contents: ExplicitContextTag1::from(octets(rt, &[])),
    };
    let flags = BitStringAsn1::with_bytes(octets(rt, &[0; 4]).0);
    let auth_time = KerberosTime::new(2021, 12, 31, 0, 0, 0).expect(rt, "a time");
    let endtime = KerberosTime::new(2021, 12, 31, 10, 0, 0).expect(rt, "a time");
    ApplicationTag(EncTicketPartInner {
        flags: ExplicitContextTag0::from(flags),
        key: ExplicitContextTag1::from(key),
        crealm: ExplicitContextTag2::from(text(rt, "EXAMPLE.COM")),
        cname: ExplicitContextTag3::from(client),
        transited: ExplicitContextTag4::from(transited),
        auth_time: ExplicitContextTag5::from(auth_time),
        starttime: Optional(None),
        endtime: ExplicitContextTag7::from(endtime),
        renew_till: Optional(None),
        caddr: Optional(None),
        authorization_data: Optional(None),
    })
}

/// Gives a part all its optional fields.
fn fill(rt: &(impl Abort + AllocGlobal), part: &mut EncTicketPartInner) {
    let address = HostAddress {
        addr_type: ExplicitContextTag0::from(number(rt, 2)),
        address: ExplicitContextTag1::from(octets(rt, &[192, 0, 2, 1])),
    };
    let data = AuthorizationDataInner {
        ad_type: ExplicitContextTag0::from(number(rt, 1)),
        ad_data: ExplicitContextTag1::from(octets(rt, &[0xbe, 0xef])),
    };
    let starttime = KerberosTime::new(2021, 12, 31, 1, 0, 0).expect(rt, "a time");
    let renew_till = KerberosTime::new(2022, 1, 7, 0, 0, 0).expect(rt, "a time");
    part.starttime = Optional(Some(ExplicitContextTag6::from(starttime)));
    part.renew_till = Optional(Some(ExplicitContextTag8::from(renew_till)));
    part.caddr = Optional(Some(ExplicitContextTag9::from(list_of(rt, address))));
    part.authorization_data = Optional(Some(ExplicitContextTag10::from(list_of(rt, data))));
}

/// Whether a value is written as these octets, and read from them.
fn agrees<T: Der + PartialEq + Drop>(
    alloc: Global,
    value: &T,
    octets: &[u8],
) -> Result<bool, Asn1DerError> {
    let read = from_bytes::<T>(alloc, octets)?;
    Ok(to_vec(alloc, value)?.as_slice() == octets && read == *value)
}

#[test]
fn first_rows(rt: HostRuntime) {
    let mut part = ticket_part(&rt);
    assert!(&rt; agrees(rt.alloc(), &part, &TICKET_PART).expect(&rt, "a part"));
    fill(&rt, &mut part.0);
    assert!(&rt; agrees(rt.alloc(), &part, &FILLED).expect(&rt, "a part"));
}

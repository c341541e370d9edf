//! Places of elements in a SEQUENCE that was laid by hand.

use krb_message_fields::places::{Place, Step, place_of};

/// SEQUENCE { [0] INTEGER 5, [1] SEQUENCE OF GeneralString "ab", "c" } (X.690, 8.9 and 8.10).
const NAMED: [u8; 18] = [
    0x30, 0x10, 0xa0, 0x03, 0x02, 0x01, 0x05, 0xa1, 0x09, 0x30, 0x07, 0x1b, 0x02, 0x61, 0x62, 0x1b,
    0x01, 0x63,
];

/// Paths, how many octets they are followed in, and the offset and the size of what each leads to.
const PATHS: [(&[Step], usize, Option<(usize, usize)>); 7] = [
    (
        &[Step::Tag(0x30), Step::Tag(0xa0), Step::Tag(0x02)],
        18,
        Some((6, 1)),
    ),
    (
        &[
            Step::Tag(0x30),
            Step::Tag(0xa1),
            Step::Tag(0x30),
            Step::Item(1),
            Step::Tag(0x1b),
        ],
        18,
        Some((17, 1)),
    ),
    (
        &[
            Step::Tag(0x30),
            Step::Tag(0xa1),
            Step::Tag(0x30),
            Step::Item(1),
        ],
        18,
        Some((15, 3)),
    ),
    (&[], 18, Some((0, 18))),
    (
        &[
            Step::Tag(0x30),
            Step::Tag(0xa1),
            Step::Tag(0x30),
            Step::Item(2),
        ],
        18,
        None,
    ),
    (&[Step::Tag(0x30), Step::Tag(0xa2)], 18, None),
    (
        &[Step::Tag(0x30), Step::Tag(0xa0), Step::Tag(0x02)],
        17,
        None,
    ),
];

#[test]
fn places(rt: HostRuntime) {
    for row in &PATHS {
        let place = row.2.map(|(offset, size)| Place { offset, size });
        let octets = &NAMED[..row.1.min(NAMED.len())];
        assert!(rt; place_of(row.0, octets) == place);
    }
}

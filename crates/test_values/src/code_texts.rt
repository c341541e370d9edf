//! The texts of a KRB-ERROR's codes.

use krb_der::{ExplicitContextTag6, from_bytes};
use krb_messages::messages::KrbError;
use std::test::Fail;

/// A KRB-ERROR of code 25 with no option.
const ERROR_OF_CODE_25: &[u8] =
    b"\x7e\x3e\x30\x3c\xa0\x03\x02\x01\x05\xa1\x03\x02\x01\x1e\xa4\x11\x18\x0f20211231235959Z\xa5\x03\x02\x01\x00\xa6\x03\x02\x01\x19\xa9\x03\x1b\x01A\xaa\x0e\x30\x0c\xa0\x03\x02\x01\x01\xa1\x05\x30\x03\x1b\x01B";

/// Codes and their texts; servers sent 6, 25 and 38.
const CODES: [(u32, &str); 7] = [
    (6, "0x06"),
    (60, "0x3C"),
    (0, "0x00"),
    (74565, "0x12345"),
    (25, "0x19"),
    (38, "0x26"),
    (4294967295, "0xFFFFFFFF"),
];

#[test]
fn codes_are_printed(rt: HostRuntime) -> Result<(), Fail> {
    let mut error = from_bytes::<KrbError>(rt.alloc(), ERROR_OF_CODE_25)?;
    for row in &CODES {
        error.0.error_code = ExplicitContextTag6::from(row.0);
        assert!(rt;
            error.0.to_string(rt.alloc())?.as_str() == row.1,
            "{}",
            row.0
        );
    }
    Ok(())
}

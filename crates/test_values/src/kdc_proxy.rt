//! What a client posts to a KDC proxy (MS-KKDCP, 2.2.2), with a hint.

use krb_der::IntegerAsn1;
use krb_kdc_proxy::{read_request, write_request};
use krb_types::data_types::KerberosStringAsn1;
use std::test::Fail;

/// An AS-REQ of Heimdal 7.8.
const MESSAGE: &str =
    "6a81de3081dba103020105a20302010aa350304e304ca103020102a24504433041a003020112a23a0438939e2c2d\
    15ae4488dc989a53155c1bea74fc6e75005ea9d0b0ba6cf7a29e7b4ceb6d906a48306233bee783684f241184e006\
    2f0003e8e7b7a47d307ba00703050040000000a1123010a003020101a10930071b05616c696365a20b1b09484549\
    4d2e54455354a31e301ca003020102a11530131b066b72627467741b094845494d2e54455354a511180f32303237\
    303532333232303030305aa70602043587983ea8143012020112020111020114020113020110020117";

/// What is posted of it for HEIM.TEST with the hint 1, by an encoder apart from this library.
const POSTED: &str =
    "3081fda081e80481e5000000e16a81de3081dba103020105a20302010aa350304e304ca103020102a24504433041\
    a003020112a23a0438939e2c2d15ae4488dc989a53155c1bea74fc6e75005ea9d0b0ba6cf7a29e7b4ceb6d906a48\
    306233bee783684f241184e0062f0003e8e7b7a47d307ba00703050040000000a1123010a003020101a10930071b\
    05616c696365a20b1b094845494d2e54455354a31e301ca003020102a11530131b066b72627467741b094845494d\
    2e54455354a511180f32303237303532333232303030305aa70602043587983ea814301202011202011102011402\
    0113020110020117a10b1b094845494d2e54455354a203020101";

#[test]
fn a_request_with_a_hint(rt: HostRuntime) -> Result<(), Fail> {
    let alloc = rt.alloc();
    let (message, posted) = (hex::decode(alloc, MESSAGE)?, hex::decode(alloc, POSTED)?);
    let domain = KerberosStringAsn1::from_string(String::from_str(alloc, "HEIM.TEST")?)?;
    let hint = IntegerAsn1::from_bytes_be_signed(alloc, hex::decode(alloc, "01")?)?;
    let made = write_request(alloc, &message, domain, Some(hint));
    assert!(rt; matches!(&made, Ok(octets) if octets.as_slice() == posted.as_slice()));
    let is_read = match read_request(alloc, &posted) {
        Ok(request) => {
            let is_same = request.datagram == message.as_slice();
            drop(request);
            is_same
        }
        Err(_) => false,
    };
    assert!(rt; is_read);
    Ok(())
}

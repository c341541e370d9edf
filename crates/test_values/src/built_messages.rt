//! Built messages against the octets of another encoder.

use krb_build::{Mechanism, gss_api_neg_init, neg_token_init};
use krb_der::{OctetStringAsn1, to_vec};
use std::test::Fail;

/// A GssApiNegInit that offers MS-KRB5, KRB5 and NTLMSSP, by an encoder in Python that shares no code with this library.
const NEGOTIATION: &[u8] =
    b"\x30\x39\x06\x06\x2b\x06\x01\x05\x05\x02\xa0\x2f\x30\x2d\xa0\x24\x30\x22\x06\x09\x2a\x86\x48\x82\
        \xf7\x12\x01\x02\x02\x06\x09\x2a\x86\x48\x86\xf7\x12\x01\x02\x02\x06\x0a\x2b\x06\x01\x04\x01\x82\
        \x37\x02\x02\x0a\xa2\x05\x04\x03\x01\x02\x03";

#[test]
fn a_negotiation_is_encoded(rt: HostRuntime) -> Result<(), Fail> {
    let alloc = rt.alloc();
    let mechanisms = [
        Mechanism::MsKerberos,
        Mechanism::Kerberos,
        Mechanism::Ntlmssp,
    ];
    let token = OctetStringAsn1(Vec::from_slice(alloc, &[1, 2, 3])?);
    let message = gss_api_neg_init(alloc, neg_token_init(alloc, &mechanisms, Some(token))?)?;
    let octets = to_vec(alloc, &message)?;
    assert!(&rt; octets.as_slice() == NEGOTIATION);
    Ok(())
}

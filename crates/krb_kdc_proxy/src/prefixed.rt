//! Messages behind their lengths, as they go over a stream (RFC 4120, 7.2.2).

ghost use Rattle.std.specs.Prelude.{IfOk, IfErr};
ghost use Rattle.krb_kdc_proxy.specs.Prefixed.{IsNotPrefixed, IsPrefixed};

use crate::error::ProxyError;

/// The number of the octets that a length has.
pub(crate) const LENGTH: usize = 4;

/// The message behind its length.
pub(crate) fn behind_length(octets: &[u8]) -> Result<&[u8], ProxyError>
    ensures found { IfOk result (λ message. IsPrefixed octets.now message.now) }
    ensures rejected { IfErr result (IsNotPrefixed octets.now) }
{
    if octets.len() < LENGTH {
        return Err(ProxyError::NoLength);
    }
    let length = u32::from_be_bytes([octets[0], octets[1], octets[2], octets[3]]);
    let message = &octets[LENGTH..];
    if length as usize != message.len() || length >= 0x8000_0000 {
        return Err(ProxyError::OtherLength);
    }
    Ok(message)
}

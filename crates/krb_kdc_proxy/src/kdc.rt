//! Requests to a KDC (RFC 4120, 5.4.1).

ghost use Rattle.std.specs.Prelude.{IfOk, IfErr};
ghost use Rattle.krb_kdc_proxy.specs.Messages.{OrMemory};
ghost use Rattle.krb_kdc_proxy.specs.Requests.{IsKdcRequest, IsNoKdcRequest};

use crate::asked::{Asked, kdc_asked};
use crate::checked::message_of;
use crate::error::ProxyError;
use crate::kind::MessageKind;
use krb_der::DerEncode;
use krb_messages::messages::{AsReq, TgsReq};
use std::alloc::Global;

/// The first octet of an AS-REQ: application 10 (X.690, 8.1.2).
pub(crate) const AS_REQ: u8 = 0x6a;

/// The first octet of a TGS-REQ: application 12.
pub(crate) const TGS_REQ: u8 = 0x6c;

/// What a request to a KDC asks for.
pub(crate) fn kdc_request(alloc: Global, octets: &[u8]) -> Result<Asked, ProxyError>
    ensures found { IfOk result (IsKdcRequest ⟦<AsReq as DerEncode>⟧ ⟦<TgsReq as DerEncode>⟧ octets.now) }
    ensures rejected { IfErr result (OrMemory (IsNoKdcRequest ⟦<AsReq as DerEncode>⟧ ⟦<TgsReq as DerEncode>⟧ octets.now)) }
{
    match octets.first() {
        Some(&AS_REQ) => {
            let request: AsReq = message_of(alloc, MessageKind::AsReq, octets)?;
            Ok(kdc_asked(request.0))
        }
        Some(&TGS_REQ) => {
            let request: TgsReq = message_of(alloc, MessageKind::TgsReq, octets)?;
            Ok(kdc_asked(request.0))
        }
        _ => Err(ProxyError::OtherKind),
    }
}

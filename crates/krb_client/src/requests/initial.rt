//! AS-REQ (RFC 4120, 3.1.1).

ghost use Rattle.std.specs.Prelude.{IfErr, IfOk};
ghost use Rattle.krb_client.specs.Bodies.{IsNoBody, wanted};
ghost use Rattle.krb_client.specs.Errors.{IsMemoryOr};
ghost use Rattle.krb_client.specs.KdcRequests.{IsAsRequest};

use crate::requests::body::{Want, as_req_octets, body};
use crate::requests::error::RequestError;
use crate::requests::fields::copy_of;
use krb_der::{Asn1SequenceOf, DerEncode};
use krb_messages::messages::AsReq;
use krb_types::data_types::{PaData, PrincipalName};
use std::alloc::Global;

/// The AS-REQ for what is wanted, by a client of this name (RFC 4120, 3.1.1), with these data of
/// pre-authentication.
///
/// `Nonce` where the nonce is 2^31 or more; else `OptionNumber` where the number of an option is
/// past 31; else `Time` where `from`, `till` or `rtime` is of no year of 0 to 9999.
pub fn as_request(
    alloc: Global,
    want: &Want,
    cname: &PrincipalName,
    padata: Option<Asn1SequenceOf<PaData>>,
) -> Result<Vec<u8>, RequestError>
    ensures made { IfOk result (λ octets. IsAsRequest ⟦<AsReq as DerEncode>⟧
        (wanted want.now) cname.now padata octets.items) }
    ensures rejected { IfErr result (λ e. IsMemoryOr e (IsNoBody (wanted want.now) e)) }
{
    let cname = match copy_of(alloc, cname) {
        Ok(cname) => cname,
        Err(error) => {
            drop(padata);
            return Err(error);
        }
    };
    match body(alloc, want, Some(cname)) {
        Ok(body) => {
            let octets = as_req_octets(alloc, padata, body)?;
            Ok(octets)
        }
        Err(error) => {
            drop(padata);
            Err(error)
        }
    }
}

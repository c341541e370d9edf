//! Requests that a proxy passes on.

ghost use Rattle.krb_kdc_proxy.specs.Requests.{types};
ghost use Rattle.krb_c_calls.specs.Requests.{IsLenientTold, IsRequestTold};

use crate::call_error::{CallError, DONE};
use crate::proxies::posted::{NOTHING, PostedRecord, told_lenient, told_request};
use krb_der::DerEncode;
use krb_kdc_proxy::{read_request, read_request_lenient};
use krb_messages::messages::{ApReq, AsReq, KdcProxyMessage, KrbPriv, TgsReq};
use std::alloc::Global;

/// Tells of the request that a client posts to a proxy, where it is one, as `krb_kdc_proxy::read_request` reads it: for whom it is; where the message and
/// target-domain stand; dclocator-hint; whether target-domain is the realm that the message names.
///
/// 0 where the octets are a request. Else the status of the first rule that they break, or 2, and all that is told is 0.
pub fn proxy_request(alloc: Global, octets: &[u8], posted: &mut PostedRecord) -> u32
    ensures { IsRequestTold ⟦<KdcProxyMessage as DerEncode>⟧
        (types ⟦<AsReq as DerEncode>⟧ ⟦<TgsReq as DerEncode>⟧ ⟦<ApReq as DerEncode>⟧ ⟦<KrbPriv as DerEncode>⟧)
        octets.now posted.new result }
{
    match read_request(alloc, octets) {
        Ok(request) => {
            *posted = told_request(octets, &request);
            DONE
        }
        Err(error) => {
            *posted = NOTHING;
            CallError::from(error).status()
        }
    }
}

/// The same, as `krb_kdc_proxy::read_request_lenient` reads it: of the message the first octets alone are looked at, and of its realm nothing is told.
pub fn proxy_request_lenient(alloc: Global, octets: &[u8], posted: &mut PostedRecord) -> u32
    ensures { IsLenientTold ⟦<KdcProxyMessage as DerEncode>⟧ octets.now posted.new result }
{
    match read_request_lenient(alloc, octets) {
        Ok(request) => {
            *posted = told_lenient(octets, &request);
            DONE
        }
        Err(error) => {
            *posted = NOTHING;
            CallError::from(error).status()
        }
    }
}

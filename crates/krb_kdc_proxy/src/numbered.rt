//! The numbers that each message begins with.

ghost use Rattle.std.specs.Prelude.{◌≡◌};
ghost use Rattle.krb_kdc_proxy.specs.Messages.{Numbers};
ghost use Rattle.krb_kdc_proxy.specs.Requests.{ap_request_numbers, private_numbers, request_numbers};

use krb_der::{ApplicationTag, IntegerAsn1};
use krb_messages::messages::{ApReqInner, KdcReq, KrbPrivInner};

/// A message that begins with pvno and msg-type.
pub(crate) trait Numbered {
    /// The numbers.
    ghost numbers: { Numbers Self };

    /// pvno.
    fn pvno(&self) -> &IntegerAsn1
        ensures { result.now ≡ numbers.pvno self.now };

    /// msg-type.
    fn msg_type(&self) -> &IntegerAsn1
        ensures { result.now ≡ numbers.msg_type self.now };
}

impl<const N: u8> Numbered for ApplicationTag<KdcReq, N> {
    ghost numbers = { request_numbers };

    fn pvno(&self) -> &IntegerAsn1 {
        &self.0.pvno.0
    }

    fn msg_type(&self) -> &IntegerAsn1 {
        &self.0.msg_type.0
    }
}

impl<const N: u8> Numbered for ApplicationTag<ApReqInner, N> {
    ghost numbers = { ap_request_numbers };

    fn pvno(&self) -> &IntegerAsn1 {
        &self.0.pvno.0
    }

    fn msg_type(&self) -> &IntegerAsn1 {
        &self.0.msg_type.0
    }
}

impl<const N: u8> Numbered for ApplicationTag<KrbPrivInner, N> {
    ghost numbers = { private_numbers };

    fn pvno(&self) -> &IntegerAsn1 {
        &self.0.pvno.0
    }

    fn msg_type(&self) -> &IntegerAsn1 {
        &self.0.msg_type.0
    }
}

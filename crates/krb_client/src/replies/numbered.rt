//! The numbers that each message begins with.

ghost use Rattle.std.specs.Prelude.{◌≡◌};
ghost use Rattle.krb_client.specs.Messages.{Numbers, ap_rep_numbers, error_numbers, reply_numbers};

use krb_der::{ApplicationTag, IntegerAsn1};
use krb_messages::messages::{ApRepInner, KdcRep, KrbErrorInner};

/// A message that begins with pvno and msg-type.
pub(crate) trait Numbered {
    /// The numbers.
    ghost numbers: { Numbers Self };

    /// pvno.
    fn pvno(&self) -> &IntegerAsn1
        ensures { result.now ≡ numbers.pvno self.now };

    /// msg-type.
    fn msg_type(&self) -> &IntegerAsn1
        ensures { result.now ≡ numbers.msg_type self.now };
}

impl<const N: u8> Numbered for ApplicationTag<KdcRep, N> {
    ghost numbers = { reply_numbers };

    fn pvno(&self) -> &IntegerAsn1 {
        &self.0.pvno.0
    }

    fn msg_type(&self) -> &IntegerAsn1 {
        &self.0.msg_type.0
    }
}

impl<const N: u8> Numbered for ApplicationTag<KrbErrorInner, N> {
    ghost numbers = { error_numbers };

    fn pvno(&self) -> &IntegerAsn1 {
        &self.0.pvno.0
    }

    fn msg_type(&self) -> &IntegerAsn1 {
        &self.0.msg_type.0
    }
}

impl<const N: u8> Numbered for ApplicationTag<ApRepInner, N> {
    ghost numbers = { ap_rep_numbers };

    fn pvno(&self) -> &IntegerAsn1 {
        &self.0.pvno.0
    }

    fn msg_type(&self) -> &IntegerAsn1 {
        &self.0.msg_type.0
    }
}

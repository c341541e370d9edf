//! The two keys of a message (RFC 3961, 5.3), as octets.

ghost use Rattle.std.specs.Prelude.{◌≡◌};

use crate::short_octets::ShortOctets;
use std::marker::Model;

/// Ke and Ki of a key and a usage (RFC 3961, 5.3), at most 32 octets each, which take no memory. As a value they are these two.
#[derive(Drop)]
pub struct MessageKeys {
    ke: ShortOctets,
    ki: ShortOctets,
}

impl Model for MessageKeys {
    ghost use Rattle.krb_crypto_message.specs.DerivedKeys.{DerivedKeys};

    ghost Value = { DerivedKeys };

    ghost view = { λ k. record { ke = k.ke; ki = k.ki } };
}

impl MessageKeys {
    /// These two.
    pub(crate) fn new(ke: ShortOctets, ki: ShortOctets) -> MessageKeys
        ensures { result ≡ record { ke = ke; ki = ki } }
    {
        MessageKeys { ke, ki }
    }

    /// The octets of Ke, which encrypts.
    pub fn ke(&self) -> &[u8]
        ensures { result.now ≡ self.now.ke }
    {
        self.ke.as_slice()
    }

    /// The octets of Ki, the key of the integrity checksum.
    pub fn ki(&self) -> &[u8]
        ensures { result.now ≡ self.now.ki }
    {
        self.ki.as_slice()
    }
}

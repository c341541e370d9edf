//! The flags of a token that came.

ghost use Rattle.std.specs.Prelude.{◌≡◌, IfErr, OnOk};
ghost use Rattle.std.specs.Int.{bit_at};
ghost use Rattle.krb_gss_per_message.specs.Flags.{RefusesFlags};
ghost use Rattle.krb_gss_per_message.specs.Keys.{bit_of, sender_bit, IsSealedFlag, IsSentBy, IsUnderSubkeyOf};

use crate::error::ProtectionError;
use crate::key::{ACCEPTOR_SUBKEY, SEALED, SENT_BY_ACCEPTOR, Sender, TokenKey};

fn sender_of(flags: u8) -> Sender
    ensures { bit_at flags 0 ≡ sender_bit result }
{
    if flags & SENT_BY_ACCEPTOR == 0 {
        Sender::Initiator
    } else {
        Sender::Acceptor
    }
}

/// Whether the token's data is sealed.
pub(crate) fn is_sealed(flags: u8) -> bool
    ensures { IsSealedFlag result flags }
{
    flags & SEALED != 0
}

fn is_under_subkey(flags: u8) -> bool
    ensures { bit_at flags 2 ≡ bit_of result }
{
    flags & ACCEPTOR_SUBKEY != 0
}

/// Whether the flags are those of a token that the key's sender sent under the key: first the sender is looked at, and then the key.
pub(crate) fn check_flags(key: &TokenKey, flags: u8) -> Result<(), ProtectionError>
    ensures sender { OnOk result (IsSentBy key.now flags) }
    ensures subkey { OnOk result (IsUnderSubkeyOf key.now flags) }
    ensures refused { IfErr result (RefusesFlags key.now flags) }
{
    if sender_of(flags) != key.sender() {
        return Err(ProtectionError::Direction);
    }
    if is_under_subkey(flags) != key.acceptor_subkey() {
        return Err(ProtectionError::Subkey);
    }
    Ok(())
}

//! Whether a message comes when the exchange waits for it.

ghost use Rattle.std.specs.Prelude.{◌≡◌, MatchBool};
ghost use Rattle.krb_c_client.specs.Refusals.{out_of_turn};
ghost use Rattle.krb_c_client.specs.Turns.{AreZeros, HasBegun, IsFirstTurn, IsFurtherTurn, IsUnbegun};

use crate::asked::is_absent;
use crate::records::ExchangeRecord;
use crate::refusal::Refusal;

/// `OtherMessage` of the engine, by its number in `krb.h`.
const OTHER_MESSAGE: u32 = 1;

/// Whether all is 0 but perhaps what the KDC's time is ahead.
fn is_unbegun(kept: &ExchangeRecord) -> bool
    ensures { MatchBool result (IsUnbegun kept.now) (IsUnbegun kept.now → ⊥) }
{
    kept.nonce == 0 && kept.etype == 0 && kept.begun == 0 && kept.key == [0; 32]
}

/// Whether all is 0.
fn are_zeros(kept: &ExchangeRecord) -> bool
    ensures { MatchBool result (AreZeros kept.now) (AreZeros kept.now → ⊥) }
{
    kept.offset == 0 && kept.has_offset == 0 && is_unbegun(kept)
}

/// Whether a request was made.
fn has_begun(kept: &ExchangeRecord) -> bool
    ensures { MatchBool result (HasBegun kept.now) (HasBegun kept.now → ⊥) }
{
    kept.begun != 0
}

/// Whether no octets come to an exchange of all zeros, or octets to one that has begun.
pub(crate) fn is_first_turn(kept: &ExchangeRecord, message: &[u8]) -> bool
    ensures { MatchBool result (IsFirstTurn kept.now message.now) (IsFirstTurn kept.now message.now → ⊥) }
{
    if is_absent(message) {
        are_zeros(kept)
    } else {
        has_begun(kept)
    }
}

/// Whether no octets come to an exchange of all zeros, but for what the KDC's time is ahead, or
/// octets to one that has begun.
pub(crate) fn is_further_turn(kept: &ExchangeRecord, message: &[u8]) -> bool
    ensures { MatchBool result (IsFurtherTurn kept.now message.now) (IsFurtherTurn kept.now message.now → ⊥) }
{
    if is_absent(message) {
        is_unbegun(kept)
    } else {
        has_begun(kept)
    }
}

/// The exchange does not wait for this message.
pub(crate) fn out_of_turn() -> Refusal
    ensures { result ≡ out_of_turn }
{
    Refusal::Rule(OTHER_MESSAGE, 0)
}

//! What is handed out of an outcome.

ghost use Rattle.std.specs.Prelude.{◌≡◌, None, Some, MatchOption};
ghost use Rattle.krb_c_pages.specs.Decoding.{items_in, octets_in, opener_of, outcome_number, part_of, reason_number, usage_number};

use crate::decoded::record::{
    DECRYPTED, IN_CLEAR, NO_ENCODING, NO_KEY_FITS, NO_KEY_OF_TYPE, NOT_TRIED, TYPE_NOT_SUPPORTED,
};
use krb_decrypt::{Key, Outcome, Part, Reason};
use krb_schema::Item;

/// The part, if there is one.
pub(crate) fn part_of(outcome: &Outcome) -> Option<&Part>
    ensures { MatchOption result (part_of outcome.now ≡ None) (λ part. part_of outcome.now ≡ Some part.now) }
{
    match outcome {
        Outcome::InClear(part) => Some(part),
        Outcome::Decrypted { part, .. } => match part {
            Some(part) => Some(part),
            None => None,
        },
        Outcome::NotTried | Outcome::NotDecrypted(_) => None,
    }
}

/// The octets of the part; none if there is none.
pub(crate) fn octets_in(outcome: &Outcome) -> &[u8]
    ensures { result.now ≡ octets_in (part_of outcome.now) }
{
    match part_of(outcome) {
        Some(part) => part.octets.as_slice(),
        None => &[],
    }
}

/// Its items.
pub(crate) fn items_in(outcome: &Outcome) -> &[Item]
    ensures { result.now ≡ items_in (part_of outcome.now) }
{
    match part_of(outcome) {
        Some(part) => part.items.as_slice(),
        None => &[],
    }
}

/// What the key is called that decrypts it; nothing if none of these does.
pub(crate) fn opener_of<'a>(keys: &'a [Key], outcome: &Outcome) -> &'a [u8]
    ensures { result.now ≡ opener_of keys.now outcome.now }
{
    let Outcome::Decrypted { key, .. } = outcome else {
        return &[];
    };
    match keys.get(*key) {
        Some(key) => key.name.as_slice(),
        None => &[],
    }
}

/// The number of a reason.
fn reason_number(why: Reason) -> u32
    ensures { result ≡ reason_number why }
{
    match why {
        Reason::TypeNotSupported => TYPE_NOT_SUPPORTED,
        Reason::NoKeyOfType => NO_KEY_OF_TYPE,
        Reason::NoKeyFits => NO_KEY_FITS,
    }
}

/// The number of an outcome.
pub(crate) fn outcome_number(outcome: &Outcome) -> u32
    ensures { result ≡ outcome_number outcome.now }
{
    match outcome {
        Outcome::NotTried => NOT_TRIED,
        Outcome::InClear(_) => IN_CLEAR,
        Outcome::NotDecrypted(why) => reason_number(*why),
        Outcome::Decrypted { part, .. } => match part {
            Some(_) => DECRYPTED,
            None => NO_ENCODING,
        },
    }
}

/// The key usage; 0 if no key decrypts it.
pub(crate) fn usage_number(outcome: &Outcome) -> u32
    ensures { result ≡ usage_number outcome.now }
{
    match outcome {
        Outcome::Decrypted { usage, .. } => u32::from(usage.number()),
        _ => 0,
    }
}

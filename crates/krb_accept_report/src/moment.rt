//! Moments as text: seconds since 1970, and the text of a time.

ghost use Rattle.std.specs.Prelude.{◌≡◌, ◌∷◌, ℤ, length, IfOk, MatchBool, MatchOption};
ghost use Rattle.krb_der_core.specs.GeneralizedTime.{IsRealTime};
ghost use Rattle.krb_accept_report.specs.Texts.{IsMoment, IsNoText, IsTimeOf, digits_of, time_text};

use crate::written::push_time;
use krb_accept::value_of;
use krb_der::GeneralizedTimeAsn1;
use krb_types::view::{time_of_unix_seconds, unix_seconds};
use std::alloc::{AllocError, Global};

/// The time of so many seconds since 1970, or the number where there is no such time.
pub(crate) fn text_of_seconds(alloc: Global, seconds: i64) -> Result<Vec<u8>, AllocError>
    ensures { IfOk result (λ text. IsMoment seconds text.items) }
{
    match time_of_unix_seconds(seconds) {
        Ok(time) => {
            let mut text = Vec::with_capacity(alloc, 20)?;
            push_time(&mut text, &time)?;
            Ok(text)
        }
        Err(_) => {
            let digits = format!(in alloc; "{seconds}")?;
            Ok(digits.into_bytes())
        }
    }
}

/// The element of DER that the time has whose text this is (X.690, 11.7).
fn element_of(alloc: Global, text: &[u8]) -> Result<Vec<u8>, AllocError>
    requires { length text.now ≡ 20 }
    ensures { IfOk result (λ element. element.items ≡ 24 ∷ 15 ∷ digits_of text.now) }
{
    let mut element = Vec::from_slice(alloc, &[0x18, 15])?;
    element.extend_from_slice(&text[..4])?;
    element.extend_from_slice(&text[5..7])?;
    element.extend_from_slice(&text[8..10])?;
    element.extend_from_slice(&text[11..13])?;
    element.extend_from_slice(&text[14..16])?;
    element.extend_from_slice(&text[17..20])?;
    Ok(element)
}

/// Whether this is the text of a time.
fn is_text_of(alloc: Global, text: &[u8], time: &GeneralizedTimeAsn1) -> Result<bool, AllocError>
    ensures { IfOk result (λ is. MatchBool is (text.now ≡ time_text time.now) (text.now ≡ time_text time.now → ⊥)) }
{
    let mut own = Vec::with_capacity(alloc, 20)?;
    push_time(&mut own, time)?;
    Ok(text == own.as_slice())
}

/// The time whose text this is, if it is that of one.
fn time_of_text(alloc: Global, text: &[u8]) -> Result<Option<GeneralizedTimeAsn1>, AllocError>
    ensures { IfOk result (λ found. MatchOption found (IsNoText text.now) (λ t. IsRealTime t × (text.now ≡ time_text t))) }
{
    if text.len() != 20 {
        return Ok(None);
    }
    let element = element_of(alloc, text)?;
    let Some(time) = value_of::<GeneralizedTimeAsn1>(alloc, &element)? else {
        return Ok(None);
    };
    if is_text_of(alloc, text, &time)? {
        Ok(Some(time))
    } else {
        Ok(None)
    }
}

/// How many seconds since 1 January 1970, 00:00:00 UTC, the time is that a text YYYY-MM-DDTHH:MM:SSZ names (ISO 8601); `None` where it names
/// none of a year of 0 to 9999.
pub fn seconds_of_text(alloc: Global, text: &[u8]) -> Result<Option<i64>, AllocError>
    ensures { IfOk result (λ found. MatchOption found ((seconds : ℤ) → IsTimeOf text.now seconds → ⊥) (IsTimeOf text.now)) }
{
    match time_of_text(alloc, text)? {
        Some(time) => Ok(Some(unix_seconds(&time))),
        None => Ok(None),
    }
}

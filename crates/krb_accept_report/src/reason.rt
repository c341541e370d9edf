//! Why a token is refused, in words, with what was seen.

ghost use Rattle.std.specs.Prelude.{◌≡◌, ◌++◌, List, ℕ, IfOk, OnOk, codes};
ghost use Rattle.krb_accept_report.specs.Reasons.{IsDistance, IsReason, IsRuleReason, IsSkewReason, IsTimeReason, frame_text};
ghost use Rattle.krb_accept_rules.specs.Refusals.{rule_text};

use crate::key_reason::text_of_key_rule;
use crate::moment::text_of_seconds;
use crate::written::push_number;
use krb_accept::{Kerberos, TokenRefusal};
use krb_accept_rules::{Opening, Rule, ServiceKey};
use std::alloc::{AllocError, Global};

/// By how much a time differs from the clock, and to which side.
#[derive(Clone, Copy)]
struct Distance {
    seconds: u64,
    side: &'static str,
}

/// By how much a time differs from the clock.
fn distance_of(clock: i64, time: i64) -> Distance
    ensures { IsDistance clock time result.seconds result.side.now }
{
    let clock = i128::from(clock);
    let time = i128::from(time);
    if time < clock {
        Distance {
            seconds: (clock - time) as u64,
            side: " s behind",
        }
    } else {
        Distance {
            seconds: (time - clock) as u64,
            side: " s ahead",
        }
    }
}

/// The client's time, by how much it differs, and the skew.
fn skew_seen(alloc: Global, clock: i64, skew: u32, time: i64) -> Result<Vec<u8>, AllocError>
    ensures { IfOk result (λ text. IsSkewReason clock skew (Some time) text.items) }
{
    let moment = text_of_seconds(alloc, time)?;
    let Distance { seconds, side } = distance_of(clock, time);
    let mut text = Vec::from_slice(alloc, Rule::Skew.text().as_bytes())?;
    text.extend_from_slice(b": the client's time ")?;
    text.extend_from_slice(&moment)?;
    text.extend_from_slice(b" is ")?;
    push_number(&mut text, alloc, seconds)?;
    text.extend_from_slice(side.as_bytes())?;
    text.extend_from_slice(b" (limit ")?;
    push_number(&mut text, alloc, u64::from(skew))?;
    text.extend_from_slice(b")")?;
    Ok(text)
}

/// A rule's own text.
fn plain(alloc: Global, rule: Rule) -> Result<Vec<u8>, AllocError>
    ensures { IfOk result (λ text. text.items ≡ rule_text rule) }
{
    Vec::from_slice(alloc, rule.text().as_bytes())
}

/// A rule's text, and the time that was seen.
fn timed(alloc: Global, rule: Rule, words: &str, seen: Option<i64>) -> Result<Vec<u8>, AllocError>
    ensures { IfOk result (λ text. IsTimeReason rule words.now seen text.items) }
{
    let Some(time) = seen else {
        return plain(alloc, rule);
    };
    let moment = text_of_seconds(alloc, time)?;
    let mut text = Vec::from_slice(alloc, rule.text().as_bytes())?;
    text.extend_from_slice(words.as_bytes())?;
    text.extend_from_slice(&moment)?;
    Ok(text)
}

/// The service: its keys, its clock and the skew.
#[derive(Clone, Copy)]
pub(crate) struct Judge<'k> {
    /// Its keys.
    pub(crate) keys: &'k [ServiceKey],
    /// Its clock.
    pub(crate) clock: i64,
    /// The skew.
    pub(crate) skew: u32,
}

/// The skew that was seen.
fn skew_text(alloc: Global, judge: Judge<'_>, seen: Option<i64>) -> Result<Vec<u8>, AllocError>
    ensures { IfOk result (λ text. IsSkewReason judge.entry.clock judge.entry.skew seen text.items) }
{
    match seen {
        Some(time) => skew_seen(alloc, judge.clock, judge.skew, time),
        None => plain(alloc, Rule::Skew),
    }
}

/// The breach of a rule of an AP-REQ, with what was seen.
fn text_of_rule(
    alloc: Global,
    judge: Judge<'_>,
    token: &[u8],
    rule: Rule,
    seen: Option<i64>,
) -> Result<Vec<u8>, AllocError>
    ensures { IfOk result (λ text. IsRuleReason ⟦<Kerberos as Opening>⟧ judge.entry.keys.now judge.entry.clock judge.entry.skew token.now rule seen text.items) }
{
    match rule {
        Rule::NotUs | Rule::NoKey | Rule::KeyVersion | Rule::Ticket => {
            text_of_key_rule(alloc, judge.keys, token, rule)
        }
        Rule::Skew => skew_text(alloc, judge, seen),
        Rule::NotYetValid => timed(alloc, rule, ": it begins at ", seen),
        Rule::Expired => timed(alloc, rule, ": it ended at ", seen),
        _ => plain(alloc, rule),
    }
}

/// What a token is that is not one of Kerberos.
fn frame_text(token: &[u8]) -> &'static str
    ensures { result.now ≡ frame_text token.now }
{
    if token.starts_with(b"NTLMSSP\0") {
        "a token of NTLM, not of Kerberos"
    } else if token.starts_with(&[0x6e]) {
        "not a token of Kerberos: it begins as an AP-REQ with no frame around it"
    } else {
        TokenRefusal::Frame.text()
    }
}

/// Why a token is refused.
pub(crate) fn text_of_refusal(
    alloc: Global,
    judge: Judge<'_>,
    token: &[u8],
    refusal: &TokenRefusal,
) -> Result<Vec<u8>, AllocError>
    ensures { IfOk result (λ text. IsReason ⟦<Kerberos as Opening>⟧ judge.entry.keys.now judge.entry.clock judge.entry.skew token.now refusal.now text.items) }
{
    match refusal {
        TokenRefusal::Request(refusal) => {
            text_of_rule(alloc, judge, token, refusal.rule, refusal.seen)
        }
        TokenRefusal::Frame => Vec::from_slice(alloc, frame_text(token).as_bytes()),
        other => Vec::from_slice(alloc, other.text().as_bytes()),
    }
}

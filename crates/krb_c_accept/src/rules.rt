//! The rules by the numbers of `krb.h`.

ghost use Rattle.std.specs.Prelude.{◌≡◌};
ghost use Rattle.krb_c_accept.specs.Rules.{has_seen_number, refused_record, request_rule, rule_number, seen_of, seen_or_zero};

use crate::records::{AcceptedRecord, NOTHING};
use krb_accept::{Rule, TokenRefusal};

/// The number of a rule of an AP-REQ. Those of version 1 of the header are numbered in their order, from 1 on; later ones behind all.
fn request_rule(rule: Rule) -> u32
    ensures { result ≡ request_rule rule }
{
    match rule {
        Rule::NotRequest => 1,
        Rule::Version => 2,
        Rule::MessageType => 3,
        Rule::TicketVersion => 4,
        Rule::Options => 5,
        Rule::UserToUser => 6,
        Rule::NotUs => 7,
        Rule::NoKey => 8,
        Rule::KeyVersion => 9,
        Rule::TicketSuite => 10,
        Rule::Ticket => 11,
        Rule::Flags => 12,
        Rule::SessionSuite => 13,
        Rule::Authenticator => 14,
        Rule::AuthenticatorVersion => 15,
        Rule::Microseconds => 16,
        Rule::SequenceNumber => 17,
        Rule::Subkey => 18,
        Rule::OtherClient => 19,
        Rule::OtherAddress => 20,
        Rule::Skew => 21,
        Rule::NotYetValid => 22,
        Rule::Invalid => 23,
        Rule::Expired => 24,
        Rule::Anonymous => 39,
        Rule::ClientRealm => 40,
        Rule::Path => 25,
        Rule::CriticalData => 26,
        Rule::DataForm => 27,
        Rule::Unremembered => 28,
        Rule::Repeat => 29,
        Rule::OutOfMemory => 0,
    }
}

/// The number of the rule that a token breaks, as `krb.h` has it: those of an AP-REQ, and behind them those of a token.
pub fn rule_number(refusal: &TokenRefusal) -> u32
    ensures { result ≡ rule_number refusal.now }
{
    match refusal {
        TokenRefusal::Request(refusal) => request_rule(refusal.rule),
        TokenRefusal::Frame => 30,
        TokenRefusal::PacPlace => 41,
        TokenRefusal::PacMissing => 31,
        TokenRefusal::PacForm => 32,
        TokenRefusal::PacChecksum => 33,
        TokenRefusal::PacClient => 34,
        TokenRefusal::ChecksumType => 35,
        TokenRefusal::ChecksumLayout => 36,
        TokenRefusal::Bindings => 37,
        TokenRefusal::Delegation => 38,
    }
}

/// What was seen of the rule that is broken.
fn seen_of(refusal: &TokenRefusal) -> Option<i64>
    ensures { result ≡ seen_of refusal.now }
{
    match refusal {
        TokenRefusal::Request(refusal) => refusal.seen,
        _ => None,
    }
}

/// It, or 0.
fn seen_or_zero(seen: Option<i64>) -> i64
    ensures { result ≡ seen_or_zero seen }
{
    match seen {
        Some(number) => number,
        None => 0,
    }
}

/// 1 where something was seen, and else 0.
fn has_seen_number(seen: Option<i64>) -> u32
    ensures { result ≡ has_seen_number seen }
{
    match seen {
        Some(_) => 1,
        None => 0,
    }
}

/// What is told of a token that is refused.
pub(crate) fn refused_record(refusal: &TokenRefusal) -> AcceptedRecord
    ensures { result ≡ refused_record refusal.now }
{
    let seen = seen_of(refusal);
    let mut told = NOTHING;
    told.seen = seen_or_zero(seen);
    told.rule = rule_number(refusal);
    told.code = refusal.code();
    told.has_seen = has_seen_number(seen);
    told
}

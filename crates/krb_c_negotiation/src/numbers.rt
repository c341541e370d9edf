//! The numbers of `krb.h` as the words of the rules.

ghost use Rattle.std.specs.Prelude.{◌≡◌};
ghost use Rattle.krb_c_negotiation.specs.Numbers.{flag, is_set, refusal_in, refusal_number, role_in, rule_number, stage_in};

use krb_c_calls::CallError;
use krb_spnego_rules::{Refusal, Role, Rule};

/// How far a side is.
#[derive(Clone, Copy)]
pub(crate) enum Stage {
    /// No token came; of an initiator, its offer is not made.
    Begins,
    /// It waits for a later message.
    Waits,
    /// The initiator's offer is made.
    Offered,
    /// It is complete.
    Complete,
    /// It ended the negotiation, for good.
    Failed,
    /// A mechanism's own tokens are exchanged, with no negotiation around them.
    Bare,
}

/// Whether a number is set.
pub(crate) fn is_set(number: u32) -> bool
    ensures { result ≡ is_set number }
{
    number != 0
}

/// The number of a flag.
pub(crate) fn flag(is_so: bool) -> u32
    ensures { result ≡ flag is_so }
{
    if is_so { 1 } else { 0 }
}

/// The side that has this number.
pub(crate) fn role_of(number: u32) -> Result<Role, CallError>
    ensures { result ≡ role_in number }
{
    match number {
        0 => Ok(Role::Initiator),
        1 => Ok(Role::Acceptor),
        _ => Err(CallError::Number),
    }
}

/// The stage that has this number.
pub(crate) fn stage_of(number: u32) -> Result<Stage, CallError>
    ensures { result ≡ stage_in number }
{
    match number {
        0 => Ok(Stage::Begins),
        1 => Ok(Stage::Waits),
        2 => Ok(Stage::Offered),
        3 => Ok(Stage::Complete),
        4 => Ok(Stage::Failed),
        5 => Ok(Stage::Bare),
        _ => Err(CallError::Number),
    }
}

/// The number of a rule, as `krb.h` has it: its place among the rules, from 1 on.
pub fn rule_number(rule: Rule) -> u32
    ensures { result ≡ rule_number rule }
{
    match rule {
        Rule::NoState => 1,
        Rule::Rejected => 2,
        Rule::NoMechanism => 3,
        Rule::SecondMechanism => 4,
        Rule::UnknownMechanism => 5,
        Rule::Unprotected => 6,
        Rule::LateRequest => 7,
        Rule::NoToken => 8,
        Rule::UnexpectedToken => 9,
        Rule::MechanismFailed => 10,
        Rule::EarlyMic => 11,
        Rule::WrongMic => 12,
        Rule::NoMic => 13,
        Rule::EarlyCompletion => 14,
        Rule::Finished => 15,
    }
}

/// The number of why a side ended a negotiation: that of the rule, 256 of octets that are no
/// message for which it waits. Where memory was wanting it did not end.
pub(crate) fn refusal_number(refusal: Refusal) -> u32
    ensures { result ≡ refusal_number refusal }
{
    match refusal {
        Refusal::OutOfMemory => 0,
        Refusal::Unread => 256,
        Refusal::Broken(rule) => rule_number(rule),
    }
}

/// Why a side ended a negotiation, by its number.
pub(crate) fn refusal_of(number: u32) -> Result<Refusal, CallError>
    ensures { result ≡ refusal_in number }
{
    match number {
        1 => Ok(Refusal::Broken(Rule::NoState)),
        2 => Ok(Refusal::Broken(Rule::Rejected)),
        3 => Ok(Refusal::Broken(Rule::NoMechanism)),
        4 => Ok(Refusal::Broken(Rule::SecondMechanism)),
        5 => Ok(Refusal::Broken(Rule::UnknownMechanism)),
        6 => Ok(Refusal::Broken(Rule::Unprotected)),
        7 => Ok(Refusal::Broken(Rule::LateRequest)),
        8 => Ok(Refusal::Broken(Rule::NoToken)),
        9 => Ok(Refusal::Broken(Rule::UnexpectedToken)),
        10 => Ok(Refusal::Broken(Rule::MechanismFailed)),
        11 => Ok(Refusal::Broken(Rule::EarlyMic)),
        12 => Ok(Refusal::Broken(Rule::WrongMic)),
        13 => Ok(Refusal::Broken(Rule::NoMic)),
        14 => Ok(Refusal::Broken(Rule::EarlyCompletion)),
        15 => Ok(Refusal::Broken(Rule::Finished)),
        256 => Ok(Refusal::Unread),
        _ => Err(CallError::Number),
    }
}

//! What a call leaves to its caller.

ghost use Rattle.krb_c_client.specs.Telling.{Tells, TellsGranted, TellsOctets};

use crate::granted::Told;
use crate::records::{ExchangeRecord, FollowedRecord, broken, nothing};
use crate::refusal::Refusal;
use krb_c_calls::DONE;
use krb_c_calls::handing::put;

/// The status of a call that a rule refuses.
pub(crate) const NOT_GRANTED: u32 = 42;

/// What follows on a message.
#[derive(Drop)]
pub(crate) struct Followed {
    /// The exchange after it, as the caller is to keep it.
    pub exchange: ExchangeRecord,
    /// What is told.
    pub told: Told,
}

/// Tells what became of a call.
pub(crate) fn tell(
    outcome: &Result<Followed, Refusal>,
    exchange: &mut ExchangeRecord,
    followed: &mut FollowedRecord,
    out: &mut [u8],
    size: &mut usize,
) -> u32
    ensures { Tells outcome.now exchange.old exchange.new followed.new out.old out.new size.new result }
{
    match outcome {
        Ok(made) => {
            let status = put(made.told.octets.as_slice(), out, size);
            if status == DONE {
                *exchange = made.exchange;
                *followed = made.told.record;
            } else {
                *followed = nothing();
            }
            status
        }
        Err(Refusal::Rule(rule, code)) => {
            *followed = broken(*rule, *code);
            *size = 0;
            NOT_GRANTED
        }
        Err(Refusal::Failed(error)) => {
            *followed = nothing();
            *size = 0;
            error.status()
        }
    }
}

/// Tells what became of a call that leaves the exchange as it is.
pub(crate) fn tell_granted(
    outcome: &Result<Told, Refusal>,
    followed: &mut FollowedRecord,
    out: &mut [u8],
    size: &mut usize,
) -> u32
    ensures { TellsGranted outcome.now followed.new out.old out.new size.new result }
{
    match outcome {
        Ok(told) => {
            let status = put(told.octets.as_slice(), out, size);
            *followed = if status == DONE {
                told.record
            } else {
                nothing()
            };
            status
        }
        Err(Refusal::Rule(rule, code)) => {
            *followed = broken(*rule, *code);
            *size = 0;
            NOT_GRANTED
        }
        Err(Refusal::Failed(error)) => {
            *followed = nothing();
            *size = 0;
            error.status()
        }
    }
}

/// Tells what became of a call that makes octets.
pub(crate) fn tell_octets(
    outcome: &Result<Vec<u8>, Refusal>,
    rule: &mut u32,
    out: &mut [u8],
    size: &mut usize,
) -> u32
    ensures { TellsOctets outcome.now rule.new out.old out.new size.new result }
{
    match outcome {
        Ok(octets) => {
            *rule = 0;
            put(octets.as_slice(), out, size)
        }
        Err(Refusal::Rule(number, _)) => {
            *rule = *number;
            *size = 0;
            NOT_GRANTED
        }
        Err(Refusal::Failed(error)) => {
            *rule = 0;
            *size = 0;
            error.status()
        }
    }
}

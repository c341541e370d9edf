//! MIC tokens.

ghost use Rattle.std.specs.Prelude.{◌≡◌, MatchResult};
ghost use Rattle.krb_c_calls.specs.Handing.{IsAnswered};
ghost use Rattle.krb_c_calls.specs.Mics.{IsMicMade, RefusesMaking, HoldsAsMic, RefusesVerifying, IsMicVerification};
ghost use Rattle.krb_c_calls.specs.Statuses.{refusal_status};

use crate::call_error::{CallError, DONE};
use crate::handing::hand_out;
use crate::tokens::keys::token_key;
use std::alloc::Global;

fn mic_made(
    alloc: Global,
    etype: i32,
    key: &[u8],
    sent_by_acceptor: bool,
    acceptor_subkey: bool,
    sequence_number: u64,
    message: &[u8],
) -> Result<Vec<u8>, CallError>
    ensures { MatchResult result
        (λ made. IsMicMade etype key.now sent_by_acceptor acceptor_subkey sequence_number message.now made.items)
        (λ e. RefusesMaking etype key.now (refusal_status e)) }
{
    let key = token_key(etype, key, sent_by_acceptor, acceptor_subkey)?;
    let token = krb_gss_per_message::make_mic(alloc, &key, sequence_number, message)?;
    Ok(token)
}

/// The MIC token of a message under this sequence number (RFC 4121, 4.2.4 and 4.2.6.1). Status 3 for a number of no suite of RFC 4121, else 5 for a key
/// of another length than the suite's, else 2 where an allocation failed.
pub fn make_mic(
    alloc: Global,
    etype: i32,
    key: &[u8],
    sent_by_acceptor: bool,
    acceptor_subkey: bool,
    sequence_number: u64,
    message: &[u8],
    out: &mut [u8],
    size: &mut usize,
) -> u32
    ensures { IsAnswered (IsMicMade etype key.now sent_by_acceptor acceptor_subkey sequence_number message.now)
        (RefusesMaking etype key.now) out.old out.new size.new result }
{
    let made = mic_made(
        alloc,
        etype,
        key,
        sent_by_acceptor,
        acceptor_subkey,
        sequence_number,
        message,
    );
    hand_out(&made, out, size)
}

fn number_of_mic(
    alloc: Global,
    etype: i32,
    key: &[u8],
    sent_by_acceptor: bool,
    acceptor_subkey: bool,
    message: &[u8],
    token: &[u8],
) -> Result<u64, CallError>
    ensures { MatchResult result
        (λ number. HoldsAsMic etype key.now sent_by_acceptor acceptor_subkey message.now token.now number)
        (λ e. RefusesVerifying etype key.now sent_by_acceptor acceptor_subkey message.now token.now
        (refusal_status e)) }
{
    let key = token_key(etype, key, sent_by_acceptor, acceptor_subkey)?;
    let number = krb_gss_per_message::verify_mic(alloc, &key, message, token)?;
    Ok(number)
}

/// Whether a MIC token holds of the message: 0 where it does, and then `sequence_number` is the token's; else it becomes 0. Status 3 for a number of no suite
/// of RFC 4121, else 5 for a key of another length than the suite's, else 16 for octets that begin with no header of a MIC token, 15 where the
/// other side sent it, 17 where it is under another key, 18 where it is marked as sealed, 7 where its checksum is another; 2 where an allocation
/// failed.
pub fn verify_mic(
    alloc: Global,
    etype: i32,
    key: &[u8],
    sent_by_acceptor: bool,
    acceptor_subkey: bool,
    message: &[u8],
    token: &[u8],
    sequence_number: &mut u64,
) -> u32
    ensures { IsMicVerification etype key.now sent_by_acceptor acceptor_subkey message.now token.now sequence_number.new result }
{
    let found = number_of_mic(
        alloc,
        etype,
        key,
        sent_by_acceptor,
        acceptor_subkey,
        message,
        token,
    );
    match found {
        Ok(number) => {
            *sequence_number = number;
            DONE
        }
        Err(refusal) => {
            *sequence_number = 0;
            refusal.status()
        }
    }
}

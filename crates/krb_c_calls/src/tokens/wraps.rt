//! Wrap tokens.

ghost use Rattle.std.specs.Prelude.{◌≡◌, MatchResult};
ghost use Rattle.krb_c_calls.specs.Handing.{IsAnswered};
ghost use Rattle.krb_c_calls.specs.Mics.{RefusesMaking};
ghost use Rattle.krb_c_calls.specs.Statuses.{refusal_status};
ghost use Rattle.krb_c_calls.specs.Wraps.{IsSealedWrap, RefusesSealing, IsClearWrap, IsHeldBy, RefusesUnwrapping, IsUnwrapping};

use crate::call_error::CallError;
use crate::handing::{hand_out, put};
use crate::tokens::keys::token_key;
use krb_crypto::confounder::confounder_of;
use krb_gss_per_message::Unwrapped;
use std::alloc::Global;

fn sealed_wrap(
    alloc: Global,
    etype: i32,
    key: &[u8],
    sent_by_acceptor: bool,
    acceptor_subkey: bool,
    sequence_number: u64,
    rotation: u16,
    confounder: &[u8],
    message: &[u8],
) -> Result<Vec<u8>, CallError>
    ensures { MatchResult result
        (λ made. IsSealedWrap etype key.now sent_by_acceptor acceptor_subkey sequence_number rotation confounder.now message.now made.items)
        (λ e. RefusesSealing etype key.now confounder.now (refusal_status e)) }
{
    if confounder.len() != 16 {
        return Err(CallError::ConfounderSize);
    }
    let key = token_key(etype, key, sent_by_acceptor, acceptor_subkey)?;
    let confounder: [u8; 16] = confounder_of(confounder);
    let token = krb_gss_per_message::wrap(
        alloc,
        &key,
        sequence_number,
        rotation,
        &confounder,
        message,
    )?;
    Ok(token)
}

/// The Wrap token of a message with confidentiality (RFC 4121, 4.2.4), under this sequence number and rotated to the right by `rotation`. Status 4 for a
/// confounder that has not 16 octets, else 3 for a number of no suite of RFC 4121, else 5 for a key of another length than the suite's, else 2
/// where an allocation failed.
pub fn wrap(
    alloc: Global,
    etype: i32,
    key: &[u8],
    sent_by_acceptor: bool,
    acceptor_subkey: bool,
    sequence_number: u64,
    rotation: u16,
    confounder: &[u8],
    message: &[u8],
    out: &mut [u8],
    size: &mut usize,
) -> u32
    ensures { IsAnswered (IsSealedWrap etype key.now sent_by_acceptor acceptor_subkey sequence_number rotation confounder.now message.now)
        (RefusesSealing etype key.now confounder.now) out.old out.new size.new result }
{
    let made = sealed_wrap(
        alloc,
        etype,
        key,
        sent_by_acceptor,
        acceptor_subkey,
        sequence_number,
        rotation,
        confounder,
        message,
    );
    hand_out(&made, out, size)
}

fn clear_wrap(
    alloc: Global,
    etype: i32,
    key: &[u8],
    sent_by_acceptor: bool,
    acceptor_subkey: bool,
    sequence_number: u64,
    rotation: u16,
    message: &[u8],
) -> Result<Vec<u8>, CallError>
    ensures { MatchResult result
        (λ made. IsClearWrap etype key.now sent_by_acceptor acceptor_subkey sequence_number rotation message.now made.items)
        (λ e. RefusesMaking etype key.now (refusal_status e)) }
{
    let key = token_key(etype, key, sent_by_acceptor, acceptor_subkey)?;
    let token = krb_gss_per_message::wrap_in_clear(
        alloc,
        &key,
        sequence_number,
        rotation,
        message,
    )?;
    Ok(token)
}

/// The Wrap token of a message without confidentiality (RFC 4121, 4.2.4), under this sequence number and rotated to the right by `rotation`. Status 3 for a
/// number of no suite of RFC 4121, else 5 for a key of another length than the suite's, else 2 where an allocation failed.
pub fn wrap_in_clear(
    alloc: Global,
    etype: i32,
    key: &[u8],
    sent_by_acceptor: bool,
    acceptor_subkey: bool,
    sequence_number: u64,
    rotation: u16,
    message: &[u8],
    out: &mut [u8],
    size: &mut usize,
) -> u32
    ensures { IsAnswered (IsClearWrap etype key.now sent_by_acceptor acceptor_subkey sequence_number rotation message.now)
        (RefusesMaking etype key.now) out.old out.new size.new result }
{
    let made = clear_wrap(
        alloc,
        etype,
        key,
        sent_by_acceptor,
        acceptor_subkey,
        sequence_number,
        rotation,
        message,
    );
    hand_out(&made, out, size)
}

fn unwrapped(
    alloc: Global,
    etype: i32,
    key: &[u8],
    sent_by_acceptor: bool,
    acceptor_subkey: bool,
    token: &[u8],
) -> Result<Unwrapped, CallError>
    ensures { MatchResult result
        (λ held. IsHeldBy etype key.now sent_by_acceptor acceptor_subkey token.now held.sealed held.sequence_number held.message.items)
        (λ e. RefusesUnwrapping etype key.now sent_by_acceptor acceptor_subkey token.now (refusal_status e)) }
{
    let key = token_key(etype, key, sent_by_acceptor, acceptor_subkey)?;
    let held = krb_gss_per_message::unwrap(alloc, &key, token)?;
    Ok(held)
}

/// The message that a Wrap token holds, sealed or not and whatever its rotation, with its sequence number and whether it was sealed; where it holds none, these
/// become 0 and false. Status 3 for a number of no suite of RFC 4121, else 5 for a key of another length than the suite's, else 16 for octets that
/// begin with no header of a Wrap token, 15 where the other side sent it, 17 where it is under another key; then of a sealed token 6 or 7 where
/// nothing is sealed to its data, 19 where another header is sealed in, and of another 7 where its checksum is another; 2 where an allocation failed.
pub fn unwrap(
    alloc: Global,
    etype: i32,
    key: &[u8],
    sent_by_acceptor: bool,
    acceptor_subkey: bool,
    token: &[u8],
    sequence_number: &mut u64,
    sealed: &mut bool,
    out: &mut [u8],
    size: &mut usize,
) -> u32
    ensures { IsUnwrapping etype key.now sent_by_acceptor acceptor_subkey token.now sequence_number.new sealed.new out.old out.new size.new result }
{
    match unwrapped(alloc, etype, key, sent_by_acceptor, acceptor_subkey, token) {
        Ok(held) => {
            *sequence_number = held.sequence_number;
            *sealed = held.sealed;
            put(&held.message, out, size)
        }
        Err(refusal) => {
            *sequence_number = 0;
            *sealed = false;
            *size = 0;
            refusal.status()
        }
    }
}

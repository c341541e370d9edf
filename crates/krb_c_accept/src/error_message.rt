//! The KRB-ERROR for a client that is refused.

ghost use Rattle.std.specs.Prelude.{◌≡◌, IfErr, IfOk, MatchResult};
ghost use Rattle.krb_accept.specs.ErrorReplies.{IsErrorReplyError};
ghost use Rattle.krb_c_accept.specs.ErrorMessages.{IsErrorMessage, IsErrorMade, IsNotMade, RefusesErrorMessage, build_refusal, error_parts};
ghost use Rattle.krb_c_calls.specs.Handing.{IsAnswered};
ghost use Rattle.krb_c_calls.specs.Statuses.{refusal_status};
ghost use Rattle.krb_c_calls.specs.declared.call_error.CallError.TheVariants as refusals;

use crate::prepared::keys_of;
use krb_accept::{ServiceKey, error_reply, error_reply_token};
use krb_build::{BuildError, ErrorParts};
use krb_c_calls::CallError;
use krb_c_calls::handing::hand_out;
use krb_der::{DerEncode, copied};
use krb_messages::messages::KrbError;
use std::alloc::{AllocError, Global};

/// When a client is refused, and why.
#[derive(Clone, Copy)]
pub struct ErrorAsked {
    /// The service's time, in seconds since 1 January 1970, 00:00:00 UTC.
    pub clock: i64,
    /// Its microseconds.
    pub microseconds: u32,
    /// The number of the error (RFC 4120, 7.5.9).
    pub code: u32,
    /// Whether the message goes in a frame.
    pub in_frame: bool,
}

/// The parts of the message, with the realm and the name of a key.
fn parts_of(alloc: Global, asked: ErrorAsked, key: &ServiceKey) -> Result<ErrorParts, AllocError>
    ensures { IfOk result (λ parts. parts ≡ error_parts asked key.now) }
{
    let realm = copied(alloc, &key.realm)?;
    let sname = copied(alloc, &key.name)?;
    Ok(ErrorParts {
        code: asked.code,
        seconds: asked.clock,
        microseconds: asked.microseconds,
        realm,
        sname,
        text: None,
        data: None,
    })
}

/// The message, in a frame or alone.
fn made(alloc: Global, in_frame: bool, parts: ErrorParts) -> Result<Vec<u8>, BuildError>
    ensures made { IfOk result (λ octets. IsErrorMade ⟦<KrbError as DerEncode>⟧ in_frame parts octets.items) }
    ensures refused { IfErr result (IsErrorReplyError parts) }
{
    if in_frame {
        error_reply_token(alloc, parts)
    } else {
        error_reply(alloc, parts)
    }
}

/// The status where no message is made.
fn build_refusal(error: BuildError) -> CallError
    ensures { result ≡ build_refusal error }
{
    match error {
        BuildError::OutOfMemory => CallError::Memory,
        BuildError::Microseconds | BuildError::Time | BuildError::FlagNumber => CallError::Number,
    }
}

/// The message for the service of a key.
fn message_of(alloc: Global, asked: ErrorAsked, key: &ServiceKey) -> Result<Vec<u8>, CallError>
    ensures made { IfOk result (λ octets. IsErrorMade ⟦<KrbError as DerEncode>⟧ asked.in_frame (error_parts asked key.now) octets.items) }
    ensures refused { IfErr result (λ e. IsNotMade asked.clock asked.microseconds (refusal_status e)) }
{
    let parts = parts_of(alloc, asked, key)?;
    match made(alloc, asked.in_frame, parts) {
        Ok(octets) => Ok(octets),
        Err(error) => Err(build_refusal(error)),
    }
}

/// The message for the service of a keytab.
fn message_for(alloc: Global, asked: ErrorAsked, keytab: &[u8]) -> Result<Vec<u8>, CallError>
    ensures { MatchResult result (λ octets. IsErrorMessage ⟦<KrbError as DerEncode>⟧ asked keytab.now octets.items)
        (λ e. RefusesErrorMessage asked keytab.now (refusal_status e)) }
{
    let keys = keys_of(alloc, keytab)?;
    match keys.split_first() {
        Some((key, _others)) => message_of(alloc, asked, key),
        None => Err(CallError::Absent),
    }
}

/// The KRB-ERROR for a client that is refused (RFC 4120, 5.9.1), with realm and name of the first entry of a keytab; in a token (RFC 4121, 4.1.3), or alone.
///
/// The first of these: 23 where the keytab is none; 20 where no entry of it is of ASCII; 3 where there are more than 999999 microseconds, or the year of the time is
/// not of 0 to 9999. Or 2 where an allocation failed.
pub fn make_error(
    alloc: Global,
    asked: ErrorAsked,
    keytab: &[u8],
    out: &mut [u8],
    size: &mut usize,
) -> u32
    ensures { IsAnswered (IsErrorMessage ⟦<KrbError as DerEncode>⟧ asked keytab.now) (RefusesErrorMessage asked keytab.now) out.old out.new size.new result }
{
    hand_out(&message_for(alloc, asked, keytab), out, size)
}

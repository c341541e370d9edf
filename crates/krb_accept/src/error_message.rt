//! The answer to a client that is not let in: a KRB-ERROR (RFC 4120, 5.9.1).

ghost use Rattle.std.specs.Prelude.{◌≡◌, IfErr, IfOk};
ghost use Rattle.krb_accept.specs.ErrorReplies.{IsErrorReply, IsErrorReplyToken, IsErrorReplyError};

use crate::frame::{InnerToken, token_of};
use krb_build::{BuildError, ErrorParts, krb_error};
use krb_der::{DerEncode, to_vec};
use krb_messages::messages::KrbError;
use std::alloc::Global;

/// The encoding of a KRB-ERROR of these parts (RFC 4120, 5.9.1), without a word of the client; the code is mostly that of a refusal.
///
/// `Microseconds` where there are more than 999999 of them; else `Time` where the year of the time is not of 0 to 9999.
pub fn error_reply(alloc: Global, parts: ErrorParts) -> Result<Vec<u8>, BuildError>
    ensures made { IfOk result (λ octets. IsErrorReply ⟦<KrbError as DerEncode>⟧ parts octets.items) }
    ensures refused { IfErr result (IsErrorReplyError parts) }
{
    let message = krb_error(alloc, parts)?;
    match to_vec(alloc, &message) {
        Ok(octets) => Ok(octets),
        Err(_error) => Err(BuildError::OutOfMemory),
    }
}

/// The token around a KRB-ERROR of these parts (RFC 4121, 4.1.3; token id 03 00). The errors are those of `error_reply`.
pub fn error_reply_token(alloc: Global, parts: ErrorParts) -> Result<Vec<u8>, BuildError>
    ensures made { IfOk result (λ token. IsErrorReplyToken ⟦<KrbError as DerEncode>⟧ parts token.items) }
    ensures refused { IfErr result (IsErrorReplyError parts) }
{
    let message = error_reply(alloc, parts)?;
    let token = token_of(alloc, InnerToken::KrbError, &message)?;
    Ok(token)
}

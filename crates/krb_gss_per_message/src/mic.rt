//! MIC tokens, made and verified.

ghost use Rattle.std.specs.Prelude.{◌≡◌, ℕ, IfOk, IfErr, MatchResult};
ghost use Rattle.krb_gss_per_message.specs.Mic.{IsMic, IsMicOf, RefusesMic};

use crate::error::ProtectionError;
use crate::flags::{check_flags, is_sealed};
use crate::key::TokenKey;
use crate::sums::{checksum_of, is_checksum_of};
use krb_gss_tokens::MicToken;
use std::alloc::Global;

/// The MIC token of a message under this sequence number (RFC 4121, 4.2.4 and 4.2.6.1): its checksum is that of the message and then the token's
/// header, by the suite's own checksum and the key usage of the sender's MIC tokens. The message is no part of the token.
///
/// `OutOfMemory` is the only error.
pub fn make_mic(
    alloc: Global,
    key: &TokenKey,
    sequence_number: u64,
    message: &[u8],
) -> Result<Vec<u8>, ProtectionError>
    ensures made { IfOk result (λ token. IsMic key.now sequence_number message.now token.items) }
    ensures memory { IfErr result (λ e. e ≡ ProtectionError.OutOfMemory) }
{
    let mut token = MicToken {
        flags: key.flags(false),
        seq_num: sequence_number,
        payload: None,
        checksum: Vec::new(alloc),
    };
    let checksum = checksum_of(alloc, &key.mic_key(), message, &token.header())?;
    token.set_checksum(checksum);
    Ok(token.to_vec(alloc)?)
}

/// The sequence number of a MIC token that holds of the message (RFC 4121, 4.2.4 and 4.2.6.1): it comes from the key's sender, under this key, and
/// its checksum is that of the message and the token's header. Reserved flags are ignored, as RFC 4121, 4.2.2 says, but the checksum is over
/// them too.
///
/// Else the first of these errors: `Token` for octets that begin with no header of a MIC token, `Direction`, `Subkey`, `Sealed`, and `Checksum`,
/// also where the checksum has another length. `OutOfMemory` may come before any but `Token`.
pub fn verify_mic(
    alloc: Global,
    key: &TokenKey,
    message: &[u8],
    token: &[u8],
) -> Result<u64, ProtectionError>
    ensures verified { IfOk result (IsMicOf key.now message.now token.now) }
    ensures refused { IfErr result (RefusesMic key.now message.now token.now) }
    ensures only { (number : ℕ) → IsMicOf key.now message.now token.now number → MatchResult result (λ n. n ≡ number) (λ e. e ≡ ProtectionError.OutOfMemory) }
{
    number_of(alloc, key, message, token)
}

fn number_of(
    alloc: Global,
    key: &TokenKey,
    message: &[u8],
    token: &[u8],
) -> Result<u64, ProtectionError>
    ensures verified { IfOk result (IsMicOf key.now message.now token.now) }
    ensures refused { IfErr result (RefusesMic key.now message.now token.now) }
{
    let token = MicToken::from_slice(alloc, token)?;
    check_flags(key, token.flags)?;
    if is_sealed(token.flags) {
        return Err(ProtectionError::Sealed);
    }
    let header = token.header();
    let holds = is_checksum_of(alloc, &key.mic_key(), message, &header, &token.checksum)?;
    if holds {
        Ok(token.seq_num)
    } else {
        Err(ProtectionError::Checksum)
    }
}

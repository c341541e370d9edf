//! Wrap tokens, opened and verified.

ghost use Rattle.std.specs.Prelude.{◌≡◌, ◌≤◌, ℕ, Bool, List, length, take, IfOk, IfErr, MatchOption};
ghost use Rattle.krb_gss_per_message.specs.Unwrap.{IsOpened, IsPlaintextOf, IsSealedDataOf, IsClearDataOf, Holds, IsUnwrapped, RefusesUnwrap, Returns};
ghost use Rattle.krb_gss_per_message.specs.UnwrapSteps.{RefusesOpening, RefusesSealedData, RefusesClearData, RefusesData, ReturnsOctets};

use crate::error::ProtectionError;
use crate::flags::{check_flags, is_sealed};
use crate::key::TokenKey;
use crate::rotation::rotate_back;
use crate::sums::is_checksum_of;
use crate::wrapping::header_of;
use krb_gss_tokens::WrapToken;
use std::alloc::Global;

/// What a Wrap token held.
#[derive(Drop)]
pub struct Unwrapped {
    /// The message.
    pub message: Vec<u8>,
    /// The sequence number.
    pub sequence_number: u64,
    /// Whether the message was encrypted (RFC 4121, 4.2.2, Sealed).
    pub sealed: bool,
}

/// What a Wrap token holds (RFC 4121, 4.2.4, 4.2.5 and 4.2.6.2): it comes from the key's sender, under this key; it may be rotated by any count, and
/// sealed or not. Where it is sealed, the opened data is the message, as many octets of filler as EC says, and the token's header with RRC 0;
/// where it is not, its data is the message and, in as many octets as EC says, the checksum of the message and the header with EC and RRC 0.
/// Reserved flags are ignored, as RFC 4121, 4.2.2 says, but the header is compared with them.
///
/// Else the first of these errors: `Token` for octets that begin with no header of a Wrap token, `Direction`, `Subkey`, and then of a sealed token
/// `Opening` or `SealedHeader`, and of another `Checksum`. `OutOfMemory` may come before any.
pub fn unwrap(alloc: Global, key: &TokenKey, token: &[u8]) -> Result<Unwrapped, ProtectionError>
    ensures unwrapped { IfOk result (λ held. IsUnwrapped key.now token.now held.sealed held.sequence_number held.message.items) }
    ensures refused { IfErr result (RefusesUnwrap key.now token.now) }
    ensures only { (sealed : Bool) (number : ℕ) (message : List ℕ) → IsUnwrapped key.now token.now sealed number message
        → Returns sealed number message result }
{
    let WrapToken {
        flags,
        ec,
        rrc,
        seq_num,
        payload: _,
        checksum: mut octets,
    } = WrapToken::from_slice(alloc, token)?;
    check_flags(key, flags)?;
    rotate_back(&mut octets, rrc);
    let sealed = is_sealed(flags);
    let message = held_message(alloc, key, sealed, flags, ec, seq_num, octets)?;
    Ok(Unwrapped {
        message,
        sequence_number: seq_num,
        sealed,
    })
}

/// The message that the data of a token with these fields holds, sealed or not.
fn held_message(
    alloc: Global,
    key: &TokenKey,
    sealed: bool,
    flags: u8,
    extra_count: u16,
    sequence_number: u64,
    octets: Vec<u8>,
) -> Result<Vec<u8>, ProtectionError>
    ensures held { IfOk result (λ message. Holds sealed key.now flags extra_count sequence_number octets.items message.items) }
    ensures refused { IfErr result (RefusesData sealed key.now flags extra_count sequence_number octets.items) }
    ensures only { (message : List ℕ) → Holds sealed key.now flags extra_count sequence_number octets.items message → ReturnsOctets message result }
{
    if sealed {
        let header = header_of(alloc, flags, extra_count, sequence_number);
        sealed_message(alloc, key, &octets, &header, extra_count)
    } else {
        let header = header_of(alloc, flags, 0, sequence_number);
        clear_message(alloc, key, octets, &header, extra_count)
    }
}

/// The plaintext that is sealed to the octets.
fn plaintext_of(alloc: Global, key: &TokenKey, octets: &[u8]) -> Result<Vec<u8>, ProtectionError>
    ensures opened { IfOk result (λ plaintext. IsOpened key.now octets.now plaintext.items) }
    ensures only { IfOk result (λ plaintext. (other : List ℕ) → IsOpened key.now octets.now other → other ≡ plaintext.items) }
    ensures refused { IfErr result (RefusesOpening key.now octets.now) }
{
    Ok(key.opening_key().decrypt(alloc, octets)?)
}

/// The octets of the message in a plaintext that ends in so many octets of filler and then the header.
fn message_size(plaintext: &[u8], header: &[u8; 16], extra_count: u16) -> Option<usize>
    ensures { MatchOption result
        ((message : List ℕ) → ¬ IsPlaintextOf extra_count header.now plaintext.now message)
        (λ size. (size ≤ length plaintext.now) × IsPlaintextOf extra_count header.now plaintext.now (take size plaintext.now)) }
{
    if plaintext.len() < header.len() {
        return None;
    }
    let (front, back) = plaintext.split_at(plaintext.len() - header.len());
    if back != header.as_slice() {
        return None;
    }
    if front.len() < extra_count as usize {
        return None;
    }
    Some(front.len() - extra_count as usize)
}

/// The message that is sealed to the octets, with so many octets of filler and the header.
fn sealed_message(
    alloc: Global,
    key: &TokenKey,
    octets: &[u8],
    header: &[u8; 16],
    extra_count: u16,
) -> Result<Vec<u8>, ProtectionError>
    ensures message { IfOk result (λ message. IsSealedDataOf key.now extra_count header.now octets.now message.items) }
    ensures refused { IfErr result (RefusesSealedData key.now extra_count header.now octets.now) }
    ensures only { (message : List ℕ) → IsSealedDataOf key.now extra_count header.now octets.now message → ReturnsOctets message result }
{
    let mut plaintext = plaintext_of(alloc, key, octets)?;
    let Some(size) = message_size(&plaintext, header, extra_count) else {
        return Err(ProtectionError::SealedHeader);
    };
    plaintext.truncate(size);
    Ok(plaintext)
}

/// The message before its checksum, which has so many octets.
fn clear_message(
    alloc: Global,
    key: &TokenKey,
    octets: Vec<u8>,
    header: &[u8; 16],
    extra_count: u16,
) -> Result<Vec<u8>, ProtectionError>
    ensures message { IfOk result (λ message. IsClearDataOf key.now extra_count header.now octets.items message.items) }
    ensures refused { IfErr result (RefusesClearData key.now extra_count header.now octets.items) }
    ensures only { (message : List ℕ) → IsClearDataOf key.now extra_count header.now octets.items message → ReturnsOctets message result }
{
    let mut octets = octets;
    let extra_count = extra_count as usize;
    if octets.len() < extra_count {
        return Err(ProtectionError::Checksum);
    }
    let (message, checksum) = octets.split_at(octets.len() - extra_count);
    let holds = is_checksum_of(alloc, &key.clear_key(), message, header, checksum)?;
    if !holds {
        return Err(ProtectionError::Checksum);
    }
    octets.truncate(octets.len() - extra_count);
    Ok(octets)
}

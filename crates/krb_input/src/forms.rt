//! What an input stands for.

ghost use Rattle.std.specs.Prelude.{◌≡◌, ◌⊎◌, Some, None, IfOk, IfErr, MatchOption};
ghost use Rattle.base64.specs.Engines.{standard, standard_no_pad, url_safe, url_safe_no_pad};
ghost use Rattle.krb_input.specs.Blanks.{without_blanks};
ghost use Rattle.krb_input.specs.Forms.{base64, base64_by, hexadecimal, octets_of, of_dump, of_pem, of_scheme, of_text, of_words};
ghost use Rattle.krb_input.specs.Marks.{unmarked};
ghost use Rattle.krb_input.specs.declared.forms.InputError.TheVariants.{NotBase64, OutOfMemory};

use crate::blanks::{skip_blanks, without_blanks};
use crate::dump::{dump_digits, is_dump};
use crate::headers::behind_scheme;
use crate::marks::unmarked;
use crate::pem::between_lines;
use crate::words::after_text;
use base64::DecodeAllocError;
use base64::engine::general_purpose::{
    GeneralPurpose, STANDARD, STANDARD_NO_PAD, URL_SAFE, URL_SAFE_NO_PAD,
};
use hex::FromHexError;
use std::alloc::{AllocError, Global};
use thiserror::Error;

/// Why an input stands for no octets.
#[derive(Debug, Clone, Copy, PartialEq, Eq, Error)]
pub enum InputError {
    /// It begins with a line of PEM or a scheme of HTTP, and no base64 follows, or not the second line of PEM.
    #[error("the input begins as PEM or as a header of HTTP, and what follows is no base64")]
    NotBase64,
    /// An allocation failed.
    #[error("out of memory")]
    OutOfMemory,
}

impl From<AllocError> for InputError {
    ghost from_gives = { λ _ e. e ≡ OutOfMemory };

    fn from(_error: AllocError) -> InputError {
        InputError::OutOfMemory
    }
}

/// What a text stands for in one kind of base64; `None` where it is none.
fn base64_by(
    alloc: Global,
    engine: &GeneralPurpose,
    text: &[u8],
) -> Result<Option<Vec<u8>>, AllocError>
    ensures { IfOk result (λ found. MatchOption found (base64_by engine.now text.now ≡ None) (λ octets. base64_by engine.now text.now ≡ Some octets.items)) }
{
    match engine.decode(alloc, text) {
        Ok(octets) => Ok(Some(octets)),
        Err(DecodeAllocError::OutOfMemory) => Err(AllocError),
        Err(DecodeAllocError::DecodeError(_)) => Ok(None),
    }
}

/// What a text stands for in base64; `None` where it is none.
fn base64_of(alloc: Global, text: &[u8]) -> Result<Option<Vec<u8>>, AllocError>
    ensures { IfOk result (λ found. MatchOption found (base64 text.now ≡ None) (λ octets. base64 text.now ≡ Some octets.items)) }
{
    if let Some(octets) = base64_by(alloc, &STANDARD, text)? {
        return Ok(Some(octets));
    }
    if let Some(octets) = base64_by(alloc, &STANDARD_NO_PAD, text)? {
        return Ok(Some(octets));
    }
    if let Some(octets) = base64_by(alloc, &URL_SAFE, text)? {
        return Ok(Some(octets));
    }
    base64_by(alloc, &URL_SAFE_NO_PAD, text)
}

/// The octets that hexadecimal digits in pairs, of either case, stand for; `None` where a text is no such digits. The only error is an allocation
/// failure.
pub fn hexadecimal_of(alloc: Global, text: &[u8]) -> Result<Option<Vec<u8>>, AllocError>
    ensures { IfOk result (λ found. MatchOption found (hexadecimal text.now ≡ None) (λ octets. hexadecimal text.now ≡ Some octets.items)) }
{
    match hex::decode(alloc, text) {
        Ok(octets) => Ok(Some(octets)),
        Err(FromHexError::OutOfMemory) => Err(AllocError),
        Err(_) => Ok(None),
    }
}

/// What base64 with blanks in it stands for.
fn armored(alloc: Global, text: &[u8]) -> Result<Vec<u8>, InputError>
    ensures ok { IfOk result (λ octets. base64 (without_blanks text.now) ≡ Some octets.items) }
    ensures err { IfErr result (λ e. (e ≡ OutOfMemory) ⊎ ((e ≡ NotBase64) × (base64 (without_blanks text.now) ≡ None))) }
{
    let text = without_blanks(alloc, text)?;
    match base64_of(alloc, &text)? {
        Some(octets) => Ok(octets),
        None => Err(InputError::NotBase64),
    }
}

/// A copy of the octets.
fn copied(alloc: Global, octets: &[u8]) -> Result<Vec<u8>, AllocError>
    ensures { IfOk result (λ copy. copy.items ≡ octets.now) }
{
    let mut copy = Vec::with_capacity(alloc, octets.len())?;
    copy.extend_from_slice(octets)?;
    Ok(copy)
}

/// What the digits of a dump stand for; `None` where the input is no dump.
fn dump_of(alloc: Global, input: &[u8]) -> Result<Option<Vec<u8>>, AllocError>
    ensures { IfOk result (λ found. MatchOption found (of_dump input.now ≡ None) (λ octets. of_dump input.now ≡ Some octets.items)) }
{
    let start = skip_blanks(input);
    if !is_dump(start) {
        return Ok(None);
    }
    let digits = dump_digits(alloc, start)?;
    hexadecimal_of(alloc, &digits)
}

/// What digits stand for that have marks before and between them; `None` where they are none.
fn marked_of(alloc: Global, text: &[u8]) -> Result<Option<Vec<u8>>, AllocError>
    ensures { IfOk result (λ found. MatchOption found (hexadecimal (unmarked text.now) ≡ None) (λ octets. hexadecimal (unmarked text.now) ≡ Some octets.items)) }
{
    let digits = unmarked(alloc, text)?;
    hexadecimal_of(alloc, &digits)
}

/// What a text without blanks stands for; `None` where it is neither digits nor base64.
fn words_of(alloc: Global, text: &[u8]) -> Result<Option<Vec<u8>>, AllocError>
    ensures { IfOk result (λ found. MatchOption found (of_words text.now ≡ None) (λ octets. of_words text.now ≡ Some octets.items)) }
{
    if let Some(octets) = hexadecimal_of(alloc, text)? {
        return Ok(Some(octets));
    }
    if let Some(octets) = marked_of(alloc, text)? {
        return Ok(Some(octets));
    }
    base64_of(alloc, text)
}

/// What an input stands for that begins neither as PEM nor with a scheme.
fn of_text(alloc: Global, input: &[u8]) -> Result<Vec<u8>, AllocError>
    ensures { IfOk result (λ octets. of_text input.now ≡ octets.items) }
{
    if let Some(octets) = dump_of(alloc, input)? {
        return Ok(octets);
    }
    let text = without_blanks(alloc, input)?;
    match words_of(alloc, &text)? {
        Some(octets) => Ok(octets),
        None => copied(alloc, input),
    }
}

/// The octets that an input stands for. Blanks are spaces, tabulators, line feeds and carriage returns, and do not count within a text. The
/// first of these rules holds that fits:
///
/// 1. the input begins with `-----BEGIN ` (RFC 7468): the base64 between the two lines, behind the second of which only blanks follow;
/// 2. it begins with a scheme of HTTP, `Negotiate` (RFC 4559) or `Kerberos`, or with a scheme behind the name of a field, as
///    `Authorization:` or `WWW-Authenticate:`, letters in either case: the base64 behind the scheme;
/// 3. it begins with an offset of four zeros or more: a dump, as Wireshark, `hexdump -C` and `xxd` print it, whose lines have an offset, hexadecimal digits
///    in pairs, and perhaps a text that repeats them, which does not count;
/// 4. it is hexadecimal digits in pairs, in either case, before which `0x` or `\x` and between which a colon, a comma or a hyphen may stand;
/// 5. it is base64 (RFC 4648, 4 or 5), with its padding or without;
/// 6. else it is the octets themselves, blanks and all.
///
/// `NotBase64` where one of the first two fits and what follows is no base64.
pub fn octets_of_input(alloc: Global, input: &[u8]) -> Result<Vec<u8>, InputError>
    ensures ok { IfOk result (λ octets. octets_of input.now ≡ Some octets.items) }
    ensures err { IfErr result (λ e. (e ≡ OutOfMemory) ⊎ ((e ≡ NotBase64) × (octets_of input.now ≡ None))) }
{
    let start = skip_blanks(input);
    if let Some(label) = after_text(b"-----BEGIN ", start) {
        return match between_lines(label) {
            Some(body) => armored(alloc, body),
            None => Err(InputError::NotBase64),
        };
    }
    match behind_scheme(start) {
        Some(token) => armored(alloc, token),
        None => Ok(of_text(alloc, input)?),
    }
}

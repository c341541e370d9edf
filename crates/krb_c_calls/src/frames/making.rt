//! Messages made of the contents of their fields.

ghost use Rattle.std.specs.Prelude.{◌≡◌, ◌<◌, ◌++◌, ◌∷◌, ℕ, List, [], Option, None, IfOk, OnOk, MatchResult};
ghost use Rattle.krb_der_core.specs.Encoding.{optional};
ghost use Rattle.krb_der_core.specs.Tlv.{tlv};
ghost use Rattle.krb_c_calls.specs.Handing.{IsAnswered};
ghost use Rattle.krb_c_calls.specs.MessageRules.{RefusesReading};
ghost use Rattle.krb_c_calls.specs.Statuses.{refusal_status};
ghost use Rattle.krb_c_calls.specs.Making.{IsMade, IsMadeAnswer, IsStateNumber, NoStateNumber, RefusesAnswer, made_answer, made_init, present};
ghost use Rattle.krb_c_calls.specs.Negotiation.{field};
ghost use Rattle.krb_c_calls.specs.Proxy.{proxy_octets};

use crate::CallError;
use crate::handing::hand_out;
use crate::parts::checked;
use krb_der::{Der, DerEncode};
use krb_der_core::{close_tlv, write_tlv};
use krb_gss_tokens::gss_api::{ApplicationTag0, GssApiNegInit, NegTokenTarg1};
use krb_messages::messages::KdcProxyMessage;
use std::alloc::{AllocError, Global};

/// The number of negState where it is absent.
const ABSENT: u32 = 256;

/// The content of SPNEGO's OBJECT IDENTIFIER, 1.3.6.1.5.5.2 (RFC 4178, 3.1).
const SPNEGO: [u8; 6] = [43, 6, 1, 5, 5, 2];

/// Appends a field: its content under the tag of its type and an explicit tag.
fn push_field(tag: u8, inner: u8, content: &[u8], out: &mut Vec<u8>) -> Result<(), AllocError>
    ensures { OnOk result (out.new.items ≡ out.old.items ++ tlv tag (tlv inner content.now)) }
{
    let start = out.len();
    write_tlv(inner, content, out)?;
    close_tlv(tag, start, out)
}

/// Appends a field that has a content of some octets.
fn push_present(tag: u8, inner: u8, content: &[u8], out: &mut Vec<u8>) -> Result<(), AllocError>
    ensures { OnOk result (out.new.items ≡ out.old.items ++ field tag inner (present content.now)) }
{
    if content.is_empty() {
        return Ok(());
    }
    push_field(tag, inner, content, out)
}

/// Octets that are the one encoding of a value; else why they are not.
fn encoding<T: Der + Drop>(alloc: Global, made: Vec<u8>) -> Result<Vec<u8>, CallError>
    ensures { MatchResult result (λ octets. IsMade ⟦<T as DerEncode>⟧ made.items octets.items)
        (λ e. RefusesReading ⟦<T as DerEncode>⟧ made.items (refusal_status e)) }
{
    checked::<T>(alloc, &made)?;
    Ok(made)
}

/// The fields of a KDC-PROXY-MESSAGE without a hint, in its SEQUENCE.
fn proxy_of(alloc: Global, message: &[u8], domain: &[u8]) -> Result<Vec<u8>, AllocError>
    ensures { IfOk result (λ made. made.items ≡ proxy_octets message.now (present domain.now) []) }
{
    let mut made = Vec::new(alloc);
    push_field(0xa0, 0x04, message, &mut made)?;
    push_present(0xa1, 0x1b, domain, &mut made)?;
    close_tlv(0x30, 0, &mut made)?;
    Ok(made)
}

/// What `make_kdc_proxy_message` hands out, or why it refuses.
fn proxy_made(alloc: Global, message: &[u8], domain: &[u8]) -> Result<Vec<u8>, CallError>
    ensures { MatchResult result
        (λ made. IsMade ⟦<KdcProxyMessage as DerEncode>⟧ (proxy_octets message.now (present domain.now) []) made.items)
        (λ e. RefusesReading ⟦<KdcProxyMessage as DerEncode>⟧ (proxy_octets message.now (present domain.now) [])
        (refusal_status e)) }
{
    let made = proxy_of(alloc, message, domain)?;
    encoding::<KdcProxyMessage>(alloc, made)
}

/// The KDC-PROXY-MESSAGE of this kerb-message, which is a message behind its length in four octets, and this target-domain, which is left out
/// where it has no octets; it has no dclocator-hint (MS-KKDCP, 2.2.2).
///
/// 9 where target-domain is not of ASCII; 2 where memory was wanting. On a refusal `out` is as it was.
pub fn make_kdc_proxy_message(
    alloc: Global,
    message: &[u8],
    domain: &[u8],
    out: &mut [u8],
    size: &mut usize,
) -> u32
    ensures { IsAnswered (IsMade ⟦<KdcProxyMessage as DerEncode>⟧ (proxy_octets message.now (present domain.now) []))
        (RefusesReading ⟦<KdcProxyMessage as DerEncode>⟧ (proxy_octets message.now (present domain.now) [])) out.old out.new size.new result }
{
    hand_out(&proxy_made(alloc, message, domain), out, size)
}

/// The NegTokenInit of these contents under its choice [0].
fn init_fields_of(
    alloc: Global,
    mechanisms: &[u8],
    token: &[u8],
    mic: &[u8],
) -> Result<Vec<u8>, AllocError>
    ensures { IfOk result (λ made. made.items ≡ tlv 160 (tlv 48 (field 160 48 (present mechanisms.now) ++ field 161 3 None
        ++ field 162 4 (present token.now) ++ field 163 4 (present mic.now)))) }
{
    let mut made = Vec::new(alloc);
    push_present(0xa0, 0x30, mechanisms, &mut made)?;
    push_present(0xa2, 0x04, token, &mut made)?;
    push_present(0xa3, 0x04, mic, &mut made)?;
    close_tlv(0x30, 0, &mut made)?;
    close_tlv(0xa0, 0, &mut made)?;
    Ok(made)
}

/// The same in its token.
fn init_of(
    alloc: Global,
    mechanisms: &[u8],
    token: &[u8],
    mic: &[u8],
) -> Result<Vec<u8>, AllocError>
    ensures { IfOk result (λ made. made.items ≡ made_init mechanisms.now token.now mic.now) }
{
    let fields = init_fields_of(alloc, mechanisms, token, mic)?;
    let mut made = Vec::new(alloc);
    write_tlv(0x06, &SPNEGO, &mut made)?;
    made.extend_from_slice(&fields)?;
    close_tlv(0x60, 0, &mut made)?;
    Ok(made)
}

/// What `make_neg_token_init` hands out, or why it refuses.
fn init_made(
    alloc: Global,
    mechanisms: &[u8],
    token: &[u8],
    mic: &[u8],
) -> Result<Vec<u8>, CallError>
    ensures { MatchResult result
        (λ made. IsMade ⟦<ApplicationTag0<GssApiNegInit> as DerEncode>⟧ (made_init mechanisms.now token.now mic.now)
        made.items)
        (λ e. RefusesReading ⟦<ApplicationTag0<GssApiNegInit> as DerEncode>⟧
        (made_init mechanisms.now token.now mic.now) (refusal_status e)) }
{
    let made = init_of(alloc, mechanisms, token, mic)?;
    encoding::<ApplicationTag0<GssApiNegInit>>(alloc, made)
}

/// The token that begins a negotiation (RFC 4178, 4.2.1; RFC 2743, 3.1): of the mechanisms' OBJECT IDENTIFIERs, one behind the other in DER, of
/// mechToken and of mechListMIC. What has no octets is left out, and reqFlags are.
///
/// 9, 10 or 11 where the mechanisms are no such elements, as their first error is; 2 where memory was wanting. On a refusal `out` is as it was.
pub fn make_neg_token_init(
    alloc: Global,
    mechanisms: &[u8],
    token: &[u8],
    mic: &[u8],
    out: &mut [u8],
    size: &mut usize,
) -> u32
    ensures { IsAnswered (IsMade ⟦<ApplicationTag0<GssApiNegInit> as DerEncode>⟧ (made_init mechanisms.now token.now mic.now))
        (RefusesReading ⟦<ApplicationTag0<GssApiNegInit> as DerEncode>⟧ (made_init mechanisms.now token.now mic.now)) out.old out.new size.new result }
{
    hand_out(&init_made(alloc, mechanisms, token, mic), out, size)
}

/// negState of its number.
fn state_of(state: u32) -> Result<Option<u8>, CallError>
    ensures { MatchResult result (λ number. IsStateNumber state number) (λ e. (e ≡ CallError.Number) × NoStateNumber state) }
{
    match state {
        ABSENT => Ok(None),
        0..=3 => Ok(Some(state as u8)),
        _ => Err(CallError::Number),
    }
}

/// Appends negState, an ENUMERATED.
fn push_state(state: Option<u8>, out: &mut Vec<u8>) -> Result<(), AllocError>
    ensures { OnOk result (out.new.items ≡ out.old.items ++ optional (λ n. tlv 160 (tlv 10 (n ∷ []))) state) }
{
    match state {
        Some(number) => push_field(0xa0, 0x0a, &[number], out),
        None => Ok(()),
    }
}

/// The negTokenResp of these contents.
fn answer_of(
    alloc: Global,
    state: Option<u8>,
    mechanism: &[u8],
    token: &[u8],
    mic: &[u8],
) -> Result<Vec<u8>, AllocError>
    ensures { IfOk result (λ made. made.items ≡ made_answer state mechanism.now token.now mic.now) }
{
    let mut made = Vec::new(alloc);
    push_state(state, &mut made)?;
    push_present(0xa1, 0x06, mechanism, &mut made)?;
    push_present(0xa2, 0x04, token, &mut made)?;
    push_present(0xa3, 0x04, mic, &mut made)?;
    close_tlv(0x30, 0, &mut made)?;
    close_tlv(0xa1, 0, &mut made)?;
    Ok(made)
}

/// What `make_neg_token_resp` hands out, or why it refuses.
fn answer_made(
    alloc: Global,
    state: u32,
    mechanism: &[u8],
    token: &[u8],
    mic: &[u8],
) -> Result<Vec<u8>, CallError>
    ensures { MatchResult result
        (λ made. IsMadeAnswer ⟦<NegTokenTarg1 as DerEncode>⟧ state mechanism.now token.now mic.now made.items)
        (λ e. RefusesAnswer ⟦<NegTokenTarg1 as DerEncode>⟧ state mechanism.now token.now mic.now (refusal_status e)) }
{
    let number = state_of(state)?;
    let made = answer_of(alloc, number, mechanism, token, mic)?;
    encoding::<NegTokenTarg1>(alloc, made)
}

/// The later message of a negotiation, negTokenResp [1] (RFC 4178, 4.2.2): of negState by its number, 0 to 3, or 256 where it is left out; of the
/// content of supportedMech's OBJECT IDENTIFIER, of responseToken and of mechListMIC. What has no octets is left out.
///
/// 3 for another number; 9 or 11 where the mechanism is the content of no OBJECT IDENTIFIER; 2 where memory was wanting. On a refusal `out` is as it
/// was.
pub fn make_neg_token_resp(
    alloc: Global,
    state: u32,
    mechanism: &[u8],
    token: &[u8],
    mic: &[u8],
    out: &mut [u8],
    size: &mut usize,
) -> u32
    ensures { IsAnswered (IsMadeAnswer ⟦<NegTokenTarg1 as DerEncode>⟧ state mechanism.now token.now mic.now)
        (RefusesAnswer ⟦<NegTokenTarg1 as DerEncode>⟧ state mechanism.now token.now mic.now) out.old out.new size.new result }
{
    hand_out(&answer_made(alloc, state, mechanism, token, mic), out, size)
}

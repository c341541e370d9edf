//! Frames of messages. `krb.h` declares these calls.

ghost use Rattle.std.specs.Prelude.{[]};
ghost use Rattle.krb_c_calls.specs.Handing.{IsAnswered};
ghost use Rattle.krb_c_calls.specs.MessageRules.{RefusesReading};
ghost use Rattle.krb_c_calls.specs.Making.{IsMade, IsMadeAnswer, RefusesAnswer, made_init, present};
ghost use Rattle.krb_c_calls.specs.Pac.{IsPacBuffer, IsPacBuffers, IsPacCount};
ghost use Rattle.krb_c_calls.specs.Password.{IsFrameAt, IsMadeFrame, RefusesMaking};
ghost use Rattle.krb_c_calls.specs.Proxy.{proxy_octets};
ghost use Rattle.krb_c_calls.specs.Token.{IsMadeToken, IsTokenAt, RefusesMechanism};

use krb_c_calls::frames::PlaceRecord;
use krb_der::DerEncode;
use krb_gss_tokens::gss_api::{ApplicationTag0, GssApiNegInit, NegTokenTarg1};
use krb_messages::messages::{ApMessage, KdcProxyMessage, KrbPriv};
use std::alloc::Global;

/// `krb_pac_count` of `krb.h`: how many buffers a PAC has (MS-PAC 2.3).
#[unsafe(no_mangle)]
pub extern "C" fn krb_pac_count(pac: &[u8], count: &mut usize) -> u32
    ensures { IsPacCount pac.now count.new result }
{
    krb_c_calls::frames::pac_count(pac, count)
}

/// `krb_pac_buffer` of `krb.h`: a buffer of a PAC, by its type and its place (MS-PAC 2.4).
#[unsafe(no_mangle)]
pub extern "C" fn krb_pac_buffer(
    pac: &[u8],
    n: usize,
    ul_type: &mut u32,
    offset: &mut usize,
    size: &mut usize,
) -> u32
    ensures { IsPacBuffer pac.now n ul_type.new offset.new size.new result }
{
    krb_c_calls::frames::pac_buffer(pac, n, ul_type, offset, size)
}

/// `krb_pac_buffers` of `krb.h`: all buffers of a PAC, by their types and places (MS-PAC 2.4).
#[unsafe(no_mangle)]
pub extern "C" fn krb_pac_buffers(pac: &[u8], places: &mut [PlaceRecord], count: &mut usize) -> u32
    ensures { IsPacBuffers pac.now places.old places.new count.new result }
{
    krb_c_calls::frames::pac_buffers(pac, places, count)
}

/// `krb_gss_token` of `krb.h`: the places of the mechanism and of the inner token in a GSS token (RFC 2743, 3.1).
#[unsafe(no_mangle)]
pub extern "C" fn krb_gss_token(
    alloc: Global,
    token: &[u8],
    mechanism_offset: &mut usize,
    mechanism_size: &mut usize,
    inner_offset: &mut usize,
    inner_size: &mut usize,
) -> u32
    ensures { IsTokenAt token.now mechanism_offset.new mechanism_size.new inner_offset.new inner_size.new result }
{
    krb_c_calls::frames::gss_token(
        alloc,
        token,
        mechanism_offset,
        mechanism_size,
        inner_offset,
        inner_size,
    )
}

/// `krb_make_gss_token` of `krb.h`: the GSS token of a mechanism around an inner token (RFC 2743, 3.1).
#[unsafe(no_mangle)]
pub extern "C" fn krb_make_gss_token(
    alloc: Global,
    mechanism: &[u8],
    inner: &[u8],
    out: &mut [u8],
    size: &mut usize,
) -> u32
    ensures { IsAnswered (IsMadeToken mechanism.now inner.now) (RefusesMechanism mechanism.now) out.old out.new size.new result }
{
    krb_c_calls::frames::make_gss_token(alloc, mechanism, inner, out, size)
}

/// `krb_password_frame` of `krb.h`: the places of the messages in a frame that changes a password (RFC 3244, 2).
#[unsafe(no_mangle)]
pub extern "C" fn krb_password_frame(
    alloc: Global,
    frame: &[u8],
    ap_offset: &mut usize,
    ap_size: &mut usize,
    priv_offset: &mut usize,
    priv_size: &mut usize,
) -> u32
    ensures { IsFrameAt ⟦<ApMessage as DerEncode>⟧ ⟦<KrbPriv as DerEncode>⟧ frame.now ap_offset.new ap_size.new priv_offset.new priv_size.new result }
{
    krb_c_calls::frames::password_frame(alloc, frame, ap_offset, ap_size, priv_offset, priv_size)
}

/// `krb_make_password_frame` of `krb.h`: the frame of these messages (RFC 3244, 2).
#[unsafe(no_mangle)]
pub extern "C" fn krb_make_password_frame(
    alloc: Global,
    ap_message: &[u8],
    krb_priv: &[u8],
    out: &mut [u8],
    size: &mut usize,
) -> u32
    ensures { IsAnswered (IsMadeFrame ⟦<ApMessage as DerEncode>⟧ ⟦<KrbPriv as DerEncode>⟧ ap_message.now krb_priv.now)
        (RefusesMaking ⟦<ApMessage as DerEncode>⟧ ⟦<KrbPriv as DerEncode>⟧ ap_message.now krb_priv.now) out.old out.new size.new result }
{
    krb_c_calls::frames::make_password_frame(alloc, ap_message, krb_priv, out, size)
}

/// `krb_make_kdc_proxy_message` of `krb.h`: a KDC-PROXY-MESSAGE of these fields (MS-KKDCP, 2.2.2).
#[unsafe(no_mangle)]
pub extern "C" fn krb_make_kdc_proxy_message(
    alloc: Global,
    message: &[u8],
    domain: &[u8],
    out: &mut [u8],
    size: &mut usize,
) -> u32
    ensures { IsAnswered (IsMade ⟦<KdcProxyMessage as DerEncode>⟧ (proxy_octets message.now (present domain.now) []))
        (RefusesReading ⟦<KdcProxyMessage as DerEncode>⟧ (proxy_octets message.now (present domain.now) [])) out.old out.new size.new result }
{
    krb_c_calls::frames::make_kdc_proxy_message(alloc, message, domain, out, size)
}

/// `krb_make_neg_token_init` of `krb.h`: the token that begins a negotiation, of these fields (RFC 4178, 4.2.1).
#[unsafe(no_mangle)]
pub extern "C" fn krb_make_neg_token_init(
    alloc: Global,
    mechanisms: &[u8],
    token: &[u8],
    mic: &[u8],
    out: &mut [u8],
    size: &mut usize,
) -> u32
    ensures { IsAnswered (IsMade ⟦<ApplicationTag0<GssApiNegInit> as DerEncode>⟧ (made_init mechanisms.now token.now mic.now))
        (RefusesReading ⟦<ApplicationTag0<GssApiNegInit> as DerEncode>⟧ (made_init mechanisms.now token.now mic.now)) out.old out.new size.new result }
{
    krb_c_calls::frames::make_neg_token_init(alloc, mechanisms, token, mic, out, size)
}

/// `krb_make_neg_token_resp` of `krb.h`: a later message of a negotiation, of these fields (RFC 4178, 4.2.2).
#[unsafe(no_mangle)]
pub extern "C" fn krb_make_neg_token_resp(
    alloc: Global,
    state: u32,
    mechanism: &[u8],
    token: &[u8],
    mic: &[u8],
    out: &mut [u8],
    size: &mut usize,
) -> u32
    ensures { IsAnswered (IsMadeAnswer ⟦<NegTokenTarg1 as DerEncode>⟧ state mechanism.now token.now mic.now)
        (RefusesAnswer ⟦<NegTokenTarg1 as DerEncode>⟧ state mechanism.now token.now mic.now) out.old out.new size.new result }
{
    krb_c_calls::frames::make_neg_token_resp(alloc, state, mechanism, token, mic, out, size)
}

//! The frame of a GSS token.

ghost use Rattle.std.specs.Prelude.{◌≡◌, ◌⊎◌, IfOk, IfErr, MatchResult};
ghost use Rattle.krb_der_core.specs.declared.error.Asn1DerError.TheVariants as errors;
ghost use Rattle.krb_c_calls.specs.Handing.{IsAnswered};
ghost use Rattle.krb_c_calls.specs.Statuses.{refusal_status};
ghost use Rattle.krb_c_calls.specs.Token.{IsMadeToken, IsNoMechanism, IsNoToken, IsToken, IsTokenAt, RefusesMechanism};

use crate::frames::place::place_before;
use crate::handing::hand_out;
use crate::{CallError, DONE};
use krb_der_core::{Asn1DerError, Der, close_tlv, read_tlv, write_tlv};
use krb_der_x509::ObjectIdentifierAsn1;
use std::alloc::Global;

/// The tag of a token: application 0, constructed (RFC 2743, 3.1).
const TOKEN: u8 = 0x60;

/// The tag of an OBJECT IDENTIFIER (X.690, 8.19).
const OBJECT_IDENTIFIER: u8 = 0x06;

/// The content of the mechanism's OBJECT IDENTIFIER, and the inner token.
fn token_parts(alloc: Global, octets: &[u8]) -> Result<(&[u8], &[u8]), Asn1DerError>
    ensures found { IfOk result (λ p. IsToken octets.now p.0.now p.1.now) }
    ensures rejected { IfErr result (λ e. (e ≡ errors.OutOfMemory) ⊎ IsNoToken octets.now e) }
{
    let (content, taken) = read_tlv(TOKEN, octets)?;
    let (_mechanism, _) = ObjectIdentifierAsn1::read(alloc, content)?;
    if taken != octets.len() {
        return Err(Asn1DerError::InvalidData);
    }
    let (mechanism, before) = read_tlv(OBJECT_IDENTIFIER, content)?;
    Ok((mechanism, &content[before..]))
}

/// The frame of a GSS token (RFC 2743, 3.1; RFC 4121, 4.1): the places in it of the content of the mechanism's OBJECT IDENTIFIER, and of the
/// inner token, which is all that follows it. That of Kerberos begins with two octets of a token id. Which mechanism it is stays the
/// caller's to compare.
///
/// 9, 10 or 11 as the first error of the octets is, from the left: that of the tag `60` and its length, that of the mechanism, octets left
/// over behind the token. 2 where memory was wanting. All four numbers are then 0.
pub fn gss_token(
    alloc: Global,
    token: &[u8],
    mechanism_offset: &mut usize,
    mechanism_size: &mut usize,
    inner_offset: &mut usize,
    inner_size: &mut usize,
) -> u32
    ensures { IsTokenAt token.now mechanism_offset.new mechanism_size.new inner_offset.new inner_size.new result }
{
    *mechanism_offset = 0;
    *mechanism_size = 0;
    *inner_offset = 0;
    *inner_size = 0;
    match token_parts(alloc, token) {
        Ok((mechanism, inner)) => {
            let place = place_before(token, mechanism, inner.len());
            *mechanism_offset = place.offset;
            *mechanism_size = place.size;
            let place = place_before(token, inner, 0);
            *inner_offset = place.offset;
            *inner_size = place.size;
            DONE
        }
        Err(error) => CallError::from(error).status(),
    }
}

fn made_token(alloc: Global, mechanism: &[u8], inner: &[u8]) -> Result<Vec<u8>, Asn1DerError>
    ensures { MatchResult result (λ made. IsToken made.items mechanism.now inner.now)
        (λ e. (e ≡ errors.OutOfMemory) ⊎ IsNoMechanism mechanism.now e) }
{
    let _mechanism = ObjectIdentifierAsn1::read_element(alloc, OBJECT_IDENTIFIER, mechanism)?;
    let mut token = Vec::new(alloc);
    write_tlv(OBJECT_IDENTIFIER, mechanism, &mut token)?;
    token.extend_from_slice(inner)?;
    close_tlv(TOKEN, 0, &mut token)?;
    Ok(token)
}

/// What `make_gss_token` hands out, or why it refuses.
fn token_of(alloc: Global, mechanism: &[u8], inner: &[u8]) -> Result<Vec<u8>, CallError>
    ensures { MatchResult result (λ made. IsMadeToken mechanism.now inner.now made.items)
        (λ e. RefusesMechanism mechanism.now (refusal_status e)) }
{
    Ok(made_token(alloc, mechanism, inner)?)
}

/// The GSS token (RFC 2743, 3.1) of the mechanism whose OBJECT IDENTIFIER has this content, around the inner token. `gss_token` reads it as
/// these two.
///
/// 9 or 11 where the octets are the content of no OBJECT IDENTIFIER; 2 where memory was wanting. On a refusal `out` is as it was.
pub fn make_gss_token(
    alloc: Global,
    mechanism: &[u8],
    inner: &[u8],
    out: &mut [u8],
    size: &mut usize,
) -> u32
    ensures { IsAnswered (IsMadeToken mechanism.now inner.now) (RefusesMechanism mechanism.now) out.old out.new size.new result }
{
    hand_out(&token_of(alloc, mechanism, inner), out, size)
}

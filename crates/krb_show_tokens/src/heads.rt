//! What the frame of a token begins with (RFC 2743, 3.1): the mechanism, and what it says of the rest.

ghost use Rattle.std.specs.Prelude.{◌≡◌, List, ℕ, IfOk, MatchBool, MatchOption};
ghost use Rattle.krb_show_tokens.specs.Frames.{IsContent, IsFramed, spnego};
ghost use Rattle.krb_show_tokens.specs.Heads.{IsHead};

use krb_der::{Asn1DerError, Der};
use krb_der_core::read_tlv;
use krb_der_x509::ObjectIdentifierAsn1;
use std::alloc::{AllocError, Global};

/// The tag of a token: application 0, constructed (RFC 2743, 3.1).
const TOKEN: u8 = 0x60;

/// The arcs of SPNEGO (RFC 4178, 3.2).
const SPNEGO: [u64; 7] = [1, 3, 6, 1, 5, 5, 2];

/// What a token's frame says that it holds.
#[derive(Clone, Copy, PartialEq, Eq)]
pub(crate) enum Head {
    /// The mechanism is SPNEGO.
    Negotiation,
    /// The mechanism is another, and this token id stands behind it (RFC 4121, 4.1).
    Kerberos(u8, u8),
    /// There is no mechanism, or another than SPNEGO with no token id behind it.
    Unknown,
}

/// The mechanism at the start of a token's content, and what follows it.
pub(crate) fn mechanism_of(
    alloc: Global,
    content: &[u8],
) -> Result<Option<(ObjectIdentifierAsn1, &[u8])>, AllocError>
    ensures { IfOk result (λ found. MatchOption found
        ((mechanism inner : List ℕ) → IsContent mechanism inner content.now → ⊥) (λ p. IsContent p.0 p.1.now content.now)) }
{
    match ObjectIdentifierAsn1::read(alloc, content) {
        Ok((mechanism, taken)) => Ok(Some((mechanism, &content[taken..]))),
        Err(Asn1DerError::OutOfMemory) => Err(AllocError),
        Err(_) => Ok(None),
    }
}

/// The mechanism of the token at the start, and the token's octets behind it.
pub fn read_mechanism(
    alloc: Global,
    octets: &[u8],
) -> Result<Option<(ObjectIdentifierAsn1, &[u8])>, AllocError>
    ensures { IfOk result (λ found. MatchOption found
        ((mechanism inner : List ℕ) → IsFramed mechanism inner octets.now → ⊥) (λ p. IsFramed p.0 p.1.now octets.now)) }
{
    let Ok((content, _)) = read_tlv(TOKEN, octets) else {
        return Ok(None);
    };
    match mechanism_of(alloc, content)? {
        Some((mechanism, inner)) => Ok(Some((mechanism, inner))),
        None => Ok(None),
    }
}

/// Whether a mechanism is SPNEGO.
fn is_negotiation(mechanism: &ObjectIdentifierAsn1) -> bool
    ensures { MatchBool result (mechanism.now ≡ spnego) (mechanism.now ≡ spnego → ⊥) }
{
    mechanism.arcs() == SPNEGO.as_slice()
}

/// What a frame says that it holds, of this mechanism and with these octets behind it.
fn head_in(mechanism: &ObjectIdentifierAsn1, inner: &[u8], octets: &[u8]) -> Head
    requires { IsFramed mechanism.now inner.now octets.now }
    ensures { IsHead octets.now result }
{
    if is_negotiation(mechanism) {
        return Head::Negotiation;
    }
    if inner.len() < 2 {
        return Head::Unknown;
    }
    Head::Kerberos(inner[0], inner[1])
}

/// What the frame at the start says that it holds. The only error is an allocation failure.
pub(crate) fn head_of(alloc: Global, octets: &[u8]) -> Result<Head, AllocError>
    ensures { IfOk result (IsHead octets.now) }
{
    match read_mechanism(alloc, octets)? {
        Some((mechanism, inner)) => Ok(head_in(&mechanism, inner, octets)),
        None => Ok(Head::Unknown),
    }
}

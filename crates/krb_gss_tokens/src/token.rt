//! The parts of a token, read from the left.

ghost use Rattle.std.specs.Prelude.{◌≡◌, ◌++◌, List, ℕ, IfOk, IfErr};
ghost use Rattle.krb_der_x509.specs.ObjectIdentifier.{IsArcs, object_identifier};
ghost use Rattle.krb_gss_tokens.specs.Rejected.{FrameRejected, IdRejected, MechanismRejected, MessageRejected};
ghost use Rattle.krb_gss_tokens.specs.Token.{IsTokenId, token};

use crate::GssApiMessageError;
use crate::application_tag_0::TOKEN;
use krb_der::{Asn1DerError, Der, DerEncode};
use krb_der_core::read_tlv;
use krb_der_x509::ObjectIdentifierAsn1;
use std::alloc::Global;
use std::io;
use std::io::ErrorKind;

/// The content of the token at the start of the input.
pub(crate) fn read_frame(input: &[u8]) -> Result<&[u8], GssApiMessageError>
    ensures found { IfOk result (λ content. (rest : List ℕ) × (input.now ≡ token content.now ++ rest)) }
    ensures rejected { IfErr result (FrameRejected input.now) }
{
    if input.is_empty() || input[0] != TOKEN {
        return Err(GssApiMessageError::Asn1Error(Asn1DerError::InvalidData));
    }
    let (content, _) = read_tlv(TOKEN, input)?;
    Ok(content)
}

/// The mechanism at the start of a token's content, and what follows it.
pub(crate) fn read_mechanism(
    alloc: Global,
    content: &[u8],
) -> Result<(ObjectIdentifierAsn1, &[u8]), GssApiMessageError>
    ensures found { IfOk result (λ p. IsArcs p.0 × (content.now ≡ object_identifier p.0 ++ p.1.now)) }
    ensures rejected { IfErr result (MechanismRejected content.now) }
{
    let (mechanism, taken) = ObjectIdentifierAsn1::read(alloc, content)?;
    Ok((mechanism, &content[taken..]))
}

/// The token id at the start, and what follows it.
pub(crate) fn read_token_id(octets: &[u8]) -> Result<([u8; 2], &[u8]), GssApiMessageError>
    ensures found { IfOk result (λ p. IsTokenId p.0 × (octets.now ≡ p.0 ++ p.1.now)) }
    ensures rejected { IfErr result (IdRejected octets.now) }
{
    if octets.len() < 2 {
        return Err(GssApiMessageError::IoError(io::Error::from(ErrorKind::UnexpectedEof)));
    }
    Ok(([octets[0], octets[1]], &octets[2..]))
}

/// The message whose encoding is all of these octets.
pub(crate) fn read_message<T: Der + Drop>(
    alloc: Global,
    octets: &[u8],
) -> Result<T, GssApiMessageError>
    ensures valid { IfOk result T.is_value }
    ensures found { IfOk result (λ v. octets.now ≡ T.enc v) }
    ensures rejected { IfErr result (MessageRejected ⟦<T as DerEncode>⟧ octets.now) }
{
    let (message, taken) = T::read(alloc, octets)?;
    if taken != octets.len() {
        return Err(GssApiMessageError::Asn1Error(Asn1DerError::InvalidData));
    }
    Ok(message)
}

//! The frame of a context token (RFC 2743, 3.1; RFC 4121, 4.1).

ghost use Rattle.std.specs.Prelude.{◌≡◌, List, ℕ, ◌++◌, IfOk, MatchOption};
ghost use Rattle.krb_accept.specs.Frame.{front_of, in_frame};
ghost use Rattle.krb_der_core.specs.Tlv.{tlv};

use krb_der_core::{read_tlv, write_tlv};
use std::alloc::{AllocError, Global};

/// The tag of a token: application 0, constructed (RFC 2743, 3.1).
const TOKEN: u8 = 0x60;

/// What an inner token of Kerberos is (RFC 4121, 4.1, TOK_ID).
#[derive(Clone, Copy, PartialEq, Eq)]
pub enum InnerToken {
    /// KRB_AP_REQ, 01 00.
    ApReq,
    /// KRB_AP_REP, 02 00.
    ApRep,
    /// KRB_ERROR, 03 00.
    KrbError,
}

/// The mechanism 1.2.840.113554.1.2.2 as an OBJECT IDENTIFIER, and the token id.
fn front_of(inner: InnerToken) -> [u8; 13]
    ensures { result ≡ front_of inner }
{
    let id = match inner {
        InnerToken::ApReq => 1,
        InnerToken::ApRep => 2,
        InnerToken::KrbError => 3,
    };
    [
        0x06, 0x09, 0x2a, 0x86, 0x48, 0x86, 0xf7, 0x12, 0x01, 0x02, 0x02, id, 0x00,
    ]
}

/// What follows these octets.
fn behind<'a>(octets: &'a [u8], front: &[u8]) -> Option<&'a [u8]>
    ensures { MatchOption result ((rest : List ℕ) → octets.now ≡ front.now ++ rest → ⊥) (λ rest. octets.now ≡ front.now ++ rest.now) }
{
    octets.strip_prefix(front)
}

/// The content of a token, where the octets are the one encoding of a token.
fn content_of(token: &[u8]) -> Option<&[u8]>
    ensures { MatchOption result ((content : List ℕ) → token.now ≡ tlv 96 content → ⊥) (λ content. token.now ≡ tlv 96 content.now) }
{
    match read_tlv(TOKEN, token) {
        Ok((content, taken)) => {
            if taken != token.len() {
                return None;
            }
            Some(content)
        }
        Err(_error) => None,
    }
}

/// The message in a token of Kerberos (RFC 2743, 3.1; RFC 4121, 4.1), of this kind; `None` where the octets are not the one
/// encoding of such a token.
pub fn message_in(inner: InnerToken, token: &[u8]) -> Option<&[u8]>
    ensures { MatchOption result ((octets : List ℕ) → token.now ≡ in_frame inner octets → ⊥) (λ octets. token.now ≡ in_frame inner octets.now) }
{
    let Some(content) = content_of(token) else {
        return None;
    };
    behind(content, &front_of(inner))
}

/// The token of Kerberos around a message of this kind (RFC 2743, 3.1; RFC 4121, 4.1).
pub fn token_of(alloc: Global, inner: InnerToken, message: &[u8]) -> Result<Vec<u8>, AllocError>
    ensures { IfOk result (λ token. token.items ≡ in_frame inner message.now) }
{
    let mut content = Vec::new(alloc);
    content.extend_from_slice(&front_of(inner))?;
    content.extend_from_slice(message)?;
    let mut token = Vec::new(alloc);
    write_tlv(TOKEN, &content, &mut token)?;
    Ok(token)
}

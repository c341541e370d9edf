//! The request in a token.

ghost use Rattle.std.specs.Prelude.{◌≡◌, ◌⊎◌, ◌++◌, List, ℕ, Some, IfOk, OnOk, MatchOption};
ghost use Rattle.std.specs.String.{string_bytes};
ghost use Rattle.krb_accept_rules.specs.Values.{HasNone, IsTheValue};
ghost use Rattle.krb_accept_report.specs.Requests.{IsMessage, IsMessageOf, server_text};

use krb_accept::{InnerToken, Kerberos, message_in};
use krb_accept_rules::{Opening, RequestFields};
use krb_types::view::text_of_principal;
use std::alloc::{AllocError, Global};

/// The message in a token; the token itself where it has no frame.
fn message_of(token: &[u8]) -> &[u8]
    ensures { IsMessage token.now result.now }
{
    match message_in(InnerToken::ApReq, token) {
        Some(octets) => octets,
        None => token,
    }
}

/// The fields of the request in a token, if it has one.
pub(crate) fn request_in(alloc: Global, token: &[u8]) -> Result<Option<RequestFields>, AllocError>
    ensures { IfOk result (λ found. IsMessageOf ⟦<Kerberos as Opening>⟧ token.now found) }
{
    Kerberos::read_request(alloc, message_of(token))
}

/// Appends the server that a ticket names.
pub(crate) fn push_server(
    out: &mut Vec<u8>,
    alloc: Global,
    request: &RequestFields,
) -> Result<(), AllocError>
    ensures { OnOk result (out.new.items ≡ out.old.items ++ server_text request.now) }
{
    let server = text_of_principal(alloc, &request.server, &request.realm)?;
    out.extend_from_slice(server.as_bytes())?;
    Ok(())
}

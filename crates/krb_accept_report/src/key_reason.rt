//! What a ticket asks for, where no key is for it, no client is let in for its server, or no key decrypts it.

ghost use Rattle.std.specs.Prelude.{◌≡◌, ◌++◌, List, ℕ, Option, IfOk, OnOk, MatchOption, codes};
ghost use Rattle.krb_accept_rules.specs.declared.refusal.Rule.{Rule};
ghost use Rattle.krb_accept_rules.specs.declared.refusal.Rule.TheVariants as Rules;
ghost use Rattle.krb_accept_report.specs.Requests.{AreKvnos, IsKeyReason, IsKeyReasonOf, IsServerReason, IsUnder, server_text};
ghost use Rattle.krb_accept_rules.specs.Refusals.{rule_text};
ghost use Rattle.krb_accept_report.specs.Texts.{IsNumber, IsNumberOrNone, listed};

use crate::at_hand::{has_key_of, kvnos_for};
use crate::request::{push_server, request_in};
use crate::written::push_list;
use krb_accept::Kerberos;
use krb_accept_rules::{Opening, RequestFields, Rule, ServiceKey};
use krb_der::IntegerAsn1;
use krb_types::view::Present;
use std::alloc::{AllocError, Global};

/// A number of any length in decimal, where 64 bits hold it.
fn number_text(alloc: Global, number: &IntegerAsn1) -> Result<Vec<u8>, AllocError>
    ensures { IfOk result (λ text. IsNumber number.now text.items) }
{
    let Some(number) = number.to_i64() else {
        return Vec::from_slice(alloc, b"past 64 bits");
    };
    let digits = format!(in alloc; "{number}")?;
    Ok(digits.into_bytes())
}

/// The kvno that a ticket names, where it names one.
fn kvno_text(alloc: Global, request: &RequestFields) -> Result<Vec<u8>, AllocError>
    ensures { IfOk result (λ text. IsNumberOrNone request.now.ticket.kvno.0 text.items) }
{
    match request.ticket.kvno.get() {
        Some(kvno) => number_text(alloc, kvno),
        None => Vec::from_slice(alloc, b"none"),
    }
}

/// What a ticket is encrypted under.
fn under_text(alloc: Global, request: &RequestFields) -> Result<Vec<u8>, AllocError>
    ensures { IfOk result (λ text. IsUnder request.now text.items) }
{
    let etype = number_text(alloc, &request.ticket.etype.0)?;
    let kvno = kvno_text(alloc, request)?;
    let mut text = Vec::from_slice(alloc, b" (etype ")?;
    text.extend_from_slice(&etype)?;
    text.extend_from_slice(b", kvno ")?;
    text.extend_from_slice(&kvno)?;
    text.extend_from_slice(b")")?;
    Ok(text)
}

/// These words, and the server.
fn with_server(alloc: Global, words: &str, request: &RequestFields) -> Result<Vec<u8>, AllocError>
    ensures { IfOk result (λ text. text.items ≡ words.now ++ server_text request.now) }
{
    let mut text = Vec::from_slice(alloc, words.as_bytes())?;
    push_server(&mut text, alloc, request)?;
    Ok(text)
}

/// No key is of the server, or no client is let in for it.
fn no_server(
    alloc: Global,
    keys: &[ServiceKey],
    request: &RequestFields,
) -> Result<Vec<u8>, AllocError>
    ensures { IfOk result (λ text. IsServerReason keys.now request.now text.items) }
{
    if has_key_of(request, keys) {
        with_server(alloc, "no client is let in for the server ", request)
    } else {
        with_server(alloc, "no key for the server ", request)
    }
}

/// None of these is of the encryption type.
fn no_type(alloc: Global, request: &RequestFields) -> Result<Vec<u8>, AllocError>
    ensures { IfOk result (λ text. (under : List ℕ) × IsUnder request.now under
        × (text.items ≡ codes "no key of the ticket's encryption type for the server " ++ server_text request.now ++ under)) }
{
    let under = under_text(alloc, request)?;
    let mut text = Vec::from_slice(
        alloc,
        b"no key of the ticket's encryption type for the server ",
    )?;
    push_server(&mut text, alloc, request)?;
    text.extend_from_slice(&under)?;
    Ok(text)
}

/// None of these is of the kvno.
fn no_version(
    alloc: Global,
    keys: &[ServiceKey],
    request: &RequestFields,
) -> Result<Vec<u8>, AllocError>
    ensures { IfOk result (λ text. (under : List ℕ) × (kvnos : List ℕ) × IsUnder request.now under × AreKvnos request.now keys.now kvnos
        × (text.items ≡ codes "no key of the ticket's kvno for the server " ++ server_text request.now ++ under ++ codes ", kvnos at hand: "
        ++ listed kvnos)) }
{
    let under = under_text(alloc, request)?;
    let kvnos = kvnos_for(alloc, request, keys)?;
    let mut text = Vec::from_slice(alloc, b"no key of the ticket's kvno for the server ")?;
    push_server(&mut text, alloc, request)?;
    text.extend_from_slice(&under)?;
    text.extend_from_slice(b", kvnos at hand: ")?;
    push_list(&mut text, alloc, &kvnos)?;
    Ok(text)
}

/// None of these decrypts the ticket.
fn no_ticket(alloc: Global, request: &RequestFields) -> Result<Vec<u8>, AllocError>
    ensures { IfOk result (λ text. (under : List ℕ) × IsUnder request.now under
        × (text.items ≡ codes "no key of the server " ++ server_text request.now ++ codes " decrypts the ticket" ++ under)) }
{
    let under = under_text(alloc, request)?;
    let mut text = Vec::from_slice(alloc, b"no key of the server ")?;
    push_server(&mut text, alloc, request)?;
    text.extend_from_slice(b" decrypts the ticket")?;
    text.extend_from_slice(&under)?;
    Ok(text)
}

/// What a ticket asks for.
fn text_of_request(
    alloc: Global,
    keys: &[ServiceKey],
    request: &RequestFields,
    rule: Rule,
) -> Result<Vec<u8>, AllocError>
    ensures { IfOk result (λ text. IsKeyReason keys.now request.now rule text.items) }
{
    match rule {
        Rule::NotUs => no_server(alloc, keys, request),
        Rule::NoKey => no_type(alloc, request),
        Rule::KeyVersion => no_version(alloc, keys, request),
        _ => no_ticket(alloc, request),
    }
}

/// What the ticket of a token asks for; the rule's own text where the token has no request.
pub(crate) fn text_of_key_rule(
    alloc: Global,
    keys: &[ServiceKey],
    token: &[u8],
    rule: Rule,
) -> Result<Vec<u8>, AllocError>
    ensures { IfOk result (λ text. IsKeyReasonOf ⟦<Kerberos as Opening>⟧ keys.now token.now rule (rule_text rule) text.items) }
{
    match request_in(alloc, token)? {
        Some(request) => Ok(text_of_request(alloc, keys, &request, rule)?),
        None => Vec::from_slice(alloc, rule.text().as_bytes()),
    }
}

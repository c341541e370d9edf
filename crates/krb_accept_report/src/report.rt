//! Whether a service with a keytab lets the client of a token in.

ghost use Rattle.std.specs.Prelude.{◌≡◌, ◌≢◌, ◌++◌, [], List, ℕ, false, true, unwrap_or, IfErr, IfOk, MatchBool, ⊤};
ghost use Rattle.krb_accept.specs.TokenRefusals.{memory};
ghost use Rattle.krb_accept_report.specs.Questions.{arrival_of};
ghost use Rattle.krb_accept_report.specs.Reports.{AreKeysOf, IsNotSaid, IsReasonLine, IsReport, IsSaid, accepted_text};
ghost use Rattle.krb_accept_report.specs.Texts.{ArePrintable, printed};
ghost use Rattle.krb_accept_report.specs.declared.report.ReportError.TheVariants as errors;

use crate::negotiation::mech_token;
use crate::printed::printed;
use crate::reason::{Judge, text_of_refusal};
use crate::written::push_time;
use krb_accept::{Kerberos, Settings, TokenRefusal, keys_of_keytab, present_token};
use krb_accept_rules::{Accepted, Arrival, Opening, Rule, ServiceKey, Terms};
use krb_der::{DerEncode, OctetStringAsn1};
use krb_enc_parts::data_types::EncKrbCredPart;
use krb_files::keytab::{KeytabError, KeytabView};
use krb_gss_tokens::gss_api::{ApplicationTag0, GssApiNegInit};
use krb_messages::messages::KrbCred;
use krb_types::data_types::AuthorizationData;
use krb_types::view::text_of_principal;
use std::alloc::{AllocError, Global};
use std::marker::Model;

/// What is asked about a token.
#[derive(Drop)]
pub struct Question<'a> {
    /// The octets of the service's keytab.
    pub keytab: &'a [u8],
    /// The token, or the first message of SPNEGO that holds it.
    pub octets: &'a [u8],
    /// The service's clock, in seconds since 1 January 1970, 00:00:00 UTC.
    pub clock: i64,
    /// The service's terms.
    pub terms: &'a Terms,
    /// What the service asks of tokens.
    pub settings: Settings,
}

impl<'a> Model for Question<'a> {
    ghost use Rattle.krb_accept_report.specs.Questions.{Question};

    ghost Value = { Question };

    ghost view = { λ q. record { keytab = q.keytab.now; octets = q.octets.now; clock = q.clock; terms = q.terms.now; settings = q.settings } };
}

/// What is said of a token.
#[derive(Drop)]
pub struct Report {
    /// Whether the client is let in.
    pub accepts: bool,
    /// The line: who is let in, or why nobody is.
    pub line: Vec<u8>,
}

/// Why nothing is said of a token.
#[derive(Clone, Copy, PartialEq, Eq)]
pub enum ReportError {
    /// The keytab is none: its first error.
    Keytab(KeytabError),
    /// An allocation failed.
    OutOfMemory,
}

impl From<KeytabError> for ReportError {
    ghost from_gives = { λ why e. e ≡ errors.Keytab why };

    fn from(error: KeytabError) -> ReportError {
        ReportError::Keytab(error)
    }
}

impl From<AllocError> for ReportError {
    ghost from_gives = { λ _ e. e ≡ errors.OutOfMemory };

    fn from(_error: AllocError) -> ReportError {
        ReportError::OutOfMemory
    }
}

/// A service.
#[derive(Drop)]
struct Service<'k> {
    keys: &'k [ServiceKey],
    terms: &'k Terms,
    arrival: Arrival,
    settings: Settings,
}

/// The keys of the keytab that is asked about.
fn keys_of(alloc: Global, question: &Question) -> Result<Vec<ServiceKey>, ReportError>
    ensures found { IfOk result (λ keys. AreKeysOf question.now.keytab keys.items) }
    ensures none { IfErr result (IsNotSaid question.now) }
{
    let keytab = KeytabView::new(question.keytab)?;
    let keys = keys_of_keytab(alloc, &keytab)?;
    Ok(keys)
}

/// The service that is asked about, with these keys.
fn service_of<'k>(question: &'k Question, keys: &'k [ServiceKey]) -> Service<'k>
    ensures keys { result.keys.now ≡ keys.now }
    ensures terms { result.terms.now ≡ question.now.terms }
    ensures arrives { result.arrival ≡ arrival_of question.now }
    ensures settings { result.settings ≡ question.now.settings }
{
    Service {
        keys,
        terms: question.terms,
        arrival: Arrival {
            clock: question.clock,
            address: None,
        },
        settings: question.settings,
    }
}

/// Who is let in, for which server, and until when the ticket is valid.
fn accepted_text(alloc: Global, accepted: &Accepted) -> Result<Vec<u8>, AllocError>
    ensures { IfOk result (λ text. text.items ≡ accepted_text accepted.now) }
{
    let ticket = &accepted.ticket;
    let client = text_of_principal(alloc, &ticket.client, &ticket.realm)?;
    let server = text_of_principal(alloc, &accepted.server, &accepted.server_realm)?;
    let mut text = Vec::from_slice(alloc, b"accepted: ")?;
    text.extend_from_slice(client.as_bytes())?;
    text.extend_from_slice(b" for ")?;
    text.extend_from_slice(server.as_bytes())?;
    text.extend_from_slice(b", until ")?;
    push_time(&mut text, &ticket.end_time)?;
    text.extend_from_slice(b"; no replay cache was asked")?;
    Ok(text)
}

/// The line that says why a token is refused.
fn refused_line(
    alloc: Global,
    service: &Service,
    token: &[u8],
    refusal: &TokenRefusal,
) -> Result<Vec<u8>, AllocError>
    ensures line { IfOk result (λ line. IsReasonLine ⟦<Kerberos as Opening>⟧ service.now.keys.now service.now.arrival.clock service.now.terms.now.skew token.now
        refusal.now line.items) }
    ensures printable { IfOk result (λ line. ArePrintable line.items) }
{
    let judge = Judge {
        keys: service.keys,
        clock: service.arrival.clock,
        skew: service.terms.skew,
    };
    let reason = text_of_refusal(alloc, judge, token, refusal)?;
    let mut text = Vec::from_slice(alloc, b"refused: ")?;
    text.extend_from_slice(&reason)?;
    printed(alloc, &text)
}

/// What is said of a client that is let in.
fn accepted_report(alloc: Global, accepted: &Accepted) -> Result<Report, AllocError>
    ensures accepts { IfOk result (λ r. r.accepts ≡ true) }
    ensures line { IfOk result (λ r. r.line.items ≡ printed (accepted_text accepted.now)) }
    ensures printable { IfOk result (λ r. ArePrintable r.line.items) }
{
    let text = accepted_text(alloc, accepted)?;
    let line = printed(alloc, &text)?;
    Ok(Report {
        accepts: true,
        line,
    })
}

/// What is said of one that is not.
fn refused_report(
    alloc: Global,
    service: &Service,
    token: &[u8],
    refusal: &TokenRefusal,
) -> Result<Report, AllocError>
    ensures refuses { IfOk result (λ r. r.accepts ≡ false) }
    ensures breach { IfOk result (λ r. refusal.now ≢ memory) }
    ensures line { IfOk result (λ r. IsReasonLine ⟦<Kerberos as Opening>⟧ service.now.keys.now service.now.arrival.clock service.now.terms.now.skew token.now
        refusal.now r.line.items) }
    ensures printable { IfOk result (λ r. ArePrintable r.line.items) }
{
    if refusal.is_out_of_memory() {
        return Err(AllocError);
    }
    let line = refused_line(alloc, service, token, refusal)?;
    Ok(Report {
        accepts: false,
        line,
    })
}

/// What is said of a token.
fn said_of(alloc: Global, service: &Service, token: &[u8]) -> Result<Report, AllocError>
    ensures said { IfOk result (λ r. IsSaid ⟦<KrbCred as DerEncode>⟧ ⟦<EncKrbCredPart as DerEncode>⟧ ⟦<AuthorizationData as DerEncode>⟧
        ⟦<Kerberos as Opening>⟧ service.now.keys.now service.now.terms.now service.now.arrival service.now.settings token.now r.accepts r.line.items) }
    ensures printable { IfOk result (λ r. ArePrintable r.line.items) }
{
    match present_token(
        alloc,
        service.keys,
        &[],
        service.terms,
        &service.arrival,
        &service.settings,
        token,
    ) {
        Ok(found) => {
            let said = accepted_report(alloc, &found.presented.accepted);
            // (what a scope lets go by itself is opened value by value)
            drop(found);
            said
        }
        Err(refusal) => refused_report(alloc, service, token, &refusal),
    }
}

/// The token that was found, or the octets where there is none.
fn token_or<'a>(inner: &'a Option<OctetStringAsn1>, octets: &'a [u8]) -> &'a [u8]
    ensures { result.now ≡ unwrap_or inner.now octets.now }
{
    match inner {
        Some(token) => token.0.as_slice(),
        None => octets,
    }
}

/// Whether a service with this keytab and these terms lets the client of a token in, and a line that says so or why not: the decision is
/// that of `present_token`, so no replay cache is asked, and the client's address is not known. Octets that are the first message of SPNEGO
/// stand for its mechToken (RFC 4178, 4.2.1).
///
/// The line is printable ASCII and has no line feed. `Keytab` where the keytab is none, whatever the token is.
pub fn report_of(alloc: Global, question: &Question) -> Result<Report, ReportError>
    ensures said { IfOk result (λ r. IsReport ⟦<KrbCred as DerEncode>⟧ ⟦<EncKrbCredPart as DerEncode>⟧ ⟦<AuthorizationData as DerEncode>⟧
        ⟦<ApplicationTag0<GssApiNegInit> as DerEncode>⟧ ⟦<Kerberos as Opening>⟧ question.now r.accepts r.line.items) }
    ensures printable { IfOk result (λ r. ArePrintable r.line.items) }
    ensures none { IfErr result (IsNotSaid question.now) }
{
    let keys = keys_of(alloc, question)?;
    let service = service_of(question, &keys);
    let inner = mech_token(alloc, question.octets)?;
    let token = token_or(&inner, question.octets);
    let said = said_of(alloc, &service, token)?;
    Ok(said)
}

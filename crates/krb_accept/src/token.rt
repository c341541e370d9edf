//! The decision about an initial context token (RFC 4121, 4.1).

ghost use Rattle.std.specs.Prelude.{◌≡◌, IfErr, IfOk, OnErr, OnOk};
ghost use Rattle.std.specs.Option.{option_map};
ghost use Rattle.krb_accept.specs.HandedOut.{IsHandedOut, with_data};
ghost use Rattle.krb_accept.specs.Pac.{KeepsPac};
ghost use Rattle.krb_accept.specs.PacPlaces.{IsWithoutPac};
ghost use Rattle.krb_accept.specs.TokenRefusals.{memory};
ghost use Rattle.krb_accept.specs.Tokens.{IsContextOf, IsNoContext, IsNoRequestIn, IsRequestIn, IsTokenAccepted, IsTokenNotAdmitted, IsTokenNotPresented, IsTokenPresented, IsTokenRefused, IsTold};
ghost use Rattle.krb_accept_rules.specs.Accepting.{IsAdmitted};

use crate::decision::present;
use crate::delegation::{Delegated, delegated_of};
use crate::frame::{InnerToken, message_in};
use crate::handed_out::{with_data, without_pac};
use crate::kerberos::Kerberos;
use crate::pac::check_pac;
use crate::said::said_of;
use crate::settings::Settings;
use crate::token_refusal::TokenRefusal;
use krb_accept_rules::{
    Accepted, Arrival, Opening, Presented, ReplayCache, ServiceKey, Terms, admit,
};
use krb_der::DerEncode;
use krb_enc_parts::data_types::EncKrbCredPart;
use krb_messages::messages::KrbCred;
use krb_types::data_types::AuthorizationData;
use std::alloc::{AllocError, Global};

/// A client that is let in, with what its token says of the context.
#[derive(Drop)]
pub struct Context {
    /// The client. Of the authorization data of its ticket and of its authenticator the elements are left out in which a PAC stands.
    pub accepted: Accepted,
    /// The PAC of the ticket (MS-PAC), which was verified: its server checksum holds under the key that decrypted the ticket, and it is the
    /// client's. `None` where the ticket has none, or the settings ignore PACs.
    pub pac: Option<Vec<u8>>,
    /// The flags (RFC 4121, 4.1.1.1): 1 for delegation, 2 for mutual authentication, 4 for replay, 8 for sequence, 16 for confidentiality,
    /// 32 for integrity, 0x1000 for DCE style.
    pub flags: u32,
    /// The credentials that the client delegated; `None` where the flag of delegation is not set.
    pub delegated: Option<Delegated>,
}

/// What a client presents with a token: all rules but those of the replay cache are kept.
#[derive(Drop)]
pub struct PresentedToken<'k> {
    /// What it presents with the AP-REQ in it. Of authorization data the elements are left out in which a PAC stands.
    pub presented: Presented<'k>,
    /// The PAC of the ticket, which was verified; `None` where it has none, or PACs are ignored.
    pub pac: Option<Vec<u8>>,
    /// The flags of the context.
    pub flags: u32,
    /// The credentials that it delegated.
    pub delegated: Option<Delegated>,
}

/// What a token says of the context beside the request.
#[derive(Drop)]
struct Told {
    pac: Option<Vec<u8>>,
    flags: u32,
    delegated: Option<Delegated>,
}

/// Authorization data, as they are handed out.
#[derive(Drop)]
struct Left {
    of_ticket: Option<AuthorizationData>,
    of_authenticator: Option<AuthorizationData>,
}

/// The AP-REQ in a token.
fn request_in<'a>(settings: &Settings, token: &'a [u8]) -> Result<&'a [u8], TokenRefusal>
    ensures found { IfOk result (λ octets. IsRequestIn settings.now token.now octets.now) }
    ensures refused { IfErr result (IsNoRequestIn settings.now token.now) }
{
    match message_in(InnerToken::ApReq, token) {
        Some(octets) => Ok(octets),
        None => {
            if settings.bare_request {
                return Ok(token);
            }
            Err(TokenRefusal::Frame)
        }
    }
}

/// What a token says of the context, where the PAC of the ticket keeps its rules.
fn told_of(alloc: Global, settings: &Settings, presented: &Presented) -> Result<Told, TokenRefusal>
    ensures pac { IfOk result (λ told. KeepsPac ⟦<AuthorizationData as DerEncode>⟧ settings.now.pac presented.now.key.now.octets
        presented.now.accepted (option_map (λ v. v.items) told.pac)) }
    ensures told { IfOk result
        (λ told. IsTold ⟦<KrbCred as DerEncode>⟧ ⟦<EncKrbCredPart as DerEncode>⟧ settings.now presented.now.accepted told.flags told.delegated) }
    ensures refused { IfErr result (IsNoContext ⟦<KrbCred as DerEncode>⟧ ⟦<EncKrbCredPart as DerEncode>⟧ ⟦<AuthorizationData as DerEncode>⟧ settings.now
        presented.now.key.now presented.now.accepted) }
{
    let accepted = &presented.accepted;
    let pac = check_pac(alloc, settings.pac, presented.key, accepted)?;
    let said = said_of(settings, &accepted.checksum)?;
    let delegated = delegated_of(alloc, accepted, &said)?;
    Ok(Told {
        pac,
        flags: said.flags,
        delegated,
    })
}

/// The authorization data of a client, without the elements in which a PAC stands.
fn left_of(alloc: Global, accepted: &Accepted) -> Result<Left, AllocError>
    ensures ticket { IfOk result
        (λ left. IsWithoutPac ⟦<AuthorizationData as DerEncode>⟧ accepted.now.ticket.authorization_data left.of_ticket) }
    ensures authenticator { IfOk result
        (λ left. IsWithoutPac ⟦<AuthorizationData as DerEncode>⟧ accepted.now.authorization_data left.of_authenticator) }
{
    let of_ticket = without_pac(alloc, &accepted.ticket.authorization_data)?;
    let of_authenticator = without_pac(alloc, &accepted.authorization_data)?;
    Ok(Left {
        of_ticket,
        of_authenticator,
    })
}

/// What is presented, with this authorization data.
fn with_left<'k>(presented: Presented<'k>, left: Left) -> Presented<'k>
    ensures entry { result.entry ≡ presented.entry.entry }
    ensures accepted { result.accepted ≡ with_data presented.entry.accepted left.of_ticket left.of_authenticator }
    ensures key { result.key.now ≡ presented.entry.key.now }
{
    let Presented {
        entry,
        accepted,
        key,
    } = presented;
    let Left {
        of_ticket,
        of_authenticator,
    } = left;
    Presented {
        entry,
        accepted: with_data(accepted, of_ticket, of_authenticator),
        key,
    }
}

/// What is presented, as it is handed out.
fn handed_out<'k>(alloc: Global, presented: Presented<'k>) -> Result<Presented<'k>, AllocError>
    ensures entry { IfOk result (λ p. p.entry ≡ presented.entry.entry) }
    ensures accepted { IfOk result (λ p. IsHandedOut ⟦<AuthorizationData as DerEncode>⟧ presented.entry.accepted p.accepted) }
    ensures key { IfOk result (λ p. p.key.now ≡ presented.entry.key.now) }
{
    match left_of(alloc, &presented.accepted) {
        Ok(left) => Ok(with_left(presented, left)),
        Err(error) => {
            drop(presented);
            Err(error)
        }
    }
}

/// What is presented with a token that tells this.
fn with_told<'k>(
    alloc: Global,
    presented: Presented<'k>,
    told: Told,
) -> Result<PresentedToken<'k>, TokenRefusal>
    ensures entry { IfOk result (λ p. p.presented.entry ≡ presented.entry.entry) }
    ensures accepted { IfOk result (λ p. IsHandedOut ⟦<AuthorizationData as DerEncode>⟧ presented.entry.accepted p.presented.accepted) }
    ensures key { IfOk result (λ p. p.presented.key.now ≡ presented.entry.key.now) }
    ensures told { IfOk result (λ p. (p.pac ≡ told.pac) × (p.flags ≡ told.flags) × (p.delegated ≡ told.delegated)) }
    ensures refused { IfErr result (λ e. e ≡ memory) }
{
    let Told {
        pac,
        flags,
        delegated,
    } = told;
    match handed_out(alloc, presented) {
        Ok(presented) => Ok(PresentedToken {
            presented,
            pac,
            flags,
            delegated,
        }),
        Err(error) => {
            drop(pac);
            drop(delegated);
            Err(TokenRefusal::from(error))
        }
    }
}

/// What a client presents with an initial context token, where it keeps all rules but those of the replay cache (RFC 4121, 4.1): the token
/// is a frame around an AP-REQ that keeps the rules of `present`; the ticket's PAC is verified as the settings say, and handed out; the authenticator's checksum is of the type 0x8003 and well laid out, and
/// has the service's channel bindings, where the service has some; delegated credentials are the encoding of a KRB-CRED that a key of the
/// context decrypts. No cache is asked: `admit_token` does that, so the work needs no lock on the cache.
///
/// Else the refusal is that of the first rule that is broken, in the order of `TokenRefusal`; memory may be wanting in place of any result.
pub fn present_token<'k>(
    alloc: Global,
    keys: &'k [ServiceKey],
    session_keys: &'k [ServiceKey],
    terms: &Terms,
    arrival: &Arrival,
    settings: &Settings,
    token: &[u8],
) -> Result<PresentedToken<'k>, TokenRefusal>
    ensures found { IfOk result
        (IsTokenPresented ⟦<KrbCred as DerEncode>⟧ ⟦<EncKrbCredPart as DerEncode>⟧ ⟦<AuthorizationData as DerEncode>⟧ ⟦<Kerberos as Opening>⟧
        keys.now session_keys.now terms.now
        arrival.now settings.now token.now) }
    ensures refused { IfErr result
        (IsTokenNotPresented ⟦<KrbCred as DerEncode>⟧ ⟦<EncKrbCredPart as DerEncode>⟧ ⟦<AuthorizationData as DerEncode>⟧ ⟦<Kerberos as Opening>⟧
        keys.now session_keys.now terms.now
        arrival.now settings.now token.now) }
{
    let octets = request_in(settings, token)?;
    let presented = present(alloc, keys, session_keys, terms, arrival, octets)?;
    match told_of(alloc, settings, &presented) {
        Ok(told) => with_told(alloc, presented, told),
        Err(refusal) => {
            drop(presented);
            Err(refusal)
        }
    }
}

/// The client, where what it presented with a token was not accepted before. It is remembered from now on; a refusal leaves the cache as it
/// was.
///
/// The refusals are those of `admit`: `Unremembered`, `Repeat` and `OutOfMemory`.
pub fn admit_token(
    terms: &Terms,
    presented: PresentedToken,
    cache: &mut ReplayCache,
) -> Result<Context, TokenRefusal>
    ensures told { IfOk result (IsContextOf presented.entry) }
    ensures admitted { OnOk result (IsAdmitted terms.now presented.entry.presented.entry cache.old cache.new) }
    ensures refused { IfErr result (IsTokenNotAdmitted terms.now presented.entry.presented.entry cache.old) }
    ensures unchanged { OnErr result (cache.new ≡ cache.old) }
{
    let PresentedToken {
        presented,
        pac,
        flags,
        delegated,
    } = presented;
    match admit(terms, presented, cache) {
        Ok(accepted) => Ok(Context {
            accepted,
            pac,
            flags,
            delegated,
        }),
        Err(refusal) => {
            drop(pac);
            drop(delegated);
            Err(TokenRefusal::Request(refusal))
        }
    }
}

/// The client that sent this initial context token, where it is let in (RFC 4121, 4.1): `present_token`, and then `admit_token`. A refusal
/// leaves the cache as it was.
pub fn accept_token(
    alloc: Global,
    keys: &[ServiceKey],
    session_keys: &[ServiceKey],
    terms: &Terms,
    arrival: &Arrival,
    settings: &Settings,
    token: &[u8],
    cache: &mut ReplayCache,
) -> Result<Context, TokenRefusal>
    ensures accepted { IfOk result
        (IsTokenAccepted ⟦<KrbCred as DerEncode>⟧ ⟦<EncKrbCredPart as DerEncode>⟧ ⟦<AuthorizationData as DerEncode>⟧ ⟦<Kerberos as Opening>⟧
        keys.now session_keys.now terms.now
        arrival.now settings.now token.now cache.old cache.new) }
    ensures refused { IfErr result
        (IsTokenRefused ⟦<KrbCred as DerEncode>⟧ ⟦<EncKrbCredPart as DerEncode>⟧ ⟦<AuthorizationData as DerEncode>⟧ ⟦<Kerberos as Opening>⟧
        keys.now session_keys.now terms.now
        arrival.now settings.now token.now cache.old) }
    ensures unchanged { OnErr result (cache.new ≡ cache.old) }
{
    let presented = present_token(alloc, keys, session_keys, terms, arrival, settings, token)?;
    let context = admit_token(terms, presented, cache)?;
    Ok(context)
}

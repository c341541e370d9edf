//! Kerberos as the mechanism of an acceptor (RFC 4121).

ghost use Rattle.std.specs.Prelude.{◌≡◌, drop, pos, Err, None, false, IfErr, IfOk, MatchBool};
ghost use Rattle.std.specs.Option.{option_copied};
ghost use Rattle.krb_spnego.specs.KerberosMeaning.{HasTokenKey, HoldsOf, IsClientOf, IsNoTurnFor, IsRefusedBy, IsStep, IsTaken, IsTurnFor, KerberosRefuses, KerberosRefusesBy, KerberosSteps, MadeOf, NoStep, TellsRefusal, content_in, is_dce_style, is_framed_in, is_kerberos, kerberos_meaning, kerberos_steady};
ghost use Rattle.krb_accept.specs.TokenRefusals.{memory};
ghost use Rattle.krb_accept.specs.ContextKey.{HasNoTokenKey, context_key};
ghost use Rattle.krb_gss_per_message.specs.declared.error.ProtectionError.TheVariants as protection;
ghost use Rattle.krb_spnego_rules.specs.declared.mechanism.MechanismError.TheVariants as errors;

use crate::refusal::{KerberosRefusal, StepError};
use krb_accept::{
    Accepted, Arrival, Delegated, Entry, Kerberos, Presented, PresentedToken, ReplyError, Rule,
    ServiceKey, Settings, Terms, TokenRefusal, present_token, reply_token, token_key, wants_reply,
};
use krb_accept_rules::Opening;
use krb_der::{DerEncode, IntegerAsn1};
use krb_enc_parts::data_types::{EncApRepPart, EncKrbCredPart};
use krb_gss_per_message::{ProtectionError, Sender};
use krb_messages::messages::{ApRep, KrbCred};
use krb_spnego_rules::{Mechanism, MechanismError, Turn};
use krb_types::data_types::AuthorizationData;
use std::alloc::{AllocError, Global};

/// The arcs of Kerberos (RFC 4121, 4.1).
const KERBEROS: [u64; 7] = [1, 2, 840, 113554, 1, 2, 2];

/// The arcs that Windows has for it beside (MS-SPNG, 1.9).
const KERBEROS_OF_WINDOWS: [u64; 7] = [1, 2, 840, 48018, 1, 2, 2];

/// The OBJECT IDENTIFIER of Kerberos, in DER.
const IDENTIFIER: [u8; 11] = [
    0x06, 0x09, 0x2a, 0x86, 0x48, 0x86, 0xf7, 0x12, 0x01, 0x02, 0x02,
];

/// The tag of a token: application 0, constructed (RFC 2743, 3.1).
const TOKEN: u8 = 0x60;

/// What a service knows, and asks of a client that comes now.
#[derive(Drop)]
pub struct Service {
    /// Its keys.
    pub keys: Vec<ServiceKey>,
    /// The session keys of tickets that it has for user-to-user authentication (RFC 4120, 3.7).
    pub session_keys: Vec<ServiceKey>,
    /// Its terms.
    pub terms: Terms,
    /// The time, and the client's address.
    pub arrival: Arrival,
    /// What it asks of tokens.
    pub settings: Settings,
}

/// A client whose token keeps all rules but those of the replay cache.
#[derive(Drop)]
pub struct Client {
    /// What is to be remembered: whether a replay cache has it decides whether the client is let
    /// in.
    pub entry: Entry,
    /// The client. Of authorization data the elements are left out in which a PAC stands.
    pub accepted: Accepted,
    /// The PAC of its ticket, which was verified; `None` where it has none, or PACs are ignored.
    pub pac: Option<Vec<u8>>,
    /// The flags of its context (RFC 4121, 4.1.1.1).
    pub flags: u32,
    /// The credentials that it delegated.
    pub delegated: Option<Delegated>,
}

/// One conversation of a service, whose mechanism is Kerberos.
///
/// A client's token is taken where it keeps all rules but those of the replay cache
/// (`krb_accept::present_token`), and does not want DCE style, whose context is established by a
/// third message, which this mechanism does not take. **Before anything is sent to the client, the
/// caller looks whether its replay cache has `client.entry`, and remembers it**: what was accepted
/// once is not accepted again.
#[derive(Drop)]
pub struct KerberosAcceptor<'a> {
    /// The service.
    pub service: Service,
    /// The confounder of the AP-REP, of the length of the session key's suite: 16 octets for the
    /// suites of AES. It is for one use, and random.
    pub confounder: Vec<u8>,
    /// The sequence number of the service's first message, which the AP-REP tells.
    pub number: u32,
    /// The sequence number of its next message: `number` at first.
    pub next: u64,
    /// The client, once its token was taken.
    pub client: Option<Client>,
    /// A place of the caller's, in which each step tells why it refuses, or `None` where it does not.
    /// A negotiation that fails lets its mechanism go; the place stays.
    pub refusal: &'a mut Option<KerberosRefusal>,
}

fn is_kerberos(arcs: &[u64]) -> bool
    ensures { result ≡ is_kerberos arcs.now }
{
    arcs == KERBEROS.as_slice() || arcs == KERBEROS_OF_WINDOWS.as_slice()
}

/// What follows so many octets.
fn behind(octets: &[u8], count: usize) -> &[u8]
    ensures { result.now ≡ drop count octets.now }
{
    if count > octets.len() {
        return &[];
    }
    &octets[count..]
}

/// What follows the tag and the length of a token.
fn content_of(token: &[u8]) -> &[u8]
    ensures { result.now ≡ content_in token.now }
{
    match token {
        [] => &[],
        [_] => &[],
        [_, length, rest @ ..] => {
            if *length < 128 {
                return rest;
            }
            behind(rest, (*length - 128) as usize)
        }
    }
}

/// Whether octets begin like a token of Kerberos, with no negotiation around it.
fn is_framed(token: &[u8]) -> bool
    ensures { result ≡ is_framed_in token.now }
{
    token.starts_with(&[TOKEN]) && content_of(token).starts_with(&IDENTIFIER)
}

/// Whether a client wants DCE style, whose context is established by a third message (MS-KILE, 3.4.5.1).
fn is_dce_style(flags: u32) -> bool
    ensures { result ≡ is_dce_style flags }
{
    flags / 0x1000 % 2 == 1
}

/// The client of a token; one that wants DCE style is refused.
fn client_of(alloc: Global, acceptor: &KerberosAcceptor, token: &[u8]) -> Result<Client, StepError>
    ensures found { IfOk result
        (IsClientOf ⟦<KrbCred as DerEncode>⟧ ⟦<EncKrbCredPart as DerEncode>⟧ ⟦<AuthorizationData as DerEncode>⟧ ⟦<Kerberos as Opening>⟧
        acceptor.now.service token.now) }
    ensures refused { IfErr result (NoStep
        (IsRefusedBy ⟦<KrbCred as DerEncode>⟧ ⟦<EncKrbCredPart as DerEncode>⟧ ⟦<AuthorizationData as DerEncode>⟧ ⟦<Kerberos as Opening>⟧
        acceptor.now token.now)) }
{
    let service = &acceptor.service;
    match present_token(
        alloc,
        &service.keys,
        &service.session_keys,
        &service.terms,
        &service.arrival,
        &service.settings,
        token,
    ) {
        Ok(shown) => {
            if is_dce_style(shown.flags) {
                drop(shown);
                return Err(StepError::Refused(KerberosRefusal::DceStyle));
            }
            let PresentedToken {
                presented,
                pac,
                flags,
                delegated,
            } = shown;
            let Presented {
                entry,
                accepted,
                key: _,
            } = presented;
            Ok(Client {
                entry,
                accepted,
                pac,
                flags,
                delegated,
            })
        }
        Err(refusal) => {
            if refusal.is_out_of_memory() {
                return Err(StepError::OutOfMemory);
            }
            Err(StepError::Refused(KerberosRefusal::Token(refusal)))
        }
    }
}

/// What the service sends to a client.
fn turn_of(
    alloc: Global,
    client: &Client,
    confounder: &[u8],
    number: u32,
) -> Result<Turn, StepError>
    requires key { HasTokenKey client.now.accepted }
    ensures made { IfOk result (IsTurnFor ⟦<EncApRepPart as DerEncode>⟧ ⟦<ApRep as DerEncode>⟧ client.now confounder.now number) }
    ensures refused { IfErr result (NoStep (IsNoTurnFor client.now confounder.now)) }
{
    if !wants_reply(&client.accepted, client.flags) {
        return Ok(Turn::Ends);
    }
    let integer = IntegerAsn1::from_u32(alloc, number);
    match reply_token(alloc, &client.accepted, confounder, None, Some(integer)) {
        Ok(token) => Ok(Turn::EndsWithToken(token)),
        Err(ReplyError::OutOfMemory) => Err(StepError::OutOfMemory),
        Err(error) => Err(StepError::Refused(KerberosRefusal::NoReply(error))),
    }
}

/// Whether the key of a context is of a suite that RFC 4121 has tokens for.
fn has_key(accepted: &Accepted) -> bool
    ensures { MatchBool result (HasTokenKey accepted.now) (HasNoTokenKey (context_key accepted.now None)) }
{
    match token_key(accepted, None, Sender::Acceptor) {
        Some(_key) => true,
        None => false,
    }
}

/// What the service sends to a client whose context has a key for MICs.
fn turn_for(
    alloc: Global,
    client: &Client,
    confounder: &[u8],
    number: u32,
) -> Result<Turn, StepError>
    ensures made { IfOk result (λ turn. HasTokenKey client.now.accepted
        × IsTurnFor ⟦<EncApRepPart as DerEncode>⟧ ⟦<ApRep as DerEncode>⟧ client.now confounder.now number turn) }
    ensures refused { IfErr result (NoStep (IsNoTurnFor client.now confounder.now)) }
{
    if !has_key(&client.accepted) {
        return Err(StepError::Refused(KerberosRefusal::NoTokenKey));
    }
    let turn = turn_of(alloc, client, confounder, number)?;
    Ok(turn)
}

/// The client of a token, and what the service sends to it.
fn taken(
    alloc: Global,
    acceptor: &KerberosAcceptor,
    token: &[u8],
) -> Result<(Client, Turn), StepError>
    ensures taken { IfOk result (λ r.
        IsTaken ⟦<KrbCred as DerEncode>⟧ ⟦<EncKrbCredPart as DerEncode>⟧ ⟦<AuthorizationData as DerEncode>⟧ ⟦<Kerberos as Opening>⟧
        ⟦<EncApRepPart as DerEncode>⟧ ⟦<ApRep as DerEncode>⟧ acceptor.now token.now r.0 r.1) }
    ensures refused { IfErr result (NoStep
        (IsRefusedBy ⟦<KrbCred as DerEncode>⟧ ⟦<EncKrbCredPart as DerEncode>⟧ ⟦<AuthorizationData as DerEncode>⟧ ⟦<Kerberos as Opening>⟧
        acceptor.now token.now)) }
{
    let client = client_of(alloc, acceptor, token)?;
    match turn_for(alloc, &client, &acceptor.confounder, acceptor.number) {
        Ok(turn) => Ok((client, turn)),
        Err(error) => {
            drop(client);
            Err(error)
        }
    }
}

/// The same of a first token, where one came.
fn stepped(
    alloc: Global,
    acceptor: &KerberosAcceptor,
    token: Option<&[u8]>,
) -> Result<(Client, Turn), StepError>
    ensures taken { IfOk result (λ r.
        IsStep ⟦<KrbCred as DerEncode>⟧ ⟦<EncKrbCredPart as DerEncode>⟧ ⟦<AuthorizationData as DerEncode>⟧ ⟦<Kerberos as Opening>⟧
        ⟦<EncApRepPart as DerEncode>⟧ ⟦<ApRep as DerEncode>⟧ acceptor.now (option_copied token.entry) r.0 r.1) }
    ensures refused { IfErr result (NoStep
        (KerberosRefusesBy ⟦<KrbCred as DerEncode>⟧ ⟦<EncKrbCredPart as DerEncode>⟧ ⟦<AuthorizationData as DerEncode>⟧ ⟦<Kerberos as Opening>⟧
        acceptor.now (option_copied token.entry))) }
{
    if acceptor.client.is_some() {
        return Err(StepError::Refused(KerberosRefusal::Established));
    }
    match token {
        Some(token) => taken(alloc, acceptor, token),
        None => Err(StepError::Refused(KerberosRefusal::NoToken)),
    }
}

/// The MIC of a text under the key of a context (RFC 4121, 4.2.6.1).
fn mic_of(
    alloc: Global,
    accepted: &Accepted,
    number: u64,
    text: &[u8],
) -> Result<Vec<u8>, AllocError>
    ensures { IfOk result (λ mic. MadeOf accepted.now number text.now mic.items) }
{
    let Some(key) = token_key(accepted, None, Sender::Acceptor) else {
        return Err(AllocError);
    };
    match krb_gss_per_message::make_mic(alloc, &key, number, text) {
        Ok(mic) => Ok(mic),
        Err(_error) => Err(AllocError),
    }
}

/// Whether memory was wanting.
fn is_wanting(error: &ProtectionError) -> bool
    ensures { result ≡ false → error.now ≡ protection.OutOfMemory → ⊥ }
{
    match error {
        ProtectionError::OutOfMemory => true,
        _ => false,
    }
}

/// Whether a MIC of the client holds of a text, under the key of its context.
fn holds_of(alloc: Global, accepted: &Accepted, text: &[u8], mic: &[u8]) -> Result<bool, AllocError>
    ensures { IfOk result (λ held. MatchBool held (HoldsOf accepted.now text.now mic.now) (HoldsOf accepted.now text.now mic.now → ⊥)) }
{
    let Some(key) = token_key(accepted, None, Sender::Initiator) else {
        return Ok(false);
    };
    match krb_gss_per_message::verify_mic(alloc, &key, text, mic) {
        Ok(_number) => Ok(true),
        Err(error) => {
            if is_wanting(&error) {
                return Err(AllocError);
            }
            Ok(false)
        }
    }
}

impl<'a> Mechanism for KerberosAcceptor<'a> {
    ghost meaning = { kerberos_meaning ⟦<KrbCred as DerEncode>⟧ ⟦<EncKrbCredPart as DerEncode>⟧ ⟦<AuthorizationData as DerEncode>⟧
        ⟦<Kerberos as Opening>⟧ ⟦<EncApRepPart as DerEncode>⟧ ⟦<ApRep as DerEncode>⟧ };

    ghost steady = { kerberos_steady ⟦<KrbCred as DerEncode>⟧ ⟦<EncKrbCredPart as DerEncode>⟧ ⟦<AuthorizationData as DerEncode>⟧
        ⟦<Kerberos as Opening>⟧ ⟦<EncApRepPart as DerEncode>⟧ ⟦<ApRep as DerEncode>⟧ };

    fn arcs(&self) -> &[u64] {
        &KERBEROS
    }

    fn is_named(&self, arcs: &[u64]) -> bool {
        is_kerberos(arcs)
    }

    fn has_integrity(&self) -> bool {
        true
    }

    fn is_bare(&self, token: &[u8]) -> bool {
        is_framed(token)
    }

    /// A refusal is told in `refusal`, and nothing else changes.
    fn step(&mut self, alloc: Global, token: Option<&[u8]>) -> Result<Turn, MechanismError>
        ensures taken { IfOk result
            (KerberosSteps ⟦<KrbCred as DerEncode>⟧ ⟦<EncKrbCredPart as DerEncode>⟧ ⟦<AuthorizationData as DerEncode>⟧ ⟦<Kerberos as Opening>⟧
            ⟦<EncApRepPart as DerEncode>⟧ ⟦<ApRep as DerEncode>⟧ self.old (option_copied token.entry) self.new) }
        ensures refused { result ≡ Err errors.Refused
            → KerberosRefuses ⟦<KrbCred as DerEncode>⟧ ⟦<EncKrbCredPart as DerEncode>⟧ ⟦<AuthorizationData as DerEncode>⟧ ⟦<Kerberos as Opening>⟧
            self.old (option_copied token.entry) }
        ensures told { IfErr result
            (TellsRefusal ⟦<KrbCred as DerEncode>⟧ ⟦<EncKrbCredPart as DerEncode>⟧ ⟦<AuthorizationData as DerEncode>⟧ ⟦<Kerberos as Opening>⟧
            self.old (option_copied token.entry) self.new) }
    {
        match stepped(alloc, self, token) {
            Ok((client, turn)) => {
                drop(self.client.replace(client));
                *self.refusal = None;
                Ok(turn)
            }
            Err(StepError::OutOfMemory) => {
                *self.refusal = None;
                Err(MechanismError::OutOfMemory)
            }
            Err(StepError::Refused(refusal)) => {
                *self.refusal = Some(refusal);
                Err(MechanismError::Refused)
            }
        }
    }

    fn make_mic(&mut self, alloc: Global, text: &[u8]) -> Result<Vec<u8>, AllocError> {
        match &self.client {
            Some(client) => {
                let mic = mic_of(alloc, &client.accepted, self.next, text)?;
                self.next = self.next.wrapping_add(1);
                Ok(mic)
            }
            None => Err(AllocError),
        }
    }

    fn verify_mic(&self, alloc: Global, text: &[u8], mic: &[u8]) -> Result<bool, AllocError> {
        match &self.client {
            Some(client) => holds_of(alloc, &client.accepted, text, mic),
            None => Ok(false),
        }
    }
}

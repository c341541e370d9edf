//! The request for a service.

ghost use Rattle.std.specs.Prelude.{◌≡◌, ◌≢◌, length, IfErr, IfOk, OnOk};
ghost use Rattle.krb_c_calls.specs.declared.call_error.CallError.TheVariants as refusals;
ghost use Rattle.krb_c_client.specs.Application.{IsApCall, IsBindings, IsNoBindings, IsNoRequestOf, IsNotRequested, IsRequestOf, IsRequested, IsSenderOf, IsSubkeyOf, ap_inputs_of, confounder_in, gss_of};
ghost use Rattle.krb_c_client.specs.Settings.{optional_number};

use crate::further::ticket_of;
use crate::names::{Named, principal_of};
use crate::records::ApTermsRecord;
use crate::refusal::Refusal;
use crate::rules::request_refusal;
use crate::settings::{GSS, MUTUAL, SEQUENCE, has_setting};
use crate::suites::suite_of;
use crate::tell::tell_octets;
use krb_c_calls::CallError;
use krb_client::{ApRequest, GssChecksum, LentKey, Sender};
use krb_crypto::CipherSuite;
use krb_der::DerEncode;
use krb_enc_parts::data_types::Authenticator;
use krb_messages::messages::ApReq;
use krb_types::data_types::Ticket;
use std::alloc::Global;

/// How many random octets a call has.
const RANDOM_SIZE: usize = 16;

/// How many octets the hash of channel bindings has (RFC 4121, 4.1.1.2).
const HASH_SIZE: usize = 16;

/// What is asked of a service.
#[derive(Clone, Copy)]
pub struct ApAsked<'a> {
    /// How it is asked.
    pub terms: ApTermsRecord,
    /// The client, as text.
    pub client: &'a [u8],
    /// The encoding of the ticket for the service.
    pub ticket: &'a [u8],
    /// The octets of its session key.
    pub session_key: &'a [u8],
    /// Those of the subkey, of the same encryption type, or no octets.
    pub subkey: &'a [u8],
    /// The hash of the channel bindings, 16 octets, or no octets.
    pub bindings: &'a [u8],
    /// 16 random octets.
    pub random: &'a [u8],
}

/// Whether there are as many random octets as a call has.
fn check_random(random: &[u8]) -> Result<(), CallError>
    ensures right { OnOk result (length random.now ≡ 16) }
    ensures refused { IfErr result (λ e. (e ≡ refusals.SeedSize) × (length random.now ≢ 16)) }
{
    if random.len() != RANDOM_SIZE {
        return Err(CallError::SeedSize);
    }
    Ok(())
}

/// The hash of channel bindings; zeros of no octets. `SeedSize` where it has another length.
fn bindings_of(bindings: &[u8]) -> Result<[u8; HASH_SIZE], CallError>
    ensures found { IfOk result (IsBindings bindings.now) }
    ensures refused { IfErr result (IsNoBindings bindings.now) }
{
    let mut hash = [0; HASH_SIZE];
    if bindings.is_empty() {
        return Ok(hash);
    }
    if bindings.len() != HASH_SIZE {
        return Err(CallError::SeedSize);
    }
    hash.copy_from_slice(bindings);
    Ok(hash)
}

/// The first of the random octets, as many as a confounder of the suite has.
fn confounder_in<'a>(suite: &CipherSuite, random: &'a [u8]) -> &'a [u8]
    requires { length random.now ≡ 16 }
    ensures { result.now ≡ confounder_in suite.now random.now }
{
    match suite {
        CipherSuite::Des3CbcSha1Kd => &random[..8],
        _ => random,
    }
}

/// The checksum of the GSS-API, where the setting is there.
fn gss_of(terms: &ApTermsRecord, bindings: [u8; HASH_SIZE]) -> Option<GssChecksum>
    ensures { result ≡ gss_of terms.now bindings }
{
    if has_setting(terms.settings, GSS) {
        Some(GssChecksum {
            bindings,
            flags: terms.gss_flags,
        })
    } else {
        None
    }
}

/// The number of the first message, where the setting is there.
fn number_of(terms: &ApTermsRecord) -> Option<u32>
    ensures { result ≡ optional_number terms.now.settings 1 terms.now.sequence_number }
{
    if has_setting(terms.settings, SEQUENCE) {
        Some(terms.sequence_number)
    } else {
        None
    }
}

/// The subkey, where it has octets.
fn subkey_of<'a>(suite: &'a CipherSuite, octets: &'a [u8]) -> Option<LentKey<'a>>
    ensures { IsSubkeyOf suite.now octets.now result }
{
    if octets.is_empty() {
        None
    } else {
        Some(LentKey { suite, octets })
    }
}

/// Who sends the request, when, and what it chooses.
fn sender_of<'a>(asked: &ApAsked<'a>, client: &'a Named, suite: &'a CipherSuite) -> Sender<'a>
    ensures { IsSenderOf (ap_inputs_of asked.now) client.now.realm client.now.name suite.now result }
{
    Sender {
        crealm: &client.realm,
        cname: &client.name,
        seconds: asked.terms.seconds,
        microseconds: asked.terms.microseconds,
        subkey: subkey_of(suite, asked.subkey),
        seq_number: number_of(&asked.terms),
    }
}

/// The request for a service, of these parts.
fn requested(
    alloc: Global,
    asked: &ApAsked,
    client: &Named,
    ticket: &Ticket,
    suite: &CipherSuite,
    bindings: [u8; HASH_SIZE],
) -> Result<Vec<u8>, Refusal>
    requires { length asked.now.random.now ≡ 16 }
    ensures made { IfOk result (λ octets. IsRequestOf ⟦<ApReq as DerEncode>⟧ ⟦<Authenticator as DerEncode>⟧ (ap_inputs_of asked.now)
        client.now.realm client.now.name ticket.now suite.now bindings octets.items) }
    ensures refused { IfErr result (IsNoRequestOf (ap_inputs_of asked.now) client.now.realm client.now.name suite.now bindings) }
{
    let sender = sender_of(asked, client, suite);
    let request = ApRequest {
        ticket,
        session: LentKey {
            suite,
            octets: asked.session_key,
        },
        gss: gss_of(&asked.terms, bindings),
        mutual_required: has_setting(asked.terms.settings, MUTUAL),
    };
    let confounder = confounder_in(suite, asked.random);
    match krb_client::ap_request(alloc, &request, &sender, confounder) {
        Ok(octets) => Ok(octets),
        Err(error) => Err(request_refusal(error)),
    }
}

/// What becomes of a call.
fn decided(alloc: Global, asked: &ApAsked) -> Result<Vec<u8>, Refusal>
    ensures made { IfOk result (λ octets. IsRequested ⟦<Ticket as DerEncode>⟧ ⟦<ApReq as DerEncode>⟧ ⟦<Authenticator as DerEncode>⟧
        (ap_inputs_of asked.now) octets.items) }
    ensures refused { IfErr result (IsNotRequested ⟦<Ticket as DerEncode>⟧ (ap_inputs_of asked.now)) }
{
    check_random(asked.random)?;
    let bindings = bindings_of(asked.bindings)?;
    let suite = suite_of(&asked.terms.session_etype)?;
    let client = principal_of(alloc, asked.client, asked.terms.client_type)?;
    let ticket = ticket_of(alloc, asked.ticket)?;
    requested(alloc, asked, &client, &ticket, &suite, bindings)
}

/// The AP-REQ for a service (RFC 4120, 3.2.2), by a ticket and its session key.
///
/// 0 where it is handed out; 1 where it has more octets than `out` has. Else the first of these: 13
/// where there are not 16 random octets; 13 where the bindings have neither 0 nor 16; 3 where the
/// encryption type has no suite; 9 where the client is no principal with a realm; 9, 10 or 11 where
/// the ticket is no encoding of one; 42 where no request is made: `rule` tells why. Or 2 where an
/// allocation failed. But for 42 `rule` is 0.
pub fn ap_request(
    alloc: Global,
    asked: &ApAsked,
    rule: &mut u32,
    out: &mut [u8],
    size: &mut usize,
) -> u32
    ensures { IsApCall ⟦<Ticket as DerEncode>⟧ ⟦<ApReq as DerEncode>⟧ ⟦<Authenticator as DerEncode>⟧
        (ap_inputs_of asked.now) rule.new out.old out.new size.new result }
{
    let outcome = decided(alloc, asked);
    tell_octets(&outcome, rule, out, size)
}

//! The client's key for a reply that came without pre-authentication (RFC 4120, 3.1.5 and 5.2.7.5).

ghost use Rattle.std.specs.Prelude.{◌≡◌, ◌⊎◌, MatchBool, MatchOption, IfErr, IfOk};
ghost use Rattle.std.specs.Option.{option_copied};
ghost use Rattle.krb_client.specs.Firsts.{IsFirst, NoneIs};
ghost use Rattle.krb_client.specs.declared.keys.hint.HintError.TheVariants as hints;
ghost use Rattle.krb_client.specs.Hints.{IsDefaultKey, IsKeyForReply, IsKeyOfReply, IsNoDefaultKey, IsNoKeyForReply, IsNoKeyOfReply, IsNoReplyKey, IsNumberOf, IsReplyKey, IsUnread};
ghost use Rattle.krb_messages.specs.declared.messages.replies.KdcRep.{KdcRep};
ghost use Rattle.krb_der.specs.Whole.{Encodes};

use crate::error::ClientError;
use crate::keys::{Client, HintError, Limits, Secret, client_key, key_by_elements};
use crate::messages::{Encodings, Rfc4120};
use crate::replies::ReplyError;
use krb_client_rules::{Asked, Key};
use krb_crypto::CipherSuite;
use krb_der::{ApplicationTag, Asn1SequenceOf, Der, DerEncode, IntegerAsn1, from_bytes};
use krb_messages::messages::{AsRep, KdcRep};
use krb_types::data_types::PaData;
use krb_types::view::items;
use std::alloc::Global;

/// A reply of a KDC, under its tag.
trait Hinting {
    /// Its fields.
    ghost content: { Self → KdcRep };

    /// The data of pre-authentication.
    fn padata(&self) -> Option<&Asn1SequenceOf<PaData>>
        ensures { option_copied result ≡ (content self.now).padata.0 };

    /// The encryption type of the part.
    fn etype(&self) -> &IntegerAsn1
        ensures { result.now ≡ (content self.now).enc_part.etype };
}

impl<const N: u8> Hinting for ApplicationTag<KdcRep, N> {
    ghost content = { λ v. v };

    fn padata(&self) -> Option<&Asn1SequenceOf<PaData>> {
        match &self.0.padata.0 {
            Some(list) => Some(&list.0),
            None => None,
        }
    }

    fn etype(&self) -> &IntegerAsn1 {
        &self.0.enc_part.0.etype.0
    }
}

/// Whether the number is that of the suite's encryption type.
fn is_number_of(number: &IntegerAsn1, suite: &CipherSuite) -> bool
    ensures { MatchBool result (IsNumberOf number.now suite.now) (IsNumberOf number.now suite.now → ⊥) }
{
    number.is_number(u32::from(suite))
}

/// The first of these suites whose encryption type has this number.
fn suite_among<'a>(suites: &'a [CipherSuite], number: &IntegerAsn1) -> Option<&'a CipherSuite>
    ensures { MatchOption result (NoneIs (IsNumberOf number.now) suites.now)
        (λ suite. IsFirst (IsNumberOf number.now) suites.now suite.now) }
{
    for suite in suites {
        if is_number_of(number, suite) {
            return Some(suite);
        }
    }
    None
}

/// The client's key of the encryption type of the part, with the default salt and parameters.
fn default_key(
    alloc: Global,
    client: &Client,
    secret: &Secret,
    limits: &Limits,
    suites: &[CipherSuite],
    number: &IntegerAsn1,
) -> Result<Key, HintError>
    ensures made { IfOk result (IsDefaultKey client.now secret.now limits.now suites.now number.now) }
    ensures rejected { IfErr result (λ e. (e ≡ hints.OutOfMemory)
        ⊎ IsNoDefaultKey secret.now limits.now suites.now number.now e) }
{
    let Some(suite) = suite_among(suites, number) else {
        return Err(HintError::EncryptionType);
    };
    client_key(alloc, client, secret, limits, suite, None, None)
}

/// Whether what is told is that nothing is told.
fn is_untold(error: &HintError) -> bool
    ensures { MatchBool result (error.now ≡ hints.NoInfo) (error.now ≡ hints.NoInfo → ⊥) }
{
    match error {
        HintError::NoInfo => true,
        _ => false,
    }
}

/// The client's key by the data of pre-authentication, where they tell of one; else the default
/// one.
fn key_by_padata(
    alloc: Global,
    client: &Client,
    secret: &Secret,
    limits: &Limits,
    suites: &[CipherSuite],
    padata: Option<&Asn1SequenceOf<PaData>>,
    number: &IntegerAsn1,
) -> Result<Key, HintError>
    ensures made { IfOk result (IsReplyKey ⟦<Rfc4120 as Encodings>⟧.initial client.now secret.now limits.now suites.now
        (option_copied padata.entry) number.now) }
    ensures rejected { IfErr result (λ e. (e ≡ hints.OutOfMemory)
        ⊎ IsNoReplyKey ⟦<Rfc4120 as Encodings>⟧.initial secret.now limits.now suites.now
        (option_copied padata.entry) number.now e) }
{
    let Some(list) = padata else {
        return default_key(alloc, client, secret, limits, suites, number);
    };
    match key_by_elements(alloc, client, secret, limits, suites, items(list)) {
        Ok(key) => Ok(key),
        Err(error) => {
            if is_untold(&error) {
                default_key(alloc, client, secret, limits, suites, number)
            } else {
                Err(error)
            }
        }
    }
}

/// The value whose one encoding the octets are.
fn decoded<T: Der + Drop>(alloc: Global, octets: &[u8]) -> Result<T, ClientError>
    ensures found { IfOk result (Encodes ⟦<T as DerEncode>⟧ octets.now) }
    ensures rejected { IfErr result (IsUnread ⟦<T as DerEncode>⟧ octets.now) }
{
    match from_bytes(alloc, octets) {
        Ok(value) => Ok(value),
        Err(error) => Err(ClientError::Reply(ReplyError::Message(error))),
    }
}

/// The key of the client for this reply.
fn key_of<M: Der + Hinting + Drop>(
    alloc: Global,
    asked: &Asked,
    secret: &Secret,
    limits: &Limits,
    octets: &[u8],
) -> Result<Key, ClientError>
    ensures made { IfOk result (λ key. (m : M) × Encodes ⟦<M as DerEncode>⟧ octets.now m
        × IsKeyForReply ⟦<Rfc4120 as Encodings>⟧.initial asked.now secret.now limits.now (M.content m) key) }
    ensures rejected { IfErr result (λ e. IsUnread ⟦<M as DerEncode>⟧ octets.now e
        ⊎ ((m : M) × Encodes ⟦<M as DerEncode>⟧ octets.now m
        × IsNoKeyForReply ⟦<Rfc4120 as Encodings>⟧.initial asked.now secret.now limits.now (M.content m) e)) }
{
    let message: M = decoded(alloc, octets)?;
    let client = Client {
        realm: &asked.crealm,
        name: &asked.cname,
    };
    let suites = asked.etypes.as_slice();
    let (padata, number) = (message.padata(), message.etype());
    match key_by_padata(alloc, &client, secret, limits, suites, padata, number) {
        Ok(key) => Ok(key),
        Err(error) => Err(ClientError::Key(error)),
    }
}

/// The key of the client for an AS-REP that came without pre-authentication: by the first
/// ETYPE-INFO2 of its data, where there is one, as `told_key` takes it; else the key of its part's
/// encryption type with the default salt and parameters (RFC 4120, 3.1.5 and 5.2.7.5).
pub(crate) fn key_of_reply(
    alloc: Global,
    asked: &Asked,
    secret: &Secret,
    limits: &Limits,
    octets: &[u8],
) -> Result<Key, ClientError>
    ensures made { IfOk result
        (IsKeyOfReply ⟦<Rfc4120 as Encodings>⟧.initial asked.now secret.now limits.now octets.now) }
    ensures rejected { IfErr result
        (IsNoKeyOfReply ⟦<Rfc4120 as Encodings>⟧.initial asked.now secret.now limits.now octets.now) }
{
    key_of::<AsRep>(alloc, asked, secret, limits, octets)
}

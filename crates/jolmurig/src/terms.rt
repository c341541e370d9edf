//! The terms of the service that is asked about.

ghost use Rattle.std.specs.Prelude.{◌≡◌, ◌⊎◌, ◌++◌, ◌∷◌, [], ℕ, option_copied, IfErr, IfOk, OnOk};
ghost use Rattle.krb_accept_rules.specs.Texts.{IsNoRealm, IsNoServer, IsRealm, IsServer};
ghost use Rattle.jolmurig.specs.Terms.{AreNoTerms, AreOfTexts, AreTerms, HasTextOfNone, IsSkew};
ghost use Rattle.jolmurig.specs.declared.failure.Failure.TheVariants as failure;

use crate::failure::Failure;
use jolmurig_command::{Accept, NameText};
use krb_accept_report::{realm_of_text, server_of_text, terms_for};
use krb_accept_rules::{ServerName, Terms};
use krb_types::data_types::Realm;
use std::alloc::{AllocError, Global};

/// The usual skew, in seconds (RFC 4120, 8.2).
const SKEW: u32 = 300;

/// The skew that is named, or the usual one.
fn skew_of(skew: Option<&str>) -> Result<u32, Failure<'static>>
    ensures found { IfOk result (IsSkew (option_copied skew.entry)) }
    ensures rejected { IfErr result (λ e. (e ≡ failure.Skew) × ((seconds : ℕ) → IsSkew (option_copied skew.entry) seconds → ⊥)) }
{
    let Some(text) = skew else {
        return Ok(SKEW);
    };
    if text.starts_with('+') {
        return Err(Failure::Skew);
    }
    match text.parse::<u32>() {
        Ok(seconds) => Ok(seconds),
        Err(_) => Err(Failure::Skew),
    }
}

/// Appends one.
fn push<T: Drop>(list: &mut Vec<T>, one: T) -> Result<(), AllocError>
    ensures { OnOk result (list.new.items ≡ list.old.items ++ one ∷ []) }
{
    list.push(one)?;
    Ok(())
}

/// The server that a text is of.
fn server_in(alloc: Global, text: &str) -> Result<ServerName, Failure<'static>>
    ensures found { IfOk result (IsServer text.now) }
    ensures rejected { IfErr result (λ e. (e ≡ failure.Memory) ⊎ ((e ≡ failure.Server) × IsNoServer text.now)) }
{
    match server_of_text(alloc, text)? {
        Some(name) => Ok(name),
        None => Err(Failure::Server),
    }
}

/// The servers that texts are of, in their order.
fn servers_of(alloc: Global, texts: &[NameText]) -> Result<Vec<ServerName>, Failure<'static>>
    ensures found { IfOk result (λ servers. AreOfTexts IsServer texts.now servers.items) }
    ensures rejected { IfErr result (λ e. (e ≡ failure.Memory) ⊎ ((e ≡ failure.Server) × HasTextOfNone IsServer texts.now)) }
{
    let mut servers = Vec::new(alloc);
    'texts: for text in texts {
        let server = server_in(alloc, text.text)?;
        push(&mut servers, server)?;
    }
    Ok(servers)
}

/// The realm that a text is.
fn realm_in(alloc: Global, text: &str) -> Result<Realm, Failure<'static>>
    ensures found { IfOk result (λ realm. IsRealm text.now realm) }
    ensures rejected { IfErr result (λ e. (e ≡ failure.Memory) ⊎ ((e ≡ failure.Realm) × IsNoRealm text.now)) }
{
    match realm_of_text(alloc, text)? {
        Some(realm) => Ok(realm),
        None => Err(Failure::Realm),
    }
}

/// The realms that texts are, in their order.
fn realms_of(alloc: Global, texts: &[NameText]) -> Result<Vec<Realm>, Failure<'static>>
    ensures found { IfOk result (λ realms. AreOfTexts IsRealm texts.now realms.items) }
    ensures rejected { IfErr result (λ e. (e ≡ failure.Memory) ⊎ ((e ≡ failure.Realm) × HasTextOfNone IsRealm texts.now)) }
{
    let mut realms = Vec::new(alloc);
    'texts: for text in texts {
        let realm = realm_in(alloc, text.text)?;
        push(&mut realms, realm)?;
    }
    Ok(realms)
}

/// The terms that are asked about.
pub fn terms_of(alloc: Global, asked: &Accept) -> Result<Terms, Failure<'static>>
    ensures found { IfOk result (AreTerms asked.now) }
    ensures rejected { IfErr result (λ e. (e ≡ failure.Memory) ⊎ AreNoTerms asked.now e) }
{
    let skew = skew_of(asked.skew)?;
    let servers = servers_of(alloc, &asked.servers)?;
    let realms = realms_of(alloc, &asked.realms)?;
    let terms = terms_for(alloc, skew, servers, realms)?;
    Ok(terms)
}

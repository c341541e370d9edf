//! The PAC of a ticket (MS-PAC; MS-KILE, 3.4.5.2).

ghost use Rattle.std.specs.Prelude.{◌≡◌, ◌/◌, pos, ◌-ℤ◌, ◌∷◌, ◌++◌, IfErr, IfOk, MatchBool, MatchOption, OnOk};
ghost use Rattle.std.specs.List.{flat_map};
ghost use Rattle.std.specs.Option.{option_map};
ghost use Rattle.krb_accept.specs.Pac.{BreaksPac, HasInfo, HasNoInfo, HasServerChecksum, IsTimed, KeepsPac, NamesClient, RefusesPac, TakesPac, joined, wide};
ghost use Rattle.krb_accept.specs.PacPlaces.{NoPacOf};
ghost use Rattle.krb_accept.specs.declared.settings.PacCheck.TheVariants as checks;

use crate::pac_places::{Held, has_no_pac, pac_in};
use crate::settings::PacCheck;
use crate::token_refusal::TokenRefusal;
use krb_accept_rules::{Accepted, ServiceKey, TicketFields};
use krb_der::DerEncode;
use krb_pac::NumberedPacView;
use krb_pac_contents::buffers::ClientInfoView;
use krb_pac_signatures::{PacSignatures, Verdict, server_verdict};
use krb_types::data_types::{AuthorizationData, KerberosStringAsn1};
use krb_types::view::{items, unix_seconds};
use std::alloc::{AllocError, Global};

/// The number of PAC_CLIENT_INFO among the types of a PAC's buffers (MS-PAC, 2.4).
const CLIENT_INFO: u32 = 10;

/// Whether the server checksum of a PAC holds under the key of the service (MS-PAC, 2.8.1).
fn has_checksum(
    alloc: Global,
    signatures: &PacSignatures,
    key: &ServiceKey,
) -> Result<bool, AllocError>
    ensures { IfOk result
        (λ holds. MatchBool holds (HasServerChecksum signatures.now key.now.octets) (HasServerChecksum signatures.now key.now.octets → ⊥)) }
{
    match server_verdict(alloc, signatures, &key.octets.0)? {
        Verdict::Holds => Ok(true),
        _ => Ok(false),
    }
}

/// Appends ASCII text in UTF-16, the lowest octet first.
fn push_wide(text: &[u8], out: &mut Vec<u8>) -> Result<(), AllocError>
    ensures { OnOk result (out.new.items ≡ out.old.items ++ wide text.now) }
{
    'octets: for octet in text {
        out.push(*octet)?;
        out.push(0)?;
    }
    Ok(())
}

/// Appends components, a `/` before each.
fn push_each(components: &[KerberosStringAsn1], name: &mut Vec<u8>) -> Result<(), AllocError>
    ensures { OnOk result (name.new.items ≡ name.old.items ++ flat_map (λ component. 47 ∷ component) components.now) }
{
    'components: for component in components {
        name.push(b'/')?;
        name.extend_from_slice(component.as_str().as_bytes())?;
    }
    Ok(())
}

/// Components, with `/` between them.
fn joined(alloc: Global, components: &[KerberosStringAsn1]) -> Result<Vec<u8>, AllocError>
    ensures { IfOk result (λ name. name.items ≡ joined components.now) }
{
    let mut name = Vec::new(alloc);
    let Some((first, rest)) = components.split_first() else {
        return Ok(name);
    };
    name.extend_from_slice(first.as_str().as_bytes())?;
    push_each(rest, &mut name)?;
    Ok(name)
}

/// Components joined by `/`, in UTF-16.
fn name_of(alloc: Global, components: &[KerberosStringAsn1]) -> Result<Vec<u8>, AllocError>
    ensures { IfOk result (λ name. name.items ≡ wide (joined components.now)) }
{
    let text = joined(alloc, components)?;
    let mut name = Vec::new(alloc);
    push_wide(&text, &mut name)?;
    Ok(name)
}

/// The whole seconds of a FILETIME (MS-DTYP, 2.3.3), since 1 January 1970.
fn seconds_of(file_time: u64) -> i64
    ensures { result ≡ pos (file_time / 10_000_000) -ℤ pos 11_644_473_600 }
{
    (file_time / 10_000_000) as i64 - 11_644_473_600
}

/// Whether two times are the same second.
fn is_same_second(first: i64, second: i64) -> bool
    ensures { MatchBool result (first ≡ second) (first ≡ second → ⊥) }
{
    first == second
}

/// Whether a FILETIME is this time, in seconds since 1 January 1970.
fn is_timed(file_time: u64, seconds: i64) -> bool
    ensures { MatchBool result (IsTimed file_time seconds) (IsTimed file_time seconds → ⊥) }
{
    if file_time % 10_000_000 != 0 {
        return false;
    }
    is_same_second(seconds_of(file_time), seconds)
}

/// The first buffer of a PAC of type 10, read as PAC_CLIENT_INFO (MS-PAC, 2.7).
fn client_info_in(octets: &[u8]) -> Option<ClientInfoView<'_>>
    ensures { MatchOption result (HasNoInfo octets.now) (λ info. HasInfo octets.now info) }
{
    let Ok(pac) = NumberedPacView::new(octets) else {
        return None;
    };
    let Some(buffer) = pac.find(CLIENT_INFO) else {
        return None;
    };
    match ClientInfoView::new(buffer.octets()) {
        Ok(info) => Some(info),
        Err(_error) => None,
    }
}

/// Whether a PAC's buffer names the ticket's client and the time at which it was authenticated (MS-PAC, 2.7).
fn is_client(
    alloc: Global,
    ticket: &TicketFields,
    info: &ClientInfoView,
) -> Result<bool, AllocError>
    ensures { IfOk result (λ is. MatchBool is (NamesClient ticket.now info.now) (NamesClient ticket.now info.now → ⊥)) }
{
    if !is_timed(info.client_id(), unix_seconds(&ticket.auth_time)) {
        return Ok(false);
    }
    let name = name_of(alloc, items(&ticket.client.name_string.0))?;
    Ok(info.name() == name.as_slice())
}

/// Whether the octets are a PAC of the ticket's client with a server checksum under the key; else the first rule that is broken.
fn check_octets(
    alloc: Global,
    key: &ServiceKey,
    ticket: &TicketFields,
    octets: &[u8],
) -> Result<(), TokenRefusal>
    ensures kept { OnOk result (TakesPac key.now.octets ticket.now octets.now) }
    ensures refused { IfErr result (RefusesPac key.now.octets ticket.now octets.now) }
{
    let signatures = match PacSignatures::new(octets) {
        Ok(signatures) => signatures,
        Err(_error) => return Err(TokenRefusal::PacForm),
    };
    let Some(info) = client_info_in(octets) else {
        return Err(TokenRefusal::PacForm);
    };
    if !has_checksum(alloc, &signatures, key)? {
        return Err(TokenRefusal::PacChecksum);
    }
    if !is_client(alloc, ticket, &info)? {
        return Err(TokenRefusal::PacClient);
    }
    Ok(())
}

/// The octets of the ticket's PAC, where they keep the rules of `check_octets`.
fn verified(
    alloc: Global,
    key: &ServiceKey,
    ticket: &TicketFields,
    octets: Vec<u8>,
) -> Result<Vec<u8>, TokenRefusal>
    ensures same { IfOk result (λ v. v.items ≡ octets.items) }
    ensures kept { OnOk result (TakesPac key.now.octets ticket.now octets.items) }
    ensures refused { IfErr result (RefusesPac key.now.octets ticket.now octets.items) }
{
    check_octets(alloc, key, ticket, &octets)?;
    Ok(octets)
}

/// The PAC of a client whose authenticator has none, where it keeps the rules that the service sets; else the first that it breaks.
fn pac_of_ticket(
    alloc: Global,
    check: PacCheck,
    key: &ServiceKey,
    accepted: &Accepted,
) -> Result<Option<Vec<u8>>, TokenRefusal>
    requires checks { check ≡ checks.Ignored → ⊥ }
    requires none { NoPacOf ⟦<AuthorizationData as DerEncode>⟧ accepted.now.authorization_data }
    ensures kept { IfOk result
        (λ pac. KeepsPac ⟦<AuthorizationData as DerEncode>⟧ check key.now.octets accepted.now (option_map (λ v. v.items) pac)) }
    ensures refused { IfErr result (BreaksPac ⟦<AuthorizationData as DerEncode>⟧ check key.now.octets accepted.now) }
{
    match pac_in(alloc, &accepted.ticket.authorization_data)? {
        Held::Once(octets) => Ok(Some(verified(alloc, key, &accepted.ticket, octets)?)),
        Held::Nowhere => {
            if check == PacCheck::Required {
                return Err(TokenRefusal::PacMissing);
            }
            Ok(None)
        }
        Held::Elsewhere => Err(TokenRefusal::PacPlace),
    }
}

/// The PAC that is handed out of a client, where it keeps the rules that the service sets; else the first that is broken.
pub(crate) fn check_pac(
    alloc: Global,
    check: PacCheck,
    key: &ServiceKey,
    accepted: &Accepted,
) -> Result<Option<Vec<u8>>, TokenRefusal>
    ensures kept { IfOk result
        (λ pac. KeepsPac ⟦<AuthorizationData as DerEncode>⟧ check key.now.octets accepted.now (option_map (λ v. v.items) pac)) }
    ensures refused { IfErr result (BreaksPac ⟦<AuthorizationData as DerEncode>⟧ check key.now.octets accepted.now) }
{
    if check == PacCheck::Ignored {
        return Ok(None);
    }
    if !has_no_pac(alloc, &accepted.authorization_data)? {
        return Err(TokenRefusal::PacPlace);
    }
    pac_of_ticket(alloc, check, key, accepted)
}

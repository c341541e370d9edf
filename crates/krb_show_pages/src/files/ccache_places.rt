//! Where what the page of a credential cache tells stands (MIT Kerberos, "Credential cache file
//! format").

ghost use Rattle.std.specs.Prelude.{◌≡◌, [], ◌+◌, ◌<◌, ◌^◌, length, IfOk, OnErr, OnOk};
ghost use Rattle.krb_files.specs.Ccache.{Ccache, CcacheIs};
ghost use Rattle.krb_show_messages.specs.Places.{adds};
ghost use Rattle.krb_show_pages.specs.CcachePlaces.{AreCcachePlaces, ccache_size, adds_ccache, adds_components, adds_content, adds_credential, adds_credential_list, adds_fields};
ghost use Rattle.krb_show_pages.specs.CcachePlaces.{adds_credentials, adds_each_typed, adds_header, adds_marks, adds_parties, adds_principal, adds_ticket, adds_tickets};
ghost use Rattle.krb_show_pages.specs.CcachePlaces.{adds_typed_list, components_size, credential_size, credentials_size, each_typed_size, etype_size, header_size};
ghost use Rattle.krb_show_pages.specs.CcachePlaces.{key_places, marks_size, numbers_places, parties_size, principal_size, removal_places, typed_list_size, typed_places, typed_size};

use krb_files::ccache::{
    CcachePrincipalView, CcacheVersion, CcacheView, CredentialView, CredentialsView,
    HeaderFieldsView,
};
use krb_files::fields::{ComponentsView, TypedListView, TypedOctets};
use krb_show::{Place, place_at, places_by_row};
use krb_show_messages::KerberosFormats;
use std::alloc::{AllocError, Global};

/// How many octets authtime, starttime, endtime, renew-till, is-skey and ticket-flags have
/// ("Credential format").
const NUMBERS: usize = 21;

/// How many octets components have, each behind its length ("Principal format").
fn components_size(components: ComponentsView) -> usize
    requires { components_size components < 2 ^ 64 }
    ensures { result ≡ components_size components.entry }
{
    let mut left = components;
    let mut size = 0;
    'components: while let Some(component) = left.next() {
        size += 4 + component.len();
    }
    size
}

/// How many octets a principal has ("Principal format").
fn principal_size(principal: &CcachePrincipalView) -> usize
    requires { principal_size principal.now < 2 ^ 64 }
    ensures { result ≡ principal_size principal.now }
{
    12 + principal.realm().len() + components_size(principal.components())
}

/// Appends the places of components, the first of them with its length behind so many octets.
fn push_components(
    at: usize,
    components: ComponentsView,
    places: &mut Vec<Option<Place>>,
) -> Result<(), AllocError>
    requires { at + components_size components < 2 ^ 64 }
    ensures { OnOk result (adds_components at components.entry places.old.items places.new.items) }
{
    let mut at = at;
    let mut left = components;
    'components: while let Some(component) = left.next() {
        places.push(place_at(at + 4, component.len()))?;
        at = at + 4 + component.len();
    }
    Ok(())
}

/// Appends the places of a principal behind so many octets ("Principal format").
fn push_principal(
    at: usize,
    principal: &CcachePrincipalView,
    places: &mut Vec<Option<Place>>,
) -> Result<(), AllocError>
    requires { at + principal_size principal.now < 2 ^ 64 }
    ensures { OnOk result (adds_principal at principal.now places.old.items places.new.items) }
{
    let realm = principal.realm().len();
    let first = at + 12 + realm;
    let whole = place_at(at, principal_size(principal));
    let list = place_at(first, components_size(principal.components()));
    places.extend_from_slice(&[whole, place_at(at, 4), place_at(at + 12, realm), list])?;
    push_components(first, principal.components(), places)?;
    places.extend_from_slice(&[list, whole])
}

/// How many octets a type of 16 bits has, a length of so many octets, and octets behind these.
fn typed_size(width: usize, typed: &TypedOctets) -> usize
    requires { typed_size width typed.now < 2 ^ 64 }
    ensures { result ≡ typed_size width typed.now }
{
    2 + width + typed.octets().len()
}

/// Appends the places of octets with their type behind so many octets.
fn push_typed(
    width: usize,
    at: usize,
    typed: &TypedOctets,
    places: &mut Vec<Option<Place>>,
) -> Result<(), AllocError>
    requires { at + typed_size width typed.now < 2 ^ 64 }
    ensures { OnOk result (adds (typed_places width at typed.now) places.old.items places.new.items) }
{
    let whole = place_at(at, typed_size(width, typed));
    let octets = place_at(at + 2 + width, typed.octets().len());
    places.extend_from_slice(&[whole, place_at(at, 2), octets, whole])
}

/// How many octets addresses or authorization data have, without their count.
fn each_size(list: TypedListView) -> usize
    requires { each_typed_size 4 list < 2 ^ 64 }
    ensures { result ≡ each_typed_size 4 list.entry }
{
    let mut left = list;
    let mut size = 0;
    'typed: while let Some(typed) = left.next() {
        size += typed_size(4, &typed);
    }
    size
}

/// Appends the places of addresses or authorization data, the first of them behind so many octets.
fn push_each(
    at: usize,
    list: TypedListView,
    places: &mut Vec<Option<Place>>,
) -> Result<(), AllocError>
    requires { at + each_typed_size 4 list < 2 ^ 64 }
    ensures { OnOk result (adds_each_typed 4 at list.entry places.old.items places.new.items) }
{
    let mut at = at;
    let mut left = list;
    'typed: while let Some(typed) = left.next() {
        push_typed(4, at, &typed, places)?;
        at += typed_size(4, &typed);
    }
    Ok(())
}

/// Appends the places of the list of addresses or of authorization data, of which the first is
/// behind so many octets.
fn push_list(
    at: usize,
    list: TypedListView,
    places: &mut Vec<Option<Place>>,
) -> Result<(), AllocError>
    requires { at + each_typed_size 4 list < 2 ^ 64 }
    ensures { OnOk result (adds_typed_list 4 at list.entry places.old.items places.new.items) }
{
    let whole = place_at(at, each_size(list.again()));
    places.push(whole)?;
    push_each(at, list, places)?;
    places.push(whole)?;
    Ok(())
}

/// How many octets the fields of a header have ("Header format").
fn fields_size(fields: HeaderFieldsView) -> usize
    requires { each_typed_size 2 fields < 2 ^ 64 }
    ensures { result ≡ each_typed_size 2 fields.entry }
{
    let mut left = fields;
    let mut size = 0;
    'fields: while let Some(field) = left.next() {
        size += typed_size(2, &field);
    }
    size
}

/// Appends the places of the fields of a header, the first of them behind so many octets.
fn push_fields(
    at: usize,
    fields: HeaderFieldsView,
    places: &mut Vec<Option<Place>>,
) -> Result<(), AllocError>
    requires { at + each_typed_size 2 fields < 2 ^ 64 }
    ensures { OnOk result (adds_each_typed 2 at fields.entry places.old.items places.new.items) }
{
    let mut at = at;
    let mut left = fields;
    'fields: while let Some(field) = left.next() {
        push_typed(2, at, &field, places)?;
        at += typed_size(2, &field);
    }
    Ok(())
}

/// How many octets the header has, with its length; version 3 has none ("Header format").
fn header_size(cache: &CcacheView) -> usize
    requires { header_size cache.now.version cache.now.header < 2 ^ 64 }
    ensures { result ≡ header_size cache.now.version cache.now.header }
{
    match cache.version() {
        CcacheVersion::Three => 0,
        CcacheVersion::Four => 2 + fields_size(cache.header()),
    }
}

/// Appends the places of the header of version 4, whose fields begin behind so many octets.
fn push_header_of_four(
    at: usize,
    cache: &CcacheView,
    places: &mut Vec<Option<Place>>,
) -> Result<(), AllocError>
    requires { at + each_typed_size 2 cache.now.header < 2 ^ 64 }
    ensures { OnOk result (adds_typed_list 2 at cache.now.header places.old.items places.new.items) }
{
    let whole = place_at(at, fields_size(cache.header()));
    places.push(whole)?;
    push_fields(at, cache.header(), places)?;
    places.push(whole)?;
    Ok(())
}

/// Appends the places of the header, which begins behind so many octets; the empty list of version
/// 3 has no octets.
fn push_header(
    at: usize,
    cache: &CcacheView,
    places: &mut Vec<Option<Place>>,
) -> Result<(), AllocError>
    requires { at + header_size cache.now.version cache.now.header < 2 ^ 64 }
    ensures { OnOk result (adds_header cache.now.version at cache.now.header places.old.items places.new.items) }
{
    match cache.version() {
        CcacheVersion::Three => places.extend_from_slice(&[None, None]),
        CcacheVersion::Four => push_header_of_four(at + 2, cache, places),
    }
}

/// How many octets the encryption type of a key has, which stands twice in version 3.
fn etype_size(version: CcacheVersion) -> usize
    ensures { result ≡ etype_size version }
{
    match version {
        CcacheVersion::Three => 4,
        CcacheVersion::Four => 2,
    }
}

/// Appends the places of a key behind so many octets ("Credential format", keyblock).
fn push_key(
    version: CcacheVersion,
    at: usize,
    key: &[u8],
    places: &mut Vec<Option<Place>>,
) -> Result<(), AllocError>
    requires { at + (etype_size version + 4 + length key.now) < 2 ^ 64 }
    ensures { OnOk result (adds (key_places version at key.now) places.old.items places.new.items) }
{
    let behind = etype_size(version) + 4;
    let whole = place_at(at, behind + key.len());
    places.extend_from_slice(&[
        whole,
        place_at(at, 2),
        place_at(at + behind, key.len()),
        whole,
    ])
}

/// How many octets the client, the server and the key have ("Credential format").
fn parties_size(version: CcacheVersion, credential: &CredentialView) -> usize
    requires { parties_size version credential.now < 2 ^ 64 }
    ensures { result ≡ parties_size version credential.now }
{
    principal_size(credential.client())
        + principal_size(credential.server())
        + (etype_size(version) + 4 + credential.key().len())
}

/// Appends the places of the client, the server and the key behind so many octets.
fn push_parties(
    version: CcacheVersion,
    at: usize,
    credential: &CredentialView,
    places: &mut Vec<Option<Place>>,
) -> Result<(), AllocError>
    requires { at + parties_size version credential.now < 2 ^ 64 }
    ensures { OnOk result (adds_parties version at credential.now places.old.items places.new.items) }
{
    let server = at + principal_size(credential.client());
    let key = server + principal_size(credential.server());
    push_principal(at, credential.client(), places)?;
    push_principal(server, credential.server(), places)?;
    push_key(version, key, credential.key(), places)
}

/// How many octets the times, is-skey, the flags, the addresses and the authorization data have
/// ("Credential format").
fn marks_size(credential: &CredentialView) -> usize
    requires { marks_size credential.now < 2 ^ 64 }
    ensures { result ≡ marks_size credential.now }
{
    NUMBERS
        + (4 + each_size(credential.addresses()))
        + (4 + each_size(credential.authorization_data()))
}

/// Appends the places of the times, is-skey and the flags behind so many octets.
fn push_numbers(at: usize, places: &mut Vec<Option<Place>>) -> Result<(), AllocError>
    requires { at + 21 < 2 ^ 64 }
    ensures { OnOk result (adds (numbers_places at) places.old.items places.new.items) }
{
    places.extend_from_slice(&[
        place_at(at, 4),
        place_at(at + 4, 4),
        place_at(at + 8, 4),
        place_at(at + 12, 4),
        place_at(at + 16, 1),
        place_at(at + 17, 4),
    ])
}

/// Appends the places of the times, is-skey, the flags, the addresses and the authorization data
/// behind so many octets.
fn push_marks(
    at: usize,
    credential: &CredentialView,
    places: &mut Vec<Option<Place>>,
) -> Result<(), AllocError>
    requires { at + marks_size credential.now < 2 ^ 64 }
    ensures { OnOk result (adds_marks at credential.now places.old.items places.new.items) }
{
    let addresses = at + 25;
    let data = addresses + (4 + each_size(credential.addresses()));
    push_numbers(at, places)?;
    push_list(addresses, credential.addresses(), places)?;
    push_list(data, credential.authorization_data(), places)
}

/// Appends the places of octets in a ticket's place, which stand behind so many others: those of a
/// Ticket (RFC 4120, 5.3) have the places of its elements.
fn push_ticket(
    alloc: Global,
    at: usize,
    ticket: &[u8],
    places: &mut Vec<Option<Place>>,
) -> Result<(), AllocError>
    ensures { OnOk result (adds_ticket at ticket.now places.old.items places.new.items) }
{
    let inner = places_by_row::<KerberosFormats>(alloc, "Ticket", at, ticket)?;
    places.extend_from_slice(&inner)
}

/// Appends the places of both tickets, the first with its length behind so many octets.
fn push_tickets(
    alloc: Global,
    at: usize,
    credential: &CredentialView,
    places: &mut Vec<Option<Place>>,
) -> Result<(), AllocError>
    requires { at + 8 + length credential.now.ticket < 2 ^ 64 }
    ensures { OnOk result (adds_tickets at credential.now places.old.items places.new.items) }
{
    let second = at + 8 + credential.ticket().len();
    push_ticket(alloc, at + 4, credential.ticket(), places)?;
    push_ticket(alloc, second, credential.second_ticket(), places)
}

/// How many octets a credential has ("Credential format").
fn credential_size(version: CcacheVersion, credential: &CredentialView) -> usize
    requires { credential_size version credential.now < 2 ^ 64 }
    ensures { result ≡ credential_size version credential.now }
{
    parties_size(version, credential)
        + marks_size(credential)
        + 8
        + credential.ticket().len()
        + credential.second_ticket().len()
}

/// Appends no place for that a credential was removed, where it was: it has no octets of its own.
fn push_removal(is_removed: bool, places: &mut Vec<Option<Place>>) -> Result<(), AllocError>
    ensures { OnOk result (adds (removal_places is_removed) places.old.items places.new.items) }
{
    if is_removed {
        places.push(None)?;
    }
    Ok(())
}

/// Appends the places of what a credential has behind so many octets.
fn push_credential_fields(
    alloc: Global,
    version: CcacheVersion,
    at: usize,
    credential: &CredentialView,
    places: &mut Vec<Option<Place>>,
) -> Result<(), AllocError>
    requires { at + credential_size version credential.now < 2 ^ 64 }
    ensures { OnOk result (adds_fields version at credential.now places.old.items places.new.items) }
{
    let marks = at + parties_size(version, credential);
    let tickets = marks + marks_size(credential);
    push_parties(version, at, credential, places)?;
    push_marks(marks, credential, places)?;
    push_tickets(alloc, tickets, credential, places)
}

/// Appends the places of a credential behind so many octets.
fn push_credential(
    alloc: Global,
    version: CcacheVersion,
    at: usize,
    credential: &CredentialView,
    places: &mut Vec<Option<Place>>,
) -> Result<(), AllocError>
    requires { at + credential_size version credential.now < 2 ^ 64 }
    ensures { OnOk result (adds_credential version at credential.now places.old.items places.new.items) }
{
    let whole = place_at(at, credential_size(version, credential));
    places.push(whole)?;
    push_removal(credential.is_removed(), places)?;
    push_credential_fields(alloc, version, at, credential, places)?;
    places.push(whole)?;
    Ok(())
}

/// Appends the places of credentials, the first of them behind so many octets.
fn push_credentials(
    alloc: Global,
    version: CcacheVersion,
    at: usize,
    credentials: CredentialsView,
    places: &mut Vec<Option<Place>>,
) -> Result<(), AllocError>
    requires { at + credentials_size version credentials < 2 ^ 64 }
    ensures { OnOk result (adds_credentials version at credentials.entry places.old.items places.new.items) }
{
    let mut at = at;
    let mut left = credentials;
    'credentials: while let Some(credential) = left.next() {
        push_credential(alloc, version, at, &credential, places)?;
        at += credential_size(version, &credential);
    }
    Ok(())
}

/// Appends the places of the list of credentials, which is all octets behind so many.
fn push_credential_list(
    alloc: Global,
    at: usize,
    size: usize,
    cache: &CcacheView,
    places: &mut Vec<Option<Place>>,
) -> Result<(), AllocError>
    requires size { size ≡ credentials_size cache.now.version cache.now.credentials }
    requires room { at + size < 2 ^ 64 }
    ensures { OnOk result (adds_credential_list cache.now.version at cache.now.credentials places.old.items places.new.items) }
{
    let list = place_at(at, size);
    places.push(list)?;
    push_credentials(alloc, cache.version(), at, cache.credentials(), places)?;
    places.push(list)?;
    Ok(())
}

/// Appends the places of what a cache of so many octets has.
fn push_content(
    alloc: Global,
    size: usize,
    cache: &CcacheView,
    places: &mut Vec<Option<Place>>,
) -> Result<(), AllocError>
    requires { ccache_size cache.now ≡ size }
    ensures { OnOk result (adds_content cache.now places.old.items places.new.items) }
{
    let principal = 2 + header_size(cache);
    let credentials = principal + principal_size(cache.principal());
    push_header(2, cache, places)?;
    push_principal(principal, cache.principal(), places)?;
    push_credential_list(alloc, credentials, size - credentials, cache, places)
}

/// Appends the places of a cache of so many octets.
fn push_ccache(
    alloc: Global,
    size: usize,
    cache: &CcacheView,
    places: &mut Vec<Option<Place>>,
) -> Result<(), AllocError>
    requires { ccache_size cache.now ≡ size }
    ensures { OnOk result (adds_ccache size cache.now places.old.items places.new.items) }
{
    let whole = place_at(0, size);
    places.extend_from_slice(&[whole, place_at(1, 1)])?;
    push_content(alloc, size, cache, places)?;
    places.push(whole)?;
    Ok(())
}

/// The places of the page of a cache of so many octets.
fn ccache_places(
    alloc: Global,
    size: usize,
    cache: &CcacheView,
) -> Result<Vec<Option<Place>>, AllocError>
    requires { ccache_size cache.now ≡ size }
    ensures { IfOk result (λ places. adds_ccache size cache.now [] places.items) }
{
    let mut places = Vec::new(alloc);
    push_ccache(alloc, size, cache, &mut places)?;
    Ok(places)
}

/// Where in a credential cache what each token of `page_of_ccache` tells stands, in the order of
/// the tokens (MIT Kerberos, "Credential cache file format"): lengths and counts are in no place
/// but those of the lists and structs around them. A ticket has the places of its elements, and
/// `removed` none, as the header of version 3. For `place_tokens`. Octets that are no cache have no
/// places. The only error is an allocation failure, and only of octets that are a cache.
pub fn places_of_ccache(alloc: Global, octets: &[u8]) -> Result<Vec<Option<Place>>, AllocError>
    ensures places { IfOk result (λ places. AreCcachePlaces octets.now places.items) }
    ensures refused { OnErr result ((cache : Ccache) × CcacheIs octets.now cache) }
{
    match CcacheView::new(octets) {
        Ok(cache) => ccache_places(alloc, octets.len(), &cache),
        Err(_) => Ok(Vec::new(alloc)),
    }
}

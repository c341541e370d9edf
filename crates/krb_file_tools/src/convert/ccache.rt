//! From a credential cache to a KRB-CRED in the clear (RFC 4120, 5.8.1).

ghost use Rattle.std.specs.Prelude.{◌≡◌, ◌<◌, ℕ, List, None, [], filter, length, nat_lt, pos, MatchBool, IfOk, IfErr};
ghost use Rattle.std.specs.List.{list_any};
ghost use Rattle.krb_files.specs.Ccache.{Ccache, CcacheIs};
ghost use Rattle.krb_file_tools.specs.Answers.{IsMemoryOr};
ghost use Rattle.krb_file_tools.specs.Back.{AreEntriesOf, CcacheRefusal, CredentialError, FirstBroken, IsEntryOf, IsKirbiOf, IsMessageOf};
ghost use Rattle.krb_file_tools.specs.Back.{ccache_fields, ccache_has, credential_has, differs, differs_from_first};
ghost use Rattle.krb_file_tools.specs.Tickets.{tickets_of};
ghost use Rattle.krb_file_tools.specs.Whole.{IsValue};
ghost use Rattle.krb_file_tools.specs.declared.convert.error.ConvertError.TheVariants as errors;

use crate::convert::error::ConvertError;
use crate::convert::field::{Converted, Field};
use crate::convert::form::{Form, read};
use crate::convert::message::info_of;
use crate::convert::vectors::append;
use crate::tickets::{is_configuration, is_ticket};
use krb_der::{
    ApplicationTag, Asn1SequenceOf, Der, DerEncode, ExplicitContextTag0, ExplicitContextTag1,
    ExplicitContextTag2, ExplicitContextTag3, IntegerAsn1, OctetStringAsn1, Optional, to_vec,
};
use krb_enc_parts::data_types::{EncKrbCredPart, EncKrbCredPartInner, KrbCredInfo};
use krb_files::ccache::{CcachePrincipalView, CcacheView, CredentialView};
use krb_messages::messages::{KrbCred, KrbCredInner};
use krb_types::data_types::{EncryptedData, Ticket};
use std::alloc::{AllocError, Global};

/// What of a cache may have no place in a KRB-CRED.
const CCACHE_FIELDS: [Field; 7] = [
    Field::Header,
    Field::DefaultPrincipal,
    Field::Configuration,
    Field::Removed,
    Field::IsSkey,
    Field::Authdata,
    Field::SecondTicket,
];

/// The tickets of a cache, in their order.
fn tickets_of<'a>(
    alloc: Global,
    cache: &CcacheView<'a>,
) -> Result<Vec<CredentialView<'a>>, AllocError>
    ensures { IfOk result (λ v. v.items ≡ tickets_of cache.now.credentials) }
{
    cache
        .credentials()
        .filter(|credential| is_ticket(credential))
        .collect(alloc)
}

/// The ticket of a credential and what goes along with it. The first rule that is broken: `Name`, `Time`, `Ticket`.
fn entry_of<T: Der + Drop>(
    alloc: Global,
    credential: &CredentialView,
) -> Result<(T, KrbCredInfo), ConvertError>
    ensures found { IfOk result (λ entry. IsEntryOf T.DerEncode credential.now entry.0 entry.1) }
    ensures rejected { IfErr result (λ e. IsMemoryOr e (CredentialError T.DerEncode credential.now e)) }
{
    let info = info_of(alloc, credential)?;
    match read(alloc, Form::Ticket, credential.ticket()) {
        Ok(ticket) => Ok((ticket, info)),
        Err(error) => {
            drop(info);
            Err(error)
        }
    }
}

/// Whether there is no credential.
fn is_none(credentials: &[CredentialView]) -> bool
    ensures { MatchBool result (credentials.now ≡ []) (0 < length credentials.now) }
{
    credentials.is_empty()
}

/// The tickets of credentials and what goes along with them.
#[derive(Drop)]
struct Entries<T> {
    tickets: Vec<T>,
    infos: Vec<KrbCredInfo>,
}

/// The tickets of credentials and what goes along with them. The first rule that is broken: of each, from the first, `Name`, `Time`, `Ticket`.
fn entries_of<T: Der + Drop>(
    alloc: Global,
    credentials: &[CredentialView],
) -> Result<Entries<T>, ConvertError>
    ensures found { IfOk result (λ entries. AreEntriesOf T.DerEncode credentials.now entries.tickets.items entries.infos.items) }
    ensures rejected { IfErr result (λ e. IsMemoryOr e (FirstBroken T.DerEncode credentials.now e)) }
{
    let mut tickets = Vec::new(alloc);
    let mut infos = Vec::new(alloc);
    for credential in credentials {
        let (ticket, info) = entry_of(alloc, credential)?;
        append(&mut infos, info)?;
        append(&mut tickets, ticket)?;
    }
    Ok(Entries { tickets, infos })
}

/// The part of a KRB-CRED of what goes along with its tickets alone.
fn part_of(infos: Vec<KrbCredInfo>) -> EncKrbCredPart
    ensures infos { result.ticket_info ≡ infos.items }
    ensures no_numbers { (result.nonce.0 ≡ None) × (result.timestamp.0 ≡ None) × (result.usec.0 ≡ None) }
    ensures no_addresses { (result.s_address.0 ≡ None) × (result.r_address.0 ≡ None) }
{
    ApplicationTag(EncKrbCredPartInner {
        ticket_info: ExplicitContextTag0::from(Asn1SequenceOf(infos)),
        nonce: Optional(None),
        timestamp: Optional(None),
        usec: Optional(None),
        s_address: Optional(None),
        r_address: Optional(None),
    })
}

/// Octets in the clear, in the place of a ciphertext (RFC 4120, 5.8.1).
fn clear_of(alloc: Global, octets: Vec<u8>) -> EncryptedData
    ensures etype { result.etype ≡ pos 0 }
    ensures no_kvno { result.kvno.0 ≡ None }
    ensures cipher { result.cipher ≡ octets.items }
{
    EncryptedData {
        etype: ExplicitContextTag0::from(IntegerAsn1::from_u32(alloc, 0)),
        kvno: Optional(None),
        cipher: ExplicitContextTag2::from(OctetStringAsn1(octets)),
    }
}

/// The KRB-CRED of tickets and a part.
fn message_of(alloc: Global, tickets: Vec<Ticket>, enc_part: EncryptedData) -> KrbCred
    ensures pvno { result.pvno ≡ pos 5 }
    ensures msg_type { result.msg_type ≡ pos 22 }
    ensures tickets { result.tickets ≡ tickets.items }
    ensures part { result.enc_part ≡ enc_part }
{
    ApplicationTag(KrbCredInner {
        pvno: ExplicitContextTag0::from(IntegerAsn1::from_u32(alloc, 5)),
        msg_type: ExplicitContextTag1::from(IntegerAsn1::from_u32(alloc, 22)),
        tickets: ExplicitContextTag2::from(Asn1SequenceOf(tickets)),
        enc_part: ExplicitContextTag3::from(enc_part),
    })
}

/// The encoding of a value, which is let go.
fn octets_of<T: DerEncode + Drop>(alloc: Global, value: T) -> Result<Vec<u8>, AllocError>
    ensures { IfOk result (λ v. IsValue T.DerEncode v.items value) }
{
    match to_vec(alloc, &value) {
        Ok(octets) => Ok(octets),
        Err(_) => Err(AllocError),
    }
}

/// The KRB-CRED of tickets and what goes along with them, encoded.
fn kirbi_of(alloc: Global, entries: Entries<Ticket>) -> Result<Vec<u8>, AllocError>
    ensures { IfOk result (λ v. (k : _) × (p : _) × IsMessageOf ⟦<EncKrbCredPart as DerEncode>⟧ entries.tickets.items entries.infos.items k p
        × IsValue ⟦<KrbCred as DerEncode>⟧ v.items k) }
{
    let part = part_of(entries.infos);
    let clear = clear_of(alloc, octets_of(alloc, part)?);
    let message = message_of(alloc, entries.tickets, clear);
    let octets = octets_of(alloc, message)?;
    Ok(octets)
}

/// Whether two principals differ.
fn differs(
    alloc: Global,
    principal: &CcachePrincipalView,
    other: &CcachePrincipalView,
) -> Result<bool, AllocError>
    ensures { IfOk result (λ b. b ≡ differs principal.now other.now) }
{
    let collected = other.collect(alloc)?;
    let parts = collected.parts();
    Ok(
        !(principal.name_type() == parts.name_type
            && principal.principal().is_same(&parts.principal)),
    )
}

/// Whether a default principal is not the client of the first credential.
fn differs_from_first(
    alloc: Global,
    principal: &CcachePrincipalView,
    credentials: &[CredentialView],
) -> Result<bool, AllocError>
    ensures { IfOk result (λ b. b ≡ differs_from_first principal.now credentials.now) }
{
    match credentials.first() {
        Some(first) => differs(alloc, principal, first.client()),
        None => Ok(false),
    }
}

/// Whether a header has a field.
fn has_header(cache: &CcacheView) -> bool
    ensures { result ≡ nat_lt 0 (length cache.now.header) }
{
    let mut header = cache.header();
    header.next().is_some()
}

/// All credentials, in their order.
fn credentials_of<'a>(
    alloc: Global,
    cache: &CcacheView<'a>,
) -> Result<Vec<CredentialView<'a>>, AllocError>
    ensures { IfOk result (λ v. v.items ≡ cache.now.credentials) }
{
    cache.credentials().collect(alloc)
}

/// Whether a credential has authorization data of its own.
fn is_authorized(credential: &CredentialView) -> bool
    ensures { result ≡ nat_lt 0 (length credential.now.authorization_data) }
{
    let mut data = credential.authorization_data();
    data.next().is_some()
}

/// Whether a credential has this, for which a KRB-CRED has no place.
fn credential_has(credential: &CredentialView, field: Field) -> bool
    ensures { result ≡ credential_has field credential.now }
{
    match field {
        Field::Configuration => is_configuration(credential),
        Field::Removed => credential.is_removed(),
        Field::IsSkey => credential.is_skey() != 0,
        Field::Authdata => is_authorized(credential),
        Field::SecondTicket => !credential.second_ticket().is_empty(),
        _ => false,
    }
}

/// Whether one of the credentials has this.
fn any_has(credentials: &[CredentialView], field: Field) -> bool
    ensures { result ≡ list_any (credential_has field) credentials.now }
{
    credentials
        .iter()
        .any(|credential| credential_has(credential, field))
}

/// Whether a cache has this, for which a KRB-CRED has no place.
fn has(
    cache: &CcacheView,
    all: &[CredentialView],
    kept: &[CredentialView],
    other_client: bool,
    field: Field,
) -> bool
    requires all { all.now ≡ cache.now.credentials }
    requires kept { kept.now ≡ tickets_of cache.now.credentials }
    requires other { other_client ≡ differs_from_first cache.now.principal kept.now }
    ensures { result ≡ ccache_has cache.now field }
{
    match field {
        Field::Header => has_header(cache),
        Field::DefaultPrincipal => other_client,
        Field::Configuration | Field::Removed => any_has(all, field),
        _ => any_has(kept, field),
    }
}

/// The fields, of those given, that a cache has and a KRB-CRED has no place for. `all` are the cache's
/// credentials and `kept` those that are tickets; `other_client` says that the client of a ticket is
/// not the cache's principal.
fn fields_of(
    alloc: Global,
    fields: &[Field],
    cache: &CcacheView,
    all: &[CredentialView],
    kept: &[CredentialView],
    other_client: bool,
) -> Result<Vec<Field>, AllocError>
    requires all { all.now ≡ cache.now.credentials }
    requires kept { kept.now ≡ tickets_of cache.now.credentials }
    requires other { other_client ≡ differs_from_first cache.now.principal kept.now }
    ensures { IfOk result (λ v. v.items ≡ filter (ccache_has cache.now) fields.now) }
{
    fields
        .iter()
        .copied()
        .filter(|field| has(cache, all, kept, other_client, *field))
        .collect(alloc)
}

/// What a cache has, and a KRB-CRED has no place for.
fn left_out_of(
    alloc: Global,
    cache: &CcacheView,
    kept: &[CredentialView],
) -> Result<Vec<Field>, AllocError>
    requires { kept.now ≡ tickets_of cache.now.credentials }
    ensures { IfOk result (λ v. v.items ≡ filter (ccache_has cache.now) ccache_fields) }
{
    let other_client = differs_from_first(alloc, cache.principal(), kept)?;
    let all = credentials_of(alloc, cache)?;
    fields_of(alloc, &CCACHE_FIELDS, cache, &all, kept, other_client)
}

/// The KRB-CRED of a cache of these tickets. The first rule that is broken: `NoCredential`; of each
/// credential, from the first, `Name`, `Time`, `Ticket`.
fn of_tickets(
    alloc: Global,
    cache: &CcacheView,
    kept: &[CredentialView],
) -> Result<Converted, ConvertError>
    requires { kept.now ≡ tickets_of cache.now.credentials }
    ensures found { IfOk result (λ c. (octets : List ℕ) → CcacheIs octets cache.now → IsKirbiOf ⟦<KrbCred as DerEncode>⟧
        ⟦<EncKrbCredPart as DerEncode>⟧ ⟦<Ticket as DerEncode>⟧ octets c.octets.items c.left_out.items) }
    ensures rejected { IfErr result (λ e. (octets : List ℕ) → CcacheIs octets cache.now
        → IsMemoryOr e (CcacheRefusal ⟦<Ticket as DerEncode>⟧ octets e)) }
{
    if is_none(kept) {
        return Err(ConvertError::NoCredential);
    }
    let entries = entries_of(alloc, kept)?;
    let octets = kirbi_of(alloc, entries)?;
    let left_out = left_out_of(alloc, cache, kept)?;
    Ok(Converted { octets, left_out })
}

/// The KRB-CRED in the clear, as a `.kirbi` is, of a credential cache of version 3 or 4 (MIT Kerberos,
/// "Credential cache file format"): its enc-part has an etype of 0, and its cipher is the encoding of
/// an EncKrbCredPart (RFC 4120, 5.8.1). Each credential but configuration entries and removed ones
/// (`CredentialView::is_config`, `is_removed`) becomes a ticket and what goes along with it: pname and
/// prealm are its client, sname and srealm its server; a time of 0 is absent, whichever it is; flags
/// are 32 bits, and the most significant is bit 0; caddr is absent where there are no addresses.
/// Numbers of 16 and 32 bits are read as two's complement, where RFC 4120 has an Int32.
///
/// The first rule that is broken is the error, in this order: `Ccache`, `NoCredential`; of each
/// credential, from the first, `Name` of the client or the server, `Time` where no time is so many
/// seconds after 1970, `Ticket`. `OutOfMemory` where an allocation fails, and only where the octets
/// are a cache.
pub fn kirbi_of_ccache(alloc: Global, octets: &[u8]) -> Result<Converted, ConvertError>
    ensures found { IfOk result (λ c. IsKirbiOf ⟦<KrbCred as DerEncode>⟧ ⟦<EncKrbCredPart as DerEncode>⟧ ⟦<Ticket as DerEncode>⟧
        octets.now c.octets.items c.left_out.items) }
    ensures rejected { IfErr result (λ e. IsMemoryOr e (CcacheRefusal ⟦<Ticket as DerEncode>⟧ octets.now e)) }
    ensures memory { IfErr result (λ e. e ≡ errors.OutOfMemory → (cache : Ccache) × CcacheIs octets.now cache) }
{
    let cache = match CcacheView::new(octets) {
        Ok(cache) => cache,
        Err(why) => return Err(ConvertError::Ccache(why)),
    };
    let kept = tickets_of(alloc, &cache)?;
    of_tickets(alloc, &cache, &kept)
}

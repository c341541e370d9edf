//! From a KRB-CRED in the clear (RFC 4120, 5.8.1) to a credential cache.

ghost use Rattle.std.specs.Prelude.{◌≡◌, filter, length, map, IfOk, IfErr};
ghost use Rattle.std.specs.List.{list_any};
ghost use Rattle.krb_files.specs.Ccache.{CcacheIs, FitsCcache};
ghost use Rattle.krb_files.specs.CcacheWritten.{ccache_from as ccache_value, credential_from as parts_value};
ghost use Rattle.krb_files.specs.declared.ccache.view.CcacheVersion.TheVariants.{Four};
ghost use Rattle.krb_file_tools.specs.Answers.{Answers, IsMemoryOr};
ghost use Rattle.krb_file_tools.specs.Fields.{has_empty_addresses, has_first_second};
ghost use Rattle.krb_file_tools.specs.Kirbi.{cache_from, cache_with, credential_from, each_pair_of, paired_from};
ghost use Rattle.krb_file_tools.specs.Whole.{ClearError, IsCacheBy, IsCacheFrom, IsCacheOf, IsClear, IsMade, IsUnwritten, KirbiRefusal, MessageError};
ghost use Rattle.krb_file_tools.specs.declared.convert.error.ConvertError.TheVariants as errors;
ghost use Rattle.krb_file_tools.specs.Whole.{credential_is, info_has, kirbi_fields, kirbi_has};

use crate::convert::credential::{MessageCredential, credential_of};
use crate::convert::error::ConvertError;
use crate::convert::field::{Converted, Field};
use crate::convert::form::{Form, read};
use crate::convert::numbers::{has_long_flags, has_other_length, is_first_second};
use crate::convert::vectors::append;
use krb_der::{Der, DerEncode, ExplicitContextTag, IntegerAsn1, Optional, to_vec};
use krb_enc_parts::data_types::{EncKrbCredPart, EncKrbCredPartInner, KrbCredInfo};
use krb_files::ccache::{CcacheVersion, CcacheWriteError, NewCcache, NewCredential, write};
use krb_messages::messages::{KrbCred, KrbCredInner};
use krb_types::data_types::{EncryptedData, HostAddresses, Ticket, TicketInner};
use krb_types::view::Tagged;
use std::alloc::{AllocError, Global};

/// What of a KRB-CRED may have no place in a cache.
const KIRBI_FIELDS: [Field; 15] = [
    Field::Kvno,
    Field::Flags,
    Field::Nonce,
    Field::Timestamp,
    Field::Usec,
    Field::SAddress,
    Field::RAddress,
    Field::NoSrealm,
    Field::NoSname,
    Field::NoFlags,
    Field::FlagsLength,
    Field::FirstSecond,
    Field::EmptyCaddr,
    Field::AsConfiguration,
    Field::AsRemoved,
];

/// The credential of a ticket and what goes along with it.
fn credential_at<'a, T: DerEncode + Tagged<Value = TicketInner>>(
    alloc: Global,
    ticket: &'a T,
    info: &'a KrbCredInfo,
) -> Result<MessageCredential<'a>, ConvertError>
    ensures { Answers (λ c. c) result (credential_from (T.enc ticket.now) (T.value ticket.now) info.now) }
{
    match to_vec(alloc, ticket) {
        Ok(octets) => credential_of(alloc, octets, ticket.get(), info),
        Err(_) => Err(ConvertError::OutOfMemory),
    }
}

/// The credentials of tickets and what goes along with them.
fn credentials_of<'a, T: DerEncode + Tagged<Value = TicketInner>>(
    alloc: Global,
    tickets: &'a [T],
    infos: &'a [KrbCredInfo],
) -> Result<Vec<MessageCredential<'a>>, ConvertError>
    requires { length tickets.now ≡ length infos.now }
    ensures { Answers (λ v. v.items) result
        (each_pair_of (λ ticket info. credential_from (T.enc ticket) (T.value ticket) info) tickets.now infos.now) }
{
    let mut credentials = Vec::new(alloc);
    for (index, ticket) in tickets.iter().enumerate() {
        let credential = credential_at(alloc, ticket, &infos[index])?;
        append(&mut credentials, credential)?;
    }
    Ok(credentials)
}

/// Credentials, to be written.
fn parts_of<'a>(
    alloc: Global,
    credentials: &'a [MessageCredential],
) -> Result<Vec<NewCredential<'a>>, AllocError>
    ensures { IfOk result (λ v. map parts_value v.items ≡ credentials.now) }
{
    let mut parts = Vec::new(alloc);
    for credential in credentials {
        parts.push(credential.parts())?;
    }
    Ok(parts)
}

/// The octets of a cache of version 4. `TooLong` where a length or a count does not fit 32 bits.
fn octets_of(alloc: Global, cache: &NewCcache) -> Result<Vec<u8>, ConvertError>
    requires { cache.now.version ≡ Four }
    ensures found { IfOk result (λ v. CcacheIs v.items (ccache_value cache.now)) }
    ensures rejected { IfErr result (λ e. IsMemoryOr e ((e ≡ errors.TooLong) × (FitsCcache (ccache_value cache.now) → ⊥))) }
{
    match write(alloc, cache) {
        Ok(octets) => Ok(octets),
        Err(CcacheWriteError::OutOfMemory) => Err(ConvertError::OutOfMemory),
        Err(_) => Err(ConvertError::TooLong),
    }
}

/// The octets of the cache of these credentials, whose default principal is the client of the first. `NoTicket` where there is none; `TooLong` where a
/// length or a count does not fit 32 bits.
fn cache_octets(alloc: Global, credentials: &[MessageCredential]) -> Result<Vec<u8>, ConvertError>
    ensures found { IfOk result (λ v. IsMade v.items credentials.now (cache_with credentials.now)) }
    ensures rejected { IfErr result (λ e. IsMemoryOr e (IsUnwritten e (cache_with credentials.now))) }
{
    let Some(first) = credentials.first() else {
        return Err(ConvertError::NoTicket);
    };
    let parts = parts_of(alloc, credentials)?;
    let cache = NewCcache {
        version: CcacheVersion::Four,
        header: &[],
        principal: first.client().parts(),
        credentials: &parts,
    };
    octets_of(alloc, &cache)
}

/// The credentials of tickets and what goes along with them; `TicketInfo` where there are not as many.
#[tactic(auto, unfolding(crate::specs::Kirbi::paired_from))]
fn paired_of<'a>(
    alloc: Global,
    tickets: &'a [Ticket],
    infos: &'a [KrbCredInfo],
) -> Result<Vec<MessageCredential<'a>>, ConvertError>
    ensures { Answers (λ v. v.items) result (paired_from ⟦<Ticket as DerEncode>⟧.enc tickets.now infos.now) }
{
    if tickets.len() != infos.len() {
        return Err(ConvertError::TicketInfo);
    }
    credentials_of(alloc, tickets, infos)
}

/// The part of a message of these numbers that is in the clear. The first rule that is broken: `Pvno`, `MsgType`, `Sealed`, `Part`.
fn part_of<P: Der + Drop>(
    alloc: Global,
    pvno: &IntegerAsn1,
    msg_type: &IntegerAsn1,
    etype: &IntegerAsn1,
    cipher: &[u8],
) -> Result<P, ConvertError>
    ensures found { IfOk result (IsClear P.DerEncode pvno.now msg_type.now etype.now cipher.now) }
    ensures rejected { IfErr result (λ e. IsMemoryOr e (ClearError P.DerEncode pvno.now msg_type.now etype.now cipher.now e)) }
{
    if !pvno.is_number(5) {
        return Err(ConvertError::Pvno);
    }
    if !msg_type.is_number(22) {
        return Err(ConvertError::MsgType);
    }
    if !etype.is_number(0) {
        return Err(ConvertError::Sealed);
    }
    read(alloc, Form::Part, cipher)
}

/// Whether a time is the first second of 1970.
fn has_first_second(info: &KrbCredInfo) -> bool
    ensures { result ≡ has_first_second info.now }
{
    is_first_second(&info.auth_time)
        || is_first_second(&info.start_time)
        || is_first_second(&info.end_time)
        || is_first_second(&info.renew_till)
}

/// Whether addresses are there, and there is none.
fn has_empty_addresses<N>(
    addresses: &Optional<Option<ExplicitContextTag<HostAddresses, N>>>,
) -> bool
    ensures { result ≡ has_empty_addresses addresses.now.0 }
{
    match &addresses.0 {
        Some(addresses) => addresses.0.0.as_slice().is_empty(),
        None => false,
    }
}

/// Whether what goes along with a ticket has this, for which a cache has no place, or which stands
/// there in another way.
fn info_has(info: &KrbCredInfo, field: Field) -> bool
    ensures { result ≡ info_has field info.now }
{
    match field {
        Field::Flags => has_long_flags(&info.flags),
        Field::NoSrealm => info.srealm.0.is_none(),
        Field::NoSname => info.sname.0.is_none(),
        Field::NoFlags => info.flags.0.is_none(),
        Field::FlagsLength => has_other_length(&info.flags),
        Field::FirstSecond => has_first_second(info),
        Field::EmptyCaddr => has_empty_addresses(&info.caddr),
        _ => false,
    }
}

/// Whether what goes along with one of the tickets has this.
fn any_info_has(infos: &[KrbCredInfo], field: Field) -> bool
    ensures { result ≡ list_any (info_has field) infos.now }
{
    infos.iter().any(|info| info_has(info, field))
}

/// Whether a credential is in a cache as this: a configuration entry, or one that was removed.
fn credential_is(credential: &MessageCredential, field: Field) -> bool
    ensures { result ≡ credential_is field credential.now }
{
    match field {
        Field::AsConfiguration => credential.is_configuration(),
        Field::AsRemoved => credential.is_removed(),
        _ => false,
    }
}

/// Whether one of the credentials is in a cache as this.
fn any_is(made: &[MessageCredential], field: Field) -> bool
    ensures { result ≡ list_any (credential_is field) made.now }
{
    made.iter()
        .any(|credential| credential_is(credential, field))
}

/// Whether a KRB-CRED has this, for which the cache of these credentials has no place, or which
/// stands there in another way.
fn has(
    message: &KrbCredInner,
    part: &EncKrbCredPartInner,
    made: &[MessageCredential],
    field: Field,
) -> bool
    ensures { result ≡ kirbi_has message.now part.now made.now field }
{
    match field {
        Field::Kvno => message.enc_part.0.kvno.0.is_some(),
        Field::Nonce => part.nonce.0.is_some(),
        Field::Timestamp => part.timestamp.0.is_some(),
        Field::Usec => part.usec.0.is_some(),
        Field::SAddress => part.s_address.0.is_some(),
        Field::RAddress => part.r_address.0.is_some(),
        Field::AsConfiguration | Field::AsRemoved => any_is(made, field),
        _ => any_info_has(part.ticket_info.0.0.as_slice(), field),
    }
}

/// Those of these fields that a KRB-CRED has, and the cache of these credentials has no place for, or in another way.
fn left_out_of(
    alloc: Global,
    fields: &[Field],
    message: &KrbCredInner,
    part: &EncKrbCredPartInner,
    made: &[MessageCredential],
) -> Result<Vec<Field>, AllocError>
    ensures { IfOk result (λ v. v.items ≡ filter (kirbi_has message.now part.now made.now) fields.now) }
{
    fields
        .iter()
        .copied()
        .filter(|field| has(message, part, made, *field))
        .collect(alloc)
}

/// The cache of these credentials, of a message and its part.
fn of_credentials(
    alloc: Global,
    message: &KrbCredInner,
    part: &EncKrbCredPartInner,
    made: &[MessageCredential],
) -> Result<Converted, ConvertError>
    ensures found { IfOk result (λ c. IsMade c.octets.items made.now (cache_with made.now)
        × (c.left_out.items ≡ filter (kirbi_has message.now part.now made.now) kirbi_fields)) }
    ensures rejected { IfErr result (λ e. IsMemoryOr e (IsUnwritten e (cache_with made.now))) }
{
    let octets = cache_octets(alloc, made)?;
    let left_out = left_out_of(alloc, &KIRBI_FIELDS, message, part, made)?;
    Ok(Converted { octets, left_out })
}

/// The cache of a message and its part.
fn of_part(
    alloc: Global,
    message: &KrbCredInner,
    part: &EncKrbCredPartInner,
) -> Result<Converted, ConvertError>
    ensures found { IfOk result (λ c. IsCacheBy ⟦<Ticket as DerEncode>⟧.enc message.now part.now c.octets.items c.left_out.items) }
    ensures rejected { IfErr result (λ e. IsMemoryOr e
        (IsUnwritten e (cache_from ⟦<Ticket as DerEncode>⟧.enc message.now.tickets part.now.ticket_info))) }
{
    let tickets = message.tickets.0.0.as_slice();
    let infos = part.ticket_info.0.0.as_slice();
    let made = paired_of(alloc, tickets, infos)?;
    of_credentials(alloc, message, part, &made)
}

/// What stands in the place of a ciphertext.
fn cipher_of(sealed: &EncryptedData) -> &[u8]
    ensures { result.now ≡ sealed.now.cipher }
{
    &sealed.cipher.0.0
}

/// The cache of a message.
fn of_message(alloc: Global, message: &KrbCredInner) -> Result<Converted, ConvertError>
    ensures found { IfOk result (λ c. IsCacheFrom ⟦<EncKrbCredPart as DerEncode>⟧ ⟦<Ticket as DerEncode>⟧.enc
        message.now c.octets.items c.left_out.items) }
    ensures rejected { IfErr result (λ e. IsMemoryOr e (MessageError ⟦<EncKrbCredPart as DerEncode>⟧ ⟦<Ticket as DerEncode>⟧.enc message.now e)) }
{
    let pvno = message.pvno.get();
    let msg_type = message.msg_type.get();
    let sealed = message.enc_part.get();
    let etype = sealed.etype.get();
    let cipher = cipher_of(sealed);
    let part: EncKrbCredPart = part_of(alloc, pvno, msg_type, etype, cipher)?;
    let converted = of_part(alloc, message, part.get());
    drop(part);
    converted
}

/// The credential cache, of version 4 and with an empty header, of a KRB-CRED in the clear, as a `.kirbi` is: the octets are the encoding of a KRB-CRED
/// whose enc-part has an etype of 0 and whose cipher is the encoding of an EncKrbCredPart (RFC 4120, 5.8.1). Each ticket becomes a credential: its
/// client is pname and prealm; its server sname and srealm, or what the ticket has where they are absent; its times are seconds since 1970, 0 where
/// absent (and so the first second of 1970 reads as absent); bit 0 of its flags is the most significant; its ticket is the ticket's encoding. Numbers
/// that may be negative are written as two's complement. The default principal is the client of the first.
///
/// What of it does not come back from this cache is told (`Converted::left_out`): what a cache has
/// no place for, that srealm, sname or flags are absent, flags of other than 32 bits, a time of
/// 1970-01-01T00:00:00Z, an empty caddr, and a ticket that is in the cache as a configuration entry
/// or as one that was removed (`CredentialView::is_config`, `is_removed`).
///
/// The first rule that is broken is the error, in this order: `Kirbi`, `Pvno`, `MsgType`, `Sealed`, `Part`, `TicketInfo`; of each ticket, from the first,
/// `NoPrealm`, `NoPname`, `NameType` of the client, `NameType` of the server, `KeyType`, `Time`, `AddressType`; then `NoTicket` and `TooLong`.
/// `OutOfMemory` where an allocation fails.
pub fn ccache_of_kirbi(alloc: Global, octets: &[u8]) -> Result<Converted, ConvertError>
    ensures found { IfOk result (λ c. IsCacheOf ⟦<KrbCred as DerEncode>⟧ ⟦<EncKrbCredPart as DerEncode>⟧ ⟦<Ticket as DerEncode>⟧.enc
        octets.now c.octets.items c.left_out.items) }
    ensures rejected { IfErr result (λ e. IsMemoryOr e
        (KirbiRefusal ⟦<KrbCred as DerEncode>⟧ ⟦<EncKrbCredPart as DerEncode>⟧ ⟦<Ticket as DerEncode>⟧.enc octets.now e)) }
{
    let message: KrbCred = read(alloc, Form::Kirbi, octets)?;
    let converted = of_message(alloc, message.get());
    drop(message);
    converted
}

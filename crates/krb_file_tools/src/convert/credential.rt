//! A ticket and what goes along with it (RFC 4120, 5.8.1) as a credential of a cache.

ghost use Rattle.std.specs.Prelude.{◌≡◌, Ok, [], map, IfOk};
ghost use Rattle.krb_files.specs.CcacheWritten.{credential_from as parts_value};
ghost use Rattle.krb_files.specs.Config.{is_removed};
ghost use Rattle.krb_files.specs.FieldReading.{Gives};
ghost use Rattle.krb_file_tools.specs.Tickets.{is_configuration};
ghost use Rattle.krb_file_tools.specs.Answers.{Answers};
ghost use Rattle.krb_file_tools.specs.Kirbi.{address_from, addresses_from, credential_from, each_of, or_error, complement_of as complement};
ghost use Rattle.krb_file_tools.specs.Kirbi.{parties_from, rest_from, times_from};
ghost use Rattle.krb_file_tools.specs.declared.convert.error.ConvertError.TheVariants as errors;

use crate::convert::error::ConvertError;
use crate::convert::names::{MessagePrincipal, client_of, present_or, principal_of};
use crate::convert::numbers::{complement_of, flags_number, seconds_of};
use krb_der::{ExplicitContextTag, IntegerAsn1, Optional};
use krb_enc_parts::data_types::KrbCredInfo;
use krb_files::ccache::{NewCredential, Times};
use krb_files::fields::TypedOctets;
use krb_types::data_types::{HostAddress, HostAddresses, TicketInner};
use std::alloc::{AllocError, Global};
use std::marker::Model;

/// A credential of a message: slices of the message's texts and octets, and the octets of the ticket.
#[derive(Drop)]
pub(crate) struct MessageCredential<'a> {
    client: MessagePrincipal<'a>,
    server: MessagePrincipal<'a>,
    etype: u16,
    key: &'a [u8],
    times: Times,
    flags: u32,
    addresses: Vec<TypedOctets<'a>>,
    ticket: Vec<u8>,
}

impl<'a> Model for MessageCredential<'a> {
    ghost use Rattle.std.specs.Prelude.{[]};
    ghost use Rattle.krb_files.specs.Ccache.{Credential};

    ghost Value = { Credential };

    ghost view = { λ c. record {
      client = c.client;
      server = c.server;
      etype = c.etype;
      key = c.key.now;
      times = c.times;
      is_skey = 0;
      flags = c.flags;
      addresses = c.addresses.items;
      authorization_data = [];
      ticket = c.ticket.items;
      second_ticket = [];
    } };
}

impl<'a> MessageCredential<'a> {
    /// The client.
    pub(crate) fn client(&self) -> &MessagePrincipal<'a>
        ensures { result.now ≡ self.now.client }
    {
        &self.client
    }

    /// Whether this is in a cache as an entry that was removed.
    pub(crate) fn is_removed(&self) -> bool
        ensures { result ≡ is_removed self.now }
    {
        self.times.authtime == u32::MAX && self.times.endtime == 0
    }

    /// Whether this is in a cache as a configuration entry that was not removed.
    pub(crate) fn is_configuration(&self) -> bool
        ensures { result ≡ is_configuration self.now }
    {
        !self.is_removed() && self.server.is_config()
    }

    /// The credential, to be written.
    pub(crate) fn parts(&self) -> NewCredential<'_>
        ensures { parts_value result ≡ self.now }
    {
        NewCredential {
            client: self.client.parts(),
            server: self.server.parts(),
            etype: self.etype,
            key: self.key,
            times: self.times,
            is_skey: 0,
            flags: self.flags,
            addresses: &self.addresses,
            authorization_data: &[],
            ticket: &self.ticket,
            second_ticket: &[],
        }
    }
}

/// An Int32 in a field of 16 bits; this error where it does not fit.
fn short_of(integer: &IntegerAsn1, error: ConvertError) -> Result<u16, ConvertError>
    ensures { Gives (λ n. n) result (or_error (complement 32768 integer.now) error) }
{
    match complement_of(integer, 0x8000) {
        Some(number) => Ok(number as u16),
        None => Err(error),
    }
}

/// An address (RFC 4120, 5.2.5). `AddressType` where its type does not fit 16 bits.
fn address_of(address: &HostAddress) -> Result<TypedOctets<'_>, ConvertError>
    ensures { Gives (λ a. a) result (address_from address.now) }
{
    let kind = short_of(&address.addr_type.0, ConvertError::AddressType)?;
    Ok(TypedOctets::new(kind, &address.address.0.0))
}

/// Addresses, in their order.
fn each_address(
    alloc: Global,
    addresses: &[HostAddress],
) -> Result<Vec<TypedOctets<'_>>, ConvertError>
    ensures { Answers (λ v. v.items) result (each_of address_from addresses.now) }
{
    let mut typed = Vec::new(alloc);
    for address in addresses {
        typed.push(address_of(address)?)?;
    }
    Ok(typed)
}

/// The addresses of a ticket; none where they are absent.
fn addresses_of<N>(
    alloc: Global,
    addresses: &Optional<Option<ExplicitContextTag<HostAddresses, N>>>,
) -> Result<Vec<TypedOctets<'_>>, ConvertError>
    ensures { Answers (λ v. v.items) result (addresses_from addresses.now.0) }
{
    match &addresses.0 {
        Some(addresses) => each_address(alloc, addresses.0.0.as_slice()),
        None => Ok(Vec::new(alloc)),
    }
}

/// The times of a ticket. `Time` where one of them does not fit 32 bits.
fn times_of(info: &KrbCredInfo) -> Result<Times, ConvertError>
    ensures { Gives (λ t. t) result (times_from info.now.auth_time.0 info.now.start_time.0 info.now.end_time.0 info.now.renew_till.0) }
{
    let authtime = seconds_of(&info.auth_time)?;
    let starttime = seconds_of(&info.start_time)?;
    let endtime = seconds_of(&info.end_time)?;
    let renew_till = seconds_of(&info.renew_till)?;
    Ok(Times {
        authtime,
        starttime,
        endtime,
        renew_till,
    })
}

/// The client and the server of a ticket.
#[derive(Drop)]
struct Parties<'a> {
    client: MessagePrincipal<'a>,
    server: MessagePrincipal<'a>,
}

/// The client and the server of a ticket. The first rule that is broken: `NoPrealm`, `NoPname`, `NameType` of the client, `NameType` of the server.
fn parties_of<'a>(
    alloc: Global,
    ticket: &'a TicketInner,
    info: &'a KrbCredInfo,
) -> Result<Parties<'a>, ConvertError>
    ensures { Answers (λ p. (p.client, p.server)) result (parties_from ticket.now info.now) }
{
    let client = client_of(alloc, &info.prealm, &info.pname)?;
    let realm = present_or(&info.srealm, &ticket.realm.0);
    let name = present_or(&info.sname, &ticket.sname.0);
    match principal_of(alloc, realm, name) {
        Ok(server) => Ok(Parties { client, server }),
        Err(error) => {
            drop(client);
            Err(error)
        }
    }
}

/// What goes along with a ticket beside names, key and flags.
#[derive(Drop)]
struct Rest<'a> {
    etype: u16,
    times: Times,
    addresses: Vec<TypedOctets<'a>>,
}

/// What goes along with a ticket beside names, key and flags. The first rule that is broken: `KeyType`, `Time`, `AddressType`.
fn rest_of(alloc: Global, info: &KrbCredInfo) -> Result<Rest<'_>, ConvertError>
    ensures { Answers (λ r. (r.etype, r.times, r.addresses.items)) result (rest_from info.now) }
{
    let etype = short_of(&info.key.0.key_type.0, ConvertError::KeyType)?;
    let times = times_of(info)?;
    let addresses = addresses_of(alloc, &info.caddr)?;
    Ok(Rest {
        etype,
        times,
        addresses,
    })
}

/// The credential of a ticket, its octets and what goes along with it. The first rule that is broken: `NoPrealm`, `NoPname`, `NameType` of the client,
/// `NameType` of the server, `KeyType`, `Time`, `AddressType`.
pub(crate) fn credential_of<'a>(
    alloc: Global,
    octets: Vec<u8>,
    ticket: &'a TicketInner,
    info: &'a KrbCredInfo,
) -> Result<MessageCredential<'a>, ConvertError>
    ensures { Answers (λ c. c) result (credential_from octets.items ticket.now info.now) }
{
    let parties = match parties_of(alloc, ticket, info) {
        Ok(parties) => parties,
        Err(error) => {
            drop(octets);
            return Err(error);
        }
    };
    match rest_of(alloc, info) {
        Ok(rest) => Ok(MessageCredential {
            client: parties.client,
            server: parties.server,
            etype: rest.etype,
            key: &info.key.0.key_value.0.0,
            times: rest.times,
            flags: flags_number(&info.flags),
            addresses: rest.addresses,
            ticket: octets,
        }),
        Err(error) => {
            drop(parties);
            drop(octets);
            Err(error)
        }
    }
}

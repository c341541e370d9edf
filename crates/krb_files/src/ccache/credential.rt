//! One credential.

ghost use Rattle.std.specs.Prelude.{◌≡◌};
ghost use Rattle.krb_files.specs.FieldReading.{Gives};
ghost use Rattle.krb_files.specs.Config.{is_config, is_first, is_removed};
ghost use Rattle.krb_files.specs.CcacheReading.{credential_at as credential_fields_at, etype_at as etype_fields_at, times_at as times_fields_at};

use crate::ccache::principal::{CcachePrincipalView, principal_at};
use crate::ccache::view::CcacheVersion;
use crate::fields::{
    ComponentsView, FieldError, LengthSize, TypedListView, counted_at, twice_at, typed_list_at,
    u8_at, u16_at, u32_at,
};
use std::marker::Model;

/// The times of a ticket (RFC 4120, 5.3), in seconds since 1970; 0 where there is none.
#[derive(Clone, Copy, PartialEq, Eq)]
pub struct Times {
    /// When the client authenticated.
    pub authtime: u32,
    /// When the ticket begins to be valid.
    pub starttime: u32,
    /// When it ends to be valid.
    pub endtime: u32,
    /// Until when it can be renewed.
    pub renew_till: u32,
}

/// A credential of a cache that the caller holds: a ticket and its session key.
#[derive(Drop)]
pub struct CredentialView<'a> {
    client: CcachePrincipalView<'a>,
    server: CcachePrincipalView<'a>,
    etype: u16,
    key: &'a [u8],
    times: Times,
    is_skey: u8,
    flags: u32,
    addresses: TypedListView<'a>,
    authorization_data: TypedListView<'a>,
    ticket: &'a [u8],
    second_ticket: &'a [u8],
}

impl<'a> Model for CredentialView<'a> {
    ghost use Rattle.krb_files.specs.Ccache.{Credential};

    ghost Value = { Credential };

    ghost view = { λ c. record {
      client = c.client;
      server = c.server;
      etype = c.etype;
      key = c.key.now;
      times = c.times;
      is_skey = c.is_skey;
      flags = c.flags;
      addresses = c.addresses;
      authorization_data = c.authorization_data;
      ticket = c.ticket.now;
      second_ticket = c.second_ticket.now;
    } };
}

impl<'a> CredentialView<'a> {
    /// The client.
    pub fn client(&self) -> &CcachePrincipalView<'a>
        ensures { result.now ≡ self.now.client }
    {
        &self.client
    }

    /// The server.
    pub fn server(&self) -> &CcachePrincipalView<'a>
        ensures { result.now ≡ self.now.server }
    {
        &self.server
    }

    /// The encryption type of the session key.
    pub fn etype(&self) -> u16
        ensures { result ≡ self.now.etype }
    {
        self.etype
    }

    /// The octets of the session key.
    pub fn key(&self) -> &'a [u8]
        ensures { result.now ≡ self.now.key }
    {
        self.key
    }

    /// The times of the ticket.
    pub fn times(&self) -> Times
        ensures { result ≡ self.now.times }
    {
        self.times
    }

    /// 1 where the ticket is encrypted in the session key of another ticket (user to user), else 0. Other numbers are kept.
    pub fn is_skey(&self) -> u8
        ensures { result ≡ self.now.is_skey }
    {
        self.is_skey
    }

    /// The flags of the ticket (RFC 4120, 5.3), bit 0 of the standard the highest.
    pub fn flags(&self) -> u32
        ensures { result ≡ self.now.flags }
    {
        self.flags
    }

    /// The addresses (RFC 4120, 5.2.5), each with its type.
    pub fn addresses(&self) -> TypedListView<'a>
        ensures { result ≡ self.now.addresses }
    {
        self.addresses.again()
    }

    /// The authorization data (RFC 4120, 5.2.6), each with its type.
    pub fn authorization_data(&self) -> TypedListView<'a>
        ensures { result ≡ self.now.authorization_data }
    {
        self.authorization_data.again()
    }

    /// The ticket's octets: DER.
    pub fn ticket(&self) -> &'a [u8]
        ensures { result.now ≡ self.now.ticket }
    {
        self.ticket
    }

    /// The second ticket's octets: DER, or none.
    pub fn second_ticket(&self) -> &'a [u8]
        ensures { result.now ≡ self.now.second_ticket }
    {
        self.second_ticket
    }

    /// Whether this is a configuration entry, and no credential: the server's realm is `X-CACHECONF:`, and its first component
    /// `krb5_ccache_conf_data`. The second component names what is configured, and the ticket holds its value.
    pub fn is_config(&self) -> bool
        ensures { result ≡ is_config self.now }
    {
        self.server.realm() == b"X-CACHECONF:".as_slice()
            && is_first(self.server.components(), b"krb5_ccache_conf_data")
    }

    /// Whether this entry was removed and only stands in the file: the authtime is -1, here
    /// 4294967295, and the endtime 0. MIT Kerberos from 1.18 on writes these over an entry that it
    /// removes, and passes over such entries (`src/lib/krb5/ccache/cc_file.c`: `delete_cred`,
    /// `cred_removed`). Of a configuration entry it writes the realm `X-RMED-CONF:` too, so that
    /// `is_config` is false of it.
    pub fn is_removed(&self) -> bool
        ensures { result ≡ is_removed self.now }
    {
        self.times.authtime == u32::MAX && self.times.endtime == 0
    }
}

/// Whether the first component is this one.
fn is_first(components: ComponentsView, name: &[u8]) -> bool
    ensures { result ≡ is_first name.now components.entry }
{
    let mut components = components;
    match components.next() {
        Some(first) => first == name,
        None => false,
    }
}

/// An encryption type, which stands twice in version 3.
fn etype_at(version: CcacheVersion, octets: &[u8]) -> Result<(u16, &[u8]), FieldError>
    ensures { Gives (λ x. (x.0, x.1.now)) result (etype_fields_at version octets.now) }
{
    match version {
        CcacheVersion::Three => twice_at(octets),
        CcacheVersion::Four => u16_at(octets),
    }
}

/// The times at the front.
fn times_at(octets: &[u8]) -> Result<(Times, &[u8]), FieldError>
    ensures { Gives (λ x. (x.0, x.1.now)) result (times_fields_at octets.now) }
{
    let (authtime, rest) = u32_at(octets)?;
    let (starttime, rest) = u32_at(rest)?;
    let (endtime, rest) = u32_at(rest)?;
    let (renew_till, rest) = u32_at(rest)?;
    Ok((
        Times {
            authtime,
            starttime,
            endtime,
            renew_till,
        },
        rest,
    ))
}

/// The credential at the front, and the octets after it.
#[tactic(auto, unfolding(crate::specs::CcacheReading::credential_at))]
pub(crate) fn credential_at(
    version: CcacheVersion,
    octets: &[u8],
) -> Result<(CredentialView<'_>, &[u8]), FieldError>
    ensures { Gives (λ x. (x.0, x.1.now)) result (credential_fields_at version octets.now) }
{
    let (client, rest) = principal_at(octets)?;
    let (server, rest) = principal_at(rest)?;
    let (etype, rest) = etype_at(version, rest)?;
    let (key, rest) = counted_at(LengthSize::Four, rest)?;
    let (times, rest) = times_at(rest)?;
    let (is_skey, rest) = u8_at(rest)?;
    let (flags, rest) = u32_at(rest)?;
    let (addresses, rest) = typed_list_at(rest)?;
    let (authorization_data, rest) = typed_list_at(rest)?;
    let (ticket, rest) = counted_at(LengthSize::Four, rest)?;
    let (second_ticket, rest) = counted_at(LengthSize::Four, rest)?;
    Ok((
        CredentialView {
            client,
            server,
            etype,
            key,
            times,
            is_skey,
            flags,
            addresses,
            authorization_data,
            ticket,
            second_ticket,
        },
        rest,
    ))
}

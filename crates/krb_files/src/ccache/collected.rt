//! What was read, in the form that the writer takes.

ghost use Rattle.std.specs.Prelude.{◌≡◌, map, IfOk};
ghost use Rattle.krb_files.specs.CcacheWritten.{credential_from, principal_of};

use crate::ccache::credential::{CredentialView, Times};
use crate::ccache::principal::CcachePrincipalView;
use crate::ccache::writing::{CcachePrincipalParts, NewCredential};
use crate::fields::{ComponentsView, PrincipalParts, TypedListView, TypedOctets};
use std::alloc::{AllocError, Global};
use std::marker::Model;

/// A principal that was read, with the list of its components: slices of the caller's octets.
#[derive(Drop)]
pub struct CollectedPrincipal<'a> {
    name_type: u32,
    realm: &'a [u8],
    components: Vec<&'a [u8]>,
}

impl<'a> Model for CollectedPrincipal<'a> {
    ghost use Rattle.std.specs.Prelude.{map};
    ghost use Rattle.krb_files.specs.Ccache.{TypedPrincipal};

    ghost Value = { TypedPrincipal };

    ghost view = { λ p. record { name_type = p.name_type; principal = record { realm = p.realm.now; components = map (λ x. x.now) p.components.items } } };
}

impl<'a> CollectedPrincipal<'a> {
    /// The principal, to be written.
    pub fn parts(&self) -> CcachePrincipalParts<'_>
        ensures { principal_of result ≡ self.now }
    {
        CcachePrincipalParts {
            name_type: self.name_type,
            principal: PrincipalParts {
                realm: self.realm,
                components: &self.components,
            },
        }
    }
}

impl<'a> CcachePrincipalView<'a> {
    /// The same principal, in the form that the writer takes. `AllocError` where memory cannot grow.
    pub fn collect(&self, alloc: Global) -> Result<CollectedPrincipal<'a>, AllocError>
        ensures { IfOk result (λ p. p ≡ self.now) }
    {
        Ok(CollectedPrincipal {
            name_type: self.name_type(),
            realm: self.realm(),
            components: components_of(alloc, self.components())?,
        })
    }
}

/// A credential that was read, with the lists of its components, addresses and authorization data: slices of the caller's octets.
#[derive(Drop)]
pub struct CollectedCredential<'a> {
    client: CollectedPrincipal<'a>,
    server: CollectedPrincipal<'a>,
    etype: u16,
    key: &'a [u8],
    times: Times,
    is_skey: u8,
    flags: u32,
    addresses: Vec<TypedOctets<'a>>,
    authorization_data: Vec<TypedOctets<'a>>,
    ticket: &'a [u8],
    second_ticket: &'a [u8],
}

impl<'a> Model for CollectedCredential<'a> {
    ghost use Rattle.krb_files.specs.Ccache.{Credential};

    ghost Value = { Credential };

    ghost view = { λ c. record {
      client = c.client;
      server = c.server;
      etype = c.etype;
      key = c.key.now;
      times = c.times;
      is_skey = c.is_skey;
      flags = c.flags;
      addresses = c.addresses.items;
      authorization_data = c.authorization_data.items;
      ticket = c.ticket.now;
      second_ticket = c.second_ticket.now;
    } };
}

impl<'a> CollectedCredential<'a> {
    /// The credential, to be written.
    pub fn parts(&self) -> NewCredential<'_>
        ensures { credential_from result ≡ self.now }
    {
        NewCredential {
            client: self.client.parts(),
            server: self.server.parts(),
            etype: self.etype,
            key: self.key,
            times: self.times,
            is_skey: self.is_skey,
            flags: self.flags,
            addresses: &self.addresses,
            authorization_data: &self.authorization_data,
            ticket: self.ticket,
            second_ticket: self.second_ticket,
        }
    }
}

impl<'a> CredentialView<'a> {
    /// The same credential, in the form that the writer takes. `AllocError` where memory cannot grow.
    pub fn collect(&self, alloc: Global) -> Result<CollectedCredential<'a>, AllocError>
        ensures { IfOk result (λ c. c ≡ self.now) }
    {
        Ok(CollectedCredential {
            client: self.client().collect(alloc)?,
            server: self.server().collect(alloc)?,
            etype: self.etype(),
            key: self.key(),
            times: self.times(),
            is_skey: self.is_skey(),
            flags: self.flags(),
            addresses: typed_of(alloc, self.addresses())?,
            authorization_data: typed_of(alloc, self.authorization_data())?,
            ticket: self.ticket(),
            second_ticket: self.second_ticket(),
        })
    }
}

/// The components, in their order.
fn components_of<'a>(
    alloc: Global,
    components: ComponentsView<'a>,
) -> Result<Vec<&'a [u8]>, AllocError>
    ensures { IfOk result (λ v. map (λ x. x.now) v.items ≡ components.entry) }
{
    components.collect(alloc)
}

/// The octets with their types, in their order.
fn typed_of<'a>(alloc: Global, typed: TypedListView<'a>) -> Result<Vec<TypedOctets<'a>>, AllocError>
    ensures { IfOk result (λ v. v.items ≡ typed.entry) }
{
    typed.collect(alloc)
}

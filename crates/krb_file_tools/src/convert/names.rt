//! Realms and names of RFC 4120 as principals of a credential cache.

ghost use Rattle.std.specs.Prelude.{◌≡◌, map, IfOk, unwrap_or};
ghost use Rattle.krb_files.specs.CcacheWritten.{principal_of as parts_value};
ghost use Rattle.krb_files.specs.Config.{is_first};
ghost use Rattle.krb_file_tools.specs.Answers.{Answers};
ghost use Rattle.krb_file_tools.specs.Tickets.{names_config};
ghost use Rattle.krb_file_tools.specs.Kirbi.{client_from, principal_from};

use crate::convert::error::ConvertError;
use crate::convert::numbers::complement_of;
use krb_der::{ExplicitContextTag, Optional};
use krb_files::ccache::CcachePrincipalParts;
use krb_files::fields::PrincipalParts;
use krb_types::data_types::{KerberosStringAsn1, PrincipalName, Realm};
use std::alloc::{AllocError, Global};
use std::marker::Model;

/// A principal of a message, with the list of its components: slices of the message's texts.
#[derive(Drop)]
pub(crate) struct MessagePrincipal<'a> {
    name_type: u32,
    realm: &'a [u8],
    components: Vec<&'a [u8]>,
}

impl<'a> Model for MessagePrincipal<'a> {
    ghost use Rattle.std.specs.Prelude.{map};
    ghost use Rattle.krb_files.specs.Ccache.{TypedPrincipal};

    ghost Value = { TypedPrincipal };

    ghost view = { λ p. record { name_type = p.name_type; principal = record { realm = p.realm.now; components = map (λ x. x.now) p.components.items } } };
}

impl<'a> MessagePrincipal<'a> {
    /// The principal, to be written.
    pub(crate) fn parts(&self) -> CcachePrincipalParts<'_>
        ensures { parts_value result ≡ self.now }
    {
        CcachePrincipalParts {
            name_type: self.name_type,
            principal: PrincipalParts {
                realm: self.realm,
                components: &self.components,
            },
        }
    }

    /// Whether this names a configuration entry: the realm is `X-CACHECONF:`, and the first
    /// component `krb5_ccache_conf_data`.
    pub(crate) fn is_config(&self) -> bool
        ensures { result ≡ names_config self.now }
    {
        self.realm == b"X-CACHECONF:".as_slice()
            && is_first(&self.components, b"krb5_ccache_conf_data")
    }
}

/// Whether the first component is this one.
fn is_first(components: &[&[u8]], name: &[u8]) -> bool
    ensures { result ≡ is_first name.now (map (λ x. x.now) components.now) }
{
    match components.first() {
        Some(first) => *first == name,
        None => false,
    }
}

/// The octets of texts, in their order.
fn components_of(alloc: Global, texts: &[KerberosStringAsn1]) -> Result<Vec<&[u8]>, AllocError>
    ensures { IfOk result (λ v. map (λ x. x.now) v.items ≡ texts.now) }
{
    let mut components = Vec::new(alloc);
    for text in texts {
        components.push(text.as_str().as_bytes())?;
    }
    Ok(components)
}

/// The principal of this realm and name (RFC 4120, 5.2.2). `NameType` where the type of the name does not fit 32 bits.
pub(crate) fn principal_of<'a>(
    alloc: Global,
    realm: &'a Realm,
    name: &'a PrincipalName,
) -> Result<MessagePrincipal<'a>, ConvertError>
    ensures { Answers (λ p. p) result (principal_from realm.now name.now) }
{
    let Some(name_type) = complement_of(&name.name_type.0, 0x8000_0000) else {
        return Err(ConvertError::NameType);
    };
    Ok(MessagePrincipal {
        name_type,
        realm: realm.as_str().as_bytes(),
        components: components_of(alloc, name.name_string.0.0.as_slice())?,
    })
}

/// The principal of a realm and a name that may be absent. `NoPrealm` or else `NoPname` where one is, else as `principal_of`.
pub(crate) fn client_of<'a, M, N>(
    alloc: Global,
    realm: &'a Optional<Option<ExplicitContextTag<Realm, M>>>,
    name: &'a Optional<Option<ExplicitContextTag<PrincipalName, N>>>,
) -> Result<MessagePrincipal<'a>, ConvertError>
    ensures { Answers (λ p. p) result (client_from realm.now.0 name.now.0) }
{
    let Some(realm) = &realm.0 else {
        return Err(ConvertError::NoPrealm);
    };
    let Some(name) = &name.0 else {
        return Err(ConvertError::NoPname);
    };
    principal_of(alloc, &realm.0, &name.0)
}

/// The value of a field, or the other value where it is absent.
pub(crate) fn present_or<'a, T, N>(
    field: &'a Optional<Option<ExplicitContextTag<T, N>>>,
    other: &'a T,
) -> &'a T
    ensures { result.now ≡ unwrap_or field.now.0 other.now }
{
    match &field.0 {
        Some(tagged) => &tagged.0,
        None => other,
    }
}

//! A credential cache over the octets that the caller holds.

ghost use Rattle.std.specs.Prelude.{◌≡◌, List, Ok, [], ◌∷◌, IfOk, MatchOption};
ghost use Rattle.std.specs.Iterator.{YieldsFirst, item_count};
ghost use Rattle.krb_files.specs.FieldReading.{Gives};
ghost use Rattle.krb_files.specs.Ccache.{Ccache, CcacheIs};
ghost use Rattle.krb_files.specs.CcacheReading.{ccache_of, credentials_of, fields_of};
ghost use Rattle.krb_files.specs.CcacheReading.{header_at as header_fields_at, rest_of as cache_rest_of, shown_credentials, shown_fields};

use crate::ccache::credential::{CredentialView, credential_at};
use crate::ccache::error::CcacheError;
use crate::ccache::principal::{CcachePrincipalView, principal_at};
use crate::fields::{FieldError, LengthSize, TypedOctets, counted_at, typed_at, u16_at};
use std::marker::Model;

/// The versions of a credential cache whose numbers have the most significant octet first.
#[derive(Clone, Copy, PartialEq, Eq)]
pub enum CcacheVersion {
    /// Version 3, 05 03.
    Three,
    /// Version 4, 05 04: it has a header.
    Four,
}

/// A credential cache over the octets that the caller holds: what it holds are slices of these. It takes no memory.
#[derive(Drop)]
pub struct CcacheView<'a> {
    version: CcacheVersion,
    header: &'a [u8],
    principal: CcachePrincipalView<'a>,
    credentials: &'a [u8],
}

impl<'a> Model for CcacheView<'a> {
    ghost use Rattle.krb_files.specs.Ccache.{Ccache};

    ghost Value = { Ccache };

    ghost use Rattle.krb_files.specs.CcacheReading.{shown_credentials, shown_fields};

    ghost view = { λ c. record {
      version = c.version;
      header = shown_fields c.header.now;
      principal = c.principal;
      credentials = shown_credentials c.version c.credentials.now;
    } };
}

impl<'a> CcacheView<'a> {
    /// The credential cache that the octets are, all of them.
    ///
    /// All fields are looked at, in order: the first error is returned. `InvalidVersion` where the first two octets are neither 05 03 nor
    /// 05 04. `InvalidField` of `Truncated` where the octets end inside a number, of `LengthPastEnd` where a length says more octets than
    /// there are after it (of a header's field: in the header), of `CountPastEnd` where a count says more elements than there are octets
    /// after it, and of `RepetitionDiffers` where the two encryption types of a key differ in version 3.
    pub fn new(octets: &'a [u8]) -> Result<Self, CcacheError>
        ensures found { IfOk result (CcacheIs octets.now) }
        ensures only { (cache : Ccache) → CcacheIs octets.now cache → Gives (λ c. c) result (Ok cache) }
        ensures exact { Gives (λ c. c) result (ccache_of octets.now) }
    {
        ccache_at(octets)
    }

    /// The version.
    pub fn version(&self) -> CcacheVersion
        ensures { result ≡ self.now.version }
    {
        self.version
    }

    /// The fields of the header, each with its tag; none in version 3.
    pub fn header(&self) -> HeaderFieldsView<'a>
        ensures { result ≡ self.now.header }
    {
        HeaderFieldsView {
            octets: self.header,
        }
    }

    /// The default principal.
    pub fn principal(&self) -> &CcachePrincipalView<'a>
        ensures { result.now ≡ self.now.principal }
    {
        &self.principal
    }

    /// The credentials, in their order, configuration entries among them.
    pub fn credentials(&self) -> CredentialsView<'a>
        ensures { result ≡ self.now.credentials }
    {
        CredentialsView {
            version: self.version,
            octets: self.credentials,
        }
    }
}

/// The cache that the octets are, or the first error.
#[tactic(auto, unfolding(crate::specs::CcacheReading::ccache_of))]
fn ccache_at(octets: &[u8]) -> Result<CcacheView<'_>, CcacheError>
    ensures { Gives (λ c. c) result (ccache_of octets.now) }
{
    let (number, rest) = u16_at(octets)?;
    match number {
        0x0503 => Ok(rest_of(CcacheVersion::Three, rest)?),
        0x0504 => Ok(rest_of(CcacheVersion::Four, rest)?),
        _ => Err(CcacheError::InvalidVersion(number)),
    }
}

/// The cache behind its version.
#[tactic(auto, unfolding(crate::specs::CcacheReading::rest_of))]
fn rest_of(version: CcacheVersion, octets: &[u8]) -> Result<CcacheView<'_>, FieldError>
    ensures { Gives (λ c. c) result (cache_rest_of version octets.now) }
{
    let (header, rest) = header_at(version, octets)?;
    let (principal, credentials) = principal_at(rest)?;
    check_credentials(version, credentials)?;
    Ok(CcacheView {
        version,
        header,
        principal,
        credentials,
    })
}

/// The octets of the header's fields, which are all whole, and the octets after the header.
#[tactic(auto, unfolding(crate::specs::CcacheReading::header_at))]
fn header_at(version: CcacheVersion, octets: &[u8]) -> Result<(&[u8], &[u8]), FieldError>
    ensures { Gives (λ x. (shown_fields x.0.now, x.1.now)) result (header_fields_at version octets.now) }
{
    match version {
        CcacheVersion::Three => Ok(octets.split_at(0)),
        CcacheVersion::Four => {
            let (fields, rest) = counted_at(LengthSize::Two, octets)?;
            check_fields(fields)?;
            Ok((fields, rest))
        }
    }
}

/// Whether all fields of a header are whole, or the first error.
fn check_fields(octets: &[u8]) -> Result<(), FieldError>
    ensures { Gives (λ _. shown_fields octets.now) result (fields_of octets.now) }
{
    let mut rest = octets;
    'fields: while !rest.is_empty() {
        let (_, after) = typed_at(LengthSize::Two, rest)?;
        rest = after;
    }
    Ok(())
}

/// Whether all credentials are whole, or the first error.
fn check_credentials(version: CcacheVersion, octets: &[u8]) -> Result<(), FieldError>
    ensures { Gives (λ _. shown_credentials version octets.now) result (credentials_of version octets.now) }
{
    let mut rest = octets;
    'credentials: while !rest.is_empty() {
        let (_, after) = credential_at(version, rest)?;
        rest = after;
    }
    Ok(())
}

/// An iterator over the fields of a header. A contract sees the list of those that are left.
#[derive(Drop)]
pub struct HeaderFieldsView<'a> {
    octets: &'a [u8],
}

impl<'a> Model for HeaderFieldsView<'a> {
    ghost use Rattle.std.specs.Prelude.{List};
    ghost use Rattle.krb_files.specs.FieldReading.{Typed};

    ghost Value = { List Typed };

    ghost use Rattle.krb_files.specs.CcacheReading.{shown_fields};

    ghost view = { λ f. shown_fields f.octets.now };
}

impl<'a> Iterator for HeaderFieldsView<'a> {
    type Item = TypedOctets<'a>;

    ghost next_gives = { YieldsFirst (λ left. left) };

    ghost remaining = { item_count (λ left. left) };

    /// The next field.
    fn next(&mut self) -> Option<TypedOctets<'a>> {
        match first_field(self.octets) {
            Some((field, after)) => {
                self.octets = after;
                Some(field)
            }
            None => None,
        }
    }
}

/// The first field, and the octets after it.
fn first_field(octets: &[u8]) -> Option<(TypedOctets<'_>, &[u8])>
    ensures { MatchOption result (shown_fields octets.now ≡ []) (λ x. shown_fields octets.now ≡ x.0 ∷ shown_fields x.1.now) }
{
    if octets.is_empty() {
        return None;
    }
    match typed_at(LengthSize::Two, octets) {
        Ok((field, after)) => Some((field, after)),
        Err(_) => None,
    }
}

/// An iterator over the credentials of a cache. A contract sees the list of those that are left.
#[derive(Drop)]
pub struct CredentialsView<'a> {
    version: CcacheVersion,
    octets: &'a [u8],
}

impl<'a> Model for CredentialsView<'a> {
    ghost use Rattle.std.specs.Prelude.{List};
    ghost use Rattle.krb_files.specs.Ccache.{Credential};

    ghost Value = { List Credential };

    ghost use Rattle.krb_files.specs.CcacheReading.{shown_credentials};

    ghost view = { λ c. shown_credentials c.version c.octets.now };
}

impl<'a> Iterator for CredentialsView<'a> {
    type Item = CredentialView<'a>;

    ghost next_gives = { YieldsFirst (λ left. left) };

    ghost remaining = { item_count (λ left. left) };

    /// The next credential.
    fn next(&mut self) -> Option<CredentialView<'a>> {
        match first_credential(self.version, self.octets) {
            Some((credential, after)) => {
                self.octets = after;
                Some(credential)
            }
            None => None,
        }
    }
}

/// The first credential, and the octets after it.
fn first_credential(version: CcacheVersion, octets: &[u8]) -> Option<(CredentialView<'_>, &[u8])>
    ensures { MatchOption result (shown_credentials version octets.now ≡ [])
        (λ x. shown_credentials version octets.now ≡ x.0 ∷ shown_credentials version x.1.now) }
{
    if octets.is_empty() {
        return None;
    }
    match credential_at(version, octets) {
        Ok((credential, after)) => Some((credential, after)),
        Err(_) => None,
    }
}

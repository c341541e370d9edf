//! Writing a credential cache.

ghost use Rattle.std.specs.Prelude.{◌≡◌, ◌++◌, ◌↔◌, IsTrue, IfOk, IfErr, OnOk};
ghost use Rattle.krb_files.specs.Ccache.{CcacheIs, ccache_octets, credential_octets, etype_octets, header_octets, principal_octets, times_octets};
ghost use Rattle.krb_files.specs.Ccache.{FitsCredential, FitsHeader, FitsPrincipal};
ghost use Rattle.krb_files.specs.CcacheWritten.{back_octets, ccache_from, credential_from, front_octets, head_octets, principal_of};
ghost use Rattle.krb_files.specs.CcacheWritten.{CredentialIsRefused, HeaderIsRefused, IsRefused};

use crate::ccache::credential::Times;
use crate::ccache::error::CcacheWriteError;
use crate::ccache::view::CcacheVersion;
use crate::fields::{
    LengthSize, PrincipalParts, TypedOctets, fits, fits_each_typed, fits_principal,
    fits_typed_list, push_counted, push_each_typed, push_number, push_octet, push_principal,
    push_twice, push_typed_list,
};
use std::alloc::{AllocError, Global};

/// A principal to be written, and the type of its name.
#[derive(Clone, Copy)]
pub struct CcachePrincipalParts<'a> {
    /// The type of the name (RFC 4120, 6.2).
    pub name_type: u32,
    /// The realm and the components.
    pub principal: PrincipalParts<'a>,
}

/// A credential to be written: a ticket and its session key.
#[derive(Clone, Copy)]
pub struct NewCredential<'a> {
    /// The client.
    pub client: CcachePrincipalParts<'a>,
    /// The server.
    pub server: CcachePrincipalParts<'a>,
    /// The encryption type of the session key.
    pub etype: u16,
    /// The octets of the session key.
    pub key: &'a [u8],
    /// The times of the ticket.
    pub times: Times,
    /// 1 where the ticket is encrypted in the session key of another ticket (user to user), else 0.
    pub is_skey: u8,
    /// The flags of the ticket (RFC 4120, 5.3), bit 0 of the standard the highest.
    pub flags: u32,
    /// The addresses (RFC 4120, 5.2.5), each with its type.
    pub addresses: &'a [TypedOctets<'a>],
    /// The authorization data (RFC 4120, 5.2.6), each with its type.
    pub authorization_data: &'a [TypedOctets<'a>],
    /// The ticket's octets: DER.
    pub ticket: &'a [u8],
    /// The second ticket's octets: DER, or none.
    pub second_ticket: &'a [u8],
}

/// A credential cache to be written.
#[derive(Clone, Copy)]
pub struct NewCcache<'a> {
    /// The version.
    pub version: CcacheVersion,
    /// The fields of the header, each with its tag; none in version 3.
    pub header: &'a [TypedOctets<'a>],
    /// The default principal.
    pub principal: CcachePrincipalParts<'a>,
    /// The credentials, in their order, configuration entries among them.
    pub credentials: &'a [NewCredential<'a>],
}

/// Whether the count of the components and each length of a principal has a place in 32 bits.
fn fits_typed_principal(principal: CcachePrincipalParts) -> bool
    ensures { IsTrue result ↔ FitsPrincipal (principal_of principal.entry) }
{
    fits_principal(LengthSize::Four, &principal.principal)
}

/// Whether each length and each count of a credential has a place in 32 bits.
fn fits_credential(credential: NewCredential) -> bool
    ensures { IsTrue result ↔ FitsCredential (credential_from credential.entry) }
{
    if !fits_typed_principal(credential.client) || !fits_typed_principal(credential.server) {
        return false;
    }
    if !fits_typed_list(credential.addresses) || !fits_typed_list(credential.authorization_data) {
        return false;
    }
    if !fits(LengthSize::Four, credential.key.len())
        || !fits(LengthSize::Four, credential.ticket.len())
    {
        return false;
    }
    fits(LengthSize::Four, credential.second_ticket.len())
}

/// Appends a principal: the type of its name, how many components it has, the realm and the components.
fn push_typed_principal(
    out: &mut Vec<u8>,
    principal: &CcachePrincipalParts,
) -> Result<(), AllocError>
    requires { FitsPrincipal (principal_of principal.now) }
    ensures { OnOk result (out.new.items ≡ out.old.items ++ principal_octets (principal_of principal.now)) }
{
    push_number(out, LengthSize::Four, principal.name_type)?;
    push_principal(out, LengthSize::Four, &principal.principal)
}

/// Appends an encryption type, in version 3 twice.
fn push_etype(out: &mut Vec<u8>, version: CcacheVersion, etype: u16) -> Result<(), AllocError>
    ensures { OnOk result (out.new.items ≡ out.old.items ++ etype_octets version etype) }
{
    match version {
        CcacheVersion::Three => push_twice(out, etype),
        CcacheVersion::Four => push_number(out, LengthSize::Two, u32::from(etype)),
    }
}

/// Appends the times of a ticket.
fn push_times(out: &mut Vec<u8>, times: &Times) -> Result<(), AllocError>
    ensures { OnOk result (out.new.items ≡ out.old.items ++ times_octets times.now) }
{
    push_number(out, LengthSize::Four, times.authtime)?;
    push_number(out, LengthSize::Four, times.starttime)?;
    push_number(out, LengthSize::Four, times.endtime)?;
    push_number(out, LengthSize::Four, times.renew_till)
}

/// Appends the fields of a credential up to the times.
fn push_front(
    out: &mut Vec<u8>,
    version: CcacheVersion,
    credential: &NewCredential,
) -> Result<(), AllocError>
    requires { FitsCredential (credential_from credential.now) }
    ensures { OnOk result (out.new.items ≡ out.old.items ++ front_octets version (credential_from credential.now)) }
{
    push_typed_principal(out, &credential.client)?;
    push_typed_principal(out, &credential.server)?;
    push_etype(out, version, credential.etype)?;
    push_counted(out, LengthSize::Four, credential.key)?;
    push_times(out, &credential.times)
}

/// Appends the fields of a credential behind the times.
fn push_back(out: &mut Vec<u8>, credential: &NewCredential) -> Result<(), AllocError>
    requires { FitsCredential (credential_from credential.now) }
    ensures { OnOk result (out.new.items ≡ out.old.items ++ back_octets (credential_from credential.now)) }
{
    push_octet(out, credential.is_skey)?;
    push_number(out, LengthSize::Four, credential.flags)?;
    push_typed_list(out, credential.addresses)?;
    push_typed_list(out, credential.authorization_data)?;
    push_counted(out, LengthSize::Four, credential.ticket)?;
    push_counted(out, LengthSize::Four, credential.second_ticket)
}

/// The octets of a credential.
fn credential_of(
    alloc: Global,
    version: CcacheVersion,
    credential: &NewCredential,
) -> Result<Vec<u8>, CcacheWriteError>
    ensures ok { IfOk result (λ v. v.items ≡ credential_octets version (credential_from credential.now)) }
    ensures fits { IfOk result (λ _. FitsCredential (credential_from credential.now)) }
    ensures err { IfErr result (CredentialIsRefused (credential_from credential.now)) }
{
    if !fits_credential(*credential) {
        return Err(CcacheWriteError::TooLong);
    }
    let mut octets = Vec::new(alloc);
    push_front(&mut octets, version, credential)?;
    push_back(&mut octets, credential)?;
    Ok(octets)
}

/// Appends a credential to a cache. The vector holds the octets of a cache of this version so far.
///
/// `TooLong` where a length of the credential or the number of its components, addresses or authorization data does not fit 32 bits;
/// `OutOfMemory` where memory cannot grow. The vector is then as it was.
pub fn push_credential(
    alloc: Global,
    out: &mut Vec<u8>,
    version: CcacheVersion,
    credential: &NewCredential,
) -> Result<(), CcacheWriteError>
    ensures ok { OnOk result (out.new.items ≡ out.old.items ++ credential_octets version (credential_from credential.now)) }
    ensures fits { OnOk result (FitsCredential (credential_from credential.now)) }
    ensures kept { IfErr result (λ _. out.new.items ≡ out.old.items) }
    ensures err { IfErr result (CredentialIsRefused (credential_from credential.now)) }
{
    let octets = credential_of(alloc, version, credential)?;
    out.extend_from_slice(&octets)?;
    Ok(())
}

/// The octets of a header, none in version 3.
fn header_of(
    alloc: Global,
    version: CcacheVersion,
    fields: &[TypedOctets],
) -> Result<Vec<u8>, CcacheWriteError>
    ensures ok { IfOk result (λ v. v.items ≡ header_octets version fields.now) }
    ensures fits { IfOk result (λ _. FitsHeader version fields.now) }
    ensures err { IfErr result (HeaderIsRefused version fields.now) }
{
    let mut header = Vec::new(alloc);
    match version {
        CcacheVersion::Three => {
            if !fields.is_empty() {
                return Err(CcacheWriteError::HeaderInVersion3);
            }
        }
        CcacheVersion::Four => {
            if !fits_each_typed(LengthSize::Two, fields) {
                return Err(CcacheWriteError::TooLong);
            }
            let mut body = Vec::new(alloc);
            push_each_typed(&mut body, LengthSize::Two, fields)?;
            if !fits(LengthSize::Two, body.len()) {
                return Err(CcacheWriteError::TooLong);
            }
            push_counted(&mut header, LengthSize::Two, &body)?;
        }
    }
    Ok(header)
}

/// The octets in front of the credentials: 05 and the version, the header and the default principal.
fn head_of(alloc: Global, cache: &NewCcache) -> Result<Vec<u8>, CcacheWriteError>
    ensures ok { IfOk result (λ v. v.items ≡ head_octets (ccache_from cache.now)) }
    ensures header { IfOk result (λ _. FitsHeader cache.now.version cache.now.header.now) }
    ensures principal { IfOk result (λ _. FitsPrincipal (principal_of cache.now.principal)) }
    ensures err { IfErr result (IsRefused (ccache_from cache.now)) }
{
    let header = header_of(alloc, cache.version, cache.header)?;
    if !fits_typed_principal(cache.principal) {
        return Err(CcacheWriteError::TooLong);
    }
    let version = match cache.version {
        CcacheVersion::Three => 3,
        CcacheVersion::Four => 4,
    };
    let mut out = Vec::new(alloc);
    out.extend_from_slice(&[5, version])?;
    out.extend_from_slice(&header)?;
    push_typed_principal(&mut out, &cache.principal)?;
    Ok(out)
}

/// The credential cache of this version, header, default principal and these credentials.
///
/// `HeaderInVersion3` where a header's field is given for version 3. `TooLong` where a length or a count does not fit: 16 bits for the
/// octets of a header's field and for the whole header, and 32 bits for all others. `OutOfMemory` where memory cannot grow.
pub fn write(alloc: Global, cache: &NewCcache) -> Result<Vec<u8>, CcacheWriteError>
    ensures ok { IfOk result (λ v. v.items ≡ ccache_octets (ccache_from cache.now)) }
    ensures read_back { IfOk result (λ v. CcacheIs v.items (ccache_from cache.now)) }
    ensures err { IfErr result (IsRefused (ccache_from cache.now)) }
{
    let mut out = head_of(alloc, cache)?;
    'credentials: for credential in cache.credentials {
        push_credential(alloc, &mut out, cache.version, credential)?;
    }
    Ok(out)
}

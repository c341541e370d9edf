//! Messages over the octets that the caller holds.

ghost use Rattle.std.specs.Prelude.{◌≡◌, ◌==◌, ℕ, ◌+◌, ◌*◌, ◌<◌, ◌≤◌, ◌^◌, List, length, drop, slice_get, IfOk, IfErr};
ghost use Rattle.krb_negoex.specs.GuidLayout.{guid};
ghost use Rattle.krb_negoex.specs.Layouts.{vector};
ghost use Rattle.krb_negoex.specs.View.{ChecksumSeen, ExchangeSeen, ExtensionSeen, NegoSeen, VerifySeen, AreThere, IsNotMemory, elements_of, scheme_of, extension_of};
ghost use Rattle.krb_negoex.specs.View.{checksum_view_layout, exchange_view_layout, extension_view_layout, nego_view_layout, verify_view_layout};
ghost use Rattle.krb_negoex.specs.Wire.{byte_vector};

use crate::checksum::Scheme;
use crate::fixed::Fixed;
use crate::header::MessageHeader;
use crate::numbers::{cut_short, invalid_data, u32_prefix, u64_prefix};
use std::io;
use std::marker::Model;
use uuid::Uuid;

/// The octets from `at` on, none where they end before.
fn octets_from(octets: &[u8], at: usize) -> &[u8]
    ensures { result.now ≡ drop at octets.now }
{
    let (_, trailing) = octets.split_at(at.min(octets.len()));
    trailing
}

/// The octets that a vector names (MS-NEGOEX 2.2.5.2.3), a slice of the message.
fn octets_view<'a>(octets: &[u8], message: &'a [u8]) -> io::Result<&'a [u8]>
    ensures found { IfOk result (λ v. byte_vector.part octets.now message.now v.now) }
    ensures rejected { IfErr result (byte_vector.rejects octets.now message.now) }
    ensures memory { IfErr result IsNotMemory }
{
    let (offset, trailing) = u32_prefix(octets)?;
    let (count, _) = u32_prefix(trailing)?;
    let offset = offset as usize;
    let count = count as usize;
    if offset > message.len() {
        return Err(invalid_data());
    }
    let (_, named) = message.split_at(offset);
    if count > named.len() {
        return Err(cut_short());
    }
    let (named, _) = named.split_at(count);
    Ok(named)
}

/// An extension (MS-NEGOEX 2.2.5.1.4) whose value is a slice of the message.
#[derive(Drop)]
pub struct ExtensionView<'a> {
    extension_type: u32,
    extension_value: &'a [u8],
}

impl<'a> Model for ExtensionView<'a> {
    ghost Value = { ExtensionSeen };

    ghost view = { λ v. record { extension_type = v.extension_type; extension_value = v.extension_value.now } };
}

impl<'a> ExtensionView<'a> {
    /// The type; where it is negative as a signed number, who does not know the extension has to reject it.
    pub fn extension_type(&self) -> u32
        ensures { result ≡ self.now.extension_type }
    {
        self.extension_type
    }

    /// The octets of the extension. They live as long as the message's octets.
    pub fn extension_value(&self) -> &'a [u8]
        ensures { result.now ≡ self.now.extension_value }
    {
        self.extension_value
    }
}

/// The extension that the octets begin with.
fn extension_view<'a>(octets: &[u8], message: &'a [u8]) -> io::Result<ExtensionView<'a>>
    ensures found { IfOk result (extension_view_layout.part octets.now message.now) }
    ensures rejected { IfErr result (extension_view_layout.rejects octets.now message.now) }
    ensures memory { IfErr result IsNotMemory }
{
    let (extension_type, trailing) = u32_prefix(octets)?;
    let extension_value = octets_view(trailing, message)?;
    Ok(ExtensionView {
        extension_type,
        extension_value,
    })
}

/// The extensions of a message (MS-NEGOEX 2.2.5.2.4), whose values are slices of the message. It takes no memory.
///
/// A contract sees their list.
#[derive(Drop)]
pub struct ExtensionsView<'a> {
    message: &'a [u8],
    offset: usize,
    count: usize,
}

impl<'a> Model for ExtensionsView<'a> {
    ghost Value = { List ExtensionSeen };

    ghost view = { λ v. elements_of extension_of 12 v.message.now v.offset v.count };

    ghost invariant = { λ v. (v.count < 2 ^ 32) × (v.offset < 2 ^ 32) × AreThere extension_view_layout.part extension_of 12 v.message.now v.offset v.count };
}

impl<'a> ExtensionsView<'a> {
    /// How many extensions there are.
    pub fn len(&self) -> usize
        ensures { result ≡ length self.now }
    {
        self.count
    }

    /// Whether there are no extensions.
    pub fn is_empty(&self) -> bool
        ensures { result ≡ (length self.now == 0) }
    {
        self.count == 0
    }

    /// Extension n, counted from 0. `None` where there are not so many.
    pub fn get(&self, n: usize) -> Option<ExtensionView<'a>>
        ensures { result ≡ slice_get self.now n }
    {
        if n >= self.count {
            return None;
        }
        extension_view(
            octets_from(self.message, self.offset + 12 * n),
            self.message,
        )
        .ok()
    }
}

/// The extensions whose vector the octets begin with.
fn extensions_view<'a>(octets: &[u8], message: &'a [u8]) -> io::Result<ExtensionsView<'a>>
    ensures found { IfOk result ((vector extension_view_layout).part octets.now message.now) }
    ensures rejected { IfErr result ((vector extension_view_layout).rejects octets.now message.now) }
    ensures memory { IfErr result IsNotMemory }
{
    let (offset, trailing) = u32_prefix(octets)?;
    let (count, _) = u32_prefix(trailing)?;
    let offset = offset as usize;
    let count = count as usize;
    if offset > message.len() {
        return Err(invalid_data());
    }
    'elements: for n in 0..count {
        extension_view(octets_from(message, offset + 12 * n), message)?;
    }
    Ok(ExtensionsView {
        message,
        offset,
        count,
    })
}

/// The schemes of a message (MS-NEGOEX 2.2.5.2.2), read out of its octets one by one. It takes no memory.
///
/// A contract sees their list.
#[derive(Drop)]
pub struct AuthSchemesView<'a> {
    message: &'a [u8],
    offset: usize,
    count: usize,
}

impl<'a> Model for AuthSchemesView<'a> {
    ghost Value = { List (List ℕ) };

    ghost view = { λ v. elements_of scheme_of 16 v.message.now v.offset v.count };

    ghost invariant = { λ v. (v.count < 2 ^ 32) × (v.offset < 2 ^ 32) × AreThere guid.part scheme_of 16 v.message.now v.offset v.count };
}

impl<'a> AuthSchemesView<'a> {
    /// How many schemes there are.
    pub fn len(&self) -> usize
        ensures { result ≡ length self.now }
    {
        self.count
    }

    /// Whether there are no schemes.
    pub fn is_empty(&self) -> bool
        ensures { result ≡ (length self.now == 0) }
    {
        self.count == 0
    }

    /// Scheme n, counted from 0, the best liked. `None` where there are not so many.
    pub fn get(&self, n: usize) -> Option<Uuid>
        ensures { result ≡ slice_get self.now n }
    {
        if n >= self.count {
            return None;
        }
        scheme_view(
            octets_from(self.message, self.offset + 16 * n),
            self.message,
        )
        .ok()
    }
}

/// The scheme that the octets begin with.
fn scheme_view(octets: &[u8], message: &[u8]) -> io::Result<Uuid>
    ensures found { IfOk result (guid.part octets.now message.now) }
    ensures rejected { IfErr result (guid.rejects octets.now message.now) }
    ensures memory { IfErr result IsNotMemory }
{
    match Uuid::fixed_prefix(octets, message) {
        Ok((scheme, _)) => Ok(scheme),
        Err(error) => Err(error),
    }
}

/// The schemes whose vector the octets begin with.
fn schemes_view<'a>(octets: &[u8], message: &'a [u8]) -> io::Result<AuthSchemesView<'a>>
    ensures found { IfOk result ((vector guid).part octets.now message.now) }
    ensures rejected { IfErr result ((vector guid).rejects octets.now message.now) }
    ensures memory { IfErr result IsNotMemory }
{
    let (offset, trailing) = u32_prefix(octets)?;
    let (count, _) = u32_prefix(trailing)?;
    let offset = offset as usize;
    let count = count as usize;
    if offset > message.len() {
        return Err(invalid_data());
    }
    'elements: for n in 0..count {
        scheme_view(octets_from(message, offset + 16 * n), message)?;
    }
    Ok(AuthSchemesView {
        message,
        offset,
        count,
    })
}

/// An `Exchange` (MS-NEGOEX 2.2.6.4) over the octets that the caller holds. It takes no memory.
#[derive(Drop)]
pub struct ExchangeView<'a> {
    header: MessageHeader,
    auth_scheme: Uuid,
    exchange: &'a [u8],
}

impl<'a> Model for ExchangeView<'a> {
    ghost Value = { ExchangeSeen };

    ghost view = { λ v. record { header = v.header; auth_scheme = v.auth_scheme; exchange = v.exchange.now } };
}

impl<'a> ExchangeView<'a> {
    /// The message that the octets begin with: that which `Exchange::decode` reads from them, and its first error where there is
    /// none.
    ///
    /// `InvalidData` at another signature or message type, and where the token's offset lies past the octets; `UnexpectedEof` where
    /// the octets end before a fixed part or the token does. There is no other error, since no memory is taken.
    pub fn new(octets: &'a [u8]) -> io::Result<Self>
        ensures found { IfOk result (exchange_view_layout.part octets.now octets.now) }
        ensures rejected { IfErr result (exchange_view_layout.rejects octets.now octets.now) }
        ensures memory { IfErr result IsNotMemory }
    {
        let (header, trailing) = match MessageHeader::fixed_prefix(octets, octets) {
            Ok(read) => read,
            Err(error) => return Err(error),
        };
        let (auth_scheme, trailing) = match Uuid::fixed_prefix(trailing, octets) {
            Ok(read) => read,
            Err(error) => return Err(error),
        };
        let exchange = octets_view(trailing, octets)?;
        Ok(ExchangeView {
            header,
            auth_scheme,
            exchange,
        })
    }

    /// What the message begins with.
    pub fn header(&self) -> MessageHeader
        ensures { result ≡ self.now.header }
    {
        self.header
    }

    /// The scheme that the token is of.
    pub fn auth_scheme(&self) -> Uuid
        ensures { result ≡ self.now.auth_scheme }
    {
        self.auth_scheme
    }

    /// The token. It lives as long as the message's octets.
    pub fn exchange(&self) -> &'a [u8]
        ensures { result.now ≡ self.now.exchange }
    {
        self.exchange
    }
}

/// A checksum (MS-NEGOEX 2.2.5.1.3) whose value is a slice of the message.
#[derive(Drop)]
pub struct ChecksumView<'a> {
    header_len: u32,
    checksum_scheme: u32,
    checksum_type: u32,
    checksum_value: &'a [u8],
}

impl<'a> Model for ChecksumView<'a> {
    ghost Value = { ChecksumSeen };

    ghost view = { λ v. record {
      header_len = v.header_len;
      checksum_scheme = v.checksum_scheme;
      checksum_type = v.checksum_type;
      checksum_value = v.checksum_value.now;
    } };
}

impl<'a> ChecksumView<'a> {
    /// How many octets the checksum says are before its value.
    pub fn header_len(&self) -> u32
        ensures { result ≡ self.now.header_len }
    {
        self.header_len
    }

    /// The scheme of checksums.
    pub fn checksum_scheme(&self) -> u32
        ensures { result ≡ self.now.checksum_scheme }
    {
        self.checksum_scheme
    }

    /// RFC 3961's number of a type of checksum.
    pub fn checksum_type(&self) -> u32
        ensures { result ≡ self.now.checksum_type }
    {
        self.checksum_type
    }

    /// The octets of the checksum. They live as long as the message's octets.
    pub fn checksum_value(&self) -> &'a [u8]
        ensures { result.now ≡ self.now.checksum_value }
    {
        self.checksum_value
    }
}

/// The checksum that the octets begin with.
fn checksum_view<'a>(octets: &[u8], message: &'a [u8]) -> io::Result<ChecksumView<'a>>
    ensures found { IfOk result (checksum_view_layout.part octets.now message.now) }
    ensures rejected { IfErr result (checksum_view_layout.rejects octets.now message.now) }
    ensures memory { IfErr result IsNotMemory }
{
    let (header_len, trailing) = u32_prefix(octets)?;
    let (scheme, trailing) = match Scheme::fixed_prefix(trailing, message) {
        Ok(read) => read,
        Err(error) => return Err(error),
    };
    let (checksum_type, trailing) = u32_prefix(trailing)?;
    let checksum_value = octets_view(trailing, message)?;
    Ok(ChecksumView {
        header_len,
        checksum_scheme: scheme.0,
        checksum_type,
        checksum_value,
    })
}

/// A `Verify` (MS-NEGOEX 2.2.6.5) over the octets that the caller holds. It takes no memory.
#[derive(Drop)]
pub struct VerifyView<'a> {
    header: MessageHeader,
    auth_scheme: Uuid,
    checksum: ChecksumView<'a>,
}

impl<'a> Model for VerifyView<'a> {
    ghost Value = { VerifySeen };

    ghost view = { λ v. record { header = v.header; auth_scheme = v.auth_scheme; checksum = v.checksum } };
}

impl<'a> VerifyView<'a> {
    /// The message that the octets begin with: that which `Verify::decode` reads from them, and its first error where there is
    /// none.
    ///
    /// `InvalidData` at another signature or message type, and where the value's offset lies past the octets; `InvalidInput` at
    /// another checksum scheme; `UnexpectedEof` where the octets end before a fixed part or the value does. There is no other
    /// error, since no memory is taken.
    pub fn new(octets: &'a [u8]) -> io::Result<Self>
        ensures found { IfOk result (verify_view_layout.part octets.now octets.now) }
        ensures rejected { IfErr result (verify_view_layout.rejects octets.now octets.now) }
        ensures memory { IfErr result IsNotMemory }
    {
        let (header, trailing) = match MessageHeader::fixed_prefix(octets, octets) {
            Ok(read) => read,
            Err(error) => return Err(error),
        };
        let (auth_scheme, trailing) = match Uuid::fixed_prefix(trailing, octets) {
            Ok(read) => read,
            Err(error) => return Err(error),
        };
        let checksum = checksum_view(trailing, octets)?;
        Ok(VerifyView {
            header,
            auth_scheme,
            checksum,
        })
    }

    /// What the message begins with.
    pub fn header(&self) -> MessageHeader
        ensures { result ≡ self.now.header }
    {
        self.header
    }

    /// The scheme whose key the checksum is made with.
    pub fn auth_scheme(&self) -> Uuid
        ensures { result ≡ self.now.auth_scheme }
    {
        self.auth_scheme
    }

    /// The checksum.
    pub fn checksum(&self) -> &ChecksumView<'a>
        ensures { result.now ≡ self.now.checksum }
    {
        &self.checksum
    }
}

/// A `Nego` (MS-NEGOEX 2.2.6.3) over the octets that the caller holds. It takes no memory.
#[derive(Drop)]
pub struct NegoView<'a> {
    header: MessageHeader,
    random: [u8; 32],
    protocol_version: u64,
    auth_schemes: AuthSchemesView<'a>,
    extensions: ExtensionsView<'a>,
}

impl<'a> Model for NegoView<'a> {
    ghost Value = { NegoSeen };

    ghost view = { λ v. record {
      header = v.header;
      random = v.random;
      protocol_version = v.protocol_version;
      auth_schemes = v.auth_schemes;
      extensions = v.extensions;
    } };
}

impl<'a> NegoView<'a> {
    /// The message that the octets begin with: that which `Nego::decode` reads from them, and its first error where there is
    /// none.
    ///
    /// `InvalidData` at another signature or message type, and where a vector's offset lies past the octets; `UnexpectedEof` where
    /// the octets end before a fixed part or an element does. There is no other error, since no memory is taken. The steps grow
    /// with the elements that are there.
    pub fn new(octets: &'a [u8]) -> io::Result<Self>
        ensures found { IfOk result (nego_view_layout.part octets.now octets.now) }
        ensures rejected { IfErr result (nego_view_layout.rejects octets.now octets.now) }
        ensures memory { IfErr result IsNotMemory }
    {
        let (header, trailing) = match MessageHeader::fixed_prefix(octets, octets) {
            Ok(read) => read,
            Err(error) => return Err(error),
        };
        let (random, trailing) = match <[u8; 32]>::fixed_prefix(trailing, octets) {
            Ok(read) => read,
            Err(error) => return Err(error),
        };
        let (protocol_version, trailing) = u64_prefix(trailing)?;
        let auth_schemes = schemes_view(trailing, octets)?;
        let extensions = extensions_view(octets_from(trailing, 8), octets)?;
        Ok(NegoView {
            header,
            random,
            protocol_version,
            auth_schemes,
            extensions,
        })
    }

    /// What the message begins with.
    pub fn header(&self) -> MessageHeader
        ensures { result ≡ self.now.header }
    {
        self.header
    }

    /// Random octets of the party.
    pub fn random(&self) -> &[u8; 32]
        ensures { result.now ≡ self.now.random }
    {
        &self.random
    }

    /// The version of the protocol.
    pub fn protocol_version(&self) -> u64
        ensures { result ≡ self.now.protocol_version }
    {
        self.protocol_version
    }

    /// The schemes, the best liked first.
    pub fn auth_schemes(&self) -> &AuthSchemesView<'a>
        ensures { result.now ≡ self.now.auth_schemes }
    {
        &self.auth_schemes
    }

    /// The extensions.
    pub fn extensions(&self) -> &ExtensionsView<'a>
        ensures { result.now ≡ self.now.extensions }
    {
        &self.extensions
    }
}

//! Fields of a credential cache as those of RFC 4120.

ghost use Rattle.std.specs.Prelude.{◌≡◌, ℕ, map, IfOk, IfErr};
ghost use Rattle.krb_der_core.specs.Integer.{whole_number};
ghost use Rattle.krb_file_tools.specs.Answers.{Answers, IsMemoryOr};
ghost use Rattle.krb_file_tools.specs.Kirbi.{each_of};
ghost use Rattle.krb_file_tools.specs.Message.{AreTimesOf, HasNoTime, HasNoTimes, InfoError, IsInfoOf, IsTimeOf, addresses_of, flag_bits, host_address};
ghost use Rattle.krb_file_tools.specs.Message.{integer_at, is_text, name_from, names_from, text_from};
ghost use Rattle.krb_file_tools.specs.declared.convert.error.ConvertError.TheVariants as errors;

use crate::components::components_of;
use crate::convert::error::ConvertError;
use byteorder::{BigEndian, ByteOrder};
use krb_der::{
    Asn1SequenceOf, BitStringAsn1, ExplicitContextTag, ExplicitContextTag0, ExplicitContextTag1,
    GeneralStringAsn1, IntegerAsn1, OctetStringAsn1, Optional,
};
use krb_enc_parts::data_types::KrbCredInfo;
use krb_files::ccache::{CcachePrincipalView, CredentialView, Times};
use krb_files::fields::{ComponentsView, TypedListView, TypedOctets};
use krb_types::data_types::{
    EncryptionKey, HostAddress, HostAddresses, KerberosFlags, KerberosStringAsn1, KerberosTime,
    PrincipalName, Realm,
};
use krb_types::view::time_of_unix_seconds;
use std::alloc::{AllocError, Global};
use std::str;

/// A field that may be absent, under its tag.
fn field<T, N>(value: Option<T>) -> Optional<Option<ExplicitContextTag<T, N>>>
    ensures { result.0 ≡ value }
{
    match value {
        Some(value) => Optional(Some(ExplicitContextTag::from(value))),
        None => Optional(None),
    }
}

/// The INTEGER whose two's complement a field's octets are.
fn integer_of(alloc: Global, octets: &[u8]) -> Result<IntegerAsn1, AllocError>
    ensures { IfOk result (λ z. z ≡ whole_number octets.now) }
{
    match IntegerAsn1::from_bytes_be_signed(alloc, Vec::from_slice(alloc, octets)?) {
        Ok(integer) => Ok(integer),
        Err(_) => Err(AllocError),
    }
}

/// The INTEGER of a number of 16 bits.
fn short_integer(alloc: Global, number: u16) -> Result<IntegerAsn1, AllocError>
    ensures { IfOk result (λ z. z ≡ integer_at 2 number) }
{
    let mut octets = [0u8; 2];
    BigEndian::write_u16(&mut octets, number);
    integer_of(alloc, &octets)
}

/// The INTEGER of a number of 32 bits.
fn long_integer(alloc: Global, number: u32) -> Result<IntegerAsn1, AllocError>
    ensures { IfOk result (λ z. z ≡ integer_at 4 number) }
{
    let mut octets = [0u8; 4];
    BigEndian::write_u32(&mut octets, number);
    integer_of(alloc, &octets)
}

/// Flags of 32 bits, of which the most significant is flag 0.
fn flags_of(alloc: Global, flags: u32) -> Result<KerberosFlags, AllocError>
    ensures { IfOk result (λ v. v ≡ flag_bits flags) }
{
    let mut octets = [0u8; 4];
    BigEndian::write_u32(&mut octets, flags);
    Ok(BitStringAsn1::with_bytes(Vec::from_slice(alloc, &octets)?))
}

/// Whether no octet is past 127.
fn is_text(octets: &[u8]) -> bool
    ensures { result ≡ is_text octets.now }
{
    octets.iter().all(|octet| *octet < 128)
}

/// The text of these octets. `Name` where one of them is past 127.
fn text_of(alloc: Global, octets: &[u8]) -> Result<KerberosStringAsn1, ConvertError>
    ensures { Answers (λ t. t) result (text_from octets.now) }
{
    if !is_text(octets) {
        return Err(ConvertError::Name);
    }
    let Ok(text) = str::from_utf8(octets) else {
        return Err(ConvertError::Name);
    };
    match GeneralStringAsn1::from_string(String::from_str(alloc, text)?) {
        Ok(text) => Ok(text),
        Err(_) => Err(ConvertError::Name),
    }
}

/// A time, absent where the seconds are 0. `Time` where no time has them.
fn time_of<N>(
    seconds: u32,
) -> Result<Optional<Option<ExplicitContextTag<KerberosTime, N>>>, ConvertError>
    ensures found { IfOk result (λ f. IsTimeOf seconds f.0) }
    ensures rejected { IfErr result (λ e. (e ≡ errors.Time) × HasNoTime seconds) }
{
    if seconds == 0 {
        return Ok(Optional(None));
    }
    match time_of_unix_seconds(i64::from(seconds)) {
        Ok(time) => Ok(field(Some(time))),
        Err(_) => Err(ConvertError::Time),
    }
}

/// The texts of octets, in their order. `Name` where an octet is past 127.
fn texts_of(alloc: Global, components: &[&[u8]]) -> Result<Vec<KerberosStringAsn1>, ConvertError>
    ensures { Answers (λ v. v.items) result (each_of (λ x. text_from x.now) components.now) }
{
    let mut texts = Vec::new(alloc);
    for component in components {
        texts.push(text_of(alloc, component)?)?;
    }
    Ok(texts)
}

/// The texts of components, in their order. `Name` where an octet is past 127.
fn component_texts(
    alloc: Global,
    components: ComponentsView,
) -> Result<Vec<KerberosStringAsn1>, ConvertError>
    ensures { Answers (λ v. v.items) result (each_of text_from components.entry) }
{
    let components = components_of(alloc, components)?;
    texts_of(alloc, &components)
}

/// The realm and the name of a principal. `Name` where an octet of them is past 127.
fn name_of(
    alloc: Global,
    principal: &CcachePrincipalView,
) -> Result<(Realm, PrincipalName), ConvertError>
    ensures { Answers (λ r. (r.0, r.1)) result (name_from principal.now) }
{
    let realm = text_of(alloc, principal.realm())?;
    let texts = component_texts(alloc, principal.components())?;
    let name = PrincipalName {
        name_type: ExplicitContextTag0::from(long_integer(alloc, principal.name_type())?),
        name_string: ExplicitContextTag1::from(Asn1SequenceOf(texts)),
    };
    Ok((realm, name))
}

/// A key of this encryption type.
fn key_of(alloc: Global, etype: u16, key: &[u8]) -> Result<EncryptionKey, AllocError>
    ensures etype { IfOk result (λ k. k.key_type ≡ integer_at 2 etype) }
    ensures octets { IfOk result (λ k. k.key_value ≡ key.now) }
{
    Ok(EncryptionKey {
        key_type: ExplicitContextTag0::from(short_integer(alloc, etype)?),
        key_value: ExplicitContextTag1::from(OctetStringAsn1(Vec::from_slice(alloc, key)?)),
    })
}

/// An address as a HostAddress.
fn address_of(alloc: Global, address: &TypedOctets) -> Result<HostAddress, AllocError>
    ensures { IfOk result (λ a. a ≡ host_address address.now) }
{
    Ok(HostAddress {
        addr_type: ExplicitContextTag0::from(short_integer(alloc, address.kind())?),
        address: ExplicitContextTag1::from(OctetStringAsn1(Vec::from_slice(
            alloc,
            address.octets(),
        )?)),
    })
}

/// Addresses with their types, in their order.
fn typed_of<'a>(alloc: Global, typed: TypedListView<'a>) -> Result<Vec<TypedOctets<'a>>, AllocError>
    ensures { IfOk result (λ v. v.items ≡ typed.entry) }
{
    typed.collect(alloc)
}

/// Addresses, in their order.
fn each_address(alloc: Global, typed: &[TypedOctets]) -> Result<Vec<HostAddress>, AllocError>
    ensures { IfOk result (λ v. v.items ≡ map host_address typed.now) }
{
    let mut addresses = Vec::new(alloc);
    for address in typed {
        addresses.push(address_of(alloc, address)?)?;
    }
    Ok(addresses)
}

/// The addresses of a ticket, absent where there are none.
fn addresses_of(alloc: Global, typed: &[TypedOctets]) -> Result<Option<HostAddresses>, AllocError>
    ensures { IfOk result (λ a. a ≡ addresses_of typed.now) }
{
    if typed.is_empty() {
        return Ok(None);
    }
    Ok(Some(Asn1SequenceOf(each_address(alloc, typed)?)))
}

/// The times of a ticket, each absent where it is 0.
#[derive(Drop)]
struct TimeFields<A, B, C, D> {
    auth_time: Optional<Option<ExplicitContextTag<KerberosTime, A>>>,
    start_time: Optional<Option<ExplicitContextTag<KerberosTime, B>>>,
    end_time: Optional<Option<ExplicitContextTag<KerberosTime, C>>>,
    renew_till: Optional<Option<ExplicitContextTag<KerberosTime, D>>>,
}

/// The times of a ticket. `Time` where no time is so many seconds after 1970.
fn times_of<A, B, C, D>(times: Times) -> Result<TimeFields<A, B, C, D>, ConvertError>
    ensures found { IfOk result (λ f. AreTimesOf times f.auth_time.0 f.start_time.0 f.end_time.0 f.renew_till.0) }
    ensures rejected { IfErr result (λ e. (e ≡ errors.Time) × HasNoTimes times) }
{
    Ok(TimeFields {
        auth_time: time_of(times.authtime)?,
        start_time: time_of(times.starttime)?,
        end_time: time_of(times.endtime)?,
        renew_till: time_of(times.renew_till)?,
    })
}

/// The realm and the name of a client and of a server.
#[derive(Drop)]
struct Names {
    client: (Realm, PrincipalName),
    server: (Realm, PrincipalName),
}

/// The names of the client and the server of a credential. `Name` where an octet of them is past 127.
fn names_of(alloc: Global, credential: &CredentialView) -> Result<Names, ConvertError>
    ensures { Answers (λ n. (n.client, n.server)) result (names_from credential.now) }
{
    let client = name_of(alloc, credential.client())?;
    match name_of(alloc, credential.server()) {
        Ok(server) => Ok(Names { client, server }),
        Err(error) => {
            drop(client);
            Err(error)
        }
    }
}

/// The addresses of the ticket of a credential, absent where there are none.
fn caddr_of(alloc: Global, credential: &CredentialView) -> Result<Option<HostAddresses>, AllocError>
    ensures { IfOk result (λ a. a ≡ addresses_of credential.now.addresses) }
{
    let typed = typed_of(alloc, credential.addresses())?;
    addresses_of(alloc, &typed)
}

/// What goes along with a ticket beside names and times.
#[derive(Drop)]
struct Rest {
    key: EncryptionKey,
    flags: KerberosFlags,
    caddr: Option<HostAddresses>,
}

/// What goes along with the ticket of a credential beside names and times.
fn rest_of(alloc: Global, credential: &CredentialView) -> Result<Rest, AllocError>
    ensures keytype { IfOk result (λ r. r.key.key_type ≡ integer_at 2 credential.now.etype) }
    ensures keyvalue { IfOk result (λ r. r.key.key_value ≡ credential.now.key) }
    ensures flags { IfOk result (λ r. r.flags ≡ flag_bits credential.now.flags) }
    ensures caddr { IfOk result (λ r. r.caddr ≡ addresses_of credential.now.addresses) }
{
    let key = key_of(alloc, credential.etype(), credential.key())?;
    let flags = flags_of(alloc, credential.flags())?;
    let caddr = caddr_of(alloc, credential)?;
    Ok(Rest { key, flags, caddr })
}

/// What goes along with the ticket of a credential. The first rule that is broken: `Name` of the client or the server, `Time`.
pub(crate) fn info_of(
    alloc: Global,
    credential: &CredentialView,
) -> Result<KrbCredInfo, ConvertError>
    ensures found { IfOk result (IsInfoOf credential.now) }
    ensures rejected { IfErr result (λ e. IsMemoryOr e (InfoError credential.now e)) }
{
    let names = names_of(alloc, credential)?;
    let Ok(rest) = rest_of(alloc, credential) else {
        drop(names);
        return Err(ConvertError::OutOfMemory);
    };
    match times_of(credential.times()) {
        Ok(times) => Ok(KrbCredInfo {
            key: ExplicitContextTag0::from(rest.key),
            prealm: field(Some(names.client.0)),
            pname: field(Some(names.client.1)),
            flags: field(Some(rest.flags)),
            auth_time: times.auth_time,
            start_time: times.start_time,
            end_time: times.end_time,
            renew_till: times.renew_till,
            srealm: field(Some(names.server.0)),
            sname: field(Some(names.server.1)),
            caddr: field(rest.caddr),
        }),
        Err(error) => {
            drop(names);
            drop(rest);
            Err(error)
        }
    }
}

//! Keys, flags, tickets and octets with their types, as a credential has them (MIT Kerberos, "Credential cache file format", "Credential format").

ghost use Rattle.std.specs.Prelude.{◌≡◌, IfOk, OnErr, OnOk};
ghost use Rattle.krb_show.specs.Leaves.{flags_of};
ghost use Rattle.krb_show.specs.Pages.{list_of};
ghost use Rattle.krb_show.specs.Tokens.{Begins, plain};
ghost use Rattle.krb_show_messages.specs.Shown.{shows_of};
ghost use Rattle.krb_show_pages.specs.Files.{address_of, authorization_element_of, flag_bits, header_field_of, key_of, ticket_of, unread_of};

use crate::files::values::KeyOctets;
use crate::files::{Address, AuthorizationElement, File, HeaderField};
use byteorder::{BigEndian, ByteOrder};
use krb_der::{BitStringAsn1, Der, DerEncode};
use krb_files::fields::{TypedListView, TypedOctets};
use krb_show::{
    Label, Page, Show, ShowFields, open, show_fields, show_list, show_octets, show_secret,
    show_struct,
};
use krb_show_messages::{HasRow, show_value};
use krb_types::data_types::Ticket;
use std::alloc::{AllocError, Global};

/// The fields of octets with their type.
#[derive(Drop)]
struct TypedFields<'a> {
    kind: u32,
    octets: &'a [u8],
}

/// The fields of these octets.
fn typed_fields<'a>(typed: &TypedOctets<'a>) -> TypedFields<'a>
    ensures kind { result.kind ≡ typed.now.kind }
    ensures octets { result.octets.now ≡ typed.now.octets }
{
    TypedFields {
        kind: u32::from(typed.kind()),
        octets: typed.octets(),
    }
}

/// A field of a cache's header.
impl<'a> Show<HeaderField> for TypedOctets<'a> {
    ghost shows = { header_field_of };

    fn show(&self, alloc: Global, label: &Label, page: &mut Page) -> Result<(), AllocError> {
        let fields = typed_fields(self);
        show_struct(
            alloc,
            label,
            &show_fields!(File; fields; "tag" = kind, "octets" = octets),
            page,
        )
    }
}

/// An address (RFC 4120, 5.2.5 and 7.5.3).
impl<'a> Show<Address> for TypedOctets<'a> {
    ghost shows = { address_of };

    fn show(&self, alloc: Global, label: &Label, page: &mut Page) -> Result<(), AllocError> {
        let fields = typed_fields(self);
        show_struct(
            alloc,
            label,
            &show_fields!(File; fields; "addr-type" AddressType = kind, "address" = octets),
            page,
        )
    }
}

/// An element of authorization data (RFC 4120, 5.2.6).
impl<'a> Show<AuthorizationElement> for TypedOctets<'a> {
    ghost shows = { authorization_element_of };

    fn show(&self, alloc: Global, label: &Label, page: &mut Page) -> Result<(), AllocError> {
        let fields = typed_fields(self);
        show_struct(
            alloc,
            label,
            &show_fields!(File; fields; "ad-type" AuthorizationDataType = kind, "ad-data" = octets),
            page,
        )
    }
}

/// Octets with their types, in their order.
fn typed_of<'a>(alloc: Global, typed: TypedListView<'a>) -> Result<Vec<TypedOctets<'a>>, AllocError>
    ensures { IfOk result (λ v. v.items ≡ typed.entry) }
{
    typed.collect(alloc)
}

/// The addresses of a credential, in their order.
#[derive(Drop)]
pub(crate) struct Addresses<'a> {
    pub(crate) list: TypedListView<'a>,
}

impl<'a> Show<File> for Addresses<'a> {
    ghost shows = { λ label v. list_of address_of label v.list };

    fn show(&self, alloc: Global, label: &Label, page: &mut Page) -> Result<(), AllocError> {
        let items = typed_of(alloc, self.list.again())?;
        show_list::<Address, _>(alloc, label, &items, page)
    }
}

/// The authorization data of a credential, in its order.
#[derive(Drop)]
pub(crate) struct AuthorizationElements<'a> {
    pub(crate) list: TypedListView<'a>,
}

impl<'a> Show<File> for AuthorizationElements<'a> {
    ghost shows = { λ label v. list_of authorization_element_of label v.list };

    fn show(&self, alloc: Global, label: &Label, page: &mut Page) -> Result<(), AllocError> {
        let items = typed_of(alloc, self.list.again())?;
        show_list::<AuthorizationElement, _>(alloc, label, &items, page)
    }
}

/// A key: its encryption type and its octets.
#[derive(Drop)]
pub(crate) struct Key<'a> {
    pub(crate) keytype: u32,
    pub(crate) keyvalue: KeyOctets<'a>,
}

impl<'a> Show<File> for Key<'a> {
    ghost shows = { λ label v. key_of label v.keytype v.keyvalue };

    fn show(&self, alloc: Global, label: &Label, page: &mut Page) -> Result<(), AllocError> {
        show_struct(
            alloc,
            label,
            &show_fields!(File; self; "keytype" EncryptionType = keytype, "keyvalue" = keyvalue),
            page,
        )
    }
}

/// Flags of 32 bits as a bit string, bit 0 the most significant (RFC 4120, 5.2.8).
fn flag_bits(alloc: Global, flags: u32) -> Result<BitStringAsn1, AllocError>
    ensures { IfOk result (λ v. v ≡ flag_bits flags) }
{
    let mut octets = [0u8; 4];
    BigEndian::write_u32(&mut octets, flags);
    let mut bits = Vec::with_capacity(alloc, 4)?;
    bits.extend_from_slice(&octets)?;
    Ok(BitStringAsn1::with_bytes(bits))
}

/// The flags of a ticket (RFC 4120, 5.3).
#[derive(Drop)]
pub(crate) struct TicketFlags {
    pub(crate) flags: u32,
}

impl Show<File> for TicketFlags {
    ghost shows = { λ label v. flags_of label (flag_bits v.flags) };

    fn show(&self, alloc: Global, label: &Label, page: &mut Page) -> Result<(), AllocError> {
        let bits = flag_bits(alloc, self.flags)?;
        Show::<File>::show(&bits, alloc, label, page)
    }
}

/// Appends octets in a ticket's place that are no ticket: a secret, where there are any.
fn show_unread(
    alloc: Global,
    label: &Label,
    octets: &[u8],
    page: &mut Page,
) -> Result<(), AllocError>
    ensures ok { OnOk result (unread_of label.now octets.now page.old.items page.new.items) }
    ensures kept { OnOk result (Begins page.old.items page.new.items) }
    ensures err { OnErr result (page.new.items ≡ page.old.items) }
{
    if octets.is_empty() {
        show_octets(alloc, label, octets, page)
    } else {
        show_secret(alloc, label, octets, page)
    }
}

/// Appends octets in a ticket's place, called `text`: those that are the encoding of a value of `T` by its row, and others as a secret.
fn show_ticket<T: Der + HasRow + Drop>(
    alloc: Global,
    text: &'static str,
    octets: &[u8],
    page: &mut Page,
) -> Result<(), AllocError>
    ensures ok { OnOk result (ticket_of T.is_value T.enc (shows_of T.row_name T.enc) (plain text.now) octets.now page.old.items page.new.items) }
    ensures kept { OnOk result (Begins page.old.items page.new.items) }
    ensures err { OnErr result (page.new.items ≡ page.old.items) }
{
    match open::<T>(alloc, octets)? {
        Some(value) => show_value(alloc, text, &value, page),
        None => show_unread(alloc, &Label::new(text), octets, page),
    }
}

/// Octets in a ticket's place, and what they are called, lent for showing: a Ticket (RFC 4120, 5.3) by its row.
#[derive(Drop)]
pub(crate) struct TicketOctets<'a> {
    pub(crate) text: &'static str,
    pub(crate) octets: &'a [u8],
}

impl<'a> ShowFields for TicketOctets<'a> {
    ghost shows = { λ f. ticket_of ⟦<Ticket as DerEncode>⟧.is_value ⟦<Ticket as DerEncode>⟧.enc
        (shows_of ⟦<Ticket as HasRow>⟧.row_name ⟦<Ticket as DerEncode>⟧.enc) (plain f.text.now) f.octets.now };

    fn show_fields(&self, alloc: Global, page: &mut Page) -> Result<(), AllocError> {
        show_ticket::<Ticket>(alloc, self.text, self.octets, page)
    }
}

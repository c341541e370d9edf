//! The messages of NEGOEX (MS-NEGOEX, 2.2.6) as pages, and where what a page tells stands in them.
#![tactic(auto)]

ghost use Rattle.std.specs.Prelude.{◌≡◌, ◌≢◌, ◌<◌, ◌≤◌, ◌⊎◌, [], length, IfOk, IfErr, MatchBool, MatchResult, true, false, codes};
ghost use Rattle.std.specs.IoError.{error_kind};
ghost use Rattle.krb_show.specs.Leaves.{octets_of, word_of};
ghost use Rattle.krb_show.specs.Pages.{list_of};
ghost use Rattle.krb_show.specs.Tokens.{plain};
ghost use Rattle.krb_negoex.specs.Rejected.{IsMemory};
ghost use Rattle.krb_negoex.specs.Wire.{header_layout};
ghost use Rattle.krb_show_negoex.specs.Negoex.{AreTold, IsExchangeTold, IsFollowed, IsMessageTold, IsNegoTold, IsVerifyTold, list_tokens, own_length, type_name, type_number};
ghost use Rattle.krb_show_negoex.specs.Negoex.{checksum_of, exchange_of, extension_of, guid_of, header_of, nego_of, verify_of};

mod pieces;
mod places;

use crate::pieces::{Unsaid, unsaid_exchange, unsaid_nego, unsaid_verify};
pub use crate::places::places_of_negoex;
use byteorder::{ByteOrder, LittleEndian};
use krb_negoex::negoex::data_types::{MessageHeader, MessageType};
use krb_negoex::negoex::views::{
    AuthSchemesView, ChecksumView, ExchangeView, ExtensionView, ExtensionsView, NegoView,
    VerifyView,
};
use krb_schema::Role;
use krb_show::{
    Field, Form, Label, Page, Show, push_token, show_fields, show_list, show_octets, show_struct,
    show_word,
};
use std::alloc::{AllocError, Global};
use std::io;
use std::io::ErrorKind;
use std::marker::PhantomData;
use uuid::Uuid;

/// The way in which messages of NEGOEX are shown.
#[derive(Drop)]
pub struct Format;

/// A GUID, in the text of RFC 9562, 4.
impl Show<Format> for Uuid {
    ghost shows = { guid_of };

    fn show(&self, alloc: Global, label: &Label, page: &mut Page) -> Result<(), AllocError> {
        let mut buffer = Uuid::encode_buffer();
        let text = self.hyphenated().encode_lower(&mut buffer);
        show_word(alloc, label, text.as_bytes(), page)
    }
}

/// The items of a list.
impl<T: Show<Format>> Show<Format> for Vec<T> {
    ghost shows = { λ label v. list_of T.shows label v.items };

    fn show(&self, alloc: Global, label: &Label, page: &mut Page) -> Result<(), AllocError> {
        show_list(alloc, label, self.as_slice(), page)
    }
}

/// Random octets.
impl Show<Format> for [u8; 32] {
    ghost shows = { octets_of };

    fn show(&self, alloc: Global, label: &Label, page: &mut Page) -> Result<(), AllocError> {
        show_octets(alloc, label, self.as_slice(), page)
    }
}

/// Octets of the input.
impl<'a> Show<Format> for &'a [u8] {
    ghost shows = { λ label v. octets_of label v.now };

    fn show(&self, alloc: Global, label: &Label, page: &mut Page) -> Result<(), AllocError> {
        show_octets(alloc, label, self, page)
    }
}

/// The name of a type of message (MS-NEGOEX, 2.2.6.1).
fn type_name(message_type: MessageType) -> &'static str
    ensures { result.now ≡ type_name message_type }
{
    match message_type {
        MessageType::InitiatorNego => "MESSAGE_TYPE_INITIATOR_NEGO",
        MessageType::AcceptorNego => "MESSAGE_TYPE_ACCEPTOR_NEGO",
        MessageType::InitiatorMetaData => "MESSAGE_TYPE_INITIATOR_META_DATA",
        MessageType::AcceptorMetaData => "MESSAGE_TYPE_ACCEPTOR_META_DATA",
        MessageType::Challenge => "MESSAGE_TYPE_CHALLENGE",
        MessageType::ApRequest => "MESSAGE_TYPE_AP_REQUEST",
        MessageType::Verify => "MESSAGE_TYPE_VERIFY",
        MessageType::Alert => "MESSAGE_TYPE_ALERT",
    }
}

/// The name of a type of message, which stands for its number.
impl Show<Format> for MessageType {
    ghost shows = { λ label v. word_of label (type_name v) };

    fn show(&self, alloc: Global, label: &Label, page: &mut Page) -> Result<(), AllocError> {
        show_word(alloc, label, type_name(*self).as_bytes(), page)
    }
}

/// What a message begins with (MS-NEGOEX, 2.2.6.2).
impl Show<Format> for MessageHeader {
    ghost shows = { header_of };

    fn show(&self, alloc: Global, label: &Label, page: &mut Page) -> Result<(), AllocError> {
        show_struct(
            alloc,
            label,
            &show_fields!(
                Format; self;
                "MessageType" = message_type,
                "SequenceNum" = sequence_num,
                "cbHeaderLength" = header_len,
                "cbMessageLength" = message_len,
                "ConversationId" = conversation_id
            ),
            page,
        )
    }
}

/// The fields of an extension.
#[derive(Drop)]
struct ExtensionFields<'a> {
    extension_type: u32,
    extension_value: &'a [u8],
}

/// An extension (MS-NEGOEX, 2.2.5.1.4).
impl<'a> Show<Format> for ExtensionView<'a> {
    ghost shows = { extension_of };

    fn show(&self, alloc: Global, label: &Label, page: &mut Page) -> Result<(), AllocError> {
        let fields = ExtensionFields {
            extension_type: self.extension_type(),
            extension_value: self.extension_value(),
        };
        show_struct(
            alloc,
            label,
            &show_fields!(Format; fields; "ExtensionType" = extension_type, "ExtensionValue" = extension_value),
            page,
        )
    }
}

/// The fields of a checksum.
#[derive(Drop)]
struct ChecksumFields<'a> {
    header_len: u32,
    checksum_scheme: u32,
    checksum_type: u32,
    checksum_value: &'a [u8],
}

/// A checksum (MS-NEGOEX, 2.2.5.1.3).
impl<'a> Show<Format> for ChecksumView<'a> {
    ghost shows = { checksum_of };

    fn show(&self, alloc: Global, label: &Label, page: &mut Page) -> Result<(), AllocError> {
        let fields = ChecksumFields {
            header_len: self.header_len(),
            checksum_scheme: self.checksum_scheme(),
            checksum_type: self.checksum_type(),
            checksum_value: self.checksum_value(),
        };
        show_struct(
            alloc,
            label,
            &show_fields!(
                Format; fields;
                "cbHeaderLength" = header_len,
                "ChecksumScheme" = checksum_scheme,
                "ChecksumType" ChecksumType = checksum_type,
                "ChecksumValue" = checksum_value
            ),
            page,
        )
    }
}

/// The schemes of a message.
fn schemes(alloc: Global, view: &AuthSchemesView) -> Result<Vec<Uuid>, AllocError>
    ensures { IfOk result (λ schemes. schemes.items ≡ view.now) }
{
    let mut schemes = Vec::new(alloc);
    for n in 0..view.len() {
        match view.get(n) {
            Some(scheme) => schemes.push(scheme)?,
            None => unreachable!(),
        }
    }
    Ok(schemes)
}

/// The extensions of a message.
fn extensions<'a>(
    alloc: Global,
    view: &ExtensionsView<'a>,
) -> Result<Vec<ExtensionView<'a>>, AllocError>
    ensures { IfOk result (λ extensions. extensions.items ≡ view.now) }
{
    let mut extensions = Vec::new(alloc);
    for n in 0..view.len() {
        match view.get(n) {
            Some(extension) => extensions.push(extension)?,
            None => unreachable!(),
        }
    }
    Ok(extensions)
}

/// A message, and all of its octets where they are not what it is written as.
#[derive(Drop)]
struct Seen<'v, V> {
    message: &'v V,
    octets: Unsaid<'v>,
}

/// The fields of a `Nego` before its extensions.
#[derive(Drop)]
struct NegoFields {
    header: MessageHeader,
    random: [u8; 32],
    protocol_version: u64,
    auth_schemes: Vec<Uuid>,
}

/// A party's schemes (MS-NEGOEX, 2.2.6.3).
impl<'v, 'a> Show<Format> for Seen<'v, NegoView<'a>> {
    ghost shows = { λ label v. nego_of label v.message.now v.octets };

    fn show(&self, alloc: Global, label: &Label, page: &mut Page) -> Result<(), AllocError> {
        let message = self.message;
        let fields = NegoFields {
            header: message.header(),
            random: *message.random(),
            protocol_version: message.protocol_version(),
            auth_schemes: schemes(alloc, message.auth_schemes())?,
        };
        let items = extensions(alloc, message.extensions())?;
        let extensions = Field {
            label: Label {
                text: "Extensions",
                kind: None,
                role: Role::None,
                is_item: false,
            },
            value: &items,
            shown: PhantomData::<Format>,
        };
        let fields = (
            show_fields!(
                Format; fields;
                "Header" = header,
                "Random" = random,
                "ProtocolVersion" = protocol_version,
                "AuthSchemes" = auth_schemes
            ),
            extensions,
        );
        let octets = show_fields!(Format; self; "octets" = octets);
        show_struct(alloc, label, &(fields, octets), page)
    }
}

/// The fields of an `Exchange`.
#[derive(Drop)]
struct ExchangeFields<'a> {
    header: MessageHeader,
    auth_scheme: Uuid,
    exchange: &'a [u8],
}

/// A token of a scheme (MS-NEGOEX, 2.2.6.4).
impl<'v, 'a> Show<Format> for Seen<'v, ExchangeView<'a>> {
    ghost shows = { λ label v. exchange_of label v.message.now v.octets };

    fn show(&self, alloc: Global, label: &Label, page: &mut Page) -> Result<(), AllocError> {
        let message = self.message;
        let fields = ExchangeFields {
            header: message.header(),
            auth_scheme: message.auth_scheme(),
            exchange: message.exchange(),
        };
        let fields = show_fields!(
            Format; fields;
            "Header" = header,
            "AuthScheme" = auth_scheme,
            "Exchange" = exchange
        );
        let octets = show_fields!(Format; self; "octets" = octets);
        show_struct(alloc, label, &(fields, octets), page)
    }
}

/// The fields of a `Verify` before its checksum.
#[derive(Drop)]
struct VerifyFields {
    header: MessageHeader,
    auth_scheme: Uuid,
}

/// A checksum of the conversation (MS-NEGOEX, 2.2.6.5).
impl<'v, 'a> Show<Format> for Seen<'v, VerifyView<'a>> {
    ghost shows = { λ label v. verify_of label v.message.now v.octets };

    fn show(&self, alloc: Global, label: &Label, page: &mut Page) -> Result<(), AllocError> {
        let message = self.message;
        let fields = VerifyFields {
            header: message.header(),
            auth_scheme: message.auth_scheme(),
        };
        let checksum = Field {
            label: Label {
                text: "Checksum",
                kind: None,
                role: Role::None,
                is_item: false,
            },
            value: message.checksum(),
            shown: PhantomData::<Format>,
        };
        let fields = (
            show_fields!(Format; fields; "Header" = header, "AuthScheme" = auth_scheme),
            checksum,
        );
        let octets = show_fields!(Format; self; "octets" = octets);
        show_struct(alloc, label, &(fields, octets), page)
    }
}

/// The page of a message with this header, where its length is that of the octets.
fn page_with<T: Show<Format>>(
    alloc: Global,
    label: &Label,
    header: MessageHeader,
    message: &T,
    octets: &[u8],
) -> io::Result<Page>
    ensures found { IfOk result (λ page. (header.message_len ≡ length octets.now) × T.shows label.now message.now [] page.items) }
    ensures refused { IfErr result (λ e. IsMemory e ⊎ ((error_kind e ≡ ErrorKind.InvalidData) × (header.message_len ≢ length octets.now))) }
{
    if header.message_len as usize != octets.len() {
        return Err(io::Error::from(ErrorKind::InvalidData));
    }
    let mut page = Vec::new(alloc);
    match message.show(alloc, label, &mut page) {
        Ok(()) => Ok(page),
        Err(_) => Err(io::Error::from(ErrorKind::OutOfMemory)),
    }
}

/// The page of a `Nego`.
fn page_of_nego(alloc: Global, is_item: bool, octets: &[u8]) -> io::Result<Page>
    ensures { IsNegoTold is_item (λ page. page.items) octets.now result }
{
    match NegoView::new(octets) {
        Ok(message) => {
            let seen = Seen {
                message: &message,
                octets: unsaid_nego(octets, &message),
            };
            let label = Label {
                text: "NEGO_MESSAGE",
                kind: None,
                role: Role::None,
                is_item,
            };
            page_with(alloc, &label, message.header(), &seen, octets)
        }
        Err(error) => Err(error),
    }
}

/// The page of an `Exchange`.
fn page_of_exchange(alloc: Global, is_item: bool, octets: &[u8]) -> io::Result<Page>
    ensures { IsExchangeTold is_item (λ page. page.items) octets.now result }
{
    match ExchangeView::new(octets) {
        Ok(message) => {
            let seen = Seen {
                message: &message,
                octets: unsaid_exchange(octets, &message),
            };
            let label = Label {
                text: "EXCHANGE_MESSAGE",
                kind: None,
                role: Role::None,
                is_item,
            };
            page_with(alloc, &label, message.header(), &seen, octets)
        }
        Err(error) => Err(error),
    }
}

/// The page of a `Verify`.
fn page_of_verify(alloc: Global, is_item: bool, octets: &[u8]) -> io::Result<Page>
    ensures { IsVerifyTold is_item (λ page. page.items) octets.now result }
{
    match VerifyView::new(octets) {
        Ok(message) => {
            let seen = Seen {
                message: &message,
                octets: unsaid_verify(octets, &message),
            };
            let label = Label {
                text: "VERIFY_MESSAGE",
                kind: None,
                role: Role::None,
                is_item,
            };
            page_with(alloc, &label, message.header(), &seen, octets)
        }
        Err(error) => Err(error),
    }
}

/// The page of the one message that the octets are.
fn page_of_message(alloc: Global, is_item: bool, octets: &[u8]) -> io::Result<Page>
    ensures short { length octets.now < 12 → MatchResult result (λ page. ⊥) (header_layout.rejects octets.now octets.now) }
    ensures nego { 12 ≤ length octets.now → type_number octets.now ≤ 1 → IsNegoTold is_item (λ page. page.items) octets.now result }
    ensures exchange { 12 ≤ length octets.now → 2 ≤ type_number octets.now → type_number octets.now ≤ 5
        → IsExchangeTold is_item (λ page. page.items) octets.now result }
    ensures verify { 12 ≤ length octets.now → type_number octets.now ≡ 6 → IsVerifyTold is_item (λ page. page.items) octets.now result }
    ensures other { 12 ≤ length octets.now → 7 ≤ type_number octets.now → MatchResult result (λ page. ⊥) (λ e. error_kind e ≡ ErrorKind.InvalidData) }
{
    if octets.len() < 12 {
        return Err(header_error(octets));
    }
    match LittleEndian::read_u32(&octets[8..]) {
        0..=1 => page_of_nego(alloc, is_item, octets),
        2..=5 => page_of_exchange(alloc, is_item, octets),
        6 => page_of_verify(alloc, is_item, octets),
        _ => Err(io::Error::from(ErrorKind::InvalidData)),
    }
}

/// Whether another message stands behind the first one, by the length that this one says.
fn is_followed(octets: &[u8]) -> bool
    ensures { MatchBool result (IsFollowed octets.now) (IsFollowed octets.now → ⊥) }
{
    if octets.len() < 24 {
        return false;
    }
    let size = own_length(octets);
    40 <= size && size < octets.len()
}

/// The length that the first message says (MS-NEGOEX, 2.2.6.2, cbMessageLength).
fn own_length(octets: &[u8]) -> usize
    requires { 24 ≤ length octets.now }
    ensures { result ≡ own_length octets.now }
{
    LittleEndian::read_u32(&octets[20..]) as usize
}

/// The page of several messages.
fn page_of_several(alloc: Global, octets: &[u8]) -> io::Result<Page>
    ensures { AreTold (λ page. page.items) octets.now result }
{
    let mut items = Vec::new(alloc);
    let mut count = 0;
    let mut rest = octets;
    while is_followed(rest) {
        let (first, others) = rest.split_at(own_length(rest));
        let mut page = match page_of_message(alloc, true, first) {
            Ok(page) => page,
            Err(error) => return Err(error),
        };
        if items.append(&mut page).is_err() {
            return Err(io::Error::from(ErrorKind::OutOfMemory));
        }
        count += 1;
        rest = others;
    }
    let mut page = match page_of_message(alloc, true, rest) {
        Ok(page) => page,
        Err(error) => return Err(error),
    };
    if items.append(&mut page).is_err() {
        return Err(io::Error::from(ErrorKind::OutOfMemory));
    }
    match listed(alloc, count + 1, items) {
        Ok(page) => Ok(page),
        Err(_) => Err(io::Error::from(ErrorKind::OutOfMemory)),
    }
}

/// The list of so many messages with these tokens.
fn listed(alloc: Global, count: usize, items: Page) -> Result<Page, AllocError>
    ensures { IfOk result (λ page. page.items ≡ list_tokens count items.items) }
{
    let label = Label::new("NEGOEX");
    let digits = format!(in alloc; "{}", count)?;
    let mut items = items;
    let mut page = Vec::new(alloc);
    push_token(
        alloc,
        Form::List,
        &label,
        digits.into_bytes(),
        Vec::new(alloc),
        &mut page,
    )?;
    page.append(&mut items)?;
    push_token(
        alloc,
        Form::ListEnd,
        &label,
        Vec::new(alloc),
        Vec::new(alloc),
        &mut page,
    )?;
    Ok(page)
}

/// The page of the messages of NEGOEX that the octets are, told by their MessageTypes (MS-NEGOEX, 2.2.6.1): a `NEGO_MESSAGE` of 0 and 1, an
/// `EXCHANGE_MESSAGE` of 2 to 5, a `VERIFY_MESSAGE` of 6. The fields have the standard's names, but the signature, which is fixed, is not
/// shown; GUIDs are in the text of RFC 9562, 4.
///
/// A token has one message or several, one behind another (MS-NEGOEX, 2.2.6). Where the first one's own length (2.2.6.2, cbMessageLength) is
/// a header's 40 octets at least and less than that of the octets, another message begins behind it, and so on; the page is then a list
/// `NEGOEX` of the messages, in their order.
///
/// A message names where its vectors are. Where they stand as they are written, one behind another behind the fixed part (and four zeros, in a
/// `VERIFY_MESSAGE`), an empty vector at offset zero, the fields tell all octets. Where they do not, as with a gap, with octets behind them or
/// with vectors that overlap, the struct has one more field at its end, `octets`: all octets of the message.
///
/// The first error of the first message that has one decides. An alert and an unknown type are `InvalidData`. Else it is that of
/// `NegoView::new`, `ExchangeView::new` and `VerifyView::new` over the message's octets; where they end before the type, that of the header. A
/// last message whose own length is not that of its octets is `InvalidData`. An allocation failure is `OutOfMemory`. The steps grow
/// with the octets and the page, on which extensions that share their octets have them each.
pub fn page_of_negoex(alloc: Global, octets: &[u8]) -> io::Result<Page>
    ensures one { (IsFollowed octets.now → ⊥) → IsMessageTold false (λ page. page.items) octets.now result }
    ensures several { IsFollowed octets.now → AreTold (λ page. page.items) octets.now result }
{
    if is_followed(octets) {
        page_of_several(alloc, octets)
    } else {
        page_of_message(alloc, false, octets)
    }
}

/// The error of a header that is cut short.
fn header_error(octets: &[u8]) -> io::Error
    requires { length octets.now < 12 }
    ensures { header_layout.rejects octets.now octets.now result }
{
    match ExchangeView::new(octets) {
        Ok(_view) => unreachable!(),
        Err(error) => error,
    }
}

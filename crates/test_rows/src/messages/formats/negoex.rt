//! Messages of NEGOEX (MS-NEGOEX, 2.2.6).

use crate::messages::formats::negoex_data::try_data;
use crate::messages::row::{Attempt, Row};
use crate::messages::trials::{Format, made, tried};
use krb_negoex::negoex::NegoexMessage;
use krb_negoex::negoex::data_types::Extension;
use krb_negoex::negoex::messages::{Exchange, Nego, Verify};
use krb_negoex::negoex::views::{ExchangeView, ExtensionsView, NegoView, VerifyView};
use std::alloc::Global;
use std::fmt::Debug;
use std::io;
use std::io::{Read, Write};
use std::marker::PhantomData;

/// A message.
struct Message<M>(PhantomData<M>);

impl<M: NegoexMessage<Error = io::Error> + Debug + PartialEq + Drop> Format for Message<M> {
    type Value = M;

    type Error = io::Error;

    fn read_from<R: Read>(alloc: Global, octets: &[u8], _reader: &mut R) -> io::Result<M> {
        M::decode(alloc, octets)
    }

    fn write_to<W: Write>(alloc: Global, value: &M, writer: &mut W) -> io::Result<()> {
        value.encode(alloc, writer)
    }
}

/// Clones of the extensions of a view.
fn extensions_of(alloc: Global, view: &ExtensionsView<'_>) -> io::Result<Vec<Extension>> {
    let mut extensions = Vec::new(alloc);
    for n in 0..view.len() {
        if let Some(viewed) = view.get(n) {
            let extension = Extension {
                extension_type: viewed.extension_type(),
                extension_value: Vec::from_slice(alloc, viewed.extension_value())?,
            };
            extensions.push(extension.clone(alloc)?)?;
        }
    }
    Ok(extensions)
}

/// The octets of a clone of the message that is made of the parts of a view of the test vector's.
fn nego_again(row: &Row<'_>) -> io::Result<Vec<u8>> {
    let view = NegoView::new(row.octets)?;
    let mut schemes = Vec::new(row.alloc);
    for n in 0..view.auth_schemes().len() {
        if let Some(scheme) = view.auth_schemes().get(n) {
            schemes.push(scheme)?;
        }
    }
    let header = view.header();
    let made = Nego::new(
        header.message_type,
        header.conversation_id,
        header.sequence_num,
        *view.random(),
        schemes,
        extensions_of(row.alloc, view.extensions())?,
    )?;
    let mut octets = Vec::new(row.alloc);
    made.clone(row.alloc)?.encode(row.alloc, &mut octets)?;
    Ok(octets)
}

/// The octets of a clone of the message that is made of the parts of a view of the test vector's.
fn exchange_again(row: &Row<'_>) -> io::Result<Vec<u8>> {
    let view = ExchangeView::new(row.octets)?;
    let header = view.header();
    let made = Exchange::new(
        header.message_type,
        header.conversation_id,
        header.sequence_num,
        view.auth_scheme(),
        Vec::from_slice(row.alloc, view.exchange())?,
    )?;
    let mut octets = Vec::new(row.alloc);
    made.clone(row.alloc)?.encode(row.alloc, &mut octets)?;
    Ok(octets)
}

/// The octets of a clone of the message that is made of the parts of a view of the test vector's.
fn verify_again(row: &Row<'_>) -> io::Result<Vec<u8>> {
    let view = VerifyView::new(row.octets)?;
    let (header, checksum) = (view.header(), view.checksum());
    let made = Verify::new(
        header.message_type,
        header.conversation_id,
        header.sequence_num,
        view.auth_scheme(),
        checksum.checksum_type(),
        Vec::from_slice(row.alloc, checksum.checksum_value())?,
    )?;
    let mut octets = Vec::new(row.alloc);
    made.clone(row.alloc)?.encode(row.alloc, &mut octets)?;
    Ok(octets)
}

/// The octets of the test vector's message, with a clone of its checksum, where its header puts the payload four octets earlier, in
/// the padding.
fn early(row: &Row<'_>) -> io::Result<Vec<u8>> {
    let mut message = Verify::decode(row.alloc, row.octets)?;
    message.header.header_len = message.header.header_len.saturating_sub(4);
    message.header.message_len = message.header.message_len.saturating_sub(4);
    message.checksum = message.checksum.clone(row.alloc)?;
    let mut octets = Vec::new(row.alloc);
    message.encode(row.alloc, &mut octets)?;
    Ok(octets)
}

/// The findings of a message of NEGOEX, by the name of its type or of the call that makes it, or of a type of data.
pub fn try_negoex(row: &Row<'_>) -> Attempt {
    Some(match row.name {
        "Exchange" => tried::<Message<Exchange>>(row),
        "Exchange::new" => made(row, exchange_again(row), row.written),
        "Nego" => tried::<Message<Nego>>(row),
        "Nego::new" => made(row, nego_again(row), row.written),
        "Verify" => tried::<Message<Verify>>(row),
        "Verify::new" => made(row, verify_again(row), row.written),
        "Verify, four octets before" => made(row, early(row), row.written),
        _ => return try_data(row),
    })
}

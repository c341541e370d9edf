//! Messages that have calls of their own: what a client accepts as a reply, headers of IAKERB, messages that a KDC proxy passes on, and
//! encodings in a stream.

use crate::messages::row::{Attempt, Row};
use crate::messages::trials::{Format, made, tried, tried_slowly};
use crate::messages::types::encoded::Encodings;
use krb_der::{Asn1DerError, Der, IntegerAsn1, OctetStringAsn1, to_writer};
use krb_enc_parts::data_types::EncTicketPart;
use krb_gss_tokens::iakerb_header::messages::IAKerbHeader;
use krb_messages::data_types::{KrbResult, ResultExt};
use krb_messages::messages::{ApMessage, ApRep, AsRep, AsReq, KdcProxyMessage, TgsRep};
use krb_types::data_types::AuthorizationData;
use std::alloc::Global;
use std::fmt::Debug;
use std::io::{Read, Write};
use std::marker::PhantomData;

/// What a client accepts as a reply: a message, or a KRB-ERROR.
struct Reply<T>(PhantomData<T>);

impl<T: Der + Debug + PartialEq + Drop> Format for Reply<T> {
    type Value = KrbResult<T>;

    type Error = Asn1DerError;

    fn read_from<R: Read>(
        alloc: Global,
        octets: &[u8],
        _reader: &mut R,
    ) -> Result<KrbResult<T>, Asn1DerError> {
        KrbResult::<T>::deserialize(alloc, octets)
    }

    fn write_to<W: Write>(
        alloc: Global,
        value: &KrbResult<T>,
        writer: &mut W,
    ) -> Result<(), Asn1DerError> {
        let _count = match value {
            Ok(message) => to_writer(alloc, message, writer)?,
            Err(error) => to_writer(alloc, error, writer)?,
        };
        Ok(())
    }
}

impl Format for IAKerbHeader {
    type Value = IAKerbHeader;

    type Error = Asn1DerError;

    fn read_from<R: Read>(
        alloc: Global,
        octets: &[u8],
        _reader: &mut R,
    ) -> Result<IAKerbHeader, Asn1DerError> {
        let header = IAKerbHeader::from_bytes(alloc, octets)?;
        let again = header.clone(alloc);
        drop(header);
        again
    }

    fn write_to<W: Write>(
        alloc: Global,
        value: &IAKerbHeader,
        writer: &mut W,
    ) -> Result<(), Asn1DerError> {
        let _count = to_writer(alloc, value, writer)?;
        Ok(())
    }
}

/// The octets of the message for a proxy that these begin with.
fn passed_on(row: &Row<'_>) -> Result<Vec<u8>, Asn1DerError> {
    KdcProxyMessage::from_raw(row.alloc, row.octets)?.to_vec(row.alloc)
}

/// The message for a proxy that holds these octets, and names neither a realm nor how to look for a KDC.
fn holding(row: &Row<'_>) -> Result<Vec<u8>, Asn1DerError> {
    KdcProxyMessage::from_raw_kerb_message(row.alloc, row.octets)?.to_vec(row.alloc)
}

/// The findings of a reply, a message for a proxy or an encoding in a stream, by its name. Of encodings there are a message, an
/// encrypted part, a choice, a list and primitive types.
pub fn try_message(row: &Row<'_>) -> Attempt {
    Some(match row.name {
        "KrbResult<ApRep>" => tried::<Reply<ApRep>>(row),
        "KrbResult<AsRep>" => tried::<Reply<AsRep>>(row),
        "KrbResult<TgsRep>" => tried::<Reply<TgsRep>>(row),
        "IAKerbHeader" => tried::<IAKerbHeader>(row),
        "KdcProxyMessage::from_raw" => made(row, passed_on(row), row.written),
        "KdcProxyMessage::from_raw_kerb_message" => made(row, holding(row), row.written),
        "from_reader<ApMessage>" => tried_slowly::<Encodings<ApMessage>>(row),
        "from_reader<AsReq>" => tried_slowly::<Encodings<AsReq>>(row),
        "from_reader<AuthorizationData>" => tried_slowly::<Encodings<AuthorizationData>>(row),
        "from_reader<EncTicketPart>" => tried_slowly::<Encodings<EncTicketPart>>(row),
        "from_reader<IntegerAsn1>" => tried_slowly::<Encodings<IntegerAsn1>>(row),
        "from_reader<OctetStringAsn1>" => tried_slowly::<Encodings<OctetStringAsn1>>(row),
        _ => return None,
    })
}

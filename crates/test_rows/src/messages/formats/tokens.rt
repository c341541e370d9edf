//! Messages of Kerberos and IAKERB in tokens of the GSS-API (RFC 2743, 3.1).

use crate::messages::formats::per_message_tokens::try_per_message;
use crate::messages::row::{Attempt, Row};
use crate::messages::trials::{Format, made, tried};
use krb_der::{Der, to_vec};
use krb_gss_tokens::GssApiMessageError;
use krb_gss_tokens::gss_api::{IAKerbProxyMessage, KrbMessage};
use krb_messages::messages::{ApRep, AsReq};
use krb_types::data_types::KerbPaPacRequest;
use std::alloc::Global;
use std::fmt::Debug;
use std::io::{Read, Write};
use std::marker::PhantomData;

/// A message of Kerberos: it is read in a token, and written without its tag.
struct Kerberos<T>(PhantomData<T>);

impl<T: Der + Debug + PartialEq + Drop> Format for Kerberos<T> {
    type Value = KrbMessage<T>;

    type Error = GssApiMessageError;

    fn read_from<R: Read>(
        alloc: Global,
        octets: &[u8],
        _reader: &mut R,
    ) -> Result<KrbMessage<T>, GssApiMessageError> {
        let token = KrbMessage::<T>::decode_application_krb_message(alloc, octets)?;
        Ok(token.0)
    }

    fn write_to<W: Write>(
        alloc: Global,
        value: &KrbMessage<T>,
        writer: &mut W,
    ) -> Result<(), GssApiMessageError> {
        value.encode(alloc, writer)
    }
}

/// A message of IAKERB: it is read in a token, and written without its tag.
struct IAKerb<T>(PhantomData<T>);

impl<T: Der + Debug + PartialEq + Drop> Format for IAKerb<T> {
    type Value = IAKerbProxyMessage<T>;

    type Error = GssApiMessageError;

    fn read_from<R: Read>(
        alloc: Global,
        octets: &[u8],
        _reader: &mut R,
    ) -> Result<IAKerbProxyMessage<T>, GssApiMessageError> {
        let token = IAKerbProxyMessage::<T>::decode_application_iakerb_proxy_message(
            alloc, octets,
        )?;
        token.0.clone(alloc)
    }

    fn write_to<W: Write>(
        alloc: Global,
        value: &IAKerbProxyMessage<T>,
        writer: &mut W,
    ) -> Result<(), GssApiMessageError> {
        value.encode(alloc, writer)
    }
}

/// The token again of a message of IAKERB.
fn framed(row: &Row<'_>) -> Result<Vec<u8>, GssApiMessageError> {
    let token = IAKerbProxyMessage::<AsReq>::decode_application_iakerb_proxy_message(
        row.alloc, row.octets,
    )?;
    let octets = to_vec(row.alloc, &token);
    drop(token);
    Ok(octets?)
}

/// The findings of a token, by the call that reads it, or of a per-message token.
pub fn try_token(row: &Row<'_>) -> Attempt {
    Some(match row.name {
        "decode_application_krb_message<ApRep>" => tried::<Kerberos<ApRep>>(row),
        "decode_application_krb_message<KerbPaPacRequest>" => tried::<Kerberos<KerbPaPacRequest>>(
            row,
        ),
        "decode_application_iakerb_proxy_message<AsReq>" => tried::<IAKerb<AsReq>>(row),
        "decode_application_iakerb_proxy_message<KerbPaPacRequest>" => tried::<
            IAKerb<KerbPaPacRequest>,
        >(row),
        "ApplicationTag0<IAKerbProxyMessage<AsReq>>" => made(row, framed(row), row.octets),
        _ => return try_per_message(row),
    })
}

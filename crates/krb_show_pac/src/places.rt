//! Where in the octets of a buffer stands what `show_contents` tells of it.

mod logon;

use byteorder::{ByteOrder, LittleEndian};
use krb_pac::PacBufferType;
use krb_pac_contents::LogonView;
use krb_pac_contents::buffers::{AttributesView, ClientInfoView, UpnDnsView, requestor};
use krb_pac_signatures::SignatureView;
use krb_show::Place;
use logon::places_of_logon;
use std::alloc::{AllocError, Global};

/// The place of each token, in the order of the tokens, of those that have one.
pub(crate) type Places = Vec<Option<Place>>;

/// Appends a place.
fn push(places: &mut Places, offset: usize, size: usize) -> Result<(), AllocError> {
    places.push(Some(Place { offset, size }))?;
    Ok(())
}

/// The number of two octets at a place, least significant octet first; 0 past the end.
fn u16_at(octets: &[u8], at: usize) -> usize {
    match octets.get(at..at.saturating_add(2)) {
        Some(number) => usize::from(LittleEndian::read_u16(number)),
        None => 0,
    }
}

/// The number of four octets at a place, least significant octet first; 0 past the end.
fn u32_at(octets: &[u8], at: usize) -> usize {
    match octets.get(at..at.saturating_add(4)) {
        Some(number) => LittleEndian::read_u32(number) as usize,
        None => 0,
    }
}

/// PAC_CLIENT_INFO (MS-PAC 2.7): ClientId in eight octets, and behind the length of Name in two Name.
fn places_of_client(alloc: Global, octets: &[u8]) -> Result<Places, AllocError> {
    let mut places = Vec::new(alloc);
    if ClientInfoView::new(octets).is_err() {
        return Ok(places);
    }
    push(&mut places, 0, octets.len())?;
    push(&mut places, 0, 8)?;
    push(&mut places, 10, u16_at(octets, 8))?;
    push(&mut places, 0, octets.len())?;
    Ok(places)
}

/// Appends the place of what a length of two octets, and an offset of two behind it, name.
fn push_named(places: &mut Places, octets: &[u8], at: usize) -> Result<(), AllocError> {
    let offset = u16_at(octets, at.saturating_add(2));
    push(places, offset, u16_at(octets, at))
}

/// UPN_DNS_INFO (MS-PAC 2.10): Upn and DnsDomainName by lengths and offsets, Flags in four octets; with flag S SamName and Sid so.
fn places_of_upn(alloc: Global, octets: &[u8]) -> Result<Places, AllocError> {
    let mut places = Vec::new(alloc);
    let Ok(upn) = UpnDnsView::new(octets) else {
        return Ok(places);
    };
    push(&mut places, 0, octets.len())?;
    push_named(&mut places, octets, 0)?;
    push_named(&mut places, octets, 4)?;
    push(&mut places, 8, 4)?;
    if upn.sid().is_some() {
        push_named(&mut places, octets, 12)?;
        push_named(&mut places, octets, 16)?;
    }
    push(&mut places, 0, octets.len())?;
    Ok(places)
}

/// PAC_ATTRIBUTES_INFO (MS-PAC 2.14): FlagsLength in four octets, and the first four of Flags.
fn places_of_attributes(alloc: Global, octets: &[u8]) -> Result<Places, AllocError> {
    let mut places = Vec::new(alloc);
    if AttributesView::new(octets).is_err() {
        return Ok(places);
    }
    push(&mut places, 0, octets.len())?;
    push(&mut places, 0, 4)?;
    push(&mut places, 4, 4)?;
    push(&mut places, 0, octets.len())?;
    Ok(places)
}

/// PAC_REQUESTOR (MS-PAC 2.15): the identifier is all octets.
fn places_of_requestor(alloc: Global, octets: &[u8]) -> Result<Places, AllocError> {
    let mut places = Vec::new(alloc);
    if requestor(octets).is_err() {
        return Ok(places);
    }
    push(&mut places, 0, octets.len())?;
    push(&mut places, 0, octets.len())?;
    push(&mut places, 0, octets.len())?;
    Ok(places)
}

/// PAC_SIGNATURE_DATA (MS-PAC 2.8): SignatureType in four octets, Signature, and RODCIdentifier in two, if it is there.
fn places_of_signature(alloc: Global, octets: &[u8]) -> Result<Places, AllocError> {
    let mut places = Vec::new(alloc);
    let Ok(signature) = SignatureView::new(octets) else {
        return Ok(places);
    };
    let size = signature.signature().len();
    push(&mut places, 0, octets.len())?;
    push(&mut places, 0, 4)?;
    push(&mut places, 4, size)?;
    if signature.rodc_identifier().is_some() {
        push(&mut places, size.saturating_add(4), 2)?;
    }
    push(&mut places, 0, octets.len())?;
    Ok(places)
}

/// Where in a buffer of a PAC, whose type has this number (MS-PAC 2.4, ulType), each token stands that `show_contents` appends for its
/// octets, in the order of the tokens; none where the octets are not what the type has. The only error is an allocation failure.
pub(crate) fn places_of_contents(
    alloc: Global,
    ul_type: u32,
    octets: &[u8],
) -> Result<Places, AllocError> {
    match PacBufferType::try_from(ul_type) {
        Ok(PacBufferType::KerbValidationInfo) => match LogonView::new(octets) {
            Ok(logon) => places_of_logon(alloc, octets, &logon),
            Err(_) => Ok(Vec::new(alloc)),
        },
        Ok(
            PacBufferType::ServerChecksum
            | PacBufferType::KdcChecksum
            | PacBufferType::TicketChecksum
            | PacBufferType::FullPacChecksum,
        ) => places_of_signature(alloc, octets),
        Ok(PacBufferType::ClientInfo) => places_of_client(alloc, octets),
        Ok(PacBufferType::UpnDnsInfo) => places_of_upn(alloc, octets),
        Ok(PacBufferType::PacAttributesInfo) => places_of_attributes(alloc, octets),
        Ok(PacBufferType::PacRequestor) => places_of_requestor(alloc, octets),
        _ => Ok(Vec::new(alloc)),
    }
}

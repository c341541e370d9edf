//! What the checksum of a ticket is over (MS-PAC 2.8.3).

ghost use Rattle.std.specs.Prelude.{◌≡◌, ◌↔◌, ◌++◌, ◌∷◌, pos, IfOk, IsTrue, MatchOption, OnOk};
ghost use Rattle.krb_types.specs.declared.data_types.authorization_data.AuthorizationDataInner.{AuthorizationDataInner};
ghost use Rattle.krb_show_pac.specs.Message.{HoldsNoPac, IsFirst, IsTicketMessage, IsZeroed, IsZeroedAmong, NoneHoldsPac, NoneIs};
ghost use Rattle.krb_show_pac.specs.Message.{with_data, with_elements};

use krb_der::{
    Asn1SequenceOf, Der, DerEncode, ExplicitContextTag1, ExplicitContextTag10, OctetStringAsn1,
    Optional, copied, encoding,
};
use krb_enc_parts::data_types::EncTicketPart;
use krb_show::open;
use krb_types::data_types::{AuthorizationData, AuthorizationDataInner};
use std::alloc::{AllocError, Global};

/// The encoding of a value that is used no more.
fn encoding_of<T: DerEncode + Drop>(alloc: Global, value: T) -> Result<Vec<u8>, AllocError>
    ensures { IfOk result (λ octets. octets.items ≡ T.enc value) }
{
    encoding(alloc, &value)
}

/// Whether an element is of this type.
pub(crate) fn is_of_type(element: &AuthorizationDataInner, number: u32) -> bool
    ensures { IsTrue result ↔ element.now.ad_type ≡ pos number }
{
    element.ad_type.0.is_number(number)
}

/// The data of an element.
pub(crate) fn data_of(element: &AuthorizationDataInner) -> &[u8]
    ensures { result.now ≡ element.now.ad_data }
{
    element.ad_data.0.0.as_slice()
}

/// An element among elements.
#[derive(Clone, Copy)]
struct Among<'e> {
    front: &'e [AuthorizationDataInner],
    element: &'e AuthorizationDataInner,
    back: &'e [AuthorizationDataInner],
}

/// The first element of this type.
fn first_of_type(elements: &[AuthorizationDataInner], number: u32) -> Option<Among<'_>>
    ensures { MatchOption result (NoneIs number elements.now) (λ a. IsFirst number elements.now a.front.now a.element.now a.back.now) }
{
    for (index, element) in elements.iter().enumerate() {
        if is_of_type(element, number) {
            let (front, _) = elements.split_at(index);
            let (_, back) = elements.split_at(index + 1);
            return Some(Among {
                front,
                element,
                back,
            });
        }
    }
    None
}

/// Appends copies of elements.
fn push_copies(
    alloc: Global,
    elements: &[AuthorizationDataInner],
    made: &mut Vec<AuthorizationDataInner>,
) -> Result<(), AllocError>
    ensures { OnOk result (made.new.items ≡ made.old.items ++ elements.now) }
{
    for element in elements {
        made.push(copied(alloc, element)?)?;
    }
    Ok(())
}

/// The elements, one of them with these data.
fn replaced(alloc: Global, among: &Among, octets: &[u8]) -> Result<AuthorizationData, AllocError>
    ensures { IfOk result (λ made. made ≡ among.now.front.now ++ with_data among.now.element.now octets.now ∷ among.now.back.now) }
{
    let mut made = Vec::new(alloc);
    push_copies(alloc, among.front, &mut made)?;
    made.push(AuthorizationDataInner {
        ad_type: copied(alloc, &among.element.ad_type)?,
        ad_data: ExplicitContextTag1::from(OctetStringAsn1(Vec::from_slice(alloc, octets)?)),
    })?;
    push_copies(alloc, among.back, &mut made)?;
    Ok(Asn1SequenceOf(made))
}

/// A PAC, and what holds it with one zero octet in its place.
#[derive(Drop)]
pub(crate) struct Zeroed {
    pub(crate) pac: Vec<u8>,
    pub(crate) octets: Vec<u8>,
}

/// The first PAC among elements within AD-IF-RELEVANT, and the encoding of these with one zero octet in its place.
fn zeroed_among(alloc: Global, elements: &AuthorizationData) -> Result<Option<Zeroed>, AllocError>
    ensures { IfOk result (λ found. MatchOption found (NoneIs 128 elements.now)
        (λ z. IsZeroedAmong ⟦<AuthorizationData as DerEncode>⟧.enc elements.now z.pac.items z.octets.items)) }
{
    let Some(among) = first_of_type(&elements.0, 128) else {
        return Ok(None);
    };
    let element = among.element;
    let pac = Vec::from_slice(alloc, element.ad_data.0.0.as_slice())?;
    let octets = encoding_of(alloc, replaced(alloc, &among, &[0])?)?;
    Ok(Some(Zeroed { pac, octets }))
}

/// The first PAC that an element of AD-IF-RELEVANT holds, and its data with one zero octet in its place.
fn zeroed_in(alloc: Global, outer: &AuthorizationDataInner) -> Result<Option<Zeroed>, AllocError>
    ensures { IfOk result (λ found. MatchOption found (HoldsNoPac ⟦<AuthorizationData as DerEncode>⟧.is_value ⟦<AuthorizationData as DerEncode>⟧.enc outer.now)
        (λ z. IsZeroed ⟦<AuthorizationData as DerEncode>⟧.is_value ⟦<AuthorizationData as DerEncode>⟧.enc outer.now z.pac.items z.octets.items)) }
{
    if !is_of_type(outer, 1) {
        return Ok(None);
    }
    match open::<AuthorizationData>(alloc, outer.ad_data.0.0.as_slice())? {
        Some(elements) => zeroed_among(alloc, &elements),
        None => Ok(None),
    }
}

/// The ticket with this authorization data.
fn with_elements(mut ticket: EncTicketPart, elements: AuthorizationData) -> EncTicketPart
    ensures { result ≡ with_elements ticket elements }
{
    ticket.0.authorization_data = Optional(Some(ExplicitContextTag10::from(elements)));
    ticket
}

/// The encoding of a ticket with these data in the place of those of an element.
fn message_with(
    alloc: Global,
    ticket: &EncTicketPart,
    among: &Among,
    octets: &[u8],
) -> Result<Vec<u8>, AllocError>
    ensures { IfOk result (λ message. message.items ≡ ⟦<EncTicketPart as DerEncode>⟧.enc
        (with_elements ticket.now (among.now.front.now ++ with_data among.now.element.now octets.now ∷ among.now.back.now))) }
{
    let elements = replaced(alloc, among, octets)?;
    let same = copied(alloc, ticket)?;
    encoding_of(alloc, with_elements(same, elements))
}

/// The first PAC of a ticket among its elements, and what its checksum is over.
pub(crate) fn zeroed_of(
    alloc: Global,
    ticket: &EncTicketPart,
    elements: &[AuthorizationDataInner],
) -> Result<Option<Zeroed>, AllocError>
    ensures { IfOk result (λ found. MatchOption found
        (NoneHoldsPac ⟦<AuthorizationData as DerEncode>⟧.is_value ⟦<AuthorizationData as DerEncode>⟧.enc elements.now)
        (λ z. IsTicketMessage ⟦<AuthorizationData as DerEncode>⟧.is_value ⟦<AuthorizationData as DerEncode>⟧.enc ⟦<EncTicketPart as DerEncode>⟧.enc
        ticket.now elements.now z.pac.items z.octets.items)) }
{
    for (index, element) in elements.iter().enumerate() {
        if let Some(zeroed) = zeroed_in(alloc, element)? {
            let (front, _) = elements.split_at(index);
            let (_, back) = elements.split_at(index + 1);
            let among = Among {
                front,
                element,
                back,
            };
            let octets = message_with(alloc, ticket, &among, &zeroed.octets)?;
            return Ok(Some(Zeroed {
                pac: zeroed.pac,
                octets,
            }));
        }
    }
    Ok(None)
}

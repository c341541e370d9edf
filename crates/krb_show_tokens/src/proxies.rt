//! Messages of IAKERB (draft-ietf-kitten-iakerb-03, 3).

ghost use Rattle.std.specs.Prelude.{◌≡◌, ◌++◌, ◌∷◌, false, ℕ, List, Result, Some, Vec, codes, IfErr, IfOk, MatchOption};
ghost use Rattle.std.specs.declared.alloc.Global.{Global};
ghost use Rattle.krb_der.specs.Asn1.{sequence};
ghost use Rattle.krb_gss_tokens.specs.Proxy.{iakerb, proxy_id};
ghost use Rattle.krb_gss_tokens.specs.declared.error.GssApiMessageError.{GssApiMessageError};
ghost use Rattle.krb_gss_tokens.specs.PerMessageRejected.{Answers};
ghost use Rattle.krb_show.specs.Opened.{IsOf};
ghost use Rattle.krb_show.specs.Pages.{◌then◌, struct_of};
ghost use Rattle.krb_show.specs.Tokens.{Token, plain};
ghost use Rattle.krb_show_messages.specs.Shown.{shows_of};
ghost use Rattle.krb_show_tokens.specs.Frames.{IsFramed};
ghost use Rattle.krb_show_tokens.specs.Leaves.{identifier_of, token_id_of};
ghost use Rattle.krb_show_tokens.specs.Proxied.{ByMessage, proxied_of, tells_of_message};
ghost use Rattle.krb_show_tokens.specs.Proxies.{HasMessage, HasOther, IsProxyError, IsProxyTold, IsTag, is_proxied_tag};

use crate::GssToken;
use crate::frames::TokenIdField;
use crate::heads::read_mechanism;
use krb_der::{Asn1DerError, Der, DerEncode, to_vec};
use krb_der_core::read_tlv;
use krb_der_x509::ObjectIdentifierAsn1;
use krb_gss_tokens::GssApiMessageError;
use krb_gss_tokens::gss_api::{ApplicationTag0, IAKerbProxyMessage};
use krb_gss_tokens::iakerb_header::messages::IAKerbHeader;
use krb_messages::messages::{ApRep, ApReq, AsRep, AsReq, KrbError, TgsRep, TgsReq};
use krb_registry::gss_api::IAKERB_PROXY_TOKEN_ID;
use krb_show::{Field, Label, Page, Role, Show, ShowFields, show_identifier, show_struct};
use krb_show_messages::{HasRow, Message, RowField};
use std::alloc::{AllocError, Global};
use std::marker::PhantomData;

/// The mechanism IAKERB (draft-ietf-kitten-iakerb-03, 3) in decimal.
const IAKERB: &str = "1.3.6.1.5.2.5";

/// The tag of a SEQUENCE, which a header is (X.690, 8.9).
const SEQUENCE: u8 = 0x30;

/// A message of IAKERB in a frame (draft-ietf-kitten-iakerb-03, 3; RFC 2743, 3.1). `T` is the type of the message in it, such as `AsReq`.
pub type FramedProxy<T> = ApplicationTag0<IAKerbProxyMessage<T>>;

/// The name of the mechanism IAKERB, for showing.
#[derive(Drop)]
struct IAKerbField<'a> {
    label: Label<'a>,
}

impl<'a> ShowFields for IAKerbField<'a> {
    ghost shows = { λ f. identifier_of f.label iakerb };

    #[tactic(auto, using(crate::proofs::OneMessage::iakerb_text))]
    fn show_fields(&self, alloc: Global, page: &mut Page) -> Result<(), AllocError> {
        show_identifier(alloc, &self.label, IAKERB, page)
    }
}

/// The mechanism, the token id, the header and the message, under its name (draft-ietf-kitten-iakerb-03, 3).
impl<T: DerEncode + HasRow> Show<GssToken> for IAKerbProxyMessage<T> {
    ghost shows = { λ label v. struct_of label (
        identifier_of (plain (codes "thisMech")) iakerb
        then token_id_of (plain (codes "TOK_ID")) proxy_id
        then ⟦<IAKerbHeader as Show<Message>>⟧.shows (plain (codes "IAKERB-HEADER")) v.header
        then shows_of ⟦<T as HasRow>⟧.row_name ⟦<T as DerEncode>⟧.enc (plain ⟦<T as HasRow>⟧.row_name) v.krb_msg) };

    fn show(&self, alloc: Global, label: &Label, page: &mut Page) -> Result<(), AllocError> {
        let mechanism = IAKerbField {
            label: Label {
                text: "thisMech",
                kind: None,
                role: Role::None,
                is_item: false,
            },
        };
        let id = TokenIdField {
            label: Label {
                text: "TOK_ID",
                kind: None,
                role: Role::None,
                is_item: false,
            },
            id: IAKERB_PROXY_TOKEN_ID,
        };
        let header = Field {
            label: Label {
                text: "IAKERB-HEADER",
                kind: None,
                role: Role::None,
                is_item: false,
            },
            value: &self.header,
            shown: PhantomData::<Message>,
        };
        let message = RowField {
            text: T::row(),
            value: &self.krb_msg,
        };
        show_struct(alloc, label, &(((mechanism, id), header), message), page)
    }
}

/// A kind of token, whose octets have a page.
pub trait TokenPages {
    /// Which page octets have, or which error.
    ghost tells: { List ℕ → Result (Vec Token Global) GssApiMessageError → Type 0 };

    /// The page of octets.
    fn page_of(alloc: Global, octets: &[u8]) -> Result<Page, GssApiMessageError>
        ensures { tells octets.now result };
}

/// The message whose one encoding the octets are.
fn read_proxy<T: Der + Drop>(
    alloc: Global,
    octets: &[u8],
) -> Result<FramedProxy<T>, GssApiMessageError>
    ensures found { IfOk result (IsOf ⟦<FramedProxy<T> as DerEncode>⟧.is_value ⟦<FramedProxy<T> as DerEncode>⟧.enc octets.now) }
    ensures reads { (v : _) → IsOf ⟦<FramedProxy<T> as DerEncode>⟧.is_value ⟦<FramedProxy<T> as DerEncode>⟧.enc octets.now v → Answers result v }
    ensures first_error { IfErr result (IsProxyError ⟦<IAKerbHeader as DerEncode>⟧ ⟦<T as DerEncode>⟧ ⟦<FramedProxy<T> as DerEncode>⟧ octets.now) }
{
    let token: FramedProxy<T> = IAKerbProxyMessage::<T>::decode_application_iakerb_proxy_message(
        alloc, octets,
    )?;
    let written = to_vec(alloc, &token)?;
    if written.as_slice() != octets {
        return Err(GssApiMessageError::Asn1Error(Asn1DerError::InvalidData));
    }
    Ok(token)
}

/// A message of IAKERB in a frame, whose one encoding the octets are.
///
/// Octets that are none are refused with the first error, as by `decode_application_iakerb_proxy_message`. Where that reads a message, but
/// octets follow the token or, in its header, the known fields, the error is `Asn1Error(InvalidData)`: no octet is left out of a page.
impl<T: Der + HasRow + Drop> TokenPages for FramedProxy<T> {
    ghost tells = { λ octets result. IsProxyTold ⟦<IAKerbHeader as DerEncode>⟧ ⟦<T as DerEncode>⟧ ⟦<FramedProxy<T> as DerEncode>⟧
        ⟦<FramedProxy<T> as Show<GssToken>>⟧ (plain (codes "InitialContextToken")) (λ p. p.items) octets result };

    fn page_of(alloc: Global, octets: &[u8]) -> Result<Page, GssApiMessageError> {
        let token = read_proxy::<T>(alloc, octets)?;
        let label = Label::new("InitialContextToken");
        let mut page = Vec::new(alloc);
        token.show(alloc, &label, &mut page)?;
        Ok(page)
    }
}

/// What follows a token id.
fn behind_id(octets: &[u8]) -> Option<&[u8]>
    ensures { MatchOption result ((first second : ℕ) (rest : List ℕ) → octets.now ≡ first ∷ second ∷ rest → ⊥)
        (λ rest. (first : ℕ) × (second : ℕ) × (octets.now ≡ first ∷ second ∷ rest.now)) }
{
    if octets.len() < 2 {
        return None;
    }
    Some(&octets[2..])
}

/// What follows a header.
fn behind_header(octets: &[u8]) -> Option<&[u8]>
    ensures { MatchOption result ((header rest : List ℕ) → octets.now ≡ sequence header ++ rest → ⊥)
        (λ rest. (header : List ℕ) × (octets.now ≡ sequence header ++ rest.now)) }
{
    match read_tlv(SEQUENCE, octets) {
        Ok((_, taken)) => Some(&octets[taken..]),
        Err(_) => None,
    }
}

/// The tag of the message behind a token id and a header.
fn tag_behind(inner: &[u8]) -> Option<u8>
    ensures { MatchOption result
        ((first second tag : ℕ) (header rest : List ℕ) → inner.now ≡ first ∷ second ∷ (sequence header ++ tag ∷ rest) → ⊥)
        (λ tag. (first : ℕ) × (second : ℕ) × (header : List ℕ) × (rest : List ℕ) × (inner.now ≡ first ∷ second ∷ (sequence header ++ tag ∷ rest))) }
{
    let header = behind_id(inner)?;
    let message = behind_header(header)?;
    if message.is_empty() {
        return None;
    }
    Some(message[0])
}

/// The tag of the message in a token of this mechanism, with these octets behind it.
fn tag_in(mechanism: &ObjectIdentifierAsn1, inner: &[u8], octets: &[u8]) -> Option<u8>
    requires { IsFramed mechanism.now inner.now octets.now }
    ensures { IsTag octets.now result }
{
    tag_behind(inner)
}

/// The tag of the message in a token.
fn read_tag(alloc: Global, octets: &[u8]) -> Result<Option<u8>, AllocError>
    ensures { IfOk result (IsTag octets.now) }
{
    match read_mechanism(alloc, octets)? {
        Some((mechanism, inner)) => Ok(tag_in(&mechanism, inner, octets)),
        None => Ok(None),
    }
}

/// The tag of the message in a token.
#[tactic(auto, using(crate::proofs::OneMessage::only_tag, crate::proofs::OneMessage::other_tag))]
fn tag_of(alloc: Global, octets: &[u8]) -> Result<Option<u8>, AllocError>
    ensures known { (t : ℕ) → HasMessage t octets.now → IfOk result (λ tag. tag ≡ Some t) }
    ensures other { HasOther octets.now → IfOk result (λ tag. is_proxied_tag tag ≡ false) }
{
    let tag = read_tag(alloc, octets)?;
    Ok(tag)
}

/// The messages of Kerberos that a message of IAKERB holds (RFC 4120, 5.10).
#[derive(Clone, Copy)]
enum Proxied {
    AsReq,
    AsRep,
    TgsReq,
    TgsRep,
    ApReq,
    ApRep,
    KrbError,
}

/// The message that a tag names. Where there is none, or another tag, an AS-REQ is expected.
fn proxied_of(tag: Option<u8>) -> Proxied
    ensures { result ≡ proxied_of tag }
{
    match tag {
        Some(0x6b) => Proxied::AsRep,
        Some(0x6c) => Proxied::TgsReq,
        Some(0x6d) => Proxied::TgsRep,
        Some(0x6e) => Proxied::ApReq,
        Some(0x6f) => Proxied::ApRep,
        Some(0x7e) => Proxied::KrbError,
        _ => Proxied::AsReq,
    }
}

/// What is told of octets that are to be a message of IAKERB, by the message in it.
trait ProxiedPages {
    /// Which page octets have, or which error, for each message.
    ghost pages: { ByMessage };
}

/// Messages of IAKERB in frames, by the message in it.
#[derive(Drop)]
struct FramedProxies;

impl ProxiedPages for FramedProxies {
    ghost pages = { record {
      as_req = ⟦<FramedProxy<AsReq> as TokenPages>⟧.tells;
      as_rep = ⟦<FramedProxy<AsRep> as TokenPages>⟧.tells;
      tgs_req = ⟦<FramedProxy<TgsReq> as TokenPages>⟧.tells;
      tgs_rep = ⟦<FramedProxy<TgsRep> as TokenPages>⟧.tells;
      ap_req = ⟦<FramedProxy<ApReq> as TokenPages>⟧.tells;
      ap_rep = ⟦<FramedProxy<ApRep> as TokenPages>⟧.tells;
      krb_error = ⟦<FramedProxy<KrbError> as TokenPages>⟧.tells;
    } };
}

/// The page of a message of IAKERB, which is to hold this message.
fn page_of_proxied(
    alloc: Global,
    proxied: Proxied,
    octets: &[u8],
) -> Result<Page, GssApiMessageError>
    ensures { tells_of_message ⟦<FramedProxies as ProxiedPages>⟧.pages proxied octets.now result }
{
    match proxied {
        Proxied::AsReq => <FramedProxy<AsReq>>::page_of(alloc, octets),
        Proxied::AsRep => <FramedProxy<AsRep>>::page_of(alloc, octets),
        Proxied::TgsReq => <FramedProxy<TgsReq>>::page_of(alloc, octets),
        Proxied::TgsRep => <FramedProxy<TgsRep>>::page_of(alloc, octets),
        Proxied::ApReq => <FramedProxy<ApReq>>::page_of(alloc, octets),
        Proxied::ApRep => <FramedProxy<ApRep>>::page_of(alloc, octets),
        Proxied::KrbError => <FramedProxy<KrbError>>::page_of(alloc, octets),
    }
}

/// Messages of IAKERB in frames, told by the tag of the message in it (RFC 4120, 5.10): `6a` AS-REQ, `6b` AS-REP, `6c` TGS-REQ, `6d` TGS-REP,
/// `6e` AP-REQ, `6f` AP-REP, `7e` KRB-ERROR. Where there is none, or another tag, the octets are refused as an AS-REQ.
#[derive(Drop)]
pub struct ProxyMessages;

impl TokenPages for ProxyMessages {
    ghost tells = { λ octets result. (HasMessage 106 octets → ⟦<FramedProxy<AsReq> as TokenPages>⟧.tells octets result)
        × (HasMessage 107 octets → ⟦<FramedProxy<AsRep> as TokenPages>⟧.tells octets result)
        × (HasMessage 108 octets → ⟦<FramedProxy<TgsReq> as TokenPages>⟧.tells octets result)
        × (HasMessage 109 octets → ⟦<FramedProxy<TgsRep> as TokenPages>⟧.tells octets result)
        × (HasMessage 110 octets → ⟦<FramedProxy<ApReq> as TokenPages>⟧.tells octets result)
        × (HasMessage 111 octets → ⟦<FramedProxy<ApRep> as TokenPages>⟧.tells octets result)
        × (HasMessage 126 octets → ⟦<FramedProxy<KrbError> as TokenPages>⟧.tells octets result)
        × (HasOther octets → ⟦<FramedProxy<AsReq> as TokenPages>⟧.tells octets result) };

    fn page_of(alloc: Global, octets: &[u8]) -> Result<Page, GssApiMessageError> {
        let tag = tag_of(alloc, octets)?;
        page_of_proxied(alloc, proxied_of(tag), octets)
    }
}

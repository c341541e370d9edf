//! Tokens, told by their first octet.

ghost use Rattle.std.specs.Prelude.{◌≡◌, ◌<◌, false, ℕ, [], Err, codes, length, slice_index};
ghost use Rattle.krb_der_core.specs.declared.error.Asn1DerError.TheVariants.{InvalidData, TruncatedData};
ghost use Rattle.krb_gss_tokens.specs.declared.error.GssApiMessageError.TheVariants.{Asn1Error};
ghost use Rattle.krb_show.specs.Tokens.{plain};
ghost use Rattle.krb_show_tokens.specs.Frames.{HasId, HasNone, IsNegotiation, RefusesId, is_known_id, is_token};
ghost use Rattle.krb_show_tokens.specs.Kinds.{ByKind, framed_of, kind_of, tells_of_frame, tells_of_framed, tells_of_kind};
ghost use Rattle.krb_show_tokens.specs.Told.{IsMicTold, IsToldBy, IsWrapTold};

use crate::GssToken;
use crate::heads::{Head, head_of};
use crate::opened::{
    FramedApRep, FramedApReq, FramedAsRep, FramedAsReq, FramedError, FramedTgtRep, FramedTgtReq,
};
use crate::proxies::{ProxyMessages, TokenPages};
use krb_der::{Asn1DerError, Der, DerEncode, ExplicitContextTag0};
use krb_gss_tokens::gss_api::{
    ApplicationTag0, GssApiNegInit, KrbMessage, NegTokenInit, NegTokenTarg1,
};
use krb_gss_tokens::{GssApiMessageError, MicToken, WrapToken};
use krb_messages::messages::{ApRep, ApReq, AsRep, AsReq, KrbError, TgtRep, TgtReq};
use krb_registry::gss_api::AP_REQ_TOKEN_ID;
use krb_show::{Label, Page, Show, page_of_octets};
use krb_show_messages::HasRow;
use std::alloc::Global;

/// The token that begins a negotiation (RFC 4178, 4.2).
type FramedNegInit = ApplicationTag0<GssApiNegInit>;

/// A message in a frame (RFC 4121, 4.1).
type FramedMessage<T> = ApplicationTag0<KrbMessage<T>>;

/// The first message of a negotiation without a frame: `negTokenInit [0]` of the choice `NegotiationToken` (RFC 4178, 4.2).
type NegTokenInit0 = ExplicitContextTag0<NegTokenInit>;

/// The page of a value of this type, under a name.
fn page_as<T: Der + Show<GssToken> + Drop>(
    alloc: Global,
    name: &str,
    octets: &[u8],
) -> Result<Page, GssApiMessageError>
    ensures { IsToldBy ⟦<T as DerEncode>⟧ ⟦<T as Show<GssToken>>⟧ (plain name.now) (λ p. p.items) octets.now result }
{
    let label = Label::new(name);
    let page = page_of_octets::<GssToken, T>(alloc, &label, octets)?;
    Ok(page)
}

/// The page of a MIC token.
fn page_of_mic(alloc: Global, octets: &[u8]) -> Result<Page, GssApiMessageError>
    ensures { IsMicTold ⟦<MicToken as Show<GssToken>>⟧ (plain (codes "MIC")) (λ p. p.items) octets.now result }
{
    let token = MicToken::from_slice(alloc, octets)?;
    let label = Label::new("MIC");
    let mut page = Vec::new(alloc);
    token.show(alloc, &label, &mut page)?;
    Ok(page)
}

/// The page of a Wrap token.
fn page_of_wrap(alloc: Global, octets: &[u8]) -> Result<Page, GssApiMessageError>
    ensures { IsWrapTold ⟦<WrapToken as Show<GssToken>>⟧ (plain (codes "Wrap")) (λ p. p.items) octets.now result }
{
    let token = WrapToken::from_slice(alloc, octets)?;
    let label = Label::new("Wrap");
    let mut page = Vec::new(alloc);
    token.show(alloc, &label, &mut page)?;
    Ok(page)
}

/// What is told of octets that are to be a token, by its kind.
trait KindPages {
    /// Which page octets have, or which error, for each kind.
    ghost pages: { ByKind };
}

/// Tokens of the GSS-API, by their kind.
#[derive(Drop)]
struct GssTokens;

impl KindPages for GssTokens {
    ghost pages = { record {
      mic = IsMicTold ⟦<MicToken as Show<GssToken>>⟧ (plain (codes "MIC")) (λ p. p.items);
      wrap = IsWrapTold ⟦<WrapToken as Show<GssToken>>⟧ (plain (codes "Wrap")) (λ p. p.items);
      neg_token_init = IsToldBy ⟦<NegTokenInit0 as DerEncode>⟧ ⟦<NegTokenInit0 as Show<GssToken>>⟧ (plain (codes "NegTokenInit")) (λ p. p.items);
      neg_token_resp = IsToldBy ⟦<NegTokenTarg1 as DerEncode>⟧ ⟦<NegTokenTarg1 as Show<GssToken>>⟧ (plain (codes "NegTokenResp")) (λ p. p.items);
      negotiation = IsToldBy ⟦<FramedNegInit as DerEncode>⟧ ⟦<FramedNegInit as Show<GssToken>>⟧ (plain (codes "InitialContextToken")) (λ p. p.items);
      ap_req = IsToldBy ⟦<FramedApReq as DerEncode>⟧ ⟦<FramedApReq as Show<GssToken>>⟧ (plain (codes "InitialContextToken")) (λ p. p.items);
      ap_rep = IsToldBy ⟦<FramedApRep as DerEncode>⟧ ⟦<FramedApRep as Show<GssToken>>⟧ (plain (codes "InitialContextToken")) (λ p. p.items);
      krb_error = IsToldBy ⟦<FramedError as DerEncode>⟧ ⟦<FramedError as Show<GssToken>>⟧ (plain (codes "InitialContextToken")) (λ p. p.items);
      tgt_req = IsToldBy ⟦<FramedTgtReq as DerEncode>⟧ ⟦<FramedTgtReq as Show<GssToken>>⟧ (plain (codes "InitialContextToken")) (λ p. p.items);
      tgt_rep = IsToldBy ⟦<FramedTgtRep as DerEncode>⟧ ⟦<FramedTgtRep as Show<GssToken>>⟧ (plain (codes "InitialContextToken")) (λ p. p.items);
      as_req = IsToldBy ⟦<FramedAsReq as DerEncode>⟧ ⟦<FramedAsReq as Show<GssToken>>⟧ (plain (codes "InitialContextToken")) (λ p. p.items);
      as_rep = IsToldBy ⟦<FramedAsRep as DerEncode>⟧ ⟦<FramedAsRep as Show<GssToken>>⟧ (plain (codes "InitialContextToken")) (λ p. p.items);
      iakerb = ⟦<ProxyMessages as TokenPages>⟧.tells;
    } };
}

/// What a frame holds.
#[derive(Clone, Copy)]
enum Framed {
    Negotiation,
    ApReq,
    ApRep,
    KrbError,
    TgtReq,
    TgtRep,
    AsReq,
    AsRep,
    Proxy,
    /// A token id that names no message.
    UnknownId(u8, u8),
}

/// What a frame with this head holds. Where the head names nothing, a KRB-AP-REQ is expected.
fn framed_of(head: Head) -> Framed
    ensures { result ≡ framed_of head }
{
    match head {
        Head::Negotiation => Framed::Negotiation,
        Head::Kerberos(1, 0) | Head::Unknown => Framed::ApReq,
        Head::Kerberos(2, 0) => Framed::ApRep,
        Head::Kerberos(3, 0) => Framed::KrbError,
        Head::Kerberos(4, 0) => Framed::TgtReq,
        Head::Kerberos(4, 1) => Framed::TgtRep,
        Head::Kerberos(5, 0) => Framed::AsReq,
        Head::Kerberos(5, 1) => Framed::Proxy,
        Head::Kerberos(6, 0) => Framed::AsRep,
        Head::Kerberos(first, second) => Framed::UnknownId(first, second),
    }
}

/// The page of a message in a frame (RFC 4121, 4.1). `T` is the type of the message, such as `ApReq`.
fn page_of_message<T: Der + HasRow + Drop>(
    alloc: Global,
    octets: &[u8],
) -> Result<Page, GssApiMessageError>
    ensures { IsToldBy ⟦<FramedMessage<T> as DerEncode>⟧ ⟦<FramedMessage<T> as Show<GssToken>>⟧
        (plain (codes "InitialContextToken")) (λ p. p.items) octets.now result }
{
    page_as::<FramedMessage<T>>(alloc, "InitialContextToken", octets)
}

/// The page of a token in a frame, which is to hold this.
fn page_of_framed(alloc: Global, framed: Framed, octets: &[u8]) -> Result<Page, GssApiMessageError>
    ensures { tells_of_framed ⟦<GssTokens as KindPages>⟧.pages framed octets.now result }
{
    match framed {
        Framed::Negotiation => page_as::<FramedNegInit>(alloc, "InitialContextToken", octets),
        Framed::ApReq => page_of_message::<ApReq>(alloc, octets),
        Framed::ApRep => page_of_message::<ApRep>(alloc, octets),
        Framed::KrbError => page_of_message::<KrbError>(alloc, octets),
        Framed::TgtReq => page_of_message::<TgtReq>(alloc, octets),
        Framed::TgtRep => page_of_message::<TgtRep>(alloc, octets),
        Framed::AsReq => page_of_message::<AsReq>(alloc, octets),
        Framed::AsRep => page_of_message::<AsRep>(alloc, octets),
        Framed::Proxy => ProxyMessages::page_of(alloc, octets),
        Framed::UnknownId(first, second) => {
            Err(GssApiMessageError::InvalidId(AP_REQ_TOKEN_ID, [first, second]))
        }
    }
}

/// The page of a token in a frame (RFC 2743, 3.1).
fn page_of_frame(alloc: Global, octets: &[u8]) -> Result<Page, GssApiMessageError>
    ensures { tells_of_frame ⟦<GssTokens as KindPages>⟧.pages octets.now result }
{
    let head = head_of(alloc, octets)?;
    page_of_framed(alloc, framed_of(head), octets)
}

/// The kinds of tokens.
#[derive(Clone, Copy)]
pub(crate) enum TokenKind {
    Mic,
    Wrap,
    Framed,
    NegTokenInit,
    NegTokenResp,
    /// There is no octet.
    Empty,
    /// No token begins so.
    Unknown,
}

/// The kind of a token, told by its first octet.
pub(crate) fn kind_of(octets: &[u8]) -> TokenKind
    ensures { result ≡ kind_of octets.now }
{
    if octets.is_empty() {
        return TokenKind::Empty;
    }
    match octets[0] {
        0x04 => TokenKind::Mic,
        0x05 => TokenKind::Wrap,
        0x60 => TokenKind::Framed,
        0xa0 => TokenKind::NegTokenInit,
        0xa1 => TokenKind::NegTokenResp,
        _ => TokenKind::Unknown,
    }
}

/// The page of a token of this kind.
fn page_of_kind(alloc: Global, kind: TokenKind, octets: &[u8]) -> Result<Page, GssApiMessageError>
    ensures { tells_of_kind ⟦<GssTokens as KindPages>⟧.pages kind octets.now result }
{
    match kind {
        TokenKind::Mic => page_of_mic(alloc, octets),
        TokenKind::Wrap => page_of_wrap(alloc, octets),
        TokenKind::Framed => page_of_frame(alloc, octets),
        TokenKind::NegTokenInit => page_as::<NegTokenInit0>(alloc, "NegTokenInit", octets),
        TokenKind::NegTokenResp => page_as::<NegTokenTarg1>(alloc, "NegTokenResp", octets),
        TokenKind::Empty => Err(GssApiMessageError::Asn1Error(Asn1DerError::TruncatedData)),
        TokenKind::Unknown => Err(GssApiMessageError::Asn1Error(Asn1DerError::InvalidData)),
    }
}

/// The page of a token of the GSS-API, told by its first octet.
///
/// | First octet | Token |
/// |---|---|
/// | `60` | in a frame (RFC 2743, 3.1), as below |
/// | `a0` | NegTokenInit without a frame (RFC 4178, 4.2.1) |
/// | `a1` | NegTokenResp (RFC 4178, 4.2.2) |
/// | `04` | MIC (RFC 4121, 4.2.6.1) |
/// | `05` | Wrap (RFC 4121, 4.2.6.2) |
///
/// In a frame under the mechanism SPNEGO is a NegTokenInit (RFC 4178, 4.2.1), and under each other mechanism the message that the token id
/// says, two octets: `01 00` KRB-AP-REQ, `02 00` KRB-AP-REP, `03 00` KRB-ERROR (RFC 4121, 4.1), `04 00` KRB-TGT-REQ, `04 01` KRB-TGT-REP
/// (draft-swift-win2k-krb-user2user-03), `05 00` KRB-AS-REQ, `06 00` KRB-AS-REP (draft-zhu-pku2u-09, 6),
/// `05 01` a message of IAKERB (draft-ietf-kitten-iakerb-03, 3). In that is a message of Kerberos, which its tag tells (RFC 4120, 5.10): `6a`
/// AS-REQ, `6b` AS-REP, `6c` TGS-REQ, `6d` TGS-REP, `6e` AP-REQ, `6f` AP-REP, `7e` KRB-ERROR.
///
/// All octets are the token's: trailing ones are refused. No octet is `Asn1Error(TruncatedData)`, and another first octet
/// `Asn1Error(InvalidData)`. A token of DER that is none is refused with the error of `from_bytes`, as `Asn1Error`; one whose frame ends
/// before a token id is refused as a KRB-AP-REQ. Another token id in a frame is `InvalidId`, with `01 00` in the expected one's place. MIC and
/// Wrap tokens are refused as by `MicToken::from_slice` and `WrapToken::from_slice`. A message of IAKERB is refused as by
/// `IAKerbProxyMessage::decode_application_iakerb_proxy_message` of the type that the tag tells, or of `AsReq` where no message stands behind the
/// header or one with another tag; and with `Asn1Error(InvalidData)` where that call skips octets, behind the token or behind the known fields of
/// the header: no octet is left out of a page. `OutOfMemory` comes where an allocation fails.
pub fn page_of_token(alloc: Global, octets: &[u8]) -> Result<Page, GssApiMessageError>
    ensures empty { octets.now ≡ [] → result ≡ Err (Asn1Error TruncatedData) }
    ensures other { 0 < length octets.now → is_token (slice_index octets.now 0) ≡ false → result ≡ Err (Asn1Error InvalidData) }
    ensures mic { slice_index octets.now 0 ≡ 4
        → IsMicTold ⟦<MicToken as Show<GssToken>>⟧ (plain (codes "MIC")) (λ p. p.items) octets.now result }
    ensures wrap { slice_index octets.now 0 ≡ 5
        → IsWrapTold ⟦<WrapToken as Show<GssToken>>⟧ (plain (codes "Wrap")) (λ p. p.items) octets.now result }
    ensures neg_token_init { slice_index octets.now 0 ≡ 160
        → IsToldBy ⟦<NegTokenInit0 as DerEncode>⟧ ⟦<NegTokenInit0 as Show<GssToken>>⟧ (plain (codes "NegTokenInit")) (λ p. p.items) octets.now result }
    ensures neg_token_resp { slice_index octets.now 0 ≡ 161
        → IsToldBy ⟦<NegTokenTarg1 as DerEncode>⟧ ⟦<NegTokenTarg1 as Show<GssToken>>⟧ (plain (codes "NegTokenResp")) (λ p. p.items) octets.now result }
    ensures negotiation { slice_index octets.now 0 ≡ 96 → IsNegotiation octets.now → IsToldBy ⟦<FramedNegInit as DerEncode>⟧ ⟦<FramedNegInit as Show<GssToken>>⟧
        (plain (codes "InitialContextToken")) (λ p. p.items) octets.now result }
    ensures ap_req { slice_index octets.now 0 ≡ 96 → HasId 1 0 octets.now → IsToldBy ⟦<FramedApReq as DerEncode>⟧ ⟦<FramedApReq as Show<GssToken>>⟧
        (plain (codes "InitialContextToken")) (λ p. p.items) octets.now result }
    ensures ap_rep { slice_index octets.now 0 ≡ 96 → HasId 2 0 octets.now → IsToldBy ⟦<FramedApRep as DerEncode>⟧ ⟦<FramedApRep as Show<GssToken>>⟧
        (plain (codes "InitialContextToken")) (λ p. p.items) octets.now result }
    ensures krb_error { slice_index octets.now 0 ≡ 96 → HasId 3 0 octets.now → IsToldBy ⟦<FramedError as DerEncode>⟧ ⟦<FramedError as Show<GssToken>>⟧
        (plain (codes "InitialContextToken")) (λ p. p.items) octets.now result }
    ensures tgt_req { slice_index octets.now 0 ≡ 96 → HasId 4 0 octets.now → IsToldBy ⟦<FramedTgtReq as DerEncode>⟧ ⟦<FramedTgtReq as Show<GssToken>>⟧
        (plain (codes "InitialContextToken")) (λ p. p.items) octets.now result }
    ensures tgt_rep { slice_index octets.now 0 ≡ 96 → HasId 4 1 octets.now → IsToldBy ⟦<FramedTgtRep as DerEncode>⟧ ⟦<FramedTgtRep as Show<GssToken>>⟧
        (plain (codes "InitialContextToken")) (λ p. p.items) octets.now result }
    ensures as_req { slice_index octets.now 0 ≡ 96 → HasId 5 0 octets.now → IsToldBy ⟦<FramedAsReq as DerEncode>⟧ ⟦<FramedAsReq as Show<GssToken>>⟧
        (plain (codes "InitialContextToken")) (λ p. p.items) octets.now result }
    ensures as_rep { slice_index octets.now 0 ≡ 96 → HasId 6 0 octets.now → IsToldBy ⟦<FramedAsRep as DerEncode>⟧ ⟦<FramedAsRep as Show<GssToken>>⟧
        (plain (codes "InitialContextToken")) (λ p. p.items) octets.now result }
    ensures iakerb { slice_index octets.now 0 ≡ 96 → HasId 5 1 octets.now → ⟦<ProxyMessages as TokenPages>⟧.tells octets.now result }
    ensures no_id { slice_index octets.now 0 ≡ 96 → HasNone octets.now → IsToldBy ⟦<FramedApReq as DerEncode>⟧ ⟦<FramedApReq as Show<GssToken>>⟧
        (plain (codes "InitialContextToken")) (λ p. p.items) octets.now result }
    ensures other_id { slice_index octets.now 0 ≡ 96 → (first second : ℕ) → HasId first second octets.now → is_known_id first second ≡ false
        → RefusesId first second result }
{
    page_of_kind(alloc, kind_of(octets), octets)
}

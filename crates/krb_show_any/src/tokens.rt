//! Tokens of the GSS-API, which their first octets name.

ghost use Rattle.std.specs.Prelude.{◌≡◌, ◌<◌, false, ℕ, [], Err, codes, length, slice_index};
ghost use Rattle.krb_der_core.specs.declared.error.Asn1DerError.TheVariants.{InvalidData, TruncatedData};
ghost use Rattle.krb_gss_tokens.specs.declared.error.GssApiMessageError.TheVariants.{Asn1Error};
ghost use Rattle.krb_show.specs.Tokens.{plain};
ghost use Rattle.krb_show_tokens.specs.Frames.{HasId, HasNone, IsNegotiation, RefusesId, is_known_id, is_token};
ghost use Rattle.krb_show_tokens.specs.Told.{IsMicTold, IsToldBy, IsWrapTold};

use crate::pages::Pages;
use krb_der::{DerEncode, ExplicitContextTag0};
use krb_gss_tokens::gss_api::{ApplicationTag0, GssApiNegInit, NegTokenInit, NegTokenTarg1};
use krb_gss_tokens::{GssApiMessageError, MicToken, WrapToken};
use krb_show::{Page, Show};
use krb_show_tokens::{
    FramedApRep, FramedApReq, FramedAsRep, FramedAsReq, FramedError, FramedTgtRep, FramedTgtReq,
    GssToken, ProxyMessages, TokenPages, page_of_token,
};
use std::alloc::Global;

/// A NegTokenInit in a frame.
type FramedNegInit = ApplicationTag0<GssApiNegInit>;

/// A NegTokenInit without a frame.
type NegTokenInit0 = ExplicitContextTag0<NegTokenInit>;

/// Tokens of the GSS-API, which their first octets name.
#[derive(Drop)]
pub struct Tokens;

impl Pages<(), GssApiMessageError> for Tokens {
    ghost tells = { λ _ octets result. (octets ≡ [] → result ≡ Err (Asn1Error TruncatedData))
        × (0 < length octets → is_token (slice_index octets 0) ≡ false → result ≡ Err (Asn1Error InvalidData))
        × (slice_index octets 0 ≡ 4
        → IsMicTold ⟦<MicToken as Show<GssToken>>⟧ (plain (codes "MIC")) (λ p. p.items) octets result)
        × (slice_index octets 0 ≡ 5
        → IsWrapTold ⟦<WrapToken as Show<GssToken>>⟧ (plain (codes "Wrap")) (λ p. p.items) octets result)
        × (slice_index octets 0 ≡ 160
        → IsToldBy ⟦<NegTokenInit0 as DerEncode>⟧ ⟦<NegTokenInit0 as Show<GssToken>>⟧ (plain (codes "NegTokenInit")) (λ p. p.items) octets result)
        × (slice_index octets 0 ≡ 161
        → IsToldBy ⟦<NegTokenTarg1 as DerEncode>⟧ ⟦<NegTokenTarg1 as Show<GssToken>>⟧ (plain (codes "NegTokenResp")) (λ p. p.items) octets result)
        × (slice_index octets 0 ≡ 96 → IsNegotiation octets
        → IsToldBy ⟦<FramedNegInit as DerEncode>⟧ ⟦<FramedNegInit as Show<GssToken>>⟧
        (plain (codes "InitialContextToken")) (λ p. p.items) octets result)
        × (slice_index octets 0 ≡ 96 → HasId 1 0 octets
        → IsToldBy ⟦<FramedApReq as DerEncode>⟧ ⟦<FramedApReq as Show<GssToken>>⟧
        (plain (codes "InitialContextToken")) (λ p. p.items) octets result)
        × (slice_index octets 0 ≡ 96 → HasId 2 0 octets
        → IsToldBy ⟦<FramedApRep as DerEncode>⟧ ⟦<FramedApRep as Show<GssToken>>⟧
        (plain (codes "InitialContextToken")) (λ p. p.items) octets result)
        × (slice_index octets 0 ≡ 96 → HasId 3 0 octets
        → IsToldBy ⟦<FramedError as DerEncode>⟧ ⟦<FramedError as Show<GssToken>>⟧
        (plain (codes "InitialContextToken")) (λ p. p.items) octets result)
        × (slice_index octets 0 ≡ 96 → HasId 4 0 octets
        → IsToldBy ⟦<FramedTgtReq as DerEncode>⟧ ⟦<FramedTgtReq as Show<GssToken>>⟧
        (plain (codes "InitialContextToken")) (λ p. p.items) octets result)
        × (slice_index octets 0 ≡ 96 → HasId 4 1 octets
        → IsToldBy ⟦<FramedTgtRep as DerEncode>⟧ ⟦<FramedTgtRep as Show<GssToken>>⟧
        (plain (codes "InitialContextToken")) (λ p. p.items) octets result)
        × (slice_index octets 0 ≡ 96 → HasId 5 0 octets
        → IsToldBy ⟦<FramedAsReq as DerEncode>⟧ ⟦<FramedAsReq as Show<GssToken>>⟧
        (plain (codes "InitialContextToken")) (λ p. p.items) octets result)
        × (slice_index octets 0 ≡ 96 → HasId 6 0 octets
        → IsToldBy ⟦<FramedAsRep as DerEncode>⟧ ⟦<FramedAsRep as Show<GssToken>>⟧
        (plain (codes "InitialContextToken")) (λ p. p.items) octets result)
        × (slice_index octets 0 ≡ 96 → HasId 5 1 octets → ⟦<ProxyMessages as TokenPages>⟧.tells octets result)
        × (slice_index octets 0 ≡ 96 → HasNone octets
        → IsToldBy ⟦<FramedApReq as DerEncode>⟧ ⟦<FramedApReq as Show<GssToken>>⟧
        (plain (codes "InitialContextToken")) (λ p. p.items) octets result)
        × (slice_index octets 0 ≡ 96 → (first second : ℕ) → HasId first second octets → is_known_id first second ≡ false → RefusesId first second result) };

    fn page_of(alloc: Global, _kind: (), octets: &[u8]) -> Result<Page, GssApiMessageError> {
        page_of_token(alloc, octets)
    }
}

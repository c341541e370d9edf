//! Octet strings of a negotiation that hold tokens (RFC 4178, 4.2).

ghost use Rattle.std.specs.Prelude.{◌≡◌, ℕ, List, IfOk, MatchOption, OnErr, OnOk};
ghost use Rattle.krb_gss_tokens.specs.Mic.{Mic};
ghost use Rattle.krb_show.specs.Leaves.{octets_of};
ghost use Rattle.krb_show.specs.Opened.{opened_or};
ghost use Rattle.krb_show.specs.Pages.{optional_of};
ghost use Rattle.krb_show.specs.Tokens.{Begins, Label, Token};
ghost use Rattle.krb_show_messages.specs.Shown.{shows_of};
ghost use Rattle.krb_show_tokens.specs.Opened.{mic_or_octets};
ghost use Rattle.krb_show_tokens.specs.Told.{IsMicOf};

use crate::GssToken;
use krb_der::{Der, ExplicitContextTag, OctetStringAsn1, Optional};
use krb_gss_tokens::gss_api::{ApplicationTag0, KrbMessage};
use krb_gss_tokens::{GssApiMessageError, MicToken};
use krb_messages::messages::{ApRep, ApReq, AsRep, AsReq, KrbError, TgtRep, TgtReq};
use krb_show::{Label, Page, Show, ShowFields, open, show_octets};
use krb_show_messages::{HasRow, show_value};
use std::alloc::{AllocError, Global};
use std::marker::PhantomData;

/// A KRB-AP-REQ in a frame (RFC 4121, 4.1).
pub type FramedApReq = ApplicationTag0<KrbMessage<ApReq>>;

/// A KRB-AP-REP in a frame (RFC 4121, 4.1).
pub type FramedApRep = ApplicationTag0<KrbMessage<ApRep>>;

/// A KRB-ERROR in a frame (RFC 4121, 4.1).
pub type FramedError = ApplicationTag0<KrbMessage<KrbError>>;

/// A KRB-TGT-REQ in a frame (draft-swift-win2k-krb-user2user-03).
pub type FramedTgtReq = ApplicationTag0<KrbMessage<TgtReq>>;

/// A KRB-TGT-REP in a frame (draft-swift-win2k-krb-user2user-03).
pub type FramedTgtRep = ApplicationTag0<KrbMessage<TgtRep>>;

/// A KRB-AS-REQ in a frame (draft-zhu-pku2u-09, 6).
pub type FramedAsReq = ApplicationTag0<KrbMessage<AsReq>>;

/// A KRB-AS-REP in a frame (draft-zhu-pku2u-09, 6).
pub type FramedAsRep = ApplicationTag0<KrbMessage<AsRep>>;

/// Octet strings that may hold a token.
pub trait OpensOctets {
    /// What a page is after the octets are appended to it, opened: the label, the octets, the page before and the page after.
    ghost opened: { Label → List ℕ → List Token → List Token → Type 0 };

    /// Appends the octets, opened, to the page, which is as before where an allocation fails.
    fn show_opened_octets(
        alloc: Global,
        label: &Label<'static>,
        octets: &[u8],
        page: &mut Page,
    ) -> Result<(), AllocError>
        ensures ok { OnOk result (opened label.now octets.now page.old.items page.new.items) }
        ensures kept { OnOk result (Begins page.old.items page.new.items) }
        ensures err { OnErr result (page.new.items ≡ page.old.items) };
}

/// A field of a struct that may hold such octets, and its label.
#[derive(Drop)]
pub struct OpenedOctets<'a, V, N> {
    pub label: Label<'static>,
    pub octets: &'a Optional<Option<ExplicitContextTag<OctetStringAsn1, N>>>,
    pub values: PhantomData<V>,
}

impl<'a, V: OpensOctets, N> ShowFields for OpenedOctets<'a, V, N> {
    ghost shows = { λ f. optional_of (V.opened f.label) f.octets.now.0 };

    fn show_fields(&self, alloc: Global, page: &mut Page) -> Result<(), AllocError> {
        let octets = self.octets;
        match &octets.0 {
            Some(octets) => {
                V::show_opened_octets(alloc, &self.label, octets.0.0.as_slice(), page)
            }
            None => Ok(()),
        }
    }
}

/// Octets as they are.
#[derive(Drop)]
pub struct PlainOctets;

impl OpensOctets for PlainOctets {
    ghost opened = { octets_of };

    fn show_opened_octets(
        alloc: Global,
        label: &Label<'static>,
        octets: &[u8],
        page: &mut Page,
    ) -> Result<(), AllocError> {
        show_octets(alloc, label, octets, page)
    }
}

/// Octets that are the encoding of a value of `T` as that value, in the way of `K`, and others as `R` opens them.
#[derive(Drop)]
pub struct OpenedAs<K, T, R> {
    pub shown: PhantomData<K>,
    pub value: PhantomData<T>,
    pub others: PhantomData<R>,
}

impl<K, T: Der + Show<K> + Drop, R: OpensOctets> OpensOctets for OpenedAs<K, T, R> {
    ghost opened = { λ label octets. opened_or T.is_value T.enc (T.shows label) (R.opened label octets) octets };

    fn show_opened_octets(
        alloc: Global,
        label: &Label<'static>,
        octets: &[u8],
        page: &mut Page,
    ) -> Result<(), AllocError> {
        match open::<T>(alloc, octets)? {
            Some(value) => value.show(alloc, label, page),
            None => R::show_opened_octets(alloc, label, octets, page),
        }
    }
}

/// Octets that are the encoding of a value of `T` by the row of `T`, and others as `R` opens them.
#[derive(Drop)]
pub struct OpenedByRow<T, R> {
    pub value: PhantomData<T>,
    pub others: PhantomData<R>,
}

impl<T: Der + HasRow + Drop, R: OpensOctets> OpensOctets for OpenedByRow<T, R> {
    ghost opened = { λ label octets. opened_or T.is_value T.enc (shows_of T.row_name T.enc label) (R.opened label octets) octets };

    fn show_opened_octets(
        alloc: Global,
        label: &Label<'static>,
        octets: &[u8],
        page: &mut Page,
    ) -> Result<(), AllocError> {
        match open::<T>(alloc, octets)? {
            Some(value) => show_value(alloc, label.text, &value, page),
            None => R::show_opened_octets(alloc, label, octets, page),
        }
    }
}

/// Messages of Kerberos that stand alone: a KRB-AP-REQ, KRB-AP-REP or KRB-ERROR (RFC 4120, 5.5 and 5.9.1) is shown as that message, and other
/// octets as octets.
pub type LoneMessages = OpenedByRow<ApReq, OpenedByRow<ApRep, OpenedByRow<KrbError, PlainOctets>>>;

/// Tokens of the mechanism for users who serve one another: a KRB-TGT-REQ or KRB-TGT-REP in a frame (draft-swift-win2k-krb-user2user-03) is
/// shown as such a token, and other octets as `LoneMessages` are.
pub type UserToUserTokens = OpenedAs<
    GssToken,
    FramedTgtReq,
    OpenedAs<GssToken, FramedTgtRep, LoneMessages>,
>;

/// Tokens of PKU2U: a KRB-AS-REQ or KRB-AS-REP in a frame (draft-zhu-pku2u-09, 6) is shown as such a token, and other octets as
/// `UserToUserTokens` are.
pub type Pku2uTokens = OpenedAs<
    GssToken,
    FramedAsReq,
    OpenedAs<GssToken, FramedAsRep, UserToUserTokens>,
>;

/// Tokens of mechanisms, `mechToken` and `responseToken` (RFC 4178, 4.2): a KRB-AP-REQ, KRB-AP-REP or KRB-ERROR in a frame (RFC 4121, 4.1) is
/// shown as such a token, whatever its mechanism and its token id, and other octets as `Pku2uTokens` are.
pub type MechTokens = OpenedAs<
    GssToken,
    FramedApReq,
    OpenedAs<GssToken, FramedApRep, OpenedAs<GssToken, FramedError, Pku2uTokens>>,
>;

/// `MechTokens` under one name, for types and functions that are made of it.
#[derive(Drop)]
pub(crate) struct MechanismTokens;

impl OpensOctets for MechanismTokens {
    ghost opened = { ⟦<MechTokens as OpensOctets>⟧.opened };

    fn show_opened_octets(
        alloc: Global,
        label: &Label<'static>,
        octets: &[u8],
        page: &mut Page,
    ) -> Result<(), AllocError> {
        MechTokens::show_opened_octets(alloc, label, octets, page)
    }
}

/// MICs over a list of mechanisms, `mechListMIC` (RFC 4178, 4.2 and 5): a MIC token of RFC 4121, 4.2.6.1, is shown as that token, and other
/// octets as octets.
#[derive(Drop)]
pub struct MechListMics;

/// The MIC token that these octets are; `None` where they are none. The only error is an allocation failure.
pub(crate) fn open_mic(alloc: Global, octets: &[u8]) -> Result<Option<MicToken>, AllocError>
    ensures { IfOk result (λ found. MatchOption found ((t : Mic) → IsMicOf octets.now t → ⊥) (IsMicOf octets.now)) }
{
    match MicToken::from_slice(alloc, octets) {
        Ok(token) => Ok(Some(token)),
        Err(GssApiMessageError::OutOfMemory) => Err(AllocError),
        Err(_) => Ok(None),
    }
}

impl OpensOctets for MechListMics {
    ghost opened = { mic_or_octets ⟦<MicToken as Show<GssToken>>⟧ };

    fn show_opened_octets(
        alloc: Global,
        label: &Label<'static>,
        octets: &[u8],
        page: &mut Page,
    ) -> Result<(), AllocError> {
        match open_mic(alloc, octets)? {
            Some(token) => token.show(alloc, label, page),
            None => show_octets(alloc, label, octets, page),
        }
    }
}

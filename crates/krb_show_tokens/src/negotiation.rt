//! SPNEGO (RFC 4178).

ghost use Rattle.std.specs.Prelude.{codes};
ghost use Rattle.krb_registry.specs.declared.kind.Kind.TheVariants.{ContextFlag, NegotiationState};
ghost use Rattle.krb_show.specs.Leaves.{flags_of};
ghost use Rattle.krb_show.specs.Pages.{◌then◌, list_of, optional_of, struct_of};
ghost use Rattle.krb_show.specs.Tokens.{of_kind, plain};
ghost use Rattle.krb_show_tokens.specs.Leaves.{element_of, identifier_of};

use crate::GssToken;
use crate::opened::{MechListMics, MechTokens, MechanismTokens, OpenedOctets, OpensOctets};
use krb_gss_tokens::gss_api::{GssApiNegInit, NegTokenInit, NegTokenTarg};
use krb_show::{Label, Page, Role, Show, ShowFields, show_fields, show_struct};
use std::alloc::{AllocError, Global};
use std::marker::PhantomData;

/// What a first message offers and asks for, lent for showing.
#[derive(Drop)]
struct Offer<'a> {
    message: &'a NegTokenInit,
}

impl<'a> ShowFields for Offer<'a> {
    ghost shows = { λ f. optional_of (list_of identifier_of (plain (codes "mechTypes"))) f.message.now.mech_types.0
        then optional_of (flags_of (of_kind (codes "reqFlags") ContextFlag)) f.message.now.req_flags.0 };

    fn show_fields(&self, alloc: Global, page: &mut Page) -> Result<(), AllocError> {
        let message = self.message;
        let fields = show_fields!(
            GssToken; message;
            "mechTypes" = mech_types,
            "reqFlags" ContextFlag = req_flags
        );
        fields.show_fields(alloc, page)
    }
}

/// The first message of a negotiation (RFC 4178, 4.2.1), the token of its mechanism and the MIC opened.
impl Show<GssToken> for NegTokenInit {
    ghost shows = { λ label v. struct_of label (
        optional_of (list_of identifier_of (plain (codes "mechTypes"))) v.mech_types.0
        then optional_of (flags_of (of_kind (codes "reqFlags") ContextFlag)) v.req_flags.0
        then optional_of (⟦<MechTokens as OpensOctets>⟧.opened (plain (codes "mechToken"))) v.mech_token.0
        then optional_of (⟦<MechListMics as OpensOctets>⟧.opened (plain (codes "mechListMIC"))) v.mech_list_mic.0) };

    fn show(&self, alloc: Global, label: &Label, page: &mut Page) -> Result<(), AllocError> {
        let offer = Offer { message: self };
        let token = OpenedOctets {
            label: Label {
                text: "mechToken",
                kind: None,
                role: Role::None,
                is_item: false,
            },
            octets: &self.mech_token,
            values: PhantomData::<MechanismTokens>,
        };
        let mic = OpenedOctets {
            label: Label {
                text: "mechListMIC",
                kind: None,
                role: Role::None,
                is_item: false,
            },
            octets: &self.mech_list_mic,
            values: PhantomData::<MechListMics>,
        };
        show_struct(alloc, label, &((offer, token), mic), page)
    }
}

/// What a later message says of the choice of a mechanism, lent for showing.
#[derive(Drop)]
struct Choice<'a> {
    message: &'a NegTokenTarg,
}

impl<'a> ShowFields for Choice<'a> {
    ghost shows = { λ f. optional_of (element_of (of_kind (codes "negState") NegotiationState)) f.message.now.neg_result.0
        then optional_of (identifier_of (plain (codes "supportedMech"))) f.message.now.supported_mech.0 };

    fn show_fields(&self, alloc: Global, page: &mut Page) -> Result<(), AllocError> {
        let message = self.message;
        let fields = show_fields!(
            GssToken; message;
            "negState" NegotiationState = neg_result,
            "supportedMech" = supported_mech
        );
        fields.show_fields(alloc, page)
    }
}

/// A later message of a negotiation (RFC 4178, 4.2.2), the token of the mechanism and the MIC opened.
impl Show<GssToken> for NegTokenTarg {
    ghost shows = { λ label v. struct_of label (
        optional_of (element_of (of_kind (codes "negState") NegotiationState)) v.neg_result.0
        then optional_of (identifier_of (plain (codes "supportedMech"))) v.supported_mech.0
        then optional_of (⟦<MechTokens as OpensOctets>⟧.opened (plain (codes "responseToken"))) v.response_token.0
        then optional_of (⟦<MechListMics as OpensOctets>⟧.opened (plain (codes "mechListMIC"))) v.mech_list_mic.0) };

    fn show(&self, alloc: Global, label: &Label, page: &mut Page) -> Result<(), AllocError> {
        let choice = Choice { message: self };
        let token = OpenedOctets {
            label: Label {
                text: "responseToken",
                kind: None,
                role: Role::None,
                is_item: false,
            },
            octets: &self.response_token,
            values: PhantomData::<MechanismTokens>,
        };
        let mic = OpenedOctets {
            label: Label {
                text: "mechListMIC",
                kind: None,
                role: Role::None,
                is_item: false,
            },
            octets: &self.mech_list_mic,
            values: PhantomData::<MechListMics>,
        };
        show_struct(alloc, label, &((choice, token), mic), page)
    }
}

/// The content of the token that begins a negotiation (RFC 4178, 4.2; RFC 2743, 3.1).
impl Show<GssToken> for GssApiNegInit {
    ghost shows = { λ label v. struct_of label (
        identifier_of (plain (codes "thisMech")) v.oid
        then ⟦<NegTokenInit as Show<GssToken>>⟧.shows (plain (codes "negTokenInit")) v.neg_token_init) };

    fn show(&self, alloc: Global, label: &Label, page: &mut Page) -> Result<(), AllocError> {
        show_struct(
            alloc,
            label,
            &show_fields!(GssToken; self; "thisMech" = oid, "negTokenInit" = neg_token_init),
            page,
        )
    }
}

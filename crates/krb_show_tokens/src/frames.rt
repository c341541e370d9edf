//! Tokens in frames (RFC 2743, 3.1; RFC 4121, 4.1).

ghost use Rattle.std.specs.Prelude.{codes};
ghost use Rattle.krb_show.specs.Pages.{◌then◌, struct_of};
ghost use Rattle.krb_show.specs.Tokens.{plain};
ghost use Rattle.krb_show_messages.specs.Shown.{shows_of};
ghost use Rattle.krb_show_tokens.specs.Leaves.{identifier_of, token_id_of};

use crate::GssToken;
use crate::leaves::show_token_id;
use krb_der::DerEncode;
use krb_gss_tokens::gss_api::{ApplicationTag0, KrbMessage};
use krb_show::{Label, Page, Role, Show, ShowFields, show_fields, show_struct};
use krb_show_messages::{HasRow, RowField};
use std::alloc::{AllocError, Global};

/// The tag of a token adds nothing (RFC 2743, 3.1).
impl<T: Show<GssToken>> Show<GssToken> for ApplicationTag0<T> {
    ghost shows = { T.shows };

    fn show(&self, alloc: Global, label: &Label, page: &mut Page) -> Result<(), AllocError> {
        let value = &self.0;
        value.show(alloc, label, page)
    }
}

/// A token id, lent for showing.
#[derive(Drop)]
pub(crate) struct TokenIdField<'a> {
    pub(crate) label: Label<'a>,
    pub(crate) id: [u8; 2],
}

impl<'a> ShowFields for TokenIdField<'a> {
    ghost shows = { λ f. token_id_of f.label f.id };

    fn show_fields(&self, alloc: Global, page: &mut Page) -> Result<(), AllocError> {
        show_token_id(alloc, &self.label, self.id, page)
    }
}

/// The mechanism, the token id and the message, under its name (RFC 2743, 3.1; RFC 4121, 4.1).
impl<T: DerEncode + HasRow> Show<GssToken> for KrbMessage<T> {
    ghost shows = { λ label v. struct_of label (
        identifier_of (plain (codes "thisMech")) v.krb5_oid
        then token_id_of (plain (codes "TOK_ID")) v.krb5_token_id
        then shows_of ⟦<T as HasRow>⟧.row_name ⟦<T as DerEncode>⟧.enc (plain ⟦<T as HasRow>⟧.row_name) v.krb_msg) };

    fn show(&self, alloc: Global, label: &Label, page: &mut Page) -> Result<(), AllocError> {
        let id = TokenIdField {
            label: Label {
                text: "TOK_ID",
                kind: None,
                role: Role::None,
                is_item: false,
            },
            id: self.krb5_token_id,
        };
        let message = RowField {
            text: T::row(),
            value: &self.krb_msg,
        };
        show_struct(
            alloc,
            label,
            &(
                (show_fields!(GssToken; self; "thisMech" = krb5_oid), id),
                message,
            ),
            page,
        )
    }
}

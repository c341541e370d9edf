//! The header of IAKERB, which has no row: its reader ignores what follows its fields.

ghost use Rattle.std.specs.Prelude.{codes};
ghost use Rattle.krb_show.specs.Leaves.{flags_of, octets_of, text_of};
ghost use Rattle.krb_show.specs.Pages.{◌then◌, optional_of, struct_of};
ghost use Rattle.krb_show.specs.Tokens.{plain};

use crate::Message;
use krb_gss_tokens::iakerb_header::messages::IAKerbHeader;
use krb_show::{Label, Page, Show, show_fields, show_struct};
use std::alloc::{AllocError, Global};

/// The header of an IAKERB message (draft-ietf-kitten-iakerb-03, 3).
impl Show<Message> for IAKerbHeader {
    ghost shows = { λ label v. struct_of label (
        text_of (plain (codes "target-realm")) v.target_realm
        then optional_of (octets_of (plain (codes "cookie"))) v.cookie.0
        then optional_of (flags_of (plain (codes "flags"))) v.flags.0) };

    fn show(&self, alloc: Global, label: &Label, page: &mut Page) -> Result<(), AllocError> {
        show_struct(
            alloc,
            label,
            &show_fields!(Message; self; "target-realm" = target_realm, "cookie" = cookie, "flags" = flags),
            page,
        )
    }
}

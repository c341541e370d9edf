//! MIC and Wrap tokens (RFC 4121, 4.2.6).

ghost use Rattle.std.specs.Prelude.{codes};
ghost use Rattle.krb_gss_tokens.specs.Layout.{mic_id, wrap_id};
ghost use Rattle.krb_registry.specs.declared.kind.Kind.TheVariants.{TokenFlag};
ghost use Rattle.krb_show.specs.Leaves.{octets_of, unsigned_of};
ghost use Rattle.krb_show.specs.Pages.{◌then◌, struct_of};
ghost use Rattle.krb_show.specs.Tokens.{of_kind, plain};
ghost use Rattle.krb_show_tokens.specs.Leaves.{token_flags_of, token_id_of};

use crate::GssToken;
use crate::frames::TokenIdField;
use crate::leaves::{show_token_flags, show_unsigned};
use krb_gss_tokens::{MicToken, WrapToken};
use krb_registry::Kind;
use krb_registry::gss_api::{MIC_TOKEN_ID, WRAP_TOKEN_ID};
use krb_show::{Label, Page, Role, Show, ShowFields, show_octets, show_struct};
use std::alloc::{AllocError, Global};

/// Flags, lent for showing.
#[derive(Drop)]
struct FlagsField<'a> {
    label: Label<'a>,
    flags: u8,
}

impl<'a> ShowFields for FlagsField<'a> {
    ghost shows = { λ f. token_flags_of f.label f.flags };

    fn show_fields(&self, alloc: Global, page: &mut Page) -> Result<(), AllocError> {
        show_token_flags(alloc, &self.label, self.flags, page)
    }
}

/// A number without a sign, lent for showing.
#[derive(Drop)]
struct UnsignedField<'a> {
    label: Label<'a>,
    number: u64,
}

impl<'a> ShowFields for UnsignedField<'a> {
    ghost shows = { λ f. unsigned_of f.label f.number };

    fn show_fields(&self, alloc: Global, page: &mut Page) -> Result<(), AllocError> {
        show_unsigned(alloc, &self.label, self.number, page)
    }
}

/// A count, lent for showing.
#[derive(Drop)]
struct CountField<'a> {
    label: Label<'a>,
    count: u16,
}

impl<'a> ShowFields for CountField<'a> {
    ghost shows = { λ f. unsigned_of f.label f.count };

    fn show_fields(&self, alloc: Global, page: &mut Page) -> Result<(), AllocError> {
        show_unsigned(alloc, &self.label, u64::from(self.count), page)
    }
}

/// Octets, lent for showing.
#[derive(Drop)]
struct OctetsField<'a> {
    label: Label<'a>,
    octets: &'a Vec<u8>,
}

impl<'a> ShowFields for OctetsField<'a> {
    ghost shows = { λ f. octets_of f.label f.octets.now.items };

    fn show_fields(&self, alloc: Global, page: &mut Page) -> Result<(), AllocError> {
        show_octets(alloc, &self.label, self.octets.as_slice(), page)
    }
}

/// A MIC token (RFC 4121, 4.2.6.1). The filler, five octets `ff`, is not shown.
impl Show<GssToken> for MicToken {
    ghost shows = { λ label t. struct_of label (
        token_id_of (plain (codes "TOK_ID")) mic_id
        then token_flags_of (of_kind (codes "Flags") TokenFlag) t.flags
        then unsigned_of (plain (codes "SND_SEQ")) t.seq_num
        then octets_of (plain (codes "SGN_CKSUM")) t.checksum) };

    fn show(&self, alloc: Global, label: &Label, page: &mut Page) -> Result<(), AllocError> {
        let id = TokenIdField {
            label: Label {
                text: "TOK_ID",
                kind: None,
                role: Role::None,
                is_item: false,
            },
            id: MIC_TOKEN_ID,
        };
        let flags = FlagsField {
            label: Label {
                text: "Flags",
                kind: Some(Kind::TokenFlag),
                role: Role::None,
                is_item: false,
            },
            flags: self.flags,
        };
        let number = UnsignedField {
            label: Label {
                text: "SND_SEQ",
                kind: None,
                role: Role::None,
                is_item: false,
            },
            number: self.seq_num,
        };
        let checksum = OctetsField {
            label: Label {
                text: "SGN_CKSUM",
                kind: None,
                role: Role::None,
                is_item: false,
            },
            octets: &self.checksum,
        };
        show_struct(alloc, label, &(((id, flags), number), checksum), page)
    }
}

/// A Wrap token (RFC 4121, 4.2.6.2). The filler, an octet `ff`, is not shown.
impl Show<GssToken> for WrapToken {
    ghost shows = { λ label t. struct_of label (
        token_id_of (plain (codes "TOK_ID")) wrap_id
        then token_flags_of (of_kind (codes "Flags") TokenFlag) t.flags
        then unsigned_of (plain (codes "EC")) t.ec
        then unsigned_of (plain (codes "RRC")) t.rrc
        then unsigned_of (plain (codes "SND_SEQ")) t.seq_num
        then octets_of (plain (codes "Data")) t.checksum) };

    fn show(&self, alloc: Global, label: &Label, page: &mut Page) -> Result<(), AllocError> {
        let id = TokenIdField {
            label: Label {
                text: "TOK_ID",
                kind: None,
                role: Role::None,
                is_item: false,
            },
            id: WRAP_TOKEN_ID,
        };
        let flags = FlagsField {
            label: Label {
                text: "Flags",
                kind: Some(Kind::TokenFlag),
                role: Role::None,
                is_item: false,
            },
            flags: self.flags,
        };
        let extra_count = CountField {
            label: Label {
                text: "EC",
                kind: None,
                role: Role::None,
                is_item: false,
            },
            count: self.ec,
        };
        let rotation_count = CountField {
            label: Label {
                text: "RRC",
                kind: None,
                role: Role::None,
                is_item: false,
            },
            count: self.rrc,
        };
        let number = UnsignedField {
            label: Label {
                text: "SND_SEQ",
                kind: None,
                role: Role::None,
                is_item: false,
            },
            number: self.seq_num,
        };
        let data = OctetsField {
            label: Label {
                text: "Data",
                kind: None,
                role: Role::None,
                is_item: false,
            },
            octets: &self.checksum,
        };
        show_struct(
            alloc,
            label,
            &(((((id, flags), extra_count), rotation_count), number), data),
            page,
        )
    }
}

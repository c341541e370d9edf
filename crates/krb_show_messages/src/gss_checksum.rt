//! The checksum of the GSS-API in an authenticator (RFC 4121, 4.1.1).

ghost use Rattle.std.specs.Prelude.{◌≡◌, ◌+◌, ◌≤◌, pos, length, take, drop, codes, IfOk, MatchBool, OnOk, OnErr};
ghost use Rattle.krb_registry.specs.declared.kind.Kind.TheVariants.{GssFlag};
ghost use Rattle.krb_show.specs.Leaves.{flags_of, number_of, octets_of};
ghost use Rattle.krb_show.specs.Tokens.{Begins, of_kind, plain};
ghost use Rattle.krb_show_messages.specs.Formats.{deleg_of};
ghost use Rattle.krb_show_messages.specs.GssChecksum.{IsDelegation, IsGssChecksum, delegates, delegation_of, dlgth, exts_of, flag_bits, gss_checksum_of, rest_of};

mod places;

use crate::Message;
pub(crate) use crate::gss_checksum::places::places_of_gss_checksum;
use byteorder::{ByteOrder, LittleEndian};
use krb_der::BitStringAsn1;
use krb_registry::Kind;
use krb_show::{
    Label, NoFormats, Page, Role, Show, ShowFields, show_by_row, show_octets, show_struct,
};
use std::alloc::{AllocError, Global};

/// What Lgth is: how many octets Bnd has.
const BINDINGS_LENGTH: u32 = 16;

/// What DlgOpt is.
const DELEGATION_OPTION: u16 = 1;

/// Whether the flags delegate.
#[tactic(auto, unfolding(crate::specs::GssChecksum::delegates))]
fn delegates(octets: &[u8]) -> bool
    requires { 24 ≤ length octets.now }
    ensures { result ≡ delegates octets.now }
{
    octets[20] % 2 == 1
}

/// How many octets Deleg has.
#[tactic(auto, unfolding(crate::specs::GssChecksum::dlgth))]
fn delegated_length(octets: &[u8]) -> u16
    requires { 28 ≤ length octets.now }
    ensures { result ≡ dlgth octets.now }
{
    LittleEndian::read_u16(&octets[26..])
}

/// Whether DlgOpt is 1 and all of Deleg is there.
fn is_delegation(octets: &[u8]) -> bool
    requires { 24 ≤ length octets.now }
    ensures { MatchBool result (IsDelegation octets.now) (IsDelegation octets.now → ⊥) }
{
    octets.len() >= 28
        && LittleEndian::read_u16(&octets[24..]) == DELEGATION_OPTION
        && octets.len() - 28 >= delegated_length(octets) as usize
}

/// Whether the octets are such a checksum.
fn is_gss_checksum(octets: &[u8]) -> bool
    ensures { MatchBool result (IsGssChecksum octets.now) (IsGssChecksum octets.now → ⊥) }
{
    octets.len() >= 24
        && LittleEndian::read_u32(octets) == BINDINGS_LENGTH
        && (!delegates(octets) || is_delegation(octets))
}

/// A number of the checksum, lent for showing.
#[derive(Drop)]
struct Number<'a> {
    label: Label<'a>,
    number: u32,
}

impl<'a> ShowFields for Number<'a> {
    ghost shows = { λ f. number_of f.label (pos f.number) };

    fn show_fields(&self, alloc: Global, page: &mut Page) -> Result<(), AllocError> {
        Show::<Message>::show(&self.number, alloc, &self.label, page)
    }
}

/// Bnd, lent for showing.
#[derive(Drop)]
struct Bindings<'a> {
    octets: &'a [u8],
    ghost long: { 24 ≤ length octets.now },
}

impl<'a> ShowFields for Bindings<'a> {
    ghost shows = { λ f. octets_of (plain (codes "Bnd")) (take 16 (drop 4 f.octets.now)) };

    fn show_fields(&self, alloc: Global, page: &mut Page) -> Result<(), AllocError> {
        let label = Label {
            text: "Bnd",
            kind: None,
            role: Role::None,
            is_item: false,
        };
        show_octets(alloc, &label, &self.octets[4..][..16], page)
    }
}

/// Exts, lent for showing, if there are any.
#[derive(Drop)]
struct Exts<'a> {
    octets: &'a [u8],
}

impl<'a> ShowFields for Exts<'a> {
    ghost shows = { λ f. exts_of f.octets.now };

    fn show_fields(&self, alloc: Global, page: &mut Page) -> Result<(), AllocError> {
        if self.octets.is_empty() {
            return Ok(());
        }
        let label = Label {
            text: "Exts",
            kind: None,
            role: Role::None,
            is_item: false,
        };
        show_octets(alloc, &label, self.octets, page)
    }
}

/// Flags, the highest octet first.
fn flag_bits(alloc: Global, octets: &[u8]) -> Result<BitStringAsn1, AllocError>
    requires { 24 ≤ length octets.now }
    ensures { IfOk result (λ v. v ≡ flag_bits octets.now) }
{
    let mut bits = Vec::with_capacity(alloc, 4)?;
    bits.push(octets[23])?;
    bits.push(octets[22])?;
    bits.push(octets[21])?;
    bits.push(octets[20])?;
    Ok(BitStringAsn1::with_bytes(bits))
}

/// Flags, lent for showing.
#[derive(Drop)]
struct Flags<'a> {
    octets: &'a [u8],
    ghost long: { 24 ≤ length octets.now },
}

impl<'a> ShowFields for Flags<'a> {
    ghost shows = { λ f. flags_of (of_kind (codes "Flags") GssFlag) (flag_bits f.octets.now) };

    fn show_fields(&self, alloc: Global, page: &mut Page) -> Result<(), AllocError> {
        let label = Label {
            text: "Flags",
            kind: Some(Kind::GssFlag),
            role: Role::None,
            is_item: false,
        };
        let flags = flag_bits(alloc, self.octets)?;
        Show::<Message>::show(&flags, alloc, &label, page)
    }
}

/// Dlgth, lent for showing.
#[derive(Drop)]
struct Dlgth<'a> {
    octets: &'a [u8],
    ghost long: { 28 + dlgth octets.now ≤ length octets.now },
}

impl<'a> ShowFields for Dlgth<'a> {
    ghost shows = { λ f. number_of (plain (codes "Dlgth")) (pos (dlgth f.octets.now)) };

    fn show_fields(&self, alloc: Global, page: &mut Page) -> Result<(), AllocError> {
        let label = Label {
            text: "Dlgth",
            kind: None,
            role: Role::None,
            is_item: false,
        };
        let length = u32::from(delegated_length(self.octets));
        Show::<Message>::show(&length, alloc, &label, page)
    }
}

/// Deleg, lent for showing: a KRB-CRED is opened.
#[derive(Drop)]
struct Deleg<'a> {
    octets: &'a [u8],
    ghost long: { 28 + dlgth octets.now ≤ length octets.now },
}

impl<'a> ShowFields for Deleg<'a> {
    ghost shows = { λ f. deleg_of (take (dlgth f.octets.now) (drop 28 f.octets.now)) };

    fn show_fields(&self, alloc: Global, page: &mut Page) -> Result<(), AllocError> {
        let length = delegated_length(self.octets) as usize;
        show_by_row::<NoFormats>(
            alloc,
            "KRB-CRED",
            "Deleg",
            &self.octets[28..][..length],
            page,
        )
    }
}

/// What stands behind Deleg, lent for showing.
#[derive(Drop)]
struct ExtsBehindDeleg<'a> {
    octets: &'a [u8],
    ghost long: { 28 + dlgth octets.now ≤ length octets.now },
}

impl<'a> ShowFields for ExtsBehindDeleg<'a> {
    ghost shows = { λ f. exts_of (drop (28 + dlgth f.octets.now) f.octets.now) };

    fn show_fields(&self, alloc: Global, page: &mut Page) -> Result<(), AllocError> {
        let length = delegated_length(self.octets) as usize;
        let exts = Exts {
            octets: &self.octets[28 + length..],
        };
        exts.show_fields(alloc, page)
    }
}

/// What those have that delegate, lent for showing.
#[derive(Drop)]
struct Delegation<'a> {
    octets: &'a [u8],
    ghost long: { 28 + dlgth octets.now ≤ length octets.now },
}

impl<'a> ShowFields for Delegation<'a> {
    ghost shows = { λ f. delegation_of deleg_of f.octets.now };

    fn show_fields(&self, alloc: Global, page: &mut Page) -> Result<(), AllocError> {
        let octets = self.octets;
        let dlg_opt = Number {
            label: Label {
                text: "DlgOpt",
                kind: None,
                role: Role::None,
                is_item: false,
            },
            number: 1,
        };
        let delegation = (
            ((dlg_opt, Dlgth { octets }), Deleg { octets }),
            ExtsBehindDeleg { octets },
        );
        delegation.show_fields(alloc, page)
    }
}

/// What stands behind Flags, lent for showing.
#[derive(Drop)]
struct BehindFlags<'a> {
    octets: &'a [u8],
    ghost valid: { IsGssChecksum octets.now },
}

impl<'a> ShowFields for BehindFlags<'a> {
    ghost shows = { λ f. rest_of deleg_of f.octets.now };

    fn show_fields(&self, alloc: Global, page: &mut Page) -> Result<(), AllocError> {
        let octets = self.octets;
        if delegates(octets) {
            return Delegation { octets }.show_fields(alloc, page);
        }
        let exts = Exts {
            octets: &octets[24..],
        };
        exts.show_fields(alloc, page)
    }
}

/// Appends the tokens of such a checksum, or octets.
pub(crate) fn show_gss_checksum(
    alloc: Global,
    label: &Label,
    octets: &[u8],
    page: &mut Page,
) -> Result<(), AllocError>
    ensures ok { OnOk result (
        (gss_checksum_of deleg_of label.now octets.now)
        page.old.items page.new.items) }
    ensures kept { OnOk result (Begins page.old.items page.new.items) }
    ensures err { OnErr result (page.new.items ≡ page.old.items) }
{
    if !is_gss_checksum(octets) {
        return show_octets(alloc, label, octets, page);
    }
    let lgth = Number {
        label: Label {
            text: "Lgth",
            kind: None,
            role: Role::None,
            is_item: false,
        },
        number: 16,
    };
    let context = ((lgth, Bindings { octets }), Flags { octets });
    show_struct(alloc, label, &(context, BehindFlags { octets }), page)
}

//! The PAC of a ticket (MS-PAC) as its directory.

ghost use Rattle.std.specs.Prelude.{◌≡◌, ◌≢◌, ◌≤◌, ℕ, [], ◌++◌, List, length, replicate, IfOk, IfErr, OnOk, OnErr, MatchBool, MatchOption, MatchResult, codes};
ghost use Rattle.std.specs.List.{flat_map};
ghost use Rattle.byteorder.specs.Endian.{little_number};
ghost use Rattle.krb_pac.specs.Numbered.{NumberedBuffer, NumberedPacIs, NumberedPacRejected};
ghost use Rattle.krb_show.specs.Leaves.{octets_of};
ghost use Rattle.krb_show.specs.Pages.{list_of};
ghost use Rattle.krb_show.specs.Tokens.{Begins, plain};
ghost use Rattle.krb_show_messages.specs.Pac.{buffer_of, directory_of, entries_octets, entries_of, entry_octets, entry_of, has_key, head_octets, held_octets_of, holds_key, other_of};
ghost use Rattle.krb_show_messages.specs.Pac.{pac_of, padded_octets, padding, plain_octets};

mod places;

use crate::Format;
pub use crate::pac::places::places_of_pac;
use byteorder::{ByteOrder, LittleEndian};
use krb_pac::{NumberedBufferView, NumberedInfoBuffer, NumberedPacView, PacError};
use krb_show::{Label, Page, Show, show_fields, show_list, show_octets, show_secret, show_struct};
use std::alloc::{AllocError, Global};

/// Octets of the input that hold a key, or not.
#[derive(Drop)]
struct Held<'a> {
    octets: &'a [u8],
    holds_key: bool,
}

impl<'a> Show<Format> for Held<'a> {
    ghost shows = { λ label v. held_octets_of v.holds_key label v.octets.now };

    fn show(&self, alloc: Global, label: &Label, page: &mut Page) -> Result<(), AllocError> {
        if self.holds_key {
            show_secret(alloc, label, self.octets, page)
        } else {
            show_octets(alloc, label, self.octets, page)
        }
    }
}

/// Whether a buffer of this type holds a key: the UserSessionKey of a KERB_VALIDATION_INFO (MS-PAC, 2.5).
fn holds_key(ul_type: u32) -> bool
    ensures { result ≡ holds_key ul_type }
{
    ul_type == 1
}

/// The fields of a buffer.
#[derive(Drop)]
struct BufferFields<'a> {
    ul_type: u32,
    cb_buffer_size: u32,
    offset: u64,
    octets: Held<'a>,
}

/// A buffer: its entry (MS-PAC, 2.4, PAC_INFO_BUFFER), and the octets that the entry names.
impl<'a> Show<Format> for NumberedBufferView<'a> {
    ghost shows = { buffer_of };

    fn show(&self, alloc: Global, label: &Label, page: &mut Page) -> Result<(), AllocError> {
        let info = self.info_buffer();
        let fields = BufferFields {
            ul_type: info.ul_type,
            cb_buffer_size: info.cb_buffer_size,
            offset: info.offset,
            octets: Held {
                octets: self.octets(),
                holds_key: holds_key(info.ul_type),
            },
        };
        show_struct(
            alloc,
            label,
            &show_fields!(
                Format; fields;
                "ulType" PacBufferType = ul_type,
                "cbBufferSize" = cb_buffer_size,
                "Offset" = offset,
                "buffer" PacBufferType = octets
            ),
            page,
        )
    }
}

/// The buffers of a PAC.
fn buffers<'a>(
    alloc: Global,
    pac: &NumberedPacView<'a>,
) -> Result<Vec<NumberedBufferView<'a>>, AllocError>
    ensures { IfOk result (λ buffers. buffers.items ≡ pac.now) }
{
    let mut buffers = Vec::with_capacity(alloc, pac.len())?;
    for buffer in pac.buffers() {
        buffers.push(buffer)?;
    }
    Ok(buffers)
}

/// The octets behind these, where the others begin with them.
#[tactic(auto, using(crate::proofs::Plain::behind_is))]
fn behind<'a>(octets: &'a [u8], first: &[u8]) -> Option<&'a [u8]>
    ensures { MatchOption result ((rest : List ℕ) → octets.now ≢ first.now ++ rest) (λ rest. octets.now ≡ first.now ++ rest.now) }
{
    octets.strip_prefix(first)
}

/// The octets before the entries of a PAC with so many buffers as these octets say.
fn head_of(octets: &[u8]) -> [u8; 8]
    requires { 4 ≤ length octets.now }
    ensures { result ≡ head_octets (little_number 4 octets.now) }
{
    let mut head = [0u8; 8];
    LittleEndian::write_u32(&mut head[..4], LittleEndian::read_u32(octets));
    head
}

/// The octets of an entry (MS-PAC, 2.4, PAC_INFO_BUFFER).
fn octets_of_entry(info: &NumberedInfoBuffer) -> [u8; 16]
    ensures { result ≡ entry_octets info.now }
{
    let mut octets = [0u8; 16];
    LittleEndian::write_u32(&mut octets[..4], info.ul_type);
    LittleEndian::write_u32(&mut octets[4..8], info.cb_buffer_size);
    LittleEndian::write_u64(&mut octets[8..16], info.offset);
    octets
}

/// The octets behind the entries of the buffers, where the others begin with these entries, one behind another.
fn behind_entries<'a>(octets: &'a [u8], buffers: &[NumberedBufferView]) -> Option<&'a [u8]>
    ensures { MatchOption result ((rest : List ℕ) → octets.now ≢ entries_octets buffers.now ++ rest) (λ rest. octets.now ≡ entries_octets buffers.now ++ rest.now) }
{
    let mut rest = octets;
    'entries: for buffer in buffers {
        match behind(rest, &octets_of_entry(buffer.info_buffer())) {
            Some(behind) => rest = behind,
            None => return None,
        }
    }
    Some(rest)
}

/// The octets behind a buffer and the zeros behind it up to a multiple of eight, where the others begin with these.
fn behind_buffer<'a>(octets: &'a [u8], buffer: &NumberedBufferView) -> Option<&'a [u8]>
    ensures { MatchOption result ((rest : List ℕ) → octets.now ≢ padded_octets buffer.now ++ rest) (λ rest. octets.now ≡ padded_octets buffer.now ++ rest.now) }
{
    let size = buffer.octets().len();
    let zeros = [0u8; 8];
    match behind(octets, buffer.octets()) {
        Some(rest) => behind(rest, &zeros[..(8 - size % 8) % 8]),
        None => None,
    }
}

/// The octets behind the buffers, where the others begin with these, one behind another, each with zeros behind it up to a multiple of eight.
fn behind_buffers<'a>(octets: &'a [u8], buffers: &[NumberedBufferView]) -> Option<&'a [u8]>
    ensures { MatchOption result ((rest : List ℕ) → octets.now ≢ flat_map padded_octets buffers.now ++ rest)
        (λ rest. octets.now ≡ flat_map padded_octets buffers.now ++ rest.now) }
{
    let mut rest = octets;
    'buffers: for buffer in buffers {
        match behind_buffer(rest, buffer) {
            Some(behind) => rest = behind,
            None => return None,
        }
    }
    Some(rest)
}

/// Whether the buffers of a PAC stand one behind another in the order of their entries, and nothing else is in its octets.
fn is_plain(octets: &[u8], buffers: &[NumberedBufferView]) -> bool
    requires { NumberedPacIs octets.now buffers.now }
    ensures { MatchBool result (octets.now ≡ plain_octets buffers.now) (octets.now ≢ plain_octets buffers.now) }
{
    let Some(rest) = behind(octets, &head_of(octets)) else {
        return false;
    };
    let Some(rest) = behind_entries(rest, buffers) else {
        return false;
    };
    match behind_buffers(rest, buffers) {
        Some(rest) => rest.is_empty(),
        None => false,
    }
}

/// The entry of a buffer (MS-PAC, 2.4, PAC_INFO_BUFFER) alone.
impl Show<Format> for NumberedInfoBuffer {
    ghost shows = { entry_of };

    fn show(&self, alloc: Global, label: &Label, page: &mut Page) -> Result<(), AllocError> {
        show_struct(
            alloc,
            label,
            &show_fields!(
                Format; self;
                "ulType" PacBufferType = ul_type,
                "cbBufferSize" = cb_buffer_size,
                "Offset" = offset
            ),
            page,
        )
    }
}

/// The list of entries.
impl Show<Format> for Vec<NumberedInfoBuffer> {
    ghost shows = { λ label v. list_of entry_of label v.items };

    fn show(&self, alloc: Global, label: &Label, page: &mut Page) -> Result<(), AllocError> {
        show_list(alloc, label, self.as_slice(), page)
    }
}

/// The entries of buffers.
fn entries(
    alloc: Global,
    buffers: &[NumberedBufferView],
) -> Result<Vec<NumberedInfoBuffer>, AllocError>
    ensures { IfOk result (λ made. made.items ≡ entries_of buffers.now) }
{
    let mut entries = Vec::with_capacity(alloc, buffers.len())?;
    for buffer in buffers {
        entries.push(*buffer.info_buffer())?;
    }
    Ok(entries)
}

/// The fields of a PAC whose octets are not those of its buffers alone.
#[derive(Drop)]
struct OtherFields<'a> {
    buffers: Vec<NumberedInfoBuffer>,
    octets: Held<'a>,
}

/// Whether one of the buffers holds a key.
fn has_key(buffers: &[NumberedBufferView]) -> bool
    ensures { result ≡ has_key buffers.now }
{
    buffers
        .iter()
        .any(|buffer| holds_key(buffer.info_buffer().ul_type))
}

/// Appends the tokens of a PAC whose octets are not those of its buffers alone: its entries and its octets.
fn show_other(
    alloc: Global,
    label: &Label,
    octets: &[u8],
    buffers: &[NumberedBufferView],
    page: &mut Page,
) -> Result<(), AllocError>
    ensures ok { OnOk result (other_of label.now octets.now buffers.now page.old.items page.new.items) }
    ensures kept { OnOk result (Begins page.old.items page.new.items) }
    ensures err { OnErr result (page.new.items ≡ page.old.items) }
{
    let fields = OtherFields {
        buffers: entries(alloc, buffers)?,
        octets: Held {
            octets,
            holds_key: has_key(buffers),
        },
    };
    show_struct(
        alloc,
        label,
        &show_fields!(Format; fields; "buffers" = buffers, "octets" = octets),
        page,
    )
}

/// Appends the tokens of a PAC.
fn show_directory(
    alloc: Global,
    label: &Label,
    octets: &[u8],
    pac: &NumberedPacView,
    page: &mut Page,
) -> Result<(), AllocError>
    requires { NumberedPacIs octets.now pac.now }
    ensures ok { OnOk result (directory_of label.now octets.now pac.now page.old.items page.new.items) }
    ensures kept { OnOk result (Begins page.old.items page.new.items) }
    ensures err { OnErr result (page.new.items ≡ page.old.items) }
{
    let buffers = buffers(alloc, pac)?;
    if is_plain(octets, &buffers) {
        show_list::<Format, _>(alloc, label, &buffers, page)
    } else {
        show_other(alloc, label, octets, &buffers, page)
    }
}

/// Appends the tokens of the PAC (MS-PAC, 2.3, PACTYPE) that the octets are: of each buffer its type, its size and its offset in octets, and
/// its octets. Where the buffers do not stand one behind another in the order of their entries, each with zeros behind it up to a multiple of
/// eight, or other octets are there, the entries are shown, and then all octets. Octets that are no PAC are shown as octets. The only error
/// is an allocation failure.
pub fn show_pac(
    alloc: Global,
    label: &Label,
    octets: &[u8],
    page: &mut Page,
) -> Result<(), AllocError>
    ensures ok { OnOk result (pac_of label.now octets.now page.old.items page.new.items) }
    ensures kept { OnOk result (Begins page.old.items page.new.items) }
    ensures err { OnErr result (page.new.items ≡ page.old.items) }
{
    match NumberedPacView::new(octets) {
        Ok(pac) => show_directory(alloc, label, octets, &pac, page),
        Err(_) => show_octets(alloc, label, octets, page),
    }
}

/// The page of the PAC that the octets are, as by `show_pac`, under the name `PAC`. Other octets are refused with their
/// first error, as by `NumberedPacView::new`; an allocation failure is `OutOfMemory`, and comes only where they are a PAC.
pub fn page_of_pac(alloc: Global, octets: &[u8]) -> Result<Page, PacError>
    ensures found { IfOk result (λ page. (pac : List NumberedBuffer) × NumberedPacIs octets.now pac × directory_of (plain (codes "PAC")) octets.now pac [] page.items) }
    ensures reads { (pac : List NumberedBuffer) → NumberedPacIs octets.now pac → MatchResult result (λ page. Unit {0}) (λ e. e ≡ PacError.OutOfMemory) }
    ensures rejected { IfErr result (NumberedPacRejected octets.now) }
    ensures memory { IfErr result (λ e. e ≡ PacError.OutOfMemory → (pac : List NumberedBuffer) × NumberedPacIs octets.now pac) }
{
    let pac = NumberedPacView::new(octets)?;
    let label = Label::new("PAC");
    let mut page = Vec::new(alloc);
    show_directory(alloc, &label, octets, &pac, &mut page)?;
    Ok(page)
}

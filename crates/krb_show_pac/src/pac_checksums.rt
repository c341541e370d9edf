//! What is told of the checksums of a PAC.

ghost use Rattle.std.specs.Prelude.{◌≡◌, ◌≢◌, codes, MatchOption, OnOk};
ghost use Rattle.krb_pac.specs.declared.error.PacError.TheVariants as pac;
ghost use Rattle.krb_pac_signatures.specs.declared.error.PacSignatureError.TheVariants as errors;
ghost use Rattle.krb_show.specs.Leaves.{text_of};
ghost use Rattle.krb_show.specs.Pages.{◌then◌, ends_struct, struct_of};
ghost use Rattle.krb_show.specs.Tokens.{Begins, adds, mark, plain};
ghost use Rattle.krb_show_pac.specs.Checksums.{full_checksum, kdc_checksum, server_checksum};
ghost use Rattle.krb_show_pac.specs.Told.{checksums_of, error_words, pac_checksums, pac_fields, under_key, under_keys};

use crate::checksum::{full, kdc, server};
use crate::told::{tell_under_key, tell_under_keys};
use krb_decrypt::Key;
use krb_pac::PacError;
use krb_pac_signatures::{PacSignatureError, PacSignatures};
use krb_show::{Form, Label, Page, push_token, show_text};
use std::alloc::{AllocError, Global};

/// Tells of the server's checksum.
fn tell_server(
    alloc: Global,
    own: &[Key],
    key: &Key,
    signatures: &PacSignatures,
    page: &mut Page,
) -> Result<(), AllocError>
    ensures ok { OnOk result (under_key (plain (codes "server-checksum")) own.now key.now (server_checksum signatures.now) page.old.items page.new.items) }
    ensures kept { OnOk result (Begins page.old.items page.new.items) }
{
    let checksum = server(alloc, signatures)?;
    let label = Label::new("server-checksum");
    tell_under_key(alloc, &label, own, key, &checksum, page)
}

/// Tells of the KDC's checksum.
fn tell_kdc(
    alloc: Global,
    own: &[Key],
    key: &Key,
    signatures: &PacSignatures,
    page: &mut Page,
) -> Result<(), AllocError>
    ensures ok { OnOk result (under_keys (plain (codes "kdc-checksum")) (plain (codes "kdc-checksum-key")) own.now key.now (kdc_checksum signatures.now)
        page.old.items page.new.items) }
    ensures kept { OnOk result (Begins page.old.items page.new.items) }
{
    let checksum = kdc(alloc, signatures)?;
    let label = Label::new("kdc-checksum");
    let key_label = Label::new("kdc-checksum-key");
    tell_under_keys(alloc, &label, &key_label, own, key, &checksum, page)
}

/// Tells of the KDC's checksum over the whole PAC.
fn tell_full(
    alloc: Global,
    own: &[Key],
    key: &Key,
    signatures: &PacSignatures,
    page: &mut Page,
) -> Result<(), AllocError>
    ensures ok { OnOk result (under_keys (plain (codes "full-checksum")) (plain (codes "full-checksum-key")) own.now key.now (full_checksum signatures.now)
        page.old.items page.new.items) }
    ensures kept { OnOk result (Begins page.old.items page.new.items) }
{
    let checksum = full(alloc, signatures)?;
    let label = Label::new("full-checksum");
    let key_label = Label::new("full-checksum-key");
    tell_under_keys(alloc, &label, &key_label, own, key, &checksum, page)
}

/// Tells of the three checksums.
fn tell_signatures(
    alloc: Global,
    own: &[Key],
    key: &Key,
    signatures: &PacSignatures,
    page: &mut Page,
) -> Result<(), AllocError>
    ensures ok { OnOk result (checksums_of own.now key.now signatures.now page.old.items page.new.items) }
    ensures kept { OnOk result (Begins page.old.items page.new.items) }
{
    tell_server(alloc, own, key, signatures, page)?;
    tell_kdc(alloc, own, key, signatures, page)?;
    tell_full(alloc, own, key, signatures, page)
}

/// What is wrong with octets whose checksums are not found; `None` where an allocation failed.
pub(crate) fn words_of(error: &PacSignatureError) -> Option<&'static str>
    ensures { MatchOption result (error.now ≡ errors.Pac pac.OutOfMemory) (λ words. (words.now ≡ error_words error.now)
        × (error.now ≢ errors.Pac pac.OutOfMemory)) }
{
    match error {
        PacSignatureError::Truncated => Some("a signature ends too early"),
        PacSignatureError::Pac(error) => match error {
            PacError::IoError(_) => Some("the octets end too early"),
            PacError::PacBufferType(_) => Some("a buffer has the number of no type"),
            PacError::InvalidVersion(_) | PacError::Version(_) => Some("the version is not 0"),
            PacError::InvalidRange => Some("a buffer is not within the octets"),
            PacError::OutOfMemory => None,
        },
    }
}

/// Tells of the checksums of the PAC that the octets are, or what is wrong with them.
fn tell_octets(
    alloc: Global,
    own: &[Key],
    key: &Key,
    octets: &[u8],
    page: &mut Page,
) -> Result<(), AllocError>
    ensures ok { OnOk result (pac_fields own.now key.now octets.now page.old.items page.new.items) }
    ensures kept { OnOk result (Begins page.old.items page.new.items) }
{
    match PacSignatures::new(octets) {
        Ok(signatures) => tell_signatures(alloc, own, key, &signatures, page),
        Err(error) => {
            let Some(words) = words_of(&error) else {
                return Err(AllocError);
            };
            let label = Label::new("unread");
            show_text(alloc, &label, words.as_bytes(), page)
        }
    }
}

/// Appends a token that holds nothing.
fn push_mark(alloc: Global, form: Form, label: &Label, page: &mut Page) -> Result<(), AllocError>
    ensures ok { OnOk result (adds (mark form label.now) page.old.items page.new.items) }
    ensures kept { OnOk result (Begins page.old.items page.new.items) }
{
    push_token(alloc, form, label, Vec::new(alloc), Vec::new(alloc), page)
}

/// Tells of the PAC that the octets are, and ends the struct.
fn tell_to_end(
    alloc: Global,
    label: &Label,
    own: &[Key],
    key: &Key,
    octets: &[u8],
    page: &mut Page,
) -> Result<(), AllocError>
    ensures ok { OnOk result ((pac_fields own.now key.now octets.now then ends_struct label.now) page.old.items page.new.items) }
    ensures kept { OnOk result (Begins page.old.items page.new.items) }
{
    tell_octets(alloc, own, key, octets, page)?;
    push_mark(alloc, Form::StructEnd, label, page)
}

/// Tells of the PAC that the octets are, in a struct.
fn tell_struct(
    alloc: Global,
    label: &Label,
    own: &[Key],
    key: &Key,
    octets: &[u8],
    page: &mut Page,
) -> Result<(), AllocError>
    ensures ok { OnOk result (struct_of label.now (pac_fields own.now key.now octets.now) page.old.items page.new.items) }
    ensures kept { OnOk result (Begins page.old.items page.new.items) }
{
    push_mark(alloc, Form::Struct, label, page)?;
    tell_to_end(alloc, label, own, key, octets, page)
}

/// Appends a struct of what is known of the checksums of the PAC that the octets are: of the server's under the key that opened the ticket, of the
/// KDC's two under the caller's own keys. The work is that of a checksum of the PAC for each of these keys, and two.
pub(crate) fn tell_pac(
    alloc: Global,
    own: &[Key],
    key: &Key,
    octets: &[u8],
    page: &mut Page,
) -> Result<(), AllocError>
    ensures ok { OnOk result (pac_checksums own.now key.now octets.now page.old.items page.new.items) }
    ensures kept { OnOk result (Begins page.old.items page.new.items) }
{
    let label = Label::new("PAC-checksums");
    tell_struct(alloc, &label, own, key, octets, page)
}

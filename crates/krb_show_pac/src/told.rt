//! What is told of one checksum.

ghost use Rattle.std.specs.Prelude.{◌≡◌, ◌⊎◌, MatchBool, OnOk};
ghost use Rattle.krb_crypto.specs.Suites.{checksum_type, NoSuite};
ghost use Rattle.krb_crypto.specs.declared.checksum_suite.ChecksumSuite.{ChecksumSuite};
ghost use Rattle.krb_pac_signatures.specs.declared.verdict.Verdict.TheVariants as verdict;
ghost use Rattle.krb_show.specs.Leaves.{text_of};
ghost use Rattle.krb_show.specs.Pages.{◌then◌};
ghost use Rattle.krb_show.specs.Tokens.{Begins};
ghost use Rattle.krb_show_pac.specs.Told.{made_with, told, under_key, under_keys, under_none, under_others, unverified};

use crate::checksum::PacChecksum;
use crate::holders::{first_failing, first_holder, first_kdcs, have_same_octets, is_one_of};
use krb_crypto::ChecksumSuite;
use krb_decrypt::Key;
use krb_pac_signatures::Verdict;
use krb_show::{Label, Page, show_text, show_word};
use std::alloc::{AllocError, Global};

/// Tells a verdict.
fn tell(alloc: Global, label: &Label, verdict: Verdict, page: &mut Page) -> Result<(), AllocError>
    ensures ok { OnOk result (told label.now verdict page.old.items page.new.items) }
    ensures kept { OnOk result (Begins page.old.items page.new.items) }
{
    match verdict {
        Verdict::Absent => show_word(alloc, label, b"absent", page),
        Verdict::NotVerified => {
            show_text(
                alloc,
                label,
                b"not verified: its type is not supported",
                page,
            )
        }
        Verdict::KeyLength => {
            show_text(
                alloc,
                label,
                b"not verified: the key is of another type",
                page,
            )
        }
        Verdict::Holds => show_word(alloc, label, b"holds", page),
        Verdict::Differs => show_word(alloc, label, b"differs", page),
    }
}

/// Tells of a checksum under the key that opened the ticket, where that is one of the caller's own.
pub(crate) fn tell_under_key(
    alloc: Global,
    label: &Label,
    own: &[Key],
    key: &Key,
    checksum: &Option<PacChecksum>,
    page: &mut Page,
) -> Result<(), AllocError>
    ensures ok { OnOk result (under_key label.now own.now key.now checksum.now page.old.items page.new.items) }
    ensures kept { OnOk result (Begins page.old.items page.new.items) }
{
    let Some(checksum) = checksum else {
        return tell(alloc, label, Verdict::Absent, page);
    };
    if !is_one_of(key, own) {
        return show_text(
            alloc,
            label,
            b"not verified: the key was found in another part",
            page,
        );
    }
    tell(alloc, label, checksum.verdict(&key.octets), page)
}

/// Whether a suite has the number.
fn is_supported(number: u32) -> bool
    ensures { MatchBool result ((suite : ChecksumSuite) × (checksum_type suite ≡ number)) (NoSuite checksum_type number) }
{
    match ChecksumSuite::try_from(number as usize) {
        Ok(_suite) => true,
        Err(_error) => false,
    }
}

/// Tells why a checksum is not verified.
fn tell_unverified(
    alloc: Global,
    label: &Label,
    checksum: &PacChecksum,
    page: &mut Page,
) -> Result<(), AllocError>
    ensures ok { OnOk result (unverified label.now checksum.now page.old.items page.new.items) }
    ensures kept { OnOk result (Begins page.old.items page.new.items) }
{
    if is_supported(checksum.number()) {
        return show_text(
            alloc,
            label,
            b"not verified: no key of the KDC of its type was given",
            page,
        );
    }
    tell(alloc, label, Verdict::NotVerified, page)
}

/// Tells that a checksum holds or fails, and under which key.
fn tell_verified(
    alloc: Global,
    label: &Label,
    key_label: &Label,
    verdict: Verdict,
    key: &Key,
    page: &mut Page,
) -> Result<(), AllocError>
    ensures ok { OnOk result ((told label.now verdict then text_of key_label.now key.now.name) page.old.items page.new.items) }
    ensures kept { OnOk result (Begins page.old.items page.new.items) }
{
    tell(alloc, label, verdict, page)?;
    show_text(alloc, key_label, &key.name, page)
}

/// Tells of a checksum that holds under none of the keys.
fn tell_none(
    alloc: Global,
    label: &Label,
    key_label: &Label,
    own: &[Key],
    opener: &Key,
    checksum: &PacChecksum,
    page: &mut Page,
) -> Result<(), AllocError>
    ensures ok { OnOk result (under_none label.now key_label.now own.now opener.now checksum.now page.old.items page.new.items) }
    ensures kept { OnOk result (Begins page.old.items page.new.items) }
{
    match first_failing(checksum, opener, own) {
        Some(key) => tell_verified(alloc, label, key_label, Verdict::Differs, key, page),
        None => tell_unverified(alloc, label, checksum, page),
    }
}

/// Tells that a checksum is made with a key that is not the KDC's.
fn tell_made(
    alloc: Global,
    label: &Label,
    opener: &Key,
    key: &Key,
    page: &mut Page,
) -> Result<(), AllocError>
    ensures ok { OnOk result (made_with label.now opener.now key.now page.old.items page.new.items) }
    ensures kept { OnOk result (Begins page.old.items page.new.items) }
{
    if have_same_octets(key, opener) {
        return show_text(
            alloc,
            label,
            b"made with the key that opened the ticket",
            page,
        );
    }
    show_text(alloc, label, b"made with a key that is not the KDC's", page)
}

/// Tells with which key that is not the KDC's a checksum is made.
fn tell_maker(
    alloc: Global,
    label: &Label,
    key_label: &Label,
    opener: &Key,
    key: &Key,
    page: &mut Page,
) -> Result<(), AllocError>
    ensures ok { OnOk result ((made_with label.now opener.now key.now then text_of key_label.now key.now.name) page.old.items page.new.items) }
    ensures kept { OnOk result (Begins page.old.items page.new.items) }
{
    tell_made(alloc, label, opener, key, page)?;
    show_text(alloc, key_label, &key.name, page)
}

/// Tells of a checksum that holds under none of the keys that may be the KDC's.
fn tell_under_others(
    alloc: Global,
    label: &Label,
    key_label: &Label,
    own: &[Key],
    opener: &Key,
    checksum: &PacChecksum,
    page: &mut Page,
) -> Result<(), AllocError>
    ensures ok { OnOk result (under_others label.now key_label.now own.now opener.now checksum.now page.old.items page.new.items) }
    ensures kept { OnOk result (Begins page.old.items page.new.items) }
{
    match first_holder(checksum, own) {
        Some(key) => tell_maker(alloc, label, key_label, opener, key, page),
        None => tell_none(alloc, label, key_label, own, opener, checksum, page),
    }
}

/// Tells of a checksum of the KDC under the first of the caller's keys that may be the KDC's under
/// which it holds, or that it is made with another.
pub(crate) fn tell_under_keys(
    alloc: Global,
    label: &Label,
    key_label: &Label,
    own: &[Key],
    opener: &Key,
    checksum: &Option<PacChecksum>,
    page: &mut Page,
) -> Result<(), AllocError>
    ensures ok { OnOk result (under_keys label.now key_label.now own.now opener.now checksum.now page.old.items page.new.items) }
    ensures kept { OnOk result (Begins page.old.items page.new.items) }
{
    let Some(checksum) = checksum else {
        return tell(alloc, label, Verdict::Absent, page);
    };
    match first_kdcs(checksum, opener, own) {
        Some(key) => tell_verified(alloc, label, key_label, Verdict::Holds, key, page),
        None => tell_under_others(alloc, label, key_label, own, opener, checksum, page),
    }
}

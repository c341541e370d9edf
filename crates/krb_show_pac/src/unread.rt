//! Why octets are not read.

ghost use Rattle.std.specs.Prelude.{◌≡◌, OnOk, OnErr};
ghost use Rattle.krb_show.specs.Tokens.{Begins};
ghost use Rattle.krb_show_pac.specs.Unread.{buffer_words, logon_words, unread_of};

use krb_pac_contents::LogonError;
use krb_pac_contents::buffers::BufferError;
use krb_show::{Label, Page, show_text};
use std::alloc::{AllocError, Global};

/// What is wrong with octets that are no logon information, or no security identifier.
pub(crate) fn logon_words(error: LogonError) -> &'static str
    ensures { result.now ≡ logon_words error }
{
    match error {
        LogonError::Truncated => "the octets end too early",
        LogonError::Version => "the version of the serialization is not 1",
        LogonError::Endianness => "the octets are not little endian",
        LogonError::HeaderLength => "the length of the common header is not 8",
        LogonError::ObjectLength => "the length of the object is not that of its octets",
        LogonError::NullPointer => "a pointer is null that has to point to something",
        LogonError::EmptyArray => "a pointer to no elements is not null",
        LogonError::ReferentOrder => "a referent id is used twice or is out of order",
        LogonError::StringLength => "the length of a string is odd",
        LogonError::StringMaximum => "the length of a string is greater than its maximum",
        LogonError::MaximumCount =>
            "the maximum count of an array is another than its structure says",
        LogonError::Offset => "the offset of a string is not 0",
        LogonError::ActualCount =>
            "the actual count of a string is another than its structure says",
        LogonError::Padding => "padding is missing",
        LogonError::SidConformance => {
            "the maximum count of a SID is another than its count of sub-authorities"
        }
        LogonError::SidRevision => "the revision of a SID is not 1",
        LogonError::SubAuthorityCount => "a SID has more than 15 sub-authorities",
        LogonError::TrailingOctets => "octets are left over",
    }
}

/// What is wrong with octets that are no small buffer.
pub(crate) fn buffer_words(error: BufferError) -> &'static str
    ensures { result.now ≡ buffer_words error }
{
    match error {
        BufferError::Truncated => "the octets end too early",
        BufferError::NameLength => "the length of a name is odd",
        BufferError::Range => "a name or an identifier is not within the octets",
        BufferError::TrailingOctets => "octets are left over",
        BufferError::Sid(error) => logon_words(error),
    }
}

/// Appends what is wrong with octets that are not read.
pub(crate) fn show_unread(alloc: Global, words: &str, page: &mut Page) -> Result<(), AllocError>
    ensures ok { OnOk result (unread_of words.now page.old.items page.new.items) }
    ensures kept { OnOk result (Begins page.old.items page.new.items) }
    ensures err { OnErr result (page.new.items ≡ page.old.items) }
{
    show_text(alloc, &Label::new("unread"), words.as_bytes(), page)
}

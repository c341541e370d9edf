//! Why octets are no logon information.

use thiserror::Error;

/// The first error of octets that are no KERB_VALIDATION_INFO, or no security identifier.
#[derive(Debug, Clone, Copy, PartialEq, Eq, Error)]
pub enum LogonError {
    /// The octets end within a number, an array or an identifier, or the fixed part is not all there.
    #[error("the octets end too early")]
    Truncated,
    /// The first octet is not 1, the version of the type serialization (MS-RPCE 2.2.6.1).
    #[error("the version of the serialization is not 1")]
    Version,
    /// The second octet is not 0x10, little endian (MS-RPCE 2.2.6.1).
    #[error("the octets are not little endian")]
    Endianness,
    /// The common header does not say that it has 8 octets (MS-RPCE 2.2.6.1).
    #[error("the length of the common header is not 8")]
    HeaderLength,
    /// The private header does not say how many octets follow it (MS-RPCE 2.2.6.2).
    #[error("the length of the object is not that of the octets after the headers")]
    ObjectLength,
    /// A pointer is null where it has to point to something: the first of all, that of LogonDomainId, that of an extra SID, that of a
    /// string whose maximum length is not 0, that of an array whose count is not 0.
    #[error("a pointer is null that has to point to something")]
    NullPointer,
    /// A pointer to an array whose count is 0 is not null. NDR allows it; MS-PAC 2.5 does not.
    #[error("a pointer to no elements is not null")]
    EmptyArray,
    /// No call returns it. Unique pointers have any ids but 0, in any order, and two may have the
    /// same (C706, 14.3.11.2).
    #[error("a referent id is used twice or is out of order")]
    ReferentOrder,
    /// A string's length or maximum length is odd (MS-DTYP 2.3.10).
    #[error("the length of a string is odd")]
    StringLength,
    /// A string's length is greater than its maximum length (MS-DTYP 2.3.10).
    #[error("the length of a string is greater than its maximum")]
    StringMaximum,
    /// The maximum count of an array is not the one that the fixed part says (C706, 14.3.3.3 and 14.3.4).
    #[error("the maximum count of an array is another than its structure says")]
    MaximumCount,
    /// The offset of a string's array is not 0 (C706, 14.3.3.3).
    #[error("the offset of a string is not 0")]
    Offset,
    /// The actual count of a string's array is not half the string's length (C706, 14.3.3.3).
    #[error("the actual count of a string is another than its structure says")]
    ActualCount,
    /// The padding after a string is not all there, or that at the end is there in part.
    #[error("padding is missing")]
    Padding,
    /// The maximum count of a SID is not its SubAuthorityCount (MS-DTYP 2.4.2.3).
    #[error("the maximum count of a SID is another than its count of sub-authorities")]
    SidConformance,
    /// The revision of a SID is not 1 (MS-DTYP 2.4.2).
    #[error("the revision of a SID is not 1")]
    SidRevision,
    /// A SID has more than 15 sub-authorities (MS-DTYP 2.4.2).
    #[error("a SID has more than 15 sub-authorities")]
    SubAuthorityCount,
    /// Octets are left over beyond the padding to a multiple of 8.
    #[error("octets are left over")]
    TrailingOctets,
}

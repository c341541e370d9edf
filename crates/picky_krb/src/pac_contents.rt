//! What the buffers of a PAC hold (MS-PAC, 2.5 to 2.15), over the octets that the caller holds: the logon information, small buffers, signatures
//! and whether they hold, and their text. The original has no such module.

pub use krb_pac_contents::buffers::{
    AttributesView, BufferError, ClientInfoView, UpnDnsView, requestor,
};
pub use krb_pac_contents::text::{FileTime, name_text, sid_text, time_of_filetime};
pub use krb_pac_contents::{
    ExtraSids, LogonError, LogonView, Membership, Memberships, SidAndAttributes, SidView,
    SubAuthorities,
};
pub use krb_pac_signatures::{
    PacChecksum, PacSignatureError, PacSignatures, PacVerdicts, SignatureView, Verdict,
    full_verdict, kdc_verdict, server_verdict, ticket_verdict, verdicts, verify,
};

//! Small buffers of a PAC over the octets that the caller holds: PAC_CLIENT_INFO (MS-PAC 2.7), UPN_DNS_INFO (2.10), PAC_ATTRIBUTES_INFO (2.14)
//! and PAC_REQUESTOR (2.15). None takes memory.

mod attributes;
mod client;
mod error;
mod upn;

pub use attributes::{AttributesView, requestor};
pub use client::ClientInfoView;
pub use error::BufferError;
pub use upn::UpnDnsView;

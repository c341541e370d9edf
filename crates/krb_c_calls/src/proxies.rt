//! The library's calls for a proxy in front of a KDC (MS-KKDCP) and for its clients, as C makes them: octets in; a status out, and numbers, places and octets in
//! the caller's memory.

mod client;
mod posted;
mod reply;
mod request;

pub use client::{make_proxy_request, read_proxy_reply};
pub use posted::PostedRecord;
pub use reply::{proxy_is_whole, proxy_reply, proxy_reply_datagram};
pub use request::{proxy_request, proxy_request_lenient};

//! The messages over the octets that the caller holds: what `decode` reads, with slices for values, and without memory.

pub use crate::view::{
    AuthSchemesView, ChecksumView, ExchangeView, ExtensionView, ExtensionsView, NegoView,
    VerifyView,
};

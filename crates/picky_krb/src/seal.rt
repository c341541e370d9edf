//! Sealing and opening the encoding of a value, by any cipher.

pub use krb_crypto::seal::{PartError, open_part, prepared, seal_part};

//! AES (FIPS 197) by word tables: four look-ups for each column of a round, in tables that hold the S-box and MixColumns in one. It is for
//! machines whose vectors have no byte permute. **It reads memory at addresses that depend on the key and on the block**, which who shares
//! the processor's cache can watch; the suites do not use it.
#![tactic(auto)]

mod agreement;
mod encrypting_tables;
mod key;
mod key_expansion;
mod opening_tables;
mod rounds;
mod tables;
pub mod word_tables;

pub use agreement::agree;
pub use key::AesTableKey;

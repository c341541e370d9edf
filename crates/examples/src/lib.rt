//! What the documents show, by the public calls of `picky_krb` alone. Nothing depends on it.
//!
//! `reseal` is the file of the README, and `note` the type at the head of `composite.rt` of `krb_der`; `./test` compares their texts.
#![tactic(auto)]

pub mod buffer_count;
pub mod conversions;
pub mod note;
pub mod offered_schemes;
pub mod reseal;
pub mod sealed_octets;
pub mod written_again;

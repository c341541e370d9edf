//! Where the content at the end of a path of tags and items stands in octets (X.690, 8.1.1).
#![tactic(auto)]

pub mod places;
